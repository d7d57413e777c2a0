//! Request lines in a profile.

ghost use Rattle.std.specs.Prelude.{◌≡◌, ◌≢◌, ◌≤◌, All, IfErr, IfOk, IsTrue, List, None, Some, length, take, true};
ghost use Rattle.avp_lists.specs.States.{max_pairs};
ghost use Rattle.avp_lists.specs.declared.pairs.Pair.{Pair};
ghost use Rattle.avp_dict.specs.Limits.{fits};
ghost use Rattle.avp_dict.specs.LineNumbers.{line_after};
ghost use Rattle.avp_dict.specs.RefusedPlaces.{is_before_filled};
ghost use Rattle.avp_dict.specs.Sent.{is_clean};
ghost use Rattle.avp_forms.specs.Requests.{IsOutOfMemoryIn, IsRefusedIn, request_written};

use crate::profiles::Profile;
use crate::targets::{Target, target_of};
use crate::written::value_written;
use avp_dict::{Dictionary, LineFault, LineKind, PairReader, ValueFault, read_pairs};
use avp_lists::Pair;
use std::alloc::Global;

// What reads names and texts of the wider profile.
#[derive(Clone, Copy)]
struct WiderReader<'a> {
    dictionary: &'a Dictionary,
    zone: Option<i16>,
}

impl PairReader for WiderReader<'_> {
    type Target = Target;

    ghost use Rattle.avp_forms.specs.Requests.{pair_written, refusal_written};
    ghost use Rattle.avp_forms.specs.Targets.{target_of};
    ghost use Rattle.avp_forms.specs.Written.{takes_memory};
    ghost use Rattle.avp_forms.specs.declared.profiles.Profile.TheVariants.{Wider};

    ghost target_of = { λ reader name. target_of Wider reader.dictionary.now name };

    ghost pair_of = { λ reader target text.
        pair_written reader.zone reader.dictionary.now target text };

    ghost refusal_of = { λ reader target text.
        refusal_written reader.zone reader.dictionary.now target text };

    ghost takes_memory = { λ reader target text.
        takes_memory Wider target text reader.zone reader.dictionary.now };

    fn target(&self, name: &[u8]) -> Option<Target> {
        target_of(self.dictionary, Profile::Wider, name)
    }

    #[tactic(auto, using(crate::proofs::BarredTargets::barred_target, crate::proofs::BarredTargets::barred_target_pair))]
    fn is_barred(&self, target: Target) -> bool {
        self.dictionary.is_barred(target.named)
    }

    fn pair(&self, alloc: Global, target: Target, text: &[u8]) -> Result<Pair, ValueFault> {
        let value = value_written(
            alloc,
            self.dictionary,
            Profile::Wider,
            target,
            self.zone,
            text,
        )?;
        Ok(Pair {
            id: target.named.id,
            value,
        })
    }
}

/// The request that the lines of a text spell in a profile, as [`Dictionary::read_request`] reads it. In the wider
/// profile names may have tags, and texts are those of forms too, as for [`target_of`] and [`value_written`]. The
/// profile that the text itself asks for is what [`profile_of`](crate::profile_of) gives of it.
///
/// ```rust
/// let text = b"# profile: wider\nTunnel-Type:1 = VLAN";
/// let profile = profile_of(text);
/// let request = read_request(alloc, dictionary, profile, None, text)?;
/// assert_eq!(rt; request.len(), 1);
/// ```
#[tactic(auto, unfolding(crate::specs::Requests::request_written))]
pub fn read_request(
    alloc: Global,
    dictionary: &Dictionary,
    profile: Profile,
    zone: Option<i16>,
    text: &[u8],
) -> Result<Vec<Pair>, LineFault>
    ensures read { IfOk result (λ pairs.
        request_written profile zone text.now dictionary.now ≡ Some pairs.items) }
    ensures fits { IfOk result (λ pairs.
        All (λ pair. IsTrue (fits pair dictionary.now)) pairs.items) }
    ensures few { IfOk result (λ pairs. length pairs.items ≤ max_pairs) }

    // What is written of the pairs is read back as they are.
    ensures clean { IfOk result (λ pairs. is_clean pairs.items dictionary.now ≡ true) }
    ensures only { IfOk result (λ pairs. (other : List Pair)
        → request_written profile zone text.now dictionary.now ≡ Some other → other ≡ pairs.items) }
    ensures refused { IfErr result (λ fault. fault.kind ≢ LineKind.Memory
        → request_written profile zone text.now dictionary.now ≡ None) }

    // A refusal has its place in the text.
    ensures within { IfErr result (λ fault. fault.offset ≤ length text.now) }
    ensures line { IfErr result (λ fault. fault.line ≡ line_after (take fault.offset text.now)) }
    ensures filled { IfErr result (λ fault. is_before_filled fault.offset text.now ≡ true) }
    ensures place { IfErr result (λ fault.
        IsRefusedIn profile zone dictionary.now text.now fault.kind fault.offset) }
    ensures memory { IfErr result (λ fault. fault.kind ≡ LineKind.Memory
        → IsOutOfMemoryIn profile zone dictionary.now text.now fault.offset) }
{
    match profile {
        Profile::Plain => dictionary.read_request(alloc, text),
        Profile::Wider => {
            // That each pair fits rests on what holds of the lines of every dictionary.
            dictionary.is_sound();
            read_pairs(&WiderReader { dictionary, zone }, alloc, text)
        }
    }
}
