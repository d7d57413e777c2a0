//! What names stand for in a profile.

ghost use Rattle.std.specs.Prelude.{◌≡◌, ◌≤◌, IfSome, false};
ghost use Rattle.std.specs.List.{slice_split};
ghost use Rattle.std.specs.Option.{option_map_or};
ghost use Rattle.avp_dict.specs.Names.{form_of};
ghost use Rattle.avp_dict.specs.Spellings.{is_colon};
ghost use Rattle.avp_forms.specs.Targets.{has_tag, tagged_by, tagged_of, target_of};

use crate::numerals::number_within;
use crate::parts::first_between;
use crate::profiles::Profile;
use crate::values::MAX_TAG;
use avp_dict::{Dictionary, Form, Named};
use avp_lists::AttrId;

/// What a name stands for.
#[derive(Clone, Copy, Debug, PartialEq, Eq)]
pub struct Target {
    pub named: Named,
    /// The tag beside the attribute's name, as the `1` of `Tunnel-Type:1`: at most [`MAX_TAG`].
    pub tag: Option<u8>,
}

fn has_tag(form: Form) -> bool
    ensures { result ≡ has_tag form }
{
    matches!(form, Form::TaggedInteger | Form::TaggedString)
}

// Whether values of the attribute have tags.
fn is_tagged(dictionary: &Dictionary, id: AttrId) -> bool
    ensures { result ≡ option_map_or has_tag (form_of id dictionary.now) false }
{
    match dictionary.form(id) {
        Some(form) => has_tag(form),
        None => false,
    }
}

// A name of an ATTRIBUTE line whose values have tags, and the digits of a tag.
fn tagged_by(dictionary: &Dictionary, digits: &[u8], named: Named) -> Option<Target>
    ensures { result ≡ tagged_by dictionary.now digits.now named }
{
    if named.raw || !is_tagged(dictionary, named.id) {
        return None;
    }
    let tag = number_within(10, MAX_TAG as u64, digits)?;
    Some(Target {
        named,
        tag: Some(tag as u8),
    })
}

// A name and a tag, with a colon between.
fn tagged_of(dictionary: &Dictionary, name: &[u8]) -> Option<Target>
    ensures { result ≡ tagged_of dictionary.now (slice_split is_colon name.now) }
{
    let (before, digits) = first_between(b':', name)?;
    match first_between(b':', digits) {
        Some(_) => None,
        None => tagged_by(dictionary, digits, dictionary.by_name(before)?),
    }
}

/// What a name stands for: an attribute, as [`Dictionary::by_name`] has it. In the wider profile a name that is none
/// may also be an attribute's, a colon, and a tag of at most [`MAX_TAG`] in decimal digits, where the attribute's values
/// have tags.
///
/// ```rust
/// // `ATTRIBUTE Tunnel-Type 64 integer has_tag`
/// let target = target_of(dictionary, Profile::Wider, b"Tunnel-Type:1").ok_or("no target")?;
/// assert_eq!(rt; (target.named.id, target.tag), (AttrId::Plain(64), Some(1)));
/// let plain = target_of(dictionary, Profile::Plain, b"Tunnel-Type:1");
/// assert_eq!(rt; plain, None);
/// ```
#[tactic(auto, unfolding(crate::specs::Targets::target_of))]
#[inline]
pub fn target_of(dictionary: &Dictionary, profile: Profile, name: &[u8]) -> Option<Target>
    ensures { result ≡ target_of profile dictionary.now name.now }
{
    match (dictionary.by_name(name), profile) {
        (Some(named), _) => Some(Target { named, tag: None }),
        (None, Profile::Plain) => None,
        (None, Profile::Wider) => tagged_of(dictionary, name),
    }
}
