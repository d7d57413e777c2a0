//! Laws of every dictionary, as calls that do nothing: their contracts are what they are for.

ghost use Rattle.std.specs.Prelude.{◌≤◌, All, IsTrue, length};
ghost use Rattle.avp_dict.specs.Laws.{IsRefusedOnce, ReadsBack, SpelledPairsFit, SpelledValuesClean, is_writable};
ghost use Rattle.avp_dict.specs.Letters.{max_name};
ghost use Rattle.avp_dict.specs.Soundness.{HasKnownFormats, IsSound, NamesKnown};
ghost use Rattle.avp_dict.specs.internal.Ranges.{AreOctets, IsIdInRange, IsValueInRange};

use crate::dictionaries::Dictionary;
use avp_lists::{AttrId, Pair, Value};

// What the type of an id keeps its numbers within.
fn id_in_range(id: AttrId)
    ensures { IsIdInRange id }
{
    match id {
        AttrId::Plain(_) => {}
        AttrId::Vendor(_, _) => {}
        AttrId::Extended(_, _) => {}
    }
}

fn octets_in_range(octets: &[u8])
    ensures { AreOctets octets.now }
{}

// What the type of a value keeps its numbers within.
fn value_in_range(value: &Value)
    ensures { IsValueInRange value.now }
{
    match value {
        Value::Text(octets) => octets_in_range(octets.as_slice()),
        Value::Bytes(octets) => octets_in_range(octets.as_slice()),
        Value::Int(number) => {
            let _number = *number;
        }
        Value::Signed(number) => {
            let _number = *number;
        }
        Value::Addr(address) => octets_in_range(address),
        Value::Ether(address) => octets_in_range(address),
        Value::Raw(octets) => octets_in_range(octets.as_slice()),
    }
}

impl Dictionary {
    /// What holds of the lines of every dictionary that was read: a name stands for a known attribute, and a vendor has
    /// one of the formats that there are.
    #[tactic(auto, using(crate::proofs::Fitting::names_known, crate::proofs::Fitting::formats_known))]
    pub fn is_sound(&self)
        ensures sound { IsSound self.now }
        ensures names { NamesKnown self.now }
        ensures formats { HasKnownFormats self.now }
    {
        self.sound();
    }

    /// What is printed for a pair is read back: the printed name names the attribute, and the printed text, a string's
    /// between its quotes, stands for the value.
    pub fn printed_back(&self, pair: &Pair)
        requires { IsTrue (is_writable pair.now self.now) }
        ensures { ReadsBack pair.now self.now }
    {
        self.sound();
        id_in_range(pair.id);
        value_in_range(&pair.value);
    }

    /// No VALUE line has a name of more than the 128 octets that a name may have.
    pub fn names_are_short(&self)
        ensures values { All (λ line. length line.name ≤ max_name) self.now.values }
        ensures tagged { All (λ line. length line.name ≤ max_name) self.now.tagged_values }
    {
        self.short_names();
    }

    /// A value that a text stands for is read back from its own octets.
    #[tactic(auto, using(crate::proofs::SpelledClean::spelled_clean))]
    pub fn spelled_values_clean(&self)
        ensures { SpelledValuesClean self.now }
    {
        self.sound();
    }

    /// The fault that [`read_request`](Dictionary::read_request) tells of a text is the only one that it can tell, want
    /// of memory aside: no other place is the first refused one.
    pub fn refused_once(&self, text: &[u8])
        ensures { IsRefusedOnce self.now text.now }
    {}

    /// The pair of a name and a text that stands for a value under it fits.
    #[tactic(auto, using(crate::proofs::Fitting::spelled_fits))]
    pub fn spelled_pairs_fit(&self)
        ensures { SpelledPairsFit self.now }
    {
        self.sound();
    }
}
