//! Laws of all texts, values and octets, as calls that do nothing: their contracts are what they are for.

ghost use Rattle.std.specs.Prelude.{IsTrue};
ghost use Rattle.avp_dict.specs.Laws.{is_writable};
ghost use Rattle.avp_forms.specs.AddressLaws.{ReadsEachAddress, ReadsNoOther};
ghost use Rattle.avp_forms.specs.Laws.{PrintsOctets, ReadsBack, WrittenValuesFit};
ghost use Rattle.avp_forms.specs.PairLaws.{PairReadsBack};
ghost use Rattle.avp_forms.specs.Requests.{IsRefusedOnce};
ghost use Rattle.avp_forms.specs.Values.{is_proper};
ghost use Rattle.avp_forms.specs.internal.Ranges.{AreBytesInRange, AreOctets, IsInRange};

use crate::profiles::Profile;
use crate::values::FormValue;
use avp_dict::{Dictionary, Form};
use avp_lists::{AttrId, Pair, Value};

/// An IPv6 address is read from the texts of RFC 4291, section 2.2, and from no others.
#[tactic(auto, using(crate::proofs::AddressLaws::reads_each_address, crate::proofs::AddressLaws::reads_no_other))]
pub fn reads_addresses()
    ensures each { ReadsEachAddress }
    ensures no_other { ReadsNoOther }
{}

fn octets_in_range(octets: &[u8])
    ensures { AreOctets octets.now }
{}

// What the type of a value keeps its octets and numbers within.
fn value_in_range(value: &FormValue)
    ensures { IsInRange value.now }
{
    match value {
        FormValue::Ipv6Address(octets) => octets_in_range(octets),
        FormValue::Ipv6Prefix(octets, _) => octets_in_range(octets),
        FormValue::Ipv4Prefix(octets, _) => octets_in_range(octets),
        FormValue::InterfaceId(octets) => octets_in_range(octets),
        FormValue::Date(seconds) => {
            let _seconds = *seconds;
        }
        FormValue::TaggedNumber(_, number) => {
            let _number = *number;
        }
        FormValue::TaggedText(_, text) => octets_in_range(text.as_slice()),
    }
}

// What the type of a pair's value keeps octets within.
fn bytes_in_range(value: &Value)
    ensures { AreBytesInRange value.now }
{
    match value {
        Value::Bytes(octets) => octets_in_range(octets.as_slice()),
        _ => {}
    }
}

impl FormValue {
    /// What is printed for a value within the bounds of its form is read, with its tag, as the value.
    pub fn read_back(&self, dictionary: &Dictionary, id: AttrId)
        requires { IsTrue (is_proper self.now) }
        ensures { ReadsBack self.now id dictionary.now }
    {
        dictionary.is_sound();
        value_in_range(self);
    }
}

/// What is printed for octets: of those with a meaning a text that is read as the value which they mean, and that value
/// is sent as the same octets exactly where they are the form's own; of those without a meaning `0x` and the octets.
pub fn octets_read_back(dictionary: &Dictionary, form: Form, id: AttrId, octets: &[u8])
    ensures { PrintsOctets form octets.now id dictionary.now }
{
    dictionary.is_sound();
    octets_in_range(octets);
}

/// The pair of a name and a text that stands for a value under it fits.
#[tactic(auto, using(crate::proofs::WrittenValues::written_fits))]
pub fn written_values_fit(dictionary: &Dictionary)
    ensures { WrittenValuesFit dictionary.now }
{
    dictionary.is_sound();
}

/// What is printed for a pair in the wider profile is read back in it: as the pair, or where it is printed by what its
/// value means, as the value that is sent for that.
pub fn pair_read_back(dictionary: &Dictionary, pair: &Pair)
    requires { IsTrue (is_writable pair.now dictionary.now) }
    ensures { PairReadsBack pair.now dictionary.now }
{
    dictionary.is_sound();
    dictionary.printed_back(pair);
    bytes_in_range(&pair.value);
}

/// The fault that [`read_request`](crate::read_request) tells of a text is the only one that it can tell, want of memory
/// aside: no other place is the first refused one.
#[tactic(auto, using(crate::proofs::RefusedOnce::refused_once_in))]
pub fn refused_once(dictionary: &Dictionary, profile: Profile, zone: Option<i16>, text: &[u8])
    ensures { IsRefusedOnce profile zone dictionary.now text.now }
{}
