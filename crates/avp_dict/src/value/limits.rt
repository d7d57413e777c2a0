//! How long values may be, and which pairs fit a dictionary.

ghost use Rattle.std.specs.Prelude.{◌≡◌, length, min, if◌then◌else◌};
ghost use Rattle.avp_dict.specs.Limits.{extended_room, fits, greatest_length, is_known, is_of_kind, is_typed, is_value_within, is_within, max_number, max_octets, vendor_room};
ghost use Rattle.avp_dict.specs.Octets.{ends_in_nul, is_hidden, kind_of, max_hidden_octets, number_octets, octets_of};

use crate::attribute_numbers::{MAX_PLAIN, is_extended_type};
use crate::dictionaries::Dictionary;
use crate::entries::{Format, Kind};
use crate::file::values::max_of;
use crate::value::octets::{MAX_HIDDEN_OCTETS, ends_in_nul};
use avp_lists::{AttrId, Pair, Value};

// A packet has at most 4096 octets, and 4012 of one value in 16 fragments fill it (RFC 6929, section 2.2).
const MAX_LONG_OCTETS: usize = 4012;

fn vendor_room(format: Format) -> usize
    ensures { result ≡ vendor_room format }
{
    249usize
        .saturating_sub(usize::from(format.t))
        .saturating_sub(usize::from(format.l))
}

fn extended_room(t: u8) -> usize
    ensures { result ≡ extended_room t }
{
    match t {
        241..=244 => 252,
        245 | 246 => MAX_LONG_OCTETS,
        _ => 0,
    }
}

// The greatest number of a type.
fn max_number(kind: Kind) -> Option<u64>
    ensures { result ≡ max_number kind }
{
    match kind {
        Kind::Date => Some(u32::MAX as u64),
        other => max_of(other),
    }
}

fn is_number_of(number: u64, kind: Kind) -> bool
    ensures { result ≡ is_of_kind (Value.Int number) kind }
{
    match max_number(kind) {
        Some(most) => number <= most,
        None => false,
    }
}

fn is_of_kind(value: &Value, kind: Kind) -> bool
    ensures { result ≡ is_of_kind value.now kind }
{
    match (value, kind) {
        (Value::Text(_), Kind::Text) => true,
        (Value::Bytes(_), Kind::Bytes) => true,
        (Value::Addr(_), Kind::Addr) => true,
        (Value::Ether(_), Kind::Ether) => true,
        (Value::Signed(_), Kind::Signed) => true,
        (Value::Int(number), kind) => is_number_of(*number, kind),
        _ => false,
    }
}

fn count_of_number(kind: Option<Kind>, number: u64) -> usize
    ensures { result ≡ length (number_octets kind number) }
{
    match kind {
        Some(Kind::Byte) => 1,
        Some(Kind::Short) => 2,
        Some(Kind::Integer64) => 8,
        _ => 4,
    }
}

// How many octets a value has.
fn count_of_octets(kind: Option<Kind>, value: &Value) -> usize
    ensures { result ≡ length (octets_of kind value.now) }
{
    match value {
        Value::Text(octets) => octets.as_slice().len(),
        Value::Bytes(octets) => octets.as_slice().len(),
        Value::Int(number) => count_of_number(kind, *number),
        Value::Signed(_) => 4,
        Value::Addr(address) => address.as_slice().len(),
        Value::Ether(address) => address.as_slice().len(),
        Value::Raw(octets) => octets.as_slice().len(),
    }
}

// The most octets of a value where those of its attribute are so many.
fn length_with(most: usize, is_hidden: bool) -> usize
    ensures { result ≡ if is_hidden then min max_hidden_octets most else most }
{
    if is_hidden {
        most.min(MAX_HIDDEN_OCTETS)
    } else {
        most
    }
}

// Whether a value's last octet is NUL.
#[tactic(auto, using(crate::proofs::NumberOctets::number_ends_in_nul))]
fn value_ends_in_nul(kind: Option<Kind>, value: &Value) -> bool
    ensures { result ≡ ends_in_nul (octets_of kind value.now) }
{
    match value {
        Value::Text(octets) => ends_in_nul(octets.as_slice()),
        Value::Bytes(octets) => ends_in_nul(octets.as_slice()),
        Value::Int(number) => number % 256 == 0,
        Value::Signed(number) => ends_in_nul(&number.cast_unsigned().to_be_bytes()),
        Value::Addr(address) => ends_in_nul(address),
        Value::Ether(address) => ends_in_nul(address),
        Value::Raw(octets) => ends_in_nul(octets.as_slice()),
    }
}

impl Dictionary {
    /// The most octets of an id's attribute.
    #[tactic(auto, unfolding(crate::specs::Limits::max_octets))]
    fn max_octets(&self, id: AttrId) -> usize
        ensures { result ≡ max_octets id self.now }
    {
        match id {
            AttrId::Plain(number) => {
                if number <= MAX_PLAIN {
                    253
                } else {
                    MAX_LONG_OCTETS
                }
            }
            AttrId::Vendor(vendor, _) => match self.vendor(vendor) {
                Some(format) => vendor_room(format),
                None => 0,
            },
            AttrId::Extended(t, _) => extended_room(t),
        }
    }

    /// The most octets of a value of the id's type (RFC 2865, sections 5 and 5.26; RFC 6929, sections 2.1 and 2.2): 128
    /// where it is hidden, 4012 where it is never sent, and 0 where its vendor has no format of two parts or its type
    /// is none of 241 to 246.
    ///
    /// ```rust
    /// // User-Name, the hidden User-Password, and an attribute of the vendor 9.
    /// assert_eq!(rt; dictionary.greatest_length(AttrId::Plain(1)), 253);
    /// assert_eq!(rt; dictionary.greatest_length(AttrId::Plain(2)), 128);
    /// assert_eq!(rt; dictionary.greatest_length(AttrId::Vendor(9, 1)), 247);
    /// ```
    #[tactic(auto, unfolding(crate::specs::Limits::greatest_length))]
    pub fn greatest_length(&self, id: AttrId) -> usize
        ensures { result ≡ greatest_length id self.now }
    {
        length_with(self.max_octets(id), self.is_hidden(id))
    }

    #[tactic(auto, unfolding(crate::specs::Limits::is_known))]
    fn is_known(&self, id: AttrId) -> bool
        ensures { result ≡ is_known id self.now }
    {
        match id {
            AttrId::Plain(_) => true,
            AttrId::Vendor(vendor, number) => self.is_in_format(vendor, number),
            AttrId::Extended(t, _) => is_extended_type(u64::from(t)),
        }
    }

    // Whether a value is one of its id's type, or raw.
    fn is_typed(&self, id: AttrId, value: &Value) -> bool
        ensures { result ≡ is_typed id value.now self.now }
    {
        match value {
            Value::Raw(_) => true,
            other => match self.kind(id) {
                Some(kind) => is_of_kind(other, kind),
                None => false,
            },
        }
    }

    // The type of an id's values, and whether they are hidden.
    fn kind_and_hiding(&self, id: AttrId) -> (Option<Kind>, bool)
        ensures kind { result.0 ≡ kind_of id self.now }
        ensures hidden { result.1 ≡ is_hidden id self.now }
    {
        match self.by_id(id) {
            Some(entry) => (Some(entry.kind), entry.hidden),
            None => (None, false),
        }
    }

    // Whether a value that isn't raw is as long as its id allows, and doesn't end in NUL where it is hidden.
    #[tactic(auto, unfolding(crate::specs::Octets::octets, crate::specs::Limits::greatest_length))]
    fn is_value_within(&self, id: AttrId, value: &Value) -> bool
        ensures { result ≡ is_value_within id value.now self.now }
    {
        let (kind, is_hidden) = self.kind_and_hiding(id);
        count_of_octets(kind, value) <= length_with(self.max_octets(id), is_hidden)
            && !(is_hidden && value_ends_in_nul(kind, value))
    }

    /// Whether a value is as long as its id allows.
    pub(crate) fn is_within(&self, id: AttrId, value: &Value) -> bool
        ensures { result ≡ is_within id value.now self.now }
    {
        match value {
            Value::Raw(octets) => octets.as_slice().len() <= self.max_octets(id),
            other => self.is_value_within(id, other),
        }
    }

    /// Whether the id is known (a vendor's by a format of two parts that holds its number, an extended one by a type of
    /// 241 to 246), the value is one of the id's type or raw, and its length is allowed. A hidden value ends in no NUL.
    ///
    /// ```rust
    /// let (id, value) = (AttrId::Plain(5), Value::Int(3));
    /// assert!(rt; dictionary.fits(&Pair { id, value }));
    /// let value = Value::Addr([192, 0, 2, 1]);
    /// assert!(rt; !dictionary.fits(&Pair { id, value }));
    /// ```
    #[tactic(auto, unfolding(crate::specs::Limits::fits))]
    pub fn fits(&self, pair: &Pair) -> bool
        ensures { result ≡ fits pair.now self.now }
    {
        self.is_known(pair.id)
            && self.is_typed(pair.id, &pair.value)
            && self.is_within(pair.id, &pair.value)
    }
}
