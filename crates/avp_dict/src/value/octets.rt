//! Octets of values.

ghost use Rattle.std.specs.Prelude.{◌≡◌, ◌≤◌, length, false, true, Some, IfOk, IsTrue, OnErr};
ghost use Rattle.std.specs.Option.{unwrap_or};
ghost use Rattle.avp_lists.specs.declared.pairs.Value.TheVariants.{Raw};
ghost use Rattle.avp_dict.specs.Limits.{fits};
ghost use Rattle.avp_dict.specs.Octets.{ends_in_nul, is_hidden, is_hideable, keeps_octets, kind_of, number_octets, number_value, octets, octets_of, of_length, read_value, signed_value, value_of_octets, value_read};
ghost use Rattle.avp_dict.specs.Types.{is_text_kind};

use crate::dictionaries::Dictionary;
use crate::entries::Kind;
use avp_lists::{AttrId, Octets, Value};
use std::alloc::{AllocError, Global};

/// The most octets of a hidden value (RFC 2865, section 5.2).
pub const MAX_HIDDEN_OCTETS: usize = 128;

// A number's octets, the highest first: those of 64 bits without the first ones.
fn number_octets(alloc: Global, kind: Option<Kind>, number: u64) -> Result<Vec<u8>, AllocError>
    ensures { IfOk result (λ octets. octets.items ≡ number_octets kind number) }
{
    let octets = number.to_be_bytes();
    match kind {
        Some(Kind::Byte) => Vec::from_slice(alloc, &octets[7..]),
        Some(Kind::Short) => Vec::from_slice(alloc, &octets[6..]),
        Some(Kind::Integer64) => Vec::from_slice(alloc, &octets),
        _ => Vec::from_slice(alloc, &octets[4..]),
    }
}

pub(crate) fn octets_of(
    alloc: Global,
    kind: Option<Kind>,
    value: &Value,
) -> Result<Vec<u8>, AllocError>
    ensures { IfOk result (λ octets. octets.items ≡ octets_of kind value.now) }
{
    match value {
        Value::Text(octets) => Vec::from_slice(alloc, octets.as_slice()),
        Value::Bytes(octets) => Vec::from_slice(alloc, octets.as_slice()),
        Value::Int(number) => number_octets(alloc, kind, *number),
        Value::Signed(number) => Vec::from_slice(alloc, &number.cast_unsigned().to_be_bytes()),
        Value::Addr(address) => Vec::from_slice(alloc, address),
        Value::Ether(address) => Vec::from_slice(alloc, address),
        Value::Raw(octets) => Vec::from_slice(alloc, octets.as_slice()),
    }
}

fn read_address(octets: &[u8]) -> Option<Value>
    ensures { result ≡ of_length 4 Value.Addr octets.now }
{
    match octets {
        [a, b, c, d] => Some(Value::Addr([*a, *b, *c, *d])),
        _ => None,
    }
}

fn read_ether(octets: &[u8]) -> Option<Value>
    ensures { result ≡ of_length 6 Value.Ether octets.now }
{
    match octets {
        [a, b, c, d, e, f] => Some(Value::Ether([*a, *b, *c, *d, *e, *f])),
        _ => None,
    }
}

fn read_byte(octets: &[u8]) -> Option<Value>
    ensures { result ≡ of_length 1 number_value octets.now }
{
    match octets {
        [a] => Some(Value::Int(u64::from(*a))),
        _ => None,
    }
}

fn read_short(octets: &[u8]) -> Option<Value>
    ensures { result ≡ of_length 2 number_value octets.now }
{
    match octets {
        [a, b] => Some(Value::Int(u64::from(u16::from_be_bytes([*a, *b])))),
        _ => None,
    }
}

fn read_integer(octets: &[u8]) -> Option<Value>
    ensures { result ≡ of_length 4 number_value octets.now }
{
    match octets {
        [a, b, c, d] => Some(Value::Int(u64::from(u32::from_be_bytes([*a, *b, *c, *d])))),
        _ => None,
    }
}

fn read_integer64(octets: &[u8]) -> Option<Value>
    ensures { result ≡ of_length 8 number_value octets.now }
{
    match octets {
        [a, b, c, d, e, f, g, h] => Some(Value::Int(u64::from_be_bytes([
            *a, *b, *c, *d, *e, *f, *g, *h,
        ]))),
        _ => None,
    }
}

fn read_signed(octets: &[u8]) -> Option<Value>
    ensures { result ≡ of_length 4 signed_value octets.now }
{
    match octets {
        [a, b, c, d] => Some(Value::Signed(u32::from_be_bytes([*a, *b, *c, *d]).cast_signed())),
        _ => None,
    }
}

// The number or the address of a type that has such values.
fn read_sized(kind: Kind, octets: &[u8]) -> Option<Value>
    ensures { is_text_kind (Some kind) ≡ false → result ≡ value_read kind octets.now }
{
    match kind {
        Kind::Text | Kind::Bytes => None,
        Kind::Addr => read_address(octets),
        Kind::Ether => read_ether(octets),
        Kind::Byte => read_byte(octets),
        Kind::Short => read_short(octets),
        Kind::Integer => read_integer(octets),
        Kind::Date => read_integer(octets),
        Kind::Integer64 => read_integer64(octets),
        Kind::Signed => read_signed(octets),
    }
}

fn value_read(alloc: Global, kind: Kind, octets: &[u8]) -> Result<Option<Value>, AllocError>
    ensures read { IfOk result (λ value. value ≡ value_read kind octets.now) }
    ensures memory { OnErr result
        (keeps_octets (unwrap_or (value_read kind octets.now) (Raw octets.now)) ≡ true) }
{
    match kind {
        Kind::Text => Ok(Some(Value::Text(Octets::from_slice(alloc, octets)?))),
        Kind::Bytes => Ok(Some(Value::Bytes(Octets::from_slice(alloc, octets)?))),
        _ => Ok(read_sized(kind, octets)),
    }
}

fn keep_by_kind(kind: Kind, octets: Vec<u8>) -> Value
    ensures { result ≡ unwrap_or (value_read kind octets.items) (Raw octets.items) }
{
    match kind {
        Kind::Text => Value::Text(Octets::from_vec(octets)),
        Kind::Bytes => Value::Bytes(Octets::from_vec(octets)),
        _ => match read_sized(kind, &octets) {
            Some(value) => value,
            None => Value::Raw(Octets::from_vec(octets)),
        },
    }
}

/// Whether the last octet is NUL.
pub fn ends_in_nul(octets: &[u8]) -> bool
    ensures { result ≡ ends_in_nul octets.now }
{
    match octets.last() {
        Some(octet) => *octet == 0,
        None => false,
    }
}

/// Whether octets can be hidden as a password is: at most 128, and no NUL at the end, since the NULs there are padding
/// (RFC 2865, section 5.2).
pub fn is_hideable(octets: &[u8]) -> bool
    ensures test { result ≡ is_hideable octets.now }
    ensures short { IsTrue result → length octets.now ≤ MAX_HIDDEN_OCTETS }
{
    octets.len() <= MAX_HIDDEN_OCTETS && !ends_in_nul(octets)
}

impl Dictionary {
    /// The type of an id's values, by its last ATTRIBUTE line.
    pub(crate) fn kind(&self, id: AttrId) -> Option<Kind>
        ensures { result ≡ kind_of id self.now }
    {
        let entry = self.by_id(id)?;
        Some(entry.kind)
    }

    /// Whether an id's values are hidden (RFC 2865, section 5.2), by its last used ATTRIBUTE line.
    pub fn is_hidden(&self, id: AttrId) -> bool
        ensures { result ≡ is_hidden id self.now }
    {
        match self.by_id(id) {
            Some(entry) => entry.hidden,
            None => false,
        }
    }

    /// The octets of a value, numbers in network order.
    #[tactic(auto, unfolding(crate::specs::Octets::octets))]
    pub fn bytes_of_value(
        &self,
        alloc: Global,
        id: AttrId,
        value: &Value,
    ) -> Result<Vec<u8>, AllocError>
        requires { IsTrue (fits (record { id = id; value = value.now }) self.now) }
        ensures { IfOk result (λ bytes. bytes.items ≡ octets id value.now self.now) }
    {
        octets_of(alloc, self.kind(id), value)
    }

    // The value of the id's type with these octets.
    #[tactic(auto, unfolding(crate::specs::Octets::read_value, crate::specs::Octets::value_of_octets))]
    fn read_value(
        &self,
        alloc: Global,
        id: AttrId,
        octets: &[u8],
    ) -> Result<Option<Value>, AllocError>
        ensures read { IfOk result (λ value. value ≡ read_value id octets.now self.now) }
        ensures memory { OnErr result
            (keeps_octets (value_of_octets id octets.now self.now) ≡ true) }
    {
        match self.by_id(id) {
            Some(entry) => {
                if entry.hidden && !is_hideable(octets) {
                    Ok(None)
                } else {
                    value_read(alloc, entry.kind, octets)
                }
            }
            None => Ok(None),
        }
    }

    /// The value of the id's type with these octets, numbers in network order; [`Value::Raw`] where the type doesn't
    /// read them, and where the id has no ATTRIBUTE line.
    ///
    /// ```rust
    /// let value = dictionary.value_of_bytes(alloc, AttrId::Plain(5), &[0, 0, 0, 3])?;
    /// assert!(rt; value == Value::Int(3));
    /// // A number of type `integer` has four octets.
    /// let short = dictionary.value_of_bytes(alloc, AttrId::Plain(5), &[3])?;
    /// assert!(rt; matches!(short, Value::Raw(_)));
    /// ```
    #[tactic(auto, unfolding(crate::specs::Octets::value_of_octets))]
    pub fn value_of_bytes(
        &self,
        alloc: Global,
        id: AttrId,
        octets: &[u8],
    ) -> Result<Value, AllocError>
        ensures read { IfOk result (λ value. value ≡ value_of_octets id octets.now self.now) }
        ensures memory { OnErr result
            (keeps_octets (value_of_octets id octets.now self.now) ≡ true) }
    {
        match self.read_value(alloc, id, octets)? {
            Some(value) => Ok(value),
            None => Ok(Value::Raw(Octets::from_slice(alloc, octets)?)),
        }
    }

    /// As [`value_of_bytes`](Dictionary::value_of_bytes), but the value may keep the given octets, so none are copied
    /// and no memory is taken.
    #[tactic(auto, unfolding(crate::specs::Octets::value_of_octets, crate::specs::Octets::read_value))]
    pub fn value_of_vec(&self, id: AttrId, octets: Vec<u8>) -> Value
        ensures { result ≡ value_of_octets id octets.items self.now }
    {
        match self.by_id(id) {
            Some(entry) if !entry.hidden || is_hideable(&octets) => {
                keep_by_kind(entry.kind, octets)
            }
            _ => Value::Raw(Octets::from_vec(octets)),
        }
    }
}
