ghost use Rattle.std.specs.Prelude.{◌≡◌, ◌↔◌, IsTrue, IfOk};
ghost use Rattle.avp_lists.specs.Pairs.{id_eq, pair_eq, value_eq};

use crate::bytes::Octets;
use std::alloc::{AllocError, Global};

/// What names an attribute.
#[derive(Clone, Copy, Debug, PartialEq, Eq)]
pub enum AttrId {
    /// A number of the dictionary. One above 255 is internal and never sent (RFC 2865, section 5).
    Plain(u32),
    /// A vendor's number, and the number of an attribute of its own (RFC 2865, section 5.26).
    Vendor(u32, u32),
    /// A type from 241 to 246, and an Extended-Type (RFC 6929, sections 2.1 and 2.2).
    Extended(u8, u8),
}

/// What an attribute is set to.
#[derive(Debug, Drop, PartialEq, Eq)]
pub enum Value {
    /// A string, as its octets.
    Text(Octets),
    /// Octets without a further meaning.
    Bytes(Octets),
    /// An unsigned number of 1, 2, 4 or 8 octets, or a date in seconds.
    Int(u64),
    /// A signed number of 4 octets.
    Signed(i32),
    /// An IPv4 address, its first octet first.
    Addr([u8; 4]),
    /// An Ethernet address, its first octet first.
    Ether([u8; 6]),
    /// Octets that the attribute's type does not read.
    Raw(Octets),
}

/// An attribute and its value.
#[derive(Debug, Drop, PartialEq, Eq)]
pub struct Pair {
    pub id: AttrId,
    pub value: Value,
}

impl AttrId {
    /// Whether both name the same attribute.
    pub fn equals(self, other: AttrId) -> bool
        ensures test { result ≡ id_eq self other }
        ensures equal { IsTrue result ↔ (self ≡ other) }
    {
        self == other
    }
}

impl Value {
    pub(crate) fn equals(&self, other: &Value) -> bool
        ensures { result ≡ value_eq self.now other.now }
    {
        self.eq(other)
    }

    /// The same value, in memory of this allocator.
    pub fn copy(&self, alloc: Global) -> Result<Value, AllocError>
        ensures { IfOk result (λ copy. copy ≡ self.now) }
    {
        Ok(match self {
            Value::Text(text) => Value::Text(text.copy(alloc)?),
            Value::Bytes(octets) => Value::Bytes(octets.copy(alloc)?),
            Value::Int(number) => Value::Int(*number),
            Value::Signed(number) => Value::Signed(*number),
            Value::Addr(address) => Value::Addr(*address),
            Value::Ether(address) => Value::Ether(*address),
            Value::Raw(octets) => Value::Raw(octets.copy(alloc)?),
        })
    }
}

impl Pair {
    /// Whether both ids and both values are the same.
    pub fn equals(&self, other: &Pair) -> bool
        ensures test { result ≡ pair_eq self.now other.now }
        ensures equal { IsTrue result ↔ (self.now ≡ other.now) }
    {
        self.eq(other)
    }
}

/// A pair that is equal to this one.
///
/// ```rust
/// let id = AttrId::Plain(27);
/// let value = Value::Int(600);
/// let timeout = Pair { id, value };
/// let copy = copy_pair(alloc, &timeout)?;
/// assert!(rt; copy.equals(&timeout));
/// ```
pub fn copy_pair(alloc: Global, pair: &Pair) -> Result<Pair, AllocError>
    ensures { IfOk result (λ copy. copy ≡ pair.now) }
{
    let value = pair.value.copy(alloc)?;
    Ok(Pair { id: pair.id, value })
}
