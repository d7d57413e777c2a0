//! The edits and the pairs of a store, as C gives and sees them.

ghost use Rattle.std.specs.Prelude.{◌≡◌, IfOk};
ghost use Rattle.radpolicy_c.specs.Rooms.{room_told, status_told};
ghost use Rattle.radpolicy_c.specs.StorePairs.{edit_given, list_given, no_pair, octets_held, operator_given, pair_shown};
ghost use Rattle.radpolicy_c.specs.declared.statuses.Status.TheVariants.{Done};

use crate::attributes::RadpolicyAttribute;
use crate::lines::tell;
use crate::statuses::Status;
use avp_lists::{Edit, List, Octets, Op, Pair, Value};
use std::alloc::{AllocError, Global};

/// A change of one list by one pair.
#[repr(C)]
#[derive(Clone, Copy, Drop)]
pub struct RadpolicyEdit<'a> {
    /// The octets of the pair's value.
    pub value: &'a [u8],
    /// The vendor, or the type of an extended attribute, within which the attribute has its number.
    pub within: u32,
    pub number: u32,
    /// 0 a plain attribute, 1 a vendor's, 2 an extended one.
    pub kind: u8,
    /// 0 the request list, 1 the reply list, 2 the control list.
    pub list: u8,
    /// 0 `=`, 1 `:=`, 2 `+=`, 3 `^=`, 4 `-=`, 5 `==`, 6 `!*`.
    pub op: u8,
}

/// A pair of a store, but for the octets of its value.
#[repr(C)]
#[derive(Clone, Copy, Debug)]
pub struct RadpolicyStorePair {
    pub value_length: usize,
    pub within: u32,
    pub number: u32,
    pub kind: u8,
}

impl RadpolicyStorePair {
    /// What is told where there is no pair.
    pub(crate) fn none() -> RadpolicyStorePair
        ensures { result ≡ no_pair }
    {
        RadpolicyStorePair {
            value_length: 0,
            within: 0,
            number: 0,
            kind: 0,
        }
    }
}

/// The list of this number.
pub(crate) fn list_given(number: u8) -> Option<List>
    ensures { result ≡ list_given number }
{
    match number {
        0 => Some(List::Request),
        1 => Some(List::Reply),
        2 => Some(List::Control),
        _ => None,
    }
}

fn operator_given(number: u8) -> Option<Op>
    ensures { result ≡ operator_given number }
{
    match number {
        0 => Some(Op::AddNew),
        1 => Some(Op::Replace),
        2 => Some(Op::Append),
        3 => Some(Op::Prepend),
        4 => Some(Op::RemoveEqual),
        5 => Some(Op::KeepEqual),
        6 => Some(Op::RemoveAll),
        _ => None,
    }
}

/// The edit, where its numbers name one.
pub(crate) fn edit_given(
    alloc: Global,
    asked: &RadpolicyEdit<'_>,
) -> Result<Option<Edit>, AllocError>
    ensures { IfOk result (λ edit. edit ≡ edit_given asked.now) }
{
    let list = list_given(asked.list);
    let operator = operator_given(asked.op);
    let attribute = RadpolicyAttribute {
        within: asked.within,
        number: asked.number,
        kind: asked.kind,
    };
    let id = attribute.id();
    let (Some(list), Some(op), Some(id)) = (list, operator, id) else {
        return Ok(None);
    };
    let value = Value::Bytes(Octets::from_slice(alloc, asked.value)?);
    let pair = Pair { id, value };
    Ok(Some(Edit { list, op, pair }))
}

// The octets of a value that C gave.
fn octets_held(value: &Value) -> &[u8]
    ensures { result.now ≡ octets_held value.now }
{
    match value {
        Value::Bytes(octets) => octets.as_slice(),
        _ => &[],
    }
}

fn pair_shown(pair: &Pair) -> RadpolicyStorePair
    ensures { result ≡ pair_shown pair.now }
{
    let RadpolicyAttribute {
        within,
        number,
        kind,
    } = RadpolicyAttribute::of(pair.id);
    RadpolicyStorePair {
        value_length: octets_held(&pair.value).len(),
        within,
        number,
        kind,
    }
}

/// Tells a pair: puts the octets of its value at the front of the room, and the rest beside it.
pub(crate) fn tell_pair(pair: &Pair, shown: &mut RadpolicyStorePair, room: &mut [u8]) -> Status
    ensures status { result ≡ status_told Done (octets_held pair.now.value) room.old }
    ensures shown { shown.new ≡ pair_shown pair.now }
    ensures room { room.new ≡ room_told (octets_held pair.now.value) room.old }
{
    *shown = pair_shown(pair);
    let mut length = 0;
    tell(Status::Done, octets_held(&pair.value), room, &mut length)
}
