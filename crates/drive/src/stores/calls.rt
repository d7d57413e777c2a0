//! The calls of a store, as words.

use avp_lists::{AttrId, Edit, List, Octets, Op, Pair, Selection, Tagging, Value};
use std::alloc::{AllocError, Global};

/// A call of a store. An edit of a number `n` and an octet is of the attribute `n` with that octet, or with a tag and
/// that octet.
#[derive(Drop)]
pub enum Call {
    Undo,
    Redo,
    Settle,
    List(List),
    Reserve(usize),
    Rollback(usize),
    Edit(Edit, Selection),
}

/// An attribute by its number, with these octets.
pub fn pair_of(alloc: Global, number: u32, octets: &[u8]) -> Result<Pair, AllocError> {
    let octets = Octets::from_slice(alloc, octets)?;
    Ok(Pair {
        id: AttrId::Plain(number),
        value: Value::Bytes(octets),
    })
}

fn list_named(name: &str) -> Option<List> {
    match name {
        "request" => Some(List::Request),
        "reply" => Some(List::Reply),
        "control" => Some(List::Control),
        _ => None,
    }
}

fn op_signed(sign: &str) -> Option<Op> {
    match sign {
        "=" => Some(Op::AddNew),
        ":=" => Some(Op::Replace),
        "+=" => Some(Op::Append),
        "^=" => Some(Op::Prepend),
        "-=" => Some(Op::RemoveEqual),
        "==" => Some(Op::KeepEqual),
        "!*" => Some(Op::RemoveAll),
        _ => None,
    }
}

// All instances beside their tags, or those with a tag.
fn selection_of(word: &str) -> Option<Selection> {
    match word {
        "each" => Some(Selection::EachTag(Tagging::Text)),
        tag => {
            let tag = tag.parse().ok()?;
            Some(Selection::Tag(Tagging::Text, tag))
        }
    }
}

/// The call of these parts of a word, nothing where they are none.
pub fn call_of(alloc: Global, parts: &[&str]) -> Result<Option<Call>, AllocError> {
    let call = match parts {
        ["undo"] => Some(Call::Undo),
        ["redo"] => Some(Call::Redo),
        ["settle"] => Some(Call::Settle),
        ["list", name] => list_named(name).map(Call::List),
        ["reserve", count] => count.parse().ok().map(Call::Reserve),
        ["rollback", to] => to.parse().ok().map(Call::Rollback),
        [name, sign, number, octet] => {
            edit_of(alloc, [name, sign, number, octet], Selection::All)?
        }
        [name, sign, number, octet, selection] => match selection_of(selection) {
            Some(selection) => edit_of(alloc, [name, sign, number, octet], selection)?,
            None => None,
        },
        _ => None,
    };
    Ok(call)
}

fn edit_of(
    alloc: Global,
    parts: [&str; 4],
    selection: Selection,
) -> Result<Option<Call>, AllocError> {
    let [name, sign, number, octet] = parts;
    let (Some(list), Some(op), Ok(number), Ok(octet)) = (
        list_named(name),
        op_signed(sign),
        number.parse(),
        octet.parse(),
    ) else {
        return Ok(None);
    };
    let pair = match selection {
        Selection::Tag(_, tag) => pair_of(alloc, number, &[tag, octet])?,
        _ => pair_of(alloc, number, &[octet])?,
    };
    Ok(Some(Call::Edit(Edit { list, op, pair }, selection)))
}
