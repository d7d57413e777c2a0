//! Values and pairs that attributes mean.

ghost use Rattle.std.specs.Prelude.{◌≡◌, ◌∷◌, ◌++◌, [], OnOk, IfOk};
ghost use Rattle.avp_packet.specs.AttributeOctets.{part};
ghost use Rattle.avp_packet.specs.Hiding.{shown_by};
ghost use Rattle.avp_packet.specs.Meanings.{extended_pair, pair_meant, raw_pair, value_meant, value_shown};
ghost use Rattle.avp_packet.specs.internal.Views.{under};

use crate::hiding::shown_by;
use crate::keys::Keys;
use avp_dict::Kind;
use avp_lists::{AttrId, Octets, Pair, Value};
use std::alloc::{AllocError, Global};

// The value of hidden octets, shown first where there is a secret.
fn value_shown(
    alloc: Global,
    keys: &Keys<'_>,
    id: AttrId,
    octets: &[u8],
) -> Result<Value, AllocError>
    ensures { IfOk result (λ value. value ≡ value_shown keys.now.dictionary.now id octets.now
        (shown_by keys.now.secret.now keys.now.authenticator.now octets.now)) }
{
    match shown_by(alloc, keys.secret, keys.authenticator, octets)? {
        Some(password) => Ok(keys.dictionary.value_of_vec(id, password)),
        None => Ok(Value::Raw(Octets::from_slice(alloc, octets)?)),
    }
}

// The value of an attribute's octets, shown first where they are hidden and there is a secret.
#[tactic(auto, unfolding(crate::specs::Meanings::value_meant, avp_dict::specs::Octets::read_value, avp_dict::specs::Octets::value_of_octets))]
fn value_meant(
    alloc: Global,
    keys: &Keys<'_>,
    id: AttrId,
    octets: &[u8],
) -> Result<Value, AllocError>
    ensures { IfOk result (λ value. value ≡ under keys.now value_meant id octets.now) }
{
    let typing = keys.typing(id);
    if typing.hidden {
        return value_shown(alloc, keys, id, octets);
    }
    // Texts and octets are kept as they are, so the dictionary is not asked again.
    match typing.kind {
        Some(Kind::Text) => Ok(Value::Text(Octets::from_slice(alloc, octets)?)),
        Some(Kind::Bytes) => Ok(Value::Bytes(Octets::from_slice(alloc, octets)?)),
        _ => keys.dictionary.value_of_bytes(alloc, id, octets),
    }
}

// The same value of joined octets, which it keeps.
#[tactic(auto, unfolding(crate::specs::Meanings::value_meant))]
fn keep_value(keys: &Keys<'_>, id: AttrId, octets: Vec<u8>) -> Result<Value, AllocError>
    ensures { IfOk result (λ value. value ≡ under keys.now value_meant id octets.items) }
{
    if !keys.is_hidden(id) {
        return Ok(keys.dictionary.value_of_vec(id, octets));
    }
    match shown_by(
        *octets.allocator(),
        keys.secret,
        keys.authenticator,
        &octets,
    )? {
        Some(password) => Ok(keys.dictionary.value_of_vec(id, password)),
        None => Ok(Value::Raw(Octets::from_vec(octets))),
    }
}

/// Adds the pair of an id with these octets.
pub(crate) fn push_read(
    pairs: &mut Vec<Pair>,
    keys: &Keys<'_>,
    id: AttrId,
    octets: &[u8],
) -> Result<(), AllocError>
    ensures { OnOk result (pairs.new.items ≡ pairs.old.items
        ++ under keys.now pair_meant id octets.now ∷ []) }
{
    let value = value_meant(*pairs.allocator(), keys, id, octets)?;
    pairs.push(Pair { id, value })?;
    Ok(())
}

/// Adds the pair of an id with joined octets, which it keeps.
pub(crate) fn push_joined(
    pairs: &mut Vec<Pair>,
    keys: &Keys<'_>,
    id: AttrId,
    octets: Vec<u8>,
) -> Result<(), AllocError>
    ensures { OnOk result (pairs.new.items ≡ pairs.old.items
        ++ under keys.now pair_meant id octets.items ∷ []) }
{
    let value = keep_value(keys, id, octets)?;
    pairs.push(Pair { id, value })?;
    Ok(())
}

/// Adds the pair of an attribute whose octets are not looked into.
pub(crate) fn push_raw(pairs: &mut Vec<Pair>, number: u8, octets: &[u8]) -> Result<(), AllocError>
    ensures { OnOk result (pairs.new.items ≡ pairs.old.items
        ++ raw_pair (part number octets.now) ∷ []) }
{
    let value = Value::Raw(Octets::from_slice(*pairs.allocator(), octets)?);
    pairs.push(Pair {
        id: AttrId::Plain(u32::from(number)),
        value,
    })?;
    Ok(())
}

/// Adds the pair of an attribute of type 241 to 244 (RFC 6929, section 2.1).
pub(crate) fn push_extended(
    pairs: &mut Vec<Pair>,
    keys: &Keys<'_>,
    t: u8,
    value: &[u8],
) -> Result<(), AllocError>
    ensures { OnOk result (pairs.new.items ≡ pairs.old.items
        ++ under keys.now extended_pair (part t value.now) ∷ []) }
{
    match value {
        [number, octets @ ..] if !octets.is_empty() => {
            push_read(pairs, keys, AttrId::Extended(t, *number), octets)
        }
        _ => push_raw(pairs, t, value),
    }
}
