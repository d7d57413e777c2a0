//! The pairs that attributes mean.

ghost use Rattle.std.specs.Prelude.{◌≡◌, ◌<◌, ◌≤◌, ◌∷◌, ◌++◌, [], true, length, drop, slice_index, All, IfOk, OnOk};
ghost use Rattle.avp_dict.specs.Limits.{fits};
ghost use Rattle.avp_packet.specs.Meanings.{first_pairs, first_run, long_pair, attribute_pairs, continued, continued_in};
ghost use Rattle.avp_packet.specs.CanonicalOrContainer.{IsCanonicalOrContainer};
ghost use Rattle.avp_packet.specs.Splitting.{part_octets, parts};
ghost use Rattle.avp_packet.specs.internal.Views.{part_view, under};

use crate::attribute::numbers::{
    EXTENDED_TYPE_1, EXTENDED_TYPE_4, LONG_EXTENDED_TYPE_1, LONG_EXTENDED_TYPE_2, VENDOR_SPECIFIC,
};
use crate::attribute::splitting::{Front, first_attribute};
use crate::attribute::subattributes::push_vendor_pairs;
use crate::authenticators::MAX_ATTRIBUTES_OCTETS;
use crate::decoding::fragments::join_run;
use crate::decoding::values::{push_extended, push_joined, push_raw, push_read};
use crate::keys::Keys;
use avp_lists::{AttrId, Pair};
use std::alloc::{AllocError, Global};

// The id of an attribute's first pair, if its vendor's types have one octet, as those of most vendors.
fn likely_id(front: &Front<'_>) -> AttrId {
    match (front.number, front.value) {
        (VENDOR_SPECIFIC, [a, b, c, d, number, ..]) => {
            AttrId::Vendor(u32::from_be_bytes([*a, *b, *c, *d]), u32::from(*number))
        }
        (EXTENDED_TYPE_1..=LONG_EXTENDED_TYPE_2, [number, ..]) => {
            AttrId::Extended(front.number, *number)
        }
        (number, _) => AttrId::Plain(u32::from(number)),
    }
}

// Asks for the id of an attribute's first pair where it may be asked for again: attributes of vendors, and others of
// one type, mostly follow one another.
#[inline(always)]
fn know_first(keys: &mut Keys<'_>, front: &Front<'_>, before: u8)
    ensures dictionary { keys.new.dictionary.now ≡ keys.old.dictionary.now }
    ensures secret { keys.new.secret.now ≡ keys.old.secret.now }
    ensures authenticator { keys.new.authenticator.now ≡ keys.old.authenticator.now }
{
    if front.number == VENDOR_SPECIFIC || front.number == before {
        keys.know(likely_id(front));
    }
}

// The Extended-Type of an attribute.
fn extended_type_of(value: &[u8]) -> u8
    ensures { result ≡ slice_index value.now 0 }
{
    match value {
        [number, ..] => *number,
        [] => 0,
    }
}

// Adds the pair of an attribute that holds a long value, with those that its value goes on in, and gives what is after
// them.
fn push_long<'a>(
    pairs: &mut Vec<Pair>,
    keys: &Keys<'_>,
    octets: &'a [u8],
    front: Front<'a>,
) -> Result<&'a [u8], AllocError>
    requires { octets.now ≡ part_octets (part_view front) ++ front.rest.now }
    ensures pair { OnOk result (pairs.new.items ≡ pairs.old.items
        ++ under keys.now long_pair (part_view front.entry)
        (first_run (part_view front.entry) (parts front.entry.rest.now)) ∷ []) }
    ensures rest { IfOk result (λ rest. parts rest.now
        ≡ drop (continued_in (parts front.entry.rest.now)
        (first_run (part_view front.entry) (parts front.entry.rest.now)))
        (parts front.entry.rest.now)) }
    ensures shorter { IfOk result (λ rest. length rest.now < length octets.now) }
{
    let number = extended_type_of(front.value);
    match join_run(*pairs.allocator(), front.number, number, octets)? {
        Some(joined) => {
            let id = AttrId::Extended(front.number, number);
            push_joined(pairs, keys, id, joined.octets)?;
            Ok(joined.rest)
        }
        None => {
            push_raw(pairs, front.number, front.value)?;
            Ok(front.rest)
        }
    }
}

// Adds the pairs of the first attribute, with those that its value goes on in, and gives what is after them.
fn push_first<'a>(
    pairs: &mut Vec<Pair>,
    keys: &Keys<'_>,
    octets: &'a [u8],
    front: Front<'a>,
) -> Result<&'a [u8], AllocError>
    requires { octets.now ≡ part_octets (part_view front) ++ front.rest.now }
    ensures pairs { OnOk result (pairs.new.items ≡ pairs.old.items
        ++ under keys.now first_pairs (part_view front.entry) (parts front.entry.rest.now)) }
    ensures rest { IfOk result (λ rest. parts rest.now
        ≡ drop (continued (part_view front.entry) (parts front.entry.rest.now))
        (parts front.entry.rest.now)) }
    ensures shorter { IfOk result (λ rest. length rest.now < length octets.now) }
{
    match front.number {
        VENDOR_SPECIFIC => push_vendor_pairs(pairs, keys, front.value)?,
        EXTENDED_TYPE_1..=EXTENDED_TYPE_4 => {
            push_extended(pairs, keys, front.number, front.value)?;
        }
        LONG_EXTENDED_TYPE_1 | LONG_EXTENDED_TYPE_2 => {
            return push_long(pairs, keys, octets, front);
        }
        number => {
            let id = AttrId::Plain(u32::from(number));
            push_read(pairs, keys, id, front.value)?;
        }
    }
    Ok(front.rest)
}

/// The pairs that whole attributes mean, in a list with room for so many.
pub(crate) fn attribute_pairs(
    alloc: Global,
    keys: &Keys<'_>,
    octets: &[u8],
    count: usize,
) -> Result<Vec<Pair>, AllocError>
    requires { length octets.now ≤ MAX_ATTRIBUTES_OCTETS }
    ensures pairs { IfOk result (λ pairs. pairs.items
        ≡ under keys.now attribute_pairs (parts octets.now)) }
    ensures fits { IfOk result (λ pairs.
        All (λ pair. fits pair keys.now.dictionary.now ≡ true) pairs.items) }
    ensures own { 0 < length keys.now.secret.now → IfOk result (λ pairs.
        All (IsCanonicalOrContainer keys.now.dictionary.now) pairs.items) }
{
    keys.dictionary.is_sound();
    let mut pairs = Vec::with_capacity(alloc, count)?;
    let mut knowing = *keys;
    let mut before = 0;
    let mut rest = octets;
    while let Some(front) = first_attribute(rest) {
        know_first(&mut knowing, &front, before);
        before = front.number;
        rest = push_first(&mut pairs, &knowing, rest, front)?;
    }
    Ok(pairs)
}
