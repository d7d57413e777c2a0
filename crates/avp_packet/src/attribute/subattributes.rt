//! A vendor's format and its own attributes (RFC 2865, section 5.26).

ghost use Rattle.std.specs.Prelude.{◌≡◌, ◌≤◌, ◌+◌, ◌++◌, true, false, None, length, drop, map, OnOk, IfOk, IfSome, IfNone};
ghost use Rattle.std.specs.Int.Digits.{number_from_digits};
ghost use Rattle.avp_dict.specs.Vendors.{is_format};
ghost use Rattle.avp_packet.specs.AttributeOctets.{part};
ghost use Rattle.avp_packet.specs.Meanings.{are_subattributes, begins_subattribute, first_subattribute, subattribute_length, subattribute_pair, subattributes, subattributes_by, vendor_of, vendor_pairs, vendor_subattributes};
ghost use Rattle.avp_packet.specs.VendorFormats.{known_format};
ghost use Rattle.avp_packet.specs.internal.Views.{subattribute_view, under};

use crate::attribute::numbers::VENDOR_SPECIFIC;
use crate::decoding::values::{push_raw, push_read};
use crate::keys::Keys;
use avp_dict::{Dictionary, Format};
use avp_lists::{AttrId, Pair};
use std::alloc::AllocError;

/// The octets of a Vendor-Id.
pub(crate) const VENDOR_ID_OCTETS: usize = 4;

// A subattribute, which is one of a vendor's own, and what is after it.
#[derive(Clone, Copy)]
struct Subattribute<'a> {
    number: u32,
    value: &'a [u8],
    rest: &'a [u8],
}

/// A vendor's format of two parts, with 1, 2 or 4 octets of type and at most 2 of length, as in every dictionary.
#[tactic(auto, unfolding(crate::specs::VendorFormats::known_format))]
pub(crate) fn known_format(dictionary: &Dictionary, vendor: u32) -> Option<Format>
    ensures format { result ≡ known_format vendor dictionary.now }
    ensures usable { IfSome result (λ f. is_format f.t f.l ≡ true) }
{
    dictionary.is_sound();
    dictionary.vendor(vendor)
}

// A number of at most four octets, the highest of them first.
fn number_in(octets: &[u8]) -> u32
    requires { length octets.now ≤ 4 }
    ensures { result ≡ number_from_digits 256 octets.now }
{
    match octets {
        [a] => u32::from(*a),
        [a, b] => u32::from(u16::from_be_bytes([*a, *b])),
        [a, b, c] => u32::from_be_bytes([0, *a, *b, *c]),
        [a, b, c, d] => u32::from_be_bytes([*a, *b, *c, *d]),
        _ => 0,
    }
}

// What the first attribute's length counts.
fn subattribute_length(format: Format, octets: &[u8]) -> usize
    requires format { is_format format.t format.l ≡ true }
    requires room { format.t + format.l ≤ length octets.now }
    ensures { result ≡ subattribute_length format octets.now }
{
    if format.l == 0 {
        return octets.len();
    }
    let start = usize::from(format.t);
    let after = &octets[start..];
    number_in(&after[..usize::from(format.l)]) as usize
}

fn first_subattribute(format: Format, octets: &[u8]) -> Option<Subattribute<'_>>
    requires { is_format format.t format.l ≡ true }
    ensures begins { IfSome result (λ subattribute. begins_subattribute format octets.now ≡ true) }
    ensures subattribute { IfSome result (λ subattribute.
        subattribute_view subattribute ≡ first_subattribute format octets.now) }
    ensures rest { IfSome result (λ subattribute. subattribute.rest.now
        ≡ drop (subattribute_length format octets.now) octets.now) }
    ensures none { IfNone result (begins_subattribute format octets.now ≡ false) }
{
    let head = usize::from(format.t) + usize::from(format.l);
    if octets.len() < head {
        return None;
    }
    let length = subattribute_length(format, octets);
    if length < head || length > octets.len() {
        return None;
    }
    let after = &octets[head..];
    Some(Subattribute {
        number: number_in(&octets[..usize::from(format.t)]),
        value: &after[..length - head],
        rest: &octets[length..],
    })
}

// A vendor whose format is known, and what is after its Vendor-Id.
#[derive(Clone, Copy)]
struct VendorOctets<'a> {
    vendor: u32,
    format: Format,
    octets: &'a [u8],
}

#[tactic(auto, unfolding(crate::specs::Meanings::vendor_subattributes))]
fn vendor_octets<'a>(keys: &Keys<'_>, value: &'a [u8]) -> Option<VendorOctets<'a>>
    ensures vendor { IfSome result (λ found. found.vendor ≡ vendor_of value.now) }
    ensures octets { IfSome result (λ found. found.octets.now ≡ drop 4 value.now) }
    ensures format { IfSome result (λ found. is_format found.format.t found.format.l ≡ true) }
    ensures known { IfSome result (λ found. vendor_subattributes keys.now.dictionary.now value.now
        ≡ subattributes_by value.now found.format) }
    ensures none { IfNone result (vendor_subattributes keys.now.dictionary.now value.now ≡ None) }
{
    if value.len() < VENDOR_ID_OCTETS {
        return None;
    }
    let vendor = number_in(&value[..VENDOR_ID_OCTETS]);
    Some(VendorOctets {
        vendor,
        format: keys.format(vendor)?,
        octets: &value[VENDOR_ID_OCTETS..],
    })
}

// Adds a pair for each of the vendor's attributes that its octets begin with, and says whether these are some, and all
// of the octets.
fn push_subattributes(
    pairs: &mut Vec<Pair>,
    keys: &Keys<'_>,
    found: &VendorOctets<'_>,
) -> Result<bool, AllocError>
    requires { is_format found.now.format.t found.now.format.l ≡ true }
    ensures pairs { OnOk result (pairs.new.items ≡ pairs.old.items
        ++ map (under keys.now subattribute_pair found.now.vendor)
        (subattributes found.now.format found.now.octets.now)) }
    ensures whole { IfOk result (λ whole. whole
        ≡ are_subattributes found.now.format found.now.octets.now) }
{
    let mut rest = found.octets;
    while let Some(subattribute) = first_subattribute(found.format, rest) {
        push_read(
            pairs,
            keys,
            AttrId::Vendor(found.vendor, subattribute.number),
            subattribute.value,
        )?;
        rest = subattribute.rest;
    }
    Ok(rest.is_empty() && !found.octets.is_empty())
}

/// Adds a pair for each attribute of a vendor in a Vendor-Specific attribute, and the attribute as it is where it holds
/// none.
pub(crate) fn push_vendor_pairs(
    pairs: &mut Vec<Pair>,
    keys: &Keys<'_>,
    value: &[u8],
) -> Result<(), AllocError>
    ensures { OnOk result (pairs.new.items ≡ pairs.old.items
        ++ under keys.now vendor_pairs (part VENDOR_SPECIFIC value.now)
        (vendor_subattributes keys.now.dictionary.now value.now)) }
{
    let Some(found) = vendor_octets(keys, value) else {
        return push_raw(pairs, VENDOR_SPECIFIC, value);
    };
    let count = pairs.len();
    if push_subattributes(pairs, keys, &found)? {
        return Ok(());
    }
    pairs.truncate(count);
    push_raw(pairs, VENDOR_SPECIFIC, value)
}
