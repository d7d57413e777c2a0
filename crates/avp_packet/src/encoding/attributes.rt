//! The attributes that pairs are sent in (RFC 2865, sections 5 and 5.26; RFC 6929, sections 2.1 and 2.2).

ghost use Rattle.std.specs.Prelude.{◌≡◌, ◌≤◌, ◌+◌, ◌-◌, ◌/◌, ◌∷◌, ◌++◌, [], true, length, OnOk};
ghost use Rattle.std.specs.Int.{bytes_high_first};
ghost use Rattle.std.specs.List.{flat_map};
ghost use Rattle.avp_dict.specs.Vendors.{is_format};
ghost use Rattle.avp_packet.specs.AttributeOctets.{fragments, part, parts_holding, vendor_part};
ghost use Rattle.avp_packet.specs.Splitting.{part_octets};
ghost use Rattle.avp_packet.specs.internal.Holding.{CanHold, FitsFormat};

use crate::attribute::numbers::{LONG_EXTENDED_TYPE_1, MORE_FLAG, PIECE_OCTETS, VENDOR_SPECIFIC};
use crate::attribute::splitting::ATTRIBUTE_HEAD_OCTETS;
use crate::attribute::subattributes::VENDOR_ID_OCTETS;
use crate::keys::Keys;
use avp_dict::Format;
use avp_lists::AttrId;
use std::alloc::AllocError;

// Adds the Type and Length of an attribute with so many octets of Value.
fn push_head(octets: &mut Vec<u8>, number: u8, length: usize) -> Result<(), AllocError>
    requires { length ≤ 253 }
    ensures { OnOk result (octets.new.items ≡ octets.old.items ++ number ∷ (2 + length) ∷ []) }
{
    octets.extend_from_slice(&[number, (ATTRIBUTE_HEAD_OCTETS + length) as u8])
}

/// Adds an attribute.
pub(crate) fn push_attribute(
    octets: &mut Vec<u8>,
    number: u8,
    value: &[u8],
) -> Result<(), AllocError>
    requires { length value.now ≤ 253 }
    ensures { OnOk result (octets.new.items ≡ octets.old.items
        ++ part_octets (part number value.now)) }
{
    push_head(octets, number, value.len())?;
    octets.extend_from_slice(value)
}

// Adds an attribute whose value begins with the front.
fn push_two_parts(
    octets: &mut Vec<u8>,
    number: u8,
    front: &[u8],
    rest: &[u8],
) -> Result<(), AllocError>
    requires { length front.now + length rest.now ≤ 253 }
    ensures { OnOk result (octets.new.items ≡ octets.old.items
        ++ part_octets (part number (front.now ++ rest.now))) }
{
    push_head(octets, number, front.len() + rest.len())?;
    octets.extend_from_slice(front)?;
    octets.extend_from_slice(rest)
}

// Adds a long value in pieces.
fn push_fragments(octets: &mut Vec<u8>, t: u8, number: u8, value: &[u8]) -> Result<(), AllocError>
    ensures { OnOk result (octets.new.items ≡ octets.old.items ++ flat_map part_octets
        (fragments ((length value.now - 1) / PIECE_OCTETS) t number value.now)) }
{
    let mut rest = value;
    while rest.len() > PIECE_OCTETS {
        let (piece, after) = rest.split_at(PIECE_OCTETS);
        push_two_parts(octets, t, &[number, MORE_FLAG], piece)?;
        rest = after;
    }
    push_two_parts(octets, t, &[number, 0], rest)?;
    Ok(())
}

// Adds the last octets of a number, the highest of them first.
fn push_number(octets: &mut Vec<u8>, count: u8, number: u32) -> Result<(), AllocError>
    requires { count ≤ 4 }
    ensures { OnOk result (octets.new.items ≡ octets.old.items ++ bytes_high_first count number) }
{
    match count {
        0 => Ok(()),
        1 => octets.extend_from_slice(&number.to_be_bytes()[3..]),
        2 => octets.extend_from_slice(&number.to_be_bytes()[2..]),
        3 => octets.extend_from_slice(&number.to_be_bytes()[1..]),
        _ => octets.extend_from_slice(&number.to_be_bytes()),
    }
}

// Adds what comes before the value of a vendor's attribute, where its own type and length have an octet each.
fn push_standard_head(
    octets: &mut Vec<u8>,
    vendor: u32,
    number: u32,
    length: usize,
) -> Result<(), AllocError>
    requires { length ≤ 249 }
    ensures { OnOk result (octets.new.items ≡ octets.old.items
        ++ VENDOR_SPECIFIC ∷ (6 + length) ∷ [] ++ bytes_high_first 4 vendor
        ++ bytes_high_first 1 number ++ bytes_high_first 1 length) }
{
    let vendor = vendor.to_be_bytes();
    let head = [
        VENDOR_SPECIFIC,
        (ATTRIBUTE_HEAD_OCTETS + VENDOR_ID_OCTETS + length) as u8,
        vendor[0],
        vendor[1],
        vendor[2],
        vendor[3],
        number.to_be_bytes()[3],
        length as u8,
    ];
    octets.extend_from_slice(&head)
}

// Adds what comes before the value of a vendor's attribute.
fn push_vendor_head(
    octets: &mut Vec<u8>,
    format: Format,
    vendor: u32,
    number: u32,
    length: usize,
) -> Result<(), AllocError>
    requires format { is_format format.t format.l ≡ true }
    requires short { length ≤ 249 }
    ensures { OnOk result (octets.new.items ≡ octets.old.items
        ++ VENDOR_SPECIFIC ∷ (6 + length) ∷ [] ++ bytes_high_first 4 vendor
        ++ bytes_high_first format.t number ++ bytes_high_first format.l length) }
{
    if format.t == 1 && format.l == 1 {
        return push_standard_head(octets, vendor, number, length);
    }
    push_head(octets, VENDOR_SPECIFIC, VENDOR_ID_OCTETS + length)?;
    octets.extend_from_slice(&vendor.to_be_bytes())?;
    push_number(octets, format.t, number)?;
    push_number(octets, format.l, length as u32)
}

// Adds an attribute of a vendor.
fn push_vendor(
    octets: &mut Vec<u8>,
    format: Format,
    vendor: u32,
    number: u32,
    value: &[u8],
) -> Result<(), AllocError>
    requires format { is_format format.t format.l ≡ true }
    requires room { FitsFormat number value.now format }
    ensures { OnOk result (octets.new.items ≡ octets.old.items
        ++ flat_map part_octets (vendor_part vendor number value.now format)) }
{
    let length = usize::from(format.t) + usize::from(format.l) + value.len();
    push_vendor_head(octets, format, vendor, number, length)?;
    octets.extend_from_slice(value)?;
    Ok(())
}

/// Adds the attributes of an id that hold the value.
#[tactic(auto, unfolding(crate::specs::AttributeOctets::parts_holding))]
pub(crate) fn push_holding(
    octets: &mut Vec<u8>,
    keys: &Keys<'_>,
    id: AttrId,
    value: &[u8],
) -> Result<(), AllocError>
    requires { CanHold keys.now.dictionary.now id value.now }
    ensures { OnOk result (octets.new.items ≡ octets.old.items
        ++ flat_map part_octets (parts_holding keys.now.dictionary.now id value.now)) }
{
    match id {
        AttrId::Plain(number) => push_attribute(octets, number as u8, value),
        AttrId::Vendor(vendor, number) => match keys.format(vendor) {
            Some(format) => push_vendor(octets, format, vendor, number, value),
            None => Ok(()),
        },
        AttrId::Extended(t, number) => {
            if t >= LONG_EXTENDED_TYPE_1 {
                push_fragments(octets, t, number, value)
            } else {
                push_two_parts(octets, t, &[number], value)
            }
        }
    }
}
