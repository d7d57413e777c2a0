//! ATTRIBUTE lines.

ghost use Rattle.std.specs.Prelude.{◌≡◌, ◌≤◌, [], ℕ, Option, Some, None, if◌then◌else◌, IsTrue};
ghost use Rattle.std.specs.List.{list_all, slice_split};
ghost use Rattle.avp_lists.specs.declared.pairs.AttrId.TheVariants.{Extended};
ghost use Rattle.avp_lists.specs.Meets.{Meets};
ghost use Rattle.avp_dict.specs.Attributes.{attribute, attribute_line, attribute_of, id_of_dotted, id_of_parts, is_attribute_name, is_extended_id, is_held, id_of_more, max_in, number_id, id_of_number, vendor_id};
ghost use Rattle.avp_dict.specs.Letters.{begins_as_attr, is_decimal, is_dot, is_name_octet};
ghost use Rattle.avp_dict.specs.Outcomes.{is_memory_kind};
ghost use Rattle.avp_dict.specs.Words.{is_number};
ghost use Rattle.avp_dict.specs.internal.Agreeing.{without_names};
ghost use Rattle.avp_dict.specs.internal.Numbers.{Reads};
ghost use Rattle.avp_dict.specs.internal.Meanings.{context_view, read_view};
ghost use Rattle.avp_dict.specs.internal.Refused.{is_memory_word};
ghost use Rattle.avp_dict.specs.internal.Views.{views};

use crate::attribute_numbers::is_extended_type;
use crate::entries::VendorFormat;
use crate::faults::{DictKind, RefusedWord, miscounted};
use crate::file::context::Context;
use crate::file::meanings::Meaning;
use crate::file::name_octets::{OfAttribute, are_octets_of};
use crate::file::numbers::{GREATEST_NUMBER, Number, is_number, number_of};
use crate::file::parts::{first_between, parts_between};
use crate::file::types::{are_flags, typing_of};
use crate::file::words::{MAX_NAME, same_name};
use crate::tables::Vendors;
use avp_lists::AttrId;
use std::alloc::Global;

fn max_in(octets: u8) -> u64
    ensures most { result ≡ max_in octets }
    ensures within { result ≤ GREATEST_NUMBER }
{
    match octets {
        1 => 255,
        2 => u16::MAX as u64,
        _ => GREATEST_NUMBER,
    }
}

/// Whether the octets of a vendor's numbers hold this one.
pub(crate) fn is_held(number: u64, format: VendorFormat) -> bool
    ensures test { result ≡ is_held number format }
    ensures within { IsTrue result → number ≤ GREATEST_NUMBER }
{
    number <= max_in(format.t)
}

fn vendor_id(vendor: u32, number: u32, format: Option<VendorFormat>) -> Option<AttrId>
    ensures { result ≡ vendor_id vendor number format }
{
    match format {
        None => None,
        Some(format) => {
            if is_held(u64::from(number), format) {
                Some(AttrId::Vendor(vendor, number))
            } else {
                None
            }
        }
    }
}

#[tactic(auto, unfolding(crate::specs::Attributes::number_id))]
fn number_id(vendors: &Vendors, block: Option<u32>, number: u32) -> Option<AttrId>
    ensures { result ≡ number_id vendors.now block number }
{
    match block {
        None => Some(AttrId::Plain(number)),
        Some(vendor) => vendor_id(vendor, number, vendors.format_in_block(vendor)),
    }
}

#[tactic(auto, unfolding(crate::specs::Attributes::id_of_number))]
fn id_of_number(
    vendors: &Vendors,
    block: Option<u32>,
    number: Number,
) -> Result<Option<AttrId>, DictKind>
    ensures { (n : Option ℕ) → Reads number n
        → Meets is_memory_kind result (id_of_number vendors.now block n) }
{
    match number {
        Number::Unreadable => Err(DictKind::Unreadable),
        Number::TooGreat => Err(DictKind::OutOfRange),
        Number::Is(number) => {
            if number <= GREATEST_NUMBER {
                Ok(number_id(vendors, block, number as u32))
            } else {
                Err(DictKind::OutOfRange)
            }
        }
    }
}

/// The id of an extended attribute, whose own number is at least this.
pub(crate) fn extended_id(least: u64, t: u64, x: u64) -> Option<AttrId>
    ensures { result ≡ if is_extended_id least t x then Some (Extended t x) else None }
{
    if is_extended_type(t) && x >= least && x <= 255 {
        Some(AttrId::Extended(t as u8, x as u8))
    } else {
        None
    }
}

fn id_of_dotted(block: Option<u32>, t: Number, x: Number) -> Result<Option<AttrId>, DictKind>
    ensures { (m n : Option ℕ) → Reads t m → Reads x n
        → Meets is_memory_kind result (id_of_dotted block m n) }
{
    match (t, x) {
        (Number::Unreadable, _) | (_, Number::Unreadable) => { Err(DictKind::Unreadable) }
        (Number::Is(t), Number::Is(x)) if block.is_none() => Ok(extended_id(1, t, x)),
        _ => Ok(None),
    }
}

fn are_numbers(parts: &[&[u8]]) -> bool
    ensures { result ≡ list_all is_number (views parts.now) }
{
    let mut rest = parts;
    while let [part, after @ ..] = rest {
        if !is_number(part) {
            return false;
        }
        rest = after;
    }
    true
}

fn id_of_more(parts: &[&[u8]]) -> Result<Option<AttrId>, DictKind>
    ensures { Meets is_memory_kind result (id_of_more (views parts.now)) }
{
    if are_numbers(parts) {
        Ok(None)
    } else {
        Err(DictKind::Unreadable)
    }
}

#[tactic(auto, unfolding(crate::specs::Attributes::id_of_parts))]
fn id_of_parts(
    vendors: &Vendors,
    block: Option<u32>,
    parts: &[&[u8]],
) -> Result<Option<AttrId>, DictKind>
    ensures { Meets is_memory_kind result (id_of_parts vendors.now block (views parts.now)) }
{
    match parts {
        [number] => id_of_number(vendors, block, number_of(number)),
        [t, x] => id_of_dotted(block, number_of(t), number_of(x)),
        _ => id_of_more(parts),
    }
}

// The id of the number on a line, which mostly has one part.
fn id_of_word(
    alloc: Global,
    vendors: &Vendors,
    block: Option<u32>,
    number: &[u8],
) -> Result<Option<AttrId>, DictKind>
    ensures { Meets is_memory_kind result
        (id_of_parts vendors.now block (slice_split is_dot number.now)) }
{
    if first_between(b'.', number).is_none() {
        return id_of_parts(vendors, block, &[number]);
    }
    let parts = parts_between(alloc, b'.', number)?;
    id_of_parts(vendors, block, &parts)
}

fn is_decimal(octet: u8) -> bool
    ensures { result ≡ is_decimal octet }
{
    octet >= b'0' && octet <= b'9'
}

fn are_octets_of_name(name: &[u8]) -> bool
    ensures { result ≡ list_all is_name_octet name.now }
{
    are_octets_of::<OfAttribute>(name)
}

/// Whether a name begins with `Attr-` and a digit.
pub(crate) fn begins_as_attr(name: &[u8]) -> bool
    ensures { result ≡ begins_as_attr name.now }
{
    name.len() >= 6 && same_name(&name[..5], b"attr-") && is_decimal(name[5])
}

#[tactic(auto, unfolding(crate::specs::Attributes::is_attribute_name))]
fn is_attribute_name(name: &[u8]) -> bool
    ensures { result ≡ is_attribute_name name.now }
{
    are_octets_of_name(name) && name.len() <= MAX_NAME && !begins_as_attr(name)
}

// Whether lines before it give the name another id is not asked here.
#[tactic(auto, unfolding(crate::specs::Attributes::attribute_of))]
fn attribute_of<'a>(
    name: &'a [u8],
    kind: &[u8],
    flags: &[&[u8]],
    id: Option<AttrId>,
) -> Result<Meaning<'a>, RefusedWord>
    ensures { Meets is_memory_word (read_view result)
        (attribute_of [] name.now kind.now (views flags.now) id) }
{
    match id {
        None => Ok(Meaning::SkippedAttribute(name)),
        Some(id) => {
            if is_attribute_name(name) && are_flags(flags) {
                Ok(Meaning::Attribute(name, id, typing_of(id, kind, flags)))
            } else {
                Ok(Meaning::SkippedAttribute(name))
            }
        }
    }
}

#[tactic(auto, unfolding(crate::specs::Attributes::attribute_line))]
fn attribute_line<'a>(
    alloc: Global,
    before: &Context<'_>,
    block: Option<u32>,
    name: &'a [u8],
    number: &[u8],
    kind: &[u8],
    flags: &[&[u8]],
) -> Result<Meaning<'a>, RefusedWord>
    ensures { Meets is_memory_word (read_view result)
        (attribute_line (without_names (context_view before.now)) block name.now number.now
        kind.now (views flags.now)) }
{
    match id_of_word(alloc, &before.vendors, block, number) {
        Ok(id) => attribute_of(name, kind, flags, id),
        Err(kind) => Err(kind.at_word(2)),
    }
}

/// An ATTRIBUTE line after its keyword, without the names of those before it.
#[tactic(auto, unfolding(crate::specs::Attributes::attribute))]
pub(crate) fn read_attribute<'a>(
    alloc: Global,
    before: &Context<'_>,
    block: Option<u32>,
    words: &[&'a [u8]],
) -> Result<Meaning<'a>, RefusedWord>
    ensures { Meets is_memory_word (read_view result)
        (attribute (without_names (context_view before.now)) block (views words.now)) }
{
    match words {
        [name, number, kind] => attribute_line(alloc, before, block, name, number, kind, &[]),
        [name, number, kind, flags] => {
            let flags = parts_between(alloc, b',', flags)?;
            attribute_line(alloc, before, block, name, number, kind, &flags)
        }
        _ => Err(miscounted(4, words)),
    }
}
