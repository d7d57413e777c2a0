//! VENDOR lines.

ghost use Rattle.std.specs.Prelude.{◌≡◌, ◌≤◌, ℕ, Option, IfOk};
ghost use Rattle.std.specs.List.{list_all, slice_split};
ghost use Rattle.avp_lists.specs.Meets.{Meets};
ghost use Rattle.avp_dict.specs.Letters.{is_comma, is_visible};
ghost use Rattle.avp_dict.specs.Vendors.{format_parts, format_word, is_vendor_name, two_parts, vendor, vendor_formatted, vendor_line, vendor_numbered};
ghost use Rattle.avp_dict.specs.internal.Agreeing.{AreAloneVendors};
ghost use Rattle.avp_dict.specs.internal.Meanings.{read_view};
ghost use Rattle.avp_dict.specs.internal.Numbers.{Reads};
ghost use Rattle.avp_dict.specs.internal.Refused.{is_memory_word};
ghost use Rattle.avp_dict.specs.internal.Views.{views};

use crate::entries::VendorFormat;
use crate::faults::{DictKind, RefusedWord, miscounted};
use crate::file::keywords::FORMAT_KEY;
use crate::file::meanings::Meaning;
use crate::file::numbers::{GREATEST_NUMBER, Number, bounded, is_number, number_of};
use crate::file::parts::parts_between;
use crate::file::words::{MAX_NAME, same_name};
use crate::tables::Vendors;
use std::alloc::{AllocError, Global};

// The format of a VENDOR line that gives none.
const STANDARD_FORMAT: VendorFormat = VendorFormat {
    t: 1,
    l: 1,
    third: false,
};

fn is_visible(octet: u8) -> bool
    ensures { result ≡ is_visible octet }
{
    octet >= 33 && octet <= 126
}

fn are_visible(name: &[u8]) -> bool
    ensures { result ≡ list_all is_visible name.now }
{
    name.iter().all(|octet| is_visible(*octet))
}

#[tactic(auto, unfolding(crate::specs::Vendors::is_vendor_name))]
fn is_vendor_name(name: &[u8]) -> bool
    ensures { result ≡ is_vendor_name name.now }
{
    are_visible(name) && name.len() <= MAX_NAME
}

#[tactic(auto, unfolding(crate::specs::Vendors::vendor_numbered))]
fn vendor_numbered<'a>(
    vendors: &Vendors,
    name: &'a [u8],
    format: VendorFormat,
    number: u64,
) -> Result<Meaning<'a>, RefusedWord>
    requires number { number ≤ GREATEST_NUMBER }
    requires agreeing { AreAloneVendors vendors.now }
    ensures { Meets is_memory_word (read_view result)
        (vendor_numbered vendors.now name.now format number) }
{
    let number = number as u32;
    if vendors.any_names_other_vendor(name, number) {
        return Err(DictKind::OtherNumber.at_word(1));
    }
    Ok(Meaning::Vendor(name, number, format))
}

#[tactic(auto, unfolding(crate::specs::Vendors::vendor_formatted))]
fn vendor_formatted<'a>(
    vendors: &Vendors,
    name: &'a [u8],
    number: &[u8],
    format: Option<VendorFormat>,
) -> Result<Meaning<'a>, RefusedWord>
    requires { AreAloneVendors vendors.now }
    ensures { Meets is_memory_word (read_view result)
        (vendor_formatted vendors.now name.now number.now format) }
{
    match format {
        None => Err(DictKind::Unreadable.at_word(3)),
        Some(format) => match bounded(GREATEST_NUMBER, number) {
            Ok(number) => vendor_numbered(vendors, name, format, number),
            Err(kind) => Err(kind.at_word(2)),
        },
    }
}

#[tactic(auto, unfolding(crate::specs::Vendors::vendor_line))]
fn vendor_line<'a>(
    vendors: &Vendors,
    name: &'a [u8],
    number: &[u8],
    format: Option<VendorFormat>,
) -> Result<Meaning<'a>, RefusedWord>
    requires { AreAloneVendors vendors.now }
    ensures { Meets is_memory_word (read_view result)
        (vendor_line vendors.now name.now number.now format) }
{
    if !is_vendor_name(name) {
        return Err(DictKind::Unreadable.at_word(1));
    }
    if !is_number(number) {
        return Err(DictKind::Unreadable.at_word(2));
    }
    vendor_formatted(vendors, name, number, format)
}

fn two_parts(third: bool, t: Number, l: Number) -> Option<VendorFormat>
    ensures { (m n : Option ℕ) → Reads t m → Reads l n → result ≡ two_parts third m n }
{
    match (t, l) {
        (Number::Is(t), Number::Is(l)) => {
            if (t == 1 || t == 2 || t == 4) && l <= 2 {
                Some(VendorFormat {
                    t: t as u8,
                    l: l as u8,
                    third,
                })
            } else {
                None
            }
        }
        _ => None,
    }
}

fn format_parts(parts: &[&[u8]]) -> Option<VendorFormat>
    ensures { result ≡ format_parts (views parts.now) }
{
    match parts {
        [t, l] => two_parts(false, number_of(t), number_of(l)),
        [t, l, _] => two_parts(true, number_of(t), number_of(l)),
        _ => None,
    }
}

fn format_after_key(alloc: Global, rest: &[u8]) -> Result<Option<VendorFormat>, AllocError>
    ensures { IfOk result (λ format. format ≡ format_parts (slice_split is_comma rest.now)) }
{
    let parts = parts_between(alloc, b',', rest)?;
    Ok(format_parts(&parts))
}

#[tactic(auto, unfolding(crate::specs::Vendors::format_word))]
fn format_word(alloc: Global, word: &[u8]) -> Result<Option<VendorFormat>, AllocError>
    ensures { IfOk result (λ format. format ≡ format_word word.now) }
{
    if word.len() < FORMAT_KEY.len() {
        return Ok(None);
    }
    let (key, rest) = word.split_at(FORMAT_KEY.len());
    if !same_name(key, FORMAT_KEY) {
        return Ok(None);
    }
    format_after_key(alloc, rest)
}

/// A VENDOR line after its keyword.
#[tactic(auto, unfolding(crate::specs::Vendors::vendor))]
pub(crate) fn read_vendor<'a>(
    alloc: Global,
    vendors: &Vendors,
    words: &[&'a [u8]],
) -> Result<Meaning<'a>, RefusedWord>
    requires { AreAloneVendors vendors.now }
    ensures { Meets is_memory_word (read_view result) (vendor vendors.now (views words.now)) }
{
    match words {
        [name, number] => vendor_line(vendors, name, number, Some(STANDARD_FORMAT)),
        [name, number, format] => {
            let format = format_word(alloc, format)?;
            vendor_line(vendors, name, number, format)
        }
        _ => Err(miscounted(3, words)),
    }
}
