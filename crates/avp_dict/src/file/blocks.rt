//! Lines that begin and end blocks, and includes.

ghost use Rattle.std.specs.Prelude.{◌≡◌, false};
ghost use Rattle.std.specs.Option.{option_map_or};
ghost use Rattle.avp_lists.specs.Meets.{Meets};
ghost use Rattle.avp_dict.specs.Blocks.{begin_known, begin_tlv, begin_vendor, end_tlv, end_vendor, ended, innermost, opens_tlv_named, opens_vendor_named, unless_third};
ghost use Rattle.avp_dict.specs.Readings.{include, include_line};
ghost use Rattle.avp_dict.specs.internal.Meanings.{read_view, reading_view, reading_views};
ghost use Rattle.avp_dict.specs.internal.Refused.{is_memory_word};
ghost use Rattle.avp_dict.specs.internal.Views.{views};

use crate::entries::VendorFormat;
use crate::faults::{DictKind, RefusedWord, miscounted};
use crate::file::context::{innermost, is_skipping};
use crate::file::keywords::DOLLAR_INCLUDE;
use crate::file::lines::MAX_DEPTH;
use crate::file::meanings::{Meaning, Reading};
use crate::file::words::same_name;
use crate::tables::Vendors;

fn opens_vendor_named(reading: Reading<'_>, name: &[u8]) -> bool
    ensures { result ≡ opens_vendor_named name.now (reading_view reading.entry) }
{
    match reading.meaning {
        Meaning::BeginVendor(other, _) => same_name(other, name),
        _ => false,
    }
}

fn opens_tlv_named(reading: Reading<'_>, name: &[u8]) -> bool
    ensures { result ≡ opens_tlv_named name.now (reading_view reading.entry) }
{
    match reading.meaning {
        Meaning::BeginTlv(other) => same_name(other, name),
        _ => false,
    }
}

fn is_innermost_vendor(opened: &[Reading<'_>], name: &[u8]) -> bool
    ensures { result ≡ option_map_or (opens_vendor_named name.now)
        (innermost (reading_views opened.now)) false }
{
    match innermost(opened) {
        Some(reading) => opens_vendor_named(reading, name),
        None => false,
    }
}

fn is_in_tlv(opened: &[Reading<'_>], name: &[u8]) -> bool
    ensures { result ≡ option_map_or (opens_tlv_named name.now)
        (innermost (reading_views opened.now)) false }
{
    match innermost(opened) {
        Some(reading) => opens_tlv_named(reading, name),
        None => false,
    }
}

fn ended<'a>(fits: bool, opened: &[Reading<'_>]) -> Result<Meaning<'a>, RefusedWord>
    ensures { Meets is_memory_word (read_view result) (ended fits (reading_views opened.now)) }
{
    if fits {
        Ok(Meaning::End(is_skipping(opened)))
    } else {
        Err(DictKind::Unmatched.at_word(1))
    }
}

#[tactic(auto, unfolding(crate::specs::Blocks::end_vendor))]
pub(crate) fn end_vendor<'a>(
    opened: &[Reading<'_>],
    words: &[&'a [u8]],
) -> Result<Meaning<'a>, RefusedWord>
    ensures { Meets is_memory_word (read_view result)
        (end_vendor (reading_views opened.now) (views words.now)) }
{
    match words {
        [name] => ended(is_innermost_vendor(opened, name), opened),
        _ => Err(miscounted(1, words)),
    }
}

#[tactic(auto, unfolding(crate::specs::Blocks::end_tlv))]
pub(crate) fn end_tlv<'a>(
    opened: &[Reading<'_>],
    words: &[&'a [u8]],
) -> Result<Meaning<'a>, RefusedWord>
    ensures { Meets is_memory_word (read_view result)
        (end_tlv (reading_views opened.now) (views words.now)) }
{
    match words {
        [name] => ended(is_in_tlv(opened, name), opened),
        _ => Err(miscounted(1, words)),
    }
}

#[tactic(auto, unfolding(crate::specs::Blocks::begin_tlv))]
pub(crate) fn begin_tlv<'a>(words: &[&'a [u8]]) -> Result<Meaning<'a>, RefusedWord>
    ensures { Meets is_memory_word (read_view result) (begin_tlv (views words.now)) }
{
    match words {
        [name] => Ok(Meaning::BeginTlv(name)),
        _ => Err(miscounted(1, words)),
    }
}

fn unless_third(vendor: u32, format: Option<VendorFormat>) -> Option<u32>
    ensures { result ≡ unless_third vendor format }
{
    match format {
        None => Some(vendor),
        Some(format) => { if format.third { None } else { Some(vendor) } }
    }
}

#[tactic(auto, unfolding(crate::specs::Blocks::begin_known))]
fn begin_known<'a>(vendors: &Vendors, name: &'a [u8]) -> Result<Meaning<'a>, RefusedWord>
    ensures { Meets is_memory_word (read_view result) (begin_known vendors.now name.now) }
{
    match vendors.vendor_named(name) {
        None => Err(DictKind::UnknownVendor.at_word(1)),
        Some(vendor) => Ok(Meaning::BeginVendor(
            name,
            unless_third(vendor, vendors.format_of(vendor)),
        )),
    }
}

#[tactic(auto, unfolding(crate::specs::Blocks::begin_vendor))]
pub(crate) fn begin_vendor<'a>(
    vendors: &Vendors,
    opened: &[Reading<'_>],
    words: &[&'a [u8]],
) -> Result<Meaning<'a>, RefusedWord>
    ensures { Meets is_memory_word (read_view result)
        (begin_vendor vendors.now (reading_views opened.now) (views words.now)) }
{
    match words {
        [name] => {
            if is_skipping(opened) {
                Ok(Meaning::BeginVendor(name, None))
            } else {
                begin_known(vendors, name)
            }
        }
        [name, _] => Ok(Meaning::BeginVendor(name, None)),
        _ => Err(miscounted(2, words)),
    }
}

fn include_line<'a>(
    required: bool,
    included: Option<usize>,
    depth: usize,
) -> Result<Meaning<'a>, RefusedWord>
    ensures { Meets is_memory_word (read_view result) (include_line required included depth) }
{
    match included {
        None => {
            if required {
                Err(DictKind::NoFile.at_word(1))
            } else {
                Ok(Meaning::Skipped)
            }
        }
        Some(_) => {
            if depth < MAX_DEPTH {
                Ok(Meaning::Nothing)
            } else {
                Err(DictKind::TooDeep.at_word(0))
            }
        }
    }
}

#[tactic(auto, unfolding(crate::specs::Readings::include))]
pub(crate) fn include<'a>(
    included: Option<usize>,
    depth: usize,
    head: &[u8],
    words: &[&'a [u8]],
) -> Result<Meaning<'a>, RefusedWord>
    ensures { Meets is_memory_word (read_view result)
        (include included depth head.now (views words.now)) }
{
    match words {
        [_] => include_line(same_name(head, DOLLAR_INCLUDE), included, depth),
        _ => Err(miscounted(1, words)),
    }
}
