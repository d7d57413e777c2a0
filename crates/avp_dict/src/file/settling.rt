//! What is settled after the last line: which ATTRIBUTE lines are used, by the vendors' last formats, and the
//! dictionary.

ghost use Rattle.std.specs.Prelude.{◌≡◌, ◌≤◌, [], Err, Ok, count_by, IfErr, IfOk, OnOk, IsTrue};
ghost use Rattle.std.specs.List.{list_all};
ghost use Rattle.std.specs.Option.{option_copied};
ghost use Rattle.std.specs.Result.{result_map_both};
ghost use Rattle.avp_lists.specs.Meets.{Meets, Unless};
ghost use Rattle.avp_dict.specs.DictionaryReading.{settled_dictionary};
ghost use Rattle.avp_dict.specs.Meanings.{context_of};
ghost use Rattle.avp_dict.specs.Settled.{holds, is_in_format, is_kept, is_kept_line, skipped_names, used};
ghost use Rattle.avp_dict.specs.Values.{resolve};
ghost use Rattle.avp_dict.specs.internal.Agreeing.{AreAloneValues};
ghost use Rattle.avp_dict.specs.internal.Contents.{contents_view};
ghost use Rattle.avp_dict.specs.internal.LastFormats.{IsLastFormat};
ghost use Rattle.avp_dict.specs.internal.Meanings.{context_view, is_value_line, meaning_view, name_if, reading_views, skipped_name_of};
ghost use Rattle.avp_dict.specs.internal.Refused.{is_memory_refusal};

use crate::contents::Contents;
use crate::entries::{AttributeLine, VendorFormat};
use crate::faults::RefusedLine;
use crate::file::attributes::is_held;
use crate::file::context::Context;
use crate::file::meanings::{Meaning, Reading};
use crate::file::numbers::GREATEST_NUMBER;
use crate::tables::{Attributes, NameSet, Values, Vendors};
use avp_lists::AttrId;
use std::alloc::{AllocError, Global};

fn holds(number: u64, format: Option<VendorFormat>) -> bool
    ensures test { result ≡ holds number format }
    ensures within { IsTrue result → number ≤ GREATEST_NUMBER }
{
    match format {
        None => false,
        Some(format) => !format.third && is_held(number, format),
    }
}

/// Whether the vendor's last format has two parts and holds the number.
#[tactic(auto, unfolding(crate::specs::Settled::is_in_format))]
pub(crate) fn is_in_format(vendors: &Vendors, vendor: u32, number: u64) -> bool
    ensures test { result ≡ is_in_format vendor number vendors.now }
    ensures within { IsTrue result → number ≤ GREATEST_NUMBER }
{
    holds(number, vendors.format_of(vendor))
}

// The format of a vendor. Most lines are of the vendor of the line before, and need not look for it.
#[derive(Clone, Copy)]
pub struct LastFormat {
    pub vendor: u32,
    pub format: Option<VendorFormat>,
}

impl LastFormat {
    pub(crate) fn of(vendors: &Vendors, vendor: u32) -> LastFormat
        ensures vendor { result.vendor ≡ vendor }
        ensures format { IsLastFormat vendors.now result }
    {
        LastFormat {
            vendor,
            format: vendors.format_of(vendor),
        }
    }

    // The format of the next line's vendor.
    fn next(self, vendors: &Vendors, vendor: u32) -> LastFormat
        requires { IsLastFormat vendors.now self }
        ensures vendor { result.vendor ≡ vendor }
        ensures format { IsLastFormat vendors.now result }
    {
        if self.vendor == vendor {
            self
        } else {
            LastFormat::of(vendors, vendor)
        }
    }

    /// Whether an ATTRIBUTE line with this id is kept.
    #[tactic(auto, unfolding(crate::specs::Settled::is_in_format))]
    #[inline(always)]
    pub(crate) fn is_kept(&mut self, vendors: &Vendors, id: AttrId) -> bool
        requires { IsLastFormat vendors.now self.old }
        ensures kept { result ≡ is_kept vendors.now id }
        ensures format { IsLastFormat vendors.now self.new }
    {
        match id {
            AttrId::Plain(_) => true,
            AttrId::Vendor(vendor, number) => {
                *self = self.next(vendors, vendor);
                holds(u64::from(number), self.format)
            }
            AttrId::Extended(_, _) => true,
        }
    }
}

fn are_kept(vendors: &Vendors, lines: &[AttributeLine]) -> bool
    ensures { result ≡ list_all (is_kept_line vendors.now) lines.now }
{
    let mut last = LastFormat::of(vendors, 0);
    let mut rest = lines;
    while let [line, after @ ..] = rest {
        if !last.is_kept(vendors, line.id) {
            return false;
        }
        rest = after;
    }
    true
}

// The lines that are kept, with tables of their own.
#[tactic(auto, unfolding(crate::specs::Settled::used))]
fn only_kept(
    alloc: Global,
    vendors: &Vendors,
    attributes: &Attributes,
    kept: &mut Attributes,
) -> Result<(), AllocError>
    requires { kept.old ≡ [] }
    ensures { OnOk result (kept.new ≡ used vendors.now attributes.now) }
{
    let mut last = LastFormat::of(vendors, 0);
    let lines = attributes.as_slice();
    for line in lines {
        if last.is_kept(vendors, line.id) {
            let name = line.name.copy(alloc)?;
            let id = line.id;
            let typing = line.typing;
            kept.push(AttributeLine { name, id, typing })?;
        }
    }
    Ok(())
}

/// The used ATTRIBUTE lines: those that their vendors' last formats hold.
pub(crate) fn used(
    alloc: Global,
    vendors: &Vendors,
    attributes: Attributes,
) -> Result<Attributes, AllocError>
    ensures { IfOk result (λ kept. kept ≡ used vendors.now attributes) }
{
    if are_kept(vendors, attributes.as_slice()) {
        return Ok(attributes);
    }
    let mut kept = Attributes::new(alloc);
    only_kept(alloc, vendors, &attributes, &mut kept)?;
    Ok(kept)
}

// The name on a skipped ATTRIBUTE line.
fn skipped_name<'a>(
    vendors: &Vendors,
    last: &mut LastFormat,
    meaning: Meaning<'a>,
) -> Option<&'a [u8]>
    requires { IsLastFormat vendors.now last.old }
    ensures name { name_if (option_copied result)
        ≡ skipped_name_of vendors.now (meaning_view meaning.entry) }
    ensures format { IsLastFormat vendors.now last.new }
{
    match meaning {
        Meaning::SkippedAttribute(name) => Some(name),
        Meaning::Attribute(name, id, _) => {
            if last.is_kept(vendors, id) {
                None
            } else {
                Some(name)
            }
        }
        _ => None,
    }
}

fn is_value_line(meaning: Meaning<'_>) -> bool
    ensures { result ≡ is_value_line meaning.entry }
{
    matches!(meaning, Meaning::Value(_, _, _))
}

// The names on the skipped ATTRIBUTE lines.
#[tactic(auto, unfolding(crate::specs::Settled::skipped_names))]
fn add_skipped<'a>(
    alloc: Global,
    vendors: &Vendors,
    readings: &[Reading<'a>],
    skipped: &mut NameSet<'a>,
) -> Result<(), AllocError>
    requires { skipped.old ≡ [] }
    ensures { OnOk result (skipped.new ≡ skipped_names vendors.now (reading_views readings.now)) }
{
    let mut last = LastFormat::of(vendors, 0);
    for reading in readings {
        if let Some(name) = skipped_name(vendors, &mut last, reading.meaning) {
            skipped.push(alloc, name)?;
        }
    }
    Ok(())
}

// How many of the lines are VALUE lines.
fn value_lines(readings: &[Reading<'_>]) -> usize
    ensures { result ≡ count_by (λ reading. is_value_line reading.meaning) readings.now }
{
    readings
        .iter()
        .filter(|reading| is_value_line(reading.meaning))
        .count()
}

fn add_all(
    alloc: Global,
    readings: &[Reading<'_>],
    contents: &mut Contents,
) -> Result<(), RefusedLine>
    requires { AreAloneValues contents.old.values }
    ensures ok { OnOk result (resolve (skipped_names contents.old.vendors
        (reading_views readings.now)) (contents_view contents.old) (reading_views readings.now)
        ≡ Ok (contents_view contents.new)) }
    ensures refused { IfErr result (λ refused.
        Unless (is_memory_refusal refused) (resolve
        (skipped_names contents.old.vendors (reading_views readings.now))
        (contents_view contents.old) (reading_views readings.now) ≡ Err refused)) }
{
    let mut skipped = NameSet::new(alloc);
    add_skipped(alloc, &contents.vendors, readings, &mut skipped)?;
    contents.add_lines(alloc, &skipped, readings)
}

/// The dictionary of lines that were read.
#[tactic(auto, unfolding(crate::specs::DictionaryReading::settled_dictionary))]
pub(crate) fn settle(
    alloc: Global,
    readings: &[Reading<'_>],
    context: Context<'_>,
) -> Result<Contents, RefusedLine>
    requires { context_view context ≡ context_of (reading_views readings.now) }
    ensures { Meets is_memory_refusal (result_map_both contents_view (λ refused. refused) result)
        (settled_dictionary (reading_views readings.now)) }
{
    let Context {
        attributes,
        vendors,
        opened: _,
    } = context;
    let attributes = used(alloc, &vendors, attributes)?;
    let values = Values::with_capacity(alloc, value_lines(readings))?;
    let mut contents = Contents {
        attributes,
        values,
        tagged_values: Values::new(alloc),
        vendors,
        notes: Vec::new(alloc),
    };
    add_all(alloc, readings, &mut contents)?;
    Ok(contents)
}
