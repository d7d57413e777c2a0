//! What the lines before a line leave for it.

ghost use Rattle.std.specs.Prelude.{◌≡◌, ◌≤◌, Err, IfErr, IfOk, Ok, OnOk, length};
ghost use Rattle.std.specs.Option.{option_map};
ghost use Rattle.avp_dict.specs.Blocks.{block_vendor, innermost, is_skipping, opened_vendor, opens_skipped};
ghost use Rattle.avp_lists.specs.Meets.{Unless};
ghost use Rattle.avp_dict.specs.Letters.{max_name};
ghost use Rattle.avp_dict.specs.Meanings.{Attribute, after_reading, no_context, with_attribute};
ghost use Rattle.avp_dict.specs.internal.Agreeing.{IsAgreeing, agreeing_meaning};
ghost use Rattle.avp_dict.specs.internal.Meanings.{IsShort, context_view, meaning_view, reading_view, reading_views};
ghost use Rattle.avp_dict.specs.internal.Refused.{is_memory_word};

use crate::entries::{AttributeLine, VendorLine};
use crate::faults::{DictKind, RefusedWord};
use crate::file::meanings::{Meaning, Reading};
use crate::spelling::Name;
use crate::tables::{Attributes, Vendors};
use std::alloc::{AllocError, Global};

/// The attributes and vendors that lines define, and the lines that opened the blocks that are open after them.
#[derive(Drop)]
pub struct Context<'a> {
    pub attributes: Attributes,
    pub vendors: Vendors,
    pub opened: Vec<Reading<'a>>,
}

impl<'a> Context<'a> {
    /// What no line leaves, with room for so many attributes.
    pub(crate) fn with_capacity(alloc: Global, attributes: usize) -> Result<Context<'a>, AllocError>
        ensures { IfOk result (λ context. context_view context ≡ no_context) }
    {
        let attributes = Attributes::with_capacity(alloc, attributes)?;
        Ok(Context {
            attributes,
            vendors: Vendors::new(alloc),
            opened: Vec::new(alloc),
        })
    }

    // One ATTRIBUTE line more, unless one before it gives its name another id.
    fn add_attribute(&mut self, line: AttributeLine) -> Result<(), RefusedWord>
        requires short { length line.name ≤ max_name }
        requires agreeing { IsAgreeing (context_view self.old) }
        ensures added { OnOk result (context_view self.new
            ≡ with_attribute (context_view self.old) line) }
        ensures agreed { OnOk result (agreeing_meaning (context_view self.old).attributes
            (Attribute line) ≡ Ok (Attribute line)) }
        ensures refused { IfErr result (λ refused. Unless (is_memory_word refused)
            (agreeing_meaning (context_view self.old).attributes (Attribute line)
            ≡ Err refused)) }
    {
        if self.attributes.push_agreeing(line)? {
            return Err(DictKind::OtherNumber.at_word(1));
        }
        Ok(())
    }

    /// One line more, unless it is an ATTRIBUTE line and one before it gives its name another id.
    pub(crate) fn add(&mut self, alloc: Global, reading: Reading<'a>) -> Result<(), RefusedWord>
        requires short { IsShort reading.meaning }
        requires agreeing { IsAgreeing (context_view self.old) }
        ensures added { OnOk result (context_view self.new
            ≡ after_reading (context_view self.old) (reading_view reading.entry)) }
        ensures agreed { OnOk result (agreeing_meaning (context_view self.old).attributes
            (meaning_view reading.entry.meaning) ≡ Ok (meaning_view reading.entry.meaning)) }
        ensures refused { IfErr result (λ refused. Unless (is_memory_word refused)
            (agreeing_meaning (context_view self.old).attributes
            (meaning_view reading.entry.meaning) ≡ Err refused)) }
    {
        match reading.meaning {
            Meaning::Attribute(name, id, typing) => {
                let name = Name::from_slice(alloc, name)?;
                self.add_attribute(AttributeLine { name, id, typing })?;
            }
            Meaning::Vendor(name, number, format) => {
                let name = Name::from_slice(alloc, name)?;
                self.vendors.push(VendorLine {
                    name,
                    number,
                    format,
                })?;
            }
            Meaning::BeginVendor(_, _) | Meaning::BeginTlv(_) => self.opened.push(reading)?,
            Meaning::End(_) => self.opened.truncate(self.opened.len().saturating_sub(1)),
            _ => {}
        }
        Ok(())
    }
}

/// The line that opened the innermost open block.
pub(crate) fn innermost<'a>(opened: &[Reading<'a>]) -> Option<Reading<'a>>
    ensures { option_map reading_view result ≡ innermost (reading_views opened.now) }
{
    opened.last().copied()
}

fn opens_skipped(reading: Reading<'_>) -> bool
    ensures { result ≡ opens_skipped (reading_view reading.entry) }
{
    match reading.meaning {
        Meaning::BeginVendor(_, vendor) => vendor.is_none(),
        Meaning::BeginTlv(_) => true,
        _ => false,
    }
}

/// Whether one of the open blocks is skipped.
#[tactic(auto, unfolding(crate::specs::Blocks::is_skipping))]
pub(crate) fn is_skipping(opened: &[Reading<'_>]) -> bool
    ensures { result ≡ is_skipping (reading_views opened.now) }
{
    let mut rest = opened;
    while let [reading, after @ ..] = rest {
        if opens_skipped(*reading) {
            return true;
        }
        rest = after;
    }
    false
}

fn opened_vendor(reading: Reading<'_>) -> Option<u32>
    ensures { result ≡ opened_vendor (reading_view reading.entry) }
{
    match reading.meaning {
        Meaning::BeginVendor(_, vendor) => vendor,
        _ => None,
    }
}

/// The vendor of the innermost open block.
#[tactic(auto, unfolding(crate::specs::Blocks::block_vendor))]
pub(crate) fn block_vendor(opened: &[Reading<'_>]) -> Option<u32>
    ensures { result ≡ block_vendor (reading_views opened.now) }
{
    let reading = innermost(opened)?;
    opened_vendor(reading)
}
