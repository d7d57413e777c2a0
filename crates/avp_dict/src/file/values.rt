//! VALUE lines and notes, after the last line.

ghost use Rattle.std.specs.Prelude.{◌≡◌, [], Err, Ok, ◌≤◌, length, OnOk, IfErr, IfOk, IfSome, IsTrue};
ghost use Rattle.std.specs.Option.{option_and_then};
ghost use Rattle.std.specs.List.{list_all};
ghost use Rattle.avp_lists.specs.Meets.{Meets, Unless};
ghost use Rattle.avp_dict.specs.Letters.{is_value_name_octet, max_name};
ghost use Rattle.avp_dict.specs.Meanings.{Value};
ghost use Rattle.avp_dict.specs.Values.{is_noted, is_tagged_integer, is_value_name, max_of, max_of_typing, reads_as_number, resolve, tagged_line, tagged_value, value_of, value_up_to, with_line, with_note, with_tagged, with_value};
ghost use Rattle.avp_dict.specs.Dictionary.{typing_of_id};
ghost use Rattle.avp_dict.specs.internal.Agreeing.{AreAloneValues, agreeing, without_values};
ghost use Rattle.avp_dict.specs.internal.Contents.{contents_view};
ghost use Rattle.avp_dict.specs.internal.LastFormats.{IsLastFormat};
ghost use Rattle.avp_dict.specs.internal.Meanings.{meaning_view, reading_view, reading_views};
ghost use Rattle.avp_dict.specs.internal.Refused.{is_memory_refusal, is_memory_word};
ghost use Rattle.avp_dict.specs.internal.Targets.{IsTarget};

use crate::contents::Contents;
use crate::entries::{Kind, Note, Typing, ValueLine};
use crate::faults::{DictKind, RefusedLine, RefusedWord};
use crate::file::meanings::{Meaning, Reading};
use crate::file::name_octets::{OfValue, are_octets_of};
use crate::file::numbers::digits;
use crate::file::settling::LastFormat;
use crate::file::words::MAX_NAME;
use crate::forms::Form;
use crate::spelling::Name;
use crate::tables::{Attributes, NameSet, Values, Vendors};
use avp_lists::AttrId;
use std::alloc::{AllocError, Global};

// The greatest number beside a tag, of three octets (RFC 2868, section 3.1).
const MAX_TAGGED_NUMBER: u64 = 16_777_215;

fn are_octets_of_value_name(name: &[u8]) -> bool
    ensures { result ≡ list_all is_value_name_octet name.now }
{
    are_octets_of::<OfValue>(name)
}

fn reads_as_number(word: &[u8]) -> bool
    ensures { result ≡ reads_as_number word.now }
{
    match word {
        [b'0', b'x', rest @ ..] => digits(16, rest).is_read(),
        [b'0', b'X', rest @ ..] => digits(16, rest).is_read(),
        _ => digits(10, word).is_read(),
    }
}

#[tactic(auto, unfolding(crate::specs::Values::is_value_name))]
#[inline(always)]
fn is_value_name(name: &[u8]) -> bool
    ensures test { result ≡ is_value_name name.now }
    ensures short { IsTrue result → length name.now ≤ max_name }
{
    are_octets_of_value_name(name) && name.len() <= MAX_NAME && !reads_as_number(name)
}

pub(crate) fn max_of(kind: Kind) -> Option<u64>
    ensures { result ≡ max_of kind }
{
    match kind {
        Kind::Byte => Some(255),
        Kind::Short => Some(u16::MAX as u64),
        Kind::Integer => Some(u32::MAX as u64),
        Kind::Integer64 => Some(u64::MAX),
        _ => None,
    }
}

fn max_of_typing(typing: Option<Typing>) -> Option<u64>
    ensures { result ≡ option_and_then max_of_typing typing }
{
    match typing {
        Some(typing) => max_of(typing.kind),
        None => None,
    }
}

// How the values of an id are read, where there is one.
fn typing_for(attributes: &Attributes, id: Option<AttrId>) -> Option<Typing>
    ensures { result ≡ option_and_then (λ i. typing_of_id i attributes.now) id }
{
    attributes.typing_of_id(id?)
}

// The attribute that a VALUE line names, and how its values are read.
#[derive(Clone, Copy)]
pub struct Target<'a> {
    pub name: &'a [u8],
    pub id: Option<AttrId>,
    pub typing: Option<Typing>,
}

impl<'a> Target<'a> {
    fn named(attributes: &Attributes, name: &'a [u8]) -> Target<'a>
        ensures name { result.name.now ≡ name.now }
        ensures found { IsTarget attributes.now result }
    {
        let id = attributes.id_named(name);
        Target {
            name,
            id,
            typing: typing_for(attributes, id),
        }
    }

    // The attribute of the next VALUE line: most have that of the line before.
    fn next(self, attributes: &Attributes, name: &'a [u8]) -> Target<'a>
        requires { IsTarget attributes.now self }
        ensures name { result.name.now ≡ name.now }
        ensures found { IsTarget attributes.now result }
    {
        if self.name == name {
            self
        } else {
            Target::named(attributes, name)
        }
    }
}

// The name of a number of an attribute with this greatest number, whatever earlier lines gave it.
#[tactic(auto, unfolding(crate::specs::Values::value_up_to))]
fn value_up_to(
    alloc: Global,
    id: AttrId,
    name: &[u8],
    number: u64,
    most: Option<u64>,
) -> Result<Option<ValueLine>, RefusedWord>
    ensures value { Meets is_memory_word result (value_up_to [] id name.now number most) }
    ensures short { IfOk result (λ value. IfSome value (λ v. length v.name ≤ max_name)) }
{
    match most {
        None => Ok(None),
        Some(most) => {
            if !is_value_name(name) {
                return Ok(None);
            }
            if number > most {
                return Err(DictKind::OutOfRange.at_word(3));
            }
            let name = Name::from_slice(alloc, name)?;
            Ok(Some(ValueLine { id, name, number }))
        }
    }
}

// What a VALUE line of this attribute adds, whatever earlier ones gave its name.
#[tactic(auto, unfolding(crate::specs::Values::value_of))]
fn value_of(
    alloc: Global,
    skipped: &NameSet<'_>,
    contents: &Contents,
    attribute: &[u8],
    name: &[u8],
    number: u64,
    id: Option<AttrId>,
    typing: Option<Typing>,
) -> Result<Option<ValueLine>, RefusedWord>
    requires { typing ≡ option_and_then
        (λ i. typing_of_id i (contents_view contents.now).attributes) id }
    ensures value { Meets is_memory_word result (value_of skipped.now
        (without_values (contents_view contents.now)) attribute.now name.now number id) }
    ensures short { IfOk result (λ value. IfSome value (λ v. length v.name ≤ max_name)) }
{
    match id {
        Some(id) => {
            let most = max_of_typing(typing);
            value_up_to(alloc, id, name, number, most)
        }
        None => {
            if skipped.contains(alloc, attribute)? {
                Ok(None)
            } else {
                Err(DictKind::NoAttribute.at_word(1))
            }
        }
    }
}

fn is_tagged_integer(form: Form) -> bool
    ensures { result ≡ is_tagged_integer form }
{
    matches!(form, Form::TaggedInteger)
}

fn tagged_line(
    alloc: Global,
    id: AttrId,
    name: &[u8],
    number: u64,
    typing: Option<Typing>,
) -> Result<Option<ValueLine>, AllocError>
    ensures value { IfOk result (λ value. value ≡ tagged_line id name.now number typing) }
    ensures short { IfOk result (λ value. IfSome value (λ v. length v.name ≤ max_name)) }
{
    match typing {
        Some(typing)
            if is_tagged_integer(typing.form)
                && is_value_name(name)
                && number <= MAX_TAGGED_NUMBER => {
            let name = Name::from_slice(alloc, name)?;
            Ok(Some(ValueLine { id, name, number }))
        }
        _ => Ok(None),
    }
}

// The name of a number beside a tag that a VALUE line gives.
#[tactic(auto, unfolding(crate::specs::Values::tagged_value))]
fn tagged_value(
    alloc: Global,
    contents: &Contents,
    name: &[u8],
    number: u64,
    id: Option<AttrId>,
    typing: Option<Typing>,
) -> Result<Option<ValueLine>, AllocError>
    requires { typing ≡ option_and_then
        (λ i. typing_of_id i (contents_view contents.now).attributes) id }
    ensures value { IfOk result (λ value. value
        ≡ tagged_value (contents_view contents.now) name.now number id) }
    ensures short { IfOk result (λ value. IfSome value (λ v. length v.name ≤ max_name)) }
{
    match id {
        Some(id) => tagged_line(alloc, id, name, number, typing),
        None => Ok(None),
    }
}

fn is_noted(vendors: &Vendors, last: &mut LastFormat, meaning: Meaning<'_>) -> bool
    requires { IsLastFormat vendors.now last.old }
    ensures noted { result ≡ is_noted vendors.now (meaning_view meaning.entry) }
    ensures format { IsLastFormat vendors.now last.new }
{
    match meaning {
        Meaning::Skipped => true,
        Meaning::SkippedAttribute(_) => true,
        Meaning::Attribute(_, id, _) => !last.is_kept(vendors, id),
        Meaning::BeginVendor(_, vendor) => vendor.is_none(),
        Meaning::BeginTlv(_) => true,
        Meaning::End(noted) => noted,
        _ => false,
    }
}

impl Contents {
    // A note of this line.
    fn add_note(&mut self, reading: Reading<'_>) -> Result<(), AllocError>
        ensures note { OnOk result (contents_view self.new
            ≡ with_note (contents_view self.old) (reading_view reading.entry)) }
        ensures values { self.new.values ≡ self.old.values }
        ensures kept { self.new.attributes ≡ self.old.attributes }
        ensures vendors { self.new.vendors ≡ self.old.vendors }
    {
        self.notes.push(Note {
            file: reading.file,
            line: reading.line,
        })?;
        Ok(())
    }

    // What a VALUE line adds, unless an earlier one gives its name another number.
    fn add_value(
        &mut self,
        reading: Reading<'_>,
        value: Option<ValueLine>,
    ) -> Result<(), RefusedWord>
        requires short { IfSome value (λ v. length v.name ≤ max_name) }
        requires agreeing { AreAloneValues self.old.values }
        ensures agreed { OnOk result (agreeing self.old.values value ≡ Ok value) }
        ensures refused { IfErr result (λ refused. Unless (is_memory_word refused)
            (agreeing self.old.values value ≡ Err refused)) }
        ensures value { OnOk result (contents_view self.new
            ≡ with_value (contents_view self.old) (reading_view reading.entry) value) }
        ensures agreeing { OnOk result (AreAloneValues self.new.values) }
        ensures kept { self.new.attributes ≡ self.old.attributes }
        ensures vendors { self.new.vendors ≡ self.old.vendors }
    {
        match value {
            Some(value) => {
                if self.values.push_number(value)? {
                    return Err(DictKind::OtherValue.at_word(2));
                }
            }
            None => self.add_note(reading)?,
        }
        Ok(())
    }

    fn add_tagged(&mut self, value: Option<ValueLine>) -> Result<(), AllocError>
        requires { IfSome value (λ v. length v.name ≤ max_name) }
        ensures tagged { OnOk result (contents_view self.new
            ≡ with_tagged (contents_view self.old) value) }
        ensures values { self.new.values ≡ self.old.values }
        ensures kept { self.new.attributes ≡ self.old.attributes }
        ensures vendors { self.new.vendors ≡ self.old.vendors }
    {
        match value {
            Some(value) => self.tagged_values.push(value),
            None => Ok(()),
        }
    }

    // What a VALUE line adds, by its attribute.
    #[tactic(auto, unfolding(crate::specs::Values::with_line))]
    fn add_number(
        &mut self,
        alloc: Global,
        skipped: &NameSet<'_>,
        reading: Reading<'_>,
        target: Target<'_>,
        name: &[u8],
        number: u64,
    ) -> Result<(), RefusedLine>
        requires target { IsTarget self.old.attributes target }
        requires reading { meaning_view reading.meaning
            ≡ Value target.name.now name.now number }
        requires agreeing { AreAloneValues self.old.values }
        ensures step { OnOk result (with_line skipped.now (contents_view self.old)
            (reading_view reading.entry) ≡ Ok (contents_view self.new)) }
        ensures refused { IfErr result (λ refused.
            Unless (is_memory_refusal refused) (with_line skipped.now (contents_view self.old)
            (reading_view reading.entry) ≡ Err refused)) }
        ensures agreeing { OnOk result (AreAloneValues self.new.values) }
        ensures kept { self.new.attributes ≡ self.old.attributes }
        ensures vendors { self.new.vendors ≡ self.old.vendors }
    {
        let Target {
            name: attribute,
            id,
            typing,
        } = target;
        let value = match value_of(alloc, skipped, self, attribute, name, number, id, typing) {
            Ok(value) => value,
            Err(refused) => return Err(refused.at_line(reading.file, reading.line)),
        };
        let tagged = tagged_value(alloc, self, name, number, id, typing)?;
        match self.add_value(reading, value) {
            Ok(()) => {
                self.add_tagged(tagged)?;
                Ok(())
            }
            Err(refused) => Err(refused.at_line(reading.file, reading.line)),
        }
    }

    // What a line adds, and the attribute of the last VALUE line after it.
    #[tactic(auto, unfolding(crate::specs::Values::with_line))]
    fn add_line<'a>(
        &mut self,
        alloc: Global,
        skipped: &NameSet<'_>,
        last: &mut LastFormat,
        target: Target<'a>,
        reading: Reading<'a>,
    ) -> Result<Target<'a>, RefusedLine>
        requires target { IsTarget self.old.attributes target }
        requires format { IsLastFormat self.old.vendors last.old }
        requires agreeing { AreAloneValues self.old.values }
        ensures target { IfOk result (IsTarget self.new.attributes) }
        ensures format { OnOk result (IsLastFormat self.new.vendors last.new) }
        ensures agreeing { OnOk result (AreAloneValues self.new.values) }
        ensures step { OnOk result (with_line skipped.now (contents_view self.old)
            (reading_view reading.entry) ≡ Ok (contents_view self.new)) }
        ensures refused { IfErr result (λ refused.
            Unless (is_memory_refusal refused) (with_line skipped.now (contents_view self.old)
            (reading_view reading.entry) ≡ Err refused)) }
    {
        if let Meaning::Value(attribute, name, number) = reading.meaning {
            let target = target.next(&self.attributes, attribute);
            self.add_number(alloc, skipped, reading, target, name, number)?;
            return Ok(target);
        }
        if is_noted(&self.vendors, last, reading.meaning) {
            self.add_note(reading)?;
        }
        Ok(target)
    }

    /// What the lines add, one after the other.
    pub(crate) fn add_lines(
        &mut self,
        alloc: Global,
        skipped: &NameSet<'_>,
        readings: &[Reading<'_>],
    ) -> Result<(), RefusedLine>
        requires { AreAloneValues self.old.values }
        ensures ok { OnOk result (resolve skipped.now (contents_view self.old)
            (reading_views readings.now) ≡ Ok (contents_view self.new)) }
        ensures refused { IfErr result (λ refused.
            Unless (is_memory_refusal refused) (resolve skipped.now (contents_view self.old)
            (reading_views readings.now) ≡ Err refused)) }
    {
        let mut target = Target::named(&self.attributes, b"");
        let mut last = LastFormat::of(&self.vendors, 0);
        for reading in readings {
            target = self.add_line(alloc, skipped, &mut last, target, *reading)?;
        }
        Ok(())
    }
}
