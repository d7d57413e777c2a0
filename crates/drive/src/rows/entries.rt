//! What a dictionary has: `name NAME`, `id ID`, `attribute PLACE`, `vendor NUMBER`, `number ID NAME` and
//! `value-name ID NUMBER`; and of a path `last-component PATH`.

use super::setting::Setting;
use super::words::{first_word, id_of, number_of, small_number_of};
use avp_dict::last_component;
use std::io;
use std::io::Write;

fn write_or_none<W: Write>(out: &mut W, name: Option<&[u8]>) -> io::Result<()> {
    match name {
        Some(name) => out.write_all(name),
        None => out.write_all(b"none"),
    }
}

/// What a name stands for.
pub fn write_named<W: Write>(out: &mut W, setting: &Setting, name: &[u8]) -> io::Result<()> {
    match setting.dictionary.by_name(name) {
        Some(named) if named.raw => write!(out, "{:?} by number", named.id),
        Some(named) => write!(out, "{:?}", named.id),
        None => out.write_all(b"none"),
    }
}

/// What an attribute is, whether the dictionary has it or not.
pub fn write_entry<W: Write>(out: &mut W, setting: &Setting, text: &[u8]) -> io::Result<()> {
    let id = id_of(setting.alloc, text)?;
    let dictionary = &setting.dictionary;
    match dictionary.by_id(id) {
        Some(entry) => {
            out.write_all(entry.name)?;
            write!(out, " {:?}, hidden {}, ", entry.kind, entry.hidden)?;
        }
        None => out.write_all(b"none, ")?,
    }
    write!(
        out,
        "form {:?}, secret {}, length {}",
        dictionary.form(id),
        dictionary.is_marked_secret(id),
        dictionary.greatest_length(id)
    )
}

/// The name of the attribute at a place.
pub fn write_attribute<W: Write>(out: &mut W, setting: &Setting, text: &[u8]) -> io::Result<()> {
    let at = small_number_of(text)?;
    write_or_none(out, setting.dictionary.attribute_name(at as usize))
}

/// The format of a vendor's attributes.
pub fn write_vendor<W: Write>(out: &mut W, setting: &Setting, text: &[u8]) -> io::Result<()> {
    match setting.dictionary.vendor(small_number_of(text)?) {
        Some(format) => write!(out, "format {},{}", format.t, format.l),
        None => out.write_all(b"none"),
    }
}

/// The number that a value's name stands for, and that beside a tag.
pub fn write_number<W: Write>(out: &mut W, setting: &Setting, text: &[u8]) -> io::Result<()> {
    let (id, name) = first_word(text);
    let id = id_of(setting.alloc, id)?;
    let number = setting.dictionary.value_number(id, name);
    let tagged = setting.dictionary.tagged_number(id, name);
    write!(out, "{number:?}, beside a tag {tagged:?}")
}

/// The name of a number, and that beside a tag.
pub fn write_value_name<W: Write>(out: &mut W, setting: &Setting, text: &[u8]) -> io::Result<()> {
    let (id, number) = first_word(text);
    let (id, number) = (id_of(setting.alloc, id)?, number_of(number)?);
    write_or_none(out, setting.dictionary.value_name(id, number))?;
    out.write_all(b", beside a tag ")?;
    write_or_none(out, setting.dictionary.tagged_name(id, number))
}

/// The name by which a file is given and included.
pub fn write_last_component<W: Write>(out: &mut W, path: &[u8]) -> io::Result<()> {
    out.write_all(last_component(path))
}
