//! What values stand for: `profile-of TEXT`, `target NAME`, `form NAME TEXT`, `form-octets NAME DIGITS`, `compare NAME
//! TEXT NAME TEXT`, and of the pair of a request line `put LINE` and `expansion LINE`. A name may have a tag. What a value
//! stands for is written as its form, its tag, its text, the printed text and the octets.

ghost use Rattle.std.specs.Prelude.{IsTrue};
ghost use Rattle.avp_forms.specs.Expansions.{is_printed_by_type};

use super::setting::Setting;
use super::values::pair_of;
use super::words::{bad, first_word, octets_of};
use avp_dict::{Form, ValueFault, is_container, quote};
use avp_forms::{
    Expansion, FormValue, MAX_TAG, Profile, Target, expansion_of, printed_octets, profile_of,
    target_of, text_put,
};
use avp_lists::AttrId;
use std::io;
use std::io::Write;

/// The profile that the comments before a text's first statement or pair ask for.
pub fn write_profile<W: Write>(out: &mut W, text: &[u8]) -> io::Result<()> {
    write!(out, "{:?}", profile_of(text))
}

/// What a name stands for in the profile, with its tag.
pub fn write_target<W: Write>(out: &mut W, setting: &Setting, name: &[u8]) -> io::Result<()> {
    match target_of(&setting.dictionary, setting.profile, name) {
        Some(target) => write!(out, "{:?}, tag {:?}", target.named.id, target.tag),
        None => out.write_all(b"none"),
    }
}

// A text between quotes, with a word before it.
fn write_text<W: Write>(
    out: &mut W,
    setting: &Setting,
    word: &[u8],
    text: &[u8],
) -> io::Result<()> {
    let quoted = quote(setting.alloc, text)?;
    out.write_all(word)?;
    out.write_all(&quoted)
}

fn write_meaning<W: Write>(
    out: &mut W,
    setting: &Setting,
    id: AttrId,
    value: &FormValue,
) -> io::Result<()> {
    let (alloc, dictionary) = (setting.alloc, &setting.dictionary);
    let text = value.text(alloc, dictionary, id)?;
    let printed = value.printed_text(alloc, dictionary, id)?;
    let octets = value.to_octets(alloc)?;
    let digits = hex::encode(alloc, &octets)?;
    write!(out, "{:?}, tag {:?}, ", dictionary.form(id), value.tag())?;
    write_text(out, setting, b"text ", &text)?;
    out.write_all(b", printed ")?;
    out.write_all(&printed)?;
    write!(out, " (0x{digits})")
}

fn target_named(setting: &Setting, name: &[u8]) -> io::Result<Target> {
    match target_of(&setting.dictionary, Profile::Wider, name) {
        Some(target) => Ok(target),
        None => bad(),
    }
}

// What a text stands for, or why it stands for nothing.
fn form_value(
    setting: &Setting,
    target: Target,
    text: &[u8],
) -> io::Result<Result<FormValue, ValueFault>> {
    let tag = target.tag.unwrap_or(0);
    if tag > MAX_TAG {
        return bad();
    }
    let Setting {
        alloc,
        dictionary,
        zone,
        ..
    } = setting;
    Ok(FormValue::of_text(*alloc, dictionary, target.named.id, tag, *zone, text))
}

/// What a text stands for under a name.
pub fn write_form<W: Write>(out: &mut W, setting: &Setting, text: &[u8]) -> io::Result<()> {
    let (name, text) = first_word(text);
    let target = target_named(setting, name)?;
    match form_value(setting, target, text)? {
        Ok(value) => write_meaning(out, setting, target.named.id, &value),
        Err(fault) => write!(out, "{fault:?}: {fault}"),
    }
}

// What octets stand for, and the text that is printed for them whether they do or not.
fn write_octets_of<W: Write>(
    out: &mut W,
    setting: &Setting,
    form: Form,
    id: AttrId,
    octets: &[u8],
) -> io::Result<()> {
    match FormValue::of_octets(setting.alloc, form, octets)? {
        Some(value) => write_meaning(out, setting, id, &value)?,
        None => write!(out, "{form:?}, no meaning")?,
    }
    let printed = printed_octets(setting.alloc, &setting.dictionary, form, id, octets)?;
    out.write_all(b", octets ")?;
    out.write_all(&printed)
}

/// What octets stand for under a name.
pub fn write_form_octets<W: Write>(out: &mut W, setting: &Setting, text: &[u8]) -> io::Result<()> {
    let (name, digits) = first_word(text);
    let id = target_named(setting, name)?.named.id;
    let octets = octets_of(setting.alloc, digits)?;
    match setting.dictionary.form(id) {
        Some(form) => write_octets_of(out, setting, form, id, &octets),
        None => bad(),
    }
}

fn value_of(setting: &Setting, name: &[u8], text: &[u8]) -> io::Result<FormValue> {
    match form_value(setting, target_named(setting, name)?, text)? {
        Ok(value) => Ok(value),
        Err(_) => bad(),
    }
}

/// How two values compare.
pub fn write_order<W: Write>(out: &mut W, setting: &Setting, text: &[u8]) -> io::Result<()> {
    let words: Vec<&[u8]> = text.split(|octet| *octet == b' ').collect(setting.alloc)?;
    let [name, text, other, others] = words.as_slice() else {
        return bad();
    };
    let value = value_of(setting, name, text)?;
    let other = value_of(setting, other, others)?;
    write!(out, "{:?}", value.compare(&other))
}

/// The text that an expansion puts in for a value, in the wider profile and in the plain one.
pub fn write_texts_put<W: Write>(out: &mut W, setting: &Setting, text: &[u8]) -> io::Result<()> {
    let pair = pair_of(setting, text)?;
    let (alloc, dictionary) = (setting.alloc, &setting.dictionary);
    if !dictionary.fits(&pair) {
        return bad();
    }
    let wider = text_put(alloc, dictionary, Profile::Wider, pair.id, &pair.value)?;
    let plain = text_put(alloc, dictionary, Profile::Plain, pair.id, &pair.value)?;
    write_text(out, setting, b"wider ", &wider)?;
    write_text(out, setting, b", plain ", &plain)
}

/// The same text without memory, and where it is kept.
pub fn write_expansion<W: Write>(out: &mut W, setting: &Setting, text: &[u8]) -> io::Result<()> {
    let pair = pair_of(setting, text)?;
    if is_container(pair.id) || setting.dictionary.by_id(pair.id).is_none() {
        return bad();
    }
    match expansion_of(&setting.dictionary, pair.id, &pair.value) {
        Expansion::Octets(octets) => write_text(out, setting, b"Octets ", octets),
        Expansion::Digits(octets) => {
            let digits = hex::encode(setting.alloc, octets)?;
            write!(out, "Digits 0x{digits}")
        }
        Expansion::Short(short) => write_text(out, setting, b"Short ", short.as_slice()),
    }
}
