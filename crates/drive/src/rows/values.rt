//! Values and requests: `value NAME TEXT`, `beside TAG NAME TEXT`, `octets ID DIGITS`, `fits ID [NUMBER]`, `quote TEXT`,
//! `request TEXT` and `count TEXT`. A pair is written as what holds its value, the name and the text that are printed,
//! and the octets; a request's fault as its line, its offset and its kind.

use super::setting::Setting;
use super::words::{bad, first_word, id_of, number_of, octet_of, octets_of};
use avp_dict::{LineFault, quote};
use avp_forms::{
    Target, printed_pair_name, printed_pair_text, read_request, target_of, value_written,
};
use avp_lists::{Octets, Pair, Value};
use std::io;
use std::io::Write;

fn holder_of(value: &Value) -> &'static str {
    match value {
        Value::Text(_) => "Text",
        Value::Bytes(_) => "Bytes",
        Value::Int(_) => "Int",
        Value::Signed(_) => "Signed",
        Value::Addr(_) => "Addr",
        Value::Ether(_) => "Ether",
        Value::Raw(_) => "Raw",
    }
}

// A pair, and whether its octets are read as another value.
fn write_pair<W: Write>(out: &mut W, setting: &Setting, pair: &Pair) -> io::Result<()> {
    let (alloc, dictionary, profile) = (setting.alloc, &setting.dictionary, setting.profile);
    if !dictionary.fits(pair) {
        return write!(out, "{:?} does not fit", pair.value);
    }
    let name = printed_pair_name(alloc, dictionary, profile, pair.id, &pair.value)?;
    let text = printed_pair_text(alloc, dictionary, profile, pair.id, &pair.value)?;
    let octets = dictionary.bytes_of_value(alloc, pair.id, &pair.value)?;
    let digits = hex::encode(alloc, &octets)?;
    write!(out, "{} ", holder_of(&pair.value))?;
    out.write_all(&name)?;
    out.write_all(b" = ")?;
    out.write_all(&text)?;
    write!(out, " (0x{digits})")?;
    if dictionary.value_of_bytes(alloc, pair.id, &octets)? != pair.value {
        out.write_all(b" read otherwise")?;
    }
    Ok(())
}

// The pair of a text, or why it is none.
fn write_written<W: Write>(
    out: &mut W,
    setting: &Setting,
    target: Target,
    text: &[u8],
) -> io::Result<()> {
    let Setting {
        alloc,
        dictionary,
        profile,
        zone,
        ..
    } = setting;
    match value_written(*alloc, dictionary, *profile, target, *zone, text) {
        Ok(value) => {
            let id = target.named.id;
            write_pair(out, setting, &Pair { id, value })
        }
        Err(fault) => write!(out, "{fault:?}: {fault}"),
    }
}

/// The value of a text under a name.
pub fn write_value<W: Write>(out: &mut W, setting: &Setting, text: &[u8]) -> io::Result<()> {
    let (name, text) = first_word(text);
    match target_of(&setting.dictionary, setting.profile, name) {
        Some(target) => write_written(out, setting, target, text),
        None => out.write_all(b"no attribute"),
    }
}

/// The value of a text under a name with a tag, which may be one that no name has.
pub fn write_beside<W: Write>(out: &mut W, setting: &Setting, text: &[u8]) -> io::Result<()> {
    let (tag, text) = first_word(text);
    let tag = Some(octet_of(tag)?);
    let (name, text) = first_word(text);
    match setting.dictionary.by_name(name) {
        Some(named) => write_written(out, setting, Target { named, tag }, text),
        None => out.write_all(b"no attribute"),
    }
}

/// The value of octets.
pub fn write_octets<W: Write>(out: &mut W, setting: &Setting, text: &[u8]) -> io::Result<()> {
    let (id, digits) = first_word(text);
    let id = id_of(setting.alloc, id)?;
    let octets = octets_of(setting.alloc, digits)?;
    let value = setting
        .dictionary
        .value_of_bytes(setting.alloc, id, &octets)?;
    write_pair(out, setting, &Pair { id, value })
}

/// Whether a number, or no octets, can be a value of an attribute.
pub fn write_fits<W: Write>(out: &mut W, setting: &Setting, text: &[u8]) -> io::Result<()> {
    let (id, number) = first_word(text);
    let id = id_of(setting.alloc, id)?;
    let value = match number {
        [] => Value::Raw(Octets::from_vec(Vec::new(setting.alloc))),
        digits => Value::Int(number_of(digits)?),
    };
    write!(out, "{}", setting.dictionary.fits(&Pair { id, value }))
}

/// A text between double quotes.
pub fn write_quoted<W: Write>(out: &mut W, setting: &Setting, text: &[u8]) -> io::Result<()> {
    let quoted = quote(setting.alloc, text)?;
    out.write_all(&quoted)
}

fn pairs_of(setting: &Setting, text: &[u8]) -> Result<Vec<Pair>, LineFault> {
    let Setting {
        alloc,
        dictionary,
        profile,
        zone,
        ..
    } = setting;
    read_request(*alloc, dictionary, *profile, *zone, text)
}

fn write_fault<W: Write>(out: &mut W, fault: &LineFault) -> io::Result<()> {
    write!(
        out,
        "{}:{} {:?}: {fault}",
        fault.line, fault.offset, fault.kind
    )
}

/// How many pairs there are, and each.
pub fn write_pairs<W: Write>(out: &mut W, setting: &Setting, pairs: &[Pair]) -> io::Result<()> {
    write!(out, "{} pairs", pairs.len())?;
    for pair in pairs {
        out.write_all(b"; ")?;
        write_pair(out, setting, pair)?;
    }
    Ok(())
}

/// The pairs of a request.
pub fn write_request<W: Write>(out: &mut W, setting: &Setting, text: &[u8]) -> io::Result<()> {
    match pairs_of(setting, text) {
        Ok(pairs) => write_pairs(out, setting, &pairs),
        Err(fault) => write_fault(out, &fault),
    }
}

/// How many pairs a request has.
pub fn write_count<W: Write>(out: &mut W, setting: &Setting, text: &[u8]) -> io::Result<()> {
    match pairs_of(setting, text) {
        Ok(pairs) => write!(out, "{} pairs", pairs.len()),
        Err(fault) => write_fault(out, &fault),
    }
}

/// The first pair of a request.
pub fn pair_of(setting: &Setting, text: &[u8]) -> io::Result<Pair> {
    match pairs_of(setting, text) {
        Ok(pairs) => match pairs.into_iter().next() {
            Some(pair) => Ok(pair),
            None => bad(),
        },
        Err(_) => bad(),
    }
}
