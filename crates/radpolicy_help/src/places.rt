//! Where a place is: a path, a line, a column, and the line itself.

use crate::halves::Halves;
use crate::hidden::Hidden;
use crate::pointing::point_at;
use crate::sources::Source;
use crate::texts::{push_all, push_number};
use avp_dict::{line_after, next_line};
use std::alloc::{AllocError, Global};
use std::str;

/// What a text has after its last line end.
pub(crate) fn last_line(text: &[u8]) -> &[u8] {
    match text.iter().rposition(|octet| *octet == b'\n') {
        Some(at) => text.get(at.saturating_add(1)..).unwrap_or(&[]),
        None => text,
    }
}

/// What a text has before its first line end.
pub(crate) fn first_line(text: &[u8]) -> &[u8] {
    match next_line(text) {
        Some((line, _)) => line.strip_suffix(b"\r").unwrap_or(line),
        None => &[],
    }
}

pub(crate) fn is_quote(octet: u8) -> bool {
    octet == b'"' || octet == b'\''
}

/// The place of the first quote on the line of a place, before it.
pub(crate) fn first_quote(text: &[u8], place: usize) -> Option<usize> {
    let line = last_line(text.get(..place).unwrap_or(text));
    let at = line.iter().position(|octet| is_quote(*octet))?;
    Some(place.saturating_sub(line.len()).saturating_add(at))
}

/// Where a text between quotes may begin that ends at a place: at the first quote of its line, or where the line begins if
/// no quote but the last is on it.
pub(crate) fn quoted_from(text: &[u8], place: usize) -> usize {
    let line = last_line(text.get(..place).unwrap_or(text));
    match first_quote(text, place) {
        Some(quote) if quote.saturating_add(1) < place => quote,
        _ => place.saturating_sub(line.len()),
    }
}

// How many characters octets are; how many octets where they are no UTF-8.
fn count_characters(octets: &[u8]) -> usize {
    match str::from_utf8(octets) {
        Ok(text) => text.chars().count(),
        Err(_) => octets.len(),
    }
}

// The number, from 1, of the character that begins `back` in a line; of the octet where the line is no UTF-8.
fn column(front: &[u8], back: &[u8]) -> usize {
    let before = if str::from_utf8(back).is_ok() {
        count_characters(front)
    } else {
        front.len()
    };
    before.saturating_add(1)
}

/// A file as it is quoted.
#[derive(Clone, Copy)]
pub(crate) struct Quoted<'a> {
    pub source: Source<'a>,
    pub hidden: &'a Hidden,
}

impl<'a> Quoted<'a> {
    // What is shown of the line of a place, before the place and from there on.
    fn halves(&self, alloc: Global, offset: usize) -> Result<Halves<'a>, AllocError> {
        let text = self.source.text;
        let (before, after) = text.split_at(offset.min(text.len()));
        let (front, back) = (last_line(before), first_line(after));
        let start = before.len().saturating_sub(front.len());
        let end = before.len().saturating_add(back.len());
        Halves::of(alloc, self.hidden.kept(start, end), front, back)
    }
}

// `PATH:LINE:COLUMN` of a place.
fn push_numbers(
    help: &mut Vec<u8>,
    source: Source<'_>,
    offset: usize,
    column: usize,
) -> Result<(), AllocError> {
    let before = source.text.get(..offset).unwrap_or(source.text);
    push_all(help, &[source.path, ":"])?;
    push_number(help, line_after(before))?;
    push_all(help, &[":"])?;
    push_number(help, column)?;
    push_all(help, &["\n"])
}

/// Adds the place that so many octets of a file are before, without its line: `PATH:LINE:COLUMN`.
pub(crate) fn push_bare_place(
    help: &mut Vec<u8>,
    source: Source<'_>,
    offset: usize,
) -> Result<(), AllocError> {
    let (before, after) = source.text.split_at(offset.min(source.text.len()));
    let column = column(last_line(before), first_line(after));
    push_numbers(help, source, offset, column)
}

/// Adds the place that so many octets of a file are before: `PATH:LINE:COLUMN`, and unless it is empty the line as it is
/// shown, with a caret below the place. A place in what is hidden is where that begins.
pub(crate) fn push_place(
    alloc: Global,
    help: &mut Vec<u8>,
    quoted: Quoted<'_>,
    offset: usize,
) -> Result<(), AllocError> {
    let halves = quoted.halves(alloc, offset)?;
    let (front, back) = (halves.front, halves.back.as_slice());
    push_numbers(help, quoted.source, offset, column(front, back))?;
    if !front.is_empty() || !back.is_empty() {
        let pointed = point_at(alloc, front, back)?;
        push_all(help, &["    "])?;
        help.extend_from_slice(&pointed.line)?;
        push_all(help, &["\n    "])?;
        help.extend_from_slice(&pointed.caret)?;
        push_all(help, &["\n"])?;
    }
    Ok(())
}

/// How many octets of a file are before its line of this number.
pub(crate) fn line_start(text: &[u8], line: usize) -> usize {
    let mut number: usize = 1;
    for (at, octet) in text.iter().enumerate() {
        if number >= line {
            return at;
        }
        if *octet == b'\n' {
            number = number.saturating_add(1);
        }
    }
    text.len()
}
