//! A fault and its help on one line.

ghost use Rattle.std.specs.Prelude.{◌≡◌, IfOk, false, true};
ghost use Rattle.radpolicy_common.specs.VisibleText.{all_visible};
ghost use Rattle.radpolicy_common.specs.declared.terminals.LineBreaks.TheVariants.{Kept};
ghost use Rattle.radpolicy_help.specs.OneLine.{are_digits, is_place, is_sentence, sentences};

use crate::texts::{push_all, push_number};
use avp_dict::next_line;
use radpolicy::Fault;
use radpolicy_common::{LineBreaks, visible_text};
use std::alloc::{AllocError, Global};

// Whether octets are digits alone, one or more.
fn are_digits(octets: &[u8]) -> bool
    ensures { result ≡ are_digits false octets.now }
{
    let mut rest = octets;
    let mut some = false;
    while let [first, after @ ..] = rest {
        if !first.is_ascii_digit() {
            return false;
        }
        some = true;
        rest = after;
    }
    some
}

fn is_place(line: &[u8]) -> bool
    ensures { result ≡ is_place line.now }
{
    let mut rest = line;
    while let [first, after @ ..] = rest {
        if *first == b':' && are_digits(after) {
            return true;
        }
        rest = after;
    }
    false
}

/// The place that help begins with, as `PATH:LINE:COLUMN`, and the lines below it. It is empty where there is none.
pub fn split_place(help: &[u8]) -> (&[u8], &[u8]) {
    match next_line(help) {
        Some((place, below)) if is_place(place) => (place, below),
        _ => (&[], help),
    }
}

fn is_sentence(line: &[u8]) -> bool
    ensures { result ≡ is_sentence line.now }
{
    !line.is_empty() && !line.starts_with(b"    ")
}

/// The lines of help that quote no file, each behind a colon and a blank.
pub fn sentences(alloc: Global, help: &[u8]) -> Result<Vec<u8>, AllocError>
    ensures { IfOk result (λ text. text.items ≡ sentences help.now) }
{
    let mut text = Vec::new(alloc);
    let mut rest = help;
    while let Some((line, after)) = next_line(rest) {
        if is_sentence(line) {
            text.extend_from_slice(b": ")?;
            text.extend_from_slice(line)?;
        }
        rest = after;
    }
    Ok(text)
}

/// What a program beside `radpolicy` says of a fault.
#[derive(Clone, Copy)]
pub(crate) struct Told<'a> {
    pub program: &'a str,
    pub fault: &'a Fault,
    /// The fault's line under the program's name, without its end.
    pub line: &'a [u8],
    pub help: &'a [u8],
}

// `PROGRAM: PLACE: NUMBER` of a fault with a place.
fn push_placed(text: &mut Vec<u8>, told: &Told<'_>, place: &[u8]) -> Result<(), AllocError> {
    let number = usize::from(told.fault.number());
    let zero = if number < 10 { "0" } else { "" };
    push_all(text, &[told.program, ": "])?;
    text.extend_from_slice(place)?;
    push_all(text, &[": E", zero])?;
    push_number(text, number)
}

/// A fault on one line: under its program's name the place that the help begins with, the fault's number, and what the
/// help says in place of the fault's own words; where it tells no place, the fault's line, and then the help.
pub(crate) fn on_one_line(alloc: Global, told: &Told<'_>) -> Result<Vec<u8>, AllocError>
    ensures visible { IfOk result (λ text. all_visible Kept text.items ≡ true) }
{
    let (place, below) = split_place(told.help);
    let said = sentences(alloc, below)?;
    let mut text = Vec::new(alloc);
    if place.is_empty() {
        text.extend_from_slice(told.line)?;
        text.extend_from_slice(&said)?;
    } else {
        push_placed(&mut text, told, place)?;
        match said.strip_prefix(b":") {
            Some(said) => text.extend_from_slice(said)?,
            None => push_all(&mut text, &[" ", told.fault.text()])?,
        }
    }
    text.push(b'\n')?;
    visible_text(alloc, &text, LineBreaks::Kept)
}
