//! The lines of a file set.

ghost use Rattle.std.specs.Prelude.{◌≡◌, ◌<◌, length, IfSome};
ghost use Rattle.std.specs.Option.{option_and_then, option_copied};
ghost use Rattle.std.specs.List.{before_first, after_first, position};
ghost use Rattle.avp_dict.specs.Lines.{file_named, included_by, is_include, is_line_end, octets_at};
ghost use Rattle.avp_dict.specs.internal.LineWords.{from_line_end};
ghost use Rattle.avp_dict.specs.internal.Views.{views};

use crate::file::files::{NamedFile, last_component};
use crate::file::keywords::{DOLLAR_INCLUDE, DOLLAR_INCLUDE_IF_THERE};
use crate::file::words::same_name;
use memchr::memchr;

/// The most lines that are read in all; a file that is included twice counts twice.
pub const MAX_LINES: usize = 200_000;
/// The most includes that may lead to a file.
pub const MAX_DEPTH: usize = 8;
/// How many files may be open at once: the main one, and one for each include in it.
pub const MAX_LEVELS: usize = MAX_DEPTH + 1;

/// A line, where it is, and how many includes led to it.
#[derive(Clone, Copy)]
pub struct Line<'a> {
    pub file: usize,
    pub number: usize,
    pub depth: usize,
    pub text: &'a [u8],
}

#[tactic(auto, using(crate::proofs::FirstPlaces::first_place))]
fn line_end(text: &[u8]) -> Option<usize>
    ensures { result ≡ position is_line_end text.now }
{
    memchr(b'\n', text)
}

pub(crate) fn is_line_end(octet: u8) -> bool
    ensures { result ≡ is_line_end octet }
{
    octet == b'\n'
}

/// A text from its first line end on. Most that follow the words of a line begin with it.
#[tactic(auto, using(crate::proofs::LineWords::end_here))]
pub(crate) fn from_line_end(text: &[u8]) -> &[u8]
    ensures { result.now ≡ from_line_end text.now }
{
    match text {
        [octet, ..] if is_line_end(*octet) => text,
        _ => match line_end(text) {
            Some(end) => &text[end..],
            None => &text[text.len()..],
        },
    }
}

/// The first line of a text, and what follows it, where the text from the line's end on is given.
#[tactic(auto, using(crate::proofs::LineWords::line_before_end, crate::proofs::LineWords::rest_after_end))]
pub(crate) fn split_at_end<'a>(text: &'a [u8], end: &'a [u8]) -> (&'a [u8], &'a [u8])
    requires { end.now ≡ from_line_end text.now }
    ensures line { result.0.now ≡ before_first is_line_end text.now }
    ensures rest { result.1.now ≡ after_first is_line_end text.now }
{
    let (line, _) = text.split_at(text.len() - end.len());
    match end {
        [_, after @ ..] => (line, after),
        [] => (line, end),
    }
}

/// The first line of a text, and what follows it.
pub(crate) fn split_line(text: &[u8]) -> (&[u8], &[u8])
    ensures line { result.0.now ≡ before_first is_line_end text.now }
    ensures rest { result.1.now ≡ after_first is_line_end text.now }
{
    match line_end(text) {
        Some(end) => (&text[..end], &text[end + 1..]),
        None => (text, &text[text.len()..]),
    }
}

fn file_named(files: &[NamedFile], name: &[u8]) -> Option<usize>
    ensures place { result ≡ file_named name.now files.now }
    ensures within { IfSome result (λ place. place < length files.now) }
{
    files.iter().position(|file| file.name.as_slice() == name)
}

// Most words begin with another octet than `$`.
#[tactic(auto, using(crate::proofs::KeywordCases::no_include))]
#[inline(always)]
pub(crate) fn is_include(word: &[u8]) -> bool
    ensures { result ≡ is_include word.now }
{
    match word {
        [b'$', ..] => {
            same_name(word, DOLLAR_INCLUDE) || same_name(word, DOLLAR_INCLUDE_IF_THERE)
        }
        _ => false,
    }
}

fn included<'a>(words: &[&'a [u8]]) -> Option<&'a [u8]>
    ensures { option_copied result ≡ included_by (views words.now) }
{
    match words {
        [head, path] if is_include(head) => Some(last_component(path)),
        _ => None,
    }
}

/// The place of the file that a line of these words includes.
pub(crate) fn place_included(files: &[NamedFile], words: &[&[u8]]) -> Option<usize>
    ensures { result ≡ option_and_then (λ name. file_named name files.now)
        (included_by (views words.now)) }
{
    let name = included(words)?;
    file_named(files, name)
}

/// What a file of the set holds.
pub(crate) fn octets_at(files: &[NamedFile], place: usize) -> &[u8]
    ensures { result.now ≡ octets_at files.now place }
{
    match files.get(place) {
        Some(file) => file.octets.as_slice(),
        None => &[],
    }
}
