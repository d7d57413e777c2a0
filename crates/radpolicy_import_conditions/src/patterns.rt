//! Regular expressions, as a server has them.

use crate::reasons::Reason;
use crate::repetitions::repeats_nothing;
use crate::server_conditions::ServerCondition;
use avp_lists::Octets;
use avp_patterns::PatternFlags;
use std::alloc::{AllocError, Global};
use thiserror::Error;

/// How a server takes a part of a regular expression, or what it captures, otherwise than policies do.
#[derive(Clone, Copy, Debug, PartialEq, Eq, Error)]
pub enum PatternDifference {
    #[error("on a server $ also matches before a line feed at the end")]
    LineFeed,
    #[error("on a server \\<, \\> and \\b{{..}} are no edges of words")]
    WordEdge,
    #[error("on a server [, &&, -- and ~~ are signs by themselves in a class")]
    InClass,
    #[error("on a server [[:<:]] and [[:>:]] are the edges of a word")]
    EdgeClass,
    #[error("on a server braces with a blank in them are text")]
    BlankInBraces,
    /// It is tried once more with nothing there, which ends the repetition.
    #[error("on a server what is repeated may be empty, which ends the repetition and changes what is captured")]
    RepeatedNothing,
    #[error("on a server the flags u, R and x mean something else")]
    Flags,
    #[error("on a server \\x{{80}} and above are one octet each")]
    Octet,
    #[error("on a server a + after a repetition gives nothing back")]
    Possessive,
    #[error("on a server \\v is each line break")]
    LineBreak,
    #[error("on a server ^ does not match behind a line feed at the end")]
    LineStart,
    #[error("on a server a repetition after a letter beyond ASCII is of its last octet alone")]
    RepeatedOctet,
    #[error("on a server %% is one %, and a letter behind a % makes it what that stands for")]
    Percent,
    /// The policy begins with nothing captured.
    #[error("on a server %{{0}} to %{{9}} may be of a comparison before, or of one that is left out")]
    Earlier,
}

impl PatternDifference {
    /// Its name, if it has one.
    pub fn name(self) -> Option<&'static str> {
        match self {
            PatternDifference::LineStart => Some("line-start"),
            PatternDifference::RepeatedOctet => Some("repeated-octet"),
            _ => None,
        }
    }
}

/// A regular expression as it is written between slashes, and its flags.
#[derive(Clone, Copy)]
pub(crate) struct WrittenPattern<'a> {
    pub(crate) octets: &'a [u8],
    pub(crate) flags: PatternFlags,
}

/// Whether a comparison that follows is one with a regular expression, by `!~` or by `=~`, and what follows its sign.
pub(crate) fn match_sign(text: &[u8]) -> Option<(bool, &[u8])> {
    match text {
        [b'=', b'~', rest @ ..] => Some((false, rest)),
        [b'!', b'~', rest @ ..] => Some((true, rest)),
        _ => None,
    }
}

fn flags_named(word: &[u8]) -> Option<PatternFlags> {
    let (ignore_case, multi_line) = match word {
        [] => (false, false),
        [b'i'] => (true, false),
        [b'm'] => (false, true),
        [b'i', b'm'] | [b'm', b'i'] => (true, true),
        _ => return None,
    };
    Some(PatternFlags {
        ignore_case,
        multi_line,
    })
}

/// A regular expression with what follows its last slash, and what follows its flags.
pub(crate) fn flagged<'a>(
    octets: &'a [u8],
    text: &'a [u8],
) -> Result<(WrittenPattern<'a>, &'a [u8]), Reason> {
    let end = text
        .iter()
        .position(|octet| !octet.is_ascii_alphanumeric())
        .unwrap_or(text.len());
    let (word, rest) = text.split_at(end);
    match flags_named(word) {
        Some(flags) => Ok((WrittenPattern { octets, flags }, rest)),
        None => Err(Reason::RegularExpression),
    }
}

/// The text of a regular expression: `\/` is a slash in it.
pub(crate) fn pattern_text(alloc: Global, octets: &[u8]) -> Result<Vec<u8>, AllocError> {
    let mut text = Vec::new(alloc);
    let mut is_escaped = false;
    for octet in octets {
        if is_escaped && *octet == b'/' {
            text.truncate(text.len().saturating_sub(1));
        }
        text.push(*octet)?;
        is_escaped = *octet == b'\\' && !is_escaped;
    }
    Ok(text)
}

// The escapes of octets, as `\xc3\xa9`.
fn push_escapes(out: &mut Vec<u8>, octets: &[u8]) -> Result<(), AllocError> {
    for octet in octets {
        out.extend_from_slice(b"\\x")?;
        out.extend_from_slice(hex::encode(*out.allocator(), &[*octet])?.as_bytes())?;
    }
    Ok(())
}

/// A regular expression with its octets in place of each letter beyond ASCII that is repeated: of these a repetition is
/// that of the last here too.
pub(crate) fn by_octets(alloc: Global, pattern: &[u8]) -> Result<Vec<u8>, AllocError> {
    let mut text = Vec::new(alloc);
    let mut from = 0usize;
    let mut is_in_class = false;
    for place in 0..pattern.len() {
        if place < from {
            continue;
        }
        let rest = pattern.split_at(place).1;
        let piece = next_piece(rest, is_in_class, false);
        let octets = rest.split_at(piece.length.min(rest.len())).0;
        if piece.difference == Some(PatternDifference::RepeatedOctet) {
            push_escapes(&mut text, octets)?;
        } else {
            text.extend_from_slice(octets)?;
        }
        is_in_class = piece.is_in_class;
        from = place.saturating_add(piece.length);
    }
    Ok(text)
}

/// A regular expression and its flags, as policies write it.
pub(crate) fn push_pattern(
    out: &mut Vec<u8>,
    pattern: &Octets,
    flags: PatternFlags,
) -> Result<(), AllocError> {
    out.push(b'/')?;
    for octet in pattern.as_slice() {
        if *octet == b'/' {
            out.push(b'\\')?;
        }
        out.push(*octet)?;
    }
    out.push(b'/')?;
    if flags.ignore_case {
        out.push(b'i')?;
    }
    if flags.multi_line {
        out.push(b'm')?;
    }
    Ok(())
}

/// A part of a regular expression: what it is to a server, how long it is, and whether what follows is in a class.
#[derive(Clone, Copy)]
pub(crate) struct Piece {
    pub(crate) difference: Option<PatternDifference>,
    pub(crate) length: usize,
    pub(crate) is_in_class: bool,
}

/// How far it is behind an octet; to the end where there is none.
pub(crate) fn length_past(text: &[u8], closing: u8) -> usize {
    match text.iter().position(|octet| *octet == closing) {
        Some(place) => place.saturating_add(1),
        None => text.len(),
    }
}

// Whether digits up to a brace are a number of ASCII.
fn is_ascii_number(digits: &[u8]) -> bool {
    let end = digits.iter().position(|octet| *octet == b'}');
    let (digits, _) = digits.split_at(end.unwrap_or(digits.len()));
    let zeros = digits.iter().position(|octet| *octet != b'0');
    match digits.split_at(zeros.unwrap_or(digits.len())).1 {
        [] | [_] => true,
        [first, _] => *first < b'8',
        _ => false,
    }
}

// What begins with a `\`.
fn escaped(text: &[u8], is_in_class: bool) -> Piece {
    let (difference, length) = match text {
        [_, b'<' | b'>', ..] => (Some(PatternDifference::WordEdge), 2),
        [_, b'b', b'{', ..] => (Some(PatternDifference::WordEdge), length_past(text, b'}')),
        [_, b'v', ..] => (Some(PatternDifference::LineBreak), 2),
        [_, b'x', b'{', digits @ ..] if is_ascii_number(digits) => (None, length_past(text, b'}')),
        [_, b'x', b'{', ..] => (Some(PatternDifference::Octet), length_past(text, b'}')),
        _ => (None, 2),
    };
    Piece {
        difference,
        length,
        is_in_class,
    }
}

// What begins with a part of a class that is not escaped.
fn in_class(text: &[u8]) -> Piece {
    let (difference, length, is_in_class) = match text {
        [b']', ..] => (None, 1, false),
        [b'[', b':', b'<' | b'>', b':', b']', ..] => (Some(PatternDifference::EdgeClass), 5, true),
        [b'[', b':', name @ ..] => (None, length_past(name, b']').saturating_add(2), true),
        [b'[', ..] => (Some(PatternDifference::InClass), 1, true),
        [b'&', b'&', ..] | [b'-', b'-', ..] | [b'~', b'~', ..] => {
            (Some(PatternDifference::InClass), 2, true)
        }
        _ => (None, 1, true),
    };
    Piece {
        difference,
        length,
        is_in_class,
    }
}

// How long the beginning of a class is: a `]` that comes first is of the class.
fn class_start(text: &[u8]) -> usize {
    match text {
        [_, b'^', b']', ..] => 3,
        [_, b'^' | b']', ..] => 2,
        _ => 1,
    }
}

// What begins with a `(?`, of which flags follow.
fn flags_changed(text: &[u8]) -> Option<PatternDifference> {
    for octet in text {
        match *octet {
            b'u' | b'R' | b'x' => return Some(PatternDifference::Flags),
            b'a'..=b'z' | b'A'..=b'Z' | b'-' => {}
            _ => return None,
        }
    }
    None
}

// Whether the flag `m` is set by flags that follow a `(?`, where it was set before or not, and whether these are alone
// between brackets.
fn flag_after(flags: &[u8], before: bool) -> (bool, bool) {
    let mut is_set = before;
    let mut is_negated = false;
    for octet in flags {
        match *octet {
            b'-' => is_negated = true,
            b'm' => is_set = !is_negated,
            b'a'..=b'z' | b'A'..=b'Z' => {}
            other => return (is_set, other == b')'),
        }
    }
    (is_set, false)
}

// Whether the flag `m` is set: at a place of a regular expression, and behind each of the groups that are open there.
#[derive(Drop)]
struct MultiLine {
    is_set: bool,
    outer: Vec<bool>,
}

impl MultiLine {
    // Passes the part that a text begins with, outside of classes.
    fn pass(&mut self, text: &[u8]) -> Result<(), AllocError> {
        let before = self.is_set;
        match text {
            [b'(', b'?', flags @ ..] => {
                let (is_set, are_alone) = flag_after(flags, before);
                self.outer.push(if are_alone { is_set } else { before })?;
                self.is_set = is_set;
            }
            [b'(', ..] => self.outer.push(before)?,
            [b')', ..] => self.is_set = self.outer.pop().unwrap_or(before),
            _ => {}
        }
        Ok(())
    }
}

// Whether an octet goes on with a letter of UTF-8 that one before it began.
fn goes_on(octet: u8) -> bool {
    octet & 0xc0 == 0x80
}

// How long the letter beyond ASCII is that a text begins with, if a repetition follows it.
fn repeated_letter(text: &[u8]) -> Option<usize> {
    let (first, rest) = text.split_first()?;
    let end = rest.iter().position(|octet| !goes_on(*octet))?;
    let is_repeated = matches!(rest.split_at(end).1, [b'*' | b'+' | b'?' | b'{', ..]);
    (!first.is_ascii() && is_repeated).then_some(end.saturating_add(1))
}

// What begins with an octet beyond ASCII.
fn beyond_ascii(text: &[u8]) -> (Option<PatternDifference>, usize) {
    match repeated_letter(text) {
        Some(length) => (Some(PatternDifference::RepeatedOctet), length),
        None => (None, 1),
    }
}

// What begins with a `{`.
fn braces(text: &[u8]) -> Option<PatternDifference> {
    let (counts, _) = text.split_at_checked(length_past(text, b'}'))?;
    let has_blank = counts.iter().any(|octet| matches!(*octet, b' ' | b'\t'));
    has_blank.then_some(PatternDifference::BlankInBraces)
}

// What begins with a part that is neither escaped nor of a class.
fn outside(text: &[u8], is_multi_line: bool) -> Piece {
    let (difference, length, is_in_class) = match text {
        [b'[', ..] => (None, class_start(text), true),
        [b'{', ..] => (braces(text), 1, false),
        [b'(', b'?', b'P' | b'<', ..] => (None, 3, false),
        [b'(', b'?', flags @ ..] => (flags_changed(flags), 2, false),
        [b'*' | b'+' | b'?' | b'}', b'+', ..] => (Some(PatternDifference::Possessive), 2, false),
        [b'$', ..] if !is_multi_line => (Some(PatternDifference::LineFeed), 1, false),
        [b'^', ..] if is_multi_line => (Some(PatternDifference::LineStart), 1, false),
        [0x80..=0xff, ..] => {
            let (difference, length) = beyond_ascii(text);
            (difference, length, false)
        }
        _ => (None, 1, false),
    };
    Piece {
        difference,
        length,
        is_in_class,
    }
}

/// The part that a text begins with.
pub(crate) fn next_piece(text: &[u8], is_in_class: bool, is_multi_line: bool) -> Piece {
    match text {
        [b'\\', ..] => escaped(text, is_in_class),
        [b'%', ..] => Piece {
            difference: Some(PatternDifference::Percent),
            length: 1,
            is_in_class,
        },
        _ if is_in_class => in_class(text),
        _ => outside(text, is_multi_line),
    }
}

fn add_difference(
    found: &mut Vec<PatternDifference>,
    difference: Option<PatternDifference>,
) -> Result<(), AllocError> {
    if let Some(difference) = difference
        && !found.iter().any(|other| *other == difference)
    {
        found.push(difference)?;
    }
    Ok(())
}

// How a server takes parts of a regular expression otherwise.
fn add_differences_of(
    found: &mut Vec<PatternDifference>,
    text: &[u8],
    flags: PatternFlags,
) -> Result<(), AllocError> {
    let mut from = 0usize;
    let mut is_in_class = false;
    let mut multi_line = MultiLine {
        is_set: flags.multi_line,
        outer: Vec::new(*found.allocator()),
    };
    for place in 0..text.len() {
        if place < from {
            continue;
        }
        let rest = text.split_at(place).1;
        let piece = next_piece(rest, is_in_class, multi_line.is_set);
        add_difference(found, piece.difference)?;
        if !is_in_class {
            multi_line.pass(rest)?;
        }
        is_in_class = piece.is_in_class;
        from = place.saturating_add(piece.length);
    }
    Ok(())
}

// The same, and what of it is repeated otherwise.
fn add_differences_in(
    found: &mut Vec<PatternDifference>,
    text: &[u8],
    flags: PatternFlags,
) -> Result<(), AllocError> {
    add_differences_of(found, text, flags)?;
    let alloc = *found.allocator();
    let is_otherwise = repeats_nothing(alloc, text)?;
    add_difference(
        found,
        is_otherwise.then_some(PatternDifference::RepeatedNothing),
    )
}

/// Adds how a server takes parts of a condition's regular expressions otherwise, each once.
#[cycle(finding)]
pub fn add_differences(
    found: &mut Vec<PatternDifference>,
    condition: &ServerCondition,
) -> Result<(), AllocError> {
    match condition {
        ServerCondition::Match(matching) | ServerCondition::MatchText(matching) => {
            add_differences_in(found, matching.pattern.as_slice(), matching.flags)
        }
        ServerCondition::MatchGroup(matching) => {
            add_differences_in(found, matching.pattern.as_slice(), matching.flags)
        }
        ServerCondition::Not(inner) => add_differences(found, inner),
        ServerCondition::And(first, next) | ServerCondition::Or(first, next) => {
            add_differences(found, first)?;
            add_differences(found, next)
        }
        ServerCondition::Constant(_)
        | ServerCondition::Last(_)
        | ServerCondition::Present(..)
        | ServerCondition::Compare(_)
        | ServerCondition::CompareTexts(_)
        | ServerCondition::Captured(_) => Ok(()),
    }
}
