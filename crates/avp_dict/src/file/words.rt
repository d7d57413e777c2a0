//! Words of a line.

ghost use Rattle.std.specs.Prelude.{◌≡◌, ◌<◌, ◌≤◌, ◌+◌, ◌++◌, ◌∷◌, [], drop, false, length, take, IfOk, OnOk, IfSome, IfNone};
ghost use Rattle.std.specs.List.{after_first, before_first, position, filter, slice_split};
ghost use Rattle.avp_dict.specs.Lines.{is_line_end};
ghost use Rattle.avp_dict.specs.Words.{is_blank, is_hash, is_word, lower, same_name, words_of};
ghost use Rattle.avp_dict.specs.internal.LineWords.{after_word, begins_blank, ends_words, from_line_end, is_in_word, line_words, word_size};
ghost use Rattle.avp_dict.specs.internal.Views.{views};

use crate::file::lanes::{LANES, run_in_word};
use crate::file::lines::{from_line_end, is_line_end, split_at_end};
use memchr::memchr;
use std::alloc::{AllocError, Global};

/// The most octets of a name.
pub const MAX_NAME: usize = 128;

#[tactic(auto, using(crate::proofs::FirstPlaces::first_place))]
fn comment_start(text: &[u8]) -> Option<usize>
    ensures { result ≡ position is_hash text.now }
{
    memchr(b'#', text)
}

pub(crate) fn without_comment(text: &[u8]) -> &[u8]
    ensures { result.now ≡ before_first is_hash text.now }
{
    match comment_start(text) {
        Some(end) => &text[..end],
        None => text,
    }
}

/// Whether an octet is a space, a tab or a CR.
pub fn is_blank(octet: u8) -> bool
    ensures { result ≡ is_blank octet }
{
    matches!(octet, b' ' | b'\t' | b'\r')
}

fn blank_at(text: &[u8]) -> Option<usize>
    ensures place { result ≡ position is_blank text.now }
    ensures within { IfSome result (λ end. end < length text.now) }
{
    text.iter().position(|octet| is_blank(*octet))
}

/// What is before the first blank, and after it.
pub fn first_part(text: &[u8]) -> Option<(&[u8], &[u8])>
    ensures cut { IfSome result (λ x. slice_split is_blank text.now
        ≡ x.0.now ∷ slice_split is_blank x.1.now) }
    ensures shorter { IfSome result (λ x. length x.1.now < length text.now) }
    ensures whole { IfNone result (slice_split is_blank text.now ≡ text.now ∷ []) }
{
    let end = blank_at(text)?;
    Some((&text[..end], &text[end + 1..]))
}

/// What follows the first blank.
pub(crate) fn after_blank(text: &[u8]) -> &[u8]
    ensures { result.now ≡ after_first is_blank text.now }
{
    match blank_at(text) {
        Some(end) => &text[end + 1..],
        None => &text[text.len()..],
    }
}

// Adds a part, if it is a word.
fn push_part<'a>(words: &mut Vec<&'a [u8]>, part: &'a [u8]) -> Result<(), AllocError>
    ensures { OnOk result (views words.new.items
        ≡ views words.old.items ++ filter is_word (part.now ∷ [])) }
{
    if !part.is_empty() {
        words.push(part)?;
    }
    Ok(())
}

// Adds what is between spaces, tabs and CRs.
fn push_words<'a>(words: &mut Vec<&'a [u8]>, plain: &'a [u8]) -> Result<(), AllocError>
    ensures { OnOk result (views words.new.items
        ≡ views words.old.items ++ filter is_word (slice_split is_blank plain.now)) }
{
    let mut rest = plain;
    while let Some((part, after)) = first_part(rest) {
        push_part(words, part)?;
        rest = after;
    }
    push_part(words, rest)
}

/// What is between spaces, tabs and CRs.
pub fn words_between_blanks(alloc: Global, plain: &[u8]) -> Result<Vec<&[u8]>, AllocError>
    ensures { IfOk result (λ words. views words.items
        ≡ filter is_word (slice_split is_blank plain.now)) }
{
    let mut words = Vec::new(alloc);
    push_words(&mut words, plain)?;
    Ok(words)
}

fn is_hash(octet: u8) -> bool
    ensures { result ≡ is_hash octet }
{
    octet == b'#'
}

fn ends_words(octet: u8) -> bool
    ensures { result ≡ ends_words octet }
{
    is_hash(octet) || is_line_end(octet)
}

// Whether a word goes on at an octet. Most octets are greater than blanks, line ends and `#`.
fn is_in_word(octet: u8) -> bool
    ensures { result ≡ is_in_word octet }
{
    octet > b'#' || !(is_blank(octet) || ends_words(octet))
}

// What is left after octets of a word, sixteen at a time.
fn past_sixteens(text: &[u8]) -> &[u8]
    ensures size { length text.now + word_size result.now ≡ length result.now + word_size text.now }
    ensures within { length result.now ≤ length text.now }
{
    let mut rest = text;
    while rest.len() >= LANES {
        let run = run_in_word(rest);
        rest = &rest[run..];
        if run < LANES {
            return rest;
        }
    }
    rest
}

// How many octets the word at the front has.
fn word_size(text: &[u8]) -> usize
    ensures size { result ≡ word_size text.now }
    ensures within { result ≤ length text.now }
{
    let front = past_sixteens(text);
    let mut rest = front;
    while let [octet, after @ ..] = rest {
        if !is_in_word(*octet) {
            break;
        }
        rest = after;
    }
    text.len() - rest.len()
}

// What is left after blanks.
fn past_blanks(text: &[u8]) -> &[u8]
    ensures words { line_words result.now ≡ line_words text.now }
    ensures end { from_line_end result.now ≡ from_line_end text.now }
    ensures within { length result.now ≤ length text.now }
{
    let mut rest = text;
    while let [octet, after @ ..] = rest {
        if !is_blank(*octet) {
            return rest;
        }
        rest = after;
    }
    rest
}

// What follows the blanks after a word, where there are any.
#[tactic(auto, using(crate::proofs::LineWords::after_blank, crate::proofs::LineWords::end_past_blank))]
fn after_blanks(text: &[u8]) -> Option<&[u8]>
    ensures words { IfSome result (λ after. line_words after.now ≡ line_words (after_word text.now)) }
    ensures end { IfSome result (λ after. from_line_end after.now ≡ from_line_end text.now) }
    ensures shorter { IfSome result (λ after. length after.now < length text.now) }
    ensures none { IfNone result (begins_blank text.now ≡ false) }
{
    match text {
        [octet, after @ ..] if is_blank(*octet) => Some(past_blanks(after)),
        _ => None,
    }
}

// Adds the word at the front, where there is one, and gives what follows it.
fn push_word<'a>(words: &mut Vec<&'a [u8]>, text: &'a [u8]) -> Result<&'a [u8], AllocError>
    ensures word { OnOk result (views words.new.items
        ≡ views words.old.items ++ filter is_word (take (word_size text.now) text.now ∷ [])) }
    ensures left { IfOk result (λ left. left.now ≡ drop (word_size text.now) text.now) }
{
    let (word, left) = text.split_at(word_size(text));
    push_part(words, word)?;
    Ok(left)
}

// Adds the words of the first line of a text, and gives what follows them.
fn push_line_words<'a>(words: &mut Vec<&'a [u8]>, text: &'a [u8]) -> Result<&'a [u8], AllocError>
    ensures words { OnOk result (views words.new.items
        ≡ views words.old.items ++ line_words text.now) }
    ensures end { IfOk result (λ left. from_line_end left.now ≡ from_line_end text.now) }
{
    let mut left = push_word(words, text)?;
    while let Some(after) = after_blanks(left) {
        left = push_word(words, after)?;
    }
    Ok(left)
}

/// Puts the words of the first line of a text in place of those of the line before it, in the same room. The answer is
/// the line, and what follows it.
#[tactic(auto, using(crate::proofs::LineWords::line_words_are))]
pub(crate) fn replace_words<'a>(
    words: &mut Vec<&'a [u8]>,
    text: &'a [u8],
) -> Result<(&'a [u8], &'a [u8]), AllocError>
    ensures words { OnOk result (views words.new.items
        ≡ words_of (before_first is_line_end text.now)) }
    ensures line { IfOk result (λ x. x.0.now ≡ before_first is_line_end text.now) }
    ensures rest { IfOk result (λ x. x.1.now ≡ after_first is_line_end text.now) }
{
    words.clear();
    let left = push_line_words(words, text)?;
    Ok(split_at_end(text, from_line_end(left)))
}

pub(crate) fn lower(octet: u8) -> u8
    ensures { result ≡ lower octet }
{
    if octet >= b'A' && octet <= b'Z' {
        octet + 32
    } else {
        octet
    }
}

/// Whether two words are the same, letters in either case.
#[tactic(auto, using(crate::proofs::Folding::other_length))]
pub fn same_name(a: &[u8], b: &[u8]) -> bool
    ensures { result ≡ same_name a.now b.now }
{
    // Most names differ in length, and many begin alike.
    if a.len() != b.len() {
        return false;
    }
    let mut a = a;
    let mut b = b;
    while let [x, xs @ ..] = a {
        let [y, ys @ ..] = b else {
            return false;
        };
        if *x != *y && lower(*x) != lower(*y) {
            return false;
        }
        a = xs;
        b = ys;
    }
    b.is_empty()
}
