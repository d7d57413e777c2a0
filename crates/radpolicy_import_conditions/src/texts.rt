//! Quoted texts, as a server reads them.

ghost use Rattle.std.specs.Prelude.{◌≡◌, ◌≤◌, ◌<◌, ◌++◌, length, IfOk, IfSome};

use crate::expansions::closing_brace;
use crate::lengths::{LONGEST_TEXT, longest_text};
use crate::reasons::{Reason, Refusal};
use crate::references::{
    Names, Reference, Spelling, has_texts, is_date, is_ipv6, kind_of, list_name, push_spelling,
    reads_digits, reference_of,
};
use avp_dict::{Dictionary, Kind};
use avp_lists::List;
use server_configuration::{Quote, Text};
use std::alloc::{AllocError, Global};

/// A part of a text between double quotes.
#[derive(Clone, Copy)]
pub(crate) enum Part<'a> {
    Octet(u8),
    Expansion(Reference<'a>),
    // What a regular expression captured, as `%{1}`.
    Capture(u8),
}

/// How a text begins.
#[derive(Clone, Copy, PartialEq, Eq)]
pub(crate) enum Beginning {
    /// With `0x`.
    Digits,
    /// With what is put in, or `0` and that: it may be `0x`.
    PutIn,
    /// With `0x`, or not at all: the octets of an attribute are all of it.
    Octets,
    Other,
}

/// What is put into a text.
#[derive(Clone, Copy)]
pub(crate) struct PutIn {
    pub(crate) attributes: bool,
    pub(crate) captures: bool,
    /// Whether the plain profile puts in octets where a server, and the wider one, has what they mean.
    pub(crate) meanings: bool,
    /// Whether a string is put in, which may be any octets.
    pub(crate) strings: bool,
    /// Whether an IPv6 address or prefix is put in.
    pub(crate) addresses: bool,
    /// Whether a date is put in.
    pub(crate) dates: bool,
    /// How many octets of it are written out.
    pub(crate) octets: usize,
    /// How many octets it may have at most.
    pub(crate) most: usize,
    pub(crate) beginning: Beginning,
}

impl PutIn {
    pub(crate) fn nothing() -> PutIn {
        PutIn {
            attributes: false,
            captures: false,
            meanings: false,
            strings: false,
            addresses: false,
            dates: false,
            octets: 0,
            most: 0,
            beginning: Beginning::Other,
        }
    }

    /// Whether anything is put in.
    pub(crate) fn is_some(self) -> bool {
        self.attributes || self.captures
    }
}

// What follows a `\`. One that escapes nothing stays.
fn escaped(text: &[u8]) -> (u8, &[u8])
    ensures { length result.1.now ≤ length text.now }
{
    match text {
        [b'n', rest @ ..] => (b'\n', rest),
        [b'r', rest @ ..] => (b'\r', rest),
        [b't', rest @ ..] => (b'\t', rest),
        [mark @ (b'"' | b'\\'), rest @ ..] => (*mark, rest),
        [a @ b'0'..=b'3', b @ b'0'..=b'7', c @ b'0'..=b'7', rest @ ..] => {
            ((*a - b'0') * 64 + (*b - b'0') * 8 + (*c - b'0'), rest)
        }
        // Of a number that is too large for an octet the lower eight bits count.
        [a @ b'4'..=b'7', b @ b'0'..=b'7', c @ b'0'..=b'7', rest @ ..] => {
            ((*a - b'4') * 64 + (*b - b'0') * 8 + (*c - b'0'), rest)
        }
        _ => (b'\\', text),
    }
}

// What follows a `%`.
fn expanded<'a>(names: &Names<'_>, text: &'a [u8]) -> Result<(Part<'a>, &'a [u8]), Reason>
    ensures { IfOk result (λ found. length found.1.now ≤ length text.now) }
{
    match text {
        [b'%', rest @ ..] => Ok((Part::Octet(b'%'), rest)),
        [b'{', rest @ ..] => {
            let Some(end) = closing_brace(rest) else {
                return Err(Reason::Expansion);
            };
            let (word, after) = rest.split_at(end);
            let after = after.strip_prefix(b"}").unwrap_or(after);
            match capture_named(word) {
                Some(group) => Ok((Part::Capture(group), after)),
                None => Ok((Part::Expansion(expansion(names, word)?), after)),
            }
        }
        [letter, ..] if letter.is_ascii_alphabetic() => Err(Reason::Expansion),
        _ => Ok((Part::Octet(b'%'), text)),
    }
}

/// The attribute that an expansion names, or that is in its place, by the text between its braces.
pub(crate) fn expansion<'a>(names: &Names<'_>, word: &'a [u8]) -> Result<Reference<'a>, Reason> {
    if let Some(named) = names.asked(word) {
        return Ok(Reference {
            list: List::Control,
            spelling: Spelling::Asked,
            named,
        });
    }
    // To a server the older word for `control` is a function here, as it is written in small letters.
    if word.starts_with(b"config:") {
        return Err(Reason::Expansion);
    }
    match reference_of(names, word) {
        Err(Reason::OtherList | Reason::NoName) => Err(Reason::Expansion),
        found => found,
    }
}

/// The part that a text begins with, and what follows it.
pub(crate) fn next_part<'a>(
    names: &Names<'_>,
    text: &'a [u8],
) -> Result<Option<(Part<'a>, &'a [u8])>, Reason>
    ensures { IfOk result (λ found. IfSome found (λ found. length found.1.now < length text.now)) }
{
    match text {
        [] => Ok(None),
        [b'\\', rest @ ..] => {
            let (octet, rest) = escaped(rest);
            // To a server a `\` that is left escapes the `%`.
            if octet == b'\\' && matches!(rest, [b'%', ..]) {
                return Err(Reason::Expansion);
            }
            Ok(Some((Part::Octet(octet), rest)))
        }
        [b'%', rest @ ..] => {
            let found = expanded(names, rest)?;
            Ok(Some(found))
        }
        [octet, rest @ ..] => Ok(Some((Part::Octet(*octet), rest))),
    }
}

// An octet of a text between double quotes, as policies write it.
fn push_octet(out: &mut Vec<u8>, octet: u8) -> Result<(), AllocError> {
    match octet {
        b'"' | b'\\' => out.extend_from_slice(&[b'\\', octet]),
        b'%' => out.extend_from_slice(b"%%"),
        b'\n' => out.extend_from_slice(b"\\n"),
        b'\r' => out.extend_from_slice(b"\\r"),
        b'\t' => out.extend_from_slice(b"\\t"),
        b' '..=b'~' => Ok(out.push(octet)?),
        _ => {
            let digits = [b'0' + octet / 64, b'0' + octet / 8 % 8, b'0' + octet % 8];
            out.push(b'\\')?;
            out.extend_from_slice(&digits)
        }
    }
}

// An attribute's name with its list, unless that is the request.
fn push_name(
    out: &mut Vec<u8>,
    dictionary: &Dictionary,
    reference: &Reference<'_>,
) -> Result<(), AllocError> {
    if reference.list != List::Request {
        out.extend_from_slice(list_name(reference.list))?;
        out.push(b':')?;
    }
    push_spelling(out, dictionary, reference)
}

/// `&` and an attribute's name.
pub(crate) fn push_reference(
    out: &mut Vec<u8>,
    dictionary: &Dictionary,
    reference: &Reference<'_>,
) -> Result<(), AllocError> {
    out.push(b'&')?;
    push_name(out, dictionary, reference)
}

/// What an attribute expands to, between double quotes.
pub(crate) fn push_expansion(
    out: &mut Vec<u8>,
    dictionary: &Dictionary,
    reference: &Reference<'_>,
) -> Result<(), AllocError> {
    out.extend_from_slice(b"\"%{")?;
    push_name(out, dictionary, reference)?;
    out.extend_from_slice(b"}\"")
}

/// A source of an update between double quotes, of the octets of a text.
pub(crate) fn push_octets(out: &mut Vec<u8>, octets: &[u8]) -> Result<(), AllocError> {
    out.push(b'"')?;
    push_quoted(out, octets)?;
    Ok(out.push(b'"')?)
}

/// Octets that are between double quotes.
pub(crate) fn push_quoted(out: &mut Vec<u8>, octets: &[u8]) -> Result<(), AllocError> {
    for octet in octets {
        push_octet(out, *octet)?;
    }
    Ok(())
}

/// What a regular expression captured, between double quotes.
pub(crate) fn push_captured(out: &mut Vec<u8>, group: u8) -> Result<(), AllocError> {
    out.push(b'"')?;
    push_capture(out, group)?;
    Ok(out.push(b'"')?)
}

pub(crate) fn push_capture(out: &mut Vec<u8>, group: u8) -> Result<(), AllocError> {
    out.extend_from_slice(&[b'%', b'{', b'0' + group % 10, b'}'])
}

// A part of a text, as policies write it, and what is put in so far.
fn push_part(
    out: &mut Vec<u8>,
    names: &Names<'_>,
    part: Part<'_>,
    put_in: PutIn,
) -> Result<PutIn, AllocError> {
    match part {
        Part::Octet(octet) => {
            push_octet(out, octet)?;
            Ok(PutIn {
                octets: put_in.octets.saturating_add(1),
                most: put_in.most.saturating_add(1),
                ..put_in
            })
        }
        Part::Expansion(reference) => {
            out.extend_from_slice(b"%{")?;
            push_name(out, names.dictionary, &reference)?;
            out.push(b'}')?;
            Ok(PutIn {
                attributes: true,
                meanings: put_in.meanings || !has_texts(names.dictionary, reference.named),
                strings: put_in.strings || kind_of(names.dictionary, reference.named) == Kind::Text,
                addresses: put_in.addresses
                    || !reference.named.raw && is_ipv6(names.dictionary, reference.named.id),
                dates: put_in.dates
                    || !reference.named.raw && is_date(names.dictionary, reference.named.id),
                most: put_in
                    .most
                    .saturating_add(longest_text(names.dictionary, reference.named)),
                ..put_in
            })
        }
        Part::Capture(group) => {
            push_capture(out, group)?;
            Ok(PutIn {
                captures: true,
                most: put_in.most.saturating_add(LONGEST_TEXT),
                ..put_in
            })
        }
    }
}

// Whether what an escape spells as a `%` begins what a server expands: an expansion, a letter or another `%`.
fn spells_expansion(text: &[u8]) -> bool {
    text.windows(5).any(|five| match five {
        [b'\\', b'0' | b'4', b'4', b'5', next] => {
            next.is_ascii_alphabetic() || matches!(*next, b'{' | b'%' | b'\\')
        }
        _ => false,
    })
}

// How a text between double quotes begins.
fn beginning_of(names: &Names<'_>, text: &[u8]) -> Result<Beginning, Reason> {
    let rest = match next_part(names, text)? {
        Some((Part::Octet(b'0'), rest)) => rest,
        Some((Part::Octet(_), _)) | None => return Ok(Beginning::Other),
        Some((Part::Expansion(reference), rest))
            if rest.is_empty() && reads_digits(names.dictionary, reference.named) => {
            return Ok(Beginning::Octets);
        }
        Some(_) => return Ok(Beginning::PutIn),
    };
    match next_part(names, rest)? {
        Some((Part::Octet(b'x'), _)) => Ok(Beginning::Digits),
        Some((Part::Octet(_), _)) | None => Ok(Beginning::Other),
        Some(_) => Ok(Beginning::PutIn),
    }
}

/// A source of an update between double quotes, of what a server reads between them; and what is put into it.
pub(crate) fn push_double(
    out: &mut Vec<u8>,
    names: &Names<'_>,
    text: &[u8],
) -> Result<PutIn, Refusal> {
    // In an update a server expands what the escapes have become where there is another `%`.
    if text.contains(&b'%') && spells_expansion(text) {
        return Err(Refusal::LeftOut(Reason::Expansion));
    }
    let mut put_in = PutIn {
        beginning: beginning_of(names, text)?,
        ..PutIn::nothing()
    };
    let mut rest = text;
    out.push(b'"')?;
    while let Some((part, after)) = next_part(names, rest)? {
        put_in = push_part(out, names, part, put_in)?;
        rest = after;
    }
    out.push(b'"')?;
    Ok(put_in)
}

// The octets of a text between double quotes up to its first expansion.
fn double_octets_before(alloc: Global, names: &Names<'_>, text: &[u8]) -> Result<Vec<u8>, Refusal> {
    let mut octets = Vec::new(alloc);
    let mut rest = text;
    while let Some((Part::Octet(octet), after)) = next_part(names, rest)? {
        octets.push(octet)?;
        rest = after;
    }
    Ok(octets)
}

/// The octets of a text up to its first expansion; none of what is neither between quotes nor has an expansion.
pub(crate) fn octets_before_expansions(
    alloc: Global,
    names: &Names<'_>,
    text: &Text,
) -> Result<Vec<u8>, Refusal> {
    match text.quote {
        Quote::Double => double_octets_before(alloc, names, &text.octets),
        Quote::Bare if has_expansion(&text.octets) => {
            double_octets_before(alloc, names, &text.octets)
        }
        Quote::Single => Ok(single_octets(alloc, &text.octets)?),
        _ => Ok(Vec::new(alloc)),
    }
}

/// Refuses a text of a condition in which escapes spell an expansion.
pub(crate) fn refuse_spelled(text: &[u8]) -> Result<(), Reason> {
    if spells_expansion(text) {
        Err(Reason::Expansion)
    } else {
        Ok(())
    }
}

// The octets of a text between double quotes without expansions.
fn double_octets(alloc: Global, names: &Names<'_>, text: &[u8]) -> Result<Vec<u8>, Refusal> {
    refuse_spelled(text)?;
    let mut octets = Vec::new(alloc);
    let mut rest = text;
    while let Some((part, after)) = next_part(names, rest)? {
        match part {
            Part::Octet(octet) => octets.push(octet)?,
            Part::Expansion(_) => return Err(Refusal::LeftOut(Reason::Expansion)),
            Part::Capture(_) => return Err(Refusal::LeftOut(Reason::Capture)),
        }
        rest = after;
    }
    Ok(octets)
}

/// The octets of a text between single quotes.
pub(crate) fn single_octets(alloc: Global, text: &[u8]) -> Result<Vec<u8>, AllocError> {
    let mut octets = Vec::new(alloc);
    let mut rest = text;
    while let [octet, after @ ..] = rest {
        rest = match (*octet, after) {
            (b'\\', [mark @ (b'\'' | b'\\'), after @ ..]) => {
                octets.push(*mark)?;
                after
            }
            _ => {
                octets.push(*octet)?;
                after
            }
        };
    }
    Ok(octets)
}

/// Whether a word has an expansion.
pub fn has_expansion(word: &[u8]) -> bool {
    word.windows(2).any(|pair| pair == b"%{".as_slice())
}

/// The octets that a text of a condition stands for.
pub(crate) fn text_octets(
    alloc: Global,
    names: &Names<'_>,
    quote: Quote,
    octets: &[u8],
) -> Result<Vec<u8>, Refusal> {
    match quote {
        Quote::Bare if has_expansion(octets) => Err(Refusal::LeftOut(Reason::Expansion)),
        Quote::Bare => Ok(Vec::from_slice(alloc, octets)?),
        Quote::Double => double_octets(alloc, names, octets),
        Quote::Single => Ok(single_octets(alloc, octets)?),
        Quote::Back => Err(Refusal::LeftOut(Reason::Command)),
    }
}

/// The attribute that a text between double quotes expands alone, as `"%{User-Name}"`.
pub(crate) fn sole_expansion<'a>(names: &Names<'_>, text: &'a [u8]) -> Option<Reference<'a>> {
    let word = text.strip_prefix(b"%{")?.strip_suffix(b"}")?;
    match expansion(names, word) {
        Ok(found) => Some(found),
        Err(_) => None,
    }
}

/// The group that an expansion is of what a regular expression captured, by the text between its braces.
pub(crate) fn capture_named(word: &[u8]) -> Option<u8> {
    match word {
        [digit @ b'0'..=b'9'] => Some(*digit - b'0'),
        _ => None,
    }
}

/// The group that a text is alone, as `%{8}`.
pub(crate) fn sole_capture(text: &[u8]) -> Option<u8> {
    capture_named(text.strip_prefix(b"%{")?.strip_suffix(b"}")?)
}

/// A text with another before it and one after it.
pub fn between(
    alloc: Global,
    before: &[u8],
    text: &[u8],
    after: &[u8],
) -> Result<Vec<u8>, AllocError>
    ensures { IfOk result (λ joined. joined.items ≡ before.now ++ text.now ++ after.now) }
{
    let mut joined = Vec::from_slice(alloc, before)?;
    joined.extend_from_slice(text)?;
    joined.extend_from_slice(after)?;
    Ok(joined)
}
