//! What is shown of an item of a configuration, and of an expansion.

use crate::concealed::{HIDDEN, concealed};
use crate::names::SecretNames;
use radpolicy_common::{LineBreaks, visible_text};
use server_configuration::{Configuration, Content, Item, Operator, Quote, Text};
use std::alloc::{AllocError, Global};

fn mark(quote: Quote) -> &'static [u8] {
    match quote {
        Quote::Bare => b"",
        Quote::Double => b"\"",
        Quote::Single => b"'",
        Quote::Back => b"`",
    }
}

fn sign(operator: Operator) -> &'static [u8] {
    match operator {
        Operator::Equals => b" = ",
        Operator::Set => b" := ",
        Operator::Add => b" += ",
        Operator::Subtract => b" -= ",
        Operator::Prepend => b" ^= ",
        Operator::IsEqual => b" == ",
        Operator::IsNotEqual => b" != ",
        Operator::IsLess => b" < ",
        Operator::IsAtMost => b" <= ",
        Operator::IsGreater => b" > ",
        Operator::IsAtLeast => b" >= ",
        Operator::Matches => b" =~ ",
        Operator::MatchesNot => b" !~ ",
        Operator::IsPresent => b" =* ",
        Operator::IsAbsent => b" !* ",
    }
}

// A text of an item that speaks of these names, if there are any.
fn push_text(
    out: &mut Vec<u8>,
    hidden: Option<&SecretNames<'_>>,
    text: &Text,
) -> Result<(), AllocError> {
    match hidden {
        Some(names) if text.quote == Quote::Bare => {
            let shown = concealed(*out.allocator(), names, &text.octets)?;
            out.extend_from_slice(&shown)
        }
        Some(_) => out.extend_from_slice(HIDDEN),
        None => {
            out.extend_from_slice(mark(text.quote))?;
            out.extend_from_slice(&text.octets)?;
            out.extend_from_slice(mark(text.quote))
        }
    }
}

// An expansion, of which what it calls is shown, or a word with one in it.
fn push_concealed_word(out: &mut Vec<u8>, word: &[u8]) -> Result<(), AllocError> {
    let inner = word.strip_prefix(b"%{").unwrap_or(b"");
    let callee = called(inner);
    if !inner.ends_with(b"}") || callee.is_empty() {
        return out.extend_from_slice(HIDDEN);
    }
    out.extend_from_slice(b"%{")?;
    out.extend_from_slice(callee)?;
    out.extend_from_slice(b":")?;
    out.extend_from_slice(HIDDEN)?;
    out.extend_from_slice(b"}")
}

// The name of a section or of a call, which is no value unless it is quoted or has an expansion.
fn push_name(
    out: &mut Vec<u8>,
    hidden: Option<&SecretNames<'_>>,
    name: &Text,
) -> Result<(), AllocError> {
    if name.quote != Quote::Bare {
        return push_text(out, hidden, name);
    }
    let has_expansion = name.octets.windows(2).any(|two| two == b"%{".as_slice());
    if hidden.is_some() && has_expansion {
        push_concealed_word(out, &name.octets)
    } else {
        out.extend_from_slice(&name.octets)
    }
}

fn push_words(
    out: &mut Vec<u8>,
    hidden: Option<&SecretNames<'_>>,
    name: &Text,
    arguments: &[Text],
) -> Result<(), AllocError> {
    push_name(out, hidden, name)?;
    for argument in arguments {
        out.push(b' ')?;
        push_text(out, hidden, argument)?;
    }
    Ok(())
}

fn push_value(
    out: &mut Vec<u8>,
    hidden: Option<&SecretNames<'_>>,
    value: Option<&Text>,
) -> Result<(), AllocError> {
    match (hidden, value) {
        (_, None) => Ok(()),
        (Some(_), Some(_)) => out.extend_from_slice(HIDDEN),
        (None, Some(value)) => push_text(out, None, value),
    }
}

fn push_item(
    out: &mut Vec<u8>,
    hidden: Option<&SecretNames<'_>>,
    item: &Item,
) -> Result<(), AllocError> {
    match &item.content {
        Content::Pair {
            name,
            operator,
            value,
        } => {
            push_name(out, hidden, name)?;
            out.extend_from_slice(sign(*operator))?;
            push_value(out, hidden, value.as_ref())
        }
        Content::Section { name, arguments } | Content::Word { name, arguments } => {
            push_words(out, hidden, name, arguments)
        }
        Content::Include { path, .. } => push_text(out, None, path),
    }
}

// The most octets of a statement that a comment or a report repeats.
const MAX_SHOWN: usize = 60;

// Whether an octet goes on with a character of UTF-8 that one before it began.
fn goes_on(octet: u8) -> bool {
    octet & 0xc0 == 0x80
}

// Where a text is cut: not within a character.
fn cut_of(text: &[u8]) -> usize {
    let mut cut = MAX_SHOWN;
    for _ in 0..3 {
        match text.get(cut) {
            Some(octet) if goes_on(*octet) => cut = cut.saturating_sub(1),
            _ => return cut,
        }
    }
    cut
}

// The beginning of a text, without control characters.
fn beginning(alloc: Global, text: &[u8]) -> Result<Vec<u8>, AllocError> {
    match text.get(..cut_of(text)) {
        Some(begin) if text.len() > MAX_SHOWN => {
            let mut shown = visible_text(alloc, begin, LineBreaks::Escaped)?;
            shown.extend_from_slice(b"..")?;
            Ok(shown)
        }
        _ => visible_text(alloc, text, LineBreaks::Escaped),
    }
}

// What an expansion calls.
fn called(text: &[u8]) -> &[u8] {
    match text.iter().position(|octet| *octet == b':') {
        Some(colon) => text.split_at(colon).0,
        None => b"",
    }
}

// Whether an item speaks of one of these names, if there are any.
fn speaks_of_secret(
    hidden: Option<&SecretNames<'_>>,
    configuration: &Configuration,
    item: &Item,
) -> Result<bool, AllocError> {
    match hidden {
        Some(names) => names.item_speaks(configuration, item),
        None => Ok(false),
    }
}

/// What an item says, in one line and not more than the beginning of it. Where it speaks of one of the names that are
/// secret, its values are `(hidden)`, and so is what follows a secret value on its line.
pub fn shown_item(
    alloc: Global,
    hidden: Option<&SecretNames<'_>>,
    configuration: &Configuration,
    place: usize,
) -> Result<Vec<u8>, AllocError> {
    let mut text = Vec::new(alloc);
    let Some(item) = configuration.items.get(place) else {
        return Ok(text);
    };
    if let Some(names) = hidden
        && names.is_follower(place)
    {
        return Vec::from_slice(alloc, HIDDEN);
    }
    let speaks = speaks_of_secret(hidden, configuration, item)?;
    push_item(&mut text, hidden.filter(|_names| speaks), item)?;
    beginning(alloc, &text)
}

/// The text between the braces of an expansion. Where it speaks of one of the names that are secret, what it calls is
/// shown, and the rest is `(hidden)`.
pub fn shown_expansion(
    alloc: Global,
    hidden: Option<&SecretNames<'_>>,
    text: &[u8],
) -> Result<Vec<u8>, AllocError> {
    let Some(names) = hidden else {
        return visible_text(alloc, text, LineBreaks::Escaped);
    };
    if !names.expansion_speaks(text)? {
        return visible_text(alloc, text, LineBreaks::Escaped);
    }
    let mut shown = visible_text(alloc, called(text), LineBreaks::Escaped)?;
    shown.extend_from_slice(b":")?;
    shown.extend_from_slice(HIDDEN)?;
    Ok(shown)
}
