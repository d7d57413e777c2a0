//! Texts with `%{%{A}:-B}` in them, which a server fills with A's text, or with B where that is empty.

ghost use Rattle.std.specs.Prelude.{◌<◌, length, IfSome};

use crate::expansions::closing_brace;
use crate::lines::UpdateLine;
use crate::reasons::{Reason, Refusal};
use crate::references::{Names, Reference, kind_of};
use crate::texts::{between, capture_named, expansion, push_captured, push_reference};
use avp_dict::Kind;
use avp_lists::AttrId;
use std::alloc::{AllocError, Global};

/// One of the texts that are meant, and where it is: in a chain, the first whose condition is met.
#[derive(Drop)]
pub struct Alternative {
    /// Empty where no condition is left.
    pub condition: Vec<u8>,
    /// Whether the condition is one of the wider profile.
    pub is_wider: bool,
    pub text: Vec<u8>,
    /// The attribute whose text it is, if it is that alone, which is there.
    pub whole: Option<AttrId>,
}

/// The line of an alternative.
#[derive(Drop)]
pub struct ChosenLine {
    pub condition: Vec<u8>,
    pub line: UpdateLine,
}

/// How many there may be of one text.
const MOST_ALTERNATIVES: usize = 16;

/// How long it may be; a value is shorter.
const MOST_OCTETS: usize = 4_096;

// The first `%{%{A}:-B}` of a text.
#[derive(Clone, Copy)]
struct Choice<'a> {
    before: &'a [u8],
    // A, as `reply:Class`.
    first: &'a [u8],
    other: &'a [u8],
    after: &'a [u8],
}

// Whether each brace that opens is that of an expansion.
fn has_plain_braces(text: &[u8]) -> bool {
    text.first() != Some(&b'{')
        && !text
            .windows(2)
            .any(|pair| matches!(pair, [first, b'{'] if *first != b'%'))
}

// What an expansion that begins with another says, by what follows its `%{`.
fn choice_of<'a>(before: &'a [u8], inside: &'a [u8]) -> Option<Choice<'a>> {
    let (word, after) = inside.split_at(closing_brace(inside)?);
    let after = after.strip_prefix(b"}")?;
    let inner = word.strip_prefix(b"%{")?;
    let (first, rest) = inner.split_at(closing_brace(inner)?);
    let other = rest.strip_prefix(b"}:-")?;
    // A server reads escapes and braces in it otherwise than elsewhere.
    if other.contains(&b'\\') || !has_plain_braces(other) {
        return None;
    }
    Some(Choice {
        before,
        first,
        other,
        after,
    })
}

// What follows the octet, the escape or the expansion that a text begins with; none at its end, and where the expansion
// begins with another or has no end.
fn after_part(text: &[u8]) -> Option<&[u8]>
    ensures { IfSome result (λ rest. length rest.now < length text.now) }
{
    match text {
        [b'%', b'{', b'%', b'{', ..] => None,
        [b'\\', _, rest @ ..] | [b'%', b'%', rest @ ..] => Some(rest),
        [b'%', b'{', inside @ ..] => match closing_brace(inside) {
            Some(end) => Some(inside.split_at(end).1),
            None => None,
        },
        [_, rest @ ..] => Some(rest),
        [] => None,
    }
}

// The first such expansion, if there is one.
fn first_choice(text: &[u8]) -> Result<Option<Choice<'_>>, Reason> {
    let mut rest = text;
    while let Some(after) = after_part(rest) {
        rest = after;
    }
    let Some(inside) = rest.strip_prefix(b"%{") else {
        return Ok(None);
    };
    let before = text.strip_suffix(rest).unwrap_or(b"");
    match choice_of(before, inside) {
        Some(choice) => Ok(Some(choice)),
        None => Err(Reason::Expansion),
    }
}

/// What a text that is `%{%{A}:-B}` alone is made of: A, as `reply:Class`, and B.
pub(crate) fn sole_choice(text: &[u8]) -> Result<Option<(&[u8], &[u8])>, Reason> {
    match first_choice(text)? {
        Some(choice) if choice.before.is_empty() && choice.after.is_empty() => {
            Ok(Some((choice.first, choice.other)))
        }
        _ => Ok(None),
    }
}

/// Whether a text has an expansion that begins with another.
pub fn has_choices(text: &[u8]) -> bool {
    !matches!(first_choice(text), Ok(None))
}

fn push_and(out: &mut Vec<u8>) -> Result<(), AllocError> {
    if out.is_empty() {
        Ok(())
    } else {
        out.extend_from_slice(b" && ")
    }
}

// That the attribute is there, and not empty: only a text is empty to a server.
fn push_condition(
    out: &mut Vec<u8>,
    names: &Names<'_>,
    reference: &Reference<'_>,
) -> Result<(), AllocError> {
    push_and(out)?;
    push_reference(out, names.dictionary, reference)?;
    if kind_of(names.dictionary, reference.named) == Kind::Text {
        out.extend_from_slice(b" && ")?;
        push_reference(out, names.dictionary, reference)?;
        out.extend_from_slice(b" != \"\"")?;
    }
    Ok(())
}

// The text with its first part, which is there.
fn first_text(alloc: Global, choice: Choice<'_>) -> Result<Vec<u8>, AllocError> {
    let mut text = between(alloc, choice.before, b"%{", choice.first)?;
    text.push(b'}')?;
    text.extend_from_slice(choice.after)?;
    Ok(text)
}

// The text where what was captured is not empty.
fn with_capture(
    alloc: Global,
    one: &Alternative,
    choice: Choice<'_>,
    group: u8,
) -> Result<Alternative, AllocError> {
    let mut condition = Vec::from_slice(alloc, &one.condition)?;
    push_and(&mut condition)?;
    push_captured(&mut condition, group)?;
    Ok(Alternative {
        condition,
        is_wider: true,
        text: first_text(alloc, choice)?,
        whole: None,
    })
}

// The text where the attribute is there and not empty.
fn with_attribute(
    alloc: Global,
    names: &Names<'_>,
    one: &Alternative,
    choice: Choice<'_>,
) -> Result<Alternative, Refusal> {
    let reference = expansion(names, choice.first)?;
    let mut condition = Vec::from_slice(alloc, &one.condition)?;
    push_condition(&mut condition, names, &reference)?;
    let is_whole = choice.before.is_empty() && choice.after.is_empty();
    Ok(Alternative {
        condition,
        is_wider: one.is_wider,
        text: first_text(alloc, choice)?,
        whole: is_whole.then_some(reference.named.id),
    })
}

fn with_first(
    alloc: Global,
    names: &Names<'_>,
    one: &Alternative,
    choice: Choice<'_>,
) -> Result<Alternative, Refusal> {
    match capture_named(choice.first) {
        Some(group) => Ok(with_capture(alloc, one, choice, group)?),
        None => with_attribute(alloc, names, one, choice),
    }
}

// The text where it is not.
fn with_other(
    alloc: Global,
    one: &Alternative,
    choice: Choice<'_>,
) -> Result<Alternative, AllocError> {
    Ok(Alternative {
        condition: Vec::from_slice(alloc, &one.condition)?,
        is_wider: one.is_wider,
        text: between(alloc, choice.before, choice.other, choice.after)?,
        whole: None,
    })
}

/// The texts that one with such expansions may be, at least one and at most 16.
pub fn alternatives(
    alloc: Global,
    names: &Names<'_>,
    text: &[u8],
) -> Result<Vec<Alternative>, Refusal> {
    if text.len() > MOST_OCTETS {
        return Err(Refusal::LeftOut(Reason::TooLong));
    }
    let mut found = Vec::new(alloc);
    let mut open = vec![in alloc;
        Alternative {
            condition: Vec::new(alloc),
            is_wider: false,
            text: Vec::from_slice(alloc, text)?,
            whole: None,
        },
    ]?;
    for _ in 0..2 * MOST_ALTERNATIVES {
        let Some(one) = open.pop() else {
            return Ok(found);
        };
        match first_choice(&one.text)? {
            Some(choice) => {
                open.push(with_other(alloc, &one, choice)?)?;
                open.push(with_first(alloc, names, &one, choice)?)?;
            }
            None => found.push(one)?,
        }
    }
    Err(Refusal::LeftOut(Reason::Expansion))
}
