//! Texts of conditions, as policies compare them.

use crate::operands::Operand;
use crate::reasons::{Reason, Refusal};
use crate::references::{Names, Reference};
use crate::server_conditions::ServerCondition;
use crate::texts::{Part as ServerPart, next_part, refuse_spelled, text_octets};
use avp_dict::{Dictionary, Form};
use avp_lists::{AttrId, Octets, Selection};
use avp_unlang::{Items, Part, Parts, TextComparison, TextSide};
use std::alloc::{AllocError, Global};

// What is put in for an expansion.
fn put_in(found: &Reference<'_>) -> Result<Part, Reason> {
    if found.named.raw {
        return Err(Reason::Expansion);
    }
    Ok(Part::Meant(found.list, found.named.id, Selection::All))
}

// Octets are a part, unless there are none.
fn push_octets(alloc: Global, parts: &mut Vec<Part>, octets: &[u8]) -> Result<(), AllocError> {
    if !octets.is_empty() {
        let octets = Vec::from_slice(alloc, octets)?;
        parts.push(Part::Text(Octets::from_vec(octets)))?;
    }
    Ok(())
}

// The part of a policy's text that an expansion becomes; none of an octet.
fn expanded(part: ServerPart<'_>) -> Result<Option<Part>, Reason> {
    match part {
        ServerPart::Octet(_) => Ok(None),
        ServerPart::Expansion(found) => Ok(Some(put_in(&found)?)),
        ServerPart::Capture(group) => Ok(Some(Part::Capture(group))),
    }
}

fn double_parts(alloc: Global, names: &Names<'_>, text: &[u8]) -> Result<Vec<Part>, Refusal> {
    refuse_spelled(text)?;
    let mut parts = Vec::new(alloc);
    let mut octets = Vec::new(alloc);
    let mut rest = text;
    while let Some((part, after)) = next_part(names, rest)? {
        rest = after;
        if let ServerPart::Octet(octet) = part {
            octets.push(octet)?;
        }
        if let Some(part) = expanded(part)? {
            push_octets(alloc, &mut parts, &octets)?;
            octets.clear();
            parts.push(part)?;
        }
    }
    push_octets(alloc, &mut parts, &octets)?;
    Ok(parts)
}

/// The parts of a text of a condition.
pub(crate) fn text_parts(
    alloc: Global,
    names: &Names<'_>,
    operand: Operand<'_>,
) -> Result<Parts, Refusal> {
    if operand.puts_in() {
        return Ok(Items::from_vec(double_parts(alloc, names, operand.octets)?));
    }
    let octets = text_octets(alloc, names, operand.quote, operand.octets)?;
    let mut parts = Vec::new(alloc);
    push_octets(alloc, &mut parts, &octets)?;
    Ok(Items::from_vec(parts))
}

// Whether what a part becomes may be digits alone, with a sign before them.
fn may_be_digits(part: &Part) -> bool {
    match part {
        Part::Text(octets) => octets
            .as_slice()
            .iter()
            .all(|octet| octet.is_ascii_digit() || *octet == b'-'),
        _ => true,
    }
}

fn may_be_number(parts: &[Part]) -> bool {
    !parts.is_empty() && parts.iter().all(|part| may_be_digits(part))
}

fn may_be_numbers(comparison: &TextComparison) -> bool {
    match &comparison.left {
        TextSide::Text(parts) => {
            may_be_number(parts.as_slice()) && may_be_number(comparison.right.as_slice())
        }
        TextSide::Instance(..) => false,
    }
}

fn has_form(dictionary: &Dictionary, id: AttrId, forms: &[Form]) -> bool {
    match dictionary.form(id) {
        Some(form) => forms.iter().any(|other| *other == form),
        None => false,
    }
}

fn puts_in_form(dictionary: &Dictionary, parts: &[Part], forms: &[Form]) -> bool {
    parts.iter().any(|part| match part {
        Part::Meant(_, id, _) => has_form(dictionary, *id, forms),
        _ => false,
    })
}

fn compares_form(dictionary: &Dictionary, comparison: &TextComparison, forms: &[Form]) -> bool {
    let is_left = match &comparison.left {
        TextSide::Text(parts) => puts_in_form(dictionary, parts.as_slice(), forms),
        TextSide::Instance(..) => false,
    };
    is_left || puts_in_form(dictionary, comparison.right.as_slice(), forms)
}

// Whether a condition prints a value of these forms, to search it or to compare it as a text.
fn prints(dictionary: &Dictionary, condition: &ServerCondition, forms: &[Form]) -> bool {
    match condition {
        ServerCondition::Match(matching) | ServerCondition::MatchText(matching) => {
            has_form(dictionary, matching.id, forms)
        }
        ServerCondition::CompareTexts(comparison) => compares_form(dictionary, comparison, forms),
        ServerCondition::Not(inner) => prints(dictionary, inner, forms),
        ServerCondition::And(first, next) | ServerCondition::Or(first, next) => {
            prints(dictionary, first, forms) || prints(dictionary, next, forms)
        }
        _ => false,
    }
}

/// Whether a condition prints an IPv6 address or prefix, to search it or to compare it as a text.
pub fn prints_address(dictionary: &Dictionary, condition: &ServerCondition) -> bool {
    prints(
        dictionary,
        condition,
        &[Form::Ipv6Address, Form::Ipv6Prefix],
    )
}

/// Whether a condition prints a date, to search it or to compare it as a text.
pub fn prints_date(dictionary: &Dictionary, condition: &ServerCondition) -> bool {
    prints(dictionary, condition, &[Form::Date])
}

/// Whether a condition compares texts that may be numbers, which a server takes otherwise where they are long or have a
/// sign.
pub fn compares_numbers(condition: &ServerCondition) -> bool {
    match condition {
        ServerCondition::CompareTexts(comparison) => may_be_numbers(comparison),
        ServerCondition::Not(inner) => compares_numbers(inner),
        ServerCondition::And(first, next) | ServerCondition::Or(first, next) => {
            compares_numbers(first) || compares_numbers(next)
        }
        _ => false,
    }
}
