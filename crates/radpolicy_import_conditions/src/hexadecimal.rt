//! Numbers and octets that are written with hexadecimal digits, as a server reads them.

use crate::condition_texts::ConditionReader;
use crate::operands::{Operand, after_blanks, next_operand, next_pattern, relation};
use crate::patterns::match_sign;
use crate::reasons::Reason;
use crate::references::kind_of;
use crate::texts::{between, has_expansion};
use avp_dict::{Dictionary, Kind, Named};
use std::alloc::{AllocError, Global};

/// Whether a text is a number in hexadecimal for an attribute whose numbers have 64 bits: a server reads the digits
/// before the `x`.
pub(crate) fn is_zero_alone(dictionary: &Dictionary, named: Named, text: &[u8]) -> bool {
    !named.raw && kind_of(dictionary, named) == Kind::Integer64 && text.starts_with(b"0x")
}

/// What a policy writes for a text that a server takes otherwise: for such a number, and for octets whose digits are
/// behind `0X`. None for any other.
pub(crate) fn meant_text(
    alloc: Global,
    dictionary: &Dictionary,
    named: Named,
    text: &[u8],
) -> Result<Option<Vec<u8>>, AllocError> {
    if is_zero_alone(dictionary, named, text) && !has_expansion(text) {
        return Ok(Some(Vec::from_slice(alloc, b"0")?));
    }
    match text.strip_prefix(b"0X") {
        Some(digits) if !named.raw && kind_of(dictionary, named) == Kind::Bytes => {
            Ok(Some(between(alloc, b"0x", digits, b"")?))
        }
        _ => Ok(None),
    }
}

// What follows a sign that stands between operands: a bracket, `!`, `&&` or `||`.
fn after_sign(text: &[u8]) -> Option<&[u8]> {
    match text {
        [b'(' | b')' | b'!', rest @ ..] | [b'&', b'&', rest @ ..] | [b'|', b'|', rest @ ..] => Some(
            rest,
        ),
        _ => None,
    }
}

// What two operands are compared.
#[derive(Clone, Copy)]
struct Sides<'a> {
    left: Operand<'a>,
    right: Operand<'a>,
}

// The two operands that a text begins with, if they are compared, and what follows.
fn next_sides(text: &[u8]) -> Result<(Option<Sides<'_>>, &[u8]), Reason> {
    let (left, rest) = next_operand(text)?;
    if let Some((_, rest)) = match_sign(after_blanks(rest)) {
        let (_, rest) = next_pattern(after_blanks(rest))?;
        return Ok((None, rest));
    }
    match relation(after_blanks(rest))? {
        None => Ok((None, rest)),
        Some((_, rest)) => {
            let (right, rest) = next_operand(after_blanks(rest))?;
            Ok((Some(Sides { left, right }), rest))
        }
    }
}

impl<'a> ConditionReader<'a> {
    /// Whether an attribute of 64 bits is compared with a number in hexadecimal.
    pub fn is_zero_alone(&self, left: Operand<'_>, right: Operand<'_>) -> Result<bool, Reason> {
        match self.attribute(left, true)? {
            Some(found) => Ok(is_zero_alone(self.names.dictionary, found.named, right.octets)),
            None => Ok(false),
        }
    }

    /// Whether a condition that can be read has such a comparison.
    pub fn has_zero_alone(&self, text: &[u8]) -> Result<bool, Reason> {
        let mut rest = text;
        for _ in 0..text.len() {
            rest = after_blanks(rest);
            if rest.is_empty() {
                return Ok(false);
            }
            if let Some(after) = after_sign(rest) {
                rest = after;
                continue;
            }
            let (sides, after) = next_sides(rest)?;
            if let Some(Sides { left, right }) = sides
                && self.is_zero_alone(left, right)?
            {
                return Ok(true);
            }
            rest = after;
        }
        Ok(false)
    }
}
