//! The pairs of a request's line, as they are written, for what is said of a place among them.

use crate::policy_tokens::token_of;

/// A pair as it is written.
#[derive(Clone, Copy)]
pub(crate) struct WrittenPair<'a> {
    pub name: &'a [u8],
    /// How many octets of the line are before the name.
    pub name_offset: usize,
    /// The value, in its quotes if it has some.
    pub value: &'a [u8],
    /// How many octets of the line are before the value.
    pub value_offset: usize,
    /// How many octets of the line are before what follows the pair.
    pub end: usize,
}

fn is_blank(octet: u8) -> bool {
    matches!(octet, b' ' | b'\t' | b'\r')
}

fn ends_value(octet: u8) -> bool {
    is_blank(octet) || matches!(octet, b',' | b'"' | b'\'' | b'#')
}

fn ends_name(octet: u8) -> bool {
    ends_value(octet) || octet == b'='
}

// What a line has from a place on.
fn rest_of(line: &[u8], offset: usize) -> &[u8] {
    line.get(offset..).unwrap_or(&[])
}

// How many octets are before the first from this offset on that is no blank.
fn filled_from(line: &[u8], offset: usize) -> usize {
    let blanks = rest_of(line, offset)
        .iter()
        .position(|octet| !is_blank(*octet));
    match blanks {
        Some(count) => offset.saturating_add(count),
        None => line.len(),
    }
}

fn name_at(rest: &[u8]) -> &[u8] {
    let end = rest.iter().position(|octet| ends_name(*octet));
    rest.get(..end.unwrap_or(rest.len())).unwrap_or(rest)
}

fn value_at(rest: &[u8]) -> &[u8] {
    match rest {
        [b'"' | b'\'', ..] => token_of(rest),
        _ => {
            let end = rest.iter().position(|octet| ends_value(*octet));
            rest.get(..end.unwrap_or(rest.len())).unwrap_or(rest)
        }
    }
}

// The pair that is written from a place on.
fn pair_at(line: &[u8], from: usize) -> WrittenPair<'_> {
    let name_offset = filled_from(line, from);
    let name = name_at(rest_of(line, name_offset));
    let sign = filled_from(line, name_offset.saturating_add(name.len()));
    let has_sign = line.get(sign) == Some(&b'=');
    let value_offset = if has_sign {
        filled_from(line, sign.saturating_add(1))
    } else {
        sign
    };
    let value = if has_sign {
        value_at(rest_of(line, value_offset))
    } else {
        &[]
    };
    let end = filled_from(line, value_offset.saturating_add(value.len()));
    WrittenPair {
        name,
        name_offset,
        value,
        value_offset,
        end,
    }
}

/// The pair of a line that a place is in, or right after: the first that has no further one before the place.
pub(crate) fn pair_around(line: &[u8], offset: usize) -> WrittenPair<'_> {
    let mut pair = pair_at(line, 0);
    for _ in 0..line.len() {
        if offset <= pair.end {
            break;
        }
        pair = pair_at(line, pair.end.saturating_add(1));
    }
    pair
}
