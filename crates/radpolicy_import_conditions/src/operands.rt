//! Operands, as a server's conditions have them.

use crate::patterns::{WrittenPattern, flagged};
use crate::reasons::Reason;
use crate::texts::has_expansion;
use avp_unlang::Relation;
use server_configuration::Quote;

/// A word, or a text between quotes.
#[derive(Clone, Copy)]
pub struct Operand<'a> {
    pub quote: Quote,
    pub octets: &'a [u8],
}

impl Operand<'_> {
    /// Whether it is a text, between quotes or an expansion without them.
    pub(crate) fn is_text(&self) -> bool {
        match self.quote {
            Quote::Single | Quote::Double => true,
            Quote::Bare => self.octets.starts_with(b"%{"),
            Quote::Back => false,
        }
    }

    /// Whether it is a text into which something is put.
    pub(crate) fn puts_in(&self) -> bool {
        match self.quote {
            Quote::Double => has_expansion(self.octets),
            Quote::Bare => self.octets.starts_with(b"%{"),
            Quote::Single | Quote::Back => false,
        }
    }

    /// Whether it is octets, as digits behind `0x`.
    pub(crate) fn is_digits(&self) -> bool {
        self.quote == Quote::Bare && self.octets.starts_with(b"0x")
    }

    /// Whether it is the empty text.
    pub(crate) fn is_empty(&self) -> bool {
        self.is_text() && self.octets.is_empty()
    }
}

fn is_blank(octet: u8) -> bool {
    matches!(octet, b' ' | b'\t' | b'\r' | b'\n' | 0x0b | 0x0c)
}

/// What follows the blanks that a text begins with.
pub(crate) fn after_blanks(text: &[u8]) -> &[u8] {
    match text.iter().position(|octet| !is_blank(*octet)) {
        Some(place) => text.split_at(place).1,
        None => &[],
    }
}

// The octets up to the end of a text between quotes, and what follows its end.
fn quoted(text: &[u8], mark: u8) -> Option<(&[u8], &[u8])> {
    let mut is_escaped = false;
    for (place, octet) in text.iter().enumerate() {
        if *octet == mark && !is_escaped {
            let (octets, rest) = text.split_at(place);
            return Some((octets, rest.split_first()?.1));
        }
        is_escaped = *octet == b'\\' && !is_escaped;
    }
    None
}

// Whether a word without quotes ends at an octet that is not its first.
fn ends_word(octet: u8) -> bool {
    is_blank(octet)
        || matches!(
            octet,
            b'(' | b')' | b'"' | b'\'' | b'=' | b'!' | b'<' | b'>' | b'&' | b'|'
        )
}

// A word without quotes, and what follows it. Braces of expansions are of the word.
fn bare(text: &[u8]) -> (&[u8], &[u8]) {
    let mut depth = 0usize;
    for (place, octet) in text.iter().enumerate() {
        match *octet {
            b'{' => depth = depth.saturating_add(1),
            b'}' => depth = depth.saturating_sub(1),
            other if depth == 0 && place > 0 && ends_word(other) => return text.split_at(place),
            _ => {}
        }
    }
    (text, &[])
}

/// The operand that a text begins with, and what follows it.
pub(crate) fn next_operand(text: &[u8]) -> Result<(Operand<'_>, &[u8]), Reason> {
    let quote = match text {
        [b'"', ..] => Quote::Double,
        [b'\'', ..] => Quote::Single,
        [b'`', ..] => return Err(Reason::Command),
        [b'/', ..] => return Err(Reason::RegularExpression),
        [b'<', ..] => return Err(Reason::Cast),
        [b'%', b'{', ..] => return Err(Reason::BareExpansion),
        [] => return Err(Reason::Condition),
        [first, ..] if ends_word(*first) && *first != b'&' => return Err(Reason::Condition),
        _ => Quote::Bare,
    };
    if quote == Quote::Bare {
        let (octets, rest) = bare(text);
        return Ok((Operand { quote, octets }, rest));
    }
    let [mark, rest @ ..] = text else {
        return Err(Reason::Condition);
    };
    match quoted(rest, *mark) {
        Some((octets, rest)) => Ok((Operand { quote, octets }, rest)),
        None => Err(Reason::Condition),
    }
}

/// The regular expression that a text begins with, and what follows it.
pub(crate) fn next_pattern(text: &[u8]) -> Result<(WrittenPattern<'_>, &[u8]), Reason> {
    let [b'/', rest @ ..] = text else {
        return Err(Reason::RegularExpression);
    };
    match quoted(rest, b'/') {
        Some((octets, rest)) => flagged(octets, rest),
        None => Err(Reason::RegularExpression),
    }
}

/// How a comparison that follows compares, and what follows its sign.
pub(crate) fn relation(text: &[u8]) -> Result<Option<(Relation, &[u8])>, Reason> {
    match text {
        [b'=', b'=', rest @ ..] => Ok(Some((Relation::Equal, rest))),
        [b'!', b'=', rest @ ..] => Ok(Some((Relation::Differs, rest))),
        [b'<', b'=', rest @ ..] => Ok(Some((Relation::AtMost, rest))),
        [b'>', b'=', rest @ ..] => Ok(Some((Relation::AtLeast, rest))),
        [b'<', rest @ ..] => Ok(Some((Relation::Less, rest))),
        [b'>', rest @ ..] => Ok(Some((Relation::Greater, rest))),
        [b'=' | b'!', b'*', ..] => Err(Reason::Operator),
        _ => Ok(None),
    }
}
