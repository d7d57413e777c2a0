//! The tokens of a policy's text, for what is said of a place in it.

use std::alloc::{AllocError, Global};
use std::str;

/// A token, and how many octets of the text are before it.
#[derive(Clone, Copy)]
pub(crate) struct Token<'a> {
    pub offset: usize,
    pub octets: &'a [u8],
}

fn is_blank(octet: u8) -> bool {
    matches!(octet, b' ' | b'\t' | b'\r' | b'\n')
}

/// Whether a word may have this octet.
pub(crate) fn is_word_octet(octet: u8) -> bool {
    octet.is_ascii_alphanumeric() || matches!(octet, b'-' | b'_' | b'.' | b'/' | b':' | b'@')
}

/// Octets as text; what is no UTF-8 is none.
pub(crate) fn text_of(octets: &[u8]) -> &str {
    str::from_utf8(octets).unwrap_or("")
}

impl<'a> Token<'a> {
    pub(crate) fn text(&self) -> &'a str {
        text_of(self.octets)
    }

    pub(crate) fn is_word(&self) -> bool {
        match self.octets {
            [first, ..] => is_word_octet(*first),
            [] => false,
        }
    }
}

/// Whether a word is an operator of an update line.
pub(crate) fn is_update_operator(word: &str) -> bool {
    matches!(word, ":=" | "=" | "+=" | "^=" | "-=" | "==" | "!*")
}

/// What is left of a text after the blanks and comments that it begins with.
pub(crate) fn from_token(text: &[u8]) -> &[u8] {
    let mut in_comment = false;
    for (at, octet) in text.iter().enumerate() {
        in_comment = (in_comment || *octet == b'#') && *octet != b'\n';
        if !in_comment && !is_blank(*octet) {
            return &text[at..];
        }
    }
    &[]
}

fn word_length(text: &[u8]) -> usize {
    for (at, octet) in text.iter().enumerate() {
        let is_sign = matches!(*octet, b':' | b'-') && text.get(at + 1) == Some(&b'=');
        if is_sign || !is_word_octet(*octet) {
            return at;
        }
    }
    text.len()
}

// The octets of a text between quotes, the quotes included. It ends on its line.
fn quoted_length(text: &[u8]) -> usize {
    let mark = text.first();
    let mut is_escaped = true;
    for (at, octet) in text.iter().enumerate() {
        if *octet == b'\n' {
            return at;
        }
        if !is_escaped && mark == Some(octet) {
            return at + 1;
        }
        is_escaped = !is_escaped && *octet == b'\\';
    }
    text.len()
}

// The signs of two octets, those included that only a server's language has.
fn is_double(first: u8, second: u8) -> bool {
    match first {
        b'|' | b'&' => first == second,
        b'=' | b'!' => matches!(second, b'=' | b'~' | b'*'),
        b':' | b'+' | b'^' | b'-' | b'<' | b'>' => second == b'=',
        _ => false,
    }
}

/// How many octets of a text that begins with the sign of a comparison with a regular expression are before what it
/// says: the sign, blanks and a slash.
pub(crate) fn pattern_start(text: &[u8]) -> Option<usize> {
    let [b'=' | b'!', b'~', rest @ ..] = text else {
        return None;
    };
    let blanks = rest
        .iter()
        .position(|octet| !matches!(*octet, b' ' | b'\t'))?;
    if rest.get(blanks) == Some(&b'/') {
        Some(blanks.saturating_add(3))
    } else {
        None
    }
}

/// How many octets such a text has up to the closing slash, which is on the same line.
pub(crate) fn pattern_end(text: &[u8]) -> Option<usize> {
    let start = pattern_start(text)?;
    let mut is_escaped = false;
    for (at, octet) in text.iter().enumerate() {
        if at < start {
            continue;
        }
        match *octet {
            b'\n' => return None,
            b'/' if !is_escaped => return Some(at.saturating_add(1)),
            _ => is_escaped = *octet == b'\\' && !is_escaped,
        }
    }
    None
}

// The octets of a comparison with a regular expression, its flags included; those of its sign where it has none.
fn pattern_length(text: &[u8]) -> usize {
    match pattern_end(text) {
        Some(end) => {
            let flags = word_length(text.get(end..).unwrap_or(&[]));
            end.saturating_add(flags)
        }
        None => 2,
    }
}

/// Whether a token is a comparison with a regular expression, or its sign.
pub(crate) fn is_match(token: &str) -> bool {
    token.starts_with("=~") || token.starts_with("!~")
}

/// How many octets has the token that begins a text.
pub(crate) fn token_length(text: &[u8]) -> usize {
    match text {
        [] => 0,
        [b'"' | b'\'', ..] => quoted_length(text),
        [b'=' | b'!', b'~', ..] => pattern_length(text),
        [first, second, ..] if is_double(*first, *second) => 2,
        _ => word_length(text).max(1),
    }
}

/// The token that begins a text; none at its end.
pub(crate) fn token_of(text: &[u8]) -> &[u8] {
    text.get(..token_length(text)).unwrap_or(text)
}

/// The tokens of a text.
pub(crate) fn tokens(alloc: Global, text: &[u8]) -> Result<Vec<Token<'_>>, AllocError> {
    let mut tokens = Vec::new(alloc);
    let mut rest = from_token(text);
    for _ in 0..text.len() {
        let octets = token_of(rest);
        if octets.is_empty() {
            break;
        }
        tokens.push(Token {
            offset: text.len().saturating_sub(rest.len()),
            octets,
        })?;
        rest = from_token(rest.get(octets.len()..).unwrap_or(&[]));
    }
    Ok(tokens)
}
