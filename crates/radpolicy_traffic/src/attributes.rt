//! Attribute lines.

use crate::texts::{after_blanks, is_blank, split_at_octet, split_word};

/// The name that an attribute line begins with.
pub(crate) fn name_of(text: &[u8]) -> &[u8] {
    let end = text
        .iter()
        .position(|octet| is_blank(*octet) || matches!(octet, b'=' | b':' | b','))
        .unwrap_or(text.len());
    &text[..end.min(text.len())]
}

/// The word after the first `=`.
pub(crate) fn value_of(text: &[u8]) -> &[u8] {
    match split_at_octet(text, b'=') {
        Some((_, value)) => split_word(after_blanks(value)).0,
        None => b"",
    }
}

/// Whether it has the form `Name = value`, as far as a name and a `=` go.
pub(crate) fn is_attribute(text: &[u8]) -> bool {
    match split_at_octet(text, b'=') {
        Some((name, _)) => {
            let (word, rest) = split_word(name);
            rest.is_empty()
                && word
                    .first()
                    .is_some_and(|octet| octet.is_ascii_alphanumeric())
        }
        None => false,
    }
}
