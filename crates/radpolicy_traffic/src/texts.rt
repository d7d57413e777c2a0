//! Words of a line.

ghost use Rattle.std.specs.Prelude.{IfSome};
ghost use Rattle.radpolicy_traffic.specs.Lines.{IsEndOf};

pub(crate) fn is_blank(octet: u8) -> bool {
    matches!(octet, b' ' | b'\t' | b'\r')
}

pub(crate) fn is(word: &[u8], wanted: &str) -> bool {
    word == wanted.as_bytes()
}

/// The octets without the blanks at their front.
pub(crate) fn after_blanks(text: &[u8]) -> &[u8]
    ensures { IsEndOf text.now result.now }
{
    let end = text
        .iter()
        .position(|octet| !is_blank(*octet))
        .unwrap_or(text.len());
    &text[end.min(text.len())..]
}

/// What follows this front.
pub(crate) fn after<'a>(text: &'a [u8], front: &[u8]) -> Option<&'a [u8]>
    ensures { IfSome result (λ rest. IsEndOf text.now rest.now) }
{
    text.strip_prefix(front)
}

/// The octets before the first blank, and what follows the blanks there.
pub(crate) fn split_word(text: &[u8]) -> (&[u8], &[u8]) {
    let end = text
        .iter()
        .position(|octet| is_blank(*octet))
        .unwrap_or(text.len());
    let (word, rest) = text.split_at(end.min(text.len()));
    (word, after_blanks(rest))
}

/// The words of a line, one after another; empty ones when there are no more.
#[derive(Drop)]
pub(crate) struct Words<'a>(pub(crate) &'a [u8]);

impl<'a> Words<'a> {
    pub(crate) fn next(&mut self) -> &'a [u8] {
        let (word, rest) = split_word(self.0);
        self.0 = rest;
        word
    }
}

/// The octets before the first of these, and those after it.
pub(crate) fn split_at_octet(text: &[u8], wanted: u8) -> Option<(&[u8], &[u8])> {
    let place = text.iter().position(|octet| *octet == wanted)?;
    let (before, rest) = text.split_at(place.min(text.len()));
    match rest {
        [_, after @ ..] => Some((before, after)),
        [] => None,
    }
}

/// The octets before the last of these, and those after it.
pub(crate) fn split_at_last(text: &[u8], wanted: u8) -> Option<(&[u8], &[u8])> {
    let place = text.iter().rposition(|octet| *octet == wanted)?;
    let (before, rest) = text.split_at(place.min(text.len()));
    match rest {
        [_, after @ ..] => Some((before, after)),
        [] => None,
    }
}

/// Whether it is a number in decimal digits.
pub(crate) fn is_number(text: &[u8]) -> bool {
    !text.is_empty() && text.iter().all(|octet| octet.is_ascii_digit())
}
