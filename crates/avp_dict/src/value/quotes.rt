//! Quoted texts.

ghost use Rattle.std.specs.Prelude.{◌≡◌, ◌<◌, ◌≤◌, ◌++◌, ◌∷◌, [], IfOk, OnOk, IfSome, MatchOption, length};
ghost use Rattle.avp_dict.specs.Quotes.{between_quotes, double_escape, double_quoted_octets, escape_in, escaped_letter, octal_escape, octets_between, quoted, quoted_octet, single_escape, unescaped};

use std::alloc::{AllocError, Global};

/// The quotes round a text.
#[derive(Clone, Copy, Debug, PartialEq, Eq)]
pub enum QuoteMark {
    Single,
    Double,
}

/// What follows a `\` between quotes: an octet, and how many octets of the text stand for it.
#[derive(Clone, Copy)]
pub struct Escape {
    pub octet: u8,
    pub taken: usize,
}

fn push_escaped(text: &mut Vec<u8>, letter: u8) -> Result<(), AllocError>
    ensures { OnOk result (text.new.items ≡ text.old.items ++ 92 ∷ letter ∷ []) }
{
    text.push(b'\\')?;
    text.push(letter)?;
    Ok(())
}

fn push_octal(text: &mut Vec<u8>, octet: u8) -> Result<(), AllocError>
    ensures { OnOk result (text.new.items ≡ text.old.items ++ octal_escape octet) }
{
    text.push(b'\\')?;
    text.push(b'0' + octet / 64)?;
    text.push(b'0' + octet / 8 % 8)?;
    text.push(b'0' + octet % 8)?;
    Ok(())
}

fn push_quoted(text: &mut Vec<u8>, octet: u8) -> Result<(), AllocError>
    ensures { OnOk result (text.new.items ≡ text.old.items ++ quoted_octet octet) }
{
    match octet {
        b'"' | b'\\' => push_escaped(text, octet),
        b'\n' => push_escaped(text, b'n'),
        b'\r' => push_escaped(text, b'r'),
        b'\t' => push_escaped(text, b't'),
        b' '..=b'~' => {
            text.push(octet)?;
            Ok(())
        }
        _ => push_octal(text, octet),
    }
}

/// The octets between double quotes, as they are printed.
///
/// ```rust
/// assert_eq!(rt;
///     quote(alloc, b"Hello, bob\n")?.as_slice(),
///     b"\"Hello, bob\\n\"".as_slice()
/// );
/// ```
#[tactic(auto, unfolding(crate::specs::Quotes::quoted))]
pub fn quote(alloc: Global, octets: &[u8]) -> Result<Vec<u8>, AllocError>
    ensures text { IfOk result (λ text. text.items ≡ quoted octets.now) }
    ensures reads_back { IfOk result (λ text. double_quoted_octets (between_quotes text.items)
        ≡ octets.now) }
{
    let mut text = Vec::new(alloc);
    text.push(b'"')?;
    for octet in octets {
        push_quoted(&mut text, *octet)?;
    }
    text.push(b'"')?;
    Ok(text)
}

fn escaped_letter(letter: u8) -> u8
    ensures { result ≡ escaped_letter letter }
{
    match letter {
        b'n' => b'\n',
        b'r' => b'\r',
        b't' => b'\t',
        other => other,
    }
}

/// What follows a `\` between double quotes: three octal digits, a letter that stands for an octet, or an octet itself.
/// Where nothing follows, the `\` stands for itself.
pub fn double_escape(text: &[u8]) -> Escape
    ensures value { result ≡ double_escape text.now }
    ensures within { result.taken ≤ length text.now }
{
    match text {
        [] => Escape {
            octet: b'\\',
            taken: 0,
        },
        [a @ b'0'..=b'3', b @ b'0'..=b'7', c @ b'0'..=b'7', ..] => Escape {
            octet: (*a - b'0') * 64 + (*b - b'0') * 8 + (*c - b'0'),
            taken: 3,
        },
        [letter, ..] => Escape {
            octet: escaped_letter(*letter),
            taken: 1,
        },
    }
}

fn single_escape(text: &[u8]) -> Escape
    ensures { result ≡ single_escape text.now }
{
    match text {
        [octet @ (b'\\' | b'\''), ..] => Escape {
            octet: *octet,
            taken: 1,
        },
        _ => Escape {
            octet: b'\\',
            taken: 0,
        },
    }
}

impl QuoteMark {
    fn escape(self, text: &[u8]) -> Escape
        ensures value { result ≡ escape_in self text.now }
        ensures within { result.taken ≤ length text.now }
    {
        match self {
            QuoteMark::Double => double_escape(text),
            QuoteMark::Single => single_escape(text),
        }
    }
}

// The first octet that a text stands for, and the text after it.
fn first_octet(mark: QuoteMark, text: &[u8]) -> Option<(u8, &[u8])>
    ensures read { MatchOption result (text.now ≡ [])
        (λ x. unescaped mark 0 text.now ≡ x.0 ∷ unescaped mark 0 x.1.now) }
    ensures shorter { IfSome result (λ x. length x.1.now < length text.now) }
{
    match text {
        [] => None,
        [b'\\', rest @ ..] => {
            let escape = mark.escape(rest);
            Some((escape.octet, &rest[escape.taken..]))
        }
        [octet, rest @ ..] => Some((*octet, rest)),
    }
}

/// The octets that a text between quotes stands for.
#[tactic(auto, unfolding(crate::specs::Quotes::octets_between))]
pub fn octets_between(alloc: Global, mark: QuoteMark, text: &[u8]) -> Result<Vec<u8>, AllocError>
    ensures { IfOk result (λ octets. octets.items ≡ octets_between mark text.now) }
{
    let mut octets = Vec::new(alloc);
    let mut rest = text;
    while let Some((octet, after)) = first_octet(mark, rest) {
        octets.push(octet)?;
        rest = after;
    }
    Ok(octets)
}
