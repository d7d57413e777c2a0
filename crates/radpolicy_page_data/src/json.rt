//! JSON (RFC 8259) that may be part of HTML: a string has an octet in each character.

ghost use Rattle.std.specs.Prelude.{◌≡◌, ◌++◌, ◌∷◌, ◌<◌, [], true, IfOk, OnOk, codes, decimal};
ghost use Rattle.std.specs.List.{flat_map};
ghost use Rattle.radpolicy_page_data.specs.Embedding.{are_embeddable, digit, embedded, embedded_octet, is_embeddable, is_quoting, string_octet, string_text, two_digits};

use itoa::Buffer;
use std::alloc::{AllocError, Global};

/// Appends a number in decimal digits.
pub(crate) fn push_number(text: &mut Vec<u8>, number: usize) -> Result<(), AllocError>
    ensures { OnOk result (text.new.items ≡ text.old.items ++ decimal number) }
{
    let mut digits = Buffer::new();
    text.extend_from_slice(digits.format(number).as_bytes())
}

fn is_quoting(octet: u8) -> bool
    ensures { result ≡ is_quoting octet }
{
    octet == b'"' || octet == b'\\'
}

fn push_string_octet(text: &mut Vec<u8>, octet: u8) -> Result<(), AllocError>
    ensures { OnOk result (text.new.items ≡ text.old.items ++ string_octet octet) }
{
    if is_quoting(octet) {
        text.push(b'\\')?;
    }
    text.push(octet)?;
    Ok(())
}

fn push_string_octets(text: &mut Vec<u8>, octets: &[u8]) -> Result<(), AllocError>
    ensures { OnOk result (text.new.items ≡ text.old.items ++ flat_map string_octet octets.now) }
{
    for octet in octets {
        push_string_octet(text, *octet)?;
    }
    Ok(())
}

/// Appends octets as a string, in which only quotes and `\` are escaped.
#[tactic(auto, unfolding(crate::specs::Embedding::string_text))]
pub(crate) fn push_string(text: &mut Vec<u8>, octets: &[u8]) -> Result<(), AllocError>
    ensures { OnOk result (text.new.items ≡ text.old.items ++ string_text octets.now) }
{
    text.extend_from_slice(b"\"")?;
    push_string_octets(text, octets)?;
    text.extend_from_slice(b"\"")
}

fn digit(number: u8) -> u8
    requires { number < 16 }
    ensures { result ≡ digit number }
{
    if number < 10 {
        number + 48
    } else {
        number + 87
    }
}

/// Appends an octet as two hexadecimal digits.
pub(crate) fn push_two_digits(text: &mut Vec<u8>, octet: u8) -> Result<(), AllocError>
    ensures { OnOk result (text.new.items ≡ text.old.items ++ two_digits octet) }
{
    text.push(digit(octet / 16))?;
    text.push(digit(octet % 16))?;
    Ok(())
}

/// Whether an octet is printed ASCII, and none of `<`, `>` and `&`.
pub(crate) fn is_embeddable(octet: u8) -> bool
    ensures { result ≡ is_embeddable octet }
{
    32 <= octet && octet < 127 && !(octet == b'<' || octet == b'>' || octet == b'&')
}

fn push_embedded_octet(text: &mut Vec<u8>, octet: u8) -> Result<(), AllocError>
    ensures text { OnOk result (text.new.items ≡ text.old.items ++ embedded_octet octet) }
    ensures embeddable { are_embeddable text.old.items ≡ true
        → OnOk result (are_embeddable text.new.items ≡ true) }
{
    if is_embeddable(octet) {
        text.push(octet)?;
        Ok(())
    } else {
        text.extend_from_slice(b"\\u00")?;
        push_two_digits(text, octet)
    }
}

/// A text as part of HTML: what is not printed ASCII, `<`, `>` and `&` are `\u00` and two digits, which in a string are
/// the character with the octet's number.
#[tactic(auto, unfolding(crate::specs::Embedding::embedded))]
pub(crate) fn embedded(alloc: Global, octets: &[u8]) -> Result<Vec<u8>, AllocError>
    ensures text { IfOk result (λ text. text.items ≡ embedded octets.now) }
    ensures embeddable { IfOk result (λ text. are_embeddable text.items ≡ true) }
{
    let mut text = Vec::new(alloc);
    for octet in octets {
        push_embedded_octet(&mut text, *octet)?;
    }
    Ok(text)
}
