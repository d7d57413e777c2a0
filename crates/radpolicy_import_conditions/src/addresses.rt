//! IPv4 addresses, as a server reads them.

use crate::reasons::Reason;

// A number of one octet to a base of at most ten.
fn number(base: u8, digits: &[u8]) -> Option<u8> {
    let mut number = 0u8;
    for octet in digits {
        let digit = octet.checked_sub(b'0').filter(|digit| *digit < base)?;
        number = number.checked_mul(base)?.checked_add(digit)?;
    }
    Some(number)
}

// A part between dots, in octal where it begins with `0`.
fn part_meant(part: &[u8]) -> Option<u8> {
    match part {
        [b'0', digits @ ..] => number(8, digits),
        _ => number(10, part),
    }
}

fn is_part(part: &[u8]) -> bool {
    !part.is_empty() && part.iter().all(|octet| octet.is_ascii_digit())
}

fn is_octal(part: &[u8]) -> bool {
    matches!(part, [b'0', _, ..])
}

// The address of four parts.
fn address(parts: [&[u8]; 4]) -> Option<[u8; 4]> {
    let [a, b, c, d] = parts;
    Some([
        part_meant(a)?,
        part_meant(b)?,
        part_meant(c)?,
        part_meant(d)?,
    ])
}

// Four parts between dots, of digits alone.
fn parts(text: &[u8]) -> Option<[&[u8]; 4]> {
    let mut parts = text.split(|octet| *octet == b'.');
    let found = [parts.next()?, parts.next()?, parts.next()?, parts.next()?];
    let is_whole = parts.next().is_none();
    (is_whole && found.iter().all(|part| is_part(part))).then_some(found)
}

/// The address that a text is to a server, where that differs from what policies read: of four numbers, of which one
/// begins with `0`.
pub(crate) fn octal_address(text: &[u8]) -> Result<Option<[u8; 4]>, Reason> {
    match parts(text) {
        Some(parts) if parts.iter().any(|part| is_octal(part)) => match address(parts) {
            Some(address) => Ok(Some(address)),
            None => Err(Reason::NotValue),
        },
        _ => Ok(None),
    }
}
