//! The words of a question.

use avp_lists::AttrId;
use std::alloc::Global;
use std::io;

/// What is no question.
pub fn bad<T>() -> io::Result<T> {
    Err(io::ErrorKind::InvalidInput.into())
}

/// What is before the first blank, and after it.
pub fn first_word(text: &[u8]) -> (&[u8], &[u8]) {
    match text.iter().position(|octet| *octet == b' ') {
        Some(at) => (&text[..at], &text[at + 1..]),
        None => (text, &[]),
    }
}

/// The number of decimal digits.
pub fn number_of(word: &[u8]) -> io::Result<u64> {
    match str::from_utf8(word).unwrap_or("").parse() {
        Ok(number) => Ok(number),
        Err(_) => bad(),
    }
}

/// The same, as one of an attribute or a vendor.
pub fn small_number_of(word: &[u8]) -> io::Result<u32> {
    match u32::try_from(number_of(word)?) {
        Ok(number) => Ok(number),
        Err(_) => bad(),
    }
}

/// The same, as one octet.
pub fn octet_of(word: &[u8]) -> io::Result<u8> {
    match u8::try_from(number_of(word)?) {
        Ok(number) => Ok(number),
        Err(_) => bad(),
    }
}

/// The attribute of numbers with dots between, as `2`, `26.9.1` or `241.1`.
pub fn id_of(alloc: Global, word: &[u8]) -> io::Result<AttrId> {
    let numbers: Vec<&[u8]> = word.split(|octet| *octet == b'.').collect(alloc)?;
    match numbers.as_slice() {
        [number] => Ok(AttrId::Plain(small_number_of(number)?)),
        [kind, number] => Ok(AttrId::Extended(octet_of(kind)?, octet_of(number)?)),
        [_, vendor, number] => {
            let vendor = small_number_of(vendor)?;
            Ok(AttrId::Vendor(vendor, small_number_of(number)?))
        }
        _ => bad(),
    }
}

/// The octets of hexadecimal digits.
pub fn octets_of(alloc: Global, digits: &[u8]) -> io::Result<Vec<u8>> {
    hex::decode(alloc, digits).map_err(|_| io::ErrorKind::InvalidInput.into())
}
