//! Sentences, put together from their parts.

use itoa::Buffer;
use std::alloc::AllocError;

/// Adds the parts, one after the other.
pub(crate) fn push_all(text: &mut Vec<u8>, parts: &[&str]) -> Result<(), AllocError> {
    for part in parts {
        text.extend_from_slice(part.as_bytes())?;
    }
    Ok(())
}

/// Adds a number in decimal digits.
pub(crate) fn push_number(text: &mut Vec<u8>, number: usize) -> Result<(), AllocError> {
    let mut digits = Buffer::new();
    text.extend_from_slice(digits.format(number).as_bytes())
}

/// Adds the names with commas between them, and `or` before the last.
pub(crate) fn push_choices(text: &mut Vec<u8>, names: &[&str]) -> Result<(), AllocError> {
    for (at, name) in names.iter().enumerate() {
        if at > 0 {
            let is_last = at + 1 == names.len();
            text.extend_from_slice(if is_last {
                b" or ".as_slice()
            } else {
                b", ".as_slice()
            })?;
        }
        text.extend_from_slice(name.as_bytes())?;
    }
    Ok(())
}
