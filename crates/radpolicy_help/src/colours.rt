//! Help in colour.

use radpolicy_common::{PLAIN_STYLE, Style};
use std::alloc::{AllocError, Global};

// A line with a caret below another line.
fn is_caret(line: &[u8]) -> bool {
    match line.strip_suffix(b"^") {
        Some(spaces) => spaces.iter().all(|octet| *octet == b' '),
        None => false,
    }
}

// A place, which has its line and the caret after it, or the caret.
fn is_marked(line: &[u8], after: &[&[u8]]) -> bool {
    match after {
        [_, caret, ..] if is_caret(caret) => true,
        _ => is_caret(line),
    }
}

fn push_marked(text: &mut Vec<u8>, line: &[u8]) -> Result<(), AllocError> {
    text.extend_from_slice(Style::Heading.begin().as_bytes())?;
    text.extend_from_slice(line)?;
    text.extend_from_slice(PLAIN_STYLE.as_bytes())
}

/// Help with its places and carets in bold.
pub(crate) fn coloured(alloc: Global, help: &[u8]) -> Result<Vec<u8>, AllocError> {
    let lines: Vec<&[u8]> = help.split(|octet| *octet == b'\n').collect(alloc)?;
    let mut text = Vec::new(alloc);
    let mut rest = lines.as_slice();
    while let [line, after @ ..] = rest {
        if is_marked(line, after) {
            push_marked(&mut text, line)?;
        } else {
            text.extend_from_slice(line)?;
        }
        if after.len() > 0 {
            text.push(b'\n')?;
        }
        rest = after;
    }
    Ok(text)
}
