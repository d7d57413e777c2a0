//! Where expansions are in a text.

ghost use Rattle.std.specs.Prelude.{◌<◌, IfSome, length};

use std::alloc::{AllocError, Global};

/// Where what is between the braces of an expansion begins and ends. One without an end ends before it begins.
#[derive(Clone, Copy)]
pub struct Expansion {
    pub start: usize,
    pub end: usize,
}

impl Expansion {
    /// What is between its braces, if it has an end.
    pub fn word(self, text: &[u8]) -> Option<&[u8]> {
        text.get(self.start..self.end)
    }
}

// Ends what the brace that is open last begins.
fn close(found: &mut Vec<Expansion>, open: &mut Vec<Option<usize>>, end: usize) {
    if let Some(Some(place)) = open.pop()
        && let Some(expansion) = found.get_mut(place)
    {
        expansion.end = end;
    }
}

/// The expansions of a text, in the order in which they begin.
pub fn expansions_in(alloc: Global, text: &[u8]) -> Result<Vec<Expansion>, AllocError> {
    let mut found = Vec::new(alloc);
    let mut open = Vec::new(alloc);
    let mut last = b' ';
    for (at, octet) in text.iter().enumerate() {
        match *octet {
            b'{' if last == b'%' => {
                open.push(Some(found.len()))?;
                found.push(Expansion {
                    start: at + 1,
                    end: 0,
                })?;
            }
            b'{' => open.push(None)?,
            b'}' => close(&mut found, &mut open, at),
            _ => {}
        }
        last = *octet;
    }
    Ok(found)
}

/// How far it is to the brace that closes an expansion, from behind the one that opens it.
pub(crate) fn closing_brace(text: &[u8]) -> Option<usize>
    ensures { IfSome result (λ end. end < length text.now) }
{
    let mut open = 0usize;
    for (place, octet) in text.iter().enumerate() {
        match *octet {
            b'{' => open = open.saturating_add(1),
            b'}' if open == 0 => return Some(place),
            b'}' => open = open.saturating_sub(1),
            _ => {}
        }
    }
    None
}
