//! The lines of a policy's text.

ghost use Rattle.std.specs.Prelude.{◌<◌, IfSome, length};

use avp_dict::{Dictionary, next_line};
use avp_lists::AttrId;
use std::alloc::{AllocError, Global};

fn is_name_octet(octet: u8) -> bool {
    octet.is_ascii_alphanumeric() || matches!(octet, b'-' | b'.' | b'_')
}

// The first octets that can be a name, and what follows the octet after them; none where nothing is left.
fn next_name(text: &[u8]) -> Option<(&[u8], &[u8])>
    ensures { IfSome result (λ x. length x.1.now < length text.now) }
{
    if text.len() < 1 {
        return None;
    }
    let count = text
        .iter()
        .position(|octet| !is_name_octet(*octet))
        .unwrap_or(text.len());
    let (name, rest) = text.split_at(count);
    match rest.split_first() {
        Some((_, after)) => Some((name, after)),
        None => Some((name, &[])),
    }
}

// Adds the attributes that octets name.
fn add_named(
    ids: &mut Vec<AttrId>,
    dictionary: &Dictionary,
    octets: &[u8],
) -> Result<(), AllocError> {
    let mut rest = octets;
    while let Some((name, after)) = next_name(rest) {
        if let Some(named) = dictionary.by_name(name)
            && !ids.contains(&named.id)
        {
            ids.push(named.id)?;
        }
        rest = after;
    }
    Ok(())
}

// What is between the braces of an expansion, of what follows a `%`.
fn expanded(octets: &[u8]) -> &[u8] {
    match octets {
        [b'{', text @ ..] => text.split(|octet| *octet == b'}').next().unwrap_or(&[]),
        _ => &[],
    }
}

/// The attributes that a line of the policy names, each once: in what is shown of it, or in an expansion. A name that is
/// hidden otherwise may be a secret value.
pub(crate) fn named_in(
    alloc: Global,
    dictionary: &Dictionary,
    line: &[u8],
    shown: &[u8],
) -> Result<Vec<AttrId>, AllocError> {
    let mut ids = Vec::new(alloc);
    add_named(&mut ids, dictionary, shown)?;
    for part in line.split(|octet| *octet == b'%').skip(1) {
        add_named(&mut ids, dictionary, expanded(part))?;
    }
    Ok(ids)
}

/// The lines of a text, by their numbers from 1.
#[derive(Drop)]
pub struct SourceLines<'a> {
    lines: Vec<&'a [u8]>,
}

impl<'a> SourceLines<'a> {
    pub fn new(alloc: Global, text: &'a [u8]) -> Result<SourceLines<'a>, AllocError> {
        let mut lines = Vec::new(alloc);
        let mut rest = text;
        while let Some((line, after)) = next_line(rest) {
            lines.push(line)?;
            rest = after;
        }
        Ok(SourceLines { lines })
    }

    /// The number of lines.
    pub fn count(&self) -> usize {
        self.lines.len()
    }

    /// The line with this number; none where there is no such line.
    pub fn line(&self, number: usize) -> Option<&'a [u8]> {
        let index = number.checked_sub(1)?;
        self.lines.get(index).copied()
    }
}
