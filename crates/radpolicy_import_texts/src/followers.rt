//! What stands behind a secret value on its line, which may go on over the ends of lines that a `\` joins.

use crate::names::SecretNames;
use server_configuration::{Configuration, Content, Item};
use std::alloc::{AllocError, Global};

// A line of a file, and the first of those that are joined to it.
#[derive(Clone, Copy)]
struct Line<'a> {
    // The file from this line on.
    rest: &'a [u8],
    number: usize,
    first: usize,
}

// Whether a `\` joins a line to the next.
fn is_joined(line: &[u8]) -> bool {
    line.strip_suffix(b"\r").unwrap_or(line).ends_with(b"\\")
}

// The line after one.
fn next_line(line: Line<'_>) -> Line<'_> {
    let end = line.rest.iter().position(|octet| *octet == b'\n');
    let (text, rest) = line.rest.split_at(end.unwrap_or(line.rest.len()));
    let number = line.number.saturating_add(1);
    Line {
        rest: rest.strip_prefix(b"\n").unwrap_or(rest),
        number,
        first: if is_joined(text) { line.first } else { number },
    }
}

// A later line of a file, by its number.
fn line_at(line: Line<'_>, number: usize) -> Line<'_> {
    let mut found = line;
    for _ in line.number..number {
        found = next_line(found);
    }
    found
}

// The first line of each file.
fn first_lines<'a>(
    alloc: Global,
    configuration: &'a Configuration,
) -> Result<Vec<Line<'a>>, AllocError> {
    let mut lines = Vec::new(alloc);
    for file in &configuration.files {
        lines.push(Line {
            rest: file.octets.as_slice(),
            number: 1,
            first: 1,
        })?;
    }
    Ok(lines)
}

// The file of an item, and the first of the lines that are joined to its own. Items of a file come in the order of their
// lines.
fn place_of(lines: &mut [Line<'_>], item: &Item) -> (usize, usize) {
    match lines.get_mut(item.file) {
        Some(line) => {
            *line = line_at(*line, item.line);
            (item.file, line.first)
        }
        None => (item.file, item.line),
    }
}

/// Of each item of a configuration, whether it stands behind a secret value on its line.
pub(crate) fn followers(
    alloc: Global,
    names: &SecretNames<'_>,
    configuration: &Configuration,
) -> Result<Vec<bool>, AllocError> {
    let mut lines = first_lines(alloc, configuration)?;
    let mut found = Vec::new(alloc);
    let mut before: Option<(&Item, (usize, usize))> = None;
    let mut is_follower = false;
    for item in &configuration.items {
        let place = place_of(&mut lines, item);
        is_follower = match before {
            Some((other, line)) if line == place => {
                is_follower || is_secret_pair(names, configuration, other)?
            }
            _ => false,
        };
        found.push(is_follower)?;
        before = Some((item, place));
    }
    Ok(found)
}

fn is_secret_pair(
    names: &SecretNames<'_>,
    configuration: &Configuration,
    item: &Item,
) -> Result<bool, AllocError> {
    match &item.content {
        Content::Pair { .. } => names.item_speaks(configuration, item),
        _ => Ok(false),
    }
}
