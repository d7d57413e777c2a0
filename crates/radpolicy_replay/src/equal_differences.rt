//! The differences that records have, each told once.

use radpolicy_replay_records::DifferenceCount;
use std::alloc::{AllocError, Global};

/// A difference, and which records have it.
#[derive(Drop)]
pub struct EqualDifference {
    pub records: u64,
    /// On one line.
    pub text: Vec<u8>,
    /// The names of the first records that have it.
    pub names: Vec<Vec<u8>>,
}

impl EqualDifference {
    /// The names, and a sign where there are more records.
    pub fn names_in_row(&self, alloc: Global) -> Result<Vec<u8>, AllocError> {
        let mut row = Vec::new(alloc);
        for (index, name) in self.names.iter().enumerate() {
            if index > 0 {
                row.extend_from_slice(b", ")?;
            }
            row.extend_from_slice(name)?;
        }
        if usize::try_from(self.records).is_ok_and(|records| records > self.names.len()) {
            row.extend_from_slice(b", ..")?;
        }
        Ok(row)
    }
}

// Whether the first line of a difference says nothing: the old result and the new one are the same.
fn is_of_one_result(line: &[u8]) -> bool {
    const ARROW: &[u8] = b" -> ";
    line.windows(ARROW.len())
        .position(|part| part == ARROW)
        .is_some_and(|end| line[..end] == line[end + ARROW.len()..])
}

// What a line of a difference adds to the row: nothing where it says no more than that the reply list differs.
fn part_of(index: usize, line: &[u8]) -> &[u8] {
    let part = line.trim_ascii();
    if index == 0 && is_of_one_result(part) || part == b"reply".as_slice() {
        &[]
    } else {
        part
    }
}

// The lines of a difference in one.
fn in_row(alloc: Global, difference: &[u8]) -> Result<Vec<u8>, AllocError> {
    let mut row = Vec::new(alloc);
    for (index, line) in difference.split(|octet| *octet == b'\n').enumerate() {
        let part = part_of(index, line);
        if !row.is_empty() && !part.is_empty() {
            row.push(b' ')?;
        }
        row.extend_from_slice(part)?;
    }
    Ok(row)
}

fn names_of(alloc: Global, lines: &[u8]) -> Result<Vec<Vec<u8>>, AllocError> {
    let mut names = Vec::new(alloc);
    for line in lines.split(|octet| *octet == b'\n') {
        if !line.is_empty() {
            names.push(Vec::from_slice(alloc, line)?)?;
        }
    }
    Ok(names)
}

// The places of those that so many records have or more: first those that most have.
fn places_in_order(
    alloc: Global,
    counts: &[DifferenceCount],
    least: u64,
) -> Result<Vec<usize>, AllocError> {
    let mut keyed = Vec::new(alloc);
    for (index, count) in counts.iter().enumerate() {
        if count.records >= least {
            keyed.push((u64::MAX - count.records, index))?;
        }
    }
    keyed.sort()?;
    keyed.iter().map(|key| key.1).collect(alloc)
}

/// The differences that so many records have or more, first those that most have.
pub fn equal_differences(
    alloc: Global,
    counts: &[DifferenceCount],
    least: u64,
) -> Result<Vec<EqualDifference>, AllocError> {
    let mut differences = Vec::new(alloc);
    for index in places_in_order(alloc, counts, least)? {
        let Some(count) = counts.get(index) else {
            continue;
        };
        differences.push(EqualDifference {
            records: count.records,
            text: in_row(alloc, count.difference.as_slice())?,
            names: names_of(alloc, count.names.as_slice())?,
        })?;
    }
    Ok(differences)
}
