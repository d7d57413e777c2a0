//! Which octets of a text are hidden: from some places on, to the ends of their lines.

use crate::halves::HIDDEN;
use crate::places::last_line;
use avp_dict::next_line;
use std::alloc::{AllocError, Global};

/// What is hidden of a text.
#[derive(Drop)]
pub(crate) struct Hidden {
    /// The places from which on the lines are hidden, in any order.
    from: Vec<usize>,
}

// How many octets two lines have in common before the first that differs.
fn common_length(line: &[u8], other: &[u8]) -> usize {
    let differs = line
        .iter()
        .zip(other)
        .position(|(octet, own)| *octet != *own);
    differs.unwrap_or(line.len().min(other.len()))
}

impl Hidden {
    /// Nothing.
    pub(crate) fn none(alloc: Global) -> Hidden {
        Hidden {
            from: Vec::new(alloc),
        }
    }

    pub(crate) fn allocator(&self) -> Global {
        *self.from.allocator()
    }

    /// What is from this place on is hidden as well.
    pub(crate) fn add(&mut self, place: usize) -> Result<(), AllocError> {
        self.from.push(place)?;
        Ok(())
    }

    /// What is shown otherwise is hidden as well: each line from the first octet on that is not shown as it is.
    pub(crate) fn add_unlike(&mut self, text: &[u8], shown: &[u8]) -> Result<(), AllocError> {
        let (mut rest, mut rest_shown) = (text, shown);
        for _ in 0..text.len() {
            let Some((line, after)) = next_line(rest) else {
                break;
            };
            let (line_shown, after_shown) = next_line(rest_shown).unwrap_or((&[], &[]));
            if line != line_shown {
                let start = text.len().saturating_sub(rest.len());
                self.add(start.saturating_add(common_length(line, line_shown)))?;
            }
            rest = after;
            rest_shown = after_shown;
        }
        Ok(())
    }

    /// Where what follows a place is no more hidden than what was hidden last: at the end of its line, if that was hidden
    /// beside the place, and else at the place.
    pub(crate) fn covered_to(&self, text: &[u8], place: usize) -> usize {
        let Some(hidden) = self.from.last() else {
            return place;
        };
        let (first, last) = (place.min(*hidden), place.max(*hidden));
        let rest = text.get(last..).unwrap_or(&[]);
        if text.get(first..last).unwrap_or(&[]).contains(&b'\n') {
            return place;
        }
        match rest.iter().position(|octet| *octet == b'\n') {
            Some(length) => last.saturating_add(length),
            None => text.len(),
        }
    }

    // The first place from which on is hidden what these octets of a line have.
    fn first_within(&self, start: usize, end: usize) -> Option<usize> {
        self.from
            .iter()
            .copied()
            .filter(|place| start <= *place && *place < end)
            .min()
    }

    /// How many octets are shown of a line that begins and ends at these places.
    pub(crate) fn kept(&self, start: usize, end: usize) -> usize {
        self.first_within(start, end)
            .unwrap_or(end)
            .saturating_sub(start)
    }

    /// Whether something is hidden of so many octets of a line, which begin after so many of the text.
    pub(crate) fn hides(&self, text: &[u8], offset: usize, length: usize) -> bool {
        let front = text.get(..offset).unwrap_or(text);
        let start = offset.saturating_sub(last_line(front).len());
        self.first_within(start, offset.saturating_add(length))
            .is_some()
    }

    /// What is shown of a part of a line, which begins after so many octets of the text.
    pub(crate) fn shown<'a>(&self, text: &[u8], offset: usize, part: &'a str) -> &'a str {
        if self.hides(text, offset, part.len()) {
            HIDDEN
        } else {
            part
        }
    }
}
