//! Lines in octets of attributes whose values have tags.

use crate::item_readers::PairLines;
use avp_lists::List;
use radpolicy_import_conditions::{TaggedLine, UpdateLine};
use std::alloc::{AllocError, Global};

/// Those of a policy so far, each list, attribute and tag once.
#[derive(Drop)]
pub(crate) struct TaggedLines {
    lines: Vec<TaggedLine>,
}

impl TaggedLines {
    pub(crate) fn new(alloc: Global) -> TaggedLines {
        TaggedLines {
            lines: Vec::new(alloc),
        }
    }

    /// How many there are.
    pub(crate) fn len(&self) -> usize {
        self.lines.len()
    }

    /// Takes back those after so many.
    pub(crate) fn truncate(&mut self, count: usize) {
        self.lines.truncate(count);
    }

    pub(crate) fn add(&mut self, line: TaggedLine) -> Result<(), AllocError> {
        let is_known = self.lines.iter().any(|other| {
            other.list == line.list && other.id.equals(line.id) && other.tag == line.tag
        });
        if is_known {
            Ok(())
        } else {
            Ok(self.lines.push(line)?)
        }
    }

    // Whether there may be instances of the attribute with another tag: the request's tags are not known.
    fn may_have_others(&self, line: TaggedLine) -> bool {
        line.list == List::Request
            || self.lines.iter().any(|other| {
                other.list == line.list && other.id.equals(line.id) && other.tag != line.tag
            })
    }

    fn are_hit_by_one(&self, line: &UpdateLine) -> bool {
        match line.tagged {
            Some(tagged) => tagged.minds_others && self.may_have_others(tagged),
            None => false,
        }
    }

    /// Whether lines would do something else with instances with another tag than a server's, where there may be some.
    pub(crate) fn are_hit_by(&self, lines: &PairLines) -> bool {
        match lines {
            PairLines::One(line) => self.are_hit_by_one(line),
            PairLines::Chosen(lines) => lines
                .iter()
                .any(|chosen| self.are_hit_by_one(&chosen.line)),
        }
    }
}
