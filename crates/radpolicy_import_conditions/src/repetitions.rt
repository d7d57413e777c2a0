//! Repetitions in regular expressions.

use crate::patterns::{length_past, next_piece};
use std::alloc::{AllocError, Global};
use std::mem;

// How often a part may come.
#[derive(Clone, Copy)]
struct Repetition {
    may_be_none: bool,
    may_be_more: bool,
    length: usize,
}

// The alternatives of a group so far.
#[derive(Clone, Copy)]
struct Group {
    // Whether one before the last may match nothing.
    has_empty: bool,
    // Whether the last takes an octet at least.
    takes_one: bool,
}

// What is open at a place of a regular expression.
#[derive(Drop)]
struct Reading {
    outer: Vec<Group>,
    group: Group,
    is_in_class: bool,
}

const ONCE: Repetition = Repetition {
    may_be_none: false,
    may_be_more: false,
    length: 0,
};

const EMPTY: Group = Group {
    has_empty: false,
    takes_one: false,
};

impl Group {
    fn may_be_empty(self) -> bool {
        self.has_empty || !self.takes_one
    }

    // With a part more in its last alternative.
    fn with(self, takes_one: bool) -> Group {
        Group {
            takes_one: self.takes_one || takes_one,
            ..self
        }
    }

    // With another alternative.
    fn or_other(self) -> Group {
        Group {
            has_empty: self.may_be_empty(),
            takes_one: false,
        }
    }
}

// What follows the first octets of a text.
fn past(text: &[u8], length: usize) -> &[u8] {
    match text.split_at_checked(length) {
        Some((_, rest)) => rest,
        None => &[],
    }
}

// The repetition that a text begins with. A `?` or a `+` may be behind it.
fn repetition_of(text: &[u8]) -> Repetition {
    let (may_be_none, may_be_more, length) = match text {
        [b'*', ..] => (true, true, 1),
        [b'+', ..] => (false, true, 1),
        [b'?', ..] => (true, false, 1),
        [b'{', b'0', b'}', ..] => (true, false, 3),
        [b'{', b'1', b'}', ..] => (false, false, 3),
        [b'{', b'0', ..] => (true, true, length_past(text, b'}')),
        [b'{', ..] => (false, true, length_past(text, b'}')),
        _ => return ONCE,
    };
    let length = match past(text, length) {
        [b'?' | b'+', ..] => length.saturating_add(1),
        _ => length,
    };
    Repetition {
        may_be_none,
        may_be_more,
        length,
    }
}

// How long the beginning of a group is; all of it, and true, where flags are all that there is.
fn group_start(text: &[u8]) -> (usize, bool) {
    match text {
        [_, b'?', b'P' | b'<', ..] => (length_past(text, b'>'), false),
        [_, b'?', ..] => {
            let (named, alone) = (length_past(text, b':'), length_past(text, b')'));
            (named.min(alone), alone < named)
        }
        _ => (1, false),
    }
}

// Whether a part that is no group takes no octet: an edge of a line, a word or the text.
fn is_edge(text: &[u8]) -> bool {
    matches!(
        text,
        [b'^' | b'$', ..] | [b'\\', b'b' | b'B' | b'A' | b'z' | b'<' | b'>', ..]
    )
}

impl Reading {
    // Passes the beginning of a group.
    fn open(&mut self, text: &[u8]) -> Result<usize, AllocError> {
        let (length, has_flags) = group_start(text);
        if !has_flags {
            let group = mem::replace(&mut self.group, EMPTY);
            self.outer.push(group)?;
        }
        Ok(length)
    }

    // Passes the end of a group with its repetition; none where it may match nothing, and come again.
    fn close(&mut self, after: &[u8]) -> Option<usize> {
        let repetition = repetition_of(after);
        let may_be_empty = self.group.may_be_empty();
        if may_be_empty && repetition.may_be_more {
            return None;
        }
        let outer = self.outer.pop().unwrap_or(EMPTY);
        self.group = outer.with(!may_be_empty && !repetition.may_be_none);
        Some(repetition.length.saturating_add(1))
    }

    // Passes what is no group, with its repetition.
    fn part(&mut self, text: &[u8]) -> usize {
        let takes_one = self.is_in_class || !is_edge(text);
        let piece = next_piece(text, self.is_in_class, false);
        self.is_in_class = piece.is_in_class;
        if piece.is_in_class {
            return piece.length;
        }
        let repetition = repetition_of(past(text, piece.length));
        self.group = self.group.with(takes_one && !repetition.may_be_none);
        piece.length.saturating_add(repetition.length)
    }

    // Passes the part that a text begins with; none where it is the end of such a group.
    fn pass(&mut self, text: &[u8]) -> Result<Option<usize>, AllocError> {
        match text {
            [b'(', ..] if !self.is_in_class => Ok(Some(self.open(text)?)),
            [b')', after @ ..] if !self.is_in_class => Ok(self.close(after)),
            [b'|', ..] if !self.is_in_class => {
                self.group = self.group.or_other();
                Ok(Some(1))
            }
            _ => Ok(Some(self.part(text))),
        }
    }
}

/// Whether a regular expression may have a group that matches nothing and comes again.
pub(crate) fn repeats_nothing(alloc: Global, pattern: &[u8]) -> Result<bool, AllocError> {
    let mut reading = Reading {
        outer: Vec::new(alloc),
        group: EMPTY,
        is_in_class: false,
    };
    let mut from = 0usize;
    for place in 0..pattern.len() {
        if place < from {
            continue;
        }
        match reading.pass(pattern.split_at(place).1)? {
            Some(length) => from = place.saturating_add(length),
            None => return Ok(true),
        }
    }
    Ok(false)
}
