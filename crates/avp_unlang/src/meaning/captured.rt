//! What comparisons with patterns capture in a run.

ghost use Rattle.std.specs.Prelude.{◌≡◌, ◌≤◌, All, IfOk, IsTrue, false, length, map, true, vec_capacity};
ghost use Rattle.avp_forms.specs.Expansions.{max_expansion};
ghost use Rattle.avp_patterns.specs.Matching.{IsWithin};
ghost use Rattle.avp_unlang.specs.Captures.{captured, no_captures, texts_at};
ghost use Rattle.avp_unlang.specs.internal.MovedGroups.{IsMovable, moved, start_in};

use crate::meaning::matching::MAX_OCTETS;
use avp_patterns::MAX_GROUPS;
use std::alloc::{AllocError, Global};
use std::marker::Model;

// The most octets that are put in for a value: `0x` and two digits for each octet of the longest one.
const MAX_EXPANSION: usize = 2 + 2 * MAX_OCTETS;

/// What the last comparison with a pattern captured in a run, seen by contracts as the octets of each group. Where it is
/// made to keep what comparisons capture, it has the memory for any of them from the first on.
pub struct Captured {
    keeps: bool,
    // What was compared with the pattern.
    octets: Vec<u8>,
    // Where the groups begin and end in it.
    groups: [Option<(usize, usize)>; MAX_GROUPS],
}

impl Drop for Captured {
    fn drop(self) {
        let Captured {
            keeps: _,
            octets: _,
            groups: _,
        } = self;
    }
}

impl Model for Captured {
    ghost use Rattle.std.specs.Prelude.{◌≤◌, All, IsTrue, vec_capacity};
    ghost use Rattle.avp_patterns.specs.Matching.{IsWithin};
    ghost use Rattle.avp_unlang.specs.Captures.{Kept, texts_at};
    ghost use Rattle.avp_forms.specs.Expansions.{max_expansion};

    ghost Value = { Kept };

    ghost view = { λ c. record { keeps = c.keeps; captures = texts_at c.octets.items c.groups } };

    ghost invariant = { λ c. All (IsWithin c.octets.items) c.groups
        × (IsTrue c.keeps → max_expansion ≤ vec_capacity c.octets) };
}

// These octets in place of those that were there.
fn refill(room: &mut Vec<u8>, octets: &[u8])
    requires { length octets.now ≤ vec_capacity room.old }
    ensures items { room.new.items ≡ octets.now }
    ensures capacity { vec_capacity room.old ≤ vec_capacity room.new }
{
    room.clear();
    room.extend_from_slice(octets).unwrap();
}

// Where a group begins; at the beginning where it took no part.
fn start_of(groups: &[Option<(usize, usize)>], group: u8) -> usize
    ensures { result ≡ start_in groups.now group }
{
    match groups.get(usize::from(group)) {
        Some(Some((from, _))) => *from,
        _ => 0,
    }
}

// A group in a text, as one in a longer text in which that begins here.
fn moved(span: Option<(usize, usize)>, by: usize) -> Option<(usize, usize)>
    requires { IsMovable by span }
    ensures { result ≡ moved by span }
{
    let (from, to) = span?;
    Some((from + by, to + by))
}

fn all_moved(
    groups: [Option<(usize, usize)>; MAX_GROUPS],
    by: usize,
) -> [Option<(usize, usize)>; MAX_GROUPS]
    requires { All (IsMovable by) groups }
    ensures { result ≡ map (moved by) groups }
{
    let mut all = groups;
    for place in 0..MAX_GROUPS {
        all[place] = moved(all[place], by);
    }
    all
}

impl Captured {
    /// Nothing was captured yet, and what comparisons capture is kept.
    pub fn new(alloc: Global) -> Result<Captured, AllocError>
        ensures { IfOk result (λ c. c ≡ record { keeps = true; captures = no_captures }) }
    {
        Ok(Captured {
            keeps: true,
            octets: Vec::with_capacity(alloc, MAX_EXPANSION)?,
            groups: [None; MAX_GROUPS],
        })
    }

    /// Nothing was captured, and none of it is kept; for runs of policies that don't look at it. It takes no memory.
    pub fn none(alloc: Global) -> Captured
        ensures { result ≡ record { keeps = false; captures = no_captures } }
    {
        Captured {
            keeps: false,
            octets: Vec::new(alloc),
            groups: [None; MAX_GROUPS],
        }
    }

    /// Whether what comparisons capture is kept.
    pub fn keeps(&self) -> bool
        ensures { result ≡ self.now.keeps }
    {
        self.keeps
    }

    /// The octets of a group; a group that took no part is empty.
    pub fn group(&self, group: u8) -> &[u8]
        ensures { result.now ≡ captured group self.now.captures }
    {
        let Some(found) = self.groups.get(usize::from(group)) else {
            return &[];
        };
        match *found {
            Some((from, to)) => &self.octets[from..to],
            None => &[],
        }
    }

    /// Nothing is captured any more.
    pub fn clear(&mut self)
        ensures { self.new ≡ record self.old { captures = no_captures } }
    {
        self.groups = [None; MAX_GROUPS];
    }

    /// Keeps these groups of octets that were compared with a pattern.
    pub(crate) fn keep(&mut self, octets: &[u8], groups: [Option<(usize, usize)>; MAX_GROUPS])
        requires keeps { IsTrue self.old.keeps }
        requires within { All (IsWithin octets.now) groups }
        requires length { length octets.now ≤ max_expansion }
        ensures { self.new ≡ record self.old { captures = texts_at octets.now groups } }
    {
        refill(&mut self.octets, octets);
        self.groups = groups;
    }

    /// Keeps these groups of what a group has now.
    pub(crate) fn keep_within(&mut self, group: u8, groups: [Option<(usize, usize)>; MAX_GROUPS])
        requires { All (IsWithin (captured group self.old.captures)) groups }
        ensures { self.new ≡ record self.old {
          captures = texts_at (captured group self.old.captures) groups;
        } }
    {
        let start = start_of(&self.groups, group);
        self.groups = all_moved(groups, start);
    }
}
