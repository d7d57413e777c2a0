//! What runs of a policy search with.

ghost use Rattle.std.specs.Prelude.{◌≡◌, ◌||◌, IfOk, false};
ghost use Rattle.avp_unlang.specs.Captures.{no_captures};

use avp_patterns::Pattern;
use avp_unlang::{Captured, Matchers};
use std::alloc::{AllocError, Global};
use std::marker::Model;

/// What runs of a policy search with, kept from one run to the next: what searches for each of its patterns, and room
/// for what they capture. The room is made for the first run that looks at it; later ones take no memory for that. What
/// an earlier run captured is never seen.
pub struct Searches<'p> {
    matchers: Matchers<'p>,
    captured: Captured,
}

impl Drop for Searches<'_> {
    fn drop(self) {
        let Searches {
            matchers: _,
            captured: _,
        } = self;
    }
}

impl<'p> Model for Searches<'p> {
    ghost use Rattle.avp_step.specs.Searches.{Searching};

    ghost Value = { Searching };

    ghost view = { λ s. record { patterns = s.matchers; has_room = s.captured.keeps } };
}

impl<'p> Searches<'p> {
    /// What searches for each of these patterns, with no room for what they capture yet.
    pub fn new(alloc: Global, patterns: &'p [Pattern]) -> Result<Searches<'p>, AllocError>
        ensures { IfOk result (λ searches. searches
            ≡ record { patterns = patterns.entry.now; has_room = false }) }
    {
        Ok(Searches {
            matchers: Matchers::new(alloc, patterns)?,
            captured: Captured::none(alloc),
        })
    }

    /// What a run leaves.
    pub(crate) fn of_parts(matchers: Matchers<'p>, captured: Captured) -> Searches<'p>
        ensures { result ≡ record { patterns = matchers.entry; has_room = captured.keeps } }
    {
        Searches { matchers, captured }
    }

    /// What a run begins with: nothing is captured, and there is room where there was some or where it is asked for.
    pub(crate) fn into_parts(
        self,
        alloc: Global,
        wants_room: bool,
    ) -> Result<(Matchers<'p>, Captured), AllocError>
        ensures matchers { IfOk result (λ parts. parts.0 ≡ self.entry.patterns) }
        ensures captured { IfOk result (λ parts. parts.1
            ≡ record { keeps = self.entry.has_room || wants_room; captures = no_captures }) }
    {
        let Searches {
            matchers,
            mut captured,
        } = self;
        if wants_room && !captured.keeps() {
            return Ok((matchers, Captured::new(alloc)?));
        }
        captured.clear();
        Ok((matchers, captured))
    }
}
