//! What searches for the patterns of a policy.

ghost use Rattle.std.specs.Prelude.{◌≡◌, ◌<◌, All, IfOk, IfSome, IsTrue, length, slice_index_or};
ghost use Rattle.avp_patterns.specs.Matching.{IsWithin, groups_in, matches};
ghost use Rattle.avp_unlang.specs.PolicyPatterns.{is_among, same_pattern};

use avp_patterns::{MAX_GROUPS, Pattern, PatternFlags, PatternMatcher};
use std::alloc::{AllocError, Global};
use std::marker::Model;

/// What searches for the patterns of a policy, seen by contracts as these patterns.
pub struct Matchers<'p> {
    patterns: &'p [Pattern],
    // One for each of them.
    matchers: Vec<PatternMatcher<'p>>,
}

impl Drop for Matchers<'_> {
    fn drop(self) {
        let Matchers {
            patterns: _,
            matchers: _,
        } = self;
    }
}

impl<'p> Model for Matchers<'p> {
    ghost use Rattle.std.specs.Prelude.{◌≡◌, List};
    ghost use Rattle.avp_patterns.specs.Patterns.{Written};

    ghost Value = { List Written };

    ghost view = { λ m. m.patterns.now };

    ghost invariant = { λ m. m.matchers.items ≡ m.patterns.now };
}

#[tactic(auto, unfolding(crate::specs::PolicyPatterns::same_pattern))]
pub(crate) fn is_pattern(pattern: &Pattern, text: &[u8], flags: PatternFlags) -> bool
    ensures { result ≡ same_pattern pattern.now (record { text = text.now; flags = flags }) }
{
    pattern.text() == text
        && pattern.flags().ignore_case == flags.ignore_case
        && pattern.flags().multi_line == flags.multi_line
}

impl<'p> Matchers<'p> {
    /// What searches for each of these patterns.
    pub fn new(alloc: Global, patterns: &'p [Pattern]) -> Result<Matchers<'p>, AllocError>
        ensures { IfOk result (λ matchers. matchers ≡ patterns.entry.now) }
    {
        let mut matchers = Vec::new(alloc);
        for pattern in patterns {
            matchers.push(pattern.matcher(alloc)?)?;
        }
        Ok(Matchers { patterns, matchers })
    }

    // The place of this pattern.
    fn place_of(&self, text: &[u8], flags: PatternFlags) -> usize
        requires { IsTrue (is_among self.now (record { text = text.now; flags = flags })) }
        ensures within { result < length self.now }
        ensures same { slice_index_or self.now result (record { text = text.now; flags = flags })
            ≡ record { text = text.now; flags = flags } }
    {
        for place in 0..self.patterns.len() {
            if is_pattern(&self.patterns[place], text, flags) {
                return place;
            }
        }
        unreachable!()
    }

    /// Whether one of the patterns matches some of the octets.
    pub(crate) fn is_match(&mut self, text: &[u8], flags: PatternFlags, octets: &[u8]) -> bool
        requires { IsTrue (is_among self.old (record { text = text.now; flags = flags })) }
        ensures found { result ≡ matches (record { text = text.now; flags = flags }) octets.now }
        ensures same { self.new ≡ self.old }
    {
        let place = self.place_of(text, flags);
        self.matchers[place].is_match(octets)
    }

    /// Where the groups of the leftmost match of one of the patterns begin and end.
    pub(crate) fn captures(
        &mut self,
        text: &[u8],
        flags: PatternFlags,
        octets: &[u8],
    ) -> Option<[Option<(usize, usize)>; MAX_GROUPS]>
        requires { IsTrue (is_among self.old (record { text = text.now; flags = flags })) }
        ensures found { result ≡ groups_in (record { text = text.now; flags = flags }) octets.now }
        ensures within { IfSome result (λ groups. All (IsWithin octets.now) groups) }
        ensures same { self.new ≡ self.old }
    {
        let place = self.place_of(text, flags);
        self.matchers[place].captures(octets)
    }
}
