//! What searches for patterns.

ghost use Rattle.std.specs.Prelude.{◌≡◌, All, IfSome};
ghost use Rattle.regex.specs.Bytes.{captures_haystack, captures_span, matcher_pattern};
ghost use Rattle.avp_patterns.specs.Matching.{IsWithin, groups_in, matches};
ghost use Rattle.avp_patterns.specs.internal.Searching.{SearchesFor};

use crate::patterns::Pattern;
use regex::bytes::{Captures, Matcher};
use std::marker::Model;

/// How many groups of a match are told: all of it, and the groups 1 to 9.
pub const MAX_GROUPS: usize = 10;

/// What searches for a pattern, seen by contracts as the pattern. It keeps what its searches found out about the
/// pattern, for which it may ask for memory; without, they take longer, and none is refused.
pub struct PatternMatcher<'p> {
    pattern: &'p Pattern,
    matcher: Matcher<'p>,
}

impl Drop for PatternMatcher<'_> {
    fn drop(self) {
        let PatternMatcher {
            pattern: _,
            matcher: _,
        } = self;
    }
}

impl<'p> Model for PatternMatcher<'p> {
    ghost use Rattle.regex.specs.Bytes.{matcher_pattern};
    ghost use Rattle.avp_patterns.specs.Patterns.{Written};
    ghost use Rattle.avp_patterns.specs.internal.Searching.{SearchesFor};

    ghost Value = { Written };

    ghost view = { λ m. m.pattern.now };

    ghost invariant = { λ m. SearchesFor m.pattern.now (matcher_pattern m.matcher) };
}

// Where a group begins and ends, if it took part.
fn span_in(captures: &Captures<'_, '_>, group: usize) -> Option<(usize, usize)>
    ensures span { result ≡ captures_span captures.now group }
    ensures within { IsWithin (captures_haystack captures.now) result }
{
    let found = captures.get(group)?;
    Some((found.start(), found.end()))
}

impl<'p> PatternMatcher<'p> {
    pub(crate) fn of(pattern: &'p Pattern, matcher: Matcher<'p>) -> PatternMatcher<'p>
        requires { SearchesFor pattern.now (matcher_pattern matcher) }
        ensures { result ≡ pattern.now }
    {
        PatternMatcher { pattern, matcher }
    }

    /// Whether the pattern matches some of the octets.
    pub fn is_match(&mut self, octets: &[u8]) -> bool
        ensures found { result ≡ matches self.old octets.now }
        ensures same { self.new ≡ self.old }
    {
        self.matcher.is_match(octets)
    }

    /// Where the groups of the leftmost match begin and end. A group that took no part has no span.
    ///
    /// ```rust
    /// let pattern = Pattern::read(alloc, b"^([a-z]+)@(x)?", flags)?;
    /// let mut matcher = pattern.matcher(alloc)?;
    /// let groups = matcher.captures(b"bob@example.org").ok_or("no match")?;
    /// assert_eq!(rt; (groups[0], groups[1], groups[2]), (Some((0, 4)), Some((0, 3)), None));
    /// ```
    pub fn captures(&mut self, octets: &[u8]) -> Option<[Option<(usize, usize)>; MAX_GROUPS]>
        ensures found { result ≡ groups_in self.old octets.now }
        ensures within { IfSome result (λ groups. All (IsWithin octets.now) groups) }
        ensures same { self.new ≡ self.old }
    {
        let captures = self.matcher.captures(octets)?;
        Some([
            span_in(&captures, 0),
            span_in(&captures, 1),
            span_in(&captures, 2),
            span_in(&captures, 3),
            span_in(&captures, 4),
            span_in(&captures, 5),
            span_in(&captures, 6),
            span_in(&captures, 7),
            span_in(&captures, 8),
            span_in(&captures, 9),
        ])
    }
}
