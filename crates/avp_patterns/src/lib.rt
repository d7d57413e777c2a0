//! Regular expressions of policies, matched as a RADIUS server matches them: over octets, where no octet over 127 is a
//! letter, a digit or a space.
//!
//! [`Pattern::read`] reads a pattern, and [`Pattern::matcher`] makes what searches for it.
#![tactic(auto)]

mod faults;
mod flags;
mod laws;
mod matchers;
mod patterns;

pub use faults::PatternFault;
pub use flags::PatternFlags;
pub use laws::matches_by_language;
pub use matchers::{MAX_GROUPS, PatternMatcher};
pub use patterns::{Pattern, check_pattern};
