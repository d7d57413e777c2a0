//! What lines and conditions mean in a state.

pub mod captured;
pub mod evaluating;
pub mod laws;
pub mod matchers;
pub mod matching;
pub mod reasons;
pub mod resolving;
pub mod texts;
pub mod truth;
