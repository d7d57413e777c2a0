//! Two texts, compared as they come: the first line in which they differ, whatever their length.
#![tactic(auto)]

mod comparisons;
mod lines;
mod watched;

pub use comparisons::{Comparison, OtherLine};
pub use lines::MAX_LINE_OCTETS;
pub use watched::Watched;
