//! Which lines of a policy changed what a run ends with.
#![tactic(auto)]

mod differences;
mod instances;
mod runs;

pub use differences::{Difference, PolicyLine, Runs, has_line};
pub use runs::{changing_line, stopping_line};
