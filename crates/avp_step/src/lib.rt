//! A policy run as steps, forward and back over any store.
#![tactic(auto)]

mod frames;
mod labels;
mod lines;
mod machines;
mod marks;
mod runs;
mod searches;
mod steppers;

pub use labels::{Label, Move, Moved};
pub use runs::{Ended, run_with};
pub use searches::Searches;
pub use steppers::{Stepper, run};
