//! A debugger for policies: the commands that walk through a run, forward and back, and what is shown at each place.
#![tactic(auto)]

mod commands;
mod edited_lines;
mod explanations;
mod histories;
mod instances;
mod listings;
mod moves;
mod sessions;
mod settings;
mod showings;
mod sources;
mod steps;
mod words;

pub use commands::Command;
pub use explanations::why_text;
pub use histories::{history, history_text};
pub use instances::instances_text;
pub use listings::{around_text, breaks_text, lists_text, source_text, trace_text};
pub use sessions::Session;
pub use settings::with_set;
pub use showings::{change_text, list_text};
pub use sources::SourceLines;
pub use steps::{Step, fails_after, has_step_on, line_of, nearest_line};
pub use words::{Asked, HELP_TEXT, read_command};
