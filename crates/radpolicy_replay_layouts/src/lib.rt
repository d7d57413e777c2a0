//! How what is said of records is laid out: as tests of the Test Anything Protocol, and as JSON.
#![tactic(auto)]

mod json_texts;
mod test_lines;

pub use json_texts::{push_flag, push_string, push_strings};
pub use test_lines::{push_skipped, push_test};
