//! Tests of the public calls of `radpolicy_common`.

mod change_lines;
mod change_lists;
mod files;
mod jobs;
mod secrets;
mod texts;
