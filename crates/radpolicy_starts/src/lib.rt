//! What the run begins with that a program shows: the words that say it, the files that these name, the request of a
//! record, and the start.
#![tactic(auto)]

mod opening;
mod plans;
mod refusals;
mod start_files;

pub use opening::open_start;
pub use plans::StartPlan;
pub use refusals::refuse_files;
pub use start_files::StartFiles;
