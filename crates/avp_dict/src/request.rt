//! Request lines.

pub mod faults;
pub mod lines;
pub mod readers;
pub(crate) mod refusals;
pub mod tokens;
