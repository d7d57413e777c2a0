//! Reads requests and their replies out of what servers and tools print, a line at a time.
#![tactic(auto)]

mod attributes;
mod formats;
mod headings;
mod marks;
mod open_records;
mod reader;
mod records;
mod texts;

pub use formats::{Format, format_of};
pub use marks::receiving_server;
pub use reader::{MAX_OPEN, Reader};
pub use records::{Code, MAX_LINES, MAX_OCTETS, Record, Reply};
