//! Makes packets of the lines that servers and tools print: of a record's request, and of the reply to it.
#![tactic(auto)]

mod faults;
mod lines;
mod packets;

pub use faults::TextFault;
pub use packets::{reply_code, reply_packet, request_code, request_packet};
