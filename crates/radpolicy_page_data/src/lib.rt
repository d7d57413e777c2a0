//! What a page shows of a run: its positions with what changed at each, the policy's text and the packet that is sent,
//! as JSON that may be part of HTML, with secret values hidden.
#![tactic(auto)]

mod differences;
mod faults;
mod json;
mod markup;
mod packets;
mod pages;
mod positions;
mod splices;

pub use faults::PageFault;
pub use pages::{Page, page_of};
pub use splices::Splice;
