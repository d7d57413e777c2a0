//! What is shown of a server's text, in reports and in comments: without control characters, and without what stands
//! beside secret attributes.
#![tactic(auto)]

mod comments;
mod concealed;
mod followers;
mod items;
mod names;
mod words;

pub use comments::carried_policy;
pub use items::{shown_expansion, shown_item};
pub use names::SecretNames;
