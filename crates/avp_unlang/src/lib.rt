//! Policies: statements that set attributes, in the form of unlang(5), as a text and as a tree, and what they mean.
//!
//! [`read_policy`] reads a text by a dictionary, and [`Policy::statements`] lends what it spells. [`holds`] decides a
//! condition, and [`resolve`] makes the pair of an update line.
#![tactic(auto)]

mod boxed;
mod codes;
mod faults;
mod items;
mod meaning;
mod text;
mod tree;

pub use boxed::Boxed;
pub use codes::Code;
pub use faults::{PolicyFault, PolicyKind};
pub use items::Items;
pub use meaning::captured::Captured;
pub use meaning::evaluating::evaluate;
pub use meaning::laws::captures_unused;
pub use meaning::matchers::Matchers;
pub use meaning::matching::holds_by;
pub use meaning::reasons::Reason;
pub use meaning::resolving::{Unresolved, resolve, resolve_by};
pub use meaning::truth::holds;
pub use text::first_tokens::{FirstToken, first_token};
pub use text::policies::{
    Policy, keeps_reply_clean, one_policy, plain_has_no_patterns, read_policy, refused_once, size,
};
pub use text::tokens::{Excerpt, Matcher, Sign, Token};
pub use tree::{
    Block, Branch, Branches, Comparand, Comparison, Cond, GroupMatching, Line, Lines, Matching,
    MeantComparand, MeantComparison, Part, Parts, Relation, Source, Statement, TextComparison,
    TextSide,
};
