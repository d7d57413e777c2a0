//! Warnings of a policy: where it is right by the rules of the language, and a server would do otherwise.
//!
//! [`warnings_of`] gives those of a policy's statements, [`count_warnings`] those that depend on how many instances of
//! an attribute there may be, [`repeated_conditions`] those of branches that are never taken, [`answered_warnings`]
//! those of attributes that a server or one of its modules answers, and [`warns_of_absence`] asks it of a condition.
//! [`regroups`] asks it of the signs between conditions, which a tree does not have. [`bare_names`] gives the warnings of
//! words without quotes in a policy's text, and [`written_values`] those of values and patterns in it.
#![tactic(auto)]

mod absences;
mod bare_words;
mod counts;
mod groupings;
mod mentions;
mod passages;
mod patterns;
mod repeats;
mod server_attributes;
mod values;
mod warnings;

pub use absences::{warns_of_absence, warns_of_negations};
pub use bare_words::{LIST_FRONTS, REQUEST_FRONTS, bare_names};
pub use groupings::{Joint, regroups};
pub use passages::count_warnings;
pub use repeats::repeated_conditions;
pub use server_attributes::{
    MODULE_ATTRIBUTES, MODULE_ENDINGS, PACKET_ATTRIBUTES, SERVER_ATTRIBUTES, answered_warnings,
};
pub use values::written_values;
pub use warnings::{Reason, Warning, warnings_of};
