//! Help for a person who reads a fault: the place in the file, what was found there, and what to do.
//!
//! [`explain`] makes the help for a fault, [`print_with_help`] prints it after the fault's line, and
//! [`refuse_explained`] does both where help is wanted. [`warnings_text`] says what a policy that is read is warned of,
//! and [`stop_text`] why a run was stopped.
//! [`findings`] and [`without_statement`] serve those who go over a policy whole.
#![tactic(auto)]

mod allowances;
mod captures;
mod colours;
mod command_lines;
mod contexts;
mod dictionaries;
mod dictionary_lines;
mod explanations;
mod found;
mod groupings;
mod halves;
mod hidden;
mod names;
mod nearest;
mod one_line;
mod packets;
mod patterns;
mod places;
mod pointing;
mod policies;
mod policy_tokens;
mod printing;
mod refusing;
mod requests;
mod runs;
mod secret_words;
mod sources;
mod statements;
mod stops;
mod texts;
mod unclear_operands;
mod unknown_names;
mod unread_flows;
mod unread_secrets;
mod values;
mod warnings;
mod watching;
mod wishes;
mod written_pairs;

pub use command_lines::{explain_unread, explain_words};
pub use explanations::{explain, explain_by};
pub use names::explain_name;
pub use one_line::{sentences, split_place};
pub use pointing::{Pointed, point_at};
pub use printing::print_with_help;
pub use refusing::{
    refuse_at, refuse_explained, refuse_name, refuse_unread_explained, refuse_with_help,
    refuse_words_of, tell_fault, tell_help, tell_unread,
};
pub use sources::{STANDARD_INPUT, Source, Sources};
pub use statements::without_statement;
pub use stops::stop_text;
pub use unread_secrets::UnreadSecrets;
pub use warnings::{Advice, Finding, findings, warnings_text};
pub use wishes::is_help_wanted;
