//! What programs beside `radpolicy` share: files and their faults, changes from one list to the next, words for what a
//! run tells, JSON strings, secret values, and what may go to a terminal.
#![tactic(auto)]

mod alignments;
mod attribute_names;
mod change_lists;
mod change_texts;
mod dictionary_files;
mod digit_runs;
mod elements;
mod file_kinds;
mod files;
mod inputs;
mod jobs;
mod json_strings;
mod marks;
mod matchings;
mod new_files;
mod output_faults;
mod output_paths;
mod outputs;
mod pieces;
mod places;
mod policy_texts;
mod programs;
mod proxy_states;
mod redactions;
mod refusals;
mod secret_attributes;
mod secret_flows;
mod secret_words;
mod terminals;
mod words;

pub use attribute_names::named_attributes;
pub use change_lists::{Change, changes};
pub use change_texts::{change_lines, pair_line};
pub use dictionary_files::{dictionaries_meant, lent_paths};
pub use digit_runs::spelled_octets;
pub use file_kinds::{FileKind, file_kind};
pub use files::{
    Unread, read_dictionaries, read_dictionary_set, read_file, read_optional, read_standard_input,
};
pub use inputs::Inputs;
pub use jobs::job_of;
pub use json_strings::{Escaping, push_json_string};
pub use marks::{Comments, mark_line};
pub use output_faults::{OutputFault, Refusal, refuse_outputs};
pub use outputs::{Call, Output, Outputs};
pub use policy_texts::{has_secret_references, policy_shown, unread_shown};
pub use programs::{command_words, show_help};
pub use proxy_states::{PROXY_STATE, sends_hidden_proxy_state};
pub use redactions::{Hiding, Redaction, SecretValues};
pub use refusals::{refuse, refuse_early, refuse_kind, refuse_unread};
pub use secret_attributes::{
    PLAIN_ENDINGS, SECRET_ENDINGS, SECRET_IDS, SECRET_WORDS, SecretAttributes, is_secret_name,
    is_secret_text,
};
pub use terminals::{LineBreaks, PLAIN_STYLE, Stream, Style, visible_text};
pub use words::reason_text;
