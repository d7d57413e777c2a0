//! The options that the programs beside `radpolicy` share, and what their words ask for.
#![tactic(auto)]

mod found;
mod options;

pub use found::{matches_of, record_in, server_in, shown_secrets, words_in, zone_in};
pub use options::{
    ACCOUNTING, CONTROL, DICTIONARY, FOLDER, HEX, HIDE, POLICY, RECORD, REPLY, REQUEST, SECRET,
    SERVER, SHOW_SECRETS, ZONE, accounting_flag, control_option, dictionary_files, flag,
    folder_option, hex_flag, hide_option, lettered, record_option, repeated, reply_option,
    server_option, valued, zone_option,
};
