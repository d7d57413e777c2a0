//! Options, by their names.

use clap::{Arg, ArgAction};
use std::alloc::Global;

pub const REQUEST: &str = "request";

pub const RECORD: &str = "record";

pub const SERVER: &str = "server";

pub const POLICY: &str = "policy";

pub const HEX: &str = "hex";

pub const ACCOUNTING: &str = "acct";

pub const SECRET: &str = "secret";

pub const REPLY: &str = "reply";

pub const CONTROL: &str = "control";

pub const ZONE: &str = "zone";

pub const SHOW_SECRETS: &str = "show-secrets";

pub const HIDE: &str = "hide";

pub const FOLDER: &str = "folder";

pub const DICTIONARY: &str = "dictionary";

/// `--NAME VALUE`.
pub fn valued<'a>(alloc: Global, name: &'a str, value: &'a str, help: &'a str) -> Arg<'a> {
    Arg::new(alloc, name)
        .long(name)
        .value_name(value)
        .action(ArgAction::Set)
        .help(help)
}

/// The same with a letter for its name.
pub fn lettered<'a>(
    alloc: Global,
    name: &'a str,
    letter: char,
    value: &'a str,
    help: &'a str,
) -> Arg<'a> {
    Arg::new(alloc, name)
        .short(letter)
        .value_name(value)
        .action(ArgAction::Set)
        .help(help)
}

/// `--NAME VALUE`, which may be given more than once.
pub fn repeated<'a>(alloc: Global, name: &'a str, value: &'a str, help: &'a str) -> Arg<'a> {
    Arg::new(alloc, name)
        .long(name)
        .value_name(value)
        .action(ArgAction::Append)
        .help(help)
}

/// `--NAME`.
pub fn flag<'a>(alloc: Global, name: &'a str, help: &'a str) -> Arg<'a> {
    Arg::new(alloc, name)
        .long(name)
        .action(ArgAction::SetTrue)
        .help(help)
}

pub fn record_option<'a>(alloc: Global) -> Arg<'a> {
    let help = "The request is the record that radpolicy-replay calls so, as (4) of a server's log";
    valued(alloc, RECORD, "NAME", help)
}

pub fn server_option<'a>(alloc: Global) -> Arg<'a> {
    let help =
        "Of a server's log the requests out of tunnels, as of PEAP, that go to this virtual server";
    valued(alloc, SERVER, "NAME", help)
}

pub fn hex_flag<'a>(alloc: Global) -> Arg<'a> {
    let help = "The request is a packet in hexadecimal digits; needs -S";
    flag(alloc, HEX, help)
}

pub fn accounting_flag<'a>(alloc: Global) -> Arg<'a> {
    let help = "The request lines are an Accounting-Request, not an Access-Request";
    flag(alloc, ACCOUNTING, help)
}

pub fn reply_option<'a>(alloc: Global) -> Arg<'a> {
    valued(alloc, REPLY, "LINES", "The reply list's first pairs")
}

pub fn control_option<'a>(alloc: Global) -> Arg<'a> {
    valued(alloc, CONTROL, "LINES", "The control list's first pairs")
}

pub fn zone_option<'a>(alloc: Global) -> Arg<'a> {
    let help = "What a date's zone other than UTC stands for, as +01:00";
    valued(alloc, ZONE, "OFFSET", help)
}

pub fn hide_option<'a>(alloc: Global) -> Arg<'a> {
    let help = "Hides an attribute's values as those of secret ones; may be given more than once";
    repeated(alloc, HIDE, "NAME", help)
}

pub fn folder_option<'a>(alloc: Global) -> Arg<'a> {
    let help =
        "The folder of the dictionaries [default: $RADPOLICY_DICTIONARIES, /usr/share/freeradius]";
    lettered(alloc, FOLDER, 'D', "FOLDER", help)
}

pub fn dictionary_files<'a>(alloc: Global) -> Arg<'a> {
    Arg::new(alloc, DICTIONARY)
        .value_name("DICTIONARY")
        .num_args(1..)
        .action(ArgAction::Append)
        .help("Dictionary files, the main one first, as in /usr/share/freeradius/dictionary*")
}
