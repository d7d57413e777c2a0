//! Why the values of options are refused.

use crate::command_line::{
    AUTHENTICATOR, DICTIONARY, SECRET, authenticator_of, command_in, form_of, identifier_of,
    program, text_in, texts_in,
};
use crate::jobs::{Command, Form};
use crate::plans::has_distinct_names;
use clap::ArgMatches;
use std::alloc::{AllocError, Global};
use std::convert::AsStr;

// What the Identifier of a request in this form may be.
fn identifier_text(form: Form) -> &'static str {
    match form {
        Form::Hex => "-i is refused with a packet, which has an Identifier of its own",
        Form::Access | Form::Accounting => "-i takes a number from 0 to 255",
    }
}

// What is wrong with options that do not go together; the empty text where nothing is.
fn rules_text(command: Command, form: Form, secret: bool, authenticator: bool) -> &'static str {
    match (command, form, secret, authenticator) {
        (Command::Run | Command::Step, Form::Hex, false, _) => {
            "--hex needs -S and the file that has the client's secret"
        }
        (Command::Run, Form::Hex, true, true) => {
            "--authenticator is refused with --hex: the packet has its own"
        }
        (Command::Run | Command::Encode, Form::Access, true, false) => {
            "-S needs --authenticator and 32 hexadecimal digits for request lines; for a trial any \
            will do, as 00000000000000000000000000000000"
        }
        (Command::Run, Form::Access, false, true) => "--authenticator needs -S for request lines",
        (Command::Run | Command::Encode, Form::Accounting, _, true) => {
            "--authenticator is refused with --acct, which computes it"
        }
        (Command::Step, Form::Access | Form::Accounting, true, _) => {
            "step takes -S with --hex only: leave it out for request lines"
        }
        _ => "",
    }
}

// What is wrong with the values of a command's options, in the order in which they are read.
fn refusal_of(
    alloc: Global,
    command: Command,
    found: &ArgMatches<'_>,
) -> Result<&'static str, AllocError> {
    let Ok(form) = form_of(command, found) else {
        return Ok("--hex and --acct exclude each other: a packet says by its code what it is");
    };
    if identifier_of(form, found).is_err() {
        return Ok(identifier_text(form));
    }
    if authenticator_of(found).is_err() {
        return Ok("--authenticator takes 32 hexadecimal digits");
    }
    if !has_distinct_names(alloc, texts_in(found, DICTIONARY).unwrap_or(&[]))? {
        return Ok(
            "two dictionary files have one name, the last part of their paths: copy one to \
            another name, and include it by that",
        );
    }
    let (secret, authenticator) = (text_in(found, SECRET), text_in(found, AUTHENTICATOR));
    Ok(rules_text(command, form, secret.is_some(), authenticator.is_some()))
}

/// Why the words of a command line are refused as `OptionValue`: which option, and what it takes. It is empty where they
/// are not.
///
/// ```rust
/// let words = [
///     "radpolicy",
///     "run",
///     "-i",
///     "256",
///     "--policy",
///     "policy",
///     "dictionary",
/// ];
/// assert_eq!(rt;
///     option_text(alloc, &words)?,
///     "-i takes a number from 0 to 255"
/// );
/// ```
pub fn option_text<'a, S: AsStr>(
    alloc: Global,
    words: &'a [S],
) -> Result<&'static str, AllocError> {
    let Ok(matches) = program(alloc)?.try_get_matches_from(words) else {
        return Ok("");
    };
    match command_in(&matches) {
        Some((command, found)) => refusal_of(alloc, command, found),
        None => Ok(""),
    }
}
