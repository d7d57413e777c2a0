//! What the words of a command line ask for.

ghost use Rattle.std.specs.Prelude.{IfErr};
ghost use Rattle.radpolicy.specs.Faults.{IsWordFault};

use crate::options::{RECORD, SERVER, SHOW_SECRETS, ZONE};
use avp_forms::offset_spelled;
use clap::{ArgMatches, Command};
use radpolicy::{Fault, Form, word_fault};
use radpolicy_common::SecretValues;
use std::alloc::{AllocError, Global};
use std::convert::AsStr;

/// The words by the options of a program; the program's name is the first word.
pub fn matches_of<'a, S: AsStr>(
    program: Command<'a>,
    words: &'a [S],
) -> Result<ArgMatches<'a>, Fault>
    ensures { IfErr result IsWordFault }
{
    program
        .try_get_matches_from(words)
        .map_err(|error| word_fault(&error))
}

/// The words that an option was given, however often.
pub fn words_in<'a>(
    alloc: Global,
    found: &ArgMatches<'a>,
    option: &str,
) -> Result<Vec<&'a str>, AllocError> {
    match found.get_strs(option) {
        Some(words) => Vec::from_slice(alloc, words),
        None => Ok(Vec::new(alloc)),
    }
}

/// How many minutes a zone is ahead of UTC, where `--zone` says it.
pub fn zone_in(found: &ArgMatches<'_>) -> Result<Option<i16>, Fault>
    ensures { IfErr result IsWordFault }
{
    let Some(word) = found.get_str(ZONE) else {
        return Ok(None);
    };
    match offset_spelled(word.as_bytes()) {
        Some(offset) => Ok(Some(offset)),
        None => Err(Fault::OptionValue),
    }
}

/// The name of the record that is the request, which says of itself whether it is an Accounting-Request.
pub fn record_in<'a>(found: &ArgMatches<'a>, form: Form) -> Result<Option<&'a str>, Fault>
    ensures { IfErr result IsWordFault }
{
    match found.get_str(RECORD) {
        Some(_) if form == Form::Accounting => Err(Fault::OptionValue),
        name => Ok(name),
    }
}

/// The virtual server whose requests are the records; it is one of a log, of which a record is named.
pub fn server_in<'a>(found: &ArgMatches<'a>, form: Form) -> Result<Option<&'a str>, Fault>
    ensures { IfErr result IsWordFault }
{
    match found.get_str(SERVER) {
        Some(_) if form != Form::Access || found.get_str(RECORD).is_none() => {
            Err(Fault::OptionValue)
        }
        name => Ok(name),
    }
}

/// Whether `--show-secrets` asks for passwords and keys.
pub fn shown_secrets(found: &ArgMatches<'_>) -> SecretValues {
    if found.get_flag(SHOW_SECRETS) {
        SecretValues::Shown
    } else {
        SecretValues::Hidden
    }
}
