//! The words of the command line.

ghost use Rattle.std.specs.Prelude.{IfErr};
ghost use Rattle.radpolicy.specs.Faults.{IsWordFault};

use clap::{Arg, ArgMatches};
use radpolicy::{Fault, Form};
use radpolicy_options::{
    ACCOUNTING, HEX, POLICY, REQUEST, SECRET, SHOW_SECRETS, accounting_flag, control_option,
    dictionary_files, flag, folder_option, hex_flag, hide_option, lettered, matches_of, record_in,
    record_option, reply_option, server_in, server_option, valued, zone_option,
};
use radpolicy_starts::StartPlan;
use std::alloc::{AllocError, Global};
use std::convert::AsStr;

const IDENTIFIER: &str = "identifier";

const AUTHENTICATOR: &str = "authenticator";

const OUTPUT: &str = "output";

const FORCE: &str = "force";

/// What a command line asks for.
#[derive(Drop)]
pub struct Plan<'a> {
    pub start: StartPlan<'a>,
    /// The page's file; standard output where there is none.
    pub output: Option<&'a str>,
    /// Whether a file is replaced that the program did not write.
    pub is_forced: bool,
}

fn request_option<'a>(alloc: Global) -> Arg<'a> {
    let help = "The request [default: standard input]";
    lettered(alloc, REQUEST, 'f', "REQUEST", help)
}

fn identifier_option<'a>(alloc: Global) -> Arg<'a> {
    let help = "The packet's Identifier, 0 to 255 [default: 0]";
    lettered(alloc, IDENTIFIER, 'i', "NUMBER", help)
}

fn secret_option<'a>(alloc: Global) -> Arg<'a> {
    let help = "The file whose first line is the shared secret; the page then has the reply packet";
    lettered(alloc, SECRET, 'S', "SECRET-FILE", help)
}

fn authenticator_option<'a>(alloc: Global) -> Arg<'a> {
    let help = "The Request Authenticator, 32 hexadecimal digits; \
        needed with -S for request lines, refused with --acct";
    valued(alloc, AUTHENTICATOR, "HEX", help)
}

fn policy_option<'a>(alloc: Global) -> Arg<'a> {
    valued(alloc, POLICY, "POLICY", "The policy").required(true)
}

fn output_option<'a>(alloc: Global) -> Arg<'a> {
    let help = "The page's file [default: standard output]";
    lettered(alloc, OUTPUT, 'o', "FILE", help)
}

fn program<'a>(alloc: Global) -> Result<clap::Command<'a>, AllocError> {
    clap::Command::new(alloc, "radpolicy-page")
        .bin_name("radpolicy-page")?
        .about("Writes an HTML page in which one steps through the run of a policy")
        .after_help("Passwords and keys, and what a policy copies of them, are hidden in the page.")
        .arg(request_option(alloc))?
        .arg(record_option(alloc))?
        .arg(server_option(alloc))?
        .arg(hex_flag(alloc))?
        .arg(accounting_flag(alloc))?
        .arg(identifier_option(alloc))?
        .arg(secret_option(alloc))?
        .arg(authenticator_option(alloc))?
        .arg(policy_option(alloc))?
        .arg(reply_option(alloc))?
        .arg(control_option(alloc))?
        .arg(zone_option(alloc))?
        .arg(output_option(alloc))?
        .arg(flag(
            alloc,
            FORCE,
            "Replaces a file that is there, though this program did not write it or it was changed since",
        ))?
        .arg(flag(alloc, SHOW_SECRETS, "Shows passwords and keys"))?
        .arg(hide_option(alloc))?
        .arg(folder_option(alloc))?
        .arg(dictionary_files(alloc))
}

// How the request is given. A packet needs a secret, and has its own Identifier and authenticator; lines of an
// Access-Request have a secret and an authenticator together, and those of an Accounting-Request no authenticator.
fn form_of(found: &ArgMatches<'_>) -> Result<Form, Fault>
    ensures { IfErr result IsWordFault }
{
    let has_secret = found.get_str(SECRET).is_some();
    let has_authenticator = found.get_str(AUTHENTICATOR).is_some();
    let has_identifier = found.get_str(IDENTIFIER).is_some();
    match (found.get_flag(HEX), found.get_flag(ACCOUNTING)) {
        (true, false) if has_secret && !has_authenticator && !has_identifier => Ok(Form::Hex),
        (false, true) if !has_authenticator => Ok(Form::Accounting),
        (false, false) if has_secret == has_authenticator => Ok(Form::Access),
        _ => Err(Fault::OptionValue),
    }
}

fn identifier_of(found: &ArgMatches<'_>) -> Result<u8, Fault>
    ensures { IfErr result IsWordFault }
{
    let Some(word) = found.get_str(IDENTIFIER) else {
        return Ok(0);
    };
    if word.is_empty() || !word.as_bytes().iter().all(|octet| octet.is_ascii_digit()) {
        return Err(Fault::OptionValue);
    }
    word.parse::<u8>().map_err(|_| Fault::OptionValue)
}

fn authenticator_of(found: &ArgMatches<'_>) -> Result<Option<[u8; 16]>, Fault>
    ensures { IfErr result IsWordFault }
{
    let Some(word) = found.get_str(AUTHENTICATOR) else {
        return Ok(None);
    };
    let mut authenticator = [0; 16];
    hex::decode_to_slice(word, &mut authenticator).map_err(|_| Fault::OptionValue)?;
    Ok(Some(authenticator))
}

fn plan_of<'a>(alloc: Global, found: &ArgMatches<'a>) -> Result<Plan<'a>, Fault>
    ensures { IfErr result IsWordFault }
{
    let mut start = StartPlan::of_words(alloc, found, form_of(found)?)?;
    start.identifier = identifier_of(found)?;
    start.authenticator = authenticator_of(found)?;
    Ok(Plan {
        start,
        output: found.get_str(OUTPUT),
        is_forced: found.get_flag(FORCE),
    })
}

// What is wrong with words that are options and their values, if they are refused.
fn refusal_of(found: &ArgMatches<'_>) -> &'static str {
    let Ok(form) = form_of(found) else {
        return "--hex needs -S and the file that has the client's secret, and goes without --acct, -i and --authenticator; \
            for request lines -S needs --authenticator and 32 hexadecimal digits; --acct goes without --authenticator\n";
    };
    if record_in(found, form).is_err() {
        return "--record goes without --acct\n";
    }
    if server_in(found, form).is_err() {
        return "--server goes with --record, without --hex and --acct\n";
    }
    if identifier_of(found).is_err() {
        return "-i takes a number from 0 to 255\n";
    }
    if authenticator_of(found).is_err() {
        return "--authenticator takes 32 hexadecimal digits\n";
    }
    "--zone takes what a zone is ahead of UTC, as +01:00\n"
}

/// What the words of a command line ask for; the program's name is the first word.
pub fn read_words<'a, S: AsStr>(alloc: Global, words: &'a [S]) -> Result<Plan<'a>, Fault>
    ensures { IfErr result IsWordFault }
{
    let matches = matches_of(program(alloc)?, words)?;
    plan_of(alloc, &matches)
}

/// The help that the words of a command line ask for, or what is wrong with them.
pub fn help_text<'a, S: AsStr>(alloc: Global, words: &'a [S]) -> Result<String, AllocError> {
    match program(alloc)?.try_get_matches_from(words) {
        Ok(found) => String::from_str(alloc, refusal_of(&found)),
        Err(error) => error.to_string(alloc),
    }
}
