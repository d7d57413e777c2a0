//! The words of the command line.

ghost use Rattle.std.specs.Prelude.{IfErr};
ghost use Rattle.radpolicy.specs.Faults.{IsWordFault};

use clap::{Arg, ArgMatches};
use radpolicy::{Fault, Form};
use radpolicy_options::{
    ACCOUNTING, HEX, POLICY, REQUEST, SECRET, SHOW_SECRETS, accounting_flag, control_option,
    dictionary_files, flag, folder_option, hex_flag, hide_option, lettered, matches_of, record_in,
    record_option, reply_option, server_in, server_option, valued, zone_option,
};
use radpolicy_starts::StartPlan;
use std::alloc::{AllocError, Global};
use std::convert::AsStr;

const SCRIPT: &str = "script";

/// What a command line asks for.
#[derive(Drop)]
pub struct Plan<'a> {
    pub start: StartPlan<'a>,
    /// The file of the commands; standard input where there is none.
    pub script: Option<&'a str>,
}

fn request_option<'a>(alloc: Global) -> Arg<'a> {
    let help = "The request [default: standard input, where --script is given]";
    lettered(alloc, REQUEST, 'f', "REQUEST", help)
}

fn policy_option<'a>(alloc: Global) -> Arg<'a> {
    valued(alloc, POLICY, "POLICY", "The policy").required(true)
}

fn secret_option<'a>(alloc: Global) -> Arg<'a> {
    let help = "The file whose first line is the shared secret; needed with --hex";
    lettered(alloc, SECRET, 'S', "SECRET-FILE", help)
}

fn script_option<'a>(alloc: Global) -> Arg<'a> {
    let help = "The commands, a line each [default: standard input]";
    valued(alloc, SCRIPT, "SCRIPT", help)
}

fn program<'a>(alloc: Global) -> Result<clap::Command<'a>, AllocError> {
    clap::Command::new(alloc, "radpolicy-walk")
        .bin_name("radpolicy-walk")?
        .about("Walks through the run of a policy, forward and back")
        .after_help("Commands are read from standard input, a line each; `help` lists them.")
        .arg(request_option(alloc))?
        .arg(record_option(alloc))?
        .arg(server_option(alloc))?
        .arg(policy_option(alloc))?
        .arg(hex_flag(alloc))?
        .arg(secret_option(alloc))?
        .arg(accounting_flag(alloc))?
        .arg(reply_option(alloc))?
        .arg(control_option(alloc))?
        .arg(zone_option(alloc))?
        .arg(script_option(alloc))?
        .arg(flag(alloc, SHOW_SECRETS, "Shows passwords and keys"))?
        .arg(hide_option(alloc))?
        .arg(folder_option(alloc))?
        .arg(dictionary_files(alloc))
}

// How the request is given. A packet needs a secret, and lines take none.
fn form_of(found: &ArgMatches<'_>) -> Result<Form, Fault>
    ensures { IfErr result IsWordFault }
{
    let has_secret = found.get_str(SECRET).is_some();
    match (found.get_flag(HEX), found.get_flag(ACCOUNTING), has_secret) {
        (true, false, true) => Ok(Form::Hex),
        (false, true, false) => Ok(Form::Accounting),
        (false, false, false) => Ok(Form::Access),
        _ => Err(Fault::OptionValue),
    }
}

fn plan_of<'a>(alloc: Global, found: &ArgMatches<'a>) -> Result<Plan<'a>, Fault>
    ensures { IfErr result IsWordFault }
{
    let (request, script) = (found.get_str(REQUEST), found.get_str(SCRIPT));
    // Standard input has either the request or the commands.
    if request.is_none() && script.is_none() {
        return Err(Fault::OptionValue);
    }
    Ok(Plan {
        start: StartPlan::of_words(alloc, found, form_of(found)?)?,
        script,
    })
}

// What is wrong with words that are options and their values, if they are refused.
fn refusal_of(found: &ArgMatches<'_>) -> &'static str {
    if found.get_str(REQUEST).is_none() && found.get_str(SCRIPT).is_none() {
        return "standard input is either the request or the commands: write -f REQUEST or --script SCRIPT\n";
    }
    match form_of(found) {
        Ok(form) if record_in(found, form).is_err() => "--record goes without --acct\n",
        Ok(form) if server_in(found, form).is_err() => {
            "--server goes with --record, without --hex and --acct\n"
        }
        Ok(_) => "--zone takes what a zone is ahead of UTC, as +01:00\n",
        Err(_) => {
            "--hex needs -S and the file that has the client's secret, and -S needs --hex; --acct goes without them\n"
        }
    }
}

/// What the words of a command line ask for; the program's name is the first word.
pub fn read_words<'a, S: AsStr>(alloc: Global, words: &'a [S]) -> Result<Plan<'a>, Fault>
    ensures { IfErr result IsWordFault }
{
    let matches = matches_of(program(alloc)?, words)?;
    plan_of(alloc, &matches)
}

/// The help that the words of a command line ask for, or what is wrong with them.
pub fn help_text<'a, S: AsStr>(alloc: Global, words: &'a [S]) -> Result<String, AllocError> {
    match program(alloc)?.try_get_matches_from(words) {
        Ok(found) => String::from_str(alloc, refusal_of(&found)),
        Err(error) => error.to_string(alloc),
    }
}
