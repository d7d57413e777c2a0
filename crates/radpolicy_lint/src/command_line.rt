//! The words of the command line.

ghost use Rattle.std.specs.Prelude.{IfErr};
ghost use Rattle.radpolicy.specs.Faults.{IsWordFault};

use crate::printing::Format;
use clap::{Arg, ArgAction, ArgMatches};
use radpolicy::Fault;
use radpolicy_options::{
    DICTIONARY, FOLDER, HIDE, POLICY, REQUEST, dictionary_files, flag, folder_option, hide_option,
    matches_of, repeated, valued, words_in,
};
use std::alloc::{AllocError, Global};
use std::convert::AsStr;

const FORMAT: &str = "format";

const STRICT: &str = "strict";

/// What a command line asks for.
#[derive(Drop)]
pub struct Plan<'a> {
    pub policies: Vec<&'a str>,
    pub requests: Vec<&'a str>,
    pub format: Format,
    /// Whether a warning changes the status.
    pub strict: bool,
    /// The names of attributes whose values are hidden, beside those that are secret as it is.
    pub hidden: Vec<&'a str>,
    /// The folder of further dictionaries.
    pub folder: Option<&'a str>,
    /// Dictionary files, the main one first.
    pub dictionaries: Vec<&'a str>,
}

fn format_option<'a>(alloc: Global) -> Arg<'a> {
    let help = "text (with help), gcc (a line each, as compilers write them) or json";
    valued(alloc, FORMAT, "FORMAT", help)
}

fn request_option<'a>(alloc: Global) -> Arg<'a> {
    Arg::new(alloc, REQUEST)
        .short('f')
        .value_name("REQUEST")
        .action(ArgAction::Append)
        .help("A request of lines to look at")
}

fn program<'a>(alloc: Global) -> Result<clap::Command<'a>, AllocError> {
    clap::Command::new(alloc, "radpolicy-lint")
        .bin_name("radpolicy-lint")?
        .about(
            "Tells what is wrong with policies and requests, and what a server would do otherwise",
        )
        .arg(repeated(
            alloc,
            POLICY,
            "POLICY",
            "A policy to look at; more than once for several",
        ))?
        .arg(request_option(alloc))?
        .arg(format_option(alloc))?
        .arg(flag(alloc, STRICT, "Ends with status 1 where there is a warning"))?
        .arg(hide_option(alloc))?
        .arg(folder_option(alloc))?
        .arg(dictionary_files(alloc))
}

fn format_named(word: Option<&str>) -> Option<Format> {
    match word {
        None | Some("text") => Some(Format::Text),
        Some("gcc") => Some(Format::Gcc),
        Some("json") => Some(Format::Json),
        Some(_) => None,
    }
}

fn plan_of<'a>(alloc: Global, found: &ArgMatches<'a>) -> Result<Plan<'a>, Fault>
    ensures { IfErr result IsWordFault }
{
    let Some(format) = format_named(found.get_str(FORMAT)) else {
        return Err(Fault::OptionValue);
    };
    Ok(Plan {
        policies: words_in(alloc, found, POLICY)?,
        requests: words_in(alloc, found, REQUEST)?,
        format,
        strict: found.get_flag(STRICT),
        hidden: words_in(alloc, found, HIDE)?,
        folder: found.get_str(FOLDER),
        dictionaries: words_in(alloc, found, DICTIONARY)?,
    })
}

// What is wrong with words that are options and their values, if they are refused.
fn refusal_of(_found: &ArgMatches<'_>) -> &'static str {
    "--format takes text, gcc or json\n"
}

/// What the words of a command line ask for; the program's name is the first word.
pub fn read_words<'a, S: AsStr>(alloc: Global, words: &'a [S]) -> Result<Plan<'a>, Fault>
    ensures { IfErr result IsWordFault }
{
    let matches = matches_of(program(alloc)?, words)?;
    plan_of(alloc, &matches)
}

/// The help that the words of a command line ask for, or what is wrong with them.
pub fn help_text<'a, S: AsStr>(alloc: Global, words: &'a [S]) -> Result<String, AllocError> {
    match program(alloc)?.try_get_matches_from(words) {
        Ok(found) => String::from_str(alloc, refusal_of(&found)),
        Err(error) => error.to_string(alloc),
    }
}
