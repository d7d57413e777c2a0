//! The words of the command line.

ghost use Rattle.std.specs.Prelude.{IfErr};
ghost use Rattle.radpolicy.specs.Faults.{IsWordFault};

use avp_forms::Profile;
use clap::{Arg, ArgAction, ArgMatches};
use radpolicy::Fault;
use radpolicy_common::SecretValues;
use radpolicy_import_policies::{LineEnds, Meaning, Stubs};
use radpolicy_options::{
    HIDE, POLICY, SHOW_SECRETS, flag, hide_option, lettered, matches_of, repeated, shown_secrets,
    valued, words_in,
};
use std::alloc::{AllocError, Global};
use std::convert::AsStr;

const SERVER: &str = "server";

const SECTION: &str = "section";

const MODULE: &str = "module";

const DICTIONARY: &str = "dict";

// The older name of the next.
const OWN_DICTIONARY: &str = "dictionary";

const WRITE_DICTIONARY: &str = "write-dictionary";

const FORCE: &str = "force";

const STUB_FUNCTIONS: &str = "stub-functions";

const OUTPUT: &str = "output";

const MAP: &str = "map";

const INITIAL: &str = "initial";

const INITIAL_TEMPLATE: &str = "initial-template";

const PLAIN: &str = "plain";

const PAPERS: &str = "papers";

const CHECK: &str = "check";

const STRICT: &str = "strict";

const JSON: &str = "json";

const CONFIGURATION: &str = "configuration";

/// What a command line asks for.
#[derive(Drop)]
pub struct Plan<'a> {
    pub server: Option<&'a str>,
    /// A section, and after a `/` the type of one in it.
    pub section: Option<&'a str>,
    pub policy: Option<&'a str>,
    /// `NAME=CODE` or `NAME=FILE` each.
    pub modules: Vec<&'a str>,
    /// Dictionary files, the main one first; none for those of a server.
    pub dictionaries: Vec<&'a str>,
    /// Where the dictionary of attributes of other lists is written.
    pub own_dictionary: Option<&'a str>,
    /// Which expansions it has attributes for.
    pub stubs: Stubs,
    pub output: Option<&'a str>,
    /// Where the origins of the policy's lines are written, in place of comments.
    pub map: Option<&'a str>,
    /// Pairs of initial lists, which are put in front of the policy.
    pub initial: Option<&'a str>,
    /// Where those that the policy wants are written.
    pub initial_template: Option<&'a str>,
    /// Whether files are replaced that the program did not write.
    pub is_forced: bool,
    pub meaning: Meaning,
    pub profile: Profile,
    pub only_checks: bool,
    pub strict: bool,
    /// Whether the report is JSON, an object a line.
    pub is_json: bool,
    /// Names of attributes whose values are hidden as well.
    pub hidden: Vec<&'a str>,
    pub secrets: SecretValues,
    /// A server's folder, or files.
    pub configuration: Vec<&'a str>,
}

impl Plan<'_> {
    // Whether words name a file for the policy, or for what is told of it.
    fn writes(&self) -> bool {
        self.output.is_some() || self.map.is_some() || self.initial_template.is_some()
    }

    /// What the lines of the policy end in.
    pub fn line_ends(&self) -> LineEnds {
        match self.map {
            Some(_) => LineEnds::Nothing,
            None => LineEnds::Origins,
        }
    }
}

fn output_option<'a>(alloc: Global) -> Arg<'a> {
    lettered(
        alloc,
        OUTPUT,
        'o',
        "POLICY",
        "Writes the policy to this file",
    )
}

fn configuration_files<'a>(alloc: Global) -> Arg<'a> {
    Arg::new(alloc, CONFIGURATION)
        .required(true)
        .value_name("RADDB|FILE")
        .num_args(1..)
        .action(ArgAction::Append)
        .help("A server's folder, as /etc/freeradius/3.0, or files of one")
}

fn program<'a>(alloc: Global) -> Result<clap::Command<'a>, AllocError> {
    clap::Command::new(alloc, "radpolicy-import")
        .bin_name("radpolicy-import")?
        .about("Makes a policy of what a FreeRADIUS server's configuration does in a section")
        .arg(valued(
            alloc,
            SERVER,
            "NAME",
            "The virtual server; without it default, or the first",
        ))?
        .arg(valued(
            alloc,
            SECTION,
            "SECTION[/TYPE]",
            "The section, as authorize, post-auth, post-auth/REJECT",
        ))?
        .arg(valued(
            alloc,
            POLICY,
            "NAME",
            "A named policy in place of a section",
        ))?
        .arg(repeated(
            alloc,
            MODULE,
            "NAME=CODE|FILE",
            "What stands for the calls of a module: a code, or a policy's file",
        ))?
        .arg(repeated(
            alloc,
            DICTIONARY,
            "DICTIONARY",
            "A dictionary file, the main one first; without it those in /usr/share/freeradius",
        ))?
        .arg(valued(
            alloc,
            WRITE_DICTIONARY,
            "OUT",
            "Makes attributes of control of those of other lists, and of what expansions ask, and \
            writes their dictionary",
        ))?
        .arg(valued(
            alloc,
            OWN_DICTIONARY,
            "OUT",
            "The same as --write-dictionary, by its older name",
        ))?
        .arg(flag(
            alloc,
            STUB_FUNCTIONS,
            "With --write-dictionary: takes the results of functions as given too",
        ))?
        .arg(output_option(alloc))?
        .arg(valued(
            alloc,
            MAP,
            "FILE",
            "Writes what each line comes from to this file, and no comments at the lines' ends",
        ))?
        .arg(valued(
            alloc,
            INITIAL,
            "FILE",
            "Puts updates in front of the policy for lines reply:Name = .. and control:Name = ..",
        ))?
        .arg(valued(
            alloc,
            INITIAL_TEMPLATE,
            "OUT",
            "Writes such lines, to be filled in, for what the policy reads and does not set",
        ))?
        .arg(flag(
            alloc,
            FORCE,
            "Replaces files that are there, though this program did not write them or they were changed since",
        ))?
        .arg(flag(
            alloc,
            PLAIN,
            "Keeps conditions and updates as they are written",
        ))?
        .arg(flag(
            alloc,
            PAPERS,
            "Writes tags, IPv6 addresses and dates as octets and numbers, and leaves out what else needs the wider profile",
        ))?
        .arg(flag(alloc, CHECK, "Writes the report alone"))?
        .arg(flag(alloc, STRICT, "Ends with status 1 where a part is left out"))?
        .arg(flag(alloc, JSON, "Writes the report as JSON, an object a line"))?
        .arg(hide_option(alloc))?
        .arg(flag(
            alloc,
            SHOW_SECRETS,
            "Shows passwords, secrets and keys in the report and in comments",
        ))?
        .arg(configuration_files(alloc))
}

fn meaning(found: &ArgMatches<'_>) -> Meaning {
    if found.get_flag(PLAIN) {
        Meaning::Plain
    } else {
        Meaning::Server
    }
}

fn stubs(found: &ArgMatches<'_>) -> Stubs {
    if found.get_flag(STUB_FUNCTIONS) {
        Stubs::Functions
    } else {
        Stubs::Asking
    }
}

fn profile(found: &ArgMatches<'_>) -> Profile {
    if found.get_flag(PAPERS) {
        Profile::Plain
    } else {
        Profile::Wider
    }
}

fn own_dictionary<'a>(found: &ArgMatches<'a>) -> Option<&'a str> {
    found
        .get_str(WRITE_DICTIONARY)
        .or(found.get_str(OWN_DICTIONARY))
}

// Whether an option is given by both of its names.
fn names_two_dictionaries(found: &ArgMatches<'_>) -> bool {
    found.get_str(WRITE_DICTIONARY).is_some() && found.get_str(OWN_DICTIONARY).is_some()
}

// A policy is no part of a server, and has no section.
fn plan_of<'a>(alloc: Global, found: &ArgMatches<'a>) -> Result<Plan<'a>, Fault>
    ensures { IfErr result IsWordFault }
{
    let plan = Plan {
        server: found.get_str(SERVER),
        section: found.get_str(SECTION),
        policy: found.get_str(POLICY),
        modules: words_in(alloc, found, MODULE)?,
        dictionaries: words_in(alloc, found, DICTIONARY)?,
        own_dictionary: own_dictionary(found),
        stubs: stubs(found),
        output: found.get_str(OUTPUT),
        map: found.get_str(MAP),
        initial: found.get_str(INITIAL),
        initial_template: found.get_str(INITIAL_TEMPLATE),
        is_forced: found.get_flag(FORCE),
        meaning: meaning(found),
        profile: profile(found),
        only_checks: found.get_flag(CHECK),
        strict: found.get_flag(STRICT),
        is_json: found.get_flag(JSON),
        hidden: words_in(alloc, found, HIDE)?,
        secrets: shown_secrets(found),
        configuration: words_in(alloc, found, CONFIGURATION)?,
    };
    if plan.only_checks && plan.writes() {
        return Err(Fault::Usage);
    }
    if plan.policy.is_some() && plan.server.is_some() {
        return Err(Fault::Usage);
    }
    if plan.stubs == Stubs::Functions && plan.own_dictionary.is_none() {
        return Err(Fault::Usage);
    }
    if names_two_dictionaries(found) {
        return Err(Fault::Usage);
    }
    Ok(plan)
}

fn names_output(found: &ArgMatches<'_>) -> bool {
    found.get_str(OUTPUT).is_some()
        || found.get_str(MAP).is_some()
        || found.get_str(INITIAL_TEMPLATE).is_some()
}

// What is wrong with words that are options and their values, if they are refused.
fn refusal_of(found: &ArgMatches<'_>) -> &'static str {
    if found.get_flag(CHECK) && names_output(found) {
        "--check writes the report alone, so it goes without -o, --map and --initial-template\n"
    } else if found.get_flag(STUB_FUNCTIONS) && own_dictionary(found).is_none() {
        "--stub-functions goes with --write-dictionary, which defines what is in their place\n"
    } else if names_two_dictionaries(found) {
        "--dictionary is the older name of --write-dictionary: give one of them\n"
    } else {
        "a named policy is no part of a server: --policy goes without --server\n"
    }
}

/// What the words of a command line ask for; the program's name is the first word.
pub fn read_words<'a, S: AsStr>(alloc: Global, words: &'a [S]) -> Result<Plan<'a>, Fault>
    ensures { IfErr result IsWordFault }
{
    let matches = matches_of(program(alloc)?, words)?;
    plan_of(alloc, &matches)
}

/// The help that the words of a command line ask for, or what is wrong with them.
pub fn help_text<'a, S: AsStr>(alloc: Global, words: &'a [S]) -> Result<String, AllocError> {
    match program(alloc)?.try_get_matches_from(words) {
        Ok(found) => String::from_str(alloc, refusal_of(&found)),
        Err(error) => error.to_string(alloc),
    }
}
