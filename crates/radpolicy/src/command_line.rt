//! The words of the command line, with all calls of `clap`.

ghost use Rattle.std.specs.Prelude.{◌≡◌, ◌≢◌, ◌<◌, ◌∷◌, [], ℕ, List, Option, Some, None, Ok, IfOk, IfErr, IfSome, codes, length, map, option_map, true, false};
ghost use Rattle.std.specs.Borrow.{Bor};
ghost use Rattle.clap.specs.Words.{IsAmong, Row, all_of, app_of, fault_of, first_of, found_of, kind_of, new_app, rows_of, rule_of, shape_of, subcommand_rows_of};
ghost use Rattle.hex.specs.Hex.{decode_sized};
ghost use Rattle.radpolicy.specs.declared.faults.Fault.TheVariants.{Help, Memory, OptionValue, Usage};
ghost use Rattle.radpolicy.specs.CommandLines.{accounting_option, authenticator_option, check_command, decode_command, dictionary_files, encode_command, hex_option, identifier_option, policy_option, program, request_option, run_command, script_option, secret_option, step_command, valued};
ghost use Rattle.radpolicy.specs.WordPlans.{IsAuthenticatorOf, IsIdentifierOf, IsNumberWord, RowsHaveNoPlan, WordsHaveNoPlan, IsPlanOfRows, IsPlanOfWords, NameNoCommand, command_name, form_of, is_given};
ghost use Rattle.radpolicy.specs.declared.jobs.Command.TheVariants.{Decode};
ghost use Rattle.radpolicy.specs.declared.jobs.Form.TheVariants.{Hex};
ghost use Rattle.radpolicy.specs.Faults.{IsWordFault};
ghost use Rattle.radpolicy.specs.Plans.{AreDistinct, EncodeRules, IsSound, Rules, RunRules, StepRules, asked_by_plan, names_of_paths};

use crate::faults::Fault;
use crate::jobs::{Command, Form};
use crate::plans::{Plan, has_distinct_names};
use clap::error::ErrorKind;
use clap::{Arg, ArgAction, ArgMatches};
use std::alloc::{AllocError, Global};
use std::convert::AsStr;

// The commands and the options, as they are written. A name that a command does not have reads as an
// option that was not given, so each name is spelled here only.
const RUN: &str = "run";

const STEP: &str = "step";

const ENCODE: &str = "encode";

const DECODE: &str = "decode";

const CHECK: &str = "check";

const REQUEST: &str = "request";

const POLICY: &str = "policy";

const HEX: &str = "hex";

const ACCOUNTING: &str = "acct";

const IDENTIFIER: &str = "identifier";

pub(crate) const SECRET: &str = "secret";

pub(crate) const AUTHENTICATOR: &str = "authenticator";

const SCRIPT: &str = "script";

pub(crate) const DICTIONARY: &str = "dictionary";

fn file_option<'a>(alloc: Global, name: &'a str, value_name: &'a str, help: &'a str) -> Arg<'a>
    ensures rule { rule_of result ≡ valued name.entry.now }
    ensures local { result.global ≡ false }
{
    Arg::new(alloc, name)
        .value_name(value_name)
        .action(ArgAction::Set)
        .help(help)
}

fn request_option<'a>(alloc: Global) -> Arg<'a>
    ensures rule { rule_of result ≡ request_option }
    ensures local { result.global ≡ false }
{
    let help = "The request [default: standard input]";
    file_option(alloc, REQUEST, "REQUEST", help).short('f')
}

fn packet_option<'a>(alloc: Global) -> Arg<'a>
    ensures rule { rule_of result ≡ request_option }
    ensures local { result.global ≡ false }
{
    let help = "The packet, in hexadecimal digits [default: standard input]";
    file_option(alloc, REQUEST, "PACKET", help).short('f')
}

fn policy_option<'a>(alloc: Global) -> Arg<'a>
    ensures rule { rule_of result ≡ policy_option }
    ensures local { result.global ≡ false }
{
    file_option(alloc, POLICY, "POLICY", "The policy").long(POLICY)
}

fn script_option<'a>(alloc: Global) -> Arg<'a>
    ensures rule { rule_of result ≡ script_option }
    ensures local { result.global ≡ false }
{
    let help = "The script, a file of the words forward, back, start, end and show";
    file_option(alloc, SCRIPT, "SCRIPT", help).long(SCRIPT)
}

fn secret_option<'a>(alloc: Global) -> Arg<'a>
    ensures rule { rule_of result ≡ secret_option }
    ensures local { result.global ≡ false }
{
    let help = "The file whose first line is the shared secret";
    file_option(alloc, SECRET, "SECRET-FILE", help).short('S')
}

fn hex_option<'a>(alloc: Global) -> Arg<'a>
    ensures rule { rule_of result ≡ hex_option }
    ensures local { result.global ≡ false }
{
    Arg::new(alloc, HEX)
        .long(HEX)
        .action(ArgAction::SetTrue)
        .help("The request is a packet in hexadecimal digits; needs -S")
}

fn accounting_option<'a>(alloc: Global) -> Arg<'a>
    ensures rule { rule_of result ≡ accounting_option }
    ensures local { result.global ≡ false }
{
    Arg::new(alloc, ACCOUNTING)
        .long(ACCOUNTING)
        .action(ArgAction::SetTrue)
        .help("The request lines are an Accounting-Request, not an Access-Request")
}

fn identifier_option<'a>(alloc: Global) -> Arg<'a>
    ensures rule { rule_of result ≡ identifier_option }
    ensures local { result.global ≡ false }
{
    Arg::new(alloc, IDENTIFIER)
        .short('i')
        .value_name("NUMBER")
        .action(ArgAction::Set)
        .help("The packet's Identifier, 0 to 255 [default: 0]")
}

fn authenticator_option<'a>(alloc: Global) -> Arg<'a>
    ensures rule { rule_of result ≡ authenticator_option }
    ensures local { result.global ≡ false }
{
    let help = "The Request Authenticator, 32 hexadecimal digits; \
        needed with -S for request lines, refused with --acct";
    Arg::new(alloc, AUTHENTICATOR)
        .long(AUTHENTICATOR)
        .value_name("HEX")
        .action(ArgAction::Set)
        .help(help)
}

fn dictionary_files<'a>(alloc: Global) -> Arg<'a>
    ensures rule { rule_of result ≡ dictionary_files }
    ensures local { result.global ≡ false }
{
    Arg::new(alloc, DICTIONARY)
        .required(true)
        .value_name("DICTIONARY")
        .num_args(1..)
        .action(ArgAction::Append)
        .help("Dictionary files, the main one first, as in /usr/share/freeradius/dictionary*")
}

fn run_command<'a>(alloc: Global) -> Result<clap::Command<'a>, AllocError>
    ensures { IfOk result (λ r. shape_of r ≡ run_command) }
{
    clap::Command::new(alloc, RUN)
        .about("Runs a policy on a request")
        .arg(request_option(alloc))?
        .arg(hex_option(alloc))?
        .arg(accounting_option(alloc))?
        .arg(identifier_option(alloc))?
        .arg(secret_option(alloc))?
        .arg(authenticator_option(alloc))?
        .arg(policy_option(alloc).required(true))?
        .arg(dictionary_files(alloc))
}

fn step_command<'a>(alloc: Global) -> Result<clap::Command<'a>, AllocError>
    ensures { IfOk result (λ r. shape_of r ≡ step_command) }
{
    clap::Command::new(alloc, STEP)
        .about("Steps through the run of a policy, forward and backward")
        .arg(request_option(alloc))?
        .arg(hex_option(alloc))?
        .arg(secret_option(alloc))?
        .arg(policy_option(alloc).required(true))?
        .arg(script_option(alloc).required(true))?
        .arg(dictionary_files(alloc))
}

fn encode_command<'a>(alloc: Global) -> Result<clap::Command<'a>, AllocError>
    ensures { IfOk result (λ r. shape_of r ≡ encode_command) }
{
    clap::Command::new(alloc, ENCODE)
        .about("Makes a packet from request lines")
        .arg(request_option(alloc))?
        .arg(accounting_option(alloc))?
        .arg(identifier_option(alloc))?
        .arg(secret_option(alloc).required(true))?
        .arg(authenticator_option(alloc))?
        .arg(dictionary_files(alloc))
}

fn decode_command<'a>(alloc: Global) -> Result<clap::Command<'a>, AllocError>
    ensures { IfOk result (λ r. shape_of r ≡ decode_command) }
{
    clap::Command::new(alloc, DECODE)
        .about("Shows a packet, given in hexadecimal digits, as lines")
        .arg(packet_option(alloc))?
        .arg(secret_option(alloc).required(true))?
        .arg(dictionary_files(alloc))
}

fn check_command<'a>(alloc: Global) -> Result<clap::Command<'a>, AllocError>
    ensures { IfOk result (λ r. shape_of r ≡ check_command) }
{
    clap::Command::new(alloc, CHECK)
        .about("Checks dictionaries and, if given, a policy, and counts what they define")
        .arg(policy_option(alloc))?
        .arg(dictionary_files(alloc))
}

// The command line without its commands.
fn titled<'a>(alloc: Global) -> Result<clap::Command<'a>, AllocError>
    ensures { IfOk result (λ r. app_of r ≡ new_app (codes "radpolicy")) }
{
    clap::Command::new(alloc, "radpolicy").bin_name("radpolicy")
}

pub(crate) fn program<'a>(alloc: Global) -> Result<clap::Command<'a>, AllocError>
    ensures { IfOk result (λ r. app_of r ≡ program) }
{
    titled(alloc)?
        .about("Runs an unlang policy on a RADIUS request")
        .after_help("radpolicy COMMAND --help lists a command's options.")
        .subcommand_required(true)
        .disable_help_subcommand(true)
        .subcommand(run_command(alloc)?)?
        .subcommand(step_command(alloc)?)?
        .subcommand(encode_command(alloc)?)?
        .subcommand(decode_command(alloc)?)?
        .subcommand(check_command(alloc)?)
}

/// The fault of a command line that [`clap`] refused: [`Fault::Help`] where help was asked for, E09 where there was no
/// memory, else E01.
pub fn word_fault(error: &clap::Error) -> Fault
    ensures help { result ≡ Help → kind_of error.now ≡ ErrorKind.DisplayHelp }
    ensures memory { result ≡ Memory → kind_of error.now ≡ ErrorKind.OutOfMemory }
    ensures usage { result ≡ Usage → kind_of error.now ≢ ErrorKind.OutOfMemory }
    ensures no_help { result ≡ Usage → kind_of error.now ≢ ErrorKind.DisplayHelp }
    ensures value { result ≢ OptionValue }
    ensures fault { IsWordFault result }
{
    match error.kind() {
        ErrorKind::DisplayHelp => Fault::Help,
        ErrorKind::OutOfMemory => Fault::Memory,
        _ => Fault::Usage,
    }
}

// The value of an option, where it was given.
pub(crate) fn text_in<'a>(found: &ArgMatches<'a>, name: &str) -> Option<&'a str>
    ensures { option_map (λ text. text.now) result
        ≡ first_of name.now (rows_of (found_of found.now)) }
{
    found.get_str(name)
}

// The values of an option or of files, where there are some.
pub(crate) fn texts_in<'a, 'b>(found: &'b ArgMatches<'a>, name: &str) -> Option<&'b [&'a str]>
    ensures { option_map (λ texts. map (λ text. text.now) texts.now) result
        ≡ all_of name.now (rows_of (found_of found.now)) }
{
    found.get_strs(name)
}

// Whether an option without a value was given.
fn is_given(found: &ArgMatches<'_>, name: &str) -> bool
    ensures { result ≡ is_given name.now (rows_of (found_of found.now)) }
{
    match text_in(found, name) {
        Some(text) => text == "true",
        None => false,
    }
}

// The dictionary files; the parse has seen to it that there is one.
fn files_of<'a>(alloc: Global, found: &ArgMatches<'a>) -> Result<Vec<&'a str>, Fault>
    ensures files { IfOk result (λ files. all_of (codes "dictionary") (rows_of (found_of found.now))
        ≡ Some (map (λ path. path.now) files.items)) }
    ensures some { IfOk result (λ files. 0 < length files.items) }
    ensures distinct { IfOk result (λ files. AreDistinct (names_of_paths files.items)) }
    ensures refused { IfErr result (λ fault. fault ≢ Memory → (fault ≡ OptionValue)
        × ((paths : List (Bor (List ℕ)))
        → all_of (codes "dictionary") (rows_of (found_of found.now))
        ≡ Some (map (λ path. path.now) paths)
        → 0 < length paths → AreDistinct (names_of_paths paths) → ⊥)) }
    ensures fault { IfErr result IsWordFault }
{
    let Some(files) = texts_in(found, DICTIONARY) else {
        return Err(Fault::OptionValue);
    };
    if files.is_empty() {
        return Err(Fault::OptionValue);
    }
    if !has_distinct_names(alloc, files)? {
        return Err(Fault::OptionValue);
    }
    Ok(Vec::from_slice(alloc, files)?)
}

// How the request is given. The packet of `decode` is in hexadecimal digits.
pub(crate) fn form_of(command: Command, found: &ArgMatches<'_>) -> Result<Form, Fault>
    ensures form { IfOk result (λ form. form_of command
        (is_given (codes "hex") (rows_of (found_of found.now)))
        (is_given (codes "acct") (rows_of (found_of found.now))) ≡ Some form) }
    ensures refused { IfErr result (λ fault. (fault ≡ OptionValue) × (form_of command
        (is_given (codes "hex") (rows_of (found_of found.now)))
        (is_given (codes "acct") (rows_of (found_of found.now))) ≡ None)) }
{
    match (command, is_given(found, HEX), is_given(found, ACCOUNTING)) {
        (Command::Decode, _, _) | (_, true, false) => Ok(Form::Hex),
        (_, false, true) => Ok(Form::Accounting),
        (_, false, false) => Ok(Form::Access),
        (_, true, true) => Err(Fault::OptionValue),
    }
}

// A number of decimal digits, 0 to 255.
fn identifier_in(word: &str) -> Result<u8, Fault>
    ensures number { IfOk result (IsNumberWord word.now) }
    ensures refused { IfErr result (λ fault. (fault ≡ OptionValue)
        × ((number : ℕ) → IsNumberWord word.now number → ⊥)) }
{
    if word.as_bytes().first() == Some(&b'+') {
        return Err(Fault::OptionValue);
    }
    word.parse::<u8>().map_err(|_| Fault::OptionValue)
}

// The packet's Identifier. A packet in hexadecimal digits has its own, and takes none.
pub(crate) fn identifier_of(form: Form, found: &ArgMatches<'_>) -> Result<u8, Fault>
    ensures identifier { IfOk result (IsIdentifierOf form
        (first_of (codes "identifier") (rows_of (found_of found.now)))) }
    ensures refused { IfErr result (λ fault. (fault ≡ OptionValue)
        × ((identifier : ℕ) → IsIdentifierOf form
        (first_of (codes "identifier") (rows_of (found_of found.now))) identifier → ⊥)) }
{
    match (text_in(found, IDENTIFIER), form) {
        (None, _) => Ok(0),
        (Some(_), Form::Hex) => Err(Fault::OptionValue),
        (Some(word), Form::Access) => identifier_in(word),
        (Some(word), Form::Accounting) => identifier_in(word),
    }
}

// The octets of 32 hexadecimal digits.
fn authenticator_in(word: &str) -> Result<[u8; 16], Fault>
    ensures octets { IfOk result (λ octets. decode_sized word.now 16 ≡ Ok octets) }
    ensures refused { IfErr result (λ fault. (fault ≡ OptionValue)
        × ((octets : List ℕ) → decode_sized word.now 16 ≡ Ok octets → ⊥)) }
{
    let mut authenticator = [0; 16];
    hex::decode_to_slice(word, &mut authenticator).map_err(|_| Fault::OptionValue)?;
    Ok(authenticator)
}

pub(crate) fn authenticator_of(found: &ArgMatches<'_>) -> Result<Option<[u8; 16]>, Fault>
    ensures octets { IfOk result (IsAuthenticatorOf
        (first_of (codes "authenticator") (rows_of (found_of found.now)))) }
    ensures refused { IfErr result (λ fault. (fault ≡ OptionValue)
        × ((authenticator : Option (List ℕ)) → IsAuthenticatorOf
        (first_of (codes "authenticator") (rows_of (found_of found.now))) authenticator → ⊥)) }
{
    match text_in(found, AUTHENTICATOR) {
        Some(word) => Ok(Some(authenticator_in(word)?)),
        None => Ok(None),
    }
}

// Whether what is asked of `run` goes together.
fn keeps_run_rules(plan: &Plan<'_>) -> bool
    requires { plan.now.form ≡ Hex → plan.now.identifier ≡ 0 }
    ensures kept { result ≡ true → RunRules (asked_by_plan plan.now).packet }
    ensures broken { result ≡ false → RunRules (asked_by_plan plan.now).packet → ⊥ }
{
    match plan.form {
        Form::Hex => plan.secret.is_some() && plan.authenticator.is_none(),
        Form::Access => plan.authenticator.is_some() == plan.secret.is_some(),
        Form::Accounting => plan.authenticator.is_none(),
    }
}

// Whether what is asked of `step` goes together.
fn keeps_step_rules(plan: &Plan<'_>) -> bool
    ensures kept { result ≡ true → StepRules (asked_by_plan plan.now).packet }
    ensures broken { result ≡ false → StepRules (asked_by_plan plan.now).packet → ⊥ }
{
    match plan.form {
        Form::Hex => plan.secret.is_some(),
        Form::Access | Form::Accounting => plan.secret.is_none(),
    }
}

// Whether what is asked of `encode` goes together.
fn keeps_encode_rules(plan: &Plan<'_>) -> bool
    ensures kept { result ≡ true → EncodeRules (asked_by_plan plan.now).packet }
    ensures broken { result ≡ false → EncodeRules (asked_by_plan plan.now).packet → ⊥ }
{
    match plan.form {
        Form::Hex => false,
        Form::Access => plan.secret.is_some() && plan.authenticator.is_some(),
        Form::Accounting => plan.secret.is_some() && plan.authenticator.is_none(),
    }
}

// Whether what is asked for goes together, by the command. The parse has seen to it that there is
// what a command requires.
fn keeps_rules(plan: &Plan<'_>) -> bool
    requires identifier { plan.now.form ≡ Hex → plan.now.identifier ≡ 0 }
    requires decode { plan.now.command ≡ Decode → plan.now.form ≡ Hex }
    ensures kept { result ≡ true → Rules plan.now.command (asked_by_plan plan.now) }
    ensures broken { result ≡ false → Rules plan.now.command (asked_by_plan plan.now) → ⊥ }
{
    match plan.command {
        Command::Run => plan.policy.is_some() && keeps_run_rules(plan),
        Command::Step => {
            plan.policy.is_some() && plan.script.is_some() && keeps_step_rules(plan)
        }
        Command::Encode => keeps_encode_rules(plan),
        Command::Decode => plan.secret.is_some(),
        Command::Check => true,
    }
}

// The plan of a command's words. An option that the command does not have was not given.
fn plan_of<'a>(alloc: Global, command: Command, found: &ArgMatches<'a>) -> Result<Plan<'a>, Fault>
    ensures plan { IfOk result (IsPlanOfRows command (rows_of (found_of found.now))) }
    ensures sound { IfOk result (λ plan. IsSound (asked_by_plan plan)) }
    ensures refused { IfErr result (λ fault. fault ≢ Memory
        → (fault ≡ OptionValue) × RowsHaveNoPlan command (rows_of (found_of found.now))) }
    ensures fault { IfErr result IsWordFault }
{
    let form = form_of(command, found)?;
    let identifier = identifier_of(form, found)?;
    let authenticator = authenticator_of(found)?;
    let dictionaries = files_of(alloc, found)?;
    let plan = Plan {
        command,
        form,
        identifier,
        authenticator,
        dictionaries,
        request: text_in(found, REQUEST),
        policy: text_in(found, POLICY),
        secret: text_in(found, SECRET),
        script: text_in(found, SCRIPT),
    };
    if keeps_rules(&plan) {
        Ok(plan)
    } else {
        Err(Fault::OptionValue)
    }
}

// The command that was named, and what was found for its options and files.
pub(crate) fn command_in<'a, 'b>(
    matches: &'b ArgMatches<'a>,
) -> Option<(Command, &'b ArgMatches<'a>)>
    ensures some { IfSome result (λ x. subcommand_rows_of matches.now
        ≡ Some (command_name x.0, rows_of (found_of x.1.now))) }
    ensures none { result ≡ None → (command : Command) (rows : List Row)
        → subcommand_rows_of matches.now ≡ Some (command_name command, rows) → ⊥ }
{
    match matches.subcommand() {
        Some((RUN, found)) => Some((Command::Run, found)),
        Some((STEP, found)) => Some((Command::Step, found)),
        Some((ENCODE, found)) => Some((Command::Encode, found)),
        Some((DECODE, found)) => Some((Command::Decode, found)),
        Some((CHECK, found)) => Some((Command::Check, found)),
        _ => None,
    }
}

/// What the words of a command line ask for; the program's name is the first word. `Usage` is found
/// before `OptionValue`.
///
/// ```rust
/// let words = ["radpolicy", "check", "--policy", "policy", "dictionary"];
/// let plan = read_words(alloc, &words)?;
/// assert_eq!(rt; plan.command, Command::Check);
/// assert_eq!(rt; plan.policy, Some("policy"));
/// let refused = read_words(alloc, &["radpolicy", "walk"]).err();
/// assert_eq!(rt; refused, Some(Fault::Usage));
/// ```
pub fn read_words<'a, S: AsStr>(alloc: Global, words: &'a [S]) -> Result<Plan<'a>, Fault>
    ensures plan { IfOk result (IsPlanOfWords (map S.text words.entry.now)) }
    ensures sound { IfOk result (λ plan. IsSound (asked_by_plan plan)) }
    ensures help { IfErr result (λ fault. fault ≡ Help
        → IsAmong ErrorKind.DisplayHelp (fault_of program (map S.text words.entry.now))) }
    ensures usage { IfErr result (λ fault. fault ≡ Usage
        → NameNoCommand (map S.text words.entry.now)) }
    ensures no_help { IfErr result (λ fault. fault ≡ Usage
        → fault_of program (map S.text words.entry.now) ≢ ErrorKind.DisplayHelp ∷ []) }
    ensures value { IfErr result (λ fault. fault ≡ OptionValue
        → WordsHaveNoPlan (map S.text words.entry.now)) }
    ensures fault { IfErr result IsWordFault }
{
    let matches = match program(alloc)?.try_get_matches_from(words) {
        Ok(matches) => matches,
        Err(error) => return Err(word_fault(&error)),
    };
    match command_in(&matches) {
        Some((command, found)) => plan_of(alloc, command, found),
        None => Err(Fault::Usage),
    }
}

/// The help that the words of a command line ask for, or what is wrong with them.
///
/// ```rust
/// let help = help_text(alloc, &["radpolicy", "run", "--help"])?;
/// assert!(rt; help.as_str().contains("--policy"));
/// ```
pub fn help_text<'a, S: AsStr>(alloc: Global, words: &'a [S]) -> Result<String, AllocError> {
    match program(alloc)?.try_get_matches_from(words) {
        Ok(_) => String::from_str(alloc, ""),
        Err(error) => error.to_string(alloc),
    }
}
