//! The program: its words, the files that they name, the policy and the report.
#![tactic(auto)]

mod command_line;
mod json_reports;
mod outputs;
mod reports;
mod sections;
mod sources;

ghost use Rattle.std.specs.Prelude.{◌<◌, IfErr, IfOk, length};
ghost use Rattle.avp_dict.specs.Lines.{HasDistinctNames};
ghost use Rattle.radpolicy.specs.Faults.{IsPrintedAnywhere, IsPrintedWith};

use crate::command_line::{Plan, help_text, read_words};
use crate::outputs::write_made;
use crate::reports::{
    OthersReport, REFUSED, refuse_value, show_fault, show_initial_fault, show_initial_line,
    show_others, show_report,
};
use crate::sections::{lack_text, lacking_word};
use crate::sources::{
    FIRST, Given, NamedFiles, first_file, main_file, name_files, read_given, system_dictionaries,
    with_main, with_names,
};
use avp_dict::{Dictionary, FileSet};
use avp_forms::Profile;
use avp_unlang::Items;
use radpolicy::{Fault, status};
use radpolicy_common::{
    Hiding, Redaction, SecretValues, command_words, named_attributes, read_dictionary_set, refuse,
    refuse_early, refuse_outputs, show_help,
};
use radpolicy_help::{
    Sources, refuse_at, refuse_explained, refuse_name, refuse_unread_explained, refuse_words_of,
};
use radpolicy_import_conditions::{KnownCodes, OtherAttribute, OtherSource};
use radpolicy_import_policies::{
    ImportFault, Imported, Module, SectionKind, Settings, Statement, Wanted, add_initial,
    import_statements, keeps_names, other_attributes, other_dictionary, policy_of, section_of,
    statements_of, unset_attributes,
};
use radpolicy_import_texts::SecretNames;
use server_configuration::{Configuration, ConfigurationFault, SystemFiles, read_configuration};
use std::alloc::{AllocError, Global};
use std::process::ExitCode;

/// What the program is called in its faults and in the files that it writes.
pub const PROGRAM: &str = "radpolicy-import";

// The status where by --strict a part is left out.
const LEFT_OUT: u8 = 1;

// The section and, in it, the second name of another.
fn wanted<'a>(plan: &Plan<'a>) -> Wanted<'a> {
    let word = plan.section.unwrap_or("authorize");
    let (section, second) = match word.split_once('/') {
        Some((section, second)) => (section, Some(second.as_bytes())),
        None => (word, None),
    };
    Wanted {
        server: plan.server.map(|name| name.as_bytes()),
        section: section.as_bytes(),
        second,
    }
}

// The place of what is to be imported: the top, where files have no section of the name that counts without one.
fn place_of(configuration: &Configuration, plan: &Plan<'_>) -> Option<Option<usize>> {
    if let Some(name) = plan.policy {
        return Some(Some(policy_of(configuration, name.as_bytes())?));
    }
    match section_of(configuration, wanted(plan)) {
        Some(place) => Some(Some(place)),
        None if plan.section.is_none() && plan.server.is_none() => Some(None),
        None => None,
    }
}

// What is known of the server's codes where the section begins: nothing of a named policy or a part of a section.
fn first_codes(plan: &Plan<'_>, configuration: &Configuration) -> KnownCodes {
    let wanted = wanted(plan);
    if plan.policy.is_some() || section_of(configuration, wanted).is_none() {
        return KnownCodes::unknown();
    }
    KnownCodes::of_section(wanted.section)
}

// Tells why there is no import, and gives the status, but where it is a fault of the policy or want of memory.
fn refuse_statements(rt: &HostRuntime, fault: ImportFault) -> Result<u8, Fault>
    ensures { IfErr result IsPrintedAnywhere }
{
    match fault {
        ImportFault::Memory => Err(Fault::Memory),
        ImportFault::Policy(fault) => Err(Fault::Policy(fault)),
        ImportFault::TooManyStatements
        | ImportFault::LineFeed
        | ImportFault::Lost
        | ImportFault::Initial(..) => {
            let _ = eprintln!(rt; "radpolicy-import: {REFUSED}{fault}");
            Ok(status(&Fault::OptionValue))
        }
    }
}

// The statements of the section that is meant; none where there is no such section.
fn statements_meant(
    alloc: Global,
    plan: &Plan<'_>,
    configuration: &Configuration,
) -> Result<Option<Items<Statement>>, ImportFault> {
    let Some(place) = place_of(configuration, plan) else {
        return Ok(None);
    };
    let statements = statements_of(alloc, configuration, place, wanted(plan).section)?;
    Ok(Some(statements))
}

/// What is imported.
#[derive(Clone, Copy)]
pub struct Import<'a, 'p, 'd> {
    pub plan: &'a Plan<'p>,
    /// The paths of the dictionaries.
    pub dictionaries: &'a [&'d str],
    pub configuration: &'a Configuration,
    modules: &'a [Module],
    // How many of the configuration's last items are pairs of initial lists.
    initial: usize,
    /// The names beside which values are hidden; none where all is shown.
    pub hidden: Option<&'a SecretNames<'a>>,
    statements: &'a [Statement],
}

/// What was read of the files that the words name.
#[derive(Clone, Copy)]
struct Read<'a> {
    // The dictionaries.
    files: &'a FileSet,
    given: &'a Given,
}

// The policy of the statements.
fn imported(
    alloc: Global,
    import: &Import<'_, '_, '_>,
    dictionary: &Dictionary,
    others: &[OtherAttribute],
) -> Result<Imported, ImportFault> {
    let (configuration, statements) = (import.configuration, import.statements);
    let settings = Settings {
        meaning: import.plan.meaning,
        line_ends: import.plan.line_ends(),
        profile: import.plan.profile,
        modules: import.modules,
        others,
        codes: first_codes(import.plan, import.configuration),
        section: SectionKind::named(wanted(import.plan).section),
        initial: import.initial,
        hidden: import.hidden,
    };
    match import_statements(alloc, configuration, dictionary, settings, statements) {
        // Should a statement not be one of the wider profile, lines that need it are left out.
        Err(ImportFault::Policy(_)) if settings.profile == Profile::Wider => {
            let settings = Settings {
                profile: Profile::Plain,
                ..settings
            };
            import_statements(alloc, configuration, dictionary, settings, statements)
        }
        made => made,
    }
}

fn refuse_section(rt: &HostRuntime, plan: &Plan<'_>, configuration: &Configuration) -> u8 {
    let word = lacking_word(configuration, plan, wanted(plan));
    let lack = lack_text(rt.alloc(), configuration, plan, wanted(plan));
    refuse_at(rt, PROGRAM, &Fault::OptionValue, word.as_bytes(), lack)
}

/// What was made.
#[derive(Clone, Copy)]
pub struct Made<'a> {
    pub imported: &'a Imported,
    pub dictionary: &'a Dictionary,
    pub others: &'a [OtherAttribute],
    /// The dictionary of those, and which of them no line sets, where it is asked for.
    pub own: Option<Own<'a>>,
}

/// The dictionary of attributes of other lists.
#[derive(Clone, Copy)]
pub struct Own<'a> {
    pub path: &'a str,
    pub text: &'a [u8],
    pub unset: &'a [&'a OtherAttribute],
}

// Writes what is to be known of what was made.
fn report(rt: &HostRuntime, import: &Import<'_, '_, '_>, made: Made<'_>) -> Result<(), AllocError> {
    let is_json = import.plan.is_json;
    show_report(
        rt,
        is_json,
        import.configuration,
        made.dictionary,
        made.imported,
    )?;
    let Some(own) = made.own else {
        return Ok(());
    };
    let count = made
        .others
        .iter()
        .filter(|other| !matches!(&other.source, OtherSource::Value(_)))
        .count();
    let others = OthersReport {
        path: own.path,
        count,
        unset: own.unset,
        hidden: import.hidden,
    };
    show_others(rt, is_json, &others)
}

// Writes what was made and the report, and gives the status.
fn show(rt: &HostRuntime, import: &Import<'_, '_, '_>, made: Made<'_>) -> u8 {
    let plan = import.plan;
    if !plan.only_checks
        && let Err(fault) = write_made(rt, import, made)
    {
        return refuse_outputs(rt, PROGRAM, &fault);
    }
    if report(rt, import, made).is_err() {
        return refuse_early(rt, PROGRAM, &Fault::Memory);
    }
    if plan.strict && !made.imported.left_out.is_empty() {
        LEFT_OUT
    } else {
        0
    }
}

// The configuration of a server's folder, or of files.
fn read_named(
    rt: &HostRuntime,
    plan: &Plan<'_>,
) -> Result<Result<Configuration, ConfigurationFault>, AllocError> {
    let alloc = rt.alloc();
    let first = first_file(alloc, plan)?;
    let files = NamedFiles {
        alloc,
        system: SystemFiles::new(rt, &plan.configuration),
        first: &first,
    };
    let main = main_file(alloc, &files, plan)?;
    let path = main.as_ref().map_or(FIRST, |main| main.as_slice());
    match read_configuration(alloc, &files, path) {
        Ok(mut configuration) => {
            name_files(alloc, &mut configuration.files)?;
            Ok(Ok(configuration))
        }
        Err(fault) => Ok(Err(with_names(alloc, fault)?)),
    }
}

// The import with the attributes of other lists as attributes of control.
fn import_others(
    rt: &HostRuntime,
    import: &Import<'_, '_, '_>,
    path: &str,
    files: &FileSet,
    dictionary: &Dictionary,
) -> Result<u8, ImportFault> {
    let alloc = rt.alloc();
    let (configuration, statements) = (import.configuration, import.statements);
    let others = other_attributes(
        alloc,
        configuration,
        dictionary,
        import.plan.stubs,
        SectionKind::named(wanted(import.plan).section),
        import.modules,
        statements,
    )?;
    let text = other_dictionary(alloc, files, dictionary, &others)?;
    let all = with_main(alloc, path, &text, files)?;
    // A name that one of the others has.
    if all.is_empty() || !all.has_distinct_names() {
        return Ok(refuse_value(rt, path));
    }
    let own = match dictionary_of(alloc, &all) {
        Ok(own) => own,
        // (what was to be written is no file that help could quote)
        Err(fault) => {
            let sources = Sources::of_files(&all, &[]);
            return Ok(refuse_explained(rt, PROGRAM, &fault, &all, &sources));
        }
    };
    // By it names would not stay what they were.
    if !keeps_names(dictionary, &own) {
        return Ok(refuse_value(rt, path));
    }
    let imported = imported(alloc, import, &own, &others)?;
    let unset = unset_attributes(alloc, &own, &imported.policy, &others)?;
    let made = Made {
        imported: &imported,
        dictionary: &own,
        others: &others,
        own: Some(Own {
            path,
            text: &text,
            unset: &unset,
        }),
    };
    Ok(show(rt, import, made))
}

fn dictionary_of(alloc: Global, files: &FileSet) -> Result<Dictionary, Fault>
    requires first { 0 < length files.now }
    requires distinct { HasDistinctNames files.now }
    ensures { IfErr result (IsPrintedWith files.now) }
{
    Ok(Dictionary::read(alloc, files)?)
}

// What was made without a dictionary of attributes of other lists.
fn show_alone<'a>(
    rt: &HostRuntime,
    import: &Import<'_, '_, '_>,
    imported: &'a Imported,
    dictionary: &'a Dictionary,
) -> u8 {
    let made = Made {
        imported,
        dictionary,
        others: &[],
        own: None,
    };
    show(rt, import, made)
}

fn import_alone(
    rt: &HostRuntime,
    import: &Import<'_, '_, '_>,
    dictionary: &Dictionary,
) -> Result<u8, ImportFault> {
    let imported = imported(rt.alloc(), import, dictionary, &[])?;
    Ok(show_alone(rt, import, &imported, dictionary))
}

fn import_statements_meant(
    rt: &HostRuntime,
    import: &Import<'_, '_, '_>,
    files: &FileSet,
    dictionary: &Dictionary,
) -> Result<u8, Fault>
    ensures { IfErr result IsPrintedAnywhere }
{
    let made = match import.plan.own_dictionary {
        Some(path) => import_others(rt, import, path, files, dictionary),
        None => import_alone(rt, import, dictionary),
    };
    match (made, import.plan.initial) {
        (Ok(status), _) => Ok(status),
        (Err(ImportFault::Initial(origin, reason)), Some(path)) => {
            show_initial_line(rt, path, origin.line, reason);
            Ok(status(&Fault::OptionValue))
        }
        (Err(fault), _) => refuse_statements(rt, fault),
    }
}

// Adds the pairs of initial lists to the configuration, and says how many there are. None where they are not read.
fn add_pairs(
    rt: &HostRuntime,
    plan: &Plan<'_>,
    given: &Given,
    configuration: &mut Configuration,
) -> Option<usize> {
    let (Some(path), Some(initial)) = (plan.initial, &given.initial) else {
        return Some(0);
    };
    match add_initial(
        rt.alloc(),
        configuration,
        path.as_bytes(),
        initial.as_slice(),
    ) {
        Ok(count) => Some(count),
        Err(fault) => {
            show_initial_fault(rt, path, &fault);
            None
        }
    }
}

// The names beside which values are hidden, if any are.
fn secret_names<'a>(
    alloc: Global,
    redaction: &'a Redaction<'a>,
    configuration: &Configuration,
) -> Result<Option<SecretNames<'a>>, AllocError> {
    match redaction.secrets() {
        SecretValues::Hidden => Ok(Some(SecretNames::new(alloc, redaction, configuration)?)),
        SecretValues::Shown => Ok(None),
    }
}

// The import by a dictionary that is read, and by what is hidden.
fn import_hiding(
    rt: &HostRuntime,
    plan: &Plan<'_>,
    dictionaries: &[&str],
    read: &Read<'_>,
    redaction: &Redaction<'_>,
) -> Result<u8, Fault>
    ensures { IfErr result IsPrintedAnywhere }
{
    let mut configuration = match read_named(rt, plan)? {
        Ok(configuration) => configuration,
        Err(fault) => {
            show_fault(rt, &fault);
            return Ok(status(&Fault::OptionValue));
        }
    };
    let statements = match statements_meant(rt.alloc(), plan, &configuration) {
        Ok(Some(statements)) => statements,
        Ok(None) => return Ok(refuse_section(rt, plan, &configuration)),
        Err(fault) => return refuse_statements(rt, fault),
    };
    let Some(initial) = add_pairs(rt, plan, read.given, &mut configuration) else {
        return Ok(status(&Fault::OptionValue));
    };
    let names = secret_names(rt.alloc(), redaction, &configuration)?;
    let import = Import {
        plan,
        dictionaries,
        configuration: &configuration,
        modules: &read.given.modules,
        initial,
        hidden: names.as_ref(),
        statements: statements.as_slice(),
    };
    import_statements_meant(rt, &import, read.files, redaction.dictionary())
}

fn import_by(
    rt: &HostRuntime,
    plan: &Plan<'_>,
    dictionaries: &[&str],
    read: &Read<'_>,
) -> Result<u8, Fault>
    requires first { 0 < length read.now.files.now }
    requires distinct { HasDistinctNames read.now.files.now }
    ensures { IfErr result (IsPrintedWith read.now.files.now) }
{
    let dictionary = dictionary_of(rt.alloc(), read.files)?;
    let given = match named_attributes(rt.alloc(), &dictionary, &plan.hidden)? {
        Ok(given) => given,
        Err(name) => return Ok(refuse_name(rt, PROGRAM, &dictionary, name)),
    };
    let hiding = Hiding {
        secrets: plan.secrets,
        given: &given,
    };
    let redaction = Redaction::new(rt.alloc(), &dictionary, hiding, &[])?;
    import_hiding(rt, plan, dictionaries, read, &redaction)
}

// Refuses an import. A fault of the policy is in what was made, which is no file.
fn refuse_import(rt: &HostRuntime, dictionaries: &[&str], files: &FileSet, fault: &Fault) -> u8
    requires { IsPrintedWith files.now fault.now }
{
    match fault {
        Fault::Dictionary(_) => {
            refuse_explained(
                rt,
                PROGRAM,
                fault,
                files,
                &Sources::of_files(files, dictionaries),
            )
        }
        _ => refuse(rt, PROGRAM, fault, files),
    }
}

fn import_with(rt: &HostRuntime, plan: &Plan<'_>, dictionaries: &[&str]) -> u8 {
    let given = match read_given(rt, plan) {
        Ok(given) => given,
        Err(unread) => return refuse_unread_explained(rt, PROGRAM, unread),
    };
    let files = match read_dictionary_set(rt, dictionaries) {
        Ok(files) => files,
        Err(unread) => return refuse_unread_explained(rt, PROGRAM, unread),
    };
    let read = Read {
        files: &files,
        given: &given,
    };
    match import_by(rt, plan, dictionaries, &read) {
        Ok(status) => status,
        Err(fault) => refuse_import(rt, dictionaries, &files, &fault),
    }
}

fn borrowed<'a>(alloc: Global, paths: &'a [String]) -> Result<Vec<&'a str>, AllocError> {
    let mut words = Vec::new(alloc);
    for path in paths {
        words.push(path.as_str())?;
    }
    Ok(words)
}

// The same by the dictionaries of the system.
fn import_by_system(rt: &HostRuntime, plan: &Plan<'_>) -> Result<u8, AllocError> {
    let paths = system_dictionaries(rt.alloc(), &SystemFiles::new(rt, &[]))?;
    let words = borrowed(rt.alloc(), &paths)?;
    Ok(import_with(rt, plan, &words))
}

fn import_plan(rt: &HostRuntime, plan: &Plan<'_>) -> u8 {
    if !plan.dictionaries.is_empty() {
        return import_with(rt, plan, &plan.dictionaries);
    }
    match import_by_system(rt, plan) {
        Ok(status) => status,
        Err(_) => refuse_early(rt, PROGRAM, &Fault::Memory),
    }
}

fn import_words(rt: &HostRuntime, words: &[String]) -> u8 {
    match read_words(rt.alloc(), words) {
        Ok(plan) => import_plan(rt, &plan),
        Err(Fault::Help) => show_help(rt, PROGRAM, help_text(rt.alloc(), words)),
        Err(fault) => refuse_words_of(rt, &fault, PROGRAM, help_text(rt.alloc(), words)),
    }
}

fn main(rt: HostRuntime) -> ExitCode {
    let code = match command_words(&rt, PROGRAM) {
        Ok(words) => import_words(&rt, words.as_slice()),
        Err(code) => code,
    };
    ExitCode::from(code)
}
