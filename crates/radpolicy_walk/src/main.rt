//! The program: its words, the files that they name, and the walk by commands.
#![tactic(auto)]

mod command_line;
mod dialogues;

ghost use Rattle.std.specs.Prelude.{◌<◌, IfErr, length};
ghost use Rattle.avp_dict.specs.Lines.{HasDistinctNames};
ghost use Rattle.radpolicy.specs.Faults.{IsPrintedAnywhere, IsPrintedWith};

use crate::command_line::{Plan, help_text, read_words};
use crate::dialogues::{Beginning, Dialogue, Ending, PolicyLines};
use avp_dict::Dictionary;
use avp_lists::{AttrId, Octets};
use radpolicy::{Fault, PreparedPolicy, Start, status};
use radpolicy_common::{
    Hiding, Unread, command_words, dictionaries_meant, lent_paths, named_attributes, policy_shown,
    read_optional, refuse_early, refuse_unread, show_help,
};
use radpolicy_help::{refuse_name, refuse_unread_explained, refuse_words_of};
use radpolicy_starts::{StartFiles, StartPlan, open_start, refuse_files};
use radpolicy_walk_commands::Session;
use std::alloc::AllocError;
use std::process::ExitCode;

const PROGRAM: &str = "radpolicy-walk";

// Why a walk ended early. Standard input is named as a file that cannot be read is.
fn status_of_ending(rt: &HostRuntime, ending: Ending) -> u8 {
    match ending {
        Ending::Done => 0,
        Ending::Memory => refuse_early(rt, PROGRAM, &Fault::Memory),
        Ending::Output => refuse_early(rt, PROGRAM, &Fault::Write),
        Ending::Input => refuse_unread(rt, PROGRAM, Unread::File("-")),
        Ending::Script => status(&Fault::ScriptWord { line: 0 }),
    }
}

// The commands of a walk: those of the file of this path, or where there is none of standard input.
#[derive(Drop)]
struct Commands<'a> {
    path: &'a str,
    script: Option<Octets>,
}

// A walk over the run from a start, by the commands.
fn walk_from<'a>(
    rt: &HostRuntime,
    beginning: Beginning<'a>,
    start: Start<'a>,
    files: &StartFiles,
    commands: &Commands<'_>,
) -> Result<Ending, AllocError> {
    let alloc = rt.alloc();
    let text = files.policy.as_slice();
    let session = Session::new(alloc, start, beginning.hiding)?;
    let shown = policy_shown(alloc, session.redaction(), text)?;
    let lines = PolicyLines::new(alloc, text, &shown)?;
    let mut dialogue = Dialogue::new(rt, beginning, session, lines, files.title.as_slice());
    Ok(match &commands.script {
        Some(script) => dialogue.follow_script(rt, commands.path, script.as_slice()),
        None => dialogue.follow_input(rt),
    })
}

// What a walk goes over: what words say, what the files hold, and the commands.
#[derive(Clone, Copy)]
struct Walk<'a, 'b> {
    plan: &'b StartPlan<'a>,
    files: &'b StartFiles,
    commands: &'b Commands<'a>,
}

// What is read of the files by a dictionary, and the walk by it. These attributes are hidden as well.
fn walk_with(
    rt: &HostRuntime,
    walk: &Walk<'_, '_>,
    dictionary: &Dictionary,
    given: &[AttrId],
) -> Result<u8, Fault>
    ensures { IfErr result IsPrintedAnywhere }
{
    let alloc = rt.alloc();
    let (plan, files) = (walk.plan, walk.files);
    let secret = files.shared_secret()?;
    let policy = PreparedPolicy::read(alloc, dictionary, files.policy.as_slice())?;
    let start = files.start(alloc, &policy, secret.as_ref(), plan)?;
    let beginning = Beginning {
        policy: &policy,
        head: plan.head(),
        zone: plan.zone,
        hiding: Hiding {
            secrets: plan.secrets,
            given,
        },
    };
    let ending = walk_from(rt, beginning, start, files, walk.commands)?;
    Ok(status_of_ending(rt, ending))
}

// What is read of the files, and the walk by it.
fn walk_by(rt: &HostRuntime, walk: &Walk<'_, '_>) -> Result<u8, Fault>
    requires first { 0 < length walk.now.files.now.dictionary }
    requires distinct { HasDistinctNames walk.now.files.now.dictionary }
    ensures { IfErr result (IsPrintedWith walk.now.files.now.dictionary) }
{
    let alloc = rt.alloc();
    let dictionary = Dictionary::read(alloc, &walk.files.dictionary)?;
    let given = match named_attributes(alloc, &dictionary, &walk.plan.hidden)? {
        Ok(given) => given,
        Err(name) => return Ok(refuse_name(rt, PROGRAM, &dictionary, name)),
    };
    let status = walk_with(rt, walk, &dictionary, &given)?;
    Ok(status)
}

fn walk_plan(rt: &HostRuntime, plan: Plan<'_>) -> u8 {
    let mut start = plan.start;
    let files = match open_start(rt, PROGRAM, &mut start) {
        Ok(files) => files,
        Err(status) => return status,
    };
    let script = match read_optional(rt, plan.script) {
        Ok(script) => script,
        Err(unread) => return refuse_unread_explained(rt, PROGRAM, unread),
    };
    let commands = Commands {
        path: plan.script.unwrap_or(""),
        script,
    };
    let walk = Walk {
        plan: &start,
        files: &files,
        commands: &commands,
    };
    match walk_by(rt, &walk) {
        Ok(status) => status,
        Err(fault) => refuse_files(rt, PROGRAM, &start, &files, &fault),
    }
}

// The walk that the words ask for, with the dictionaries that they mean.
fn walk_by_meant<'a>(rt: &HostRuntime, words: &'a [String], paths: &'a [String]) -> u8 {
    let Ok(lent) = lent_paths(rt.alloc(), paths) else {
        return refuse_early(rt, PROGRAM, &Fault::Memory);
    };
    match read_words(rt.alloc(), words) {
        Ok(plan) => {
            let Plan { start, script } = plan;
            let mut meant = start;
            meant.dictionaries = lent;
            let plan = Plan {
                start: meant,
                script,
            };
            walk_plan(rt, plan)
        }
        // The words were read before, so only memory is wanting.
        Err(_) => refuse_early(rt, PROGRAM, &Fault::Memory),
    }
}

fn walk_words(rt: &HostRuntime, words: &[String]) -> u8 {
    match read_words(rt.alloc(), words) {
        Ok(plan) => match dictionaries_meant(rt, &plan.start.dictionaries, plan.start.folder) {
            Ok(paths) => walk_by_meant(rt, words, &paths),
            Err(_) => refuse_early(rt, PROGRAM, &Fault::Memory),
        },
        Err(Fault::Help) => show_help(rt, PROGRAM, help_text(rt.alloc(), words)),
        Err(fault) => refuse_words_of(rt, &fault, PROGRAM, help_text(rt.alloc(), words)),
    }
}

fn main(rt: HostRuntime) -> ExitCode {
    let code = match command_words(&rt, PROGRAM) {
        Ok(words) => walk_words(&rt, words.as_slice()),
        Err(code) => code,
    };
    ExitCode::from(code)
}
