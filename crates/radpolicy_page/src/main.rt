//! The program: its words, the files that they name, and the page that it writes.
#![tactic(auto)]

mod command_line;
mod fixed_page;
mod writing;

ghost use Rattle.std.specs.Prelude.{◌<◌, IfErr, length};
ghost use Rattle.avp_dict.specs.Lines.{HasDistinctNames};
ghost use Rattle.radpolicy.specs.Faults.{IsPrintedAnywhere, IsPrintedWith};

use crate::command_line::{Plan, help_text, read_words};
use crate::writing::{PROGRAM, write_page};
use avp_dict::Dictionary;
use avp_lists::AttrId;
use radpolicy::{Fault, PreparedPolicy, status};
use radpolicy_common::{
    Hiding, command_words, dictionaries_meant, lent_paths, named_attributes, refuse_early,
    refuse_outputs, show_help,
};
use radpolicy_help::{refuse_name, refuse_words_of};
use radpolicy_page_data::{Page, PageFault, page_of};
use radpolicy_starts::{StartFiles, StartPlan, open_start, refuse_files};
use std::alloc::Global;
use std::process::ExitCode;

// The page of what the files hold; the outer refusal is that of `radpolicy run`.
fn page_with(
    alloc: Global,
    dictionary: &Dictionary,
    plan: &StartPlan<'_>,
    files: &StartFiles,
    given: &[AttrId],
) -> Result<Result<Page, PageFault>, Fault>
    ensures { IfErr result IsPrintedAnywhere }
{
    let secret = files.shared_secret()?;
    let policy = PreparedPolicy::read(alloc, dictionary, files.policy.as_slice())?;
    let start = files.start(alloc, &policy, secret.as_ref(), plan)?;
    let outcome = start.run(alloc)?;
    let start = files.start(alloc, &policy, secret.as_ref(), plan)?;
    let text = files.policy.as_slice();
    let hiding = Hiding {
        secrets: plan.secrets,
        given,
    };
    Ok(page_of(alloc, start, outcome.reply(), text, hiding))
}

// Shows the page of what the files hold, and gives the status; or what is wrong with them.
fn show_files(rt: &HostRuntime, plan: &Plan<'_>, files: &StartFiles) -> Result<u8, Fault>
    requires first { 0 < length files.now.dictionary }
    requires distinct { HasDistinctNames files.now.dictionary }
    ensures { IfErr result (IsPrintedWith files.now.dictionary) }
{
    let alloc = rt.alloc();
    let dictionary = Dictionary::read(alloc, &files.dictionary)?;
    let given = match named_attributes(alloc, &dictionary, &plan.start.hidden)? {
        Ok(given) => given,
        Err(name) => return Ok(refuse_name(rt, PROGRAM, &dictionary, name)),
    };
    let page = page_with(alloc, &dictionary, &plan.start, files, &given)?;
    Ok(show_page(rt, plan, page))
}

fn show_page(rt: &HostRuntime, plan: &Plan<'_>, page: Result<Page, PageFault>) -> u8 {
    match page {
        Ok(page) => match write_page(rt, plan, &page) {
            Ok(()) => 0,
            Err(fault) => refuse_outputs(rt, PROGRAM, &fault),
        },
        Err(PageFault::Memory) => refuse_early(rt, PROGRAM, &Fault::Memory),
        Err(PageFault::TooLarge) => {
            let _ = eprintln!(rt;
                "radpolicy-page: the run is too long for a page; nothing is written"
            );
            status(&Fault::Write)
        }
    }
}

// Shows the page of a plan.
fn show_plan(rt: &HostRuntime, plan: Plan<'_>) -> u8 {
    let mut plan = plan;
    let files = match open_start(rt, PROGRAM, &mut plan.start) {
        Ok(files) => files,
        Err(status) => return status,
    };
    match show_files(rt, &plan, &files) {
        Ok(status) => status,
        Err(fault) => refuse_files(rt, PROGRAM, &plan.start, &files, &fault),
    }
}

// The page that the words ask for, with the dictionaries that they mean.
fn show_by_meant<'a>(rt: &HostRuntime, words: &'a [String], paths: &'a [String]) -> u8 {
    let Ok(lent) = lent_paths(rt.alloc(), paths) else {
        return refuse_early(rt, PROGRAM, &Fault::Memory);
    };
    match read_words(rt.alloc(), words) {
        Ok(plan) => {
            let Plan {
                start,
                output,
                is_forced,
            } = plan;
            let mut meant = start;
            meant.dictionaries = lent;
            let plan = Plan {
                start: meant,
                output,
                is_forced,
            };
            show_plan(rt, plan)
        }
        // The words were read before, so only memory is wanting.
        Err(_) => refuse_early(rt, PROGRAM, &Fault::Memory),
    }
}

fn obey_words(rt: &HostRuntime, words: &[String]) -> u8 {
    match read_words(rt.alloc(), words) {
        Ok(plan) => match dictionaries_meant(rt, &plan.start.dictionaries, plan.start.folder) {
            Ok(paths) => show_by_meant(rt, words, &paths),
            Err(_) => refuse_early(rt, PROGRAM, &Fault::Memory),
        },
        Err(Fault::Help) => show_help(rt, PROGRAM, help_text(rt.alloc(), words)),
        Err(fault) => refuse_words_of(rt, &fault, PROGRAM, help_text(rt.alloc(), words)),
    }
}

fn main(rt: HostRuntime) -> ExitCode {
    let code = match command_words(&rt, PROGRAM) {
        Ok(words) => obey_words(&rt, words.as_slice()),
        Err(code) => code,
    };
    ExitCode::from(code)
}
