//! The program: its words, the files that they name, and what is found in them.
#![tactic(auto)]

mod command_line;
mod linting;
mod printing;

ghost use Rattle.std.specs.Prelude.{◌<◌, length};
ghost use Rattle.avp_dict.specs.Lines.{HasDistinctNames};

use crate::command_line::{Plan, help_text, read_words};
use crate::linting::{Found, Linter, Reading};
use avp_dict::{Dictionary, FileSet};
use radpolicy::Fault;
use radpolicy_common::{
    Unread, command_words, dictionaries_meant, lent_paths, named_attributes, read_dictionary_set,
    read_file, refuse_early, show_help,
};
use radpolicy_help::{refuse_name, refuse_unread_explained, refuse_words_of};
use std::alloc::AllocError;
use std::process::ExitCode;

const PROGRAM: &str = "radpolicy-lint";

// Adds what is found in a policy's file.
fn lint_policy<'a>(
    rt: &HostRuntime,
    linter: &Linter<'a>,
    found: &mut Found,
    reading: Reading<'_>,
    path: &'a str,
) -> Result<(), AllocError> {
    match read_file(rt, path) {
        Ok(text) => linter.add_policy(found, reading, path, text.as_slice()),
        Err(Unread::Memory) => Err(AllocError),
        Err(unread) => linter.add_unread(found, path, unread.fault()),
    }
}

fn lint_request<'a>(
    rt: &HostRuntime,
    linter: &Linter<'a>,
    found: &mut Found,
    dictionary: &Dictionary,
    path: &'a str,
) -> Result<(), AllocError> {
    match read_file(rt, path) {
        Ok(text) => linter.add_request(found, dictionary, path, text.as_slice()),
        Err(Unread::Memory) => Err(AllocError),
        Err(unread) => linter.add_unread(found, path, unread.fault()),
    }
}

// Adds what is found in all files but the dictionary's.
fn lint_files(
    rt: &HostRuntime,
    linter: &Linter<'_>,
    found: &mut Found,
    reading: Reading<'_>,
) -> Result<(), AllocError> {
    for path in &linter.plan.policies {
        lint_policy(rt, linter, found, reading, path)?;
    }
    for path in &linter.plan.requests {
        lint_request(rt, linter, found, reading.dictionary, path)?;
    }
    Ok(())
}

// Shows what is found in all files by a dictionary, unless a name is none that is to be hidden.
fn lint_by(
    rt: &HostRuntime,
    linter: &Linter<'_>,
    dictionary: &Dictionary,
) -> Result<u8, AllocError> {
    let hidden = match named_attributes(rt.alloc(), dictionary, &linter.plan.hidden)? {
        Ok(ids) => ids,
        Err(name) => return Ok(refuse_name(rt, PROGRAM, dictionary, name)),
    };
    let reading = Reading {
        dictionary,
        hidden: &hidden,
    };
    let mut found = Found::new(rt.alloc());
    lint_files(rt, linter, &mut found, reading)?;
    Ok(show(rt, &found))
}

fn lint_set(rt: &HostRuntime, plan: &Plan<'_>, files: &FileSet) -> Result<u8, AllocError>
    requires first { 0 < length files.now }
    requires distinct { HasDistinctNames files.now }
{
    let linter = Linter { plan, files };
    match Dictionary::read(rt.alloc(), files) {
        Ok(dictionary) => lint_by(rt, &linter, &dictionary),
        Err(fault) => {
            let mut found = Found::new(rt.alloc());
            linter.add_dictionary(&mut found, Fault::from(fault))?;
            Ok(show(rt, &found))
        }
    }
}

fn show(rt: &HostRuntime, found: &Found) -> u8 {
    match rt.stdout().write_all(&found.text) {
        Ok(()) => found.status,
        Err(_) => refuse_early(rt, PROGRAM, &Fault::Write),
    }
}

fn lint_plan(rt: &HostRuntime, plan: &Plan<'_>) -> u8 {
    let files = match read_dictionary_set(rt, &plan.dictionaries) {
        Ok(files) => files,
        Err(unread) => return refuse_unread_explained(rt, PROGRAM, unread),
    };
    match lint_set(rt, plan, &files) {
        Ok(code) => code,
        Err(_) => refuse_early(rt, PROGRAM, &Fault::Memory),
    }
}

// What is found by the words, with the dictionaries that they mean.
fn lint_by_meant<'a>(rt: &HostRuntime, words: &'a [String], paths: &'a [String]) -> u8 {
    let Ok(lent) = lent_paths(rt.alloc(), paths) else {
        return refuse_early(rt, PROGRAM, &Fault::Memory);
    };
    match read_words(rt.alloc(), words) {
        Ok(plan) => {
            let mut meant = plan;
            meant.dictionaries = lent;
            lint_plan(rt, &meant)
        }
        // The words were read before, so only memory is wanting.
        Err(_) => refuse_early(rt, PROGRAM, &Fault::Memory),
    }
}

fn lint_words(rt: &HostRuntime, words: &[String]) -> u8 {
    match read_words(rt.alloc(), words) {
        Ok(plan) => match dictionaries_meant(rt, &plan.dictionaries, plan.folder) {
            Ok(paths) => lint_by_meant(rt, words, &paths),
            Err(_) => refuse_early(rt, PROGRAM, &Fault::Memory),
        },
        Err(Fault::Help) => show_help(rt, PROGRAM, help_text(rt.alloc(), words)),
        Err(fault) => refuse_words_of(rt, &fault, PROGRAM, help_text(rt.alloc(), words)),
    }
}

fn main(rt: HostRuntime) -> ExitCode {
    let code = match command_words(&rt, PROGRAM) {
        Ok(words) => lint_words(&rt, words.as_slice()),
        Err(code) => code,
    };
    ExitCode::from(code)
}
