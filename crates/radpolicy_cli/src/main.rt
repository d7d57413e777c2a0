//! The program: its words, the files that they name, and what it prints.
#![tactic(auto)]

ghost use Rattle.std.specs.Prelude.{◌≡◌, []};
ghost use Rattle.radpolicy.specs.Faults.{IsPrintedWith, status_of};
ghost use Rattle.radpolicy.specs.Plans.{IsSound, asked_by_job, asked_by_plan};

use avp_dict::FileSet;
use radpolicy::{Fault, Job, Outcome, Plan, WriteOutput, answer, help_text, read_words};
use radpolicy_common::{
    Unread, command_words, job_of, refuse, refuse_early, refuse_unread, show_help,
};
use radpolicy_help::{
    Sources, explain, explain_words, is_help_wanted, refuse_with_help, stop_text, tell_unread,
    warnings_text,
};
use std::process::ExitCode;

const PROGRAM: &str = "radpolicy";

// Refuses the words of the command line.
fn refuse_words(rt: &HostRuntime, fault: &Fault, words: &[String]) -> u8
    requires { IsPrintedWith [] fault.now }
    ensures { result ≡ status_of fault.now }
{
    if !is_help_wanted(rt) {
        return refuse_early(rt, PROGRAM, fault);
    }
    let help = explain_words(rt.alloc(), fault, words);
    refuse_with_help(rt, fault, &FileSet::from_vec(Vec::new(rt.alloc())), help)
}

// Prints why the run of a job was stopped, if it was and there is memory for it.
fn tell_stop(rt: &HostRuntime, sources: &Sources<'_>, job: &Job) {
    if let Ok(text) = stop_text(rt.alloc(), sources, job) {
        let _ = rt.stderr().write_all(&text);
    }
}

// Prints what the job's policy is warned of, if there is memory for it.
fn warn(rt: &HostRuntime, sources: &Sources<'_>) {
    if let Ok(text) = warnings_text(rt.alloc(), sources) {
        let _ = rt.stderr().write_all(&text);
    }
}

// What follows the report of a job with a policy, if it is wanted.
fn tell_more(rt: &HostRuntime, plan: &Plan, job: &Job, outcome: Outcome) {
    if job.policy.is_none() || !is_help_wanted(rt) {
        return;
    }
    let sources = Sources::of_job(plan, job);
    if outcome.stopped {
        tell_stop(rt, &sources, job);
    }
    warn(rt, &sources);
}

// Refuses a job. The fault's line has the octets of what it names.
fn refuse_job(rt: &HostRuntime, plan: &Plan, job: &Job, fault: &Fault) -> u8
    requires { IsPrintedWith job.now.files fault.now }
    ensures { result ≡ status_of fault.now }
{
    if !is_help_wanted(rt) {
        return refuse(rt, PROGRAM, fault, &job.files);
    }
    let help = explain(rt.alloc(), fault, &Sources::of_job(plan, job));
    refuse_with_help(rt, fault, &job.files, help)
}

// Refuses files that were not all read. The line has the octets of the path.
fn refuse_files(rt: &HostRuntime, unread: Unread<'_>) -> u8 {
    let code = refuse_unread(rt, PROGRAM, unread);
    tell_unread(rt, unread);
    code
}

fn run_job(rt: &HostRuntime, plan: &Plan, job: &Job) -> u8
    requires { IsSound (asked_by_job job.now) }
{
    let mut out = WriteOutput::new(rt.stdout());
    match answer(rt.alloc(), job, &mut out) {
        Ok(outcome) => {
            tell_more(rt, plan, job, outcome);
            0
        }
        Err(fault) => refuse_job(rt, plan, job, &fault),
    }
}

fn run_plan(rt: &HostRuntime, plan: &Plan) -> u8
    requires { IsSound (asked_by_plan plan.now) }
{
    match job_of(rt, plan) {
        Ok(job) => run_job(rt, plan, &job),
        Err(unread) => refuse_files(rt, unread),
    }
}

fn run_words(rt: &HostRuntime, words: &[String]) -> u8 {
    match read_words(rt.alloc(), words) {
        Ok(plan) => run_plan(rt, &plan),
        Err(Fault::Help) => show_help(rt, PROGRAM, help_text(rt.alloc(), words)),
        Err(fault) => refuse_words(rt, &fault, words),
    }
}

fn main(rt: HostRuntime) -> ExitCode {
    let code = match command_words(&rt, PROGRAM) {
        Ok(words) => run_words(&rt, words.as_slice()),
        Err(code) => code,
    };
    ExitCode::from(code)
}
