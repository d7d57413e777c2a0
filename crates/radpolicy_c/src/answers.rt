//! The answer to a whole job.

ghost use Rattle.std.specs.Prelude.{◌≡◌, ◌↔◌, IsTrue, [], Some};
ghost use Rattle.radpolicy.specs.Faults.{IsPrintedWith};
ghost use Rattle.radpolicy.specs.Plans.{IsSound, Rules, asked_by_job};
ghost use Rattle.radpolicy_c.specs.Answers.{Answers, AnswersBy};
ghost use Rattle.radpolicy_c.specs.internal.Telling.{TellsAnswerFault};

use crate::jobs::{RadpolicyJob, job_given};
use crate::lines::{Collected, line_of};
use crate::statuses::Status;
use avp_dict::FileSet;
use avp_lists::Octets;
use radpolicy::{Command, Fault, Form, Job, answer};
use std::alloc::Global;

/// What is told of a job: its status, and its report or the line of a fault.
#[derive(Debug, Drop)]
pub struct Answered {
    pub status: Status,
    pub text: Octets,
}

// Whether what the job asks for goes together, by its command.
fn keeps_rules(job: &Job) -> bool
    ensures { IsTrue result ↔ Rules job.now.command (asked_by_job job.now) }
{
    let has_authenticator = job.authenticator.is_some();
    let has_secret = job.secret.is_some();
    let has_policy = job.policy.is_some();
    match (job.command, job.form) {
        (Command::Run, Form::Hex) => {
            has_policy && has_secret && job.identifier == 0 && !has_authenticator
        }
        (Command::Run, Form::Access) => has_policy && has_authenticator == has_secret,
        (Command::Run, Form::Accounting) => has_policy && !has_authenticator,
        (Command::Step, Form::Hex) => has_policy && job.script.is_some() && has_secret,
        (Command::Step, _) => has_policy && job.script.is_some() && !has_secret,
        (Command::Encode, Form::Hex) => false,
        (Command::Encode, Form::Access) => has_secret && has_authenticator,
        (Command::Encode, Form::Accounting) => has_secret && !has_authenticator,
        (Command::Decode, form) => has_secret && form == Form::Hex,
        (Command::Check, _) => true,
    }
}

// Whether there are files, no two have one name, and what the job asks for goes together.
fn is_sound(job: &Job) -> bool
    ensures { IsTrue result ↔ IsSound (asked_by_job job.now) }
{
    if job.files.is_empty() {
        return false;
    }
    if !job.files.has_distinct_names() {
        return false;
    }
    keeps_rules(job)
}

fn only_told(alloc: Global, status: Status) -> Answered
    ensures { result ≡ record { status = status; text = [] } }
{
    Answered {
        status,
        text: Octets::from_vec(Vec::new(alloc)),
    }
}

// The line of a fault; that of want of memory is not told, and neither is that of a report that found no memory.
fn refusal(alloc: Global, fault: &Fault, files: &FileSet) -> Answered
    requires { IsPrintedWith files.now fault.now }
    ensures { TellsAnswerFault files.now fault.now result.status result.text }
{
    if *fault == Fault::Memory || *fault == Fault::Write {
        return only_told(alloc, Status::NoMemory);
    }
    match line_of(alloc, fault, files) {
        Ok(line) => Answered {
            status: Status::Refused,
            text: Octets::from_vec(line),
        },
        Err(_) => only_told(alloc, Status::NoMemory),
    }
}

// The answer to a job.
fn answer_job(alloc: Global, job: &Job) -> Answered
    ensures { AnswersBy result.status (Some job.now) result.text }
{
    if !is_sound(job) {
        return refusal(alloc, &Fault::OptionValue, &job.files);
    }
    let mut report = Collected::new(alloc);
    match answer(alloc, job, &mut report) {
        Ok(_) => Answered {
            status: Status::Done,
            text: Octets::from_vec(report.octets),
        },
        Err(fault) => refusal(alloc, &fault, &job.files),
    }
}

/// The answer to the job that C asks for.
pub(crate) fn answer_given(alloc: Global, asked: &RadpolicyJob<'_>) -> Answered
    ensures { Answers asked.now result }
{
    match job_given(alloc, asked) {
        Ok(Some(job)) => answer_job(alloc, &job),
        Ok(None) => {
            let no_files = FileSet::from_vec(Vec::new(alloc));
            refusal(alloc, &Fault::OptionValue, &no_files)
        }
        Err(_) => only_told(alloc, Status::NoMemory),
    }
}
