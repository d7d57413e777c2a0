//! A whole job, as C gives it.

ghost use Rattle.std.specs.Prelude.{◌≡◌, IfOk};
ghost use Rattle.radpolicy_c.specs.Jobs.{command_given, job_given, job_with, part_given};

use crate::files::{RadpolicyFile, file_set_of};
use crate::requests::form_given;
use avp_lists::Octets;
use radpolicy::{Command, Form, Job};
use std::alloc::{AllocError, Global};

/// A job, as the program's command line and its files give it. A part that its flag does not say is there is not
/// looked at.
#[repr(C)]
#[derive(Clone, Copy, Drop)]
pub struct RadpolicyJob<'a> {
    /// The dictionary files, the main one first.
    pub files: &'a [RadpolicyFile<'a>],
    /// A packet in hexadecimal digits, or lines.
    pub request: &'a [u8],
    /// A file whose first line is the secret.
    pub secret: &'a [u8],
    pub policy: &'a [u8],
    pub script: &'a [u8],
    pub authenticator: [u8; 16],
    /// 0 run, 1 step, 2 encode, 3 decode, 4 check.
    pub command: u8,
    /// 0 a packet in hexadecimal digits, 1 the lines of an Access-Request, 2 those of an Accounting-Request.
    pub form: u8,
    pub identifier: u8,
    pub has_authenticator: bool,
    pub has_secret: bool,
    pub has_policy: bool,
    pub has_script: bool,
}

fn command_given(number: u8) -> Option<Command>
    ensures { result ≡ command_given number }
{
    match number {
        0 => Some(Command::Run),
        1 => Some(Command::Step),
        2 => Some(Command::Encode),
        3 => Some(Command::Decode),
        4 => Some(Command::Check),
        _ => None,
    }
}

fn part_given(alloc: Global, is_there: bool, octets: &[u8]) -> Result<Option<Octets>, AllocError>
    ensures { IfOk result (λ part. part ≡ part_given is_there octets.now) }
{
    if is_there {
        Ok(Some(Octets::from_slice(alloc, octets)?))
    } else {
        Ok(None)
    }
}

fn job_with(
    alloc: Global,
    asked: &RadpolicyJob<'_>,
    command: Command,
    form: Form,
) -> Result<Job, AllocError>
    ensures { IfOk result (λ job. job ≡ job_with asked.now command form) }
{
    let authenticator = if asked.has_authenticator {
        Some(asked.authenticator)
    } else {
        None
    };
    Ok(Job {
        command,
        files: file_set_of(alloc, asked.files)?,
        request: Octets::from_slice(alloc, asked.request)?,
        form,
        identifier: asked.identifier,
        authenticator,
        secret: part_given(alloc, asked.has_secret, asked.secret)?,
        policy: part_given(alloc, asked.has_policy, asked.policy)?,
        script: part_given(alloc, asked.has_script, asked.script)?,
    })
}

/// The job, or none where its command or its form is not known.
pub(crate) fn job_given(alloc: Global, asked: &RadpolicyJob<'_>) -> Result<Option<Job>, AllocError>
    ensures { IfOk result (λ job. job ≡ job_given asked.now) }
{
    match (command_given(asked.command), form_given(asked.form)) {
        (Some(command), Some(form)) => Ok(Some(job_with(alloc, asked, command, form)?)),
        _ => Ok(None),
    }
}
