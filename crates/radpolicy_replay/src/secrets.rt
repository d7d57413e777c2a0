//! The secrets of a plan.

ghost use Rattle.std.specs.Prelude.{IfErr};
ghost use Rattle.radpolicy.specs.Faults.{IsPrintedAnywhere};

use crate::PROGRAM;
use crate::client_help::client_help;
use crate::command_line::SecretPlan;
use crate::places::shown;
use avp_lists::Octets;
use radpolicy::{Fault, Secret, status};
use radpolicy_clients::{ClientFault, Clients, ClientsFault, read_clients};
use radpolicy_common::{Unread, read_file, refuse_early};
use radpolicy_help::{refuse_unread_explained, tell_fault};
use radpolicy_replay_records::SharedSecrets;
use server_configuration::SystemFiles;
use std::alloc::{AllocError, Global};

/// What the secret's file holds; nothing where there is none.
pub fn read_secret<'a>(rt: &HostRuntime, plan: SecretPlan<'a>) -> Result<Octets, Unread<'a>> {
    match plan {
        SecretPlan::File(path) => read_file(rt, path),
        SecretPlan::Clients(_) | SecretPlan::Unknown => {
            Ok(Octets::from_vec(Vec::new(rt.alloc())))
        }
    }
}

// Where clients are not read, and what their line includes, if that is not read.
fn clients_place(alloc: Global, refused: &ClientsFault) -> Result<String, AllocError> {
    let file = shown(alloc, &refused.path)?;
    let line = refused.line;
    match &refused.unread {
        Some(unread) => {
            let unread = shown(alloc, unread)?;
            format!(in alloc; "{file}:{line}: {unread}")
        }
        None => format!(in alloc; "{file}:{line}"),
    }
}

// The line of a file of clients that may not be read.
fn forbidden_line(
    alloc: Global,
    path: &str,
    refused: &ClientsFault,
) -> Result<Vec<u8>, AllocError> {
    let (path, fault) = (shown(alloc, path.as_bytes())?, refused.fault);
    let line = format!(in alloc; "{PROGRAM}: E04 {path}: {fault}")?;
    Ok(line.into_bytes())
}

// The line of a fault in a file of clients.
fn clients_line(alloc: Global, refused: &ClientsFault) -> Result<Vec<u8>, AllocError> {
    let (place, fault) = (clients_place(alloc, refused)?, refused.fault);
    let line = format!(in alloc; "{PROGRAM}: E02 {place}: {fault}")?;
    Ok(line.into_bytes())
}

// Why the clients are not read, and where. No secret is said.
fn refuse_clients<'a>(rt: &HostRuntime, path: &'a str, refused: &ClientsFault) -> u8 {
    match refused.fault {
        ClientFault::Memory => refuse_early(rt, PROGRAM, &Fault::Memory),
        ClientFault::Unreadable => refuse_unread_explained(rt, PROGRAM, Unread::File(path)),
        ClientFault::Forbidden => {
            let line = forbidden_line(rt.alloc(), path, refused);
            let fault = Fault::FileNotReadable;
            tell_fault(rt, PROGRAM, &fault, line, Ok(Vec::new(rt.alloc())));
            status(&fault)
        }
        found => {
            let line = clients_line(rt.alloc(), refused);
            let fault = Fault::OptionValue;
            tell_fault(rt, PROGRAM, &fault, line, client_help(rt.alloc(), found));
            status(&fault)
        }
    }
}

/// The secret of a file, or those of clients, if one is known.
#[derive(Drop)]
pub enum HeldSecrets<'a> {
    One(Secret<'a>),
    ByClient(Clients),
    Unknown,
}

impl<'a> HeldSecrets<'a> {
    /// The secrets, as they are looked up.
    pub fn shared(&'a self) -> SharedSecrets<'a> {
        match self {
            HeldSecrets::One(secret) => SharedSecrets::One(secret),
            HeldSecrets::ByClient(clients) => SharedSecrets::ByClient(clients),
            HeldSecrets::Unknown => SharedSecrets::Unknown,
        }
    }
}

/// The secrets of a plan; or the status, where clients were refused and it was said why.
pub fn held_secrets<'a>(
    rt: &HostRuntime,
    plan: SecretPlan<'_>,
    octets: &'a [u8],
) -> Result<Result<HeldSecrets<'a>, u8>, Fault>
    ensures { IfErr result IsPrintedAnywhere }
{
    match plan {
        SecretPlan::File(_) => Ok(Ok(HeldSecrets::One(Secret::in_file(octets)?))),
        SecretPlan::Unknown => Ok(Ok(HeldSecrets::Unknown)),
        SecretPlan::Clients(path) => {
            match read_clients(rt.alloc(), &SystemFiles::new(rt, &[path]), path.as_bytes()) {
                Ok(clients) => Ok(Ok(HeldSecrets::ByClient(clients))),
                Err(refused) => Ok(Err(refuse_clients(rt, path, &refused))),
            }
        }
    }
}
