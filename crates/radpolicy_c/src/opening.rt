//! The reading of a policy with its dictionary.

ghost use Rattle.std.specs.Prelude.{◌≡◌, None, IfOk, IfErr, [], map};
ghost use Rattle.radpolicy.specs.Faults.{IsPrintedWith, MemoryOr};
ghost use Rattle.radpolicy_c.specs.Files.{file_given};
ghost use Rattle.radpolicy_c.specs.Opening.{IsOpenedFrom, IsOpenRefusal, IsPolicyRefusal, IsReadFrom, IsReadRefusal, Opens};
ghost use Rattle.radpolicy_c.specs.internal.Telling.{TellsFault};

use crate::files::{RadpolicyFile, file_set_of};
use crate::handles::RadpolicyPolicy;
use crate::lines::line_of;
use crate::shared::SharedPolicy;
use crate::statuses::Status;
use avp_dict::{Dictionary, FileSet};
use avp_lists::Octets;
use radpolicy::{Fault, OwnedPolicy};
use std::alloc::{AllocError, Global};
use std::mem;

/// What the opening of a policy or a dictionary tells: its status, and the line of a fault.
#[derive(Debug, Drop)]
pub struct Opening {
    pub status: Status,
    pub line: Octets,
}

/// The dictionary of these files.
pub(crate) fn dictionary_of(alloc: Global, files: &FileSet) -> Result<Dictionary, Fault>
    ensures ok { IfOk result (IsReadFrom files.now) }
    ensures refused { IfErr result (MemoryOr (IsReadRefusal files.now)) }
    ensures printed { IfErr result (IsPrintedWith files.now) }
{
    if files.is_empty() || !files.has_distinct_names() {
        return Err(Fault::OptionValue);
    }
    match Dictionary::read(alloc, files) {
        Ok(dictionary) => Ok(dictionary),
        Err(fault) => Err(Fault::from(fault)),
    }
}

// The policy over a dictionary that was read.
fn policy_over(
    alloc: Global,
    files: &FileSet,
    dictionary: Dictionary,
    text: &[u8],
) -> Result<OwnedPolicy, Fault>
    requires { IsReadFrom files.now dictionary }
    ensures ok { IfOk result (IsOpenedFrom files.now text.now) }
    ensures refused { IfErr result (MemoryOr (IsPolicyRefusal files.now text.now)) }
    ensures printed { IfErr result (IsPrintedWith files.now) }
{
    OwnedPolicy::read(alloc, dictionary, text)
}

/// The policy that a text spells by the dictionary of these files.
pub(crate) fn policy_of(alloc: Global, files: &FileSet, text: &[u8]) -> Result<OwnedPolicy, Fault>
    ensures ok { IfOk result (IsOpenedFrom files.now text.now) }
    ensures refused { IfErr result (MemoryOr (IsOpenRefusal files.now text.now)) }
    ensures printed { IfErr result (IsPrintedWith files.now) }
{
    match dictionary_of(alloc, files) {
        Ok(dictionary) => policy_over(alloc, files, dictionary, text),
        Err(fault) => Err(fault),
    }
}

/// A status alone.
pub(crate) fn nothing_told(alloc: Global, status: Status) -> Opening
    ensures { result ≡ record { status = status; line = [] } }
{
    Opening {
        status,
        line: Octets::from_vec(Vec::new(alloc)),
    }
}

/// The line of a fault; that of want of memory is not told.
pub(crate) fn refusal(alloc: Global, fault: &Fault, files: &FileSet) -> Opening
    requires { IsPrintedWith files.now fault.now }
    ensures { TellsFault files.now fault.now result.status result.line }
{
    if *fault == Fault::Memory {
        return nothing_told(alloc, Status::NoMemory);
    }
    match line_of(alloc, fault, files) {
        Ok(line) => Opening {
            status: Status::Refused,
            line: Octets::from_vec(line),
        },
        Err(_) => nothing_told(alloc, Status::NoMemory),
    }
}

/// The policy in a box, as a handle holds it.
pub(crate) fn boxed(alloc: Global, policy: OwnedPolicy) -> Result<Box<SharedPolicy>, AllocError>
    ensures { IfOk result (λ boxed. boxed.value ≡ policy) }
{
    let shared = SharedPolicy::new(alloc, policy)?;
    Ok(Box::new(alloc, shared)?)
}

// The policy in a box, or what is told of its refusal.
fn boxed_policy_of(
    alloc: Global,
    files: &FileSet,
    text: &[u8],
) -> Result<Box<SharedPolicy>, Opening>
    ensures ok { IfOk result (λ policy. IsOpenedFrom files.now text.now policy.value) }
    ensures refused { IfErr result (λ opening. Opens None files.now text.now opening None) }
{
    match policy_of(alloc, files, text) {
        Ok(policy) => match boxed(alloc, policy) {
            Ok(policy) => Ok(policy),
            Err(_) => Err(nothing_told(alloc, Status::NoMemory)),
        },
        Err(fault) => Err(refusal(alloc, &fault, files)),
    }
}

// The policy in a box, from the files as C gives them.
fn opened(
    alloc: Global,
    files: &[RadpolicyFile<'_>],
    text: &[u8],
) -> Result<Box<SharedPolicy>, Opening>
    ensures ok { IfOk result (λ policy.
        IsOpenedFrom (map file_given files.now) text.now policy.value) }
    ensures refused { IfErr result (λ opening.
        Opens None (map file_given files.now) text.now opening None) }
{
    match file_set_of(alloc, files) {
        Ok(files) => boxed_policy_of(alloc, &files, text),
        Err(_) => Err(nothing_told(alloc, Status::NoMemory)),
    }
}

/// Opens the policy that a text spells by the dictionary of these files, where none is held yet.
pub(crate) fn open(
    alloc: Global,
    policy: &mut RadpolicyPolicy,
    files: &[RadpolicyFile<'_>],
    text: &[u8],
) -> Opening
    ensures { Opens policy.old.held.policy (map file_given files.now) text.now result
        policy.new.held.policy }
{
    if policy.is_open {
        return nothing_told(alloc, Status::AlreadyOpen);
    }
    match opened(alloc, files, text) {
        Ok(opened) => {
            mem::replace(policy, RadpolicyPolicy::of(opened)).end();
            nothing_told(alloc, Status::Done)
        }
        Err(opening) => opening,
    }
}
