//! The run of a policy on a request.

ghost use Rattle.std.specs.Prelude.{◌≡◌, [], Some, None, IfOk};
ghost use Rattle.std.specs.Option.{option_copied};
ghost use Rattle.radpolicy.specs.Faults.{IsPrintedAnywhere};
ghost use Rattle.radpolicy_c.specs.Runs.{Runs, RunsBegun, RunsOpen, RunsWith, code_number, lists_wanted, only_told, packet_of, sends_number, octets_wanted, told_of};
ghost use Rattle.radpolicy_c.specs.internal.Telling.{TellsRunFault};

use crate::handles::RadpolicyPolicy;
use crate::lines::line_of;
use crate::pairs::{ToldLists, lists_of};
use crate::requests::{RadpolicyRequest, start_for};
use crate::statuses::Status;
use avp_dict::{Dictionary, FileSet};
use avp_forms::Profile;
use avp_lists::Octets;
use avp_unlang::Code;
use radpolicy::{Fault, OwnedPolicy, PreparedPolicy, Reply, RunOutcome, Secret, Start};
use std::alloc::{AllocError, Global};
use std::mem;

/// What is wanted of the lists of a run.
#[derive(Clone, Copy, Debug, PartialEq, Eq)]
pub enum Wanted {
    /// Nothing: the reply packet is enough.
    Reply,
    /// The report, as the command `run` prints it.
    Report,
    /// The pairs one by one.
    Pairs,
}

/// What a run tells.
#[derive(Debug, Drop)]
pub struct Ran {
    pub status: Status,
    /// The last code: 0 ok, 1 noop, 2 updated, 3 fail, 4 reject.
    pub code: u8,
    /// 0 no packet was made, as there is no secret; 1 none is sent; 2 a packet is sent.
    pub sends: u8,
    pub stopped: bool,
    /// The octets of the packet that is sent.
    pub packet: Octets,
    /// The report of the run, or the octets of its pairs, where they are wanted; or the line of the fault.
    pub octets: Octets,
    /// The pairs, where they are wanted.
    pub lists: ToldLists,
}

fn code_number(code: Code) -> u8
    ensures { result ≡ code_number code }
{
    match code {
        Code::Ok => 0,
        Code::Noop => 1,
        Code::Updated => 2,
        Code::Fail => 3,
        Code::Reject => 4,
    }
}

fn sends_number(reply: &Reply) -> u8
    ensures { result ≡ sends_number reply.now }
{
    match reply {
        Reply::Unmade => 0,
        Reply::Nothing => 1,
        Reply::Packet(_) => 2,
    }
}

fn packet_of(alloc: Global, reply: &Reply) -> Result<Octets, AllocError>
    ensures { IfOk result (λ packet. packet ≡ packet_of reply.now) }
{
    match reply {
        Reply::Packet(octets) => octets.copy(alloc),
        _ => Ok(Octets::from_vec(Vec::new(alloc))),
    }
}

// A status with a line, or alone.
fn only_told(alloc: Global, status: Status, octets: Vec<u8>) -> Ran
    ensures { result ≡ only_told status octets.items }
{
    Ran {
        status,
        code: 0,
        sends: 0,
        stopped: false,
        packet: Octets::from_vec(Vec::new(alloc)),
        octets: Octets::from_vec(octets),
        lists: ToldLists::none(alloc),
    }
}

// The octets and the lists that are wanted of an outcome.
fn wanted_of(
    alloc: Global,
    wanted: Wanted,
    dictionary: &Dictionary,
    profile: Profile,
    outcome: &RunOutcome<'_>,
) -> Result<(Octets, ToldLists), AllocError>
    requires dictionary { outcome.now.dictionary ≡ dictionary.now }
    requires profile { outcome.now.profile ≡ profile }
    ensures octets { IfOk result (λ told. told.0 ≡ octets_wanted wanted outcome.now) }
    ensures lists { IfOk result (λ told. told.1 ≡ lists_wanted wanted outcome.now) }
{
    match wanted {
        Wanted::Reply => Ok((Octets::from_vec(Vec::new(alloc)), ToldLists::none(alloc))),
        Wanted::Report => {
            let text = outcome.text(alloc)?;
            Ok((Octets::from_vec(text), ToldLists::none(alloc)))
        }
        Wanted::Pairs => lists_of(alloc, dictionary, profile, outcome),
    }
}

fn told_of(
    alloc: Global,
    wanted: Wanted,
    dictionary: &Dictionary,
    profile: Profile,
    outcome: &RunOutcome<'_>,
) -> Result<Ran, AllocError>
    requires dictionary { outcome.now.dictionary ≡ dictionary.now }
    requires profile { outcome.now.profile ≡ profile }
    ensures { IfOk result (λ ran. ran ≡ told_of wanted outcome.now) }
{
    let packet = packet_of(alloc, outcome.reply())?;
    let (octets, lists) = wanted_of(alloc, wanted, dictionary, profile, outcome)?;
    Ok(Ran {
        status: Status::Done,
        code: code_number(outcome.code()),
        sends: sends_number(outcome.reply()),
        stopped: outcome.stopped(),
        packet,
        octets,
        lists,
    })
}

// What is told of a fault; that of want of memory has no line.
fn refusal(alloc: Global, fault: &Fault) -> Ran
    requires { IsPrintedAnywhere fault.now }
    ensures { TellsRunFault fault.now result.status result }
{
    if *fault == Fault::Memory {
        return only_told(alloc, Status::NoMemory, Vec::new(alloc));
    }
    let no_files = FileSet::from_vec(Vec::new(alloc));
    match line_of(alloc, fault, &no_files) {
        Ok(line) => only_told(alloc, Status::Refused, line),
        Err(_) => only_told(alloc, Status::NoMemory, Vec::new(alloc)),
    }
}

// The run from its start.
fn run_begun(alloc: Global, wanted: Wanted, start: Start<'_>) -> Ran
    ensures { RunsBegun wanted start.entry result.status result }
{
    let dictionary = start.dictionary();
    let profile = start.profile();
    match start.run(alloc) {
        Ok(outcome) => match told_of(alloc, wanted, dictionary, profile, &outcome) {
            Ok(ran) => ran,
            Err(_) => only_told(alloc, Status::NoMemory, Vec::new(alloc)),
        },
        Err(fault) => refusal(alloc, &fault),
    }
}

// The run with the secret that was given.
fn run_with<'a>(
    alloc: Global,
    wanted: Wanted,
    prepared: &'a PreparedPolicy<'a>,
    secret: Option<&'a Secret<'a>>,
    asked: &RadpolicyRequest<'_>,
) -> Ran
    ensures { RunsWith wanted prepared.entry.now (option_copied secret.entry) asked.now
        result.status result }
{
    match start_for(alloc, prepared, secret, asked) {
        Ok(start) => run_begun(alloc, wanted, start),
        Err(fault) => refusal(alloc, &fault),
    }
}

// The run of a policy on a request.
fn run(alloc: Global, wanted: Wanted, policy: &OwnedPolicy, asked: &RadpolicyRequest<'_>) -> Ran
    ensures { RunsOpen wanted policy.now asked.now result }
{
    let prepared = policy.prepared();
    if !asked.has_secret {
        return run_with(alloc, wanted, &prepared, None, asked);
    }
    match Secret::new(asked.secret) {
        Ok(secret) => run_with(alloc, wanted, &prepared, Some(&secret), asked),
        Err(fault) => refusal(alloc, &fault),
    }
}

/// The run of the policy that is held.
pub(crate) fn run_held(
    alloc: Global,
    wanted: Wanted,
    policy: &mut RadpolicyPolicy,
    asked: &RadpolicyRequest<'_>,
) -> Ran
    ensures runs { Runs wanted policy.old.held.policy asked.now result }
    ensures kept { policy.new.held.policy ≡ policy.old.held.policy }
{
    match mem::replace(policy, RadpolicyPolicy::closed()).into_box(alloc) {
        Some(shared) => {
            let ran = run(alloc, wanted, shared.policy(), asked);
            mem::replace(policy, RadpolicyPolicy::of(shared)).end();
            ran
        }
        None => only_told(alloc, Status::Closed, Vec::new(alloc)),
    }
}
