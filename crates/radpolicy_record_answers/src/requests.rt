//! The requests of records, by which secret they are read, and the runs that begin with them.

ghost use Rattle.std.specs.Prelude.{◌≡◌, Err, IfErr, IfOk, Ok};
ghost use Rattle.std.specs.Option.{option_copied};
ghost use Rattle.radpolicy.specs.Faults.{MemoryOr};
ghost use Rattle.radpolicy.specs.StartRefusals.{IsUnreadPacket};
ghost use Rattle.radpolicy.specs.Starts.{start_of};
ghost use Rattle.radpolicy.specs.declared.jobs.Form.TheVariants.{Hex};
ghost use Rattle.radpolicy_record_answers.specs.Answers.{answered_record};
ghost use Rattle.radpolicy_record_answers.specs.Requests.{answer_by, answered_from, or_missing, request_alone, request_read, started};

use crate::answers::RecordFault;
use avp_lists::{Octets, Pairs};
use radpolicy::{Fault, PreparedPolicy, RunOutcome, Runner, Secret, Start};
use std::alloc::{AllocError, Global};

/// By which secret the packets of a record are read.
#[derive(Drop)]
pub enum RecordSecret<'a> {
    /// By the one that its source shares with the server.
    Known(Secret<'a>),
    /// By none: hidden octets stay octets, no authenticator is checked, and no reply packet is made.
    Unknown,
    /// Its source is no client's, so it is refused.
    Missing,
}

impl<'a> RecordSecret<'a> {
    /// By the secret of its source, if that has one.
    pub fn or_missing(secret: Option<Secret<'a>>) -> RecordSecret<'a>
        ensures { result ≡ or_missing secret.entry }
    {
        match secret {
            Some(secret) => RecordSecret::Known(secret),
            None => RecordSecret::Missing,
        }
    }
}

// The start of a run over the packet of these octets.
fn packet_start<'a>(
    alloc: Global,
    policy: &'a PreparedPolicy<'a>,
    secret: Option<&'a Secret<'a>>,
    octets: &[u8],
) -> Result<Start<'a>, Fault>
    ensures read { IfOk result (λ start.
        request_read policy.entry.now.dictionary (option_copied secret.entry) octets.now
        ≡ Ok start.request) }
    ensures start { IfOk result (λ start. start
        ≡ start_of policy.entry.now (option_copied secret.entry) Hex start.request) }
    ensures refused { IfErr result (IsUnreadPacket
        (request_read policy.entry.now.dictionary (option_copied secret.entry) octets.now)) }
{
    match secret {
        Some(secret) => Start::of_packet(alloc, policy, secret, octets),
        None => Start::of_packet_unchecked(alloc, policy, octets),
    }
}

/// The request of a record, and the reply and control lists with which the run over it begins.
#[derive(Drop)]
pub struct RecordRequest {
    /// The octets of its packet.
    pub octets: Octets,
    pub reply: Pairs,
    pub control: Pairs,
}

impl RecordRequest {
    /// A request whose run begins with empty lists.
    pub(crate) fn new(alloc: Global, octets: Octets) -> RecordRequest
        ensures { result ≡ request_alone octets }
    {
        RecordRequest {
            octets,
            reply: Pairs::from_vec(Vec::new(alloc)),
            control: Pairs::from_vec(Vec::new(alloc)),
        }
    }

    /// What a policy's run over it begins with. The lists are refused as those of [`Start::with_reply`] and
    /// [`Start::with_control`].
    pub(crate) fn start<'a>(
        &self,
        alloc: Global,
        policy: &'a PreparedPolicy<'a>,
        secret: Option<&'a Secret<'a>>,
    ) -> Result<Start<'a>, Fault>
        ensures ok { IfOk result (λ start.
            started policy.entry.now (option_copied secret.entry) self.now ≡ Ok start) }
        ensures refused { IfErr result (MemoryOr (λ f.
            started policy.entry.now (option_copied secret.entry) self.now ≡ Err f)) }
        ensures own { IfOk result (λ start. start.prepared ≡ policy.entry.now) }
    {
        let start = packet_start(alloc, policy, secret, self.octets.as_slice())?;
        let reply = self.reply.clone()?;
        let replying = start.with_reply(reply)?;
        let control = self.control.clone()?;
        let begun = replying.with_control(control)?;
        Ok(begun)
    }

    /// What a policy answers to it: the outcome of its run, or why there is none.
    pub(crate) fn answer<'p: 'a, 'a>(
        &self,
        alloc: Global,
        runner: &mut Runner<'p>,
        secret: Option<&'a Secret<'a>>,
    ) -> Result<RunOutcome<'a>, Fault>
        ensures ok { IfOk result (λ outcome.
            answered_from runner.old (option_copied secret.entry) self.now ≡ Ok outcome) }
        ensures refused { IfErr result (MemoryOr (λ f.
            answered_from runner.old (option_copied secret.entry) self.now ≡ Err f)) }
        ensures kept { runner.new ≡ runner.old }
    {
        let start = self.start(alloc, runner.prepared(), secret)?;
        runner.run(start)
    }
}

// What a policy answers to a request by this secret, or without one.
fn answered_record<'p: 'a, 'a>(
    alloc: Global,
    runner: &mut Runner<'p>,
    secret: Option<&'a Secret<'a>>,
    request: &RecordRequest,
) -> Result<Result<RunOutcome<'a>, RecordFault>, AllocError>
    ensures answer { IfOk result (λ answer. answer ≡ answered_record
        (answered_from runner.old (option_copied secret.entry) request.now)) }
    ensures kept { runner.new ≡ runner.old }
{
    match request.answer(alloc, runner, secret) {
        Ok(outcome) => Ok(Ok(outcome)),
        Err(Fault::Memory) => Err(AllocError),
        Err(fault) => Ok(Err(RecordFault::Request(fault))),
    }
}

/// What a policy answers to a request, by the secret if there is one.
pub(crate) fn answer_by<'p: 'a, 'a>(
    alloc: Global,
    runner: &mut Runner<'p>,
    secret: &'a RecordSecret<'a>,
    request: &RecordRequest,
) -> Result<Result<RunOutcome<'a>, RecordFault>, AllocError>
    ensures answer { IfOk result (λ answer.
        answer ≡ answer_by runner.old secret.entry.now (Ok request.now)) }
    ensures kept { runner.new ≡ runner.old }
{
    match secret {
        RecordSecret::Known(secret) => answered_record(alloc, runner, Some(secret), request),
        RecordSecret::Unknown => answered_record(alloc, runner, None, request),
        RecordSecret::Missing => Ok(Err(RecordFault::NoClient)),
    }
}
