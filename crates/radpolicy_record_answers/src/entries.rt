//! What records say.

ghost use Rattle.std.specs.Prelude.{◌≡◌, IfOk};
ghost use Rattle.radpolicy_record_answers.specs.Captured.{reply_of_word, reply_word};
ghost use Rattle.radpolicy_record_answers.specs.Entries.{entry_of_line};
ghost use Rattle.radpolicy_record_answers.specs.Records.{request_octets, request_taken};
ghost use Rattle.radpolicy_record_answers.specs.Requests.{answer_by};
ghost use Rattle.radpolicy_record_answers.specs.internal.Over.{IsOver};

use crate::answers::RecordFault;
use crate::captured::{CapturedFault, CapturedReply};
use crate::records::{line_identifier, octets_of_digits, reply_word, request_octets};
use crate::requests::{RecordRequest, RecordSecret, answer_by};
use avp_lists::Octets;
use radpolicy::{Fault, RunOutcome, Runner};
use std::alloc::{AllocError, Global};

/// What a record says.
#[derive(Drop)]
pub struct Entry {
    /// It is empty where the record has none.
    pub identifier: Octets,
    pub request: Result<RecordRequest, RecordFault>,
    /// The reply that was captured.
    pub reply: CapturedReply,
}

// A line's request, or why its record is refused.
fn taken_request(
    alloc: Global,
    line: &[u8],
) -> Result<Result<RecordRequest, RecordFault>, AllocError>
    ensures { IfOk result (λ request. request ≡ request_taken (request_octets line.now)) }
{
    match request_octets(alloc, line) {
        Ok(octets) => Ok(Ok(RecordRequest::new(alloc, Octets::from_vec(octets)))),
        Err(Fault::Memory) => Err(AllocError),
        Err(fault) => Ok(Err(RecordFault::Request(fault))),
    }
}

// The reply that a line has after its request.
fn captured_reply(alloc: Global, line: &[u8]) -> Result<CapturedReply, AllocError>
    ensures { IfOk result (λ reply. reply ≡ reply_of_word (reply_word line.now)) }
{
    let Some(word) = reply_word(alloc, line)? else {
        return Ok(CapturedReply::Missing);
    };
    match octets_of_digits(alloc, word) {
        Ok(octets) => Ok(CapturedReply::Octets(Octets::from_vec(octets))),
        Err(Fault::Memory) => Err(AllocError),
        Err(fault) => Ok(CapturedReply::Unread(CapturedFault::NoReply(fault))),
    }
}

/// What a line says.
pub fn entry_of_line(alloc: Global, line: &[u8]) -> Result<Entry, AllocError>
    ensures { IfOk result (λ entry. entry ≡ entry_of_line line.now) }
{
    Ok(Entry {
        identifier: Octets::from_vec(line_identifier(alloc, line)?),
        request: taken_request(alloc, line)?,
        reply: captured_reply(alloc, line)?,
    })
}

/// What a policy answers to a record.
pub fn entry_answer<'p: 'a, 'a>(
    alloc: Global,
    runner: &mut Runner<'p>,
    secret: &'a RecordSecret<'a>,
    entry: &Entry,
) -> Result<Result<RunOutcome<'a>, RecordFault>, AllocError>
    ensures answer { IfOk result (λ answer.
        answer ≡ answer_by runner.old secret.entry.now entry.now.request) }
    ensures kept { runner.new ≡ runner.old }
{
    match &entry.request {
        Ok(request) => answer_by(alloc, runner, secret, request),
        Err(fault) => Ok(Err(*fault)),
    }
}

/// The same, which is over the dictionary of its policy.
pub fn answer_over<'p: 'a, 'a>(
    alloc: Global,
    runner: &mut Runner<'p>,
    secret: &'a RecordSecret<'a>,
    entry: &Entry,
) -> Result<Result<RunOutcome<'a>, RecordFault>, AllocError>
    ensures answer { IfOk result (λ answer.
        answer ≡ answer_by runner.old secret.entry.now entry.now.request) }
    ensures over { IfOk result (IsOver runner.old.dictionary) }
    ensures kept { runner.new ≡ runner.old }
{
    let answer = entry_answer(alloc, runner, secret, entry)?;
    Ok(answer)
}
