//! What a policy answers to a packet.

ghost use Rattle.std.specs.Prelude.{◌≡◌, ◌++◌, Err, IfErr, IfOk, Ok, OnOk};
ghost use Rattle.avp_lists.specs.History.{present};
ghost use Rattle.avp_unlang.specs.Meaning.{Outcome as End};
ghost use Rattle.radpolicy.specs.Faults.{MemoryOr};
ghost use Rattle.radpolicy_record_answers.specs.Answers.{answered, fault_shown, has_hidden, hides_pairs, hides_proxy_state, hides_reply, lines_fault_shown, outcome_shown, refusal_shown, reply_shown, result_shown, text_fault_shown};

use avp_dict::LineFault;
use avp_lists::{List, Pair, Store};
use avp_unlang::Code;
use itoa::Buffer;
use radpolicy::{Fault, PreparedPolicy, Reply, RunOutcome, Secret, Start, code_text};
use radpolicy_common::{Redaction, sends_hidden_proxy_state};
use radpolicy_traffic_packets::TextFault;
use std::alloc::{AllocError, Global};

/// Why a record is refused.
#[derive(Clone, Copy, Debug, PartialEq, Eq)]
pub enum RecordFault {
    /// Its request is.
    Request(Fault),
    /// Its source is no client's, or it has none.
    NoClient,
    /// Its lines make no packet.
    Text(TextFault),
    /// A line of its reply list is refused; its number counts those lines.
    ReplyList(LineFault),
    /// A line of its control list is refused; its number counts those lines.
    ControlList(LineFault),
}

/// What a policy answers to the octets of a packet: the outcome of its run, or why there is none.
pub fn answer<'a>(
    alloc: Global,
    policy: &'a PreparedPolicy<'a>,
    secret: &'a Secret<'a>,
    octets: &[u8],
) -> Result<RunOutcome<'a>, Fault>
    ensures ok { IfOk result (λ outcome.
        answered policy.entry.now secret.entry.now octets.now ≡ Ok outcome) }
    ensures refused { IfErr result (MemoryOr (λ f.
        answered policy.entry.now secret.entry.now octets.now ≡ Err f)) }
{
    let start = Start::of_packet(alloc, policy, secret, octets)?;
    start.run(alloc)
}

fn has_hidden(redaction: &Redaction<'_>, pairs: &[Pair]) -> bool
    ensures { result ≡ has_hidden redaction.now pairs.now }
{
    pairs
        .iter()
        .any(|pair| redaction.hides(pair.id, &pair.value))
}

// Whether a value of the reply list is not to be shown.
fn hides_pairs(redaction: &Redaction<'_>, outcome: &RunOutcome<'_>) -> Result<bool, AllocError>
    ensures { IfOk result (λ hides. hides ≡ hides_pairs redaction.now outcome.now.end) }
{
    if let Code::Fail = outcome.code() {
        return Ok(false);
    }
    let pairs = outcome.store().list(List::Reply)?;
    Ok(has_hidden(redaction, pairs.as_slice()))
}

// Whether a Proxy-State of what is sent is not to be shown.
fn hides_proxy_state(redaction: &Redaction<'_>, reply: &Reply) -> bool
    ensures { result ≡ hides_proxy_state redaction.now reply.now }
{
    match reply {
        Reply::Packet(octets) => sends_hidden_proxy_state(redaction, octets.as_slice()),
        Reply::Unmade | Reply::Nothing => false,
    }
}

/// Whether a value of the reply is not to be shown: one of the reply list, or a Proxy-State of the request.
pub fn hides_reply(redaction: &Redaction<'_>, outcome: &RunOutcome<'_>) -> Result<bool, AllocError>
    ensures { IfOk result (λ hides. hides ≡ hides_reply redaction.now outcome.now) }
{
    if hides_pairs(redaction, outcome)? {
        return Ok(true);
    }
    Ok(hides_proxy_state(redaction, outcome.reply()))
}

/// The reply in hexadecimal digits, unless it is hidden.
pub fn push_reply(text: &mut Vec<u8>, hides: bool, reply: &Reply) -> Result<(), AllocError>
    ensures { OnOk result (text.new.items ≡ text.old.items ++ reply_shown hides reply.now) }
{
    let alloc = *text.allocator();
    match reply {
        Reply::Packet(_) if hides => text.extend_from_slice(b"(secret)")?,
        Reply::Packet(octets) => {
            text.extend_from_slice(hex::encode(alloc, octets.as_slice())?.as_bytes())?
        }
        Reply::Unmade | Reply::Nothing => text.extend_from_slice(b"none")?,
    }
    Ok(())
}

/// The result, and whether the run was stopped.
pub(crate) fn push_result(text: &mut Vec<u8>, outcome: &RunOutcome<'_>) -> Result<(), AllocError>
    ensures { OnOk result (text.new.items ≡ text.old.items ++ result_shown outcome.now.end) }
{
    text.extend_from_slice(code_text(outcome.code()).as_bytes())?;
    if outcome.stopped() {
        text.extend_from_slice(b" stopped")?;
    }
    Ok(())
}

/// The result, the stop and the reply of an outcome.
pub fn push_outcome(
    text: &mut Vec<u8>,
    redaction: &Redaction<'_>,
    outcome: &RunOutcome<'_>,
) -> Result<(), AllocError>
    ensures { OnOk result (text.new.items
        ≡ text.old.items ++ outcome_shown redaction.now outcome.now) }
{
    let hides = hides_reply(redaction, outcome)?;
    push_result(text, outcome)?;
    text.extend_from_slice(b" ")?;
    push_reply(text, hides, outcome.reply())
}

/// The number of a fault, and its words.
pub(crate) fn push_fault(text: &mut Vec<u8>, fault: Fault) -> Result<(), AllocError>
    ensures { OnOk result (text.new.items ≡ text.old.items ++ fault_shown fault) }
{
    let number = fault.number();
    text.push(b'E')?;
    text.push(b'0' + number / 10)?;
    text.push(b'0' + number % 10)?;
    text.extend_from_slice(b" ")?;
    text.extend_from_slice(fault.text().as_bytes())?;
    Ok(())
}

// The fault of a line of a packet, and where it is.
fn push_lines_fault(text: &mut Vec<u8>, fault: LineFault) -> Result<(), AllocError>
    ensures { OnOk result (text.new.items ≡ text.old.items ++ lines_fault_shown fault) }
{
    let mut digits = Buffer::new();
    push_fault(text, Fault::Request(fault))?;
    text.extend_from_slice(b" line ")?;
    text.extend_from_slice(digits.format(fault.line).as_bytes())?;
    Ok(())
}

// The fault of a line of a list, after the list's name.
fn push_list_fault(text: &mut Vec<u8>, name: &[u8], fault: LineFault) -> Result<(), AllocError>
    ensures { OnOk result (text.new.items
        ≡ text.old.items ++ name.now ++ lines_fault_shown fault) }
{
    text.extend_from_slice(name)?;
    push_lines_fault(text, fault)
}

/// Why the lines of a record make no packet.
pub(crate) fn push_text_fault(text: &mut Vec<u8>, fault: TextFault) -> Result<(), AllocError>
    ensures { OnOk result (text.new.items ≡ text.old.items ++ text_fault_shown fault) }
{
    match fault {
        TextFault::TooLong => text.extend_from_slice(b"record too long")?,
        TextFault::OtherCode => {
            text.extend_from_slice(b"neither Access-Request nor Accounting-Request")?
        }
        TextFault::Lines(fault) => push_lines_fault(text, fault)?,
        TextFault::PacketTooLong => push_fault(text, Fault::PacketTooLong)?,
        TextFault::Memory => push_fault(text, Fault::Memory)?,
    }
    Ok(())
}

/// Why a record is refused.
pub fn push_refusal(text: &mut Vec<u8>, fault: RecordFault) -> Result<(), AllocError>
    ensures { OnOk result (text.new.items ≡ text.old.items ++ refusal_shown fault) }
{
    match fault {
        RecordFault::Request(fault) => push_fault(text, fault),
        RecordFault::NoClient => {
            text.extend_from_slice(b"no client")?;
            Ok(())
        }
        RecordFault::Text(fault) => push_text_fault(text, fault),
        RecordFault::ReplyList(fault) => push_list_fault(text, b"reply list ", fault),
        RecordFault::ControlList(fault) => push_list_fault(text, b"control list ", fault),
    }
}
