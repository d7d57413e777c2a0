//! What records of attribute lines say.

ghost use Rattle.std.specs.Prelude.{◌≡◌, Err, IfErr, IfOk, List, None, Some, ℕ};
ghost use Rattle.radpolicy_record_answers.specs.TextEntries.{HasPacket, IsCaptured, IsCapturedOf, IsEntryOf, IsReplyOf, IsReplyWritten, IsRequestBy, IsRequestOf, list_of_lines, text_identifier, text_source};
ghost use Rattle.radpolicy_record_answers.specs.internal.Fitting.{HasHead};

use crate::answers::RecordFault;
use crate::captured::{CapturedFault, CapturedReply, copy_authenticator};
use crate::entries::Entry;
use crate::records::{is_name, push_word};
use crate::requests::RecordRequest;
use avp_dict::{Dictionary, LineFault, LineKind};
use avp_forms::{Profile, read_request};
use avp_lists::{Octets, Pairs};
use radpolicy::Secret;
use radpolicy_clients::address_of;
use radpolicy_traffic::{Code, Record, Reply};
use radpolicy_traffic_packets::{TextFault, reply_packet, request_packet};
use std::alloc::{AllocError, Global};
use std::net::IpAddr;

/// What names a record of attribute lines, as it is shown, and a space. Empty where nothing names it.
pub fn text_identifier(alloc: Global, identifier: &[u8]) -> Result<Vec<u8>, AllocError>
    ensures { IfOk result (λ text. text.items ≡ text_identifier identifier.now) }
{
    let mut text = Vec::new(alloc);
    if let [] = identifier {
        return Ok(text);
    }
    if is_name(identifier) {
        push_word(&mut text, identifier)?;
    }
    Ok(text)
}

/// The address of a record's source.
pub fn text_source(record: &Record) -> Option<IpAddr>
    ensures { result ≡ text_source record.now }
{
    match &record.source {
        Some(text) => address_of(text),
        None => None,
    }
}

// The packet of a record's request, or why it has none.
fn packet_by(
    alloc: Global,
    dictionary: &Dictionary,
    zone: Option<i16>,
    secret: &Secret<'_>,
    record: &Record,
) -> Result<Result<Octets, RecordFault>, AllocError>
    ensures packet { IfOk result (λ packet. IfOk packet
        (HasPacket dictionary.now zone secret.now record.now)) }
    ensures head { IfOk result (λ packet. IfOk packet HasHead) }
    ensures refused { IfOk result (λ packet. IfErr packet
        (λ fault. IsRequestBy dictionary.now zone secret.now record.now (Err fault))) }
{
    match request_packet(alloc, dictionary, secret.as_slice(), zone, record) {
        Ok(octets) => Ok(Ok(Octets::from_vec(octets))),
        Err(TextFault::Memory) => Err(AllocError),
        Err(fault) => Ok(Err(RecordFault::Text(fault))),
    }
}

// The list of lines, or the fault of one of them.
fn list_of_lines(
    alloc: Global,
    dictionary: &Dictionary,
    zone: Option<i16>,
    lines: &[u8],
) -> Result<Result<Pairs, LineFault>, AllocError>
    ensures list { IfOk result (λ list. IfOk list (λ pairs.
        list_of_lines dictionary.now zone lines.now ≡ Some pairs)) }
    ensures refused { IfOk result (λ list. IfErr list (λ _.
        list_of_lines dictionary.now zone lines.now ≡ None)) }
{
    match read_request(alloc, dictionary, Profile::Wider, zone, lines) {
        Ok(pairs) => Ok(Ok(Pairs::from_vec(pairs))),
        Err(fault) => match fault.kind {
            LineKind::Memory => Err(AllocError),
            _ => Ok(Err(fault)),
        },
    }
}

// The request of a record with this packet, or why it has none.
fn with_lists(
    alloc: Global,
    dictionary: &Dictionary,
    zone: Option<i16>,
    record: &Record,
    octets: Octets,
) -> Result<Result<RecordRequest, RecordFault>, AllocError>
    ensures request { IfOk result (λ request. (secret : List ℕ)
        → HasPacket dictionary.now zone secret record.now octets
        → IsRequestBy dictionary.now zone secret record.now request) }
    ensures same { IfOk result (λ request. IfOk request (λ given. given.octets ≡ octets)) }
{
    let reply = match list_of_lines(alloc, dictionary, zone, &record.initial_reply)? {
        Ok(reply) => reply,
        Err(fault) => return Ok(Err(RecordFault::ReplyList(fault))),
    };
    match list_of_lines(alloc, dictionary, zone, &record.initial_control)? {
        Ok(control) => Ok(Ok(RecordRequest {
            octets,
            reply,
            control,
        })),
        Err(fault) => Ok(Err(RecordFault::ControlList(fault))),
    }
}

// The request of a record, or why it has none.
fn request_by(
    alloc: Global,
    dictionary: &Dictionary,
    zone: Option<i16>,
    secret: &Secret<'_>,
    record: &Record,
) -> Result<Result<RecordRequest, RecordFault>, AllocError>
    ensures request { IfOk result (IsRequestBy dictionary.now zone secret.now record.now) }
    ensures head { IfOk result (λ request. IfOk request (λ given. HasHead given.octets)) }
{
    match packet_by(alloc, dictionary, zone, secret, record)? {
        Ok(octets) => with_lists(alloc, dictionary, zone, record, octets),
        Err(fault) => Ok(Err(fault)),
    }
}

// The packet of a reply, or why it has none.
fn reply_written(
    alloc: Global,
    dictionary: &Dictionary,
    zone: Option<i16>,
    secret: &Secret<'_>,
    request: &[u8],
    reply: &Reply,
) -> Result<CapturedReply, AllocError>
    requires { HasHead request.now }
    ensures { IfOk result
        (IsReplyWritten dictionary.now zone secret.now request.now reply.now) }
{
    let authenticator = copy_authenticator(request);
    match reply_packet(
        alloc,
        dictionary,
        secret.as_slice(),
        zone,
        &authenticator,
        reply,
    ) {
        Ok(octets) => Ok(CapturedReply::Octets(Octets::from_vec(octets))),
        Err(TextFault::Memory) => Err(AllocError),
        Err(fault) => Ok(CapturedReply::Unread(CapturedFault::Text(fault))),
    }
}

fn reply_of(
    alloc: Global,
    dictionary: &Dictionary,
    zone: Option<i16>,
    secret: &Secret<'_>,
    request: &[u8],
    reply: &Reply,
) -> Result<CapturedReply, AllocError>
    requires { HasHead request.now }
    ensures { IfOk result
        (IsReplyOf dictionary.now zone reply.now.code secret.now request.now reply.now) }
{
    match reply.code {
        Code::AccessChallenge => Ok(CapturedReply::Challenge),
        _ => reply_written(alloc, dictionary, zone, secret, request, reply),
    }
}

// The reply that was captured, if one was.
fn captured_by(
    alloc: Global,
    dictionary: &Dictionary,
    zone: Option<i16>,
    secret: &Secret<'_>,
    request: &[u8],
    reply: &Option<Reply>,
) -> Result<CapturedReply, AllocError>
    requires { HasHead request.now }
    ensures { IfOk result
        (IsCaptured dictionary.now zone secret.now request.now reply.now) }
{
    match reply {
        Some(reply) => reply_of(alloc, dictionary, zone, secret, request, reply),
        None => Ok(CapturedReply::Missing),
    }
}

// What a record says of which the secret is known.
fn entry_by(
    alloc: Global,
    dictionary: &Dictionary,
    zone: Option<i16>,
    secret: &Secret<'_>,
    record: &Record,
) -> Result<Entry, AllocError>
    ensures { IfOk result (IsEntryOf dictionary.now zone (Some secret.now) record.now) }
{
    let identifier = Octets::from_vec(text_identifier(alloc, &record.identifier)?);
    match request_by(alloc, dictionary, zone, secret, record)? {
        Ok(request) => {
            let octets = request.octets.as_slice();
            let reply = captured_by(alloc, dictionary, zone, secret, octets, &record.reply)?;
            Ok(Entry {
                identifier,
                request: Ok(request),
                reply,
            })
        }
        Err(fault) => Ok(Entry {
            identifier,
            request: Err(fault),
            reply: CapturedReply::Missing,
        }),
    }
}

/// What a record says, by the secret that is shared with its source, if there is one.
pub fn entry_of_record(
    alloc: Global,
    dictionary: &Dictionary,
    zone: Option<i16>,
    secret: &Option<Secret<'_>>,
    record: &Record,
) -> Result<Entry, AllocError>
    ensures { IfOk result (IsEntryOf dictionary.now zone secret.now record.now) }
{
    match secret {
        Some(secret) => entry_by(alloc, dictionary, zone, secret, record),
        None => Ok(Entry {
            identifier: Octets::from_vec(text_identifier(alloc, &record.identifier)?),
            request: Err(RecordFault::NoClient),
            reply: CapturedReply::Missing,
        }),
    }
}
