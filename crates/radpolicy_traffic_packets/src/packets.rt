//! The packets of a record.

ghost use Rattle.std.specs.Prelude.{◌≡◌, ◌≤◌, ◌<◌, Some, true, false, IfErr, IfOk, IfSome, length};
ghost use Rattle.avp_packet.specs.Packets.{IsReplyCode, IsRequestCode, IsShort, packet_head_octets};
ghost use Rattle.radpolicy_traffic_packets.specs.Packets.{IsReplyRefusal, IsRequestRefusal, reply_code, reply_packet, request_code, request_packet};

use crate::faults::TextFault;
use crate::lines::with_equals;
use avp_dict::Dictionary;
use avp_forms::{Profile, read_request};
use avp_packet::{
    ACCESS_ACCEPT, ACCESS_REJECT, ACCESS_REQUEST, ACCOUNTING_REQUEST, ACCOUNTING_RESPONSE,
    encode_reply, encode_request,
};
use radpolicy_traffic::{Code, Record, Reply};
use std::alloc::Global;

/// The number of a request's type.
pub fn request_code(code: Code) -> Option<u8>
    ensures code { result ≡ request_code code }
    ensures taken { IfSome result IsRequestCode }
{
    match code {
        Code::AccessRequest => Some(ACCESS_REQUEST),
        Code::AccountingRequest => Some(ACCOUNTING_REQUEST),
        _ => None,
    }
}

/// The number of a reply's type. It is none for an Access-Challenge, which is only read.
pub fn reply_code(code: Code) -> Option<u8>
    ensures code { result ≡ reply_code code }
    ensures taken { IfSome result IsReplyCode }
{
    match code {
        Code::AccessAccept => Some(ACCESS_ACCEPT),
        Code::AccessReject => Some(ACCESS_REJECT),
        Code::AccountingResponse => Some(ACCOUNTING_RESPONSE),
        _ => None,
    }
}

/// The packet of a record's request: with Identifier 0, in an Access-Request with an authenticator of zeros, and signed
/// where it has a Message-Authenticator. Dates without a zone are those of `zone`, minutes before UTC.
#[tactic(auto, unfolding(crate::specs::Packets::request_packet))]
pub fn request_packet(
    alloc: Global,
    dictionary: &Dictionary,
    secret: &[u8],
    zone: Option<i16>,
    record: &Record,
) -> Result<Vec<u8>, TextFault>
    requires { 0 < length secret.now }
    ensures whole { IfOk result (λ _. record.now.is_too_long ≡ false) }
    ensures octets { IfOk result (λ octets.
        request_packet dictionary.now secret.now zone record.now ≡ Some octets.items) }
    ensures head { IfOk result (λ octets. packet_head_octets ≤ length octets.items) }
    ensures short { IfOk result (λ octets. IsShort octets.items) }
    ensures refused { IfErr result
        (IsRequestRefusal dictionary.now secret.now zone record.now) }
{
    if record.is_too_long {
        return Err(TextFault::TooLong);
    }
    let Some(code) = request_code(record.code) else {
        return Err(TextFault::OtherCode);
    };
    let list = read_request(
        alloc,
        dictionary,
        Profile::Wider,
        zone,
        record.request.as_slice(),
    )?;
    let octets = encode_request(alloc, dictionary, secret, code, 0, &[0; 16], &list)?;
    Ok(octets)
}

/// The packet of a reply's lines, to the request with this authenticator: with Identifier 0, and not signed.
#[tactic(auto, unfolding(crate::specs::Packets::reply_packet))]
pub fn reply_packet(
    alloc: Global,
    dictionary: &Dictionary,
    secret: &[u8],
    zone: Option<i16>,
    authenticator: &[u8; 16],
    reply: &Reply,
) -> Result<Vec<u8>, TextFault>
    requires { 0 < length secret.now }
    ensures octets { IfOk result (λ octets. reply_packet dictionary.now secret.now zone
        authenticator.now reply.now ≡ Some octets.items) }
    ensures short { IfOk result (λ octets. IsShort octets.items) }
    ensures refused { IfErr result (IsReplyRefusal dictionary.now secret.now zone
        authenticator.now reply.now) }
{
    let Some(code) = reply_code(reply.code) else {
        return Err(TextFault::OtherCode);
    };
    let lines = with_equals(alloc, &reply.lines)?;
    let list = read_request(alloc, dictionary, Profile::Wider, zone, &lines)?;
    let octets = encode_reply(
        alloc,
        dictionary,
        secret,
        code,
        0,
        authenticator,
        &list,
        &[],
        false,
    )?;
    Ok(octets)
}
