//! Replies read (RFC 2865, sections 3 and 4.4; RFC 2866, section 3; RFC 3579, section 3.2).

ghost use Rattle.std.specs.Prelude.{◌≡◌, ◌≤◌, ◌<◌, [], true, false, List, length, All, IfOk, IfErr, IfSome, IfNone, IsOk, IsTrue, Err, Ok};
ghost use Rattle.avp_lists.specs.declared.pairs.Pair.{Pair};
ghost use Rattle.avp_lists.specs.Meets.{Meets};
ghost use Rattle.avp_lists.specs.States.{max_pairs};
ghost use Rattle.avp_dict.specs.Dictionary.{Dictionary};
ghost use Rattle.avp_dict.specs.Limits.{fits};
ghost use Rattle.avp_packet.specs.CanonicalOrContainer.{IsCanonicalOrContainer};
ghost use Rattle.avp_packet.specs.Decoded.{packet_read};
ghost use Rattle.avp_packet.specs.DecodedReply.{decoded_reply, is_taken_reply_code, is_wrongly_signed_reply, reply_read};
ghost use Rattle.avp_packet.specs.Outcomes.{is_memory};
ghost use Rattle.avp_packet.specs.PacketMeaning.{OctetsMean};
ghost use Rattle.avp_packet.specs.Packets.{IsTakenReplyCode, attributes_of, code_of, hiding_authenticator, is_reply, length_of};
ghost use Rattle.avp_packet.specs.Splitting.{left};

use crate::authenticators::{MAX_PACKET_OCTETS, PACKET_HEAD_OCTETS, check_reply};
use crate::decoding::packets::{count_whole, read_packet};
use crate::faults::PacketFault;
use crate::keys::{Keys, hiding_authenticator};
use crate::packets::{ACCESS_ACCEPT, ACCESS_CHALLENGE, ACCESS_REJECT, ACCOUNTING_RESPONSE, Packet};
use crate::signing::has_wrong_signature;
use avp_dict::Dictionary;
use std::alloc::Global;

/// Whether packets of this code are taken as replies.
pub(crate) fn is_taken_reply_code(code: u8) -> bool
    ensures { result ≡ is_taken_reply_code code }
{
    matches!(
        code,
        ACCESS_ACCEPT | ACCESS_REJECT | ACCOUNTING_RESPONSE | ACCESS_CHALLENGE
    )
}

// Whether a reply other than an Accounting-Response has a Message-Authenticator that does not sign it.
fn is_wrongly_signed_reply(octets: &[u8], request_authenticator: &[u8; 16], secret: &[u8]) -> bool
    requires head { PACKET_HEAD_OCTETS ≤ length_of octets.now }
    requires within { length_of octets.now ≤ length octets.now }
    requires short { length_of octets.now ≤ MAX_PACKET_OCTETS }
    requires whole { left (attributes_of octets.now) ≡ [] }
    ensures { result ≡ is_wrongly_signed_reply octets.now request_authenticator.now secret.now }
{
    octets[0] != ACCOUNTING_RESPONSE && has_wrong_signature(octets, request_authenticator, secret)
}

// Why a whole packet is not taken as a reply to the request with this authenticator, if it is not.
fn refusal(octets: &[u8], request_authenticator: &[u8; 16], secret: &[u8]) -> Option<PacketFault>
    requires secret { 0 < length secret.now }
    requires head { PACKET_HEAD_OCTETS ≤ length_of octets.now }
    requires within { length_of octets.now ≤ length octets.now }
    requires short { length_of octets.now ≤ MAX_PACKET_OCTETS }
    requires whole { left (attributes_of octets.now) ≡ [] }
    ensures some { IfSome result (λ fault. (dictionary : Dictionary)
        → reply_read dictionary secret.now request_authenticator.now octets.now ≡ Err fault) }
    ensures certain { IfSome result (λ fault. is_memory fault ≡ false) }
    ensures none { IfNone result ((dictionary : Dictionary)
        → reply_read dictionary secret.now request_authenticator.now octets.now
        ≡ Ok (packet_read dictionary secret.now
        (hiding_authenticator (code_of octets.now) request_authenticator.now)
        octets.now)) }
    ensures code { IfNone result (IsTakenReplyCode (code_of octets.now)) }
    ensures accepted { IfNone result (is_reply octets.now request_authenticator.now secret.now
        ≡ true) }
{
    if !is_taken_reply_code(octets[0]) {
        Some(PacketFault::CodeNotTaken)
    } else if !check_reply(octets, request_authenticator, secret) {
        Some(PacketFault::WrongAuthenticator)
    } else if is_wrongly_signed_reply(octets, request_authenticator, secret) {
        Some(PacketFault::WrongMessageAuthenticator)
    } else {
        None
    }
}

/// Reads the reply to the request with this authenticator: an Access-Accept, an Access-Reject, an Accounting-Response
/// or an Access-Challenge whose Response Authenticator is right. Octets past Length are not looked at. A reply that has
/// a Message-Authenticator must be signed by it, except an Accounting-Response, where it is an attribute like any
/// other. The faults are tried in the order in which [`PacketFault`] has them, and memory can run out only where none
/// applies.
///
/// The packet's `authenticator` is the Response Authenticator. Passwords are recovered by the request's authenticator,
/// and in an Accounting-Response by zeros.
///
/// Whether it answers the caller's request is for the caller to see: the Identifier is the request's, and the code one
/// that answers the request's code (RFC 2865, section 4; RFC 2866, section 4).
///
/// ```rust
/// // The reply of a server that has the secret `testing123`, with the identifier 7.
/// let packet = decode_reply(alloc, dictionary, b"testing123", authenticator, reply)?;
/// assert_eq!(rt; (packet.code, packet.id), (ACCESS_ACCEPT, 7));
/// let refused = decode_reply(alloc, dictionary, b"testing123", &[0; 16], reply).err();
/// assert_eq!(rt; refused, Some(PacketFault::WrongAuthenticator));
/// ```
#[tactic(auto, unfolding(crate::specs::DecodedReply::decoded_reply))]
pub fn decode_reply(
    alloc: Global,
    dictionary: &Dictionary,
    secret: &[u8],
    request_authenticator: &[u8; 16],
    octets: &[u8],
) -> Result<Packet, PacketFault>
    requires { 0 < length secret.now }
    ensures fits { IfOk result (λ packet.
        All (λ pair. fits pair dictionary.now ≡ true) packet.list) }

    // Each pair's own octets stand for its value, but for an attribute that holds others and is
    // not looked into.
    ensures own { IfOk result (λ packet. All (IsCanonicalOrContainer dictionary.now) packet.list) }

    // The list is the one that the attributes mean; what was hidden was hidden by the request's
    // authenticator.
    ensures means { IfOk result (λ packet. OctetsMean dictionary.now secret.now
        packet.code request_authenticator.now octets.now packet.list) }
    ensures only { IfOk result (λ packet. (pairs : List Pair)
        → OctetsMean dictionary.now secret.now
        packet.code request_authenticator.now octets.now pairs
        → pairs ≡ packet.list) }
    ensures read { Meets is_memory result
        (decoded_reply dictionary.now secret.now request_authenticator.now octets.now) }
    ensures memory { IfErr result (λ fault. IsTrue (is_memory fault)
        → IsOk (decoded_reply dictionary.now secret.now request_authenticator.now octets.now)) }
    ensures code { IfOk result (λ packet. IsTakenReplyCode packet.code) }
    ensures accepted { IfOk result (λ packet.
        is_reply octets.now request_authenticator.now secret.now ≡ true) }
    ensures few { IfOk result (λ packet. length packet.list ≤ max_pairs) }
{
    let count = count_whole(octets)?;
    if let Some(fault) = refusal(octets, request_authenticator, secret) {
        return Err(fault);
    }
    let keys = Keys {
        dictionary,
        secret,
        authenticator: &hiding_authenticator(octets[0], request_authenticator),
        last_id: None,
        last_vendor: None,
    };
    Ok(read_packet(alloc, &keys, octets, count)?)
}
