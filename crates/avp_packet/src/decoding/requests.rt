//! Requests read (RFC 2865, section 3; RFC 2866, section 3).

ghost use Rattle.std.specs.Prelude.{◌≡◌, ◌≤◌, ◌<◌, [], true, false, List, length, All, IfOk, IfErr, IfSome, IfNone, IsOk, IsTrue, Err, Ok};
ghost use Rattle.avp_lists.specs.declared.pairs.Pair.{Pair};
ghost use Rattle.avp_lists.specs.Meets.{Meets};
ghost use Rattle.avp_lists.specs.States.{max_pairs};
ghost use Rattle.avp_dict.specs.Dictionary.{Dictionary};
ghost use Rattle.avp_dict.specs.Limits.{fits};
ghost use Rattle.avp_packet.specs.CanonicalOrContainer.{IsCanonicalOrContainer};
ghost use Rattle.avp_packet.specs.Decoded.{decoded, is_wrongly_signed, packet_read, request_read};
ghost use Rattle.avp_packet.specs.Outcomes.{is_memory};
ghost use Rattle.avp_packet.specs.PacketMeaning.{OctetsMean};
ghost use Rattle.avp_packet.specs.Packets.{IsRequestCode, attributes_of, authenticator_of, code_of, hiding_authenticator, length_of};
ghost use Rattle.avp_packet.specs.Splitting.{left};

use crate::authenticators::{MAX_PACKET_OCTETS, PACKET_HEAD_OCTETS, is_accounting_request};
use crate::decoding::packets::{copy_authenticator, count_whole, read_packet};
use crate::faults::PacketFault;
use crate::keys::{Keys, hiding_authenticator};
use crate::packets::{ACCESS_REQUEST, ACCOUNTING_REQUEST, Packet};
use crate::signing::has_wrong_signature;
use avp_dict::Dictionary;
use std::alloc::Global;

// Whether an Access-Request has a Message-Authenticator that does not sign it.
fn is_wrongly_signed(octets: &[u8], secret: &[u8]) -> bool
    requires head { PACKET_HEAD_OCTETS ≤ length_of octets.now }
    requires within { length_of octets.now ≤ length octets.now }
    requires short { length_of octets.now ≤ MAX_PACKET_OCTETS }
    requires whole { left (attributes_of octets.now) ≡ [] }
    ensures { result ≡ is_wrongly_signed octets.now secret.now }
{
    octets[0] == ACCESS_REQUEST && has_wrong_signature(octets, &copy_authenticator(octets), secret)
}

// Why a whole packet is not taken as a request, if it is not.
fn refusal(octets: &[u8], secret: &[u8]) -> Option<PacketFault>
    requires head { PACKET_HEAD_OCTETS ≤ length_of octets.now }
    requires within { length_of octets.now ≤ length octets.now }
    requires short { length_of octets.now ≤ MAX_PACKET_OCTETS }
    requires whole { left (attributes_of octets.now) ≡ [] }
    ensures some { IfSome result (λ fault. (dictionary : Dictionary)
        → request_read dictionary secret.now octets.now ≡ Err fault) }
    ensures certain { IfSome result (λ fault. is_memory fault ≡ false) }
    ensures none { IfNone result ((dictionary : Dictionary)
        → request_read dictionary secret.now octets.now
        ≡ Ok (packet_read dictionary secret.now
        (hiding_authenticator (code_of octets.now) (authenticator_of octets.now))
        octets.now)) }
    ensures code { IfNone result (IsRequestCode (code_of octets.now)) }
{
    let code = octets[0];
    if code != ACCESS_REQUEST && code != ACCOUNTING_REQUEST {
        Some(PacketFault::CodeNotTaken)
    } else if code == ACCOUNTING_REQUEST && !is_accounting_request(octets, secret) {
        Some(PacketFault::WrongAuthenticator)
    } else if is_wrongly_signed(octets, secret) {
        Some(PacketFault::WrongMessageAuthenticator)
    } else {
        None
    }
}

/// Reads an Access-Request, or an Accounting-Request whose authenticator is right; octets past Length are not looked
/// at. An Access-Request that has a Message-Authenticator must be signed by it. The faults are tried in the order in
/// which [`PacketFault`] has them, and memory can run out only where none applies.
/// [`decode_reply`](crate::decode_reply) reads replies.
///
/// ```rust
/// // The octets of `User-Name = "bob", NAS-Port = 3`, with the identifier 7.
/// let request = decode(alloc, dictionary, b"testing123", octets)?;
/// assert_eq!(rt; (request.code, request.id), (ACCESS_REQUEST, 7));
/// assert_eq!(rt; request.list.as_slice().len(), 2);
/// let refused = decode(alloc, dictionary, b"testing123", b"\x01\x07\x00\x14").err();
/// assert_eq!(rt; refused, Some(PacketFault::TooShort));
/// ```
#[tactic(auto, unfolding(crate::specs::Decoded::decoded))]
pub fn decode(
    alloc: Global,
    dictionary: &Dictionary,
    secret: &[u8],
    octets: &[u8],
) -> Result<Packet, PacketFault>
    requires { 0 < length secret.now }
    ensures fits { IfOk result (λ packet.
        All (λ pair. fits pair dictionary.now ≡ true) packet.list) }

    // Each pair's own octets stand for its value, but for an attribute that holds others and is
    // not looked into.
    ensures own { IfOk result (λ packet. All (IsCanonicalOrContainer dictionary.now) packet.list) }

    // The list is the one that the attributes mean.
    ensures means { IfOk result (λ packet. OctetsMean dictionary.now secret.now
        packet.code packet.authenticator octets.now packet.list) }
    ensures only { IfOk result (λ packet. (pairs : List Pair)
        → OctetsMean dictionary.now secret.now packet.code packet.authenticator octets.now pairs
        → pairs ≡ packet.list) }
    ensures read { Meets is_memory result (decoded dictionary.now secret.now octets.now) }
    ensures memory { IfErr result (λ fault. IsTrue (is_memory fault)
        → IsOk (decoded dictionary.now secret.now octets.now)) }
    ensures code { IfOk result (λ packet. IsRequestCode packet.code) }
    ensures few { IfOk result (λ packet. length packet.list ≤ max_pairs) }
{
    let count = count_whole(octets)?;
    if let Some(fault) = refusal(octets, secret) {
        return Err(fault);
    }
    let keys = Keys {
        dictionary,
        secret,
        authenticator: &hiding_authenticator(octets[0], &copy_authenticator(octets)),
        last_id: None,
        last_vendor: None,
    };
    Ok(read_packet(alloc, &keys, octets, count)?)
}
