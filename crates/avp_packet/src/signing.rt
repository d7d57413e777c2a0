//! Packets that are signed by a Message-Authenticator (RFC 3579, section 3.2).

ghost use Rattle.std.specs.Prelude.{◌≡◌, ◌≤◌, ◌<◌, ◌++◌, [], length, map, IfSome, IfNone};
ghost use Rattle.std.specs.List.{flat_map, list_any};
ghost use Rattle.avp_packet.specs.AttributeOctets.{part};
ghost use Rattle.avp_packet.specs.Decoded.{has_wrong_signature};
ghost use Rattle.avp_packet.specs.Hmac.{hmac};
ghost use Rattle.avp_packet.specs.Packets.{attributes_of, length_of};
ghost use Rattle.avp_packet.specs.Signed.{blanked, is_only, is_signature, is_signed, signatures};
ghost use Rattle.avp_packet.specs.Splitting.{left, part_octets, parts};
ghost use Rattle.avp_packet.specs.internal.Signings.{has_some, is_right, is_wrong};

use crate::attribute::numbers::MESSAGE_AUTHENTICATOR;
use crate::attribute::splitting::first_attribute;
use crate::attribute::walking::count_attributes;
use crate::authenticators::{
    AUTHENTICATOR_PLACE, MAX_PACKET_OCTETS, PACKET_HEAD_OCTETS, are_equal, attributes_in,
    length_of, packet_length,
};
use crate::hmac::signature_between;

// A Message-Authenticator's value, and the octets before and after the attribute.
#[derive(Clone, Copy)]
struct Found<'a> {
    before: &'a [u8],
    value: &'a [u8],
    after: &'a [u8],
}

// The first Message-Authenticator among attributes.
fn find_signature(octets: &[u8]) -> Option<Found<'_>>
    ensures octets { IfSome result (λ f. octets.now
        ≡ f.before.now ++ part_octets (part MESSAGE_AUTHENTICATOR f.value.now) ++ f.after.now) }
    ensures whole { IfSome result (λ f. left f.before.now ≡ []) }
    ensures first { IfSome result (λ f. signatures (parts f.before.now) ≡ []) }
    ensures none { IfNone result (signatures (parts octets.now) ≡ []) }
{
    let mut rest = octets;
    while let Some(front) = first_attribute(rest) {
        if front.number == MESSAGE_AUTHENTICATOR {
            return Some(Found {
                before: &octets[..octets.len() - rest.len()],
                value: front.value,
                after: front.rest,
            });
        }
        rest = front.rest;
    }
    None
}

// Whether there is a Message-Authenticator among attributes.
fn has_signature(attributes: &[u8]) -> bool
    ensures { result ≡ list_any is_signature (parts attributes.now) }
{
    find_signature(attributes).is_some()
}

// What the Message-Authenticators among a packet's attributes say of it.
#[derive(Clone, Copy, Debug)]
enum Signing {
    // There is none.
    Unsigned,
    // There is one, the digest of the packet.
    Right,
    // There is another one, or more than one.
    Wrong,
}

impl Signing {
    fn is_right(self) -> bool
        ensures { result ≡ is_right self }
    {
        matches!(self, Signing::Right)
    }

    fn is_wrong(self) -> bool
        ensures { result ≡ is_wrong self }
    {
        matches!(self, Signing::Wrong)
    }
}

fn signing_among(
    code_id_length: &[u8],
    authenticator: &[u8; 16],
    attributes: &[u8],
    secret: &[u8],
) -> Signing
    requires { left attributes.now ≡ [] }
    ensures right { is_right result ≡ is_only (hmac secret.now
        (code_id_length.now ++ authenticator.now
        ++ flat_map part_octets (map blanked (parts attributes.now))))
        (signatures (parts attributes.now)) }
    ensures some { has_some result ≡ list_any is_signature (parts attributes.now) }
{
    let Some(found) = find_signature(attributes) else {
        return Signing::Unsigned;
    };
    if has_signature(found.after) {
        return Signing::Wrong;
    }
    let digest = signature_between(
        secret,
        code_id_length,
        authenticator,
        found.before,
        found.after,
    );
    if are_equal(found.value, &digest) {
        Signing::Right
    } else {
        Signing::Wrong
    }
}

/// Whether a packet of whole attributes has a Message-Authenticator that does not sign it under this authenticator.
#[tactic(auto, unfolding(crate::specs::Signed::is_signed))]
pub(crate) fn has_wrong_signature(octets: &[u8], authenticator: &[u8; 16], secret: &[u8]) -> bool
    requires head { PACKET_HEAD_OCTETS ≤ length_of octets.now }
    requires within { length_of octets.now ≤ length octets.now }
    requires short { length_of octets.now ≤ MAX_PACKET_OCTETS }
    requires whole { left (attributes_of octets.now) ≡ [] }
    ensures { result ≡ has_wrong_signature octets.now authenticator.now secret.now }
{
    signing_among(
        &octets[..AUTHENTICATOR_PLACE],
        authenticator,
        attributes_in(octets, length_of(octets)),
        secret,
    )
    .is_wrong()
}

/// Whether a packet is signed by its only Message-Authenticator (RFC 3579, section 3.2). The authenticator to give is a
/// request's own, and for a reply that of its request. Where attributes are not whole, or there is no
/// Message-Authenticator or more than one, it is not. Octets past Length are not looked at.
///
/// ```rust
/// // The signed reply of a server that has the secret `testing123`.
/// assert!(rt; check_message(reply, authenticator, b"testing123"));
/// assert!(rt; !check_message(reply, authenticator, b"testing"));
/// ```
#[tactic(auto, unfolding(crate::specs::Signed::is_signed))]
pub fn check_message(octets: &[u8], authenticator: &[u8; 16], secret: &[u8]) -> bool
    requires { 0 < length secret.now }
    ensures { result ≡ is_signed octets.now authenticator.now secret.now }
{
    let Some(length) = packet_length(octets) else {
        return false;
    };
    let attributes = attributes_in(octets, length);
    if count_attributes(attributes).is_err() {
        return false;
    }
    signing_among(
        &octets[..AUTHENTICATOR_PLACE],
        authenticator,
        attributes,
        secret,
    )
    .is_right()
}
