//! The digests in authenticators (RFC 2865, section 3; RFC 2866, section 3).

ghost use Rattle.std.specs.Prelude.{◌≡◌, ◌≤◌, ◌<◌, ◌++◌, true, false, length, take, drop, IfSome, IfNone};
ghost use Rattle.std.specs.Str.{bytes_eq};
ghost use Rattle.md5.specs.Md5.{md5};
ghost use Rattle.avp_packet.specs.Decoded.{is_accounting_request};
ghost use Rattle.avp_packet.specs.Packets.{authenticator_of, begins_packet, is_packet_length, is_reply, length_of};

use md5::{Digest, Md5};

/// Octets before the attributes: Code, Identifier, Length and Authenticator (RFC 2865, section 3).
pub const PACKET_HEAD_OCTETS: usize = 20;

/// The most octets of a packet, of every code.
pub const MAX_PACKET_OCTETS: usize = 4096;

/// The most octets of a packet's attributes.
pub(crate) const MAX_ATTRIBUTES_OCTETS: usize = MAX_PACKET_OCTETS - PACKET_HEAD_OCTETS;

/// The octets of a digest, and of an authenticator.
pub(crate) const DIGEST_OCTETS: usize = 16;

/// Where Length begins.
pub(crate) const LENGTH_PLACE: usize = 2;

/// Where the authenticator begins.
pub(crate) const AUTHENTICATOR_PLACE: usize = 4;

/// Octets of zero, in an authenticator's place.
pub(crate) const ZEROS: [u8; DIGEST_OCTETS] = [0; DIGEST_OCTETS];

pub(crate) fn is_packet_length(length: usize) -> bool
    ensures { result ≡ is_packet_length length }
{
    length >= PACKET_HEAD_OCTETS && length <= MAX_PACKET_OCTETS
}

/// The Length in a packet.
pub(crate) fn length_of(octets: &[u8]) -> usize
    requires { PACKET_HEAD_OCTETS ≤ length octets.now }
    ensures { result ≡ length_of octets.now }
{
    usize::from(u16::from_be_bytes([octets[2], octets[3]]))
}

/// The Length of a packet that octets begin with.
pub(crate) fn packet_length(octets: &[u8]) -> Option<usize>
    ensures length { IfSome result (λ end. end ≡ length_of octets.now) }
    ensures head { IfSome result (λ end. PACKET_HEAD_OCTETS ≤ end) }
    ensures whole { IfSome result (λ end. end ≤ length octets.now) }
    ensures begins { IfSome result (λ end. begins_packet octets.now ≡ true) }
    ensures none { IfNone result (begins_packet octets.now ≡ false) }
{
    if octets.len() < PACKET_HEAD_OCTETS {
        return None;
    }
    let length = length_of(octets);
    if is_packet_length(length) && length <= octets.len() {
        Some(length)
    } else {
        None
    }
}

fn digest_of_four(first: &[u8], second: &[u8], third: &[u8], fourth: &[u8]) -> [u8; 16]
    ensures { result ≡ md5 (first.now ++ second.now ++ third.now ++ fourth.now) }
{
    let mut hasher = Md5::new();
    hasher.update(first);
    hasher.update(second);
    hasher.update(third);
    hasher.update(fourth);
    hasher.finalize()
}

/// The authenticator in a packet.
pub(crate) fn authenticator_of(octets: &[u8]) -> &[u8]
    requires { PACKET_HEAD_OCTETS ≤ length octets.now }
    ensures { result.now ≡ authenticator_of octets.now }
{
    &octets[AUTHENTICATOR_PLACE..PACKET_HEAD_OCTETS]
}

/// What is after the authenticator, up to the end.
pub(crate) fn attributes_in(octets: &[u8], end: usize) -> &[u8]
    requires head { PACKET_HEAD_OCTETS ≤ end }
    requires whole { end ≤ length octets.now }
    ensures { result.now ≡ drop PACKET_HEAD_OCTETS (take end octets.now) }
{
    let whole = &octets[..end];
    &whole[PACKET_HEAD_OCTETS..]
}

/// Whether octets are the same.
pub(crate) fn are_equal(octets: &[u8], others: &[u8]) -> bool
    ensures { result ≡ bytes_eq octets.now others.now }
{
    octets == others
}

// Whether the authenticator is the digest with these octets in its place.
fn has_digest(octets: &[u8], end: usize, authenticator: &[u8; 16], secret: &[u8]) -> bool
    requires head { PACKET_HEAD_OCTETS ≤ end }
    requires whole { end ≤ length octets.now }
    ensures { result ≡ bytes_eq (authenticator_of octets.now)
        (md5 (take 4 octets.now ++ authenticator.now
        ++ drop PACKET_HEAD_OCTETS (take end octets.now) ++ secret.now)) }
{
    let digest = digest_of_four(
        &octets[..AUTHENTICATOR_PLACE],
        authenticator,
        attributes_in(octets, end),
        secret,
    );
    are_equal(authenticator_of(octets), &digest)
}

/// Whether the authenticator of an Accounting-Request is the digest over zeros.
pub(crate) fn is_accounting_request(octets: &[u8], secret: &[u8]) -> bool
    requires head { PACKET_HEAD_OCTETS ≤ length_of octets.now }
    requires whole { length_of octets.now ≤ length octets.now }
    ensures { result ≡ is_accounting_request octets.now secret.now }
{
    has_digest(octets, length_of(octets), &ZEROS, secret)
}

/// Whether octets are a reply to the request with this authenticator, by the Response Authenticator (RFC 2865, section
/// 3). Octets past Length are not looked at.
///
/// ```rust
/// // The reply of a server that has the secret `testing123`.
/// assert!(rt; check_reply(reply, authenticator, b"testing123"));
/// assert!(rt; !check_reply(reply, &[0; 16], b"testing123"));
/// ```
#[tactic(auto, unfolding(crate::specs::Packets::is_reply))]
pub fn check_reply(reply: &[u8], request_authenticator: &[u8; 16], secret: &[u8]) -> bool
    requires { 0 < length secret.now }
    ensures { result ≡ is_reply reply.now request_authenticator.now secret.now }
{
    let Some(length) = packet_length(reply) else {
        return false;
    };
    has_digest(reply, length, request_authenticator, secret)
}

/// The digest of a packet as it is, and of the secret.
pub(crate) fn digest_under(octets: &[u8], secret: &[u8]) -> [u8; 16]
    ensures { result ≡ md5 (octets.now ++ secret.now) }
{
    let mut hasher = Md5::new();
    hasher.update(octets);
    hasher.update(secret);
    hasher.finalize()
}
