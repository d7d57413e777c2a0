//! Packets written (RFC 2865, section 3; RFC 2866, section 3; RFC 3579, section 3.2).

ghost use Rattle.std.specs.Prelude.{◌≡◌, ◌≤◌, ◌<◌, ◌+◌, ◌++◌, ℕ, List, [], true, false, length, take, drop, All, OnOk, IfOk, Ok, Err};
ghost use Rattle.avp_lists.specs.declared.pairs.AttrId.TheVariants.{Plain};
ghost use Rattle.avp_dict.specs.AttributeNumbers.{proxy_state};
ghost use Rattle.avp_dict.specs.Limits.{fits};
ghost use Rattle.avp_dict.specs.Sent.{is_clean};
ghost use Rattle.avp_packet.specs.DecodedReply.{decoded_reply};
ghost use Rattle.avp_packet.specs.Hmac.{hmac};
ghost use Rattle.avp_packet.specs.PacketMeaning.{OctetsMeanContent, packet_meant};
ghost use Rattle.avp_packet.specs.Packets.{IsReplyCode, IsRequestCode, IsShort, IsTooLong, attributes_of, authenticator_of, hiding_authenticator, is_reply, packet, reply, reply_content, request, request_authenticator, request_content, request_kind, zeros};
ghost use Rattle.avp_packet.specs.Sending.{is_to_sign};
ghost use Rattle.avp_packet.specs.Signed.{is_signed};
ghost use Rattle.avp_packet.specs.Splitting.{left};
ghost use Rattle.avp_packet.specs.internal.Filling.{AreVendorsInRange, IsPlace, KeepsAll, divided_octets, divided_signed, filled, without_length};

use crate::attribute::splitting::ATTRIBUTE_HEAD_OCTETS;
use crate::authenticators::{
    AUTHENTICATOR_PLACE, LENGTH_PLACE, MAX_PACKET_OCTETS, PACKET_HEAD_OCTETS, ZEROS, digest_under,
};
use crate::decoding::packets::copy_authenticator;
use crate::encoding::dividing::{Division, divide_reply, divide_request};
use crate::encoding::lengths::is_too_long;
use crate::encoding::pairs::write_attributes;
use crate::faults::EncodeFault;
use crate::hmac::hmac;
use crate::keys::{Keys, hiding_authenticator};
use crate::packets::{ACCOUNTING_REQUEST, ACCOUNTING_RESPONSE};
use avp_dict::Dictionary;
use avp_lists::Pair;
use std::alloc::{AllocError, Global};

// Puts octets in the place of as many others.
fn fill_in(octets: &mut Vec<u8>, place: usize, filling: &[u8])
    requires { place + length filling.now ≤ length octets.old.items }
    ensures { octets.new.items ≡ take place octets.old.items ++ filling.now
        ++ drop (place + length filling.now) octets.old.items }
{
    octets[place..place + filling.len()].copy_from_slice(filling);
}

// Fills in the Length of a packet whose attributes are written.
#[tactic(auto, unfolding(crate::specs::Packets::packet))]
fn fill_length(octets: &mut Vec<u8>)
    requires head { PACKET_HEAD_OCTETS ≤ length octets.old.items }
    requires short { length octets.old.items ≤ MAX_PACKET_OCTETS }
    ensures { (code id : ℕ) (authenticator attributes : List ℕ) → length authenticator ≡ 16
        → octets.old.items ≡ without_length code id authenticator attributes
        → octets.new.items ≡ packet code id authenticator attributes }
{
    let length = (octets.len() as u16).to_be_bytes();
    fill_in(octets, LENGTH_PLACE, &length);
}

// Fills in another authenticator.
fn fill_authenticator(octets: &mut Vec<u8>, authenticator: &[u8; 16])
    requires { PACKET_HEAD_OCTETS ≤ length octets.old.items }
    ensures length { length octets.new.items ≡ length octets.old.items }
    ensures packet { (code id : ℕ) (others attributes : List ℕ) → length others ≡ 16
        → octets.old.items ≡ packet code id others attributes
        → octets.new.items ≡ packet code id authenticator.now attributes }
{
    fill_in(octets, AUTHENTICATOR_PLACE, authenticator);
}

// Signs a packet under the authenticator in it, where it has a blank Message-Authenticator.
fn sign(octets: &mut Vec<u8>, place: Option<usize>, secret: &[u8])
    requires place { IsPlace (length octets.old.items) place }
    requires blank { filled octets.old.items place zeros ≡ octets.old.items }
    ensures { octets.new.items ≡ filled octets.old.items place
        (hmac secret.now octets.old.items) }
{
    let Some(place) = place else {
        return;
    };
    let signature = hmac(secret, octets);
    fill_in(octets, place + ATTRIBUTE_HEAD_OCTETS, &signature);
}

// A packet's head with no Length yet, in a list with room for the whole packet.
fn packet_head(
    alloc: Global,
    code: u8,
    id: u8,
    authenticator: &[u8; 16],
) -> Result<Vec<u8>, AllocError>
    ensures head { IfOk result (λ octets. octets.items
        ≡ without_length code id authenticator.now []) }
    ensures length { IfOk result (λ octets. length octets.items ≡ PACKET_HEAD_OCTETS) }
{
    let mut octets = Vec::with_capacity(alloc, MAX_PACKET_OCTETS)?;
    octets.extend_from_slice(&[code, id, 0, 0])?;
    octets.extend_from_slice(authenticator)?;
    Ok(octets)
}

// A packet with the authenticator of its keys, the Request Authenticator, and signed under it. Memory may run out before
// it is seen that the packet is too long.
fn write_packet(
    alloc: Global,
    keys: &Keys<'_>,
    code: u8,
    id: u8,
    division: &Division<'_>,
    proxy_states: &[Pair],
) -> Result<Vec<u8>, EncodeFault>
    requires list_fits { KeepsAll (λ pair. fits pair keys.now.dictionary.now) division.now }
    requires proxies_fit { All (λ pair. fits pair keys.now.dictionary.now ≡ true) proxy_states.now }
    ensures octets { IfOk result (λ octets. octets.items
        ≡ packet code id keys.now.authenticator.now
        (divided_signed keys.now.dictionary.now keys.now.secret.now code id
        keys.now.authenticator.now division.now proxy_states.now)) }
    ensures short { IfOk result (λ octets. length octets.items ≤ MAX_PACKET_OCTETS) }
    ensures ranged { OnOk result (AreVendorsInRange division.now proxy_states.now) }
    ensures too_long { result ≡ Err EncodeFault.TooLong → MAX_PACKET_OCTETS
        < PACKET_HEAD_OCTETS
        + length (divided_octets keys.now.dictionary.now keys.now.secret.now
        (hiding_authenticator code keys.now.authenticator.now)
        division.now proxy_states.now zeros) }
{
    let hiding = Keys {
        dictionary: keys.dictionary,
        secret: keys.secret,
        authenticator: &hiding_authenticator(code, keys.authenticator),
        last_id: None,
        last_vendor: None,
    };
    let mut octets = packet_head(alloc, code, id, keys.authenticator)?;
    let place = write_attributes(&mut octets, &hiding, division, proxy_states)?;
    fill_length(&mut octets);
    sign(&mut octets, place, keys.secret);
    Ok(octets)
}

// Why a packet is not written: memory that ran out is no reason where the packet is too long.
fn exact_fault(
    fault: EncodeFault,
    keys: &Keys<'_>,
    code: u8,
    division: &Division<'_>,
    proxy_states: &[Pair],
) -> EncodeFault
    requires list_fits { KeepsAll (λ pair. fits pair keys.now.dictionary.now) division.now }
    requires proxies_fit { All (λ pair. fits pair keys.now.dictionary.now ≡ true) proxy_states.now }
    requires too_long { fault ≡ EncodeFault.TooLong → MAX_PACKET_OCTETS
        < PACKET_HEAD_OCTETS
        + length (divided_octets keys.now.dictionary.now keys.now.secret.now
        (hiding_authenticator code keys.now.authenticator.now)
        division.now proxy_states.now zeros) }
    ensures too_long { result ≡ EncodeFault.TooLong → MAX_PACKET_OCTETS
        < PACKET_HEAD_OCTETS
        + length (divided_octets keys.now.dictionary.now keys.now.secret.now
        (hiding_authenticator code keys.now.authenticator.now)
        division.now proxy_states.now zeros) }
    ensures memory { result ≡ EncodeFault.Memory
        → PACKET_HEAD_OCTETS
        + length (divided_octets keys.now.dictionary.now keys.now.secret.now
        (hiding_authenticator code keys.now.authenticator.now)
        division.now proxy_states.now zeros)
        ≤ MAX_PACKET_OCTETS }
{
    match fault {
        EncodeFault::TooLong => EncodeFault::TooLong,
        EncodeFault::Memory => {
            if is_too_long(keys, code, division, proxy_states) {
                EncodeFault::TooLong
            } else {
                EncodeFault::Memory
            }
        }
    }
}

// The same, and memory runs out only where the packet is not too long.
fn signed_packet(
    alloc: Global,
    keys: &Keys<'_>,
    code: u8,
    id: u8,
    division: &Division<'_>,
    proxy_states: &[Pair],
) -> Result<Vec<u8>, EncodeFault>
    requires list_fits { KeepsAll (λ pair. fits pair keys.now.dictionary.now) division.now }
    requires proxies_fit { All (λ pair. fits pair keys.now.dictionary.now ≡ true) proxy_states.now }
    ensures octets { IfOk result (λ octets. octets.items
        ≡ packet code id keys.now.authenticator.now
        (divided_signed keys.now.dictionary.now keys.now.secret.now code id
        keys.now.authenticator.now division.now proxy_states.now)) }
    ensures short { IfOk result (λ octets. length octets.items ≤ MAX_PACKET_OCTETS) }
    ensures ranged { OnOk result (AreVendorsInRange division.now proxy_states.now) }
    ensures too_long { result ≡ Err EncodeFault.TooLong → MAX_PACKET_OCTETS
        < PACKET_HEAD_OCTETS
        + length (divided_octets keys.now.dictionary.now keys.now.secret.now
        (hiding_authenticator code keys.now.authenticator.now)
        division.now proxy_states.now zeros) }
    ensures memory { result ≡ Err EncodeFault.Memory
        → PACKET_HEAD_OCTETS
        + length (divided_octets keys.now.dictionary.now keys.now.secret.now
        (hiding_authenticator code keys.now.authenticator.now)
        division.now proxy_states.now zeros)
        ≤ MAX_PACKET_OCTETS }
{
    match write_packet(alloc, keys, code, id, division, proxy_states) {
        Ok(octets) => Ok(octets),
        Err(fault) => Err(exact_fault(fault, keys, code, division, proxy_states)),
    }
}

// Fills in the authenticator of a request, which has the one of an Access-Request.
#[tactic(auto, unfolding(crate::specs::Packets::digest_over))]
fn fill_request_authenticator(octets: &mut Vec<u8>, code: u8, secret: &[u8])
    requires { PACKET_HEAD_OCTETS ≤ length octets.old.items }
    ensures { (id : ℕ) (authenticator attributes : List ℕ) → length authenticator ≡ 16
        → octets.old.items ≡ packet code id authenticator attributes
        → octets.new.items ≡ packet code id
        (request_authenticator code id authenticator attributes secret.now) attributes }
{
    if code == ACCOUNTING_REQUEST {
        fill_authenticator(octets, &ZEROS);
        let digest = digest_under(octets, secret);
        fill_authenticator(octets, &digest);
    }
}

/// An Access-Request or an Accounting-Request with the pairs of a list. The authenticator of an Accounting-Request is
/// its digest, and the one given is not used. In an Access-Request the list's first Message-Authenticator, whatever its
/// value, is sent in its place as one that signs the packet, and later ones are not sent; an Accounting-Request sends
/// them as they are.
///
/// ```rust
/// let (secret, code) = (b"testing123", ACCESS_REQUEST);
/// let list = dictionary.read_request(alloc, b"User-Name = \"bob\", NAS-Port = 3")?;
/// let octets = encode_request(alloc, dictionary, secret, code, 7, authenticator, &list)?;
/// assert_eq!(rt; octets.len(), 31);
/// let packet = decode(alloc, dictionary, secret, &octets)?;
/// assert!(rt; packet.list.as_slice() == list.as_slice());
/// ```
pub fn encode_request(
    alloc: Global,
    dictionary: &Dictionary,
    secret: &[u8],
    code: u8,
    id: u8,
    authenticator: &[u8; 16],
    list: &[Pair],
) -> Result<Vec<u8>, EncodeFault>
    requires secret { 0 < length secret.now }
    requires code { IsRequestCode code }
    requires fits { All (λ pair. fits pair dictionary.now ≡ true) list.now }
    ensures octets { IfOk result (λ octets. octets.items
        ≡ request dictionary.now secret.now code id authenticator.now list.now) }
    ensures short { OnOk result (IsShort
        (request dictionary.now secret.now code id authenticator.now list.now)) }
    // The attributes are whole, and what is written of a clean list means the pairs that are sent.
    ensures whole { IfOk result (λ octets. left (attributes_of octets.items) ≡ []) }
    ensures means { IfOk result (λ octets. is_clean list.now dictionary.now ≡ true
        → OctetsMeanContent dictionary.now secret.now code id authenticator.now
        (request_content code list.now) octets.items) }
    // An Access-Request is signed where its list has a Message-Authenticator.
    ensures signed { IfOk result (λ octets. is_to_sign (request_kind code) list.now ≡ true
        → is_signed octets.items authenticator.now secret.now ≡ true) }
    ensures too_long { result ≡ Err EncodeFault.TooLong → IsTooLong
        (request dictionary.now secret.now code id authenticator.now list.now) }
    ensures memory { result ≡ Err EncodeFault.Memory → IsShort
        (request dictionary.now secret.now code id authenticator.now list.now) }
{
    dictionary.is_sound();
    let division = divide_request(code, list);
    let keys = Keys {
        dictionary,
        secret,
        authenticator,
        last_id: None,
        last_vendor: None,
    };
    let mut octets = signed_packet(alloc, &keys, code, id, &division, &[])?;
    fill_request_authenticator(&mut octets, code, secret);
    Ok(octets)
}

/// The authenticator of the packet that [`encode_request`] makes of these arguments: for an Accounting-Request its
/// digest, else the one given.
pub fn encoded_authenticator(
    alloc: Global,
    dictionary: &Dictionary,
    secret: &[u8],
    code: u8,
    id: u8,
    authenticator: &[u8; 16],
    list: &[Pair],
) -> Result<[u8; 16], EncodeFault>
    requires secret { 0 < length secret.now }
    requires code { IsRequestCode code }
    requires fits { All (λ pair. fits pair dictionary.now ≡ true) list.now }
    ensures authenticator { IfOk result (λ own. own ≡ authenticator_of
        (request dictionary.now secret.now code id authenticator.now list.now)) }
    ensures short { OnOk result (IsShort
        (request dictionary.now secret.now code id authenticator.now list.now)) }
    ensures too_long { result ≡ Err EncodeFault.TooLong → IsTooLong
        (request dictionary.now secret.now code id authenticator.now list.now) }
    ensures memory { result ≡ Err EncodeFault.Memory → IsShort
        (request dictionary.now secret.now code id authenticator.now list.now) }
{
    let octets = encode_request(alloc, dictionary, secret, code, id, authenticator, list)?;
    Ok(copy_authenticator(&octets))
}

/// A reply with the pairs of a list, but for the list's Message-Authenticators, and then the Proxy-States of the
/// request. Where it is signed, a Message-Authenticator comes first, made over the Request Authenticator; the Response
/// Authenticator is made over it.
///
/// ```rust
/// let (secret, code) = (b"testing123", ACCESS_ACCEPT);
/// let list = dictionary.read_request(alloc, b"Session-Timeout = 600")?;
/// let reply = encode_reply(
///     alloc,
///     dictionary,
///     secret,
///     code,
///     7,
///     authenticator,
///     &list,
///     &[],
///     true,
/// )?;
/// assert!(rt; check_reply(&reply, authenticator, secret));
/// assert!(rt; check_message(&reply, authenticator, secret));
/// ```
pub fn encode_reply(
    alloc: Global,
    dictionary: &Dictionary,
    secret: &[u8],
    code: u8,
    id: u8,
    request_authenticator: &[u8; 16],
    list: &[Pair],
    proxy_states: &[Pair],
    signed: bool,
) -> Result<Vec<u8>, EncodeFault>
    requires secret { 0 < length secret.now }
    requires code { IsReplyCode code }
    requires fits { All (λ pair. fits pair dictionary.now ≡ true) list.now }
    requires proxies_fit { All (λ pair. fits pair dictionary.now ≡ true) proxy_states.now }
    requires proxies { All (λ pair. pair.id ≡ Plain proxy_state) proxy_states.now }
    // An Accounting-Response has no Message-Authenticator.
    requires signed { code ≡ ACCOUNTING_RESPONSE → signed ≡ false }
    ensures octets { IfOk result (λ octets. octets.items ≡ reply dictionary.now secret.now code id
        request_authenticator.now signed list.now proxy_states.now) }
    ensures short { OnOk result (IsShort (reply dictionary.now secret.now code id
        request_authenticator.now signed list.now proxy_states.now)) }

    // The attributes are whole, and what is written of clean lists means the pairs that are sent.
    ensures whole { IfOk result (λ octets. left (attributes_of octets.items) ≡ []) }
    ensures means { IfOk result (λ octets.
        is_clean list.now dictionary.now ≡ true → is_clean proxy_states.now dictionary.now ≡ true
        → OctetsMeanContent dictionary.now secret.now code id request_authenticator.now
        (reply_content signed list.now proxy_states.now) octets.items) }

    // `check_reply` accepts the packet, and `check_message` where `signed` is true.
    ensures accepted { IfOk result (λ octets.
        is_reply octets.items request_authenticator.now secret.now ≡ true) }
    ensures signed { IfOk result (λ octets. signed ≡ true
        → is_signed octets.items request_authenticator.now secret.now ≡ true) }

    // `decode_reply` reads it as its code, its identifier and the pairs that are sent.
    ensures decoded { IfOk result (λ octets.
        is_clean list.now dictionary.now ≡ true → is_clean proxy_states.now dictionary.now ≡ true
        → decoded_reply dictionary.now secret.now request_authenticator.now octets.items
        ≡ Ok (packet_meant dictionary.now secret.now code id request_authenticator.now
        (reply_content signed list.now proxy_states.now) octets.items)) }
    ensures too_long { result ≡ Err EncodeFault.TooLong → IsTooLong
        (reply dictionary.now secret.now code id
        request_authenticator.now signed list.now proxy_states.now) }
    ensures memory { result ≡ Err EncodeFault.Memory → IsShort
        (reply dictionary.now secret.now code id
        request_authenticator.now signed list.now proxy_states.now) }
{
    dictionary.is_sound();
    let division = divide_reply(signed, list);
    let keys = Keys {
        dictionary,
        secret,
        authenticator: request_authenticator,
        last_id: None,
        last_vendor: None,
    };
    let mut octets = signed_packet(alloc, &keys, code, id, &division, proxy_states)?;
    let digest = digest_under(&octets, secret);
    fill_authenticator(&mut octets, &digest);
    Ok(octets)
}
