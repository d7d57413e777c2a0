//! What is read alike of requests and of replies (RFC 2865, section 3).

ghost use Rattle.std.specs.Prelude.{◌≡◌, ◌≤◌, ◌<◌, [], true, false, Err, Result, length, All, OnOk, IfOk, IfErr};
ghost use Rattle.avp_dict.specs.Limits.{fits};
ghost use Rattle.avp_packet.specs.declared.packets.Packet.{Packet};
ghost use Rattle.avp_packet.specs.CanonicalOrContainer.{IsCanonicalOrContainer};
ghost use Rattle.avp_packet.specs.Decoded.{packet_read, unless_broken};
ghost use Rattle.avp_packet.specs.Meanings.{attribute_pairs};
ghost use Rattle.avp_packet.specs.Outcomes.{is_memory};
ghost use Rattle.avp_packet.specs.Packets.{attributes_of, authenticator_of, length_of};
ghost use Rattle.avp_packet.specs.Splitting.{left, parts};
ghost use Rattle.avp_packet.specs.internal.Views.{under};

use crate::attribute::walking::count_attributes;
use crate::authenticators::{
    MAX_PACKET_OCTETS, PACKET_HEAD_OCTETS, ZEROS, attributes_in, authenticator_of,
    is_packet_length, length_of,
};
use crate::decoding::pairs::attribute_pairs;
use crate::faults::PacketFault;
use crate::keys::Keys;
use crate::packets::Packet;
use avp_lists::Pairs;
use std::alloc::{AllocError, Global};

/// The authenticator in a packet.
pub(crate) fn copy_authenticator(octets: &[u8]) -> [u8; 16]
    requires { PACKET_HEAD_OCTETS ≤ length octets.now }
    ensures { result ≡ authenticator_of octets.now }
{
    let mut authenticator = ZEROS;
    authenticator.copy_from_slice(authenticator_of(octets));
    authenticator
}

/// How many attributes there are in a whole packet, where each of them is whole.
pub(crate) fn count_whole(octets: &[u8]) -> Result<usize, PacketFault>
    ensures head { OnOk result (PACKET_HEAD_OCTETS ≤ length_of octets.now) }
    ensures within { OnOk result (length_of octets.now ≤ length octets.now) }
    ensures short { OnOk result (length_of octets.now ≤ MAX_PACKET_OCTETS) }
    ensures whole { OnOk result (left (attributes_of octets.now) ≡ []) }
    ensures unbroken { OnOk result ((read : Result Packet PacketFault)
        → unless_broken octets.now read ≡ read) }
    ensures broken { IfErr result (λ fault. (read : Result Packet PacketFault)
        → unless_broken octets.now read ≡ Err fault) }
    ensures certain { IfErr result (λ fault. is_memory fault ≡ false) }
{
    if octets.len() < PACKET_HEAD_OCTETS {
        return Err(PacketFault::TooShort);
    }
    let length = length_of(octets);
    if !is_packet_length(length) {
        return Err(PacketFault::LengthOutOfRange);
    }
    if octets.len() < length {
        return Err(PacketFault::CutShort);
    }
    match count_attributes(attributes_in(octets, length)) {
        Ok(count) => Ok(count),
        Err(bad) => Err(PacketFault::BadAttribute(PACKET_HEAD_OCTETS + bad.offset)),
    }
}

/// The packet, with room for so many pairs.
pub(crate) fn read_packet(
    alloc: Global,
    keys: &Keys<'_>,
    octets: &[u8],
    count: usize,
) -> Result<Packet, AllocError>
    requires head { PACKET_HEAD_OCTETS ≤ length_of octets.now }
    requires within { length_of octets.now ≤ length octets.now }
    requires short { length_of octets.now ≤ MAX_PACKET_OCTETS }
    ensures fits { IfOk result (λ packet.
        All (λ pair. fits pair keys.now.dictionary.now ≡ true) packet.list) }
    ensures own { 0 < length keys.now.secret.now → IfOk result (λ packet.
        All (IsCanonicalOrContainer keys.now.dictionary.now) packet.list) }
    ensures means { IfOk result (λ packet. packet.list
        ≡ under keys.now attribute_pairs (parts (attributes_of octets.now))) }
    ensures packet { IfOk result (λ packet. packet ≡ under keys.now packet_read octets.now) }
    ensures few { IfOk result (λ packet. length packet.list ≤ length_of octets.now) }
{
    let attributes = attributes_in(octets, length_of(octets));
    let pairs = attribute_pairs(alloc, keys, attributes, count)?;
    Ok(Packet {
        code: octets[0],
        id: octets[1],
        authenticator: copy_authenticator(octets),
        list: Pairs::from_vec(pairs),
    })
}
