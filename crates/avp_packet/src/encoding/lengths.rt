//! Whether a packet is too long (RFC 2865, section 3), found with no memory.

ghost use Rattle.std.specs.Prelude.{◌≡◌, ◌≤◌, ◌<◌, ◌+◌, ◌*◌, ◌∷◌, List, ℕ, [], true, false, length, All, IfSome, IfNone};
ghost use Rattle.std.specs.List.{flat_map};
ghost use Rattle.avp_dict.specs.Limits.{fits};
ghost use Rattle.avp_packet.specs.AttributeOctets.{attribute_octets, parts_holding, sent_octets};
ghost use Rattle.avp_packet.specs.Hiding.{block_count};
ghost use Rattle.avp_packet.specs.Packets.{hiding_authenticator, zeros};
ghost use Rattle.avp_packet.specs.Splitting.{part_octets};
ghost use Rattle.avp_packet.specs.internal.Filling.{KeepsAll, divided_octets, kept_pairs, signature_if};
ghost use Rattle.avp_packet.specs.internal.Views.{under};

use crate::attribute::numbers::{LONG_EXTENDED_TYPE_1, PIECE_OCTETS};
use crate::attribute::splitting::ATTRIBUTE_HEAD_OCTETS;
use crate::attribute::subattributes::{VENDOR_ID_OCTETS, known_format};
use crate::authenticators::{MAX_ATTRIBUTES_OCTETS, MAX_PACKET_OCTETS};
use crate::encoding::dividing::Division;
use crate::encoding::pairs::{is_internal, is_kept, octets_of};
use crate::hiding::hidden_length;
use crate::hmac::SIGNATURE_OCTETS;
use crate::keys::{Keys, hiding_authenticator};
use avp_dict::Dictionary;
use avp_lists::{AttrId, Pair, Value};

// How many octets a pair's value is sent in.
#[tactic(auto, unfolding(crate::specs::AttributeOctets::sent_octets, avp_dict::specs::Octets::octets), using(crate::proofs::AttributeRoom::hidden_short, crate::proofs::Lengths::hidden_size))]
fn sent_length(keys: &Keys<'_>, pair: &Pair) -> usize
    requires { fits pair.now keys.now.dictionary.now ≡ true }
    ensures { result ≡ length (under keys.now sent_octets pair.now) }
{
    let typing = keys.typing(pair.id);
    let mut buffer = [0; 8];
    let plain = octets_of(typing.kind, &pair.value, &mut buffer).len();
    if typing.hidden && !matches!(pair.value, Value::Raw(_)) {
        return hidden_length(plain);
    }
    plain
}

// How many octets the attributes of an id have that hold a value of so many.
#[tactic(auto, unfolding(crate::specs::AttributeOctets::parts_holding), using(crate::proofs::Lengths::one_part, crate::proofs::Lengths::vendor_size, crate::proofs::Lengths::pieces_size))]
fn holding_length(dictionary: &Dictionary, id: AttrId, count: usize) -> usize
    requires { count ≤ MAX_PACKET_OCTETS }
    ensures { (value : List ℕ) → length value ≡ count
        → result ≡ length (flat_map part_octets (parts_holding dictionary.now id value)) }
{
    match id {
        AttrId::Plain(_) => ATTRIBUTE_HEAD_OCTETS + count,
        AttrId::Vendor(vendor, _) => match known_format(dictionary, vendor) {
            Some(format) => {
                let head = usize::from(format.t) + usize::from(format.l);
                ATTRIBUTE_HEAD_OCTETS + VENDOR_ID_OCTETS + head + count
            }
            None => 0,
        },
        AttrId::Extended(t, _) => {
            if t >= LONG_EXTENDED_TYPE_1 {
                let pieces = 1 + count.saturating_sub(1) / PIECE_OCTETS;
                (ATTRIBUTE_HEAD_OCTETS + 2) * pieces + count
            } else {
                ATTRIBUTE_HEAD_OCTETS + 1 + count
            }
        }
    }
}

// How many octets the attributes have that a pair is sent in.
fn attributes_length(keys: &Keys<'_>, pair: &Pair) -> usize
    requires { fits pair.now keys.now.dictionary.now ≡ true }
    ensures { result ≡ length (under keys.now attribute_octets (pair.now ∷ [])) }
{
    if is_internal(pair.id) {
        return 0;
    }
    let count = sent_length(keys, pair);
    if count < 1 {
        return 0;
    }
    holding_length(keys.dictionary, pair.id, count)
}

// How many they have, if the pair is not left out.
fn kept_length(keys: &Keys<'_>, pair: &Pair, all: bool) -> usize
    requires { fits pair.now keys.now.dictionary.now ≡ true }
    ensures { result
        ≡ length (under keys.now attribute_octets (kept_pairs all (pair.now ∷ []))) }
{
    if !is_kept(pair, all) {
        return 0;
    }
    attributes_length(keys, pair)
}

// What is left of so much room after the attributes of a list, with all of its Message-Authenticators or with none, if
// they have room.
fn room_after(keys: &Keys<'_>, list: &[Pair], all: bool, room: usize) -> Option<usize>
    requires { All (λ pair. fits pair keys.now.dictionary.now ≡ true) list.now }
    ensures some { IfSome result (λ rest. room
        ≡ rest + length (under keys.now attribute_octets (kept_pairs all list.now))) }
    ensures none { IfNone result (room
        < length (under keys.now attribute_octets (kept_pairs all list.now))) }
{
    let mut rest = room;
    for pair in list {
        let length = kept_length(keys, pair, all);
        if length > rest {
            return None;
        }
        rest -= length;
    }
    Some(rest)
}

// What is left after a Message-Authenticator, where there is to be one.
fn room_after_signature(signed: bool, room: usize) -> Option<usize>
    ensures some { IfSome result (λ rest. room ≡ rest + length (signature_if signed zeros)) }
    ensures none { IfNone result (room < length (signature_if signed zeros)) }
{
    if !signed {
        return Some(room);
    }
    if room < SIGNATURE_OCTETS {
        return None;
    }
    Some(room - SIGNATURE_OCTETS)
}

// What is left of a packet's room after its attributes.
#[tactic(auto, using(crate::proofs::Lengths::divided_size))]
fn room_left(keys: &Keys<'_>, division: &Division<'_>, proxy_states: &[Pair]) -> Option<usize>
    requires list_fits { KeepsAll (λ pair. fits pair keys.now.dictionary.now) division.now }
    requires proxies_fit { All (λ pair. fits pair keys.now.dictionary.now ≡ true) proxy_states.now }
    ensures some { IfSome result (λ rest.
        length (under keys.now divided_octets division.now proxy_states.now zeros)
        ≤ MAX_ATTRIBUTES_OCTETS) }
    ensures none { IfNone result (MAX_ATTRIBUTES_OCTETS
        < length (under keys.now divided_octets division.now proxy_states.now zeros)) }
{
    let room = room_after(keys, division.before, true, MAX_ATTRIBUTES_OCTETS)?;
    let room = room_after_signature(division.signed, room)?;
    let room = room_after(keys, division.after, false, room)?;
    room_after(keys, proxy_states, true, room)
}

/// Whether the attributes of a divided list are too many for a packet, by keys that have the Request Authenticator.
pub(crate) fn is_too_long(
    keys: &Keys<'_>,
    code: u8,
    division: &Division<'_>,
    proxy_states: &[Pair],
) -> bool
    requires list_fits { KeepsAll (λ pair. fits pair keys.now.dictionary.now) division.now }
    requires proxies_fit { All (λ pair. fits pair keys.now.dictionary.now ≡ true) proxy_states.now }
    ensures long { result ≡ true → MAX_ATTRIBUTES_OCTETS
        < length (divided_octets keys.now.dictionary.now keys.now.secret.now
        (hiding_authenticator code keys.now.authenticator.now)
        division.now proxy_states.now zeros) }
    ensures short { result ≡ false
        → length (divided_octets keys.now.dictionary.now keys.now.secret.now
        (hiding_authenticator code keys.now.authenticator.now)
        division.now proxy_states.now zeros) ≤ MAX_ATTRIBUTES_OCTETS }
{
    let hiding = Keys {
        dictionary: keys.dictionary,
        secret: keys.secret,
        authenticator: &hiding_authenticator(code, keys.authenticator),
        last_id: None,
        last_vendor: None,
    };
    room_left(&hiding, division, proxy_states).is_none()
}
