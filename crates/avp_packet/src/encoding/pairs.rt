//! The octets of pairs and lists as they are sent.

ghost use Rattle.std.specs.Prelude.{◌≡◌, ◌≤◌, ◌<◌, ◌+◌, ◌∷◌, ◌++◌, ℕ, List, [], true, false, length, All, OnOk, IfOk, IfSome, IsTrue, Err};
ghost use Rattle.avp_dict.specs.Limits.{fits};
ghost use Rattle.std.specs.Cow.{cow_slice_items};
ghost use Rattle.avp_dict.specs.Octets.{is_hidden, kind_of, number_octets, octets_of};
ghost use Rattle.avp_dict.specs.Sent.{is_internal};
ghost use Rattle.avp_packet.specs.AttributeOctets.{attribute_octets, sent_octets};
ghost use Rattle.avp_packet.specs.Packets.{zeros};
ghost use Rattle.avp_packet.specs.internal.Filling.{AreVendorsInRange, IsPlace, KeepsAll, divided_octets, filled, kept_pairs, place_if, signature_if};
ghost use Rattle.avp_packet.specs.internal.Ranges.{IsVendorInRange};
ghost use Rattle.avp_packet.specs.internal.Views.{under};

use crate::attribute::numbers::MESSAGE_AUTHENTICATOR;
use crate::authenticators::{MAX_PACKET_OCTETS, ZEROS};
use crate::encoding::attributes::{push_attribute, push_holding};
use crate::encoding::dividing::{Division, MESSAGE_AUTHENTICATOR_ID};
use crate::faults::EncodeFault;
use crate::hiding::hidden;
use crate::keys::{Keys, ValueTyping};
use avp_dict::Kind;
use avp_lists::{AttrId, Pair, Value};
use std::alloc::{AllocError, Global};
use std::borrow::CowSlice;

/// Whether an attribute is never sent.
pub(crate) fn is_internal(id: AttrId) -> bool
    ensures test { result ≡ is_internal id }
    ensures ranged { IsVendorInRange id }
{
    match id {
        AttrId::Plain(number) => number > 255,
        AttrId::Vendor(_, _) => false,
        AttrId::Extended(_, _) => false,
    }
}

// A number's octets, the highest first: those of 64 bits without the first ones.
fn number_octets(kind: Option<Kind>, number: u64, buffer: &mut [u8; 8]) -> &[u8]
    ensures { result.now ≡ number_octets kind number }
{
    *buffer = number.to_be_bytes();
    match kind {
        Some(Kind::Byte) => &buffer[7..],
        Some(Kind::Short) => &buffer[6..],
        Some(Kind::Integer64) => &buffer[..],
        _ => &buffer[4..],
    }
}

/// A value's octets: its own, or those of its number, which are put into the buffer.
pub(crate) fn octets_of<'a>(
    kind: Option<Kind>,
    value: &'a Value,
    buffer: &'a mut [u8; 8],
) -> &'a [u8]
    ensures { result.now ≡ octets_of kind value.now }
{
    match value {
        Value::Text(octets) => octets.as_slice(),
        Value::Bytes(octets) => octets.as_slice(),
        Value::Int(number) => number_octets(kind, *number, buffer),
        Value::Signed(number) => number_octets(None, u64::from(number.cast_unsigned()), buffer),
        Value::Addr(address) => address,
        Value::Ether(address) => address,
        Value::Raw(octets) => octets.as_slice(),
    }
}

// The octets of a pair's value: hidden where the attribute is, but for raw ones.
#[tactic(auto, unfolding(crate::specs::AttributeOctets::sent_octets, avp_dict::specs::Octets::octets), using(crate::proofs::AttributeRoom::hidden_short))]
fn sent_octets<'a>(
    alloc: Global,
    keys: &Keys<'_>,
    typing: ValueTyping,
    pair: &'a Pair,
    buffer: &'a mut [u8; 8],
) -> Result<CowSlice<'a, u8>, AllocError>
    requires fits { fits pair.now keys.now.dictionary.now ≡ true }
    requires kind { typing.kind ≡ kind_of pair.now.id keys.now.dictionary.now }
    requires hidden { typing.hidden ≡ is_hidden pair.now.id keys.now.dictionary.now }
    ensures { IfOk result (λ octets. cow_slice_items octets
        ≡ under keys.now sent_octets pair.now) }
{
    let plain = octets_of(typing.kind, &pair.value, buffer);
    if typing.hidden && !matches!(pair.value, Value::Raw(_)) {
        let hidden = hidden(alloc, keys.secret, keys.authenticator, plain)?;
        return Ok(CowSlice::Owned(hidden));
    }
    Ok(CowSlice::Borrowed(plain))
}

// Adds the attributes that a pair is sent in.
fn push_pair(
    octets: &mut Vec<u8>,
    keys: &Keys<'_>,
    typing: ValueTyping,
    pair: &Pair,
) -> Result<(), AllocError>
    requires fits { fits pair.now keys.now.dictionary.now ≡ true }
    requires kind { typing.kind ≡ kind_of pair.now.id keys.now.dictionary.now }
    requires hidden { typing.hidden ≡ is_hidden pair.now.id keys.now.dictionary.now }
    ensures octets { OnOk result (octets.new.items ≡ octets.old.items
        ++ under keys.now attribute_octets (pair.now ∷ [])) }
    ensures ranged { OnOk result (IsVendorInRange pair.now.id) }
{
    if is_internal(pair.id) {
        return Ok(());
    }
    let mut buffer = [0; 8];
    let value = sent_octets(*octets.allocator(), keys, typing, pair, &mut buffer)?;
    let value = value.as_slice();
    if value.is_empty() {
        return Ok(());
    }
    push_holding(octets, keys, pair.id, value)?;
    Ok(())
}

/// Whether a pair is sent: a Message-Authenticator only where all are.
pub(crate) fn is_kept(pair: &Pair, all: bool) -> bool
    ensures kept { IsTrue result → kept_pairs all (pair.now ∷ []) ≡ pair.now ∷ [] }
    ensures left { result ≡ false → kept_pairs all (pair.now ∷ []) ≡ [] }
    ensures ranged { result ≡ false → IsVendorInRange pair.now.id }
{
    all || !pair.id.equals(MESSAGE_AUTHENTICATOR_ID)
}

// Adds the attributes that a pair is sent in, unless it is left out, or the octets become too many.
fn push_kept(
    octets: &mut Vec<u8>,
    keys: &Keys<'_>,
    typing: ValueTyping,
    pair: &Pair,
    all: bool,
) -> Result<(), EncodeFault>
    requires fits { fits pair.now keys.now.dictionary.now ≡ true }
    requires kind { typing.kind ≡ kind_of pair.now.id keys.now.dictionary.now }
    requires hidden { typing.hidden ≡ is_hidden pair.now.id keys.now.dictionary.now }
    requires short { length octets.old.items ≤ MAX_PACKET_OCTETS }
    ensures ok { OnOk result (octets.new.items ≡ octets.old.items
        ++ under keys.now attribute_octets (kept_pairs all (pair.now ∷ []))) }
    ensures ranged { OnOk result (IsVendorInRange pair.now.id) }
    ensures short { OnOk result (length octets.new.items ≤ MAX_PACKET_OCTETS) }
    ensures too_long { result ≡ Err EncodeFault.TooLong
        → MAX_PACKET_OCTETS < length octets.old.items
        + length (under keys.now attribute_octets (kept_pairs all (pair.now ∷ []))) }
{
    if !is_kept(pair, all) {
        return Ok(());
    }
    push_pair(octets, keys, typing, pair)?;
    if octets.len() > MAX_PACKET_OCTETS {
        return Err(EncodeFault::TooLong);
    }
    Ok(())
}

// Adds the attributes that a list is sent in, with all of its Message-Authenticators or with none, unless the octets
// become too many.
fn push_each(
    octets: &mut Vec<u8>,
    keys: &Keys<'_>,
    list: &[Pair],
    all: bool,
) -> Result<(), EncodeFault>
    requires fits { All (λ pair. fits pair keys.now.dictionary.now ≡ true) list.now }
    requires short { length octets.old.items ≤ MAX_PACKET_OCTETS }
    ensures ok { OnOk result (octets.new.items ≡ octets.old.items
        ++ under keys.now attribute_octets (kept_pairs all list.now)) }
    ensures ranged { OnOk result (All (λ pair. IsVendorInRange pair.id) list.now) }
    ensures short { OnOk result (length octets.new.items ≤ MAX_PACKET_OCTETS) }
    ensures too_long { result ≡ Err EncodeFault.TooLong
        → MAX_PACKET_OCTETS < length octets.old.items
        + length (under keys.now attribute_octets (kept_pairs all list.now)) }
{
    let mut knowing = *keys;
    for pair in list {
        let typing = knowing.know(pair.id);
        push_kept(octets, &knowing, typing, pair, all)?;
    }
    Ok(())
}

// The same; for no pairs, as most requests have no Proxy-States, nothing is done.
#[inline(always)]
fn push_list(
    octets: &mut Vec<u8>,
    keys: &Keys<'_>,
    list: &[Pair],
    all: bool,
) -> Result<(), EncodeFault>
    requires fits { All (λ pair. fits pair keys.now.dictionary.now ≡ true) list.now }
    requires short { length octets.old.items ≤ MAX_PACKET_OCTETS }
    ensures ok { OnOk result (octets.new.items ≡ octets.old.items
        ++ under keys.now attribute_octets (kept_pairs all list.now)) }
    ensures ranged { OnOk result (All (λ pair. IsVendorInRange pair.id) list.now) }
    ensures short { OnOk result (length octets.new.items ≤ MAX_PACKET_OCTETS) }
    ensures too_long { result ≡ Err EncodeFault.TooLong
        → MAX_PACKET_OCTETS < length octets.old.items
        + length (under keys.now attribute_octets (kept_pairs all list.now)) }
{
    if list.is_empty() {
        return Ok(());
    }
    push_each(octets, keys, list, all)
}

// Adds a blank Message-Authenticator where there is to be one, and says where it is.
fn push_blank(octets: &mut Vec<u8>, signed: bool) -> Result<Option<usize>, EncodeFault>
    requires short { length octets.old.items ≤ MAX_PACKET_OCTETS }
    ensures ok { OnOk result (octets.new.items ≡ octets.old.items ++ signature_if signed zeros) }
    ensures place { IfOk result (λ place. place ≡ place_if signed (length octets.old.items)) }
    ensures short { OnOk result (length octets.new.items ≤ MAX_PACKET_OCTETS) }
    ensures too_long { result ≡ Err EncodeFault.TooLong
        → MAX_PACKET_OCTETS < length octets.old.items + length (signature_if signed zeros) }
{
    if !signed {
        return Ok(None);
    }
    let place = octets.len();
    push_attribute(octets, MESSAGE_AUTHENTICATOR, &ZEROS)?;
    if octets.len() > MAX_PACKET_OCTETS {
        return Err(EncodeFault::TooLong);
    }
    Ok(Some(place))
}

/// Adds the attributes that a list is sent in and then its Proxy-States, with a blank Message-Authenticator, unless the
/// octets become too many, and says where the Message-Authenticator is.
pub(crate) fn write_attributes(
    octets: &mut Vec<u8>,
    keys: &Keys<'_>,
    division: &Division<'_>,
    proxy_states: &[Pair],
) -> Result<Option<usize>, EncodeFault>
    requires list_fits { KeepsAll (λ pair. fits pair keys.now.dictionary.now) division.now }
    requires proxies_fit { All (λ pair. fits pair keys.now.dictionary.now ≡ true) proxy_states.now }
    requires short { length octets.old.items ≤ MAX_PACKET_OCTETS }
    ensures blank { OnOk result (octets.new.items ≡ octets.old.items
        ++ under keys.now divided_octets division.now proxy_states.now zeros) }
    // It is there after whatever as many octets.
    ensures filled { IfOk result (λ place. (before signature : List ℕ)
        → length before ≡ length octets.old.items
        → filled (before ++ under keys.now divided_octets division.now proxy_states.now zeros)
        place signature
        ≡ before ++ under keys.now divided_octets division.now proxy_states.now signature) }
    ensures place { IfOk result (λ place. IsPlace (length octets.new.items) place) }
    ensures short { OnOk result (length octets.new.items ≤ MAX_PACKET_OCTETS) }
    ensures ranged { OnOk result (AreVendorsInRange division.now proxy_states.now) }
    ensures too_long { result ≡ Err EncodeFault.TooLong → MAX_PACKET_OCTETS
        < length octets.old.items
        + length (under keys.now divided_octets division.now proxy_states.now zeros) }
{
    push_list(octets, keys, division.before, true)?;
    let place = push_blank(octets, division.signed)?;
    push_list(octets, keys, division.after, false)?;
    push_list(octets, keys, proxy_states, true)?;
    Ok(place)
}
