//! The octets of a reply packet as JSON, with those of secret values hidden.

ghost use Rattle.std.specs.Prelude.{◌≡◌, ◌++◌, [], OnOk, codes, if◌then◌else◌};
ghost use Rattle.std.specs.List.{list_any};
ghost use Rattle.radpolicy_page_data.specs.Embedding.{string_text, two_digits};
ghost use Rattle.radpolicy_page_data.specs.declared.packets.Spot.TheVariants as spot;
ghost use Rattle.radpolicy_page_data.specs.Packets.{hides_type, is_hidden_as, is_secret_type, octet_at, reply_text, row_octet, rows_from, shown_octet, spot_after, type_name, type_of};

use crate::json::{push_number, push_string, push_two_digits};
use avp_dict::is_container;
use avp_lists::{AttrId, Pair};
use radpolicy::Reply;
use radpolicy_common::{PROXY_STATE, Redaction, SecretValues, sends_hidden_proxy_state};
use std::alloc::AllocError;

/// A spot in a packet.
#[derive(Clone, Copy, Debug, PartialEq, Eq)]
pub enum Spot {
    /// After so many octets of the code, the identifier and the length.
    Head(u8),
    /// After so many octets of the authenticator.
    Authenticator(u8),
    /// Before an attribute.
    Type,
    /// Before the length of an attribute that may be hidden.
    Length(bool),
    /// Before so many octets of a value that may be hidden.
    Value(u8, bool),
}

// The type with which an attribute is sent.
fn type_of(id: AttrId) -> u32
    ensures { result ≡ type_of id }
{
    match id {
        AttrId::Plain(number) => number,
        AttrId::Vendor(_, _) => 26,
        AttrId::Extended(kind, _) => u32::from(kind),
    }
}

fn is_hidden_as(redaction: &Redaction<'_>, kind: u8, pair: &Pair) -> bool
    ensures { result ≡ is_hidden_as redaction.now kind pair.now }
{
    type_of(pair.id) == u32::from(kind) && redaction.hides(pair.id, &pair.value)
}

fn is_any_hidden_as(redaction: &Redaction<'_>, kind: u8, replied: &[Pair]) -> bool
    ensures { result ≡ list_any (is_hidden_as redaction.now kind) replied.now }
{
    replied
        .iter()
        .any(|pair| is_hidden_as(redaction, kind, pair))
}

// Whether each attribute of a type is secret. Of those that hold others the reply list has what they hold, or, where they
// were not split, themselves.
fn is_secret_type(redaction: &Redaction<'_>, kind: u8) -> bool
    ensures { result ≡ is_secret_type redaction.now kind }
{
    let id = AttrId::Plain(u32::from(kind));
    !is_container(id) && redaction.is_secret(id)
}

// Whether attributes of a type are hidden.
#[tactic(auto, unfolding(crate::specs::Packets::hides_type))]
fn hides_type(redaction: &Redaction<'_>, replied: &[Pair], hides_proxies: bool, kind: u8) -> bool
    ensures { result ≡ hides_type redaction.now replied.now hides_proxies kind }
{
    match redaction.secrets() {
        SecretValues::Shown => false,
        SecretValues::Hidden => {
            is_secret_type(redaction, kind)
                || is_any_hidden_as(redaction, kind, replied)
                || hides_proxies && kind == PROXY_STATE
        }
    }
}

fn push_if(text: &mut Vec<u8>, holds: bool, added: &[u8]) -> Result<(), AllocError>
    ensures { OnOk result (text.new.items ≡ text.old.items ++ (if holds then added.now else [])) }
{
    if holds {
        text.extend_from_slice(added)
    } else {
        Ok(())
    }
}

fn push_shown_octet(text: &mut Vec<u8>, hidden: bool, octet: u8) -> Result<(), AllocError>
    ensures { OnOk result (text.new.items ≡ text.old.items ++ shown_octet hidden octet) }
{
    if hidden {
        text.extend_from_slice(b"..")
    } else {
        push_two_digits(text, octet)
    }
}

// The name of a type, or its number.
#[tactic(auto, unfolding(crate::specs::Packets::type_name))]
fn push_type_name(text: &mut Vec<u8>, redaction: &Redaction<'_>, kind: u8) -> Result<(), AllocError>
    ensures { OnOk result (text.new.items
        ≡ text.old.items ++ type_name redaction.now.dictionary kind) }
{
    match redaction.dictionary().by_id(AttrId::Plain(u32::from(kind))) {
        Some(entry) => text.extend_from_slice(entry.name),
        None => push_number(text, usize::from(kind)),
    }
}

// The beginning of an attribute's row.
fn push_type(text: &mut Vec<u8>, redaction: &Redaction<'_>, kind: u8) -> Result<(), AllocError>
    ensures { OnOk result (text.new.items ≡ text.old.items ++ codes ",["
        ++ string_text (type_name redaction.now.dictionary kind) ++ codes ",\""
        ++ two_digits kind) }
{
    let mut name = Vec::new(*text.allocator());
    push_type_name(&mut name, redaction, kind)?;
    text.extend_from_slice(b",[")?;
    push_string(text, &name)?;
    text.extend_from_slice(b",\"")?;
    push_two_digits(text, kind)
}

// An octet of a row, by its place.
fn push_row_octet(
    text: &mut Vec<u8>,
    begin: &[u8],
    last: u8,
    end: &[u8],
    place: u8,
    octet: u8,
) -> Result<(), AllocError>
    ensures { OnOk result (text.new.items
        ≡ text.old.items ++ row_octet begin.now last end.now place octet) }
{
    push_if(text, place == 0, begin)?;
    push_two_digits(text, octet)?;
    push_if(text, place == last, end)
}

#[tactic(auto, unfolding(crate::specs::Packets::octet_at))]
fn push_octet_at(
    text: &mut Vec<u8>,
    redaction: &Redaction<'_>,
    at: Spot,
    octet: u8,
) -> Result<(), AllocError>
    ensures { OnOk result (text.new.items ≡ text.old.items ++ octet_at redaction.now at octet) }
{
    match at {
        Spot::Head(place) => push_row_octet(text, b"[\"head\",\"", 3, b"\"],", place, octet),
        Spot::Authenticator(place) => {
            push_row_octet(text, b"[\"authenticator\",\"", 15, b"\"]", place, octet)
        }
        Spot::Type => push_type(text, redaction, octet),
        Spot::Length(_) => {
            push_two_digits(text, octet)?;
            push_if(text, octet <= 2, b"\"]")
        }
        Spot::Value(left, hidden) => {
            push_shown_octet(text, hidden, octet)?;
            push_if(text, left <= 1, b"\"]")
        }
    }
}

#[tactic(auto, unfolding(crate::specs::Packets::spot_after))]
fn spot_after(
    redaction: &Redaction<'_>,
    replied: &[Pair],
    hides_proxies: bool,
    at: Spot,
    octet: u8,
) -> Spot
    ensures { result ≡ spot_after redaction.now replied.now hides_proxies at octet }
{
    match at {
        Spot::Head(place) if place < 3 => Spot::Head(place + 1),
        Spot::Head(_) => Spot::Authenticator(0),
        Spot::Authenticator(place) if place < 15 => Spot::Authenticator(place + 1),
        Spot::Authenticator(_) => Spot::Type,
        Spot::Type => Spot::Length(hides_type(redaction, replied, hides_proxies, octet)),
        Spot::Length(_) if octet <= 2 => Spot::Type,
        Spot::Length(hidden) => Spot::Value(octet - 2, hidden),
        Spot::Value(left, _) if left <= 1 => Spot::Type,
        Spot::Value(left, hidden) => Spot::Value(left - 1, hidden),
    }
}

fn push_rows(
    text: &mut Vec<u8>,
    redaction: &Redaction<'_>,
    replied: &[Pair],
    hides_proxies: bool,
    octets: &[u8],
) -> Result<(), AllocError>
    ensures { OnOk result (text.new.items ≡ text.old.items
        ++ rows_from redaction.now replied.now hides_proxies (spot.Head 0) octets.now) }
{
    let mut at = Spot::Head(0);
    for octet in octets {
        push_octet_at(text, redaction, at, *octet)?;
        at = spot_after(redaction, replied, hides_proxies, at, *octet);
    }
    Ok(())
}

/// Appends what a run sends: `null` where no packet was made, `false` where none is sent, else a row for the packet's
/// head, one for its authenticator and one for each attribute.
#[tactic(auto, unfolding(crate::specs::Packets::reply_text))]
pub(crate) fn push_reply(
    text: &mut Vec<u8>,
    redaction: &Redaction<'_>,
    replied: &[Pair],
    reply: &Reply,
) -> Result<(), AllocError>
    ensures { OnOk result
        (text.new.items ≡ text.old.items ++ reply_text redaction.now replied.now reply.now) }
{
    match reply {
        Reply::Unmade => text.extend_from_slice(b"null"),
        Reply::Nothing => text.extend_from_slice(b"false"),
        Reply::Packet(octets) => {
            let octets = octets.as_slice();
            let hides_proxies = sends_hidden_proxy_state(redaction, octets);
            text.extend_from_slice(b"[")?;
            push_rows(text, redaction, replied, hides_proxies, octets)?;
            text.extend_from_slice(b"]")
        }
    }
}
