//! What is shown of the requests of records: the values of some attributes.

ghost use Rattle.std.specs.Prelude.{◌≡◌, ◌++◌, Err, IfErr, IfOk, Ok, OnOk};
ghost use Rattle.std.specs.Option.{option_copied};
ghost use Rattle.avp_packet.specs.Decoded.{decoded};
ghost use Rattle.avp_packet.specs.Unchecked.{decoded_unchecked};
ghost use Rattle.radpolicy.specs.Faults.{MemoryOr};
ghost use Rattle.radpolicy.specs.StartRefusals.{IsUnreadPacket};
ghost use Rattle.radpolicy_common.specs.ChangeTexts.{Fits};
ghost use Rattle.radpolicy_record_answers.specs.Captured.{packet_or_fault};
ghost use Rattle.radpolicy_record_answers.specs.Requests.{request_read};
ghost use Rattle.radpolicy_record_answers.specs.ShownRequests.{in_row, octet_in_row, octets_lines, request_lines, request_shown, shown_line, shown_lines};
ghost use Rattle.radpolicy_record_answers.specs.internal.Fitting.{PacketFits};

use crate::comparisons::has_id;
use crate::differences::push_pair_line;
use crate::entries::Entry;
use crate::requests::{RecordRequest, RecordSecret};
use avp_dict::Dictionary;
use avp_lists::{AttrId, Pair};
use avp_packet::{Packet, decode, decode_unchecked};
use radpolicy::{Fault, Secret};
use radpolicy_common::Redaction;
use std::alloc::{AllocError, Global};

/// Which attributes of requests are shown, by which dictionary, and what is hidden of them.
#[derive(Drop)]
pub struct Shown<'a> {
    pub ids: &'a [AttrId],
    pub dictionary: &'a Dictionary,
    pub redaction: &'a Redaction<'a>,
}

// Reads a request by its secret.
fn read_known(
    alloc: Global,
    dictionary: &Dictionary,
    secret: &Secret<'_>,
    octets: &[u8],
) -> Result<Packet, Fault>
    ensures ok { IfOk result (λ packet.
        decoded dictionary.now secret.now octets.now ≡ Ok packet) }
    ensures fits { IfOk result (PacketFits dictionary.now) }
    ensures refused { IfErr result (IsUnreadPacket
        (decoded dictionary.now secret.now octets.now)) }
{
    let packet = decode(alloc, dictionary, secret.as_slice(), octets)?;
    Ok(packet)
}

// Reads a request of which no secret is known.
fn read_unknown(alloc: Global, dictionary: &Dictionary, octets: &[u8]) -> Result<Packet, Fault>
    ensures ok { IfOk result (λ packet. decoded_unchecked dictionary.now octets.now ≡ Ok packet) }
    ensures fits { IfOk result (PacketFits dictionary.now) }
    ensures refused { IfErr result (IsUnreadPacket
        (decoded_unchecked dictionary.now octets.now)) }
{
    let packet = decode_unchecked(alloc, dictionary, octets)?;
    Ok(packet)
}

fn read_request(
    alloc: Global,
    dictionary: &Dictionary,
    secret: Option<&Secret<'_>>,
    octets: &[u8],
) -> Result<Packet, Fault>
    ensures ok { IfOk result (λ packet.
        request_read dictionary.now (option_copied secret.entry) octets.now ≡ Ok packet) }
    ensures fits { IfOk result (PacketFits dictionary.now) }
    ensures refused { IfErr result (IsUnreadPacket
        (request_read dictionary.now (option_copied secret.entry) octets.now)) }
{
    match secret {
        Some(secret) => read_known(alloc, dictionary, secret, octets),
        None => read_unknown(alloc, dictionary, octets),
    }
}

// The same by its definition, but for want of memory.
#[tactic(auto, using(crate::proofs::Replying::request_unread))]
fn request_packet(
    alloc: Global,
    dictionary: &Dictionary,
    secret: Option<&Secret<'_>>,
    octets: &[u8],
) -> Result<Packet, Fault>
    ensures ok { IfOk result (λ packet. packet_or_fault
        (request_read dictionary.now (option_copied secret.entry) octets.now) ≡ Ok packet) }
    ensures fits { IfOk result (PacketFits dictionary.now) }
    ensures refused { IfErr result (MemoryOr (λ f. packet_or_fault
        (request_read dictionary.now (option_copied secret.entry) octets.now) ≡ Err f)) }
{
    match read_request(alloc, dictionary, secret, octets) {
        Ok(packet) => Ok(packet),
        Err(fault) => Err(fault),
    }
}

impl Shown<'_> {
    fn push_line(&self, lines: &mut Vec<u8>, pair: &Pair) -> Result<(), AllocError>
        requires { Fits self.now.dictionary.now pair.now }
        ensures { OnOk result (lines.new.items
            ≡ lines.old.items ++ shown_line self.now pair.now) }
    {
        if !has_id(self.ids, pair.id) {
            return Ok(());
        }
        push_pair_line(lines, b"", self.dictionary, self.redaction, pair)
    }

    fn packet_lines(&self, alloc: Global, packet: &Packet) -> Result<Vec<u8>, AllocError>
        requires { PacketFits self.now.dictionary.now packet.now }
        ensures { IfOk result (λ lines.
            lines.items ≡ shown_lines self.now packet.now.list) }
    {
        let mut lines = Vec::new(alloc);
        for pair in packet.list.as_slice() {
            self.push_line(&mut lines, pair)?;
        }
        Ok(lines)
    }

    fn octets_lines(
        &self,
        alloc: Global,
        secret: Option<&Secret<'_>>,
        octets: &[u8],
    ) -> Result<Vec<u8>, AllocError>
        ensures { IfOk result (λ lines. lines.items
            ≡ octets_lines self.now (option_copied secret.entry) octets.now) }
    {
        match request_packet(alloc, self.dictionary, secret, octets) {
            Ok(packet) => self.packet_lines(alloc, &packet),
            Err(Fault::Memory) => Err(AllocError),
            Err(_) => Ok(Vec::new(alloc)),
        }
    }

    fn request_lines(
        &self,
        alloc: Global,
        secret: &RecordSecret<'_>,
        request: &RecordRequest,
    ) -> Result<Vec<u8>, AllocError>
        ensures { IfOk result (λ lines. lines.items
            ≡ request_lines self.now secret.now (Ok request.now)) }
    {
        let octets = request.octets.as_slice();
        match secret {
            RecordSecret::Known(secret) => self.octets_lines(alloc, Some(secret), octets),
            RecordSecret::Unknown => self.octets_lines(alloc, None, octets),
            RecordSecret::Missing => Ok(Vec::new(alloc)),
        }
    }

    fn entry_lines(
        &self,
        alloc: Global,
        secret: &RecordSecret<'_>,
        entry: &Entry,
    ) -> Result<Vec<u8>, AllocError>
        ensures { IfOk result (λ lines. lines.items
            ≡ request_lines self.now secret.now entry.now.request) }
    {
        match &entry.request {
            Ok(request) => self.request_lines(alloc, secret, request),
            Err(_) => Ok(Vec::new(alloc)),
        }
    }

    /// The pairs of these attributes in the request of a record, each on a line of its own; none where the request is
    /// not read.
    #[tactic(auto, unfolding(crate::specs::ShownRequests::request_shown))]
    pub fn lines(
        &self,
        alloc: Global,
        secret: &RecordSecret<'_>,
        entry: &Entry,
    ) -> Result<Vec<u8>, AllocError>
        ensures { IfOk result (λ lines. lines.items
            ≡ request_shown self.now secret.now entry.now.request) }
    {
        if let [] = self.ids {
            return Ok(Vec::new(alloc));
        }
        self.entry_lines(alloc, secret, entry)
    }
}

fn push_octet_in_row(text: &mut Vec<u8>, octet: u8) -> Result<(), AllocError>
    ensures { OnOk result (text.new.items ≡ text.old.items ++ octet_in_row octet) }
{
    if octet == b'\n' {
        text.extend_from_slice(b", ")?;
        return Ok(());
    }
    text.push(octet)?;
    Ok(())
}

/// Adds lines in one: with a comma and a space in place of each line feed.
pub fn push_in_row(text: &mut Vec<u8>, lines: &[u8]) -> Result<(), AllocError>
    ensures { OnOk result (text.new.items ≡ text.old.items ++ in_row lines.now) }
{
    for octet in lines {
        push_octet_in_row(text, *octet)?;
    }
    Ok(())
}
