//! Records as lines of packets.

ghost use Rattle.std.specs.Prelude.{◌≡◌, ◌++◌, OnOk};
ghost use Rattle.hex.specs.Hex.{encode_lower};
ghost use Rattle.radpolicy_record_answers.specs.PacketLines.{after_name, has_packet, has_packet_of, is_alone, is_misread, name_in_line, packet_line, packets_shown, source_shown, word_of_name};

use crate::answers::{RecordFault, push_refusal};
use crate::captured::CapturedReply;
use crate::entries::Entry;
use crate::records::{is_name, is_packet_word, is_source, push_name};
use crate::requests::RecordRequest;
use std::alloc::AllocError;

fn is_alone(request: &RecordRequest) -> bool
    ensures { result ≡ is_alone request.now }
{
    request.reply.as_slice().is_empty() && request.control.as_slice().is_empty()
}

fn has_packet_of(request: &Result<RecordRequest, RecordFault>) -> bool
    ensures { result ≡ has_packet_of request.now }
{
    match request {
        Err(_) => false,
        Ok(request) => is_alone(request),
    }
}

fn push_digits(text: &mut Vec<u8>, octets: &[u8]) -> Result<(), AllocError>
    ensures { OnOk result (text.new.items ≡ text.old.items ++ encode_lower octets.now) }
{
    let digits = hex::encode(*text.allocator(), octets)?;
    text.extend_from_slice(digits.as_bytes())?;
    Ok(())
}

fn push_source(text: &mut Vec<u8>, source: &[u8]) -> Result<(), AllocError>
    ensures { OnOk result (text.new.items ≡ text.old.items ++ source_shown source.now) }
{
    if let [] = source {
        return Ok(());
    }
    text.extend_from_slice(source)?;
    text.extend_from_slice(b" ")?;
    Ok(())
}

// A request, and the reply that was captured.
fn push_packets(
    text: &mut Vec<u8>,
    source: &[u8],
    request: &[u8],
    reply: &CapturedReply,
) -> Result<(), AllocError>
    ensures { OnOk result (text.new.items
        ≡ text.old.items ++ packets_shown source.now request.now reply.now) }
{
    push_source(text, source)?;
    push_digits(text, request)?;
    if let CapturedReply::Octets(octets) = reply {
        text.extend_from_slice(b" ")?;
        push_digits(text, octets.as_slice())?;
    }
    Ok(())
}

// What is after the name.
fn push_after_name(
    text: &mut Vec<u8>,
    source: &[u8],
    reply: &CapturedReply,
    request: &Result<RecordRequest, RecordFault>,
) -> Result<(), AllocError>
    ensures { OnOk result (text.new.items
        ≡ text.old.items ++ after_name source.now reply.now request.now) }
{
    match request {
        Err(fault) => push_refusal(text, *fault),
        Ok(request) if is_alone(request) => {
            push_packets(text, source, request.octets.as_slice(), reply)
        }
        Ok(_) => {
            text.extend_from_slice(b"initial lists")?;
            Ok(())
        }
    }
}

// The word of a name, which a space ends.
fn word_of_name(name: &[u8]) -> &[u8]
    ensures { result.now ≡ word_of_name name.now }
{
    &name[..name.len().saturating_sub(1)]
}

// Whether a name would be read as the packet of its line, as its source or as no name.
fn is_misread(name: &[u8]) -> bool
    ensures { result ≡ is_misread name.now }
{
    let word = word_of_name(name);
    is_packet_word(word) || is_source(word) || !is_name(word)
}

fn name_in_line(name: &[u8]) -> &[u8]
    ensures { result.now ≡ name_in_line name.now }
{
    if is_misread(name) { &[] } else { name }
}

impl Entry {
    /// Whether the line of packets of the record has its request.
    pub fn has_packet(&self) -> bool
        ensures { result ≡ has_packet self.now }
    {
        has_packet_of(&self.request)
    }

    /// Adds the line of packets of a record with this number, which is its name where it has no other, or one that the
    /// line would not be read by. Its source comes before the request; it is empty where none is known. Where the line
    /// has no request, it says why, and a replay refuses it. It has no reply of a challenge, or of lines that make no
    /// packet.
    pub fn push_packet_line(
        &self,
        text: &mut Vec<u8>,
        number: u64,
        source: &[u8],
    ) -> Result<(), AllocError>
        ensures { OnOk result (text.new.items
            ≡ text.old.items ++ packet_line number source.now self.now) }
    {
        push_name(text, number, name_in_line(self.identifier.as_slice()))?;
        push_after_name(text, source, &self.reply, &self.request)?;
        text.extend_from_slice(b"\n")?;
        Ok(())
    }
}
