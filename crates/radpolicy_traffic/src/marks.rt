//! What a line is.

ghost use Rattle.std.specs.Prelude.{IfSome};
ghost use Rattle.radpolicy_traffic.specs.Lines.{IsEndOf};
ghost use Rattle.radpolicy_traffic.specs.internal.Marks.{IsMarkOf, IsNoAttribute};

use crate::attributes::{name_of, value_of};
use crate::formats::Format;
use crate::headings::{
    Heading, Key, LogHeading, client_heading, inner_answer, inner_server, log_heading,
    sniffed_line, unanswered_identifier,
};
use crate::records::Code;
use crate::texts::{after, after_blanks, is, is_number};

/// Which of the open records a line belongs to.
#[derive(Clone, Copy)]
pub(crate) enum Owner<'a> {
    /// The one whose lines are being read.
    Current,
    Keyed(Key<'a>),
    /// The first with this Identifier.
    Identified(&'a [u8]),
}

/// The lines of a record that an attribute belongs to.
#[derive(Clone, Copy, PartialEq, Eq)]
pub(crate) enum Lines {
    /// Those of the packet that is being read.
    Packet,
    InitialReply,
    InitialControl,
}

/// What a line is.
#[derive(Clone, Copy)]
pub(crate) enum Mark<'a> {
    /// A request follows.
    Request(Heading<'a>),
    /// A reply follows.
    Reply(Heading<'a>),
    /// An attribute.
    Attribute {
        owner: Owner<'a>,
        lines: Lines,
        text: &'a [u8],
    },
    /// The type of the packet that is being read.
    Code(Code),
    /// The type of the reply that was read.
    Answered(Owner<'a>, Code),
    /// The address that it came from.
    Source(&'a [u8]),
    /// The packet that was being read is over.
    Pause(Owner<'a>),
    /// The request is over.
    End(Owner<'a>),
    /// Nothing of a record.
    Nothing,
}

fn after_octet(rest: &[u8]) -> &[u8]
    ensures { IsEndOf rest.now result.now }
{
    match rest {
        [_, after @ ..] => after,
        [] => rest,
    }
}

/// The number of a request at the front of a line of a server's log, and what follows it.
pub(crate) fn split_number(line: &[u8]) -> Option<(&[u8], &[u8])>
    ensures { IfSome result (λ found. IsEndOf line.now found.1.now) }
{
    let begin = line.iter().position(|octet| *octet == b'(')?;
    let end = line.iter().position(|octet| *octet == b')')?;
    if end <= begin {
        return None;
    }
    let front = &line[..begin];
    let number = &line[begin + 1..end];
    if (front.is_empty() || front.ends_with(b": ")) && is_number(number) {
        Some((number, after_octet(&line[end..])))
    } else {
        None
    }
}

fn packet_mark(heading: Heading<'_>) -> Mark<'_>
    ensures { IsNoAttribute result }
{
    if heading.code.is_request() {
        Mark::Request(heading)
    } else if heading.code.is_reply() {
        Mark::Reply(heading)
    } else {
        Mark::Pause(Owner::Current)
    }
}

// A line of a request file.
fn mark_of_records(line: &[u8]) -> Mark<'_>
    ensures { IsMarkOf line.now result }
{
    let text = after_blanks(line);
    if text.is_empty() {
        return Mark::End(Owner::Current);
    }
    if text.first() == Some(&b'#') {
        return Mark::Nothing;
    }
    if is(name_of(text), "Packet-Type") {
        return Mark::Code(Code::named(value_of(text)));
    }
    let (lines, text) = listed(text);
    Mark::Attribute {
        owner: Owner::Current,
        lines,
        text,
    }
}

// The list that a line names, and what follows the name.
fn listed(text: &[u8]) -> (Lines, &[u8])
    ensures { IsEndOf text.now result.1.now }
{
    if let Some(rest) = after(text, b"reply:") {
        (Lines::InitialReply, rest)
    } else if let Some(rest) = after(text, b"control:") {
        (Lines::InitialControl, rest)
    } else {
        (Lines::Packet, after_blanks(text))
    }
}

// Whether the server's module writes it of its own accord.
fn is_of_detail(name: &[u8]) -> bool {
    is(name, "Timestamp")
        || is(name, "Packet-Dst-IP-Address")
        || is(name, "Packet-Dst-IPv6-Address")
        || is(name, "Packet-Src-Port")
        || is(name, "Packet-Dst-Port")
}

// A line of a file of the module `detail`.
fn mark_of_detail(line: &[u8]) -> Mark<'_>
    ensures { IsMarkOf line.now result }
{
    let text = after_blanks(line);
    if text.is_empty() {
        return Mark::End(Owner::Current);
    }
    if text.len() == line.len() {
        return Mark::Request(Heading::of_code(Code::AccountingRequest));
    }
    let name = name_of(text);
    if is(name, "Packet-Type") {
        Mark::Code(Code::named(value_of(text)))
    } else if is(name, "Packet-Src-IP-Address") || is(name, "Packet-Src-IPv6-Address") {
        Mark::Source(value_of(text))
    } else if is_of_detail(name) {
        Mark::Nothing
    } else {
        Mark::Attribute {
            owner: Owner::Current,
            lines: Lines::Packet,
            text,
        }
    }
}

// Whether the text after a number is that of an attribute: three spaces come before its name.
fn is_log_attribute(text: &[u8]) -> bool {
    match after(text, b"   ") {
        Some(name) => name
            .first()
            .is_some_and(|octet| octet.is_ascii_alphanumeric()),
        None => false,
    }
}

// A line of a server's log.
fn mark_of_log(line: &[u8]) -> Mark<'_>
    ensures { IsMarkOf line.now result }
{
    let Some((number, rest)) = split_number(line) else {
        return Mark::Nothing;
    };
    let owner = Owner::Keyed(Key::of_number(number));
    let text = after_blanks(rest);
    if is_log_attribute(rest) {
        return Mark::Attribute {
            owner,
            lines: Lines::Packet,
            text,
        };
    }
    if text.starts_with(b"Finished request") || text.starts_with(b"Cleaning up request") {
        return Mark::End(owner);
    }
    match log_heading(number, text) {
        Some(heading) => log_packet_mark(owner, heading),
        None => Mark::Pause(owner),
    }
}

// A request out of a tunnel, in a server's log. It has no address.
fn inner_heading(number: &[u8], code: Code) -> Heading<'_> {
    Heading {
        key: Key::of_number(number),
        identifier: number,
        source: None,
        code,
        is_again: false,
    }
}

/// The virtual server that a line of a server's log says to have received a request out of a tunnel.
pub fn receiving_server(line: &[u8]) -> Option<&[u8]> {
    let (_, rest) = split_number(line)?;
    inner_server(after_blanks(rest))
}

// A line of a server's log, of requests out of tunnels.
fn mark_of_inner_log(line: &[u8]) -> Mark<'_>
    ensures { IsMarkOf line.now result }
{
    let Some((number, rest)) = split_number(line) else {
        return Mark::Nothing;
    };
    let owner = Owner::Keyed(Key::of_number(number));
    let text = after_blanks(rest);
    if is_log_attribute(rest) {
        return Mark::Attribute {
            owner,
            lines: Lines::Packet,
            text,
        };
    }
    if text.starts_with(b"Finished request") || text.starts_with(b"Cleaning up request") {
        return Mark::End(owner);
    }
    if inner_server(text).is_some() {
        return Mark::Request(inner_heading(number, Code::AccessRequest));
    }
    if text.starts_with(b"Virtual server sending reply") {
        return Mark::Reply(inner_heading(number, Code::Other));
    }
    match inner_answer(text) {
        Some(code) => Mark::Answered(owner, code),
        None => Mark::Pause(owner),
    }
}

// What a server sends may be a request to another server, and what it receives a reply.
fn log_packet_mark<'a>(owner: Owner<'a>, heading: LogHeading<'a>) -> Mark<'a>
    ensures { IsNoAttribute result }
{
    if heading.is_sent && heading.heading.code.is_reply() {
        Mark::Reply(heading.heading)
    } else if !heading.is_sent && heading.heading.code.is_request() {
        Mark::Request(heading.heading)
    } else {
        Mark::Pause(owner)
    }
}

// A line of radclient.
fn mark_of_client(line: &[u8]) -> Mark<'_>
    ensures { IsMarkOf line.now result }
{
    let text = after_blanks(line);
    if text.len() == line.len() {
        return client_packet_mark(line);
    }
    let name = name_of(text);
    if is(name, "Packet-Type") || is(name, "Cleartext-Password") {
        Mark::Nothing
    } else {
        Mark::Attribute {
            owner: Owner::Current,
            lines: Lines::Packet,
            text,
        }
    }
}

fn client_packet_mark(line: &[u8]) -> Mark<'_>
    ensures { IsNoAttribute result }
{
    if let Some(heading) = client_heading(line) {
        packet_mark(heading)
    } else if let Some(identifier) = unanswered_identifier(line) {
        Mark::End(Owner::Identified(identifier))
    } else {
        Mark::Pause(Owner::Current)
    }
}

// A line of radsniff.
fn mark_of_sniff(line: &[u8]) -> Mark<'_>
    ensures { IsMarkOf line.now result }
{
    let text = after_blanks(line);
    if text.len() == line.len() {
        return sniffed_packet_mark(line);
    }
    if is(name_of(text), "Authenticator-Field") {
        Mark::Nothing
    } else {
        Mark::Attribute {
            owner: Owner::Current,
            lines: Lines::Packet,
            text,
        }
    }
}

fn sniffed_packet_mark(line: &[u8]) -> Mark<'_>
    ensures { IsNoAttribute result }
{
    match sniffed_line(line) {
        Some(sniffed) if is(sniffed.event, "norsp") => Mark::End(Owner::Keyed(sniffed.heading.key)),
        Some(sniffed) => packet_mark(sniffed.heading),
        None => Mark::Pause(Owner::Current),
    }
}

/// What a line is in a format.
pub(crate) fn mark_of(format: Format, line: &[u8]) -> Mark<'_>
    ensures { IsMarkOf line.now result }
{
    match format {
        Format::Records => mark_of_records(line),
        Format::Detail => mark_of_detail(line),
        Format::DebugLog => mark_of_log(line),
        Format::InnerLog => mark_of_inner_log(line),
        Format::Radclient => mark_of_client(line),
        Format::Radsniff => mark_of_sniff(line),
    }
}
