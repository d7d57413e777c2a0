//! Which format a text has.

use crate::attributes::is_attribute;
use crate::headings::{client_heading, log_heading, sniffed_line};
use crate::marks::split_number;
use crate::texts::after_blanks;

/// What prints the text.
#[derive(Clone, Copy, Debug, PartialEq, Eq)]
pub enum Format {
    /// Attribute lines, with blank lines between the requests, as radclient takes them.
    Records,
    /// A file of a server's module `detail`.
    Detail,
    /// What `freeradius -X` prints.
    DebugLog,
    /// What it prints of requests that come out of a tunnel, as of PEAP and TTLS, and go to a virtual server.
    InnerLog,
    /// What `radclient -x` prints.
    Radclient,
    /// What `radsniff -x` prints.
    Radsniff,
}

// The fewest digits of a packet.
const PACKET_DIGITS: usize = 40;

// Whether it has a packet in hexadecimal digits, which is none of the formats.
fn has_packet(line: &[u8]) -> bool {
    line.split(|octet| *octet == b' ').any(|word| word.len() >= PACKET_DIGITS
        && word.iter().all(|octet| octet.is_ascii_hexdigit()))
}

// Whether it is a line of a server's log.
fn is_log_line(line: &[u8]) -> bool {
    match split_number(line) {
        Some((number, text)) => log_heading(number, after_blanks(text)).is_some(),
        None => line.starts_with(b"FreeRADIUS Version"),
    }
}

// The format that one line tells.
fn format_of_line(line: &[u8]) -> Option<Format> {
    let text = after_blanks(line);
    if has_packet(line) {
        None
    } else if is_log_line(line) {
        Some(Format::DebugLog)
    } else if sniffed_line(line).is_some() {
        Some(Format::Radsniff)
    } else if client_heading(line).is_some() {
        Some(Format::Radclient)
    } else if !is_attribute(text) {
        None
    } else if text.len() < line.len() {
        Some(Format::Detail)
    } else {
        Some(Format::Records)
    }
}

/// The format of the text that begins with these lines, told from the first of them that tells it. Packets in
/// hexadecimal digits are none.
pub fn format_of(lines: &[u8]) -> Option<Format> {
    lines
        .split(|octet| *octet == b'\n')
        .find_map(|line| format_of_line(line))
}
