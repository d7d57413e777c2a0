//! The request of a record: of a log, of a file of requests, or of lines of packets. Records are called as
//! `radpolicy-replay` calls them.

use crate::log_servers::LogServers;
use crate::records::{is_packet_word, line_identifier, push_name, source_of};
use crate::text_entries::{text_identifier, text_source};
use radpolicy::Form;
use radpolicy_common::{LineBreaks, visible_text};
use radpolicy_traffic::{Code, Format, MAX_OPEN, Reader, Record, format_of};
use std::alloc::{AllocError, Global};
use std::net::IpAddr;

/// The request of a record.
#[derive(Drop)]
pub struct RecordedRequest {
    pub form: Form,
    /// Its lines, or the digits of its packet.
    pub text: Vec<u8>,
    pub reply: Vec<u8>,
    pub control: Vec<u8>,
    /// Which record it is, what its packet is, and who sent it.
    pub title: String,
}

/// What came of the search for a record.
#[derive(Drop)]
pub enum Search {
    Found(RecordedRequest),
    /// It is no request whose lines are all there.
    NoRequest,
    /// There is none. What records there are instead, in words.
    Missing(Vec<u8>),
    /// No request goes to the virtual server that is named. What is said of those that are, in words.
    OtherServers(Vec<u8>),
    /// They are lines of packets, and were not looked for.
    Packets,
}

// So many octets of names are told at most.
const MOST_NAMED: usize = 100;

/// Names as they are told: with commas between them, and two dots in place of those for which there is no room.
#[derive(Drop)]
pub(crate) struct NameList {
    text: Vec<u8>,
    is_full: bool,
}

impl NameList {
    pub(crate) fn new(alloc: Global) -> NameList {
        NameList {
            text: Vec::new(alloc),
            is_full: false,
        }
    }

    pub(crate) fn add(&mut self, name: &[u8]) -> Result<(), AllocError> {
        if self.is_full {
            return Ok(());
        }
        if !self.text.is_empty() {
            self.text.extend_from_slice(b", ")?;
        }
        self.is_full = name.len() > MOST_NAMED.saturating_sub(self.text.len());
        self.text
            .extend_from_slice(if self.is_full { b"..".as_slice() } else { name })
    }

    pub(crate) fn as_slice(&self) -> &[u8] {
        self.text.as_slice()
    }
}

// A name that is looked for, and how many records were looked at.
#[derive(Drop)]
struct Wanted<'a> {
    name: &'a [u8],
    read: u64,
    // What those are called.
    names: NameList,
}

impl<'a> Wanted<'a> {
    // The name as it is printed: the number of a server's log without its brackets.
    fn new(alloc: Global, name: &'a str) -> Wanted<'a> {
        let name = match name.as_bytes() {
            [b'(', digits @ .., b')'] if digits.iter().all(|octet| octet.is_ascii_digit()) =>
                digits,
            whole => whole,
        };
        Wanted {
            name,
            read: 0,
            names: NameList::new(alloc),
        }
    }

    // Whether the next record is looked for, which this identifier names, or else its number.
    fn is_next(&mut self, alloc: Global, identifier: &[u8]) -> Result<bool, AllocError> {
        self.read = self.read.saturating_add(1);
        let mut name = Vec::new(alloc);
        push_name(&mut name, self.read, identifier)?;
        self.names.add(name.trim_ascii_end())?;
        Ok(name.trim_ascii_end() == self.name)
    }

    // Which records there are, none of which is looked for.
    fn missing(&self, alloc: Global) -> Result<Search, AllocError> {
        let read = self.read;
        let mut said = Vec::from_slice(
            alloc,
            match read {
                1 => format!(in alloc; "has 1 record")?,
                _ => format!(in alloc; "has {read} records")?,
            }
            .as_bytes(),
        )?;
        if read > 0 {
            said.extend_from_slice(b": ")?;
            said.extend_from_slice(self.names.as_slice())?;
        }
        Ok(Search::Missing(said))
    }

    fn is_next_record(&mut self, alloc: Global, record: &Record) -> Result<bool, AllocError> {
        let identifier = text_identifier(alloc, &record.identifier)?;
        self.is_next(alloc, &identifier)
    }
}

// The record that is looked for among those that are left at the end.
fn record_left(
    alloc: Global,
    reader: &mut Reader,
    wanted: &mut Wanted<'_>,
) -> Result<Option<Record>, AllocError> {
    for _ in 0..MAX_OPEN {
        let Some(record) = reader.end() else {
            return Ok(None);
        };
        if wanted.is_next_record(alloc, &record)? {
            return Ok(Some(record));
        }
    }
    Ok(None)
}

// The record that is looked for in a text.
fn record_in(
    alloc: Global,
    text: &[u8],
    reader: &mut Reader,
    wanted: &mut Wanted<'_>,
) -> Result<Option<Record>, AllocError> {
    for line in text.split(|octet| *octet == b'\n') {
        if let Some(record) = reader.line(line)?
            && wanted.is_next_record(alloc, &record)?
        {
            return Ok(Some(record));
        }
    }
    record_left(alloc, reader, wanted)
}

// The line that is looked for among lines of packets.
fn line_in<'a>(
    alloc: Global,
    text: &'a [u8],
    wanted: &mut Wanted<'_>,
) -> Result<Option<&'a [u8]>, AllocError> {
    for line in text.split(|octet| *octet == b'\n') {
        if !line.trim_ascii().is_empty() {
            let identifier = line_identifier(alloc, line)?;
            if wanted.is_next(alloc, &identifier)? {
                return Ok(Some(line));
            }
        }
    }
    Ok(None)
}

// The digits of the first packet of a line.
fn packet_of(line: &[u8]) -> Option<&[u8]> {
    line.split(|octet| octet.is_ascii_whitespace())
        .find(|word| is_packet_word(word))
}

fn has_packets(text: &[u8]) -> bool {
    text.split(|octet| *octet == b'\n')
        .any(|line| packet_of(line).is_some())
}

// The name of a record as it is told: with its brackets, if it is the number of a server's log.
fn told_name(
    alloc: Global,
    wanted: &Wanted<'_>,
    format: Option<Format>,
) -> Result<String, AllocError> {
    let name = String::from_utf8_lossy(alloc, wanted.name)?;
    match format {
        Some(Format::DebugLog | Format::InnerLog) => format!(in alloc; "({name})"),
        _ => Ok(name),
    }
}

fn title(
    alloc: Global,
    name: &str,
    kind: &str,
    source: Option<IpAddr>,
) -> Result<String, AllocError> {
    match source {
        Some(address) => format!(in alloc; "record {name}: {kind} from {address}\n"),
        None => format!(in alloc; "record {name}: {kind}\n"),
    }
}

// What the packet of a record is, and how its request is given.
fn kind_of_record(record: &Record) -> Option<(&'static str, Form)> {
    match record.code {
        Code::AccessRequest if !record.is_too_long => Some(("Access-Request", Form::Access)),
        Code::AccountingRequest if !record.is_too_long => {
            Some(("Accounting-Request", Form::Accounting))
        }
        _ => None,
    }
}

// What a packet of these digits is.
fn kind_of_packet(digits: &[u8]) -> &'static str {
    match digits {
        [b'0', b'1', ..] => "Access-Request",
        [b'0', b'4', ..] => "Accounting-Request",
        _ => "packet",
    }
}

fn request_of_record(alloc: Global, name: &str, record: Record) -> Result<Search, AllocError> {
    let Some((kind, form)) = kind_of_record(&record) else {
        return Ok(Search::NoRequest);
    };
    let title = title(alloc, name, kind, text_source(&record))?;
    let Record {
        request,
        initial_reply,
        initial_control,
        ..
    } = record;
    Ok(Search::Found(RecordedRequest {
        form,
        text: request,
        reply: initial_reply,
        control: initial_control,
        title,
    }))
}

fn request_of_line(alloc: Global, name: &str, line: &[u8]) -> Result<Search, AllocError> {
    let Some(digits) = packet_of(line) else {
        return Ok(Search::NoRequest);
    };
    Ok(Search::Found(RecordedRequest {
        form: Form::Hex,
        text: Vec::from_slice(alloc, digits)?,
        reply: Vec::new(alloc),
        control: Vec::new(alloc),
        title: title(alloc, name, kind_of_packet(digits), source_of(alloc, line)?)?,
    }))
}

// The record of a name in lines of packets.
fn find_line(alloc: Global, text: &[u8], name: &str) -> Result<Search, AllocError> {
    let mut wanted = Wanted::new(alloc, name);
    match line_in(alloc, text, &mut wanted)? {
        Some(line) => request_of_line(alloc, told_name(alloc, &wanted, None)?.as_str(), line),
        None => wanted.missing(alloc),
    }
}

/// Why the record of this name is not the request, where what was searched has this path. It has no control characters but
/// the line's end.
pub fn search_text(
    alloc: Global,
    path: &str,
    name: &str,
    search: &Search,
) -> Result<Vec<u8>, AllocError> {
    let said = match search {
        Search::Missing(others) => {
            let others = String::from_utf8_lossy(alloc, others)?;
            format!(in alloc; "there is no record {name}: {path} {others}\n")
        }
        Search::OtherServers(said) => {
            let said = String::from_utf8_lossy(alloc, said)?;
            format!(in alloc; "{path}: {said}\n")
        }
        Search::Packets => {
            format!(in alloc; "{path} has lines of packets: write --hex and -S SECRET-FILE too\n")
        }
        Search::NoRequest | Search::Found(_) => {
            format!(in alloc; "record {name} of {path} is no request whose lines are all there\n")
        }
    }?;
    visible_text(alloc, said.as_bytes(), LineBreaks::Kept)
}

/// Which record is looked for.
#[derive(Clone, Copy)]
pub struct AskedRecord<'a> {
    pub form: Form,
    pub name: &'a str,
    /// The virtual server to which its request goes, where it comes out of a tunnel.
    pub server: Option<&'a str>,
}

// What a text is read as, if it has records.
fn format_asked(text: &[u8], asked: AskedRecord<'_>) -> Option<Format> {
    match asked.server {
        Some(_) => Some(Format::InnerLog),
        None => format_of(text),
    }
}

fn reader_asked(
    alloc: Global,
    format: Format,
    asked: AskedRecord<'_>,
) -> Result<Reader, AllocError> {
    match asked.server {
        Some(server) => Reader::of_server(alloc, server.as_bytes()),
        None => Ok(Reader::new(alloc, format)),
    }
}

// What a text has instead of a record. Where no request goes to the virtual server that is named, those that are.
fn missing_from(
    alloc: Global,
    text: &[u8],
    asked: AskedRecord<'_>,
    wanted: &Wanted<'_>,
) -> Result<Search, AllocError> {
    match asked.server {
        Some(server) if wanted.read == 0 => Ok(Search::OtherServers(LogServers::of_log(
            alloc, text,
        )?.text(server)?)),
        _ => wanted.missing(alloc),
    }
}

/// Looks for a record in a text: in lines of packets where that is the form, else in what a server or a tool printed.
pub fn find_record(
    alloc: Global,
    text: &[u8],
    asked: AskedRecord<'_>,
) -> Result<Search, AllocError> {
    if asked.form == Form::Hex {
        return find_line(alloc, text, asked.name);
    }
    let Some(format) = format_asked(text, asked) else {
        return if has_packets(text) {
            Ok(Search::Packets)
        } else {
            Wanted::new(alloc, asked.name).missing(alloc)
        };
    };
    let mut wanted = Wanted::new(alloc, asked.name);
    let mut reader = reader_asked(alloc, format, asked)?;
    match record_in(alloc, text, &mut reader, &mut wanted)? {
        Some(record) => {
            let told = told_name(alloc, &wanted, Some(format))?;
            request_of_record(alloc, told.as_str(), record)
        }
        None => missing_from(alloc, text, asked, &wanted),
    }
}
