//! What the records of standard input are.

use crate::streams::Early;
use radpolicy_common::file_kind;
use radpolicy_record_answers::request_octets;
use radpolicy_replay_records::{RecordReader, ReplayFault};
use radpolicy_traffic::{Format, format_of};
use std::alloc::{AllocError, Global};
use std::io::Read;

/// What records are.
#[derive(Clone, Copy, Debug, PartialEq, Eq)]
pub enum Traffic {
    /// Lines of packets in hexadecimal digits.
    Hex,
    /// Records of attribute lines, in what a server or a tool prints.
    Text(Format),
}

impl Traffic {
    /// The records of this name.
    pub fn named(word: &str) -> Option<Traffic> {
        match word {
            "hex" => Some(Traffic::Hex),
            "records" => Some(Traffic::Text(Format::Records)),
            "detail" => Some(Traffic::Text(Format::Detail)),
            "log" => Some(Traffic::Text(Format::DebugLog)),
            "radclient" => Some(Traffic::Text(Format::Radclient)),
            "radsniff" => Some(Traffic::Text(Format::Radsniff)),
            _ => None,
        }
    }
}

/// The records of an input in a format; of a server's log those that go to this virtual server, if one is named.
pub fn record_reader<R: Read + Drop>(
    alloc: Global,
    input: R,
    format: Format,
    server: Option<&str>,
) -> Result<RecordReader<R>, AllocError> {
    match server {
        Some(name) => RecordReader::of_server(alloc, input, name.as_bytes()),
        None => RecordReader::new(alloc, input, format),
    }
}

// The octets that are asked for by one read, and the reads after which no more is looked at.
const BLOCK_OCTETS: usize = 4_096;

const MAX_BLOCKS: usize = 16;

/// What an input begins with, and what its records are.
#[derive(Drop)]
pub struct Beginning {
    pub octets: Vec<u8>,
    pub traffic: Traffic,
}

// The records that a line tells.
fn traffic_of_line(alloc: Global, line: &[u8]) -> Option<Traffic> {
    if request_octets(alloc, line).is_ok() {
        return Some(Traffic::Hex);
    }
    match format_of(line) {
        Some(format) => Some(Traffic::Text(format)),
        None => None,
    }
}

// The lines that have ended, or all at the end of the input.
fn ended_lines(octets: &[u8], is_over: bool) -> &[u8] {
    match octets.iter().rposition(|octet| *octet == b'\n') {
        Some(end) if !is_over => &octets[..end],
        None if !is_over => &[],
        _ => octets,
    }
}

// The records that the first line tells that tells it.
fn traffic_of(alloc: Global, lines: &[u8]) -> Option<Traffic> {
    for line in lines.split(|octet| *octet == b'\n') {
        if let Some(traffic) = traffic_of_line(alloc, line) {
            return Some(traffic);
        }
    }
    None
}

// Reads an input up to the first line that tells what its records are, if that is not named. They are lines of packets
// where none does.
fn read_lines<R: Read>(
    alloc: Global,
    input: &mut R,
    named: Option<Traffic>,
) -> Result<Beginning, ReplayFault> {
    let mut octets = Vec::new(alloc);
    let mut block = [0; BLOCK_OCTETS];
    for _ in 0..MAX_BLOCKS {
        let Ok(count) = input.read(&mut block) else {
            return Err(ReplayFault::Input);
        };
        octets.extend_from_slice(&block[..count])?;
        let told = traffic_of(alloc, ended_lines(&octets, count == 0));
        if let Some(traffic) = named.or(told) {
            return Ok(Beginning { octets, traffic });
        }
        if count == 0 {
            break;
        }
    }
    Ok(Beginning {
        octets,
        traffic: Traffic::Hex,
    })
}

/// Reads the beginning of an input whose records are named, or are told by its first line that tells it. An input of
/// another kind is refused by that.
pub fn read_beginning<R: Read>(
    alloc: Global,
    input: &mut R,
    named: Option<Traffic>,
) -> Result<Beginning, Early> {
    let beginning = read_lines(alloc, input, named)?;
    match file_kind(&beginning.octets) {
        Some(kind) => Err(Early::Kind(kind)),
        None => Ok(beginning),
    }
}
