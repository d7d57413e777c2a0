//! Whether lines that are taken for lines of packets look like a server's log.

use radpolicy_record_answers::is_packet_word;
use radpolicy_traffic::{Format, format_of};
use std::alloc::Global;

// As many octets of a line as are looked at.
const LOOKED_AT: usize = 256;

// Whether the number of a request comes first, as in `(0) Login OK`.
fn begins_with_number(line: &[u8]) -> bool {
    match line {
        [b'(', rest @ ..] => match rest.iter().position(|octet| !octet.is_ascii_digit()) {
            Some(end) => end > 0 && rest[end] == b')',
            None => false,
        },
        _ => false,
    }
}

fn has_packet(line: &[u8]) -> bool {
    line.split(|octet| octet.is_ascii_whitespace())
        .any(|word| is_packet_word(word))
}

// Whether a line looks like one of a server's log. One with a packet does not.
fn is_of_log(line: &[u8]) -> bool {
    if begins_with_number(line) {
        !has_packet(line)
    } else {
        format_of(line) == Some(Format::DebugLog)
    }
}

/// Looks at lines as they are read, up to the first that looks like one of a server's log.
#[derive(Drop)]
pub struct LogWatch {
    // The beginning of the line that has not ended.
    line: Vec<u8>,
    found: bool,
}

impl LogWatch {
    pub fn new(alloc: Global) -> LogWatch {
        LogWatch {
            line: Vec::new(alloc),
            found: false,
        }
    }

    // Without memory for it a line is not looked at.
    fn keep(&mut self, part: &[u8]) {
        let room = LOOKED_AT.saturating_sub(self.line.len());
        let _ = self.line.extend_from_slice(&part[..room.min(part.len())]);
    }

    fn end_line(&mut self) {
        self.found = self.found || is_of_log(&self.line);
        self.line.clear();
    }

    /// Looks at the octets that were read next.
    pub fn look(&mut self, block: &[u8]) {
        for (index, part) in block.split(|octet| *octet == b'\n').enumerate() {
            if self.found {
                return;
            }
            if index > 0 {
                self.end_line();
            }
            self.keep(part);
        }
    }

    /// Says how a log is read, if one was seen.
    pub fn tell(&self, rt: &HostRuntime) {
        if self.found || is_of_log(&self.line) {
            let _ = eprintln!(rt;
                "radpolicy-replay: standard input looks like a server's log, which --format log reads"
            );
        }
    }
}
