//! How many records a second are answered, and the counter of them on a terminal.

use crate::log_watches::LogWatch;
use radpolicy_common::Stream;
use radpolicy_replay_records::{Records, ReplayFault};
use radpolicy_traffic::Record;
use std::io;
use std::io::Read;
use std::time::Instant;

// How long the counter is left as it is, in milliseconds.
const PAUSE: u64 = 250;

/// The records of an input that are answered, in time. They are counted on standard error, where that is a terminal and
/// standard output is none: among the lines of records a counter would be lost.
#[derive(Drop)]
pub struct Counter<'a> {
    rt: &'a HostRuntime,
    // When the replay began; `None` where no clock can be read.
    start: Option<Instant>,
    is_wanted: bool,
    records: u64,
    // When the counter was shown last, in milliseconds from the start.
    shown: Option<u64>,
}

// How many a second that many are in so many milliseconds.
fn rate_of(records: u64, milliseconds: u64) -> Option<u64> {
    let thousandths = u128::from(records).checked_mul(1_000)?;
    u64::try_from(thousandths.checked_div(u128::from(milliseconds))?).ok()
}

impl<'a> Counter<'a> {
    /// The counter of a replay that begins now.
    pub fn new(rt: &'a HostRuntime) -> Counter<'a> {
        Counter {
            rt,
            start: Instant::now(rt).ok(),
            is_wanted: Stream::Error.is_terminal(rt) && !Stream::Output.is_terminal(rt),
            records: 0,
            shown: None,
        }
    }

    // How many milliseconds ago the replay began.
    fn milliseconds(&self) -> Option<u64> {
        let took = self.start?.elapsed(self.rt).ok()?;
        u64::try_from(took.as_millis()).ok()
    }

    // Shows the counter, unless it was shown just now.
    fn show_at(&mut self, milliseconds: u64) {
        if milliseconds.saturating_sub(self.shown.unwrap_or(0)) < PAUSE {
            return;
        }
        let records = self.records;
        if let Some(rate) = rate_of(records, milliseconds) {
            let _ = eprint!(self.rt; "\r{records} records, {rate} a second\x1b[K");
            self.shown = Some(milliseconds);
        }
    }

    // Shows how many records were answered.
    fn show(&mut self) {
        if !self.is_wanted {
            return;
        }
        if let Some(milliseconds) = self.milliseconds() {
            self.show_at(milliseconds);
        }
    }

    // These records are answered next.
    fn add(&mut self, records: u64) {
        self.records = self.records.saturating_add(records);
    }

    /// Takes the counter from the terminal.
    pub fn clear(&mut self) {
        if self.shown.take().is_some() {
            let _ = eprint!(self.rt; "\r\x1b[K");
        }
    }

    /// How many records a second these were, where they took a second or more.
    pub fn rate(&self, records: u64) -> Option<u64> {
        let milliseconds = self.milliseconds()?;
        if milliseconds < 1_000 {
            return None;
        }
        rate_of(records, milliseconds)
    }
}

/// Lines of packets, of which those that were read are counted when more is asked for: so they are answered.
#[derive(Drop)]
pub struct CountedLines<'a, R: Read + Drop> {
    input: R,
    pub counter: Counter<'a>,
    pub log: LogWatch,
    // Whether the line that has not ended is no line of blanks.
    has_word: bool,
}

impl<'a, R: Read + Drop> CountedLines<'a, R> {
    pub fn new(input: R, counter: Counter<'a>) -> CountedLines<'a, R> {
        CountedLines {
            input,
            log: LogWatch::new(counter.rt.alloc()),
            counter,
            has_word: false,
        }
    }
}

// How many records end in a block, and whether the line that does not end has a word. So may one that began before.
fn ended_records(block: &[u8], begun: bool) -> (u64, bool) {
    let (mut ended, mut has_word) = (0_u64, begun);
    for octet in block {
        if *octet != b'\n' {
            has_word |= !octet.is_ascii_whitespace();
        } else if has_word {
            ended = ended.saturating_add(1);
            has_word = false;
        }
    }
    (ended, has_word)
}

impl<R: Read + Drop> Read for CountedLines<'_, R> {
    ghost remaining = { λ lines. R.remaining lines.input };

    fn read(&mut self, buf: &mut [u8]) -> io::Result<usize> {
        self.counter.show();
        let count = self.input.read(buf)?;
        self.log.look(&buf[..count]);
        if self.counter.is_wanted {
            let (ended, has_word) = ended_records(&buf[..count], self.has_word);
            self.counter.add(ended);
            self.has_word = has_word;
        }
        Ok(count)
    }
}

/// Records of attribute lines, each of which is counted when the next is asked for.
#[derive(Drop)]
pub struct CountedRecords<'a, R: Records + Drop> {
    records: R,
    pub counter: Counter<'a>,
}

impl<'a, R: Records + Drop> CountedRecords<'a, R> {
    pub fn new(records: R, counter: Counter<'a>) -> CountedRecords<'a, R> {
        CountedRecords { records, counter }
    }

    /// The records, as far as they were asked for.
    pub fn records(&self) -> &R {
        &self.records
    }
}

impl<R: Records + Drop> Records for CountedRecords<'_, R> {
    ghost remaining = { λ records. R.remaining records.records };

    fn next_record(&mut self) -> Result<Option<Record>, ReplayFault> {
        self.counter.show();
        let record = self.records.next_record();
        self.counter.add(1);
        record
    }
}
