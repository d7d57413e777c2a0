//! Where records of attribute lines come from.

ghost use Rattle.std.specs.Prelude.{◌≡◌, IfErr, IfNone, IfOk, IfSome, List, None, OnErr, Option};
ghost use Rattle.radpolicy_replay_records.specs.TextReplays.{Gives, HasNone, IsInputFault};
ghost use Rattle.radpolicy_traffic.specs.declared.records.Record.{Record as Given};

use crate::lines::first_line_end;
use crate::replays::ReplayFault;
use radpolicy_record_answers::LogServers;
use radpolicy_traffic::{Format, MAX_OCTETS, Reader, Record};
use std::alloc::{AllocError, Global};
use std::collections::VecDeque;
use std::io::Read;

/// Records, which are given one after another.
pub trait Records {
    // The records that are left, where they can be known.
    ghost remaining: { Self → Option (List Given) };

    /// The next record, or none at the end.
    fn next_record(&mut self) -> Result<Option<Record>, ReplayFault>
        ensures given { IfOk result (λ next. IfSome next (λ given.
            Gives (remaining self.old) (remaining self.new) given)) }
        ensures end { IfOk result (λ next. IfNone next (HasNone (remaining self.old))) }
        ensures kept { OnErr result (remaining self.new ≡ remaining self.old) }
        ensures fault { IfErr result IsInputFault };
}

// The octets that are asked for by one read.
const BLOCK_OCTETS: usize = 65_536;

// The records of lines that are given a part at a time.
#[derive(Drop)]
struct JoinedLines {
    reader: Reader,
    // What was given of a line.
    line: Vec<u8>,
    // The records that are whole.
    ready: VecDeque<Record>,
    // The virtual servers that the lines name, where it is asked for the records of one.
    servers: Option<LogServers>,
}

// Adds to what is kept of a line, of which no more is kept than shows that it is too long.
fn keep_part(line: &mut Vec<u8>, part: &[u8]) -> Result<(), AllocError> {
    let room = (MAX_OCTETS + 1).saturating_sub(line.len());
    let end = room.min(part.len());
    line.extend_from_slice(&part[..end])?;
    Ok(())
}

impl JoinedLines {
    // The line that was given is whole.
    fn end_line(&mut self) -> Result<(), AllocError> {
        if let Some(record) = self.reader.line(&self.line)? {
            self.ready.push_back(record)?;
        }
        if let Some(servers) = &mut self.servers {
            servers.look(&self.line)?;
        }
        self.line.clear();
        Ok(())
    }

    // Takes the lines that end in a block, and keeps the line that does not.
    fn take_block(&mut self, block: &[u8]) -> Result<(), AllocError> {
        let mut rest = block;
        while let Some((end, later)) = first_line_end(rest) {
            keep_part(&mut self.line, end)?;
            self.end_line()?;
            rest = later;
        }
        keep_part(&mut self.line, rest)
    }
}

/// The records of what a server or a tool prints. No more is read than is needed for the next of them.
#[derive(Drop)]
pub struct RecordReader<R: Read + Drop> {
    input: R,
    block: Vec<u8>,
    lines: JoinedLines,
    is_over: bool,
}

impl<R: Read + Drop> RecordReader<R> {
    /// The records of an input in a format.
    pub fn new(alloc: Global, input: R, format: Format) -> Result<Self, AllocError> {
        let lines = JoinedLines {
            reader: Reader::new(alloc, format),
            line: Vec::new(alloc),
            ready: VecDeque::new(alloc),
            servers: None,
        };
        Ok(RecordReader {
            input,
            block: vec![in alloc; 0; BLOCK_OCTETS]?,
            lines,
            is_over: false,
        })
    }

    /// Those of a server's log that come out of tunnels and go to a virtual server.
    pub fn of_server(alloc: Global, input: R, server: &[u8]) -> Result<Self, AllocError> {
        let lines = JoinedLines {
            reader: Reader::of_server(alloc, server)?,
            line: Vec::new(alloc),
            ready: VecDeque::new(alloc),
            servers: Some(LogServers::new(alloc)),
        };
        Ok(RecordReader {
            input,
            block: vec![in alloc; 0; BLOCK_OCTETS]?,
            lines,
            is_over: false,
        })
    }

    /// The virtual servers that the log names, as far as it was read, where it is asked for the records of one.
    pub fn servers(&self) -> Option<&LogServers> {
        self.lines.servers.as_ref()
    }

    // Reads the next block. A last line needs no end.
    fn read_block(&mut self) -> Result<(), ReplayFault>
        ensures { IfErr result IsInputFault }
    {
        let Ok(count) = self.input.read(self.block.as_mut_slice()) else {
            return Err(ReplayFault::Input);
        };
        self.is_over = count == 0;
        self.lines.take_block(&self.block[..count])?;
        if self.is_over {
            self.lines.end_line()?;
        }
        Ok(())
    }
}

/// What an input holds, no contract can say.
impl<R: Read + Drop> Records for RecordReader<R> {
    ghost remaining = { λ _. None };

    fn next_record(&mut self) -> Result<Option<Record>, ReplayFault> {
        for _ in 0..u64::MAX {
            if let Some(record) = self.lines.ready.pop_front() {
                return Ok(Some(record));
            }
            if self.is_over {
                return Ok(self.lines.reader.end());
            }
            self.read_block()?;
        }
        Err(ReplayFault::Input)
    }
}
