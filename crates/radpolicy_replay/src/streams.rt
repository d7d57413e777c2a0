//! What is written, and why writing and reading end early.

use crate::PROGRAM;
use radpolicy::Fault;
use radpolicy_common::{FileKind, Unread, refuse_early, refuse_kind};
use radpolicy_help::{STANDARD_INPUT, refuse_at};
use radpolicy_replay_records::ReplayFault;
use std::alloc::{AllocError, Global};
use std::io::Write;

/// Writes a text.
pub fn write_text<W: Write>(out: &mut W, text: &[u8]) -> Result<(), ReplayFault> {
    match out.write_all(text) {
        Ok(()) => Ok(()),
        Err(_) => Err(ReplayFault::Output),
    }
}

/// Puts out what was written.
pub fn flush<W: Write>(out: &mut W) -> Result<(), ReplayFault> {
    match out.flush() {
        Ok(()) => Ok(()),
        Err(_) => Err(ReplayFault::Output),
    }
}

/// Why there is nothing to tell at the end.
#[derive(Clone, Copy, Debug, PartialEq, Eq)]
pub enum Early {
    Fault(ReplayFault),
    /// Standard input is of this kind, and has no records.
    Kind(FileKind),
}

impl From<ReplayFault> for Early {
    fn from(fault: ReplayFault) -> Self {
        Early::Fault(fault)
    }
}

/// Why a replay ended early. Standard input is named as a file that cannot be read is.
pub fn refuse_replay(rt: &HostRuntime, fault: ReplayFault) -> u8 {
    match fault {
        ReplayFault::Memory => refuse_early(rt, PROGRAM, &Fault::Memory),
        ReplayFault::Output => refuse_early(rt, PROGRAM, &Fault::Write),
        ReplayFault::Input | ReplayFault::TooManyRecords => refuse_at(
            rt,
            PROGRAM,
            &Unread::File("-").fault(),
            b"-",
            unread_advice(rt.alloc()),
        ),
    }
}

// What to do about standard input that could not be read.
fn unread_advice(alloc: Global) -> Result<Vec<u8>, AllocError> {
    Vec::from_slice(
        alloc,
        b"standard input could not be read: give it a file, as in radpolicy-replay .. < FILE, and no folder\n",
    )
}

/// The same, where it is told by its kind that an input has no records.
pub fn refuse_input(rt: &HostRuntime, early: Early) -> u8 {
    match early {
        Early::Fault(fault) => refuse_replay(rt, fault),
        Early::Kind(kind) => refuse_kind(rt, PROGRAM, STANDARD_INPUT, kind),
    }
}
