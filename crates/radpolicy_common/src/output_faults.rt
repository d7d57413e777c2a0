//! Why outputs are not written.

ghost use Rattle.std.specs.Prelude.{◌≡◌};
ghost use Rattle.radpolicy.specs.Faults.{status_of};
ghost use Rattle.radpolicy_common.specs.OutputFaults.{fault_of_outputs};

use crate::refusals::refuse_early;
use crate::terminals::{LineBreaks, visible_text};
use radpolicy::{Fault, status};
use std::alloc::{AllocError, AllocFailed, Global};
use std::{fmt, io};

/// How standard output is called that no path names.
pub(crate) const STANDARD_OUTPUT: &str = "/dev/stdout";

/// Why a file is not written, though it could be.
#[derive(Clone, Copy, Debug, PartialEq, Eq)]
pub enum Refusal {
    /// It is there, and the program did not write it, or it was changed since.
    Foreign,
    /// It was read.
    Input,
    /// It is another output too.
    Output,
    /// Another program wrote it meanwhile.
    Changed,
    /// The new file can't have its owner, group and mode.
    Owner,
}

impl fmt::Display for Refusal {
    fn fmt<W: fmt::Write>(&self, f: &mut fmt::Formatter<W>) -> fmt::Result {
        f.write_str(match self {
            Refusal::Foreign => {
                "is there already, and is not what this program wrote: give another name, or --force to replace it"
            }
            Refusal::Input => "is read by this call: give another name",
            Refusal::Output => "is another output of this call too: give another name",
            Refusal::Changed => "was changed by another program meanwhile: nothing is replaced",
            Refusal::Owner => "its owner, group and mode can't be kept: give another name",
        })
    }
}

/// Why a new file is not at its place.
#[derive(Debug, Drop)]
pub(crate) enum Misplaced {
    Refused(Refusal),
    Unwritten(io::Error),
}

impl From<io::Error> for Misplaced {
    fn from(error: io::Error) -> Misplaced {
        Misplaced::Unwritten(error)
    }
}

/// Why the outputs of a call are not written. A path is as it was given; there is none of standard output.
#[derive(Debug, Drop)]
pub enum OutputFault<'a> {
    Memory,
    Refused(&'a str, Refusal),
    Unwritten(Option<&'a str>, io::Error),
}

impl From<AllocError> for OutputFault<'_> {
    fn from(_error: AllocError) -> Self {
        OutputFault::Memory
    }
}

impl<T: Drop> From<AllocFailed<T>> for OutputFault<'_> {
    fn from(_error: AllocFailed<T>) -> Self {
        OutputFault::Memory
    }
}

impl<'a> OutputFault<'a> {
    /// Of the output that has this path.
    pub(crate) fn unwritten(path: Option<&'a str>, error: io::Error) -> OutputFault<'a> {
        match error.kind() {
            io::ErrorKind::OutOfMemory => OutputFault::Memory,
            _ => OutputFault::Unwritten(path, error),
        }
    }

    pub(crate) fn of(path: Option<&'a str>, misplaced: Misplaced) -> OutputFault<'a> {
        match misplaced {
            Misplaced::Refused(refusal) => OutputFault::Refused(
                path.unwrap_or(STANDARD_OUTPUT),
                refusal,
            ),
            Misplaced::Unwritten(error) => OutputFault::unwritten(path, error),
        }
    }

    // The fault for which a program ends.
    fn fault(&self) -> Fault
        ensures { result ≡ fault_of_outputs self.now }
    {
        match self {
            OutputFault::Memory => Fault::Memory,
            OutputFault::Refused(..) => Fault::OptionValue,
            OutputFault::Unwritten(..) => Fault::Write,
        }
    }
}

// `PROGRAM: NUMBER PATH: why`
fn fault_line(
    alloc: Global,
    begin: &str,
    path: &str,
    why: &impl fmt::Display,
) -> Result<Vec<u8>, AllocError> {
    let mut line = Vec::from_slice(alloc, begin.as_bytes())?;
    line.extend_from_slice(&visible_text(alloc, path.as_bytes(), LineBreaks::Escaped)?)?;
    line.extend_from_slice(format!(in alloc; ": {why}\n")?.as_bytes())?;
    Ok(line)
}

fn output_fault_line(
    alloc: Global,
    program: &str,
    fault: &OutputFault<'_>,
) -> Result<Option<Vec<u8>>, AllocError> {
    match fault {
        OutputFault::Refused(path, refusal) => {
            let begin = format!(in alloc; "{program}: E02 ")?;
            Ok(Some(fault_line(alloc, begin.as_str(), path, refusal)?))
        }
        OutputFault::Unwritten(Some(path), error) => {
            let begin = format!(in alloc; "{program}: E07 ")?;
            Ok(Some(fault_line(alloc, begin.as_str(), path, error)?))
        }
        OutputFault::Memory | OutputFault::Unwritten(None, _) => Ok(None),
    }
}

/// Prints the line of outputs that are not written, and gives its status: want of memory is E09, a file that may not
/// be written E02 with its path, and one that could not be written E07.
pub fn refuse_outputs(rt: &HostRuntime, program: &str, fault: &OutputFault<'_>) -> u8
    ensures { result ≡ status_of (fault_of_outputs fault.now) }
{
    let said = fault.fault();
    if let Ok(Some(line)) = output_fault_line(rt.alloc(), program, fault) {
        let _ = rt.stderr().write_all(&line);
        return status(&said);
    }
    refuse_early(rt, program, &said)
}
