//! Refusals with the place of what is refused, in whose words no control character is shown.

ghost use Rattle.radpolicy.specs.Faults.{IsPrintedWith};

use crate::PROGRAM;
use avp_dict::FileSet;
use radpolicy::{Fault, status};
use radpolicy_common::{LineBreaks, visible_text};
use radpolicy_help::{Sources, explain, refuse_at, refuse_explained};
use std::alloc::{AllocError, Global};

/// A text of the command line or of a file, as it is shown on standard error.
pub fn shown(alloc: Global, text: &[u8]) -> Result<String, AllocError> {
    let visible = visible_text(alloc, text, LineBreaks::Escaped)?;
    String::from_utf8_lossy(alloc, &visible)
}

/// A line of a file.
#[derive(Clone, Copy)]
pub struct FileLine<'a> {
    pub file: &'a [u8],
    pub line: usize,
}

impl<'a> FileLine<'a> {
    /// The line of a dictionary that a fault is of.
    pub fn in_dictionary(fault: &Fault, files: &'a FileSet) -> Option<FileLine<'a>> {
        match fault {
            Fault::Dictionary(found) => Some(FileLine {
                file: files.as_slice().get(found.file)?.name.as_slice(),
                line: found.line,
            }),
            _ => None,
        }
    }
}

// A line of a file, as `FILE:LINE`.
fn line_text(alloc: Global, place: FileLine<'_>) -> Result<Vec<u8>, AllocError> {
    let line = place.line;
    let mut text = Vec::from_slice(alloc, place.file)?;
    text.extend_from_slice(format!(in alloc; ":{line}")?.as_bytes())?;
    Ok(text)
}

/// Refuses what is in files, at a line of one where it is known. Want of memory is nowhere.
pub fn refuse_in(
    rt: &HostRuntime,
    fault: &Fault,
    place: Option<FileLine<'_>>,
    files: &FileSet,
    sources: &Sources<'_>,
) -> u8
    requires { IsPrintedWith files.now fault.now }
{
    if let Some(place) = place
        && status(fault) != status(&Fault::Memory)
        && let Ok(place) = line_text(rt.alloc(), place)
    {
        refuse_at(
            rt,
            PROGRAM,
            fault,
            &place,
            explain(rt.alloc(), fault, sources),
        )
    } else {
        refuse_explained(rt, PROGRAM, fault, files, sources)
    }
}
