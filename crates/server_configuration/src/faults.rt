//! Why a file is not read.

ghost use Rattle.std.specs.Prelude.{◌≡◌, ◌+◌, ◌≤◌, ℕ, List, length, max};
ghost use Rattle.server_configuration.specs.Places.{HasLine, line_feeds};
ghost use Rattle.server_configuration.specs.internal.Refusals.{IsPlaced};
ghost use Rattle.server_configuration.specs.declared.sources.SourceFile.{SourceFile as Source};

use crate::references::ReferenceFaultKind;
use crate::sources::SourceFile;
use std::alloc::{AllocError, AllocFailed};
use thiserror::Error;

#[derive(Clone, Copy, Debug, PartialEq, Eq, Error)]
pub enum FaultKind {
    #[error("out of memory")]
    Memory,
    /// The section that begins here is still open at the end of the file, on this line.
    #[error("section without its closing brace")]
    OpenSection { end: usize },
    #[error("closing brace without a section")]
    ExtraBrace,
    /// The quoted text that begins here does not end on its line.
    #[error("quote without its end")]
    OpenQuote,
    /// The brackets of the condition that begins here do not balance, or a quote in it does not end on its line.
    #[error("condition without its end")]
    OpenCondition,
    /// No `(` after `if` or `elsif`, or no `{` after a condition.
    #[error("condition or brace expected")]
    NoCondition,
    /// An octet with which nothing begins.
    #[error("unexpected character")]
    Unexpected,
    /// More than [`MAX_ITEMS`](crate::MAX_ITEMS).
    #[error("too many items")]
    TooManyItems,
    /// More than [`MAX_OCTETS`](crate::MAX_OCTETS).
    #[error("too many octets")]
    TooLong,
    /// What this line includes is missing, or cannot be read.
    #[error("not there, or not readable")]
    Unreadable,
    /// What this line includes is a pipe or a device.
    #[error("neither a file nor a folder")]
    NotRegular,
    /// Whoever runs the program has no permission to read what this line includes.
    #[error("no permission to read it: run this with sudo, or as a member of the group that owns it")]
    Forbidden,
    /// More than [`MAX_FILES`](crate::MAX_FILES), or more includes than so many files need.
    #[error("too many files")]
    TooManyFiles,
    /// Includes more than [`MAX_DEPTH`](crate::MAX_DEPTH) deep.
    #[error("includes too deep")]
    TooDeep,
    /// A reference in the path of what this line includes.
    #[error("{0}")]
    Reference(ReferenceFaultKind),
}

/// Why a file is not read, and where.
#[derive(Clone, Copy, Debug, PartialEq, Eq, Error)]
#[error("{kind}")]
pub struct Fault {
    /// The line's number, from 1 on; 0 for want of memory, and where the file is too long.
    pub line: usize,
    pub kind: FaultKind,
}

impl From<AllocError> for Fault {
    ghost from_gives = { λ _ fault. fault.line ≡ 0 };

    fn from(_error: AllocError) -> Fault {
        Fault {
            line: 0,
            kind: FaultKind::Memory,
        }
    }
}

impl<T: Drop> From<AllocFailed<T>> for Fault {
    ghost from_gives = { λ _ fault. fault.line ≡ 0 };

    fn from(_error: AllocFailed<T>) -> Fault {
        Fault {
            line: 0,
            kind: FaultKind::Memory,
        }
    }
}

/// Why a configuration is not read, and where.
#[derive(Debug, Drop, PartialEq, Eq)]
pub struct ConfigurationFault {
    /// The file that has the place, as far as it was read. For want of memory its path may be empty.
    pub file: SourceFile,
    /// The line's number, from 1 on.
    pub line: usize,
    pub kind: FaultKind,
    /// The path of the file or the folder that is not read: of what the line includes, or of the first file.
    pub unread: Option<Vec<u8>>,
    ghost first: { 1 ≤ line },
    ghost last: { line ≤ 1 + line_feeds file.octets.items },
}

/// Why a configuration is not read, and at which of the files that were read.
#[derive(Debug, Drop)]
pub(crate) enum Refusal {
    Memory,
    At {
        file: usize,
        line: usize,
        kind: FaultKind,
    },
    /// What a line includes is not read.
    Unread {
        file: usize,
        line: usize,
        kind: FaultKind,
        path: Vec<u8>,
    },
}

impl From<AllocError> for Refusal {
    ghost use Rattle.server_configuration.specs.declared.faults.Refusal.TheVariants.{Memory};

    ghost from_gives = { λ _ refusal. refusal ≡ Memory };

    fn from(_error: AllocError) -> Refusal {
        Refusal::Memory
    }
}

impl<T: Drop> From<AllocFailed<T>> for Refusal {
    ghost use Rattle.server_configuration.specs.declared.faults.Refusal.TheVariants.{Memory};

    ghost from_gives = { λ _ refusal. refusal ≡ Memory };

    fn from(_error: AllocFailed<T>) -> Refusal {
        Refusal::Memory
    }
}

impl Fault {
    /// The same in a file of a configuration.
    #[tactic(auto, using(crate::proofs::Lines::earlier_line))]
    pub(crate) fn in_file(self, file: usize) -> Refusal
        ensures { (files : List Source) (line : ℕ) → HasLine files file line → self.line ≤ line
            → IsPlaced files result }
    {
        match self.kind {
            FaultKind::Memory => Refusal::Memory,
            kind => Refusal::At {
                file,
                line: self.line.max(1),
                kind,
            },
        }
    }
}
