ghost use Rattle.std.specs.Prelude.{◌≡◌};
ghost use Rattle.avp_dict.specs.declared.request.faults.LineKind.TheVariants.{Memory};
ghost use Rattle.avp_dict.specs.internal.LineReading.{line_kind};

use crate::value::faults::ValueFault;
use std::alloc::{AllocError, AllocFailed};
use thiserror::Error;

/// Why a text is no request.
#[derive(Clone, Copy, Debug, PartialEq, Eq, Error)]
pub enum LineKind {
    #[error("not a value")]
    NotValue,
    /// More octets than the attribute may have, or a hidden value that ends in NUL.
    #[error("too long")]
    TooLong,
    #[error("unknown attribute")]
    Unknown,
    /// An attribute that only holds others (RFC 2865, section 5.26; RFC 6929, section 2), or a hidden one under a name
    /// by number.
    #[error("not writable")]
    NotWritable,
    /// A name after the line of blanks that ends the packet.
    #[error("second packet")]
    SecondPacket,
    /// More pairs than a list may have.
    #[error("too many pairs")]
    TooMany,
    #[error("unreadable line")]
    Unreadable,
    #[error("out of memory")]
    Memory,
}

/// Where and why a text is no request: its first refused place; for want of memory that which was being read.
#[derive(Clone, Copy, Debug, PartialEq, Eq, Error)]
#[error("{kind}")]
pub struct LineFault {
    /// The line's number, from 1 on.
    pub line: usize,
    /// How many octets of the text are before what was refused: a name, a value that is none or is too long, a token that
    /// does not fit, or the end of a line, or the comment there, where a token is lacking.
    pub offset: usize,
    pub kind: LineKind,
}

impl From<ValueFault> for LineKind {
    ghost from_gives = { λ fault kind. kind ≡ line_kind fault };

    fn from(fault: ValueFault) -> LineKind {
        match fault {
            ValueFault::NotWritable => LineKind::NotWritable,
            ValueFault::NotValue => LineKind::NotValue,
            ValueFault::TooLong => LineKind::TooLong,
            ValueFault::Memory => LineKind::Memory,
        }
    }
}

impl From<AllocError> for LineKind {
    ghost from_gives = { λ _ kind. kind ≡ Memory };

    fn from(_error: AllocError) -> LineKind {
        LineKind::Memory
    }
}

impl<T: Drop> From<AllocFailed<T>> for LineKind {
    ghost from_gives = { λ _ kind. kind ≡ Memory };

    fn from(_error: AllocFailed<T>) -> LineKind {
        LineKind::Memory
    }
}
