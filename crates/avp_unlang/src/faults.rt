ghost use Rattle.std.specs.Prelude.{◌≡◌};
ghost use Rattle.avp_unlang.specs.declared.faults.PolicyKind.TheVariants.{Memory};

use avp_patterns::PatternFault;
use std::alloc::{AllocError, AllocFailed};
use thiserror::Error;

/// Why a policy text was refused.
#[derive(Clone, Copy, Debug, PartialEq, Eq, Error)]
pub enum PolicyKind {
    /// No token begins here, or a text between double quotes has a `%` that may not be there.
    #[error("unreadable token")]
    Unreadable,
    #[error("token does not fit")]
    Misplaced,
    #[error("unknown attribute")]
    Unknown,
    /// An attribute that only holds others (RFC 2865, section 5.26; RFC 6929, section 2), or a hidden one under a name
    /// by number.
    #[error("not writable")]
    NotWritable,
    #[error("not a value")]
    NotValue,
    #[error("too long")]
    TooLong,
    /// More than 64 open `{`, `(` and `!`.
    #[error("nested too deep")]
    TooDeep,
    /// A size above 65535.
    #[error("policy too large")]
    TooLarge,
    /// The two sides are of different types, or a text is beside an attribute that is not compared with texts.
    #[error("types differ")]
    OtherType,
    /// A text that is not one expansion alone is compared with a pattern.
    #[error("not one expansion")]
    NotExpansion,
    /// What is written as a pattern is none, or is too large; the places are those in the text of the pattern.
    #[error("{0}")]
    Pattern(PatternFault),
    #[error("out of memory")]
    Memory,
}

/// Why a policy text was refused, and where. Want of memory has line 0 and offset 0.
#[derive(Clone, Copy, Debug, PartialEq, Eq, Error)]
#[error("{kind}")]
pub struct PolicyFault {
    /// The line, from 1.
    pub line: usize,
    /// How many octets of the text are before the token that was refused: that of a value is where the value begins.
    pub offset: usize,
    pub kind: PolicyKind,
}

impl PolicyFault {
    /// Want of memory, which has no place.
    pub(crate) const OUT_OF_MEMORY: PolicyFault = PolicyFault {
        line: 0,
        offset: 0,
        kind: PolicyKind::Memory,
    };
}

impl From<AllocError> for PolicyFault {
    ghost from_gives = { λ _ fault. fault.kind ≡ Memory };

    fn from(_error: AllocError) -> PolicyFault {
        PolicyFault::OUT_OF_MEMORY
    }
}

impl<T: Drop> From<AllocFailed<T>> for PolicyFault {
    ghost from_gives = { λ _ fault. fault.kind ≡ Memory };

    fn from(_error: AllocFailed<T>) -> PolicyFault {
        PolicyFault::OUT_OF_MEMORY
    }
}

/// Where a token begins in a text: its line, from 1, and how many octets are left from there on.
#[derive(Clone, Copy)]
pub(crate) struct Position {
    pub line: usize,
    pub left: usize,
}

/// Why a text was refused, and how many of its octets are left from the refused token on.
#[derive(Clone, Copy)]
pub(crate) struct Refusal {
    pub left: usize,
    pub kind: PolicyKind,
}

/// The refusal of this kind at the token that begins here.
pub(crate) fn refused_at(position: Position, kind: PolicyKind) -> Refusal
    ensures kind { result.kind ≡ kind }
    ensures place { result.left ≡ position.left }
{
    Refusal {
        left: position.left,
        kind,
    }
}

impl Refusal {
    /// Want of memory, which has no place.
    pub(crate) const OUT_OF_MEMORY: Refusal = Refusal {
        left: 0,
        kind: PolicyKind::Memory,
    };
}

impl From<AllocError> for Refusal {
    ghost from_gives = { λ _ refusal. refusal.kind ≡ Memory };

    fn from(_error: AllocError) -> Refusal {
        Refusal::OUT_OF_MEMORY
    }
}

impl<T: Drop> From<AllocFailed<T>> for Refusal {
    ghost from_gives = { λ _ refusal. refusal.kind ≡ Memory };

    fn from(_error: AllocFailed<T>) -> Refusal {
        Refusal::OUT_OF_MEMORY
    }
}
