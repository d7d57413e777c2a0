ghost use Rattle.std.specs.Prelude.{◌≡◌, ◌<◌, ◌^◌};
ghost use Rattle.avp_dict.specs.declared.faults.DictKind.TheVariants.{Memory};
ghost use Rattle.avp_dict.specs.Outcomes.{is_memory_kind, want_of_memory};
ghost use Rattle.avp_dict.specs.Refusals.{at_word, miscounted};
ghost use Rattle.avp_dict.specs.internal.Views.{views};

use std::alloc::{AllocError, AllocFailed};
use thiserror::Error;

/// Why a file set is refused.
#[derive(Clone, Copy, Debug, PartialEq, Eq, Error)]
pub enum DictKind {
    /// A wrong number of words, an unknown keyword, an unreadable number, or a bad vendor name or format.
    #[error("unreadable line")]
    Unreadable,
    /// An attribute's or vendor's number above 4294967295, or a VALUE number above 18446744073709551615 or above its
    /// type's greatest one.
    #[error("number out of range")]
    OutOfRange,
    /// An earlier line, not skipped when it was read, gave the name to another vendor or attribute.
    #[error("name has another number")]
    OtherNumber,
    /// BEGIN-VENDOR, outside skipped blocks and with a name only, of a vendor without an earlier VENDOR line.
    #[error("unknown vendor")]
    UnknownVendor,
    /// An END line that doesn't end the last open block, or a block that is left open.
    #[error("BEGIN and END differ")]
    Unmatched,
    #[error("file not handed in")]
    NoFile,
    #[error("includes too deep")]
    TooDeep,
    /// More than [`MAX_LINES`](crate::MAX_LINES) lines in all, counted as often as they are read.
    #[error("too many lines")]
    TooLong,
    #[error("VALUE of no ATTRIBUTE")]
    NoAttribute,
    /// An earlier used VALUE line gave this name of the attribute's values another number.
    #[error("VALUE has another number")]
    OtherValue,
    #[error("out of memory")]
    Memory,
}

/// Where and why a file set is refused. Want of memory has file 0, line 0 and offset 0.
#[derive(Clone, Copy, Debug, PartialEq, Eq, Error)]
#[error("{kind}")]
pub struct DictFault {
    /// The file's place in the set.
    pub file: usize,
    /// The line's number in the file, from 1 on.
    pub line: usize,
    /// How many octets of the file are before the word at which the line is refused. Where a word is lacking they are
    /// those before the line's comment or its end.
    pub offset: usize,
    pub kind: DictKind,
}

/// At which of its words a line is refused, 0 being its keyword, and why.
#[derive(Clone, Copy)]
pub struct RefusedWord {
    pub word: usize,
    pub kind: DictKind,
}

/// A line that is refused.
#[derive(Clone, Copy)]
pub struct RefusedLine {
    /// The file's place in the set.
    pub file: usize,
    /// The line's number in the file, from 1 on.
    pub line: usize,
    pub refused: RefusedWord,
}

impl From<AllocError> for DictKind {
    ghost from_gives = { λ _ kind. kind ≡ Memory };

    fn from(_error: AllocError) -> DictKind {
        DictKind::Memory
    }
}

impl<T: Drop> From<AllocFailed<T>> for DictKind {
    ghost from_gives = { λ _ kind. kind ≡ Memory };

    fn from(_error: AllocFailed<T>) -> DictKind {
        DictKind::Memory
    }
}

// Want of memory, which has no place.
pub(crate) const OUT_OF_MEMORY: DictFault = DictFault {
    file: 0,
    line: 0,
    offset: 0,
    kind: DictKind::Memory,
};

impl From<AllocError> for RefusedWord {
    ghost from_gives = { λ _ refused. refused ≡ at_word 0 Memory };

    fn from(_error: AllocError) -> RefusedWord {
        DictKind::Memory.at_word(0)
    }
}

impl<T: Drop> From<AllocFailed<T>> for RefusedWord {
    ghost from_gives = { λ _ refused. refused ≡ at_word 0 Memory };

    fn from(_error: AllocFailed<T>) -> RefusedWord {
        DictKind::Memory.at_word(0)
    }
}

impl From<AllocError> for RefusedLine {
    ghost from_gives = { λ _ refusal. refusal.refused ≡ at_word 0 Memory };

    fn from(_error: AllocError) -> RefusedLine {
        DictKind::Memory.at_word(0).at_line(0, 0)
    }
}

impl<T: Drop> From<AllocFailed<T>> for RefusedLine {
    ghost from_gives = { λ _ refusal. refusal.refused ≡ at_word 0 Memory };

    fn from(_error: AllocFailed<T>) -> RefusedLine {
        DictKind::Memory.at_word(0).at_line(0, 0)
    }
}

impl DictKind {
    pub(crate) fn is_memory(self) -> bool
        ensures { result ≡ is_memory_kind self }
    {
        match self {
            DictKind::Memory => true,
            _ => false,
        }
    }

    /// The refusal of a line at its word of this number.
    pub(crate) fn at_word(self, word: usize) -> RefusedWord
        ensures { result ≡ at_word word self }
    {
        RefusedWord { word, kind: self }
    }
}

/// The refusal of a line with too few or too many words after its keyword, of which there may be so many.
pub(crate) fn miscounted(most: usize, words: &[&[u8]]) -> RefusedWord
    requires { most < 2 ^ 32 }
    ensures { result ≡ miscounted most (views words.now) }
{
    DictKind::Unreadable.at_word(most.min(words.len()) + 1)
}

impl RefusedWord {
    /// The refusal of the file set at this line.
    pub(crate) fn at_line(self, file: usize, line: usize) -> RefusedLine
        ensures { result ≡ record { file = file; line = line; refused = self } }
    {
        RefusedLine {
            file,
            line,
            refused: self,
        }
    }
}
