ghost use Rattle.std.specs.Prelude.{◌≡◌};
ghost use Rattle.avp_dict.specs.declared.value.faults.ValueFault.TheVariants.{Memory};

use std::alloc::AllocError;
use thiserror::Error;

/// Why a text is no value of an attribute.
#[derive(Clone, Copy, Debug, PartialEq, Eq, Error)]
pub enum ValueFault {
    /// An attribute that only holds others (RFC 2865, section 5.26; RFC 6929, section 2), or a hidden one under a name
    /// by number.
    #[error("not writable")]
    NotWritable,
    #[error("not a value")]
    NotValue,
    /// More octets than the attribute may have, or a hidden value that ends in NUL.
    #[error("too long")]
    TooLong,
    #[error("out of memory")]
    Memory,
}

impl From<AllocError> for ValueFault {
    ghost from_gives = { λ _ fault. fault ≡ Memory };

    fn from(_: AllocError) -> ValueFault {
        ValueFault::Memory
    }
}
