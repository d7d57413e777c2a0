ghost use Rattle.std.specs.Prelude.{◌≡◌};
ghost use Rattle.avp_packet.specs.declared.faults.EncodeFault.TheVariants as encoding;
ghost use Rattle.avp_packet.specs.declared.faults.HideFault.TheVariants as hiding;
ghost use Rattle.avp_packet.specs.declared.faults.PacketFault.TheVariants as reading;

use std::alloc::{AllocError, AllocFailed};
use thiserror::Error;

/// Why a password is not hidden.
#[derive(Clone, Copy, Debug, PartialEq, Eq, Error)]
pub enum HideFault {
    /// More than 128 octets, or a NUL at the end.
    #[error("too long")]
    TooLong,
    #[error("out of memory")]
    Memory,
}

/// Why a list is not written as a packet.
#[derive(Clone, Copy, Debug, PartialEq, Eq, Error)]
pub enum EncodeFault {
    /// More than 4096 octets (RFC 2865, section 3).
    #[error("packet too long")]
    TooLong,
    #[error("out of memory")]
    Memory,
}

/// Why octets are not read as a request or as a reply.
#[derive(Clone, Copy, Debug, PartialEq, Eq, Error)]
pub enum PacketFault {
    /// Fewer than 20 octets.
    #[error("fewer than 20 octets")]
    TooShort,
    /// A Length below 20 or above 4096 (RFC 2865, section 3).
    #[error("bad packet length")]
    LengthOutOfRange,
    /// Fewer octets than Length.
    #[error("packet cut short")]
    CutShort,
    /// An attribute whose Length is below 2 or runs past the packet's, with the attribute's offset in the packet.
    #[error("bad attribute length")]
    BadAttribute(usize),
    /// A request's code other than Access-Request and Accounting-Request, or a reply's other than Access-Accept,
    /// Access-Reject, Accounting-Response and Access-Challenge.
    #[error("code not taken")]
    CodeNotTaken,
    /// An Accounting-Request whose authenticator is not the digest (RFC 2866, section 3), or a reply whose Response
    /// Authenticator is not the digest over the request's (RFC 2865, section 3).
    #[error("wrong authenticator")]
    WrongAuthenticator,
    /// An Access-Request, or a reply other than an Accounting-Response, with a Message-Authenticator that does not sign
    /// it, or with more than one (RFC 3579, section 3.2).
    #[error("wrong Message-Authenticator")]
    WrongMessageAuthenticator,
    #[error("out of memory")]
    Memory,
}

impl From<AllocError> for HideFault {
    ghost from_gives = { λ _ fault. fault ≡ hiding.Memory };

    fn from(_: AllocError) -> HideFault {
        HideFault::Memory
    }
}

impl From<AllocError> for EncodeFault {
    ghost from_gives = { λ _ fault. fault ≡ encoding.Memory };

    fn from(_: AllocError) -> EncodeFault {
        EncodeFault::Memory
    }
}

impl<T: Drop> From<AllocFailed<T>> for EncodeFault {
    ghost from_gives = { λ _ fault. fault ≡ encoding.Memory };

    fn from(_: AllocFailed<T>) -> EncodeFault {
        EncodeFault::Memory
    }
}

impl From<AllocError> for PacketFault {
    ghost from_gives = { λ _ fault. fault ≡ reading.Memory };

    fn from(_: AllocError) -> PacketFault {
        PacketFault::Memory
    }
}
