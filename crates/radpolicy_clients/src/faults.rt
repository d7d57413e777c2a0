//! Why clients are not read.

ghost use Rattle.std.specs.Prelude.{◌≡◌};
ghost use Rattle.radpolicy_clients.specs.declared.faults.ClientFault.TheVariants.{Memory};

use server_configuration::{FaultKind, ReferenceFaultKind};
use std::alloc::{AllocError, AllocFailed};
use thiserror::Error;

/// Why a client is not read.
#[derive(Clone, Copy, Debug, PartialEq, Eq, Error)]
pub enum ClientFault {
    #[error("out of memory")]
    Memory,
    #[error("file not readable")]
    Unreadable,
    /// Whoever runs the program has no permission to read the file.
    #[error("{}", FaultKind::Forbidden)]
    Forbidden,
    /// The file, or one that it includes, is no configuration.
    #[error("{0}")]
    Configuration(FaultKind),
    #[error("{0}")]
    Reference(ReferenceFaultKind),
    /// A line has not two words.
    #[error("an address and a secret expected")]
    NotTwoWords,
    /// Neither an address nor `ADDRESS/BITS`. Names of hosts are not looked up.
    #[error("not an address")]
    NotAddress,
    /// The `netmask` is no number of bits that an address has.
    #[error("not a number of bits")]
    NotBits,
    /// A word where a client or another section is expected.
    #[error("client expected")]
    NoClient,
    #[error("client without an address")]
    NoAddress,
    #[error("client without a secret")]
    NoSecret,
}

impl From<AllocError> for ClientFault {
    ghost from_gives = { λ _ fault. fault ≡ Memory };

    fn from(_error: AllocError) -> ClientFault {
        ClientFault::Memory
    }
}

impl<T: Drop> From<AllocFailed<T>> for ClientFault {
    ghost from_gives = { λ _ fault. fault ≡ Memory };

    fn from(_error: AllocFailed<T>) -> ClientFault {
        ClientFault::Memory
    }
}

/// Why a line is not read, and its number from 1 on.
#[derive(Clone, Copy, Debug, PartialEq, Eq)]
pub struct LineFault {
    pub line: usize,
    pub fault: ClientFault,
}

/// Why clients are not read, and where: the path of the file, and the line from 1 on.
#[derive(Debug, Drop, PartialEq, Eq)]
pub struct ClientsFault {
    pub path: Vec<u8>,
    pub line: usize,
    pub fault: ClientFault,
    /// The path of what the line includes, where that is not read.
    pub unread: Option<Vec<u8>>,
}
