//! Why an import ends.

use crate::origins::Origin;
use avp_unlang::{PolicyFault, PolicyKind};
use radpolicy_import_conditions::{Reason, Refusal};
use std::alloc::{AllocError, AllocFailed};
use thiserror::Error;

/// Why an import ends without a policy.
#[derive(Clone, Copy, Debug, PartialEq, Eq, Error)]
pub enum ImportFault {
    #[error("out of memory")]
    Memory,
    /// More than [`MAX_STATEMENTS`](crate::MAX_STATEMENTS).
    #[error("too many statements")]
    TooManyStatements,
    #[error("a line feed within a line of the policy")]
    LineFeed,
    /// What is kept and what is left out is not all that was read, or comes from nowhere.
    #[error("statements were lost")]
    Lost,
    /// Each statement is taken by itself, and all together are not.
    #[error("{0}")]
    Policy(PolicyFault),
    /// A line of the file of initial lists is no pair of one.
    #[error("{1}")]
    Initial(Origin, Reason),
}

impl From<AllocError> for ImportFault {
    fn from(_error: AllocError) -> ImportFault {
        ImportFault::Memory
    }
}

impl<T: Drop> From<AllocFailed<T>> for ImportFault {
    fn from(_error: AllocFailed<T>) -> ImportFault {
        ImportFault::Memory
    }
}

impl From<PolicyFault> for ImportFault {
    fn from(fault: PolicyFault) -> ImportFault {
        match fault.kind {
            PolicyKind::Memory => ImportFault::Memory,
            _ => ImportFault::Policy(fault),
        }
    }
}

/// The reason, or the want of memory for which the import ends.
pub(crate) fn reason_of(refusal: Refusal) -> Result<Reason, ImportFault> {
    match refusal {
        Refusal::Memory => Err(ImportFault::Memory),
        Refusal::LeftOut(reason) => Ok(reason),
    }
}
