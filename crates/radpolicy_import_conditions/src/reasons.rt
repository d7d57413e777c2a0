//! Why a part of a server's policy is left out.

use avp_dict::ValueFault;
use avp_unlang::{PolicyFault, PolicyKind};
use server_configuration::{ReferenceFault, ReferenceFaultKind};
use std::alloc::{AllocError, AllocFailed};
use thiserror::Error;

/// Why a part of a server's policy is left out.
#[derive(Clone, Copy, Debug, PartialEq, Eq, Error)]
pub enum Reason {
    #[error("an attribute that no dictionary has")]
    UnknownAttribute,
    /// As `&reply: += &session-state:`.
    #[error("a copy of a whole list")]
    WholeList,
    #[error("a list that policies do not have")]
    OtherList,
    #[error("a tag")]
    Tag,
    #[error("an instance by its number")]
    Instance,
    #[error("not the name of an attribute")]
    NoName,
    /// IPv6 addresses and prefixes, interface ids and numbers with a tag are octets in a policy.
    #[error("a value whose text is octets here")]
    OctetsHere,
    #[error("not a value of the attribute")]
    NotValue,
    #[error("a value that is too long")]
    TooLong,
    #[error("attributes of different types")]
    OtherType,
    #[error("an operator that policies do not have")]
    Operator,
    #[error("an expansion that policies do not have")]
    Expansion,
    /// By itself, as `%{explode:..}`.
    #[error("an expansion that changes attributes")]
    ChangedList,
    #[error("an expansion into a value that is no text")]
    ExpandedValue,
    /// A server takes it as the text that is written.
    #[error("an expansion without quotes")]
    BareExpansion,
    /// A server compares such texts as numbers.
    #[error("an expansion compared with a number")]
    ExpandedNumber,
    #[error("a command")]
    Command,
    #[error("a regular expression")]
    RegularExpression,
    #[error("a regular expression for an attribute by its number")]
    MatchedRaw,
    #[error("a regular expression for a text with an expansion")]
    MatchedText,
    #[error("what a regular expression captures")]
    Capture,
    /// It may be asked twice, and would look at what it captured itself.
    #[error("a part before another that captures and looks at what was captured")]
    MixedCaptures,
    #[error("a cast")]
    Cast,
    #[error("a comparison of two texts")]
    TwoTexts,
    /// A module may define it, as LDAP-Group.
    #[error("a word that is no attribute's name, compared with a text")]
    UnknownWord,
    /// A server compares the octets of the digits.
    #[error("a text compared with octets")]
    TextOfOctets,
    #[error("a code that policies do not have")]
    OtherCode,
    /// In the block of a module's call, as `{ ok = return }`.
    #[error("what is done after a module's code")]
    Action,
    #[error("asks for a code that is not known here")]
    UnknownCode,
    #[error("a condition that cannot be read")]
    Condition,
    #[error("a condition that is too long or nested too deep")]
    LargeCondition,
    #[error("elsif or else without if")]
    NoIf,
    #[error("a section that policies do not have")]
    OtherSection,
    #[error("a switch that compares no attribute")]
    Switch,
    #[error("a second default")]
    OtherDefault,
    #[error("the first member counts for all")]
    OtherMember,
    #[error("a policy that calls itself")]
    Loop,
    #[error("nested too deep")]
    TooDeep,
    #[error("not a line of an update")]
    NoLine,
    #[error("not a pair of an initial list, as reply:Class = 1 or control:User-Name = \"bob\"")]
    NoInitial,
    /// A reference to the configuration, as `${name}`.
    #[error("a reference to the configuration: {0}")]
    Reference(ReferenceFaultKind),
    /// `$ENV{NAME}`, whose value a server takes when it starts.
    #[error("a variable of the server's environment")]
    Environment,
    /// What [`avp_unlang::read_policy`] says of it.
    #[error("{0}")]
    Refused(PolicyKind),
}

/// Why a part does not become one of a policy, or want of memory.
#[derive(Clone, Copy, Debug, PartialEq, Eq)]
pub enum Refusal {
    Memory,
    LeftOut(Reason),
}

impl From<AllocError> for Refusal {
    fn from(_error: AllocError) -> Refusal {
        Refusal::Memory
    }
}

impl<T: Drop> From<AllocFailed<T>> for Refusal {
    fn from(_error: AllocFailed<T>) -> Refusal {
        Refusal::Memory
    }
}

impl From<Reason> for Refusal {
    fn from(reason: Reason) -> Refusal {
        Refusal::LeftOut(reason)
    }
}

impl From<ValueFault> for Refusal {
    fn from(fault: ValueFault) -> Refusal {
        match fault {
            ValueFault::Memory => Refusal::Memory,
            ValueFault::NotValue | ValueFault::NotWritable => Refusal::LeftOut(Reason::NotValue),
            ValueFault::TooLong => Refusal::LeftOut(Reason::TooLong),
        }
    }
}

impl From<PolicyFault> for Refusal {
    fn from(fault: PolicyFault) -> Refusal {
        match fault.kind {
            PolicyKind::Memory => Refusal::Memory,
            kind => Refusal::LeftOut(Reason::Refused(kind)),
        }
    }
}

impl From<ReferenceFault> for Refusal {
    fn from(fault: ReferenceFault) -> Refusal {
        match fault.kind {
            ReferenceFaultKind::Memory => Refusal::Memory,
            kind => Refusal::LeftOut(Reason::Reference(kind)),
        }
    }
}
