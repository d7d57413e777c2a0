//! Why a job was refused, and the exit status that says so.

ghost use Rattle.std.specs.Prelude.{◌≡◌};
ghost use Rattle.radpolicy.specs.declared.faults.Fault.TheVariants.{Memory};
ghost use Rattle.radpolicy.specs.Faults.{dict_fault_row, fault_number, fault_of_control_line, fault_of_dict, fault_of_encode, fault_of_line, fault_of_packet, fault_of_policy, fault_of_reply_line, fault_row, fault_text, is_memory, line_fault_row, numbered, out_of_memory, packet_fault_row, pattern_fault_row, policy_fault_row, status_of};

use avp_dict::{DictFault, DictKind, LineFault, LineKind};
use avp_packet::{EncodeFault, PacketFault};
use avp_patterns::PatternFault;
use avp_unlang::{PolicyFault, PolicyKind};
use std::alloc::{AllocError, AllocFailed};
use std::marker::Model;
use thiserror::Error;

/// Why a job was refused. `Help` asks for the help and is no refusal.
#[derive(Clone, Copy, Debug, PartialEq, Eq, Error)]
#[error("{}", self.text())]
pub enum Fault {
    Help,
    Usage,
    OptionValue,
    EmptySecret,
    FileNotReadable,
    NotHex,
    ScriptWord { line: usize },
    Write,
    Memory,
    Dictionary(DictFault),
    Request(LineFault),
    /// A fault of the reply list with which a run is to begin.
    Reply(LineFault),
    /// A fault of the control list with which a run is to begin.
    Control(LineFault),
    Packet(PacketFault),
    PacketTooLong,
    Policy(PolicyFault),
}

impl From<DictFault> for Fault {
    ghost from_gives = { λ fault f. f ≡ fault_of_dict fault };

    fn from(fault: DictFault) -> Fault {
        match fault.kind {
            DictKind::Memory => Fault::Memory,
            _ => Fault::Dictionary(fault),
        }
    }
}

impl From<LineFault> for Fault {
    ghost from_gives = { λ fault f. f ≡ fault_of_line fault };

    fn from(fault: LineFault) -> Fault {
        match fault.kind {
            LineKind::Memory => Fault::Memory,
            _ => Fault::Request(fault),
        }
    }
}

// The fault of the lines of an initial reply list.
pub(crate) fn fault_of_reply_line(fault: LineFault) -> Fault
    ensures { result ≡ fault_of_reply_line fault }
{
    match fault.kind {
        LineKind::Memory => Fault::Memory,
        _ => Fault::Reply(fault),
    }
}

// The fault of the lines of an initial control list.
pub(crate) fn fault_of_control_line(fault: LineFault) -> Fault
    ensures { result ≡ fault_of_control_line fault }
{
    match fault.kind {
        LineKind::Memory => Fault::Memory,
        _ => Fault::Control(fault),
    }
}

impl From<PacketFault> for Fault {
    ghost from_gives = { λ fault f. f ≡ fault_of_packet fault };

    fn from(fault: PacketFault) -> Fault {
        match fault {
            PacketFault::Memory => Fault::Memory,
            _ => Fault::Packet(fault),
        }
    }
}

impl From<EncodeFault> for Fault {
    ghost from_gives = { λ fault f. f ≡ fault_of_encode fault };

    fn from(fault: EncodeFault) -> Fault {
        match fault {
            EncodeFault::TooLong => Fault::PacketTooLong,
            EncodeFault::Memory => Fault::Memory,
        }
    }
}

impl From<PolicyFault> for Fault {
    ghost from_gives = { λ fault f. f ≡ fault_of_policy fault };

    fn from(fault: PolicyFault) -> Fault {
        match fault.kind {
            PolicyKind::Memory => Fault::Memory,
            _ => Fault::Policy(fault),
        }
    }
}

impl From<AllocError> for Fault {
    ghost from_gives = { λ _ f. f ≡ Memory };

    fn from(_error: AllocError) -> Fault {
        Fault::Memory
    }
}

impl<T: Drop> From<AllocFailed<T>> for Fault {
    ghost from_gives = { λ _ f. f ≡ Memory };

    fn from(_error: AllocFailed<T>) -> Fault {
        Fault::Memory
    }
}

// What the line of a fault shows of its kind: a number, after the letter E, and a text.
#[derive(Drop)]
struct FaultRow {
    number: u8,
    text: &'static str,
}

impl Model for FaultRow {
    ghost use Rattle.radpolicy.specs.Faults.{FaultRow as Row};

    ghost Value = { Row };

    ghost view = { λ s. record { number = s.number; text = s.text.now } };
}

fn numbered(number: u8, text: &'static str) -> FaultRow
    ensures { result ≡ numbered number text.now }
{
    FaultRow { number, text }
}

// Want of memory, in whatever part of a job.
fn out_of_memory() -> FaultRow
    ensures { result ≡ out_of_memory }
{
    numbered(9, "out of memory")
}

// The faults of dictionaries.
fn dict_fault_row(kind: DictKind) -> FaultRow
    ensures { result ≡ dict_fault_row kind }
{
    match kind {
        DictKind::Unreadable => numbered(10, "unreadable line"),
        DictKind::OutOfRange => numbered(11, "number out of range"),
        DictKind::OtherNumber => numbered(12, "name has another number"),
        DictKind::UnknownVendor => numbered(13, "unknown vendor"),
        DictKind::Unmatched => numbered(14, "BEGIN and END differ"),
        DictKind::NoFile => numbered(15, "file not handed in"),
        DictKind::TooDeep => numbered(16, "includes too deep"),
        DictKind::TooLong => numbered(17, "too many lines"),
        DictKind::NoAttribute => numbered(18, "VALUE of no ATTRIBUTE"),
        DictKind::OtherValue => numbered(19, "VALUE has another number"),
        DictKind::Memory => out_of_memory(),
    }
}

// The faults of request lines.
fn line_fault_row(kind: LineKind) -> FaultRow
    ensures { result ≡ line_fault_row kind }
{
    match kind {
        LineKind::NotValue => numbered(30, "not a value"),
        LineKind::TooLong => numbered(31, "too long"),
        LineKind::Unknown => numbered(32, "unknown attribute"),
        LineKind::NotWritable => numbered(33, "not writable"),
        LineKind::SecondPacket => numbered(34, "second packet"),
        LineKind::TooMany => numbered(35, "too many pairs"),
        LineKind::Unreadable => numbered(36, "unreadable line"),
        LineKind::Memory => out_of_memory(),
    }
}

// The faults of packets.
fn packet_fault_row(fault: PacketFault) -> FaultRow
    ensures { result ≡ packet_fault_row fault }
{
    match fault {
        PacketFault::TooShort => numbered(40, "fewer than 20 octets"),
        PacketFault::LengthOutOfRange => numbered(41, "bad packet length"),
        PacketFault::CutShort => numbered(42, "packet cut short"),
        PacketFault::BadAttribute(_) => numbered(43, "bad attribute length"),
        PacketFault::CodeNotTaken => numbered(44, "code not taken"),
        PacketFault::WrongAuthenticator => numbered(45, "wrong authenticator"),
        PacketFault::WrongMessageAuthenticator => numbered(47, "wrong Message-Authenticator"),
        PacketFault::Memory => out_of_memory(),
    }
}

// The faults of patterns.
fn pattern_fault_row(fault: PatternFault) -> FaultRow
    ensures { result ≡ pattern_fault_row fault }
{
    match fault {
        PatternFault::Empty => numbered(56, "empty pattern"),
        PatternFault::NotUtf8(_) => numbered(57, "pattern not UTF-8"),
        PatternFault::Expansion(_) => numbered(58, "expansion in a pattern"),
        PatternFault::NotRead(_) => numbered(59, "not a pattern"),
        PatternFault::TooLarge => numbered(60, "pattern too large"),
        PatternFault::Memory => out_of_memory(),
    }
}

// The faults of policies.
fn policy_fault_row(kind: PolicyKind) -> FaultRow
    ensures { result ≡ policy_fault_row kind }
{
    match kind {
        PolicyKind::NotValue => numbered(30, "not a value"),
        PolicyKind::TooLong => numbered(31, "too long"),
        PolicyKind::Unknown => numbered(32, "unknown attribute"),
        PolicyKind::NotWritable => numbered(33, "not writable"),
        PolicyKind::Unreadable => numbered(50, "unreadable token"),
        PolicyKind::Misplaced => numbered(51, "token does not fit"),
        PolicyKind::TooDeep => numbered(53, "nested too deep"),
        PolicyKind::TooLarge => numbered(54, "policy too large"),
        PolicyKind::OtherType => numbered(55, "types differ"),
        PolicyKind::NotExpansion => numbered(61, "not one expansion"),
        PolicyKind::Pattern(fault) => pattern_fault_row(fault),
        PolicyKind::Memory => out_of_memory(),
    }
}

impl Fault {
    // All faults. The number of the help is not shown.
    fn row(self) -> FaultRow
        ensures { result ≡ fault_row self }
    {
        match self {
            Fault::Help => numbered(0, "help"),
            Fault::Usage => numbered(1, "usage"),
            Fault::OptionValue => numbered(2, "option value"),
            Fault::EmptySecret => numbered(3, "empty secret"),
            Fault::FileNotReadable => numbered(4, "file not readable"),
            Fault::NotHex => numbered(5, "not hex"),
            Fault::ScriptWord { .. } => numbered(6, "unknown script word"),
            Fault::Write => numbered(7, "write fault"),
            Fault::Memory => out_of_memory(),
            Fault::Dictionary(fault) => dict_fault_row(fault.kind),
            Fault::Request(fault) | Fault::Reply(fault) | Fault::Control(fault) => {
                line_fault_row(fault.kind)
            }
            Fault::Packet(fault) => packet_fault_row(fault),
            Fault::PacketTooLong => numbered(46, "packet too long"),
            Fault::Policy(fault) => policy_fault_row(fault.kind),
        }
    }

    /// The number that its line shows after the letter E; 0 for the help.
    pub fn number(self) -> u8
        ensures { result ≡ fault_number self }
    {
        self.row().number
    }

    /// What its line says of its kind, without a place.
    pub fn text(self) -> &'static str
        ensures { result.now ≡ fault_text self }
    {
        self.row().text
    }

    // Whether it is want of memory, in whatever part of the job.
    pub(crate) fn is_memory(self) -> bool
        ensures { result ≡ is_memory self }
    {
        self.number() == out_of_memory().number
    }
}

/// The exit status for a fault, 0 for the help.
///
/// ```rust
/// assert_eq!(rt; status(&Fault::Usage), 2);
/// assert_eq!(rt; status(&Fault::FileNotReadable), 3);
/// assert_eq!(rt; status(&Fault::Memory), 4);
/// ```
pub fn status(fault: &Fault) -> u8
    ensures { result ≡ status_of fault.now }
{
    match fault {
        Fault::Help => 0,
        Fault::FileNotReadable | Fault::Write => 3,
        fault if fault.is_memory() => 4,
        _ => 2,
    }
}
