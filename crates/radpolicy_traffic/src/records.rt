//! What comes out: a request, and the reply to it.

ghost use Rattle.std.specs.Prelude.{◌≡◌, ◌++◌, ℕ, List, OnOk, codes};
ghost use Rattle.radpolicy_traffic.specs.Growth.{AreGrown, texts_of};
ghost use Rattle.radpolicy_traffic.specs.Lines.{IsEndOf};

use crate::marks::Lines;
use crate::texts::is;
use std::alloc::AllocError;

/// The most octets that the lines of a record have together.
pub const MAX_OCTETS: usize = 1_048_576;
/// The most lines that a record has.
pub const MAX_LINES: usize = 4_096;

/// The type of a packet.
#[derive(Clone, Copy, Debug, PartialEq, Eq)]
pub enum Code {
    AccessRequest,
    AccessAccept,
    AccessReject,
    AccessChallenge,
    AccountingRequest,
    AccountingResponse,
    /// Any other.
    Other,
}

/// The reply that was sent.
#[derive(Debug, Drop, PartialEq, Eq)]
pub struct Reply {
    pub code: Code,
    /// Its attributes, a line each.
    pub lines: Vec<u8>,
}

/// A request, as attribute lines. Each line is as it was printed, without what comes before the attribute's name, and
/// ends with LF. Values are not looked at.
#[derive(Debug, Drop, PartialEq, Eq)]
pub struct Record {
    /// The number of its first line, from 1 on.
    pub line: usize,
    /// The number that the server or the tool gives it; empty where there is none.
    pub identifier: Vec<u8>,
    /// The address that the request came from, where it is printed.
    pub source: Option<Vec<u8>>,
    pub code: Code,
    pub request: Vec<u8>,
    pub reply: Option<Reply>,
    /// The lines `reply:Name = value`, without the name of the list.
    pub initial_reply: Vec<u8>,
    /// The lines `control:Name = value`, without the name of the list.
    pub initial_control: Vec<u8>,
    /// It has more than [`MAX_LINES`] or [`MAX_OCTETS`], and none of its lines are kept.
    pub is_too_long: bool,
}

impl Code {
    /// The type of this name.
    pub(crate) fn named(name: &[u8]) -> Code {
        if is(name, "Access-Request") {
            Code::AccessRequest
        } else if is(name, "Access-Accept") {
            Code::AccessAccept
        } else if is(name, "Access-Reject") {
            Code::AccessReject
        } else if is(name, "Access-Challenge") {
            Code::AccessChallenge
        } else if is(name, "Accounting-Request") {
            Code::AccountingRequest
        } else if is(name, "Accounting-Response") {
            Code::AccountingResponse
        } else {
            Code::Other
        }
    }

    /// The type of a reply with this number (RFC 2865, section 3).
    pub(crate) fn numbered(number: &[u8]) -> Code {
        if is(number, "2") {
            Code::AccessAccept
        } else if is(number, "3") {
            Code::AccessReject
        } else if is(number, "11") {
            Code::AccessChallenge
        } else {
            Code::Other
        }
    }

    /// Whether a server answers it.
    pub(crate) fn is_request(self) -> bool {
        matches!(self, Code::AccessRequest | Code::AccountingRequest)
    }

    /// Whether it answers a request.
    pub(crate) fn is_reply(self) -> bool {
        matches!(
            self,
            Code::AccessAccept
                | Code::AccessReject
                | Code::AccessChallenge
                | Code::AccountingResponse
        )
    }
}

fn push_line(lines: &mut Vec<u8>, text: &[u8]) -> Result<(), AllocError>
    ensures { OnOk result (lines.new.items ≡ lines.old.items ++ text.now ++ codes "\n") }
{
    lines.extend_from_slice(text)?;
    lines.push(b'\n')?;
    Ok(())
}

impl Record {
    /// Adds a line to one of the lists.
    pub(crate) fn push(
        &mut self,
        lines: Lines,
        is_request: bool,
        text: &[u8],
    ) -> Result<(), AllocError>
        ensures grown { (line : List ℕ) → IsEndOf line text.now
            → OnOk result (AreGrown line (texts_of self.old) (texts_of self.new)) }
        ensures long { self.new.is_too_long ≡ self.old.is_too_long }
    {
        match (lines, &mut self.reply) {
            (Lines::InitialReply, _) => push_line(&mut self.initial_reply, text),
            (Lines::InitialControl, _) => push_line(&mut self.initial_control, text),
            (Lines::Packet, Some(reply)) if !is_request => push_line(&mut reply.lines, text),
            (Lines::Packet, _) => push_line(&mut self.request, text),
        }
    }
}
