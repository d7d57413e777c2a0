//! What a line of a request was refused for, and where.

ghost use Rattle.std.specs.Prelude.{◌≡◌, ◌≤◌, ◌+◌, ◌-◌, length, take, true};
ghost use Rattle.avp_dict.specs.LineNumbers.{line_after};
ghost use Rattle.avp_dict.specs.RefusedPlaces.{is_before_filled};
ghost use Rattle.avp_dict.specs.internal.LineEnds.{IsPastBlanks};

use crate::file::words::is_blank;
use crate::line_numbers::line_after;
use crate::request::faults::{LineFault, LineKind};

// What a line was refused for, and how many of its octets are left there.
#[derive(Clone, Copy)]
pub(crate) struct Refusal {
    pub kind: LineKind,
    pub left: usize,
}

impl LineKind {
    // The refusal for this where so many octets of the line are left.
    pub(crate) fn at(self, left: usize) -> Refusal
        ensures kind { result.kind ≡ self }
        ensures left { result.left ≡ left }
    {
        Refusal { kind: self, left }
    }
}

// How many octets are before the first from this offset on that is no blank.
fn filled_from(text: &[u8], offset: usize) -> usize
    requires { offset ≤ length text.now }
    ensures within { result ≤ length text.now }
    ensures filled { is_before_filled result text.now ≡ true }
    ensures blanks { IsPastBlanks text.now offset result }
{
    let mut place = offset;
    while let Some(octet) = text.get(place)
        && is_blank(*octet)
    {
        place += 1;
    }
    place
}

impl Refusal {
    // The fault of a text in which so many octets follow the line that was refused.
    pub(crate) fn in_text(self, text: &[u8], after: usize) -> LineFault
        requires { self.left + after ≤ length text.now }
        ensures kind { result.kind ≡ self.kind }
        ensures within { result.offset ≤ length text.now }
        ensures line { result.line ≡ line_after (take result.offset text.now) }
        ensures filled { is_before_filled result.offset text.now ≡ true }
        ensures blanks { IsPastBlanks text.now (length text.now - (self.left + after))
            result.offset }
    {
        let offset = filled_from(text, text.len() - (self.left + after));
        LineFault {
            line: line_after(&text[..offset]),
            offset,
            kind: self.kind,
        }
    }
}
