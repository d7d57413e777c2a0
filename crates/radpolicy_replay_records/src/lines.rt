//! The lines of an input, of which no more is kept than shows that they are too long.

ghost use Rattle.std.specs.Prelude.{◌≡◌, ◌<◌, ◌≤◌, ◌+◌, ◌++◌, ◌∷◌, [], IfNone, IfSome, OnOk, length};
ghost use Rattle.std.specs.List.{list_all, position, slice_split};
ghost use Rattle.avp_dict.specs.Lines.{is_line_end};
ghost use Rattle.avp_dict.specs.Words.{is_blank};
ghost use Rattle.radpolicy_replay_records.specs.Lines.{cut, is_record};

use radpolicy_record_answers::MAX_LINE_OCTETS;
use std::alloc::AllocError;

fn is_blank(octet: u8) -> bool
    ensures { result ≡ is_blank octet }
{
    matches!(octet, b' ' | b'\t' | b'\r')
}

fn is_blank_line(line: &[u8]) -> bool
    ensures { result ≡ list_all is_blank line.now }
{
    line.iter().all(|octet| is_blank(*octet))
}

/// Whether a line has more than blanks.
pub(crate) fn is_record(line: &[u8]) -> bool
    ensures { result ≡ is_record line.now }
{
    !is_blank_line(line)
}

fn line_end_at(text: &[u8]) -> Option<usize>
    ensures place { result ≡ position is_line_end text.now }
    ensures within { IfSome result (λ end. end < length text.now) }
{
    text.iter().position(|octet| *octet == b'\n')
}

/// What is before the first line end, and after it.
pub(crate) fn first_line_end(text: &[u8]) -> Option<(&[u8], &[u8])>
    ensures cut { IfSome result (λ x. slice_split is_line_end text.now
        ≡ x.0.now ∷ slice_split is_line_end x.1.now) }
    ensures shorter { IfSome result (λ x. length x.1.now < length text.now) }
    ensures whole { IfNone result (slice_split is_line_end text.now ≡ text.now ∷ []) }
{
    let end = line_end_at(text)?;
    Some((&text[..end], &text[end + 1..]))
}

/// Adds to what is kept of a line.
#[tactic(auto, using(crate::proofs::Cutting::kept_part))]
pub(crate) fn keep(line: &mut Vec<u8>, part: &[u8]) -> Result<(), AllocError>
    requires { length line.old.items ≤ MAX_LINE_OCTETS + 1 }
    ensures { OnOk result (line.new.items ≡ cut (line.old.items ++ part.now)) }
{
    let room = MAX_LINE_OCTETS + 1 - line.len();
    let end = room.min(part.len());
    line.extend_from_slice(&part[..end])?;
    Ok(())
}
