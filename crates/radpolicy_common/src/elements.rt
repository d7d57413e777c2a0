//! Runs of pieces in which each comparison and each update line of a text lies whole.

ghost use Rattle.std.specs.Prelude.{◌≡◌, ◌≢◌, ◌≤◌, ◌<◌, [], length, nat_eq};
ghost use Rattle.std.specs.List.{list_any};
ghost use Rattle.radpolicy_common.specs.PolicyTexts.{border_next, ends_by, ends_element, ends_read, ends_unread, goes_on, is_last, is_open, line_next, named_next, relates_next};
ghost use Rattle.radpolicy_common.specs.internal.Elements.{element_length};

use crate::pieces::Piece;

/// How a text is read.
#[derive(Clone, Copy, PartialEq, Eq)]
pub enum Reading {
    /// It is a policy.
    Policy,
    /// It may be none.
    Unread,
}

// Whether something has to follow: after a sign that updates or compares, and after `&`.
fn is_open(piece: &Piece<'_>) -> bool
    ensures { result ≡ is_open piece.now }
{
    piece.is_relating() || piece.is_reference()
}

fn relates_next(pieces: &[Piece<'_>]) -> bool
    ensures { result ≡ relates_next pieces.now }
{
    match pieces {
        [] => false,
        [piece, ..] => piece.is_relating(),
    }
}

fn named_next(pieces: &[Piece<'_>]) -> bool
    ensures { result ≡ named_next pieces.now }
{
    match pieces {
        [] => false,
        [piece, rest @ ..] => piece.is_word() && relates_next(rest),
    }
}

// Whether an update line comes next: a name, with `&` or without, and an operator.
fn line_next(pieces: &[Piece<'_>]) -> bool
    ensures { result ≡ line_next pieces.now }
{
    match pieces {
        [] => false,
        [piece, rest @ ..] => named_next(pieces) || (piece.is_reference() && named_next(rest)),
    }
}

fn border_next(pieces: &[Piece<'_>]) -> bool
    ensures { result ≡ border_next pieces.now }
{
    match pieces {
        [] => false,
        [piece, ..] => piece.is_border(),
    }
}

fn ends_read(piece: &Piece<'_>, rest: &[Piece<'_>]) -> bool
    ensures { result ≡ ends_read piece.now rest.now }
{
    piece.is_border() || border_next(rest) || (line_next(rest) && !is_open(piece))
}

// Whether a comparison or an update goes on.
fn goes_on(pieces: &[Piece<'_>]) -> bool
    ensures { result ≡ goes_on pieces.now }
{
    match pieces {
        [] => false,
        [piece, ..] => piece.is_relating() || piece.is_literal(),
    }
}

fn has_line_feed(octets: &[u8]) -> bool
    ensures { result ≡ list_any (nat_eq 10) octets.now }
{
    octets.contains(&b'\n')
}

fn ends_unread(piece: &Piece<'_>, rest: &[Piece<'_>]) -> bool
    ensures { result ≡ ends_unread piece.now rest.now }
{
    has_line_feed(piece.after) && !(is_open(piece) || goes_on(rest))
}

fn ends_by(reading: Reading, piece: &Piece<'_>, rest: &[Piece<'_>]) -> bool
    ensures { result ≡ ends_by reading piece.now rest.now }
{
    match reading {
        Reading::Policy => ends_read(piece, rest),
        Reading::Unread => ends_unread(piece, rest),
    }
}

fn is_last(rest: &[Piece<'_>]) -> bool
    ensures { result ≡ is_last rest.now }
{
    matches!(rest, [])
}

// Whether an element ends after a piece, before these.
fn ends_element(reading: Reading, piece: &Piece<'_>, rest: &[Piece<'_>]) -> bool
    ensures { result ≡ ends_element reading piece.now rest.now }
{
    is_last(rest) || ends_by(reading, piece, rest)
}

/// How many pieces the first element has.
pub(crate) fn element_length(reading: Reading, pieces: &[Piece<'_>]) -> usize
    ensures same { result ≡ element_length reading pieces.now }
    ensures within { result ≤ length pieces.now }
    ensures some { pieces.now ≢ [] → 0 < result }
{
    let mut rest = pieces;
    let mut passed = 0;
    while let [piece, others @ ..] = rest {
        passed += 1;
        if ends_element(reading, piece, others) {
            return passed;
        }
        rest = others;
    }
    passed
}
