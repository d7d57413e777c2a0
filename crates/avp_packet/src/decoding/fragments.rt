//! Long values, which are in pieces (RFC 6929, section 2.2).

ghost use Rattle.std.specs.Prelude.{◌≡◌, ◌<◌, None, length, IfOk, IfSome, IfNone};
ghost use Rattle.std.specs.Option.{option_map};
ghost use Rattle.avp_packet.specs.AttributeOctets.{part};
ghost use Rattle.avp_packet.specs.Meanings.{joined, piece_of, run, run_with};
ghost use Rattle.avp_packet.specs.Splitting.{parts};
ghost use Rattle.avp_packet.specs.internal.Views.{piece_view, run_view};

use crate::attribute::numbers::{MORE_FLAG, PIECE_OCTETS};
use crate::attribute::splitting::{Front, first_attribute};
use std::alloc::{AllocError, Global};

// A piece of a long value, and the octets after its attribute.
#[derive(Clone, Copy)]
struct Piece<'a> {
    more: bool,
    octets: &'a [u8],
    rest: &'a [u8],
}

/// A long value, and the octets after its last attribute.
#[derive(Drop)]
pub(crate) struct Joined<'a> {
    pub octets: Vec<u8>,
    pub rest: &'a [u8],
}

fn piece_in_attribute<'a>(t: u8, number: u8, front: &Front<'a>) -> Option<Piece<'a>>
    ensures piece { option_map piece_view result
        ≡ piece_of t number (part front.now.number front.now.value.now) }
    ensures rest { IfSome result (λ piece. piece.rest.now ≡ front.now.rest.now) }
{
    if front.number != t {
        return None;
    }
    match front.value {
        [n, flags, octets @ ..] if !octets.is_empty() && *n == number => Some(Piece {
            more: *flags >= MORE_FLAG,
            octets,
            rest: front.rest,
        }),
        _ => None,
    }
}

fn next_piece(t: u8, number: u8, octets: &[u8]) -> Option<Piece<'_>>
    ensures run { IfSome result (λ piece. run t number (parts octets.now)
        ≡ run_with (piece_view piece) (parts piece.rest.now)
        (run t number (parts piece.rest.now))) }
    ensures shorter { IfSome result (λ piece. length piece.rest.now < length octets.now) }
    ensures none { IfNone result (run t number (parts octets.now) ≡ None) }
{
    let front = first_attribute(octets)?;
    piece_in_attribute(t, number, &front)
}

/// The pieces of a type and an Extended-Type joined, where the attributes begin with all of them.
pub(crate) fn join_run(
    alloc: Global,
    t: u8,
    number: u8,
    octets: &[u8],
) -> Result<Option<Joined<'_>>, AllocError>
    ensures run { IfOk result (λ joined. option_map run_view joined
        ≡ run t number (parts octets.now)) }
    ensures shorter { IfOk result (λ joined.
        IfSome joined (λ j. length j.rest.now < length octets.now)) }
{
    let mut joined = Vec::new(alloc);
    let mut rest = octets;
    while let Some(piece) = next_piece(t, number, rest) {
        joined.extend_from_slice(piece.octets)?;
        rest = piece.rest;
        if !piece.more {
            return Ok(Some(Joined {
                octets: joined,
                rest,
            }));
        }
        if piece.octets.len() != PIECE_OCTETS {
            return Ok(None);
        }
    }
    Ok(None)
}
