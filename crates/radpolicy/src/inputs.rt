//! The reading of a whole input.

ghost use Rattle.std.specs.Prelude.{◌≡◌, ◌≤◌, ◌<◌, length, IfOk, IfSome, MatchOption};

use avp_lists::Octets;
use std::alloc::Global;
use std::io;
use std::io::Read;

/// The most octets that an input file may have.
pub const MAX_INPUT_OCTETS: usize = 16_777_216;

/// All that a reader has left, or `None` where that is more than an input file may have.
///
/// ```rust
/// let request = read_input(alloc, b"NAS-Port = 3\n".as_slice())?.ok_or("too long")?;
/// assert_eq!(rt; request.as_slice(), b"NAS-Port = 3\n".as_slice());
/// ```
pub fn read_input<R: Read + Drop>(alloc: Global, reader: R) -> io::Result<Option<Octets>>
    ensures within { IfOk result (λ input.
        IfSome input (λ octets. length octets ≤ MAX_INPUT_OCTETS)) }
    // Where the reader's octets can be known, these are all of them, or they are too many.
    ensures all { IfOk result (λ input. IfSome (R.remaining reader) (λ octets.
        MatchOption input (MAX_INPUT_OCTETS < length octets) (λ read. read ≡ octets))) }
{
    read_input_with_room(alloc, reader, 0)
}

/// The same, with room made first for so many octets, as a file's size says. Reading goes on to the end, whatever the
/// room is.
pub fn read_input_with_room<R: Read + Drop>(
    alloc: Global,
    reader: R,
    room: usize,
) -> io::Result<Option<Octets>>
    ensures within { IfOk result (λ input.
        IfSome input (λ octets. length octets ≤ MAX_INPUT_OCTETS)) }
    ensures all { IfOk result (λ input. IfSome (R.remaining reader) (λ octets.
        MatchOption input (MAX_INPUT_OCTETS < length octets) (λ read. read ≡ octets))) }
{
    let mut octets = Vec::with_capacity(alloc, room)?;
    let count = reader
        .take(MAX_INPUT_OCTETS as u64 + 1)
        .read_to_end(&mut octets)?;
    if count <= MAX_INPUT_OCTETS {
        Ok(Some(Octets::from_vec(octets)))
    } else {
        Ok(None)
    }
}
