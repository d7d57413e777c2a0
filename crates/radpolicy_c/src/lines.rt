//! What is told to C: octets at the front of its room.

ghost use Rattle.std.specs.Prelude.{◌≡◌, ◌≤◌, ◌++◌, Some, [], false, IfOk, drop, length};
ghost use Rattle.radpolicy.specs.Faults.{IsPrintedWith, fault_line};
ghost use Rattle.radpolicy_c.specs.Rooms.{room_told, status_told};

use crate::statuses::Status;
use avp_dict::FileSet;
use radpolicy::{Fault, Output, OutputError, print_fault};
use std::alloc::{AllocError, Global};

// The octets that were put so far.
#[derive(Drop)]
pub(crate) struct Collected {
    pub(crate) octets: Vec<u8>,
    pub(crate) has_failed: bool,
}

impl Collected {
    pub(crate) fn new(alloc: Global) -> Collected
        ensures octets { result.octets.items ≡ [] }
        ensures works { result.has_failed ≡ false }
    {
        Collected {
            octets: Vec::new(alloc),
            has_failed: false,
        }
    }
}

impl Output for Collected {
    ghost taken = { λ c. Some c.octets.items };

    ghost has_failed = { λ c. c.has_failed };

    fn put(&mut self, octets: &[u8]) -> Result<usize, OutputError> {
        match self.octets.extend_from_slice(octets) {
            Ok(()) => Ok(octets.len()),
            Err(_) => {
                self.has_failed = true;
                Err(OutputError)
            }
        }
    }
}

/// The line of a fault.
pub(crate) fn line_of(alloc: Global, fault: &Fault, files: &FileSet) -> Result<Vec<u8>, AllocError>
    requires { IsPrintedWith files.now fault.now }
    ensures { IfOk result (λ line. line.items ≡ fault_line files.now fault.now) }
{
    let mut line = Collected::new(alloc);
    if print_fault(fault, files, &mut line) {
        Ok(line.octets)
    } else {
        Err(AllocError)
    }
}

/// Puts items at the front of a room that has place for them. The rest of it stays.
pub(crate) fn put_front<T: Copy>(room: &mut [T], items: &[T])
    requires { length items.now ≤ length room.old }
    ensures { room.new ≡ items.now ++ drop (length items.now) room.old }
{
    room[..items.len()].copy_from_slice(items);
}

/// Puts octets at the front of a room, and their length beside it. Gives this status, or `TooShort` for a room that is.
pub(crate) fn tell(
    status: Status,
    octets: &[u8],
    room: &mut [u8],
    octets_length: &mut usize,
) -> Status
    ensures status { result ≡ status_told status octets.now room.old }
    ensures room { room.new ≡ room_told octets.now room.old }
    ensures length { octets_length.new ≡ length octets.now }
{
    *octets_length = octets.len();
    if room.len() < octets.len() {
        return Status::TooShort;
    }
    put_front(room, octets);
    status
}
