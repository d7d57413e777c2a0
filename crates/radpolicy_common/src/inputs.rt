//! Where a program reads from.

ghost use Rattle.std.specs.Prelude.{◌≡◌, ◌⊎◌, Option, None, IfErr, codes};
ghost use Rattle.radpolicy_common.specs.Inputs.{Contents, IsReading, WhereKnown, file_of, input_of_standard_input};
ghost use Rattle.radpolicy_common.specs.Unread.{IsRefusalOf};

use crate::files::{Unread, read_file, read_standard_input};
use avp_lists::Octets;
use std::alloc::Global;

/// A source of inputs: files, and standard input.
pub trait Inputs {
    // What there is to read, where that can be known.
    ghost contents: { Self → Option Contents };

    /// For what is read.
    fn allocator(&self) -> Global;

    /// What a file holds, at most 16,777,216 octets.
    fn file<'a>(&self, path: &'a str) -> Result<Octets, Unread<'a>>
        ensures refused { IfErr result (λ unread.
            (unread ≡ Unread.Memory) ⊎ (unread ≡ Unread.File path.entry)) }
        ensures read { WhereKnown (contents self.now) (λ c.
            IsReading (file_of c path.entry) result) };

    /// What standard input holds, at most 16,777,216 octets.
    fn standard_input(&self) -> Result<Octets, Unread<'static>>
        ensures refused { IfErr result (IsRefusalOf (codes "-")) }
        ensures read { WhereKnown (contents self.now) (λ c.
            IsReading (input_of_standard_input c) result) };
}

/// The files of the system. What they hold, no contract can say.
impl Inputs for HostRuntime {
    ghost contents = { λ _. None };

    fn allocator(&self) -> Global {
        self.alloc()
    }

    fn file<'a>(&self, path: &'a str) -> Result<Octets, Unread<'a>> {
        read_file(self, path)
    }

    fn standard_input(&self) -> Result<Octets, Unread<'static>> {
        read_standard_input(self)
    }
}
