//! Names as lines spell them.

ghost use Rattle.std.specs.Prelude.{◌≡◌, IfOk};

use smallvec::SmallVec;
use std::alloc::{AllocError, Global};
use std::marker::Model;

/// A name, seen by contracts as its octets. One of 40 octets or fewer, as 99 in 100 are, takes no memory of an allocator.
#[derive(Drop)]
pub struct Name {
    octets: SmallVec<u8, 40>,
}

impl Model for Name {
    ghost use Rattle.std.specs.Prelude.{List, ℕ};

    ghost Value = { List ℕ };

    ghost view = { λ n. n.octets.items };
}

impl Name {
    /// A name of these octets.
    pub fn from_slice(alloc: Global, octets: &[u8]) -> Result<Name, AllocError>
        ensures { IfOk result (λ name. name ≡ octets.now) }
    {
        let octets = SmallVec::from_slice(alloc, octets)?;
        Ok(Name { octets })
    }

    /// The same name once more.
    pub fn copy(&self, alloc: Global) -> Result<Name, AllocError>
        ensures { IfOk result (λ copy. copy ≡ self.now) }
    {
        Name::from_slice(alloc, self.octets.as_slice())
    }

    pub fn as_slice(&self) -> &[u8]
        ensures { result.now ≡ self.now }
    {
        self.octets.as_slice()
    }
}
