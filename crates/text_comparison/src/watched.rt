//! What is written, compared with an earlier text as it is.

use crate::comparisons::{Comparison, OtherLine};
use crate::lines::MAX_LINE_OCTETS;
use std::alloc::Global;
use std::io;
use std::io::{ErrorKind, Read, Write};

// The most octets that are compared at one time.
const BLOCK_OCTETS: usize = 65_536;

// An earlier text, as far as it is compared.
#[derive(Drop)]
struct Earlier<R: Read + Drop> {
    text: R,
    // What was read of it last.
    block: Vec<u8>,
    comparison: Comparison,
}

impl<R: Read + Drop> Earlier<R> {
    // Reads as many octets more, if it has them.
    fn read_block(&mut self, count: usize) -> io::Result<()> {
        self.block.clear();
        self.text
            .by_ref()
            .take(count as u64)
            .read_to_end(&mut self.block)?;
        Ok(())
    }

    // Compares what was written.
    fn compare(&mut self, octets: &[u8]) -> io::Result<()> {
        for part in octets.chunks(BLOCK_OCTETS) {
            self.read_block(part.len())?;
            self.comparison.add(&self.block, part)?;
        }
        Ok(())
    }

    fn first_other(&mut self) -> io::Result<Option<OtherLine>> {
        self.read_block(MAX_LINE_OCTETS + 1)?;
        self.comparison.add(&self.block, &[])?;
        Ok(self.comparison.first_other()?)
    }
}

/// A writer whose octets are compared with an earlier text. Where that cannot be read, they are written all the same.
#[derive(Drop)]
pub struct Watched<W: Write + Drop, R: Read + Drop> {
    out: W,
    earlier: Earlier<R>,
    // Why the comparison ended early.
    failure: Option<ErrorKind>,
}

impl<W: Write + Drop, R: Read + Drop> Watched<W, R> {
    /// A writer to which nothing is written yet.
    pub fn new(alloc: Global, out: W, earlier: R) -> Watched<W, R> {
        let earlier = Earlier {
            text: earlier,
            block: Vec::new(alloc),
            comparison: Comparison::new(alloc),
        };
        Watched {
            out,
            earlier,
            failure: None,
        }
    }

    /// The first line in which what was written differs from the earlier text, where nothing more is written.
    pub fn first_other(&mut self) -> io::Result<Option<OtherLine>> {
        match self.failure {
            Some(kind) => Err(kind.into()),
            None => self.earlier.first_other(),
        }
    }
}

// Compares what was written, unless that ended early; or why it ends now.
fn compare<R: Read + Drop>(
    earlier: &mut Earlier<R>,
    failure: Option<ErrorKind>,
    octets: &[u8],
) -> Option<ErrorKind> {
    if failure.is_some() {
        return failure;
    }
    match earlier.compare(octets) {
        Ok(()) => None,
        Err(error) => Some(error.kind()),
    }
}

impl<W: Write + Drop, R: Read + Drop> Write for Watched<W, R> {
    ghost contents = { λ w. W.contents w.out };

    fn write(&mut self, buf: &[u8]) -> io::Result<usize> {
        let count = self.out.write(buf)?;
        self.failure = compare(&mut self.earlier, self.failure, &buf[..count]);
        Ok(count)
    }

    fn flush(&mut self) -> io::Result<()> {
        self.out.flush()
    }
}
