//! What is read of standard input.

use std::io;
use std::io::Read;

/// The octets of standard input, so many at most.
pub fn standard_input(rt: &HostRuntime, limit: u64) -> io::Result<Vec<u8>> {
    let mut octets = Vec::new(rt.alloc());
    rt.stdin().take(limit).read_to_end(&mut octets)?;
    Ok(octets)
}
