//! Runs policies of a server on requests, as `server_unlang` defines it, and prints what is left: for the trials beside
//! a server. Its words are the dictionary files; what it reads of standard input is said in `readers`.
#![tactic(auto)]

mod answers;
mod conditions;
mod inputs;
mod open_blocks;
mod readers;
mod words;

use std::io::{BufWriter, Read, Write};
use std::{env, io};

// Of standard input so much is read.
const MAX_OCTETS: u64 = 256_000_000;

fn main(rt: HostRuntime) -> io::Result<()> {
    let alloc = rt.alloc();
    let words: Vec<String> = env::args(&rt)?.collect(alloc)?;
    let dictionary = inputs::dictionary_of(&rt, &words)?;
    let mut octets = Vec::new(alloc);
    rt.stdin().take(MAX_OCTETS).read_to_end(&mut octets)?;
    let mut out = BufWriter::new(alloc, rt.stdout())?;
    let mut reader = readers::Reader::new(alloc, &dictionary);
    for line in octets.as_slice().split(|octet| *octet == b'\n') {
        reader.read_line(line, &mut out)?;
    }
    out.flush()
}
