//! The programs that only the tests and `make bench` run. The first word names one, and the others are its own.
#![tactic(auto)]

mod configuration;
mod dictionaries;
mod forms;
mod inputs;
mod lookups;
mod packets;
mod rows;
mod runs;
mod stores;
mod traffic;
mod walks;

use std::{env, io};

fn main(rt: HostRuntime) -> io::Result<()> {
    let words: Vec<String> = env::args(&rt)?.collect(rt.alloc())?;
    let [_, name, words @ ..] = words.as_slice() else {
        return Err(io::ErrorKind::InvalidInput.into());
    };
    match name.as_str() {
        "stores" => stores::drive(&rt, words),
        "walks" => walks::drive(&rt, words),
        "lookups" => lookups::drive(&rt, words),
        "rows" if words.is_empty() => rows::drive(&rt),
        "runs" => runs::drive(&rt, words),
        "traffic" => traffic::drive(&rt),
        "configuration" => configuration::drive(&rt, words),
        "forms" => forms::drive(&rt),
        "packets" => packets::drive(&rt, words),
        _ => Err(io::ErrorKind::InvalidInput.into()),
    }
}
