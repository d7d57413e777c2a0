//! What each program does first: it takes the words of its command line, and prints the help that they ask for.

use crate::refusals::refuse_early;
use radpolicy::{Fault, status};
use std::alloc::AllocError;
use std::io;

fn given_words(rt: &HostRuntime) -> io::Result<Vec<String>> {
    Ok(std::env::args(rt)?.collect(rt.alloc())?)
}

/// The words of the command line, the program's own name the first of them. Where there is no memory for them, or one is
/// no UTF-8, that is told on standard error as E09 or E01, and the status is returned.
pub fn command_words(rt: &HostRuntime, program: &str) -> Result<Vec<String>, u8> {
    match given_words(rt) {
        Ok(words) => Ok(words),
        Err(error) if error.kind() == io::ErrorKind::OutOfMemory => {
            Err(refuse_early(rt, program, &Fault::Memory))
        }
        Err(_) => Err(refuse_early(rt, program, &Fault::Usage)),
    }
}

/// Prints a program's help, for which there may have been no memory, and returns the status.
pub fn show_help(rt: &HostRuntime, program: &str, help: Result<String, AllocError>) -> u8 {
    match help {
        Ok(text) => match rt.print(text.as_str()) {
            Ok(()) => status(&Fault::Help),
            Err(_) => refuse_early(rt, program, &Fault::Write),
        },
        Err(_) => refuse_early(rt, program, &Fault::Memory),
    }
}
