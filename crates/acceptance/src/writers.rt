//! Reports put out an octet at a time, to writers that fail after each number of octets.

ghost use Rattle.std.specs.Prelude.{Some};

use crate::commands::{RUN, RUN_STANDARD, STEP};
use crate::data::sources_of;
use crate::packets::STANDARD_REQUEST;
use crate::program::{Source, expect_write_fault, job_of, words_of};
use crate::steps::THERE_AND_BACK;
use attribute_tests::samples::{NESTED_TRANSACTIONS, TEST_DICTIONARY};
use radpolicy::{Fault, WriteOutput, answer, read_words};
use std::alloc::Global;
use std::io;
use std::io::Write;
use std::process::Abort;
use std::test::Fail;

// Takes an octet at a time until it has no room, and then fails: by an error, or by a count of 0.
#[derive(Drop)]
struct OneByOne {
    held: Vec<u8>,
    room: usize,
    errs: bool,
}

impl Write for OneByOne {
    ghost contents = { λ w. Some w.held.items };

    fn write(&mut self, buf: &[u8]) -> io::Result<usize> {
        let count = buf.len().min(self.room).min(1);
        if count == 0 && self.errs {
            return Err(io::ErrorKind::BrokenPipe.into());
        }
        self.held.extend_from_slice(&buf[..count])?;
        self.room -= count;
        Ok(count)
    }

    fn flush(&mut self) -> io::Result<()> {
        Ok(())
    }
}

// The program on these words, its output cut off after each number of octets, has a write fault, and put out the front
// of the report.
fn expect_fronts(
    rt: &impl Abort,
    alloc: Global,
    words: &str,
    sources: &[Source],
) -> Result<(), Fail> {
    let words = words_of(alloc, words)?;
    let plan = read_words(alloc, &words).map_err(|_| "a plan")?;
    let job = job_of(alloc, sources, &plan)?;
    let mut report = Vec::new(alloc);
    answer(alloc, &job, &mut WriteOutput::new(&mut report)).map_err(|_| "a report")?;
    for room in 0..report.len() {
        for errs in [false, true] {
            let held = Vec::new(alloc);
            let mut writer = OneByOne { held, room, errs };
            let refused = answer(alloc, &job, &mut WriteOutput::new(&mut writer));
            assert!(rt; matches!(&refused, Err(Fault::Write)));
            assert_eq!(rt; writer.held.as_slice(), &report[..room]);
        }
    }
    Ok(())
}

#[test]
fn puts_out_the_front_of_a_report(rt: HostRuntime) -> Result<(), Fail> {
    let alloc = rt.alloc();
    let policy = b"update reply { Service-Type := Login-User }";
    let run = sources_of(STANDARD_REQUEST, policy);
    expect_fronts(&rt, alloc, RUN_STANDARD, &run)?;
    let walk: [Source; 3] = [
        ("d", TEST_DICTIONARY),
        ("p", NESTED_TRANSACTIONS),
        ("s", THERE_AND_BACK),
    ];
    expect_fronts(&rt, alloc, STEP, &walk)?;
    expect_write_fault(&rt, alloc, STEP, &walk, b"14 line 14")?;
    expect_write_fault(&rt, alloc, RUN, &[], b"req")
}
