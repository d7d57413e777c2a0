//! Inputs that cannot be read to their end, and outputs that are too small.

use crate::replay::replays::{redaction_of, replay_by};
use attribute_tests::samples::test_dictionary;
use avp_dict::Dictionary;
use radpolicy::{PreparedPolicy, Secret};
use radpolicy_replay_records::{ReplayFault, Summary};
use std::alloc::Global;
use std::io;
use std::io::{Read, Write};
use std::test::Fail;

// Gives its octets, and then fails.
#[derive(Drop)]
struct Broken<'a> {
    octets: &'a [u8],
}

impl Read for Broken<'_> {
    fn read(&mut self, buf: &mut [u8]) -> io::Result<usize> {
        let count = self.octets.len().min(buf.len());
        if count == 0 {
            return Err(io::Error::from(io::ErrorKind::Other));
        }
        buf[..count].copy_from_slice(&self.octets[..count]);
        self.octets = &self.octets[count..];
        Ok(count)
    }
}

fn replayed<R: Read, W: Write>(
    alloc: Global,
    input: &mut R,
    out: &mut W,
) -> Result<Result<Summary, ReplayFault>, Fail> {
    let dictionary: Dictionary = test_dictionary(alloc)?;
    let policy = PreparedPolicy::read(alloc, &dictionary, b"reject")?;
    let secret = Secret::new(b"testing123")?;
    let redaction = redaction_of(alloc, &dictionary, &policy)?;
    let replay = replay_by(&policy, None, &secret, &redaction);
    Ok(replay.run(alloc, input, out))
}

#[test]
fn what_was_read_is_told_before_the_input_fails(rt: HostRuntime) -> Result<(), Fail> {
    let alloc = rt.alloc();
    let mut input = Broken {
        octets: b"first none\nsecond none\nthird",
    };
    let mut out = Vec::new(alloc);
    let ended = replayed(alloc, &mut input, &mut out)?;
    assert!(&rt; matches!(ended, Err(ReplayFault::Input)));
    let told = b"1 E05 not hex\n2 E05 not hex\n";
    assert_eq!(&rt; out.as_slice(), told.as_slice());
    Ok(())
}

#[test]
fn a_full_output_holds_a_front(rt: HostRuntime) -> Result<(), Fail> {
    let alloc = rt.alloc();
    let mut input = b"first none\nsecond none\n".as_slice();
    let mut space = [0; 16];
    let mut out = space.as_mut_slice();
    let ended = replayed(alloc, &mut input, &mut out)?;
    assert!(&rt; matches!(ended, Err(ReplayFault::Output)));
    assert_eq!(&rt; space.as_slice(), b"1 E05 not hex\n2 ".as_slice());
    Ok(())
}
