//! Runs a prepared policy on a packet, as often as it is told, by one runner, and prints how many runs were refused, by
//! the numbers of their faults, and the report of the last. The tests run it with allocations refused, and the
//! benchmark measures it. Its words: how often, the files of the packet's octets, of the secret, of the policy and of
//! the lines of the initial reply and control lists, and the dictionary files.

use crate::dictionaries;
use avp_forms::Profile;
use radpolicy::{Fault, PreparedPolicy, RunOutcome, Runner, Secret, Start};
use std::alloc::Global;
use std::{fs, io};

// What each run begins with besides its policy.
#[derive(Drop)]
struct Given {
    packet: Vec<u8>,
    reply: Vec<u8>,
    control: Vec<u8>,
}

// One run.
fn run_once<'p: 'a, 'a>(
    alloc: Global,
    runner: &mut Runner<'p>,
    secret: &'a Secret<'a>,
    given: &Given,
) -> Result<RunOutcome<'a>, Fault> {
    let start = Start::of_packet(alloc, runner.prepared(), secret, &given.packet)?
        .with_reply_lines(alloc, Profile::Plain, None, &given.reply)?
        .with_control_lines(alloc, Profile::Plain, None, &given.control)?;
    runner.run(start)
}

// The runs, each by itself: a refused one does not end the others.
fn run_often<'a>(
    rt: &HostRuntime,
    prepared: &'a PreparedPolicy<'a>,
    secret: &'a Secret<'a>,
    given: &Given,
    count: u32,
) -> io::Result<()> {
    let mut runner = Runner::new(rt.alloc(), prepared);
    let mut refused: u32 = 0;
    let mut last = Vec::new(rt.alloc());
    for number in 0..count {
        match run_once(rt.alloc(), &mut runner, secret, given) {
            Ok(outcome) if number + 1 == count => last = outcome.text(rt.alloc())?,
            Ok(_) => {}
            Err(fault) => {
                println!(rt; "run {number} refused: {}", fault.number())?;
                refused = refused.wrapping_add(1);
            }
        }
    }
    println!(rt; "{refused} of {count} refused")?;
    rt.stdout().write_all(&last)
}

/// Makes the runs of these words.
pub fn drive(rt: &HostRuntime, words: &[String]) -> io::Result<()> {
    let [count, packet, secret, policy, reply, control, paths @ ..] = words else {
        return println!(rt;
            "usage: drive runs COUNT PACKET SECRET POLICY REPLY CONTROL DICTIONARY.."
        );
    };
    let Ok(count) = count.parse() else {
        return Err(io::ErrorKind::InvalidInput.into());
    };
    let dictionary = dictionaries::of_files(rt, paths)?;
    let policy = fs::read(rt, policy.as_str())?;
    let secret = fs::read(rt, secret.as_str())?;
    let given = Given {
        packet: fs::read(rt, packet.as_str())?,
        reply: fs::read(rt, reply.as_str())?,
        control: fs::read(rt, control.as_str())?,
    };
    let Ok(secret) = Secret::in_file(&secret) else {
        return Err(io::ErrorKind::InvalidInput.into());
    };
    let Ok(prepared) = PreparedPolicy::read(rt.alloc(), &dictionary, &policy) else {
        return Err(io::ErrorKind::InvalidInput.into());
    };
    run_often(rt, &prepared, &secret, &given, count)
}
