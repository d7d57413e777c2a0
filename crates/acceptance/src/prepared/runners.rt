//! Runs of one policy by a runner, one after another.

use crate::prepared::runs::{POST_AUTH, RUNS};
use crate::prepared::starts::ACCESS;
use attribute_tests::samples::test_dictionary;
use avp_forms::Profile;
use avp_lists::{AttrId, Octets, Pair, Pairs, Value};
use radpolicy::{Fault, PreparedPolicy, Runner, Secret, Start};
use std::alloc::Global;
use std::process::Abort;
use std::test::Fail;

// The report of a run over these request, reply and control lines.
fn report(alloc: Global, runner: &mut Runner<'_>, lists: [&[u8]; 3]) -> Result<Vec<u8>, Fail> {
    let [request, reply, control] = lists;
    let prepared = runner.prepared();
    let start = Start::of_lines(alloc, prepared, None, ACCESS, Profile::Plain, None, request)?
        .with_reply_lines(alloc, Profile::Plain, None, reply)?
        .with_control_lines(alloc, Profile::Plain, None, control)?;
    let outcome = runner.run(start)?;
    Ok(outcome.text(alloc)?)
}

fn expect_report(
    rt: &impl Abort,
    alloc: Global,
    runner: &mut Runner<'_>,
    lists: [&[u8]; 3],
    wanted: &[u8],
) -> Result<(), Fail> {
    let text = report(alloc, runner, lists)?;
    assert_eq!(rt; text.as_slice(), wanted);
    Ok(())
}

#[test]
fn runs_one_start_after_another(rt: HostRuntime) -> Result<(), Fail> {
    let dictionary = test_dictionary(rt.alloc())?;
    let prepared = PreparedPolicy::read(rt.alloc(), &dictionary, POST_AUTH)?;
    let mut runner = Runner::new(rt.alloc(), &prepared);
    let [first, second, ..] = RUNS;
    for (request, reply, control, _, wanted) in [first, second, first, second] {
        expect_report(
            &rt,
            rt.alloc(),
            &mut runner,
            [request, reply, control],
            wanted,
        )?;
    }
    Ok(())
}

const SEARCHING: &[u8] = b"# profile: wider
if (&User-Name =~ /^(.)o/) { ok }
elsif (&User-Name =~ / /) { reject }
update reply { Reply-Message := \"[%{0}][%{1}]\" }
";

// Requests, one after another, and the reports. An attribute that is absent leaves what was captured as it was: in a run
// of its own, nothing.
const SEARCHES: [(&[u8], &[u8]); 5] = [
    (
        b"User-Name = Bob",
        b"request
  User-Name = \"Bob\"
reply
  Reply-Message = \"[Bo][B]\"
control
result ok
",
    ),
    (
        b"",
        b"request
reply
  Reply-Message = \"[][]\"
control
result ok
",
    ),
    (
        b"User-Name = \"a b\"",
        b"request
  User-Name = \"a b\"
reply
control
result reject stopped
",
    ),
    (
        b"User-Name = anna",
        b"request
  User-Name = \"anna\"
reply
  Reply-Message = \"[][]\"
control
result ok
",
    ),
    (
        b"User-Name = Roy",
        b"request
  User-Name = \"Roy\"
reply
  Reply-Message = \"[Ro][R]\"
control
result ok
",
    ),
];

#[test]
fn searches_in_one_run_after_another(rt: HostRuntime) -> Result<(), Fail> {
    let dictionary = test_dictionary(rt.alloc())?;
    let prepared = PreparedPolicy::read(rt.alloc(), &dictionary, SEARCHING)?;
    let mut runner = Runner::new(rt.alloc(), &prepared);
    for (request, wanted) in SEARCHES {
        expect_report(&rt, rt.alloc(), &mut runner, [request, b"", b""], wanted)?;
    }
    Ok(())
}

// A list that no packet holds: 17 Classes of 255 octets each.
fn long_list(alloc: Global) -> Result<Pairs, Fail> {
    let mut pairs = Vec::new(alloc);
    for _ in 0..17 {
        pairs.push(Pair {
            id: AttrId::Plain(25),
            value: Value::Bytes(Octets::from_slice(alloc, &[1; 253])?),
        })?;
    }
    Ok(Pairs::from_vec(pairs))
}

// Whether a run that begins with so long a reply list is refused for it.
fn refuses_long<'p>(
    alloc: Global,
    runner: &mut Runner<'p>,
    secret: &'p Secret<'p>,
) -> Result<bool, Fail> {
    let prepared = runner.prepared();
    let lines = b"User-Name = Bob";
    let secret = Some(secret);
    let start = Start::of_lines(
        alloc,
        prepared,
        secret,
        ACCESS,
        Profile::Plain,
        None,
        lines,
    )?.with_reply(long_list(alloc)?)?;
    Ok(matches!(runner.run(start), Err(Fault::PacketTooLong)))
}

#[test]
fn runs_on_after_a_refusal(rt: HostRuntime) -> Result<(), Fail> {
    let dictionary = test_dictionary(rt.alloc())?;
    let prepared = PreparedPolicy::read(rt.alloc(), &dictionary, SEARCHING)?;
    let secret = Secret::new(b"s")?;
    let mut runner = Runner::new(rt.alloc(), &prepared);
    let [(request, wanted), ..] = SEARCHES;
    expect_report(&rt, rt.alloc(), &mut runner, [request, b"", b""], wanted)?;
    assert!(&rt; refuses_long(rt.alloc(), &mut runner, &secret)?);
    expect_report(&rt, rt.alloc(), &mut runner, [request, b"", b""], wanted)
}
