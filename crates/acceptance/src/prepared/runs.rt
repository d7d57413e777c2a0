//! Runs of prepared policies: initial lists, replies, walks, and that a run leaves nothing behind.

use crate::data::AUTHENTICATOR_OCTETS as AUTHENTICATOR;
use crate::prepared::starts::{ACCESS, ACCOUNTING, class, run_of, start};
use attribute_tests::samples::test_dictionary;
use avp_dict::Dictionary;
use avp_forms::Profile;
use avp_lists::{List, Octets, Pairs, Store};
use avp_packet::check_reply;
use avp_step::Label;
use avp_unlang::Code;
use radpolicy::{PreparedPolicy, Reply, RequestHead, Secret, Start};
use std::alloc::Global;
use std::process::Abort;
use std::test::Fail;

/// As in a server's `post-auth`: the lists are filled when the policy begins.
pub const POST_AUTH: &[u8] = b"if (&reply:Class == 0x01 && &control:Tmp-Number > 6) {
\tupdate reply { Session-Timeout := 60 }
}
transaction {
\tupdate reply { Class !* ANY }
\tupdate control { Tmp-Number := 1 }
\treject
}
update control { Tmp-Number += 5 }
";

/// Requests, initial reply and control lists, policies, and the reports, each worked out by hand.
pub const RUNS: [(&[u8], &[u8], &[u8], &[u8], &[u8]); 4] = [
    // Both lists are looked at, and the failed transaction gives them back as they were before it.
    (
        b"User-Name = u",
        b"Class = 0x01, Reply-Message = x",
        b"Tmp-Number = 7",
        POST_AUTH,
        b"request
  User-Name = \"u\"
reply
  Class = 0x01
  Reply-Message = \"x\"
  Session-Timeout = 60
control
  Tmp-Number = 7
  Tmp-Number = 5
result reject
",
    ),
    // Empty lists are those of the command `run`.
    (
        b"User-Name = u",
        b"",
        b"",
        POST_AUTH,
        b"request
  User-Name = \"u\"
reply
control
  Tmp-Number = 5
result reject
",
    ),
    // A failed update gives the initial list back.
    (
        b"",
        b"Class = 0x01\nClass = 0x02\n",
        b"",
        b"update reply { Class -= 0x01 Class += &Class }",
        b"request
reply
  Class = 0x01
  Class = 0x02
control
result fail stopped
",
    ),
    // The first instance is replaced in its place, and the later ones go.
    (
        b"",
        b"Class = 0x01, Reply-Message = x, Class = 0x02",
        b"Class = 0x03",
        b"update reply { Class := &control:Class }",
        b"request
reply
  Class = 0x03
  Reply-Message = \"x\"
control
  Class = 0x03
result ok
",
    ),
];

fn expect_run(
    rt: &impl Abort,
    alloc: Global,
    dictionary: &Dictionary,
    lists: [&[u8]; 3],
    policy: &[u8],
    wanted: &[u8],
) -> Result<(), Fail> {
    let prepared = PreparedPolicy::read(alloc, dictionary, policy)?;
    let text = run_of(alloc, &prepared, lists)?;
    assert_eq!(rt; text.as_slice(), wanted);
    Ok(())
}

#[test]
fn begins_with_the_initial_lists(rt: HostRuntime) -> Result<(), Fail> {
    let dictionary = test_dictionary(rt.alloc())?;
    for (request, reply, control, policy, wanted) in RUNS {
        let lists = [request, reply, control];
        expect_run(&rt, rt.alloc(), &dictionary, lists, policy, wanted)?;
    }
    Ok(())
}

#[test]
fn begins_each_run_anew(rt: HostRuntime) -> Result<(), Fail> {
    let dictionary = test_dictionary(rt.alloc())?;
    let prepared = PreparedPolicy::read(rt.alloc(), &dictionary, POST_AUTH)?;
    let [first, second, ..] = RUNS;
    for (request, reply, control, _, wanted) in [first, second, first, second] {
        let text = run_of(rt.alloc(), &prepared, [request, reply, control])?;
        assert_eq!(&rt; text.as_slice(), wanted);
    }
    Ok(())
}

fn expect_walk(rt: &impl Abort, alloc: Global, start: Start<'_>) -> Result<(), Fail> {
    let mut stepper = start.stepper(alloc)?;
    assert_eq!(rt; stepper.store().count(List::Reply), 1);
    stepper.run_to_end()?;
    assert_eq!(rt;
        (stepper.label(), stepper.code()),
        (Label::Line(9), Code::Reject)
    );
    stepper.to_start();
    assert_eq!(rt; stepper.store().count(List::Reply), 1);
    assert_eq!(rt; stepper.store().count(List::Control), 0);
    Ok(())
}

#[test]
fn walks_from_the_initial_lists(rt: HostRuntime) -> Result<(), Fail> {
    let dictionary = test_dictionary(rt.alloc())?;
    let prepared = PreparedPolicy::read(rt.alloc(), &dictionary, POST_AUTH)?;
    let start = start(rt.alloc(), &prepared, b"")?.with_reply_lines(
        rt.alloc(),
        Profile::Plain,
        None,
        b"Class = 0x01",
    )?;
    expect_walk(&rt, rt.alloc(), start)
}

// The reply of a run over a request with a Proxy-State, and the initial reply list `Class = 0x01`.
fn reply_of(
    alloc: Global,
    dictionary: &Dictionary,
    head: RequestHead,
    policy: &[u8],
) -> Result<Option<Octets>, Fail> {
    let prepared = PreparedPolicy::read(alloc, dictionary, policy)?;
    let secret = Secret::new(b"s")?;
    let start = Start::of_lines(
        alloc,
        &prepared,
        Some(&secret),
        head,
        Profile::Plain,
        None,
        b"Proxy-State = 0x70",
    )?;
    let reply = Pairs::from_vec(vec![in alloc; class(alloc, 1)?]?);
    match start.with_reply(reply)?.run(alloc)?.reply() {
        Reply::Packet(octets) => Ok(Some(Octets::from_slice(alloc, octets.as_slice())?)),
        Reply::Nothing => Ok(None),
        Reply::Unmade => Err(Fail::new("a reply")),
    }
}

// The authenticator of the packet of an Accounting-Request with the identifier 7, the Proxy-State and the secret `s`.
const MADE: [u8; 16] = [
    0x6b, 0x67, 0x0b, 0xc9, 0xe1, 0x0e, 0x50, 0x17, 0xbe, 0x58, 0x3e, 0x05, 0x3e, 0x21, 0x7b, 0x00,
];

fn expect_reply(
    rt: &impl Abort,
    alloc: Global,
    dictionary: &Dictionary,
    head: RequestHead,
    policy: &[u8],
    answered: &[u8; 16],
) -> Result<(), Fail> {
    let sent = reply_of(alloc, dictionary, head, policy)?.ok_or("a packet")?;
    assert!(rt; check_reply(sent.as_slice(), answered, b"s"));
    assert!(rt; sent.as_slice().ends_with(b"\x19\x03\x01\x21\x03\x70"));
    Ok(())
}

#[test]
fn sends_the_initial_reply(rt: HostRuntime) -> Result<(), Fail> {
    let dictionary = test_dictionary(rt.alloc())?;
    let authenticator = Some(AUTHENTICATOR);
    let own = RequestHead {
        authenticator,
        ..ACCESS
    };
    expect_reply(&rt, rt.alloc(), &dictionary, own, b"", &AUTHENTICATOR)?;
    expect_reply(&rt, rt.alloc(), &dictionary, ACCESS, b"reject", &[0; 16])?;
    expect_reply(&rt, rt.alloc(), &dictionary, ACCOUNTING, b"ok", &MADE)?;
    let own = RequestHead {
        authenticator,
        ..ACCOUNTING
    };
    expect_reply(&rt, rt.alloc(), &dictionary, own, b"ok", &AUTHENTICATOR)
}

#[test]
fn sends_nothing_for_rejected_accounting(rt: HostRuntime) -> Result<(), Fail> {
    let dictionary = test_dictionary(rt.alloc())?;
    let sent = reply_of(rt.alloc(), &dictionary, ACCOUNTING, b"reject")?;
    assert!(&rt; sent.is_none());
    Ok(())
}
