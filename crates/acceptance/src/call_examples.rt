//! The examples in the doc comments of calls that need a job or a command line, as tests.

ghost use Rattle.radpolicy.specs.Plans.{IsSound, asked_by_job};

use crate::commands::RUN;
use crate::program::{Source, job_of, words_of};
use attribute_tests::samples::{TEST_DICTIONARY, test_dictionary};
use avp_dict::{Dictionary, FileSet};
use avp_forms::Profile;
use avp_lists::{List, Store};
use avp_unlang::{Code, PolicyFault, PolicyKind};
use radpolicy::{
    Command, Fault, Job, OwnedPolicy, PreparedPolicy, RequestHead, RequestKind, Runner, Secret,
    Start, WriteOutput, answer, help_text, option_text, print_fault, print_named_fault, read_input,
    read_words, status,
};
use std::alloc::Global;
use std::process::Abort;
use std::test::Fail;

// Example: read_words
fn reads_words(rt: &impl Abort, alloc: Global) -> Result<(), Fail> {
    let words = ["radpolicy", "check", "--policy", "policy", "dictionary"];
    let plan = read_words(alloc, &words)?;
    assert_eq!(rt; plan.command, Command::Check);
    assert_eq!(rt; plan.policy, Some("policy"));
    let refused = read_words(alloc, &["radpolicy", "walk"]).err();
    assert_eq!(rt; refused, Some(Fault::Usage));
    Ok(())
}

// Example: option_text
fn says_which_option(rt: &impl Abort, alloc: Global) -> Result<(), Fail> {
    let words = [
        "radpolicy",
        "run",
        "-i",
        "256",
        "--policy",
        "policy",
        "dictionary",
    ];
    assert_eq!(rt;
        option_text(alloc, &words)?,
        "-i takes a number from 0 to 255"
    );
    Ok(())
}

// Example: help_text
fn helps(rt: &impl Abort, alloc: Global) -> Result<(), Fail> {
    let help = help_text(alloc, &["radpolicy", "run", "--help"])?;
    assert!(rt; help.as_str().contains("--policy"));
    Ok(())
}

// Example: print_fault
fn prints_a_fault(rt: &impl Abort, alloc: Global) {
    let files = FileSet::from_vec(Vec::new(alloc));
    let mut line = Vec::new(alloc);
    let printed = print_fault(&Fault::Usage, &files, &mut WriteOutput::new(&mut line));
    assert!(rt; printed);
    assert_eq!(rt; line.as_slice(), b"radpolicy: E01: usage\n".as_slice());
}

// Example: print_named_fault
fn prints_a_fault_under_a_name(rt: &impl Abort, alloc: Global) {
    let files = FileSet::from_vec(Vec::new(alloc));
    let mut line = Vec::new(alloc);
    let mut out = WriteOutput::new(&mut line);
    assert!(rt; print_named_fault(b"radpolicy-walk", &Fault::Usage, &files, &mut out));
    assert_eq!(rt; line.as_slice(), b"radpolicy-walk: E01: usage\n".as_slice());
}

// Example: status
fn gives_statuses(rt: &impl Abort) {
    assert_eq!(rt; status(&Fault::Usage), 2);
    assert_eq!(rt; status(&Fault::FileNotReadable), 3);
    assert_eq!(rt; status(&Fault::Memory), 4);
}

// Example: read_input
fn reads_an_input(rt: &impl Abort, alloc: Global) -> Result<(), Fail> {
    let request = read_input(alloc, b"NAS-Port = 3\n".as_slice())?.ok_or("too long")?;
    assert_eq!(rt; request.as_slice(), b"NAS-Port = 3\n".as_slice());
    Ok(())
}

// Example: answer
fn does_a_job(rt: &impl Abort, alloc: Global, job: &Job) -> Result<(), Fail>
    requires { IsSound (asked_by_job job.now) }
{
    // The job runs the policy `reject`.
    let mut report = Vec::new(alloc);
    let outcome = answer(alloc, job, &mut WriteOutput::new(&mut report))?;
    assert_eq!(rt; (outcome.code, outcome.stopped), (Some(Code::Reject), true));
    assert!(rt; report.ends_with(b"control\nresult reject stopped\n"));
    Ok(())
}

// Example: Secret::in_file
fn takes_secrets(rt: &impl Abort) -> Result<(), Fail> {
    let secret = Secret::in_file(b"testing123\r\n")?;
    assert_eq!(rt; secret.as_slice(), b"testing123".as_slice());
    assert_eq!(rt; Secret::in_file(b"\n").err(), Some(Fault::EmptySecret));
    Ok(())
}

// Example: PreparedPolicy::read
fn prepares(rt: &impl Abort, alloc: Global, dictionary: &Dictionary) -> Result<(), Fail> {
    let prepared = PreparedPolicy::read(alloc, dictionary, b"update reply { Class := 0x01 }")?;
    assert_eq!(rt; prepared.policy().statements().len(), 1);
    let refused = PreparedPolicy::read(alloc, dictionary, b"rejected").err();
    let (line, offset, kind) = (1, 0, PolicyKind::Misplaced);
    assert_eq!(rt;
        refused,
        Some(Fault::Policy(PolicyFault { line, offset, kind }))
    );
    Ok(())
}

// Example: OwnedPolicy::read_by
fn shares_a_dictionary(rt: &impl Abort, alloc: Global, dictionary: Dictionary) -> Result<(), Fail> {
    let first = OwnedPolicy::read(alloc, dictionary, b"reject")?;
    let second = OwnedPolicy::read_by(alloc, first.share_dictionary()?, b"ok")?;
    drop(first);
    assert_eq!(rt; second.prepared().policy().statements().len(), 1);
    Ok(())
}

// Example: OwnedPolicy::prepared
fn lends(rt: &impl Abort, alloc: Global, owned: &OwnedPolicy) -> Result<(), Fail> {
    // The policy is `reject`.
    let prepared = owned.prepared();
    let (kind, id, authenticator) = (RequestKind::Access, 7, None);
    let head = RequestHead {
        kind,
        id,
        authenticator,
    };
    let outcome = Start::of_lines(
        alloc,
        &prepared,
        None,
        head,
        Profile::Plain,
        None,
        b"NAS-Port = 3",
    )?
    .run(alloc)?;
    assert_eq!(rt; (outcome.code(), outcome.stopped()), (Code::Reject, true));
    Ok(())
}

// Example: Start::run
fn runs(rt: &impl Abort, alloc: Global, prepared: &PreparedPolicy<'_>) -> Result<(), Fail> {
    // The policy is `update reply { Session-Timeout := 600 }`.
    let (kind, id, authenticator) = (RequestKind::Access, 7, None);
    let head = RequestHead {
        kind,
        id,
        authenticator,
    };
    let start = Start::of_lines(
        alloc,
        prepared,
        None,
        head,
        Profile::Plain,
        None,
        b"NAS-Port = 3",
    )?;
    let outcome = start
        .with_reply_lines(alloc, Profile::Plain, None, b"Class = 0x01")?
        .run(alloc)?;
    assert_eq!(rt; outcome.store().count(List::Reply), 2);
    let report = outcome.text(alloc)?;
    assert!(rt; report.ends_with(b"  Session-Timeout = 600\ncontrol\nresult ok\n"));
    Ok(())
}

// Example: Runner::run
fn runs_again(rt: &impl Abort, alloc: Global, prepared: &PreparedPolicy<'_>) -> Result<(), Fail> {
    // The policy is `update reply { Session-Timeout := 600 }`.
    let mut runner = Runner::new(alloc, prepared);
    let (kind, id, authenticator) = (RequestKind::Access, 7, None);
    let head = RequestHead {
        kind,
        id,
        authenticator,
    };
    let start = Start::of_lines(
        alloc,
        prepared,
        None,
        head,
        Profile::Plain,
        None,
        b"NAS-Port = 3",
    )?;
    assert_eq!(rt; runner.run(start)?.store().count(List::Reply), 1);
    Ok(())
}

#[test]
fn prepared_policies(rt: HostRuntime) -> Result<(), Fail> {
    takes_secrets(&rt)?;
    let alloc = rt.alloc();
    let dictionary = test_dictionary(alloc)?;
    prepares(&rt, alloc, &dictionary)?;
    let text = b"update reply { Session-Timeout := 600 }";
    let prepared = PreparedPolicy::read(alloc, &dictionary, text)?;
    runs(&rt, alloc, &prepared)?;
    runs_again(&rt, alloc, &prepared)?;
    drop(prepared);
    lends(
        &rt,
        alloc,
        &OwnedPolicy::read(alloc, dictionary, b"reject")?,
    )?;
    shares_a_dictionary(&rt, alloc, test_dictionary(alloc)?)
}

#[test]
fn texts(rt: HostRuntime) -> Result<(), Fail> {
    reads_words(&rt, rt.alloc())?;
    says_which_option(&rt, rt.alloc())?;
    helps(&rt, rt.alloc())?;
    prints_a_fault(&rt, rt.alloc());
    prints_a_fault_under_a_name(&rt, rt.alloc());
    gives_statuses(&rt);
    reads_an_input(&rt, rt.alloc())
}

fn answer_run(rt: &impl Abort, alloc: Global) -> Result<(), Fail> {
    let sources: [Source; 3] = [
        ("d", TEST_DICTIONARY),
        ("-", b"NAS-Port = 3"),
        ("p", b"reject"),
    ];
    let words = words_of(alloc, RUN)?;
    let plan = read_words(alloc, &words)?;
    let job = job_of(alloc, &sources, &plan)?;
    does_a_job(rt, alloc, &job)
}

#[test]
fn runs_a_job(rt: HostRuntime) -> Result<(), Fail> {
    answer_run(&rt, rt.alloc())
}
