//! One call of each that `radpolicy_help` makes texts by. What they say of each mistake, warning and stop is in the
//! cases of tests/help.

use attribute_tests::samples::{TEST_DICTIONARY, one_file, test_dictionary};
use avp_dict::FileSet;
use avp_lists::Octets;
use avp_unlang::read_policy;
use radpolicy::{Command, Fault, Form, Job, WriteOutput};
use radpolicy_help::{
    Source, Sources, explain, explain_name, explain_unread, explain_words, point_at,
    print_with_help, stop_text, warnings_text,
};
use std::alloc::Global;
use std::test::Fail;

// The files of a job with a policy.
fn sources<'a>(files: &'a FileSet, policy: &'a [u8]) -> Sources<'a> {
    let nothing = Source {
        path: "",
        text: &[],
    };
    Sources {
        files,
        dictionaries: &["d"],
        request: nothing,
        policy: Source {
            path: "rate",
            text: policy,
        },
        script: nothing,
        secret: "",
        is_request_wider: false,
        hidden: &[],
    }
}

#[test]
fn a_fault_is_explained(rt: HostRuntime) -> Result<(), Fail> {
    let alloc = rt.alloc();
    let files = one_file(alloc, TEST_DICTIONARY)?;
    let dictionary = test_dictionary(alloc)?;
    let policy = b"if (&User-Name = \"bob\") { reject }";
    let Err(fault) = read_policy(alloc, &dictionary, policy) else {
        return Err(Fail::new("it is a policy"));
    };
    let help = explain(alloc, &Fault::from(fault), &sources(&files, policy))?;
    let wanted = b"rate:1:16
    if (&User-Name = \"bob\") { reject }
                   ^
found =; here may be one of == != < <= > >= && || )
to compare, write ==; = and := set attributes
";
    assert_eq!(rt; help.as_slice(), wanted.as_slice());
    Ok(())
}

#[test]
fn names_words_and_paths_are_explained(rt: HostRuntime) -> Result<(), Fail> {
    let alloc = rt.alloc();
    let help = explain_name(alloc, &test_dictionary(alloc)?, "Session-Timeot")?;
    let wanted = b"no attribute has the name Session-Timeot\nwrite Session-Timeout\n";
    assert_eq!(rt; help.as_slice(), wanted.as_slice());
    let mut words = Vec::new(alloc);
    for word in ["radpolicy", "run", "-i", "256", "--policy", "p", "d"] {
        words.push(String::from_str(alloc, word)?)?;
    }
    let help = explain_words(alloc, &Fault::OptionValue, &words)?;
    assert!(rt; help.starts_with(b"-i takes a number from 0 to 255\n"));
    let help = explain_unread(alloc, "a/b/", true)?;
    assert!(rt; help.ends_with(b"write its files: a/b/dictionary*\n"));
    Ok(())
}

#[test]
fn a_place_is_shown(rt: HostRuntime) -> Result<(), Fail> {
    let alloc = rt.alloc();
    let pointed = point_at(alloc, b"\t\x1b\xe6\x97\xa5", b"x")?;
    let line = b"    \\033\xe6\x97\xa5x";
    assert_eq!(rt; pointed.line.as_slice(), line.as_slice());
    assert_eq!(rt; pointed.caret.as_slice(), b"          ^".as_slice());
    let files = FileSet::from_vec(Vec::new(alloc));
    let mut text = Vec::new(alloc);
    let mut out = WriteOutput::new(&mut text);
    assert!(rt; print_with_help(&Fault::Usage, &files, b"help\n", &mut out));
    assert_eq!(rt;
        text.as_slice(),
        b"radpolicy: E01: usage\nhelp\n".as_slice()
    );
    Ok(())
}

fn job(alloc: Global, policy: &[u8]) -> Result<Job, Fail> {
    Ok(Job {
        command: Command::Run,
        files: one_file(alloc, TEST_DICTIONARY)?,
        request: Octets::from_slice(alloc, b"NAS-Port = 3")?,
        form: Form::Access,
        identifier: 0,
        authenticator: None,
        secret: None,
        policy: Some(Octets::from_slice(alloc, policy)?),
        script: None,
    })
}

#[test]
fn warnings_and_stops_are_told(rt: HostRuntime) -> Result<(), Fail> {
    let alloc = rt.alloc();
    let policy = b"ok # allow: absent-comparison\nreject\n";
    let job = job(alloc, policy)?;
    let sources = sources(&job.files, policy);
    let warned = warnings_text(alloc, &sources)?;
    let first = b"rate:1: warning: the comment silences no warning [unused-allow]\n";
    assert!(rt; warned.starts_with(first));
    let stopped = stop_text(alloc, &sources, &job)?;
    let wanted = b"rate:2: reject: the run was stopped here\n";
    assert_eq!(rt; stopped.as_slice(), wanted.as_slice());
    Ok(())
}
