//! One call of each that `radpolicy_walk_commands` moves and shows a session by. Where commands lead, and what is
//! shown, is in the cases of tests/walk.

use crate::shared::{CLASS, HEAD, HIDING};
use attribute_tests::samples::test_dictionary;
use avp_dict::Dictionary;
use avp_forms::Profile;
use avp_lists::List;
use radpolicy::{PreparedPolicy, Start};
use radpolicy_walk_commands::{
    Asked, Command, Session, SourceLines, history_text, instances_text, lists_text, read_command,
    trace_text, why_text,
};
use std::alloc::Global;
use std::test::Fail;

const POLICY: &[u8] = b"update reply { Class := 0x01 }\nreject\n";

fn start_of<'a>(alloc: Global, policy: &'a PreparedPolicy<'a>) -> Result<Start<'a>, Fail> {
    let request = b"User-Name = \"bob\"";
    Ok(Start::of_lines(alloc, policy, None, HEAD, Profile::Plain, None, request)?)
}

#[derive(Clone, Copy)]
enum Answer {
    Change,
    Class,
    History,
    Reply,
    Why,
    Trace,
}

// What is shown of a session.
fn shown(
    alloc: Global,
    session: &mut Session<'_>,
    sources: &SourceLines<'_>,
    what: Answer,
) -> Result<Vec<u8>, Fail> {
    Ok(match what {
        Answer::Change => session.change(alloc, Command::Forward(1))?,
        Answer::Class => instances_text(alloc, session, CLASS)?,
        Answer::History => history_text(alloc, session, CLASS)?,
        Answer::Reply => lists_text(alloc, session, Some(List::Reply))?,
        Answer::Why => why_text(alloc, session, sources, sources)?,
        Answer::Trace => trace_text(alloc, session, sources)?,
    })
}

// What is shown at a position.
fn text_at(alloc: Global, position: usize, what: Answer) -> Result<Vec<u8>, Fail> {
    let dictionary: Dictionary = test_dictionary(alloc)?;
    let policy = PreparedPolicy::read(alloc, &dictionary, POLICY)?;
    let sources = SourceLines::new(alloc, POLICY)?;
    let mut session = Session::new(alloc, start_of(alloc, &policy)?, HIDING)?;
    session.follow(&[Command::End, Command::Goto(position)])?;
    if session.position() != position {
        return Err(Fail::new("another position"));
    }
    shown(alloc, &mut session, &sources, what)
}

const TEXTS: [(usize, Answer, &[u8]); 6] = [
    (0, Answer::Change, b"reply\n+ Class = 0x01\n"),
    (1, Answer::Class, b"reply\n  Class = 0x01\n"),
    (
        2,
        Answer::History,
        b"[1 of 2] line 1 ok\nreply\n+ Class = 0x01\n",
    ),
    (1, Answer::Reply, b"reply\n  Class = 0x01\n"),
    (
        2,
        Answer::Why,
        b"the word on line 2 sets the code to reject\n",
    ),
    (
        1,
        Answer::Trace,
        b"  [0 of 2] start ok\n> [1 of 2] line 1 ok | update reply { Class := 0x01 }\n  [2 of 2] word 2 reject | reject\n",
    ),
];

#[test]
fn a_session_is_shown(rt: HostRuntime) -> Result<(), Fail> {
    for (position, what, wanted) in TEXTS {
        let text = text_at(rt.alloc(), position, what)?;
        assert_eq!(&rt; text.as_slice(), wanted);
    }
    Ok(())
}

#[test]
fn a_command_is_read(rt: HostRuntime) -> Result<(), Fail> {
    let dictionary: Dictionary = test_dictionary(rt.alloc())?;
    let asked = read_command(rt.alloc(), &dictionary, " forward\t3 ")?;
    assert_eq!(&rt; asked, Asked::Make(Command::Forward(3)));
    let asked = read_command(rt.alloc(), &dictionary, "foward 3")?;
    assert_eq!(&rt; asked, Asked::Unknown("foward", "forward"));
    Ok(())
}
