//! Jobs of command lines, over files that are in memory.

ghost use Rattle.std.specs.Prelude.{◌≡◌, ◌⊎◌, None, IfErr};

use avp_lists::Octets;
use radpolicy::{Job, read_words};
use radpolicy_common::{Inputs, Unread, job_of};
use std::alloc::Global;
use std::test::Fail;

// Each file holds its own path, and standard input holds a hyphen. A path with an x in it can't be read.
#[derive(Drop)]
struct PathsAsFiles(Global);

fn held<'a>(alloc: Global, name: &'a str) -> Result<Octets, Unread<'a>>
    ensures { IfErr result (λ unread.
        (unread ≡ Unread.Memory) ⊎ (unread ≡ Unread.File name.entry)) }
{
    if name.contains('x') {
        return Err(Unread::File(name));
    }
    Ok(Octets::from_slice(alloc, name.as_bytes())?)
}

impl Inputs for PathsAsFiles {
    ghost contents = { λ _. None };

    fn allocator(&self) -> Global {
        self.0
    }

    fn file<'a>(&self, path: &'a str) -> Result<Octets, Unread<'a>> {
        held(self.0, path)
    }

    fn standard_input(&self) -> Result<Octets, Unread<'static>> {
        held(self.0, "-")
    }
}

fn is_held(octets: &Option<Octets>, path: &str) -> bool {
    octets
        .as_ref()
        .is_some_and(|octets| octets.as_slice() == path.as_bytes())
}

fn job<'a>(alloc: Global, words: &'a [&'a str]) -> Option<Result<Job, Unread<'a>>> {
    let plan = read_words(alloc, words).ok()?;
    Some(job_of(&PathsAsFiles(alloc), &plan))
}

fn job_made<'a>(alloc: Global, words: &'a [&'a str]) -> Result<Job, Fail> {
    match job(alloc, words) {
        Some(Ok(job)) => Ok(job),
        _ => Err(Fail::new("no job")),
    }
}

#[test]
fn a_job_has_what_the_files_of_its_options_hold(rt: HostRuntime) -> Result<(), Fail> {
    let words = [
        "radpolicy",
        "step",
        "--hex",
        "-S",
        "s",
        "--script",
        "moves",
        "-f",
        "r",
        "--policy",
        "p",
        "a",
        "b/c",
    ];
    let job = job_made(rt.alloc(), &words)?;
    assert!(rt; is_held(&job.policy, "p"));
    assert!(rt; is_held(&job.secret, "s"));
    assert!(rt; is_held(&job.script, "moves"));
    assert_eq!(rt; job.request.as_slice(), b"r".as_slice());
    let files = job.files.as_slice();
    assert_eq!(rt; files.len(), 2);
    assert_eq!(rt; files[1].name.as_slice(), b"c".as_slice());
    assert_eq!(rt; files[1].octets.as_slice(), b"b/c".as_slice());
    Ok(())
}

// Words, and the first file of theirs that can't be read.
const UNREADABLE: [(&[&str], &str); 3] = [
    (&["radpolicy", "check", "--policy", "px", "a", "x"], "x"),
    (
        &["radpolicy", "run", "--policy", "px", "-f", "rx", "a"],
        "rx",
    ),
    (
        &["radpolicy", "step", "--script", "x", "--policy", "px", "a"],
        "px",
    ),
];

#[test]
fn a_job_has_no_more_than_was_read(rt: HostRuntime) -> Result<(), Fail> {
    for (words, path) in UNREADABLE {
        let made = job(rt.alloc(), words);
        assert!(rt; matches!(made, Some(Err(Unread::File(named))) if named == path));
    }
    let job = job_made(rt.alloc(), &["radpolicy", "check", "a"])?;
    assert!(rt; job.request.as_slice().is_empty());
    assert!(rt; job.policy.is_none());
    Ok(())
}
