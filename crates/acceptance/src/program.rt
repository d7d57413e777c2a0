//! The program without its files and streams: words, named bytes and writers in memory.

ghost use Rattle.std.specs.Prelude.{◌≡◌, [], IfOk, Some, is_some};
ghost use Rattle.radpolicy.specs.Faults.{IsPrintedWith};
ghost use Rattle.radpolicy.specs.Plans.{IsSound, asked_by_job, asked_by_plan, names_of_files, names_of_paths};

use avp_dict::{FileSet, NamedFile};
use avp_lists::Octets;
use radpolicy::{Fault, Job, Plan, WriteOutput, answer, print_fault, read_words, status};
use std::alloc::{AllocError, Global};
use std::io;
use std::io::Write;
use std::process::Abort;
use std::test::Fail;

/// A path and what is there.
pub type Source<'a> = (&'a str, &'a [u8]);

/// The status, and the output, or where the status is not 0 the line of the fault.
pub type End<'a> = (u8, &'a [u8]);

/// What the program left: its status, its standard output and its standard error.
#[derive(Drop)]
pub struct Finished {
    pub status: u8,
    pub output: Vec<u8>,
    pub errors: Vec<u8>,
}

/// A writer that takes some octets, and then fails.
#[derive(Drop)]
pub struct Narrow {
    pub held: Vec<u8>,
    pub room: usize,
}

impl Write for Narrow {
    ghost contents = { λ w. Some w.held.items };

    fn write(&mut self, buf: &[u8]) -> io::Result<usize> {
        let count = buf.len().min(self.room);
        self.held.extend_from_slice(&buf[..count])?;
        self.room -= count;
        Ok(count)
    }

    fn flush(&mut self) -> io::Result<()> {
        Ok(())
    }
}

// What is at a path; nothing if there is no such path.
fn octets_at(alloc: Global, sources: &[Source], path: &str) -> Result<Octets, AllocError> {
    let octets = match sources.iter().find(|source| source.0 == path) {
        Some(source) => Vec::from_slice(alloc, source.1)?,
        None => Vec::new(alloc),
    };
    Ok(Octets::from_vec(octets))
}

fn optional_at(
    alloc: Global,
    sources: &[Source],
    path: Option<&str>,
) -> Result<Option<Octets>, AllocError>
    ensures { IfOk result (λ octets. is_some octets ≡ is_some path.entry) }
{
    match path {
        Some(path) => Ok(Some(octets_at(alloc, sources, path)?)),
        None => Ok(None),
    }
}

fn files_at(alloc: Global, sources: &[Source], paths: &[&str]) -> Result<FileSet, AllocError>
    ensures { IfOk result (λ files. names_of_files files ≡ names_of_paths paths.now) }
{
    let mut files = Vec::new(alloc);
    for path in paths {
        let octets = octets_at(alloc, sources, path)?;
        files.push(NamedFile::at(alloc, path, octets)?)?;
    }
    Ok(FileSet::from_vec(files))
}

/// The job of a plan, `-` being the path of standard input.
pub fn job_of(alloc: Global, sources: &[Source], plan: &Plan) -> Result<Job, AllocError>
    ensures { IfOk result (λ job. asked_by_job job ≡ asked_by_plan plan.now) }
{
    Ok(Job {
        command: plan.command,
        files: files_at(alloc, sources, plan.dictionaries.as_slice())?,
        request: octets_at(alloc, sources, plan.request.unwrap_or("-"))?,
        form: plan.form,
        identifier: plan.identifier,
        authenticator: plan.authenticator,
        policy: optional_at(alloc, sources, plan.policy)?,
        secret: optional_at(alloc, sources, plan.secret)?,
        script: optional_at(alloc, sources, plan.script)?,
    })
}

// The line of a fault.
fn line_of(alloc: Global, fault: &Fault, files: &FileSet) -> Vec<u8>
    requires { IsPrintedWith files.now fault.now }
{
    let mut line = Vec::new(alloc);
    let _ = print_fault(fault, files, &mut WriteOutput::new(&mut line));
    line
}

// Does a job, and prints its fault if there is one.
fn finish(alloc: Global, job: &Job) -> Finished
    requires { IsSound (asked_by_job job.now) }
{
    let mut output = Vec::new(alloc);
    match answer(alloc, job, &mut WriteOutput::new(&mut output)) {
        Ok(_) => Finished {
            status: 0,
            output,
            errors: Vec::new(alloc),
        },
        Err(fault) => Finished {
            status: status(&fault),
            output,
            errors: line_of(alloc, &fault, &job.files),
        },
    }
}

// Prints the fault of the words.
fn refuse(alloc: Global, fault: &Fault) -> Finished
    requires { IsPrintedWith [] fault.now }
{
    Finished {
        status: status(fault),
        output: Vec::new(alloc),
        errors: line_of(alloc, fault, &FileSet::from_vec(Vec::new(alloc))),
    }
}

/// The program on these words, which do not ask for its help.
pub fn program(alloc: Global, words: &[&str], sources: &[Source]) -> Result<Finished, Fail> {
    match read_words(alloc, words) {
        Ok(plan) => {
            let job = job_of(alloc, sources, &plan)?;
            Ok(finish(alloc, &job))
        }
        Err(Fault::Help) => Err("words that ask for help")?,
        Err(fault) => Ok(refuse(alloc, &fault)),
    }
}

/// The words of a command line.
pub fn words_of<'a>(alloc: Global, text: &'a str) -> Result<Vec<&'a str>, AllocError> {
    let mut words = Vec::new(alloc);
    for word in text.split_whitespace() {
        words.push(word)?;
    }
    Ok(words)
}

/// The program on these words ends so, and prints nothing else.
pub fn expect_end(
    rt: &impl Abort,
    alloc: Global,
    words: &str,
    sources: &[Source],
    end: End<'_>,
) -> Result<(), Fail> {
    let words = words_of(alloc, words)?;
    let finished = program(alloc, &words, sources)?;
    let (status, wanted) = end;
    let nothing: &[u8] = b"";
    let (output, errors) = if status == 0 {
        (wanted, nothing)
    } else {
        (nothing, wanted)
    };
    assert_eq!(rt; finished.errors.as_slice(), errors);
    assert_eq!(rt; finished.status, status);
    assert_eq!(rt; finished.output.as_slice(), output);
    Ok(())
}

/// The program on these words has a write fault at a writer of this room, and put out the front of the report.
pub fn expect_write_fault(
    rt: &impl Abort,
    alloc: Global,
    words: &str,
    sources: &[Source],
    front: &[u8],
) -> Result<(), Fail> {
    let words = words_of(alloc, words)?;
    let plan = read_words(alloc, &words).map_err(|_| "a plan")?;
    let job = job_of(alloc, sources, &plan)?;
    let mut writer = Narrow {
        held: Vec::new(alloc),
        room: front.len(),
    };
    let refused = answer(alloc, &job, &mut WriteOutput::new(&mut writer));
    assert!(rt; matches!(&refused, Err(Fault::Write)));
    assert_eq!(rt; status(&Fault::Write), 3);
    assert_eq!(rt; writer.held.as_slice(), front);
    Ok(())
}
