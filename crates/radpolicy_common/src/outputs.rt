//! Writing the files of a program's call: each of them whole or not at all, and nothing lost that was there.

use crate::marks::{Comments, is_marked, marked};
use crate::new_files::NewFile;
use crate::output_faults::{OutputFault, Refusal, STANDARD_OUTPUT};
use crate::places::{FilePlace, Identity, Place, find_place, identity_of};
use std::alloc::AllocError;
use std::fs::{File, OpenOptions};
use std::io;
use std::io::{ErrorKind, Read, Write};

// More than any file has that a program writes.
const MAX_OLD_OCTETS: u64 = 67_108_864;

/// Where a text goes.
#[derive(Clone, Copy)]
pub struct Output<'a> {
    /// Standard output where there is none.
    pub path: Option<&'a str>,
    pub comments: Comments,
}

/// What has to be known of a call that writes files.
#[derive(Clone, Copy)]
pub struct Call<'a> {
    pub program: &'static str,
    /// Whether files may be replaced that the program did not write.
    pub is_forced: bool,
    /// The paths of all files that it read.
    pub inputs: &'a [&'a str],
}

// An output, and what its path leads to.
#[derive(Drop)]
struct Target<'a> {
    path: Option<&'a str>,
    comments: Comments,
    place: Place,
    identity: Option<Identity>,
}

/// The outputs of a call, none of which is another one or an input.
#[derive(Drop)]
pub struct Outputs<'a> {
    program: &'static str,
    targets: Vec<Target<'a>>,
}

// What a file holds, or the beginning of it.
fn read_old(rt: &HostRuntime, path: &str) -> io::Result<Vec<u8>> {
    let mut octets = Vec::new(rt.alloc());
    File::open(rt, path)?
        .take(MAX_OLD_OCTETS)
        .read_to_end(&mut octets)?;
    Ok(octets)
}

impl<'a> Target<'a> {
    fn find(rt: &HostRuntime, output: Output<'a>) -> io::Result<Target<'a>> {
        let place = match output.path {
            Some(path) => find_place(rt, path)?,
            None => Place::Open(1),
        };
        let identity = place.identity(rt)?;
        Ok(Target {
            path: output.path,
            comments: output.comments,
            place,
            identity,
        })
    }

    fn refused(&self, refusal: Refusal) -> OutputFault<'a> {
        OutputFault::Refused(self.path.unwrap_or(STANDARD_OUTPUT), refusal)
    }

    // Whether the file at the place is one of the program, as it wrote it.
    fn is_own(
        &self,
        rt: &HostRuntime,
        program: &str,
        file: &FilePlace,
    ) -> Result<bool, AllocError> {
        match read_old(rt, file.path.as_str()) {
            Ok(octets) => is_marked(rt.alloc(), self.comments, program, &octets),
            Err(error) if error.kind() == ErrorKind::OutOfMemory => Err(AllocError),
            Err(_) => Ok(false),
        }
    }

    fn is_same_file(&self, other: &Target<'_>) -> bool {
        self.identity.is_some() && self.identity == other.identity
    }

    // Refuses what would be lost.
    fn spare(&self, rt: &HostRuntime, call: Call<'_>) -> Result<(), OutputFault<'a>> {
        let Place::File(file) = &self.place else {
            return Ok(());
        };
        if file.old.is_none() || call.is_forced || self.is_own(rt, call.program, file)? {
            return Ok(());
        }
        Err(self.refused(Refusal::Foreign))
    }

    // Refuses a file that is read.
    fn keep_apart(&self, rt: &HostRuntime, inputs: &[&str]) -> Result<(), OutputFault<'a>> {
        for input in inputs {
            if self.identity.is_some() && identity_of(rt, input) == self.identity {
                return Err(self.refused(Refusal::Input));
            }
        }
        Ok(())
    }
}

// Refuses two outputs that are one file.
fn keep_distinct<'a>(targets: &[Target<'a>]) -> Result<(), OutputFault<'a>> {
    for (place, target) in targets.iter().enumerate() {
        let mut earlier = targets.iter().take(place);
        if earlier.any(|other| other.is_same_file(target)) {
            return Err(target.refused(Refusal::Output));
        }
    }
    Ok(())
}

// Writes to what is no regular file.
fn write_special(rt: &HostRuntime, path: &str, text: &[u8]) -> io::Result<()> {
    OpenOptions::new()
        .write(true)
        .open(rt, path)?
        .write_all(text)
}

// Whether the system tells of a descriptor that it was opened to be read alone: its flags are octal digits, of which the
// last is 0 then.
fn is_read_alone(told: &[u8]) -> bool {
    told.split(|octet| *octet == b'\n')
        .any(|line| line.starts_with(b"flags:") && line.ends_with(b"0"))
}

// Refuses a descriptor that was opened to be read alone, which would be written to where its file is opened once more.
fn keep_writable(rt: &HostRuntime, number: u16) -> io::Result<()> {
    let path = format!(in rt.alloc(); "/proc/self/fdinfo/{number}")?;
    if is_read_alone(&read_old(rt, path.as_str())?) {
        return Err(io::Error::from(ErrorKind::PermissionDenied));
    }
    Ok(())
}

// Writes to what a program was given open. A file there is opened once more, and written to at its end: so nothing of it
// is lost, wherever the descriptor stands.
fn write_open(rt: &HostRuntime, number: u16, text: &[u8]) -> io::Result<()> {
    match number {
        1 => rt.stdout().write_all(text),
        2 => rt.stderr().write_all(text),
        _ => {
            keep_writable(rt, number)?;
            let path = format!(in rt.alloc(); "/proc/self/fd/{number}")?;
            OpenOptions::new()
                .append(true)
                .open(rt, path.as_str())?
                .write_all(text)
        }
    }
}

impl<'a> Outputs<'a> {
    /// Where the outputs go, if nothing is lost by that. Nothing is written yet.
    pub fn plan(
        rt: &HostRuntime,
        call: Call<'_>,
        outputs: &[Output<'a>],
    ) -> Result<Outputs<'a>, OutputFault<'a>> {
        let mut targets = Vec::new(rt.alloc());
        for output in outputs {
            match Target::find(rt, *output) {
                Ok(target) => targets.push(target)?,
                Err(error) => return Err(OutputFault::unwritten(output.path, error)),
            }
        }
        keep_distinct(&targets)?;
        for target in &targets {
            target.keep_apart(rt, call.inputs)?;
        }
        for target in &targets {
            target.spare(rt, call)?;
        }
        Ok(Outputs {
            program: call.program,
            targets,
        })
    }

    /// Whether the output of this path has the program's line, as regular files have.
    pub fn has_mark(&self, path: Option<&str>) -> bool {
        self.targets.iter().any(|target| target.path == path
            && matches!(target.place, Place::File(_)))
    }

    /// Writes a text to each of them. If it fails, none of the new files stays beside its place.
    pub fn write(&self, rt: &HostRuntime, texts: &[&[u8]]) -> Result<(), OutputFault<'a>> {
        let mut drafts = Vec::new(rt.alloc());
        for (target, text) in self.targets.iter().zip(texts) {
            drafts.push(Draft::new(rt, self.program, target, text)?)?;
        }
        let written = write_drafts(rt, &mut drafts);
        for draft in &mut drafts {
            draft.remove(rt);
        }
        written
    }
}

// The text of an output, and the file beside its place that is to have it.
#[derive(Drop)]
struct Draft<'t, 'a> {
    target: &'t Target<'a>,
    text: Vec<u8>,
    file: Option<NewFile>,
}

impl<'t, 'a> Draft<'t, 'a> {
    fn new(
        rt: &HostRuntime,
        program: &str,
        target: &'t Target<'a>,
        text: &[u8],
    ) -> Result<Draft<'t, 'a>, OutputFault<'a>> {
        let Place::File(place) = &target.place else {
            let text = Vec::from_slice(rt.alloc(), text)?;
            return Ok(Draft {
                target,
                text,
                file: None,
            });
        };
        let text = marked(rt.alloc(), target.comments, program, text)?;
        match NewFile::beside(rt, place) {
            Ok(file) => Ok(Draft {
                target,
                text,
                file: Some(file),
            }),
            Err(error) => Err(OutputFault::unwritten(target.path, error)),
        }
    }

    // Writes the file beside its place.
    fn fill(&mut self, rt: &HostRuntime) -> Result<(), OutputFault<'a>> {
        match (&mut self.file, &self.target.place) {
            (Some(file), Place::File(place)) => match file.fill(rt, place, &self.text) {
                Ok(()) => Ok(()),
                Err(misplaced) => Err(OutputFault::of(self.target.path, misplaced)),
            },
            _ => Ok(()),
        }
    }

    // Writes what goes to no regular file.
    fn write_through(&self, rt: &HostRuntime) -> Result<(), OutputFault<'a>> {
        let written = match &self.target.place {
            Place::Open(number) => write_open(rt, *number, &self.text),
            Place::Special(path) => write_special(rt, path.as_str(), &self.text),
            Place::File(_) => Ok(()),
        };
        match written {
            Ok(()) => Ok(()),
            Err(error) => Err(OutputFault::unwritten(self.target.path, error)),
        }
    }

    // Puts the file at its place.
    fn put(&mut self, rt: &HostRuntime) -> Result<(), OutputFault<'a>> {
        match (&mut self.file, &self.target.place) {
            (Some(file), Place::File(place)) => match file.put(rt, place) {
                Ok(()) => Ok(()),
                Err(misplaced) => Err(OutputFault::of(self.target.path, misplaced)),
            },
            _ => Ok(()),
        }
    }

    fn remove(&mut self, rt: &HostRuntime) {
        if let Some(file) = &mut self.file {
            file.remove(rt);
        }
    }
}

// All files are whole before anything is written elsewhere, and before the first is at its place.
fn write_drafts<'a>(rt: &HostRuntime, drafts: &mut [Draft<'_, 'a>]) -> Result<(), OutputFault<'a>> {
    for draft in &mut *drafts {
        draft.fill(rt)?;
    }
    for draft in &*drafts {
        draft.write_through(rt)?;
    }
    for draft in drafts {
        draft.put(rt)?;
    }
    Ok(())
}
