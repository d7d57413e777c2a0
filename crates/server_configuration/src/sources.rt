//! Where a configuration's files come from.

use std::alloc::{AllocError, Global};
use std::fs::{File, Metadata};
use std::io::{ErrorKind, Read};
use std::{fs, io};

/// A file that was read.
#[derive(Debug, Drop, PartialEq, Eq)]
pub struct SourceFile {
    pub path: Vec<u8>,
    pub octets: Vec<u8>,
    /// How many includes lead to it: none to the first file.
    pub depth: usize,
}

/// Why a file or a folder is not read.
#[derive(Clone, Copy, Debug, PartialEq, Eq)]
pub enum Unread {
    Memory,
    /// It is not there.
    Missing,
    /// Whoever runs the program has no permission to read it, or to look into a folder on the way to it.
    Forbidden,
    /// It is neither a file nor a folder, and the command line doesn't name it.
    NotRegular,
    /// It cannot be read for another reason.
    Unreadable,
    /// It has more octets than were asked for.
    TooLong,
}

impl From<AllocError> for Unread {
    fn from(_error: AllocError) -> Unread {
        Unread::Memory
    }
}

/// The files among which a configuration is.
pub trait Files {
    /// What the file at a path holds, at most so many octets.
    fn octets(&self, alloc: Global, path: &[u8], limit: usize) -> Result<Vec<u8>, Unread>;

    /// The names in a folder, in any order. Its path ends in `/`.
    fn names(&self, alloc: Global, folder: &[u8]) -> Result<Vec<Vec<u8>>, Unread>;

    /// Whether there is a folder at a path. Symbolic links are followed.
    fn is_folder(&self, path: &[u8]) -> bool;
}

/// The files of the system. What is no regular file, as a pipe, is read only at a path that the command line names: one
/// that is included would be waited for.
#[derive(Clone, Copy)]
pub struct SystemFiles<'a> {
    runtime: &'a HostRuntime,
    named: &'a [&'a str],
}

impl<'a> SystemFiles<'a> {
    pub fn new(runtime: &'a HostRuntime, named: &'a [&'a str]) -> SystemFiles<'a> {
        SystemFiles { runtime, named }
    }

    // Whether what is at a path may be read, whatever it is.
    fn is_named(&self, path: &str) -> bool {
        self.named.iter().any(|named| *named == path)
    }

    // What is no regular file is not even opened, which could wait; should it come meanwhile, it is not read.
    fn open(&self, path: &str) -> Result<File, Unread> {
        if self.is_named(path) {
            return File::open(self.runtime, path).map_err(|error| unread_of(&error));
        }
        regular(fs::metadata(self.runtime, path))?;
        match File::open(self.runtime, path) {
            Ok(file) => match regular(file.metadata()) {
                Ok(()) => Ok(file),
                Err(unread) => Err(unread),
            },
            Err(error) => Err(unread_of(&error)),
        }
    }
}

fn unread_of(error: &io::Error) -> Unread {
    match error.kind() {
        ErrorKind::OutOfMemory => Unread::Memory,
        ErrorKind::NotFound | ErrorKind::NotADirectory => Unread::Missing,
        ErrorKind::PermissionDenied => Unread::Forbidden,
        _ => Unread::Unreadable,
    }
}

// Refuses what is no regular file.
fn regular(found: io::Result<Metadata>) -> Result<(), Unread> {
    match found {
        Ok(metadata) if metadata.is_file() => Ok(()),
        Ok(metadata) if metadata.is_dir() => Err(Unread::Unreadable),
        Ok(_) => Err(Unread::NotRegular),
        Err(error) => Err(unread_of(&error)),
    }
}

// At most one octet more than the limit.
fn read_open(alloc: Global, file: File, limit: usize) -> io::Result<Vec<u8>> {
    let mut octets = Vec::new(alloc);
    file.take((limit as u64).saturating_add(1))
        .read_to_end(&mut octets)?;
    Ok(octets)
}

// Names that are no UTF-8 are left out: no include takes them.
fn read_names(rt: &HostRuntime, folder: &str) -> io::Result<Vec<Vec<u8>>> {
    let mut names = Vec::new(rt.alloc());
    for entry in fs::read_dir(rt, folder)? {
        match entry {
            Ok(entry) => {
                names.push(Vec::from_slice(rt.alloc(), entry.file_name().as_bytes())?)?;
            }
            Err(error) if error.kind() == ErrorKind::InvalidFilename => {}
            Err(error) => return Err(error),
        }
    }
    Ok(names)
}

impl Files for SystemFiles<'_> {
    fn octets(&self, alloc: Global, path: &[u8], limit: usize) -> Result<Vec<u8>, Unread> {
        let Ok(path) = str::from_utf8(path) else {
            return Err(Unread::Missing);
        };
        match read_open(alloc, self.open(path)?, limit) {
            Ok(octets) if octets.len() > limit => Err(Unread::TooLong),
            Ok(octets) => Ok(octets),
            Err(error) => Err(unread_of(&error)),
        }
    }

    fn names(&self, _alloc: Global, folder: &[u8]) -> Result<Vec<Vec<u8>>, Unread> {
        let Ok(folder) = str::from_utf8(folder) else {
            return Err(Unread::Missing);
        };
        match read_names(self.runtime, folder) {
            Ok(names) => Ok(names),
            Err(error) => Err(unread_of(&error)),
        }
    }

    fn is_folder(&self, path: &[u8]) -> bool {
        match str::from_utf8(path) {
            Ok(path) => match fs::metadata(self.runtime, path) {
                Ok(metadata) => metadata.is_dir(),
                Err(_) => false,
            },
            Err(_) => false,
        }
    }
}
