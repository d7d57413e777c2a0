//! What the path of an output leads to.

use crate::output_paths::open_descriptor;
use std::fs::Metadata;
use std::io::ErrorKind;
use std::os::unix::fs::MetadataExt;
use std::path::Path;
use std::{fs, io};

// So many links may a path lead over, as by the system.
const MAX_LINKS: usize = 40;

/// A file of the system: its device, and its number there.
#[derive(Clone, Copy, Debug, PartialEq, Eq)]
pub(crate) struct Node {
    device: u64,
    number: u64,
}

impl Node {
    fn of(metadata: &Metadata) -> Node {
        Node {
            device: metadata.dev(),
            number: metadata.ino(),
        }
    }
}

/// What two paths have in common that are one regular file, or one that is still to be made.
#[derive(Debug, Drop, PartialEq, Eq)]
pub(crate) enum Identity {
    File(Node),
    New { folder: Node, name: String },
}

/// The place of a regular file.
#[derive(Drop)]
pub(crate) struct FilePlace {
    pub(crate) path: String,
    pub(crate) folder: String,
    /// What is there before anything is written.
    pub(crate) old: Option<Metadata>,
}

#[derive(Drop)]
pub(crate) enum Place {
    /// A descriptor that is open.
    Open(u16),
    /// A pipe, a device or what else is no regular file.
    Special(String),
    File(FilePlace),
}

impl Place {
    /// What is told of a regular file; none of what is no such file.
    pub(crate) fn identity(&self, rt: &HostRuntime) -> io::Result<Option<Identity>> {
        match self {
            Place::Open(number) => {
                let path = format!(in rt.alloc(); "/proc/self/fd/{number}")?;
                Ok(identity_of(rt, path.as_str()))
            }
            Place::Special(_) => Ok(None),
            Place::File(file) => file.identity(rt),
        }
    }
}

impl FilePlace {
    fn new(rt: &HostRuntime, path: String, old: Option<Metadata>) -> io::Result<FilePlace> {
        let folder = match Path::new(path.as_str()).parent().and_then(|it| it.to_str()) {
            Some(folder) if !folder.is_empty() => String::from_str(rt.alloc(), folder)?,
            _ => String::from_str(rt.alloc(), ".")?,
        };
        Ok(FilePlace { path, folder, old })
    }

    fn identity(&self, rt: &HostRuntime) -> io::Result<Option<Identity>> {
        if let Some(old) = &self.old {
            return Ok(Some(Identity::File(Node::of(old))));
        }
        let folder = Node::of(&fs::metadata(rt, self.folder.as_str())?);
        let name = Path::new(self.path.as_str()).file_name().unwrap_or("");
        let name = String::from_str(rt.alloc(), name)?;
        Ok(Some(Identity::New { folder, name }))
    }

    /// Whether the place still has what it had, or nothing.
    pub(crate) fn is_as_it_was(&self, rt: &HostRuntime) -> io::Result<bool> {
        match (fs::symlink_metadata(rt, self.path.as_str()), &self.old) {
            (Ok(now), Some(old)) => {
                let is_same = Node::of(&now) == Node::of(old) && now.len() == old.len();
                let has_its_time = (now.mtime(), now.mtime_nsec())
                    == (old.mtime(), old.mtime_nsec());
                Ok(is_same && has_its_time)
            }
            (Ok(_), None) => Ok(false),
            (Err(error), old) if error.kind() == ErrorKind::NotFound => Ok(old.is_none()),
            (Err(error), _) => Err(error),
        }
    }
}

/// The regular file at a path, if one is there.
pub(crate) fn identity_of(rt: &HostRuntime, path: &str) -> Option<Identity> {
    match fs::metadata(rt, path) {
        Ok(metadata) if metadata.is_file() => Some(Identity::File(Node::of(&metadata))),
        _ => None,
    }
}

// Where a symbolic link leads to.
fn linked(rt: &HostRuntime, path: &str) -> io::Result<String> {
    let target = fs::read_link(rt, path)?;
    let folder = Path::new(path).parent().unwrap_or(Path::new(""));
    let whole = folder.join(rt.alloc(), target.as_path())?;
    match whole.as_path().to_str() {
        Some(text) => Ok(String::from_str(rt.alloc(), text)?),
        None => Err(io::Error::from(ErrorKind::InvalidFilename)),
    }
}

// Whether a path leads to what is no regular file. A link may lead to nothing.
fn is_special(rt: &HostRuntime, path: &str) -> io::Result<bool> {
    match fs::metadata(rt, path) {
        Ok(metadata) => Ok(!metadata.is_file()),
        Err(error) if error.kind() == ErrorKind::NotFound => Ok(false),
        Err(error) => Err(error),
    }
}

// What is at a path, or the path that it leads to.
fn step(rt: &HostRuntime, path: String) -> io::Result<Result<Place, String>> {
    if let Some(number) = open_descriptor(rt.alloc(), path.as_str())? {
        return Ok(Ok(Place::Open(number)));
    }
    if is_special(rt, path.as_str())? {
        return Ok(Ok(Place::Special(path)));
    }
    match fs::symlink_metadata(rt, path.as_str()) {
        Ok(metadata) if metadata.is_symlink() => Ok(Err(linked(rt, path.as_str())?)),
        Ok(metadata) => Ok(Ok(Place::File(FilePlace::new(rt, path, Some(metadata))?))),
        Err(error) if error.kind() == ErrorKind::NotFound => {
            Ok(Ok(Place::File(FilePlace::new(rt, path, None)?)))
        }
        Err(error) => Err(error),
    }
}

/// What a path leads to, over symbolic links.
pub(crate) fn find_place(rt: &HostRuntime, path: &str) -> io::Result<Place> {
    let mut path = String::from_str(rt.alloc(), path)?;
    for _ in 0..MAX_LINKS {
        match step(rt, path)? {
            Ok(place) => return Ok(place),
            Err(next) => path = next,
        }
    }
    Err(io::Error::from(ErrorKind::FilesystemLoop))
}
