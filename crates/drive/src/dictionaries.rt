//! Dictionaries, of a text and of files.

use avp_dict::{Dictionary, FileSet, NamedFile};
use avp_lists::Octets;
use std::alloc::Global;
use std::{fs, io};

fn of_set(alloc: Global, files: Vec<NamedFile>) -> io::Result<Dictionary> {
    let set = FileSet::from_vec(files);
    if set.is_empty() || !set.has_distinct_names() {
        return Err(io::ErrorKind::InvalidInput.into());
    }
    Dictionary::read(alloc, &set).map_err(|_| io::ErrorKind::InvalidData.into())
}

/// The dictionary of one file, which has this text.
pub fn of_text(alloc: Global, text: &[u8]) -> io::Result<Dictionary> {
    let octets = Octets::from_slice(alloc, text)?;
    let files = vec![in alloc; NamedFile::at(alloc, "dictionary", octets)?]?;
    of_set(alloc, files)
}

/// The dictionary of the files at these paths.
pub fn of_files(rt: &HostRuntime, paths: &[String]) -> io::Result<Dictionary> {
    let mut files = Vec::new(rt.alloc());
    for path in paths {
        let octets = Octets::from_vec(fs::read(rt, path.as_str())?);
        files.push(NamedFile::at(rt.alloc(), path.as_str(), octets)?)?;
    }
    of_set(rt.alloc(), files)
}
