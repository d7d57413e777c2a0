//! The dictionary of the files that the program's words name.

use avp_dict::{Dictionary, FileSet, NamedFile};
use avp_lists::Octets;
use std::{fs, io};

/// The words after the first are the paths of the files.
pub fn dictionary_of(rt: &HostRuntime, words: &[String]) -> io::Result<Dictionary> {
    let alloc = rt.alloc();
    let [_, paths @ ..] = words else {
        return Err(io::ErrorKind::InvalidInput.into());
    };
    let mut files = Vec::new(alloc);
    for path in paths {
        let octets = Octets::from_vec(fs::read(rt, path.as_str())?);
        files.push(NamedFile::at(alloc, path.as_str(), octets)?)?;
    }
    let set = FileSet::from_vec(files);
    if set.is_empty() || !set.has_distinct_names() {
        return Err(io::ErrorKind::InvalidInput.into());
    }
    Dictionary::read(alloc, &set).map_err(|_| io::ErrorKind::InvalidData.into())
}
