//! The dictionary files that a command line means. What is in a folder, and in the environment, no contract can say.

use std::alloc::{AllocError, Global};
use std::io::ErrorKind;
use std::{fs, io};

/// Folders of the system that may have a server's dictionaries: where Debian's packages put them, and where those are
/// that come with the programs, installed by hand or by a package. The first that is there is meant.
const OF_SYSTEM: [&str; 3] = [
    "/usr/share/freeradius",
    "/usr/local/share/radpolicy/dictionaries",
    "/usr/share/radpolicy/dictionaries",
];

/// The environment's name for another folder.
const OF_ENVIRONMENT: &str = "RADPOLICY_DICTIONARIES";

// The names of a folder's dictionaries other than the main one. Names that are no UTF-8 are left out: no `$INCLUDE` of
// theirs could be written.
fn names_in(rt: &HostRuntime, folder: &str) -> io::Result<Vec<String>> {
    let mut names = Vec::new(rt.alloc());
    for entry in fs::read_dir(rt, folder)? {
        match entry {
            Ok(entry) => {
                if let Ok(name) = str::from_utf8(entry.file_name().as_bytes())
                    && name.starts_with("dictionary.")
                {
                    names.push(String::from_str(rt.alloc(), name)?)?;
                }
            }
            Err(error) if error.kind() == ErrorKind::InvalidFilename => {}
            Err(error) => return Err(error),
        }
    }
    names.sort()?;
    Ok(names)
}

// Adds the paths of these names in a folder, after that of its main dictionary.
fn push_paths(
    alloc: Global,
    paths: &mut Vec<String>,
    folder: &str,
    names: &[String],
) -> Result<(), AllocError> {
    let folder = folder.trim_end_matches('/');
    paths.push(format!(in alloc; "{folder}/dictionary")?)?;
    for name in names {
        paths.push(format!(in alloc; "{folder}/{name}")?)?;
    }
    Ok(())
}

// Adds the dictionaries of a folder, the main one first. Where it can't be looked into that one is meant, whose reading
// tells why.
fn push_folder(rt: &HostRuntime, paths: &mut Vec<String>, folder: &str) -> Result<(), AllocError> {
    match names_in(rt, folder) {
        Ok(names) => push_paths(rt.alloc(), paths, folder, &names),
        Err(error) if error.kind() == ErrorKind::OutOfMemory => Err(AllocError),
        Err(_) => push_paths(rt.alloc(), paths, folder, &[]),
    }
}

fn is_folder(rt: &HostRuntime, path: &str) -> bool {
    match fs::metadata(rt, path) {
        Ok(found) => found.is_dir(),
        Err(_) => false,
    }
}

// Adds the dictionaries that are meant where the command line says nothing of them.
fn push_unnamed(rt: &HostRuntime, paths: &mut Vec<String>) -> Result<(), AllocError> {
    if let Ok(folder) = std::env::var(rt, OF_ENVIRONMENT)
        && !folder.is_empty()
    {
        return push_folder(rt, paths, folder.as_str());
    }
    for folder in OF_SYSTEM {
        if is_folder(rt, folder) {
            return push_folder(rt, paths, folder);
        }
    }
    Ok(())
}

/// The dictionary files that a command line means, the main one first: those that it names, and after them those of the
/// folder that it names. If it names neither, they are those of the folder that the environment's
/// `RADPOLICY_DICTIONARIES` names, or else of the system; none where that has none.
pub fn dictionaries_meant(
    rt: &HostRuntime,
    named: &[&str],
    folder: Option<&str>,
) -> Result<Vec<String>, AllocError> {
    let mut paths = Vec::new(rt.alloc());
    for path in named {
        paths.push(String::from_str(rt.alloc(), path)?)?;
    }
    match folder {
        Some(folder) => push_folder(rt, &mut paths, folder)?,
        None if named.is_empty() => push_unnamed(rt, &mut paths)?,
        None => {}
    }
    Ok(paths)
}

/// Paths, as they are lent.
pub fn lent_paths<'a>(alloc: Global, paths: &'a [String]) -> Result<Vec<&'a str>, AllocError> {
    let mut lent = Vec::new(alloc);
    for path in paths {
        lent.push(path.as_str())?;
    }
    Ok(lent)
}
