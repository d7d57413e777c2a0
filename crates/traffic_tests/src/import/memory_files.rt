//! Files in memory.

use server_configuration::{Files, Unread};
use std::alloc::Global;

#[derive(Clone, Copy)]
pub(crate) struct MemoryFile<'a> {
    pub(crate) path: &'a [u8],
    pub(crate) octets: &'a [u8],
}

/// A folder for each path up to a `/`.
#[derive(Clone, Copy)]
pub(crate) struct MemoryFiles<'a> {
    pub(crate) files: &'a [MemoryFile<'a>],
}

fn copied(alloc: Global, octets: &[u8]) -> Result<Vec<u8>, Unread> {
    match Vec::from_slice(alloc, octets) {
        Ok(octets) => Ok(octets),
        Err(_) => Err(Unread::Memory),
    }
}

impl Files for MemoryFiles<'_> {
    fn octets(&self, alloc: Global, path: &[u8], limit: usize) -> Result<Vec<u8>, Unread> {
        for file in self.files {
            if file.path == path {
                if file.octets.len() > limit {
                    return Err(Unread::TooLong);
                }
                return copied(alloc, file.octets);
            }
        }
        Err(Unread::Missing)
    }

    fn names(&self, alloc: Global, folder: &[u8]) -> Result<Vec<Vec<u8>>, Unread> {
        let mut names = Vec::new(alloc);
        for file in self.files {
            if let Some(name) = file.path.strip_prefix(folder) {
                let name = copied(alloc, name)?;
                if names.push(name).is_err() {
                    return Err(Unread::Memory);
                }
            }
        }
        Ok(names)
    }

    fn is_folder(&self, path: &[u8]) -> bool {
        path.ends_with(b"d")
    }
}
