//! Dictionary files, as C gives them.

ghost use Rattle.std.specs.Prelude.{◌≡◌, IfOk, map};
ghost use Rattle.radpolicy_c.specs.Files.{file_given};

use avp_dict::{FileSet, NamedFile};
use avp_lists::Octets;
use std::alloc::{AllocError, Global};

/// A dictionary file: the last component of its path, and what it holds.
#[repr(C)]
#[derive(Clone, Copy, Drop)]
pub struct RadpolicyFile<'a> {
    pub name: &'a [u8],
    pub text: &'a [u8],
}

/// A copy of the files.
pub(crate) fn file_set_of(alloc: Global, files: &[RadpolicyFile<'_>]) -> Result<FileSet, AllocError>
    ensures { IfOk result (λ set. set ≡ map file_given files.now) }
{
    let mut read = Vec::new(alloc);
    for file in files {
        read.push(NamedFile {
            name: Octets::from_slice(alloc, file.name)?,
            octets: Octets::from_slice(alloc, file.text)?,
        })?;
    }
    Ok(FileSet::from_vec(read))
}
