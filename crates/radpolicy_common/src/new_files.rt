//! Files that are written beside the places that they are to have.

use crate::output_faults::{Misplaced, Refusal};
use crate::places::FilePlace;
use std::fs::{File, Metadata, OpenOptions, Permissions};
use std::io::{ErrorKind, Write};
use std::os::unix::fs::{MetadataExt, OpenOptionsExt, PermissionsExt, fchown};
use std::random::RandomSource;
use std::{fs, io};

// Of a file that is to replace another one, until it has that one's mode.
const OWN_MODE: u32 = 0o600;

// Of a new file; the system takes away what the umask has.
const NEW_MODE: u32 = 0o666;

// Who may do what with a file, of its mode.
const PERMISSION_BITS: u32 = 0o7777;

/// A file beside the place that it is to have.
#[derive(Drop)]
pub(crate) struct NewFile {
    path: String,
    is_there: bool,
}

// Has a file the owner, the group and the mode of another.
fn keep_owner(file: &File, old: &Metadata) -> io::Result<()> {
    let made = file.metadata()?;
    if (made.uid(), made.gid()) != (old.uid(), old.gid()) {
        fchown(file, Some(old.uid()), Some(old.gid()))?;
    }
    file.set_permissions(Permissions::from_mode(old.mode() & PERMISSION_BITS))
}

impl NewFile {
    /// One of a name that no file has. It is not there yet.
    pub(crate) fn beside(rt: &HostRuntime, place: &FilePlace) -> io::Result<NewFile> {
        let mut octets = [0; 8];
        rt.fill_bytes(&mut octets)?;
        let digits = hex::encode(rt.alloc(), octets)?;
        let folder = place.folder.as_str();
        Ok(NewFile {
            path: format!(in rt.alloc(); "{folder}/.radpolicy-{digits}")?,
            is_there: false,
        })
    }

    /// Makes it whole, as the file has to be at its place.
    pub(crate) fn fill(
        &mut self,
        rt: &HostRuntime,
        place: &FilePlace,
        text: &[u8],
    ) -> Result<(), Misplaced> {
        let mode = match &place.old {
            Some(_) => OWN_MODE,
            None => NEW_MODE,
        };
        let mut options = OpenOptions::new();
        options.write(true).create_new(true).mode(mode);
        let mut file = options.open(rt, self.path.as_str())?;
        self.is_there = true;
        file.write_all(text)?;
        if let Some(old) = &place.old
            && keep_owner(&file, old).is_err()
        {
            return Err(Misplaced::Refused(Refusal::Owner));
        }
        Ok(file.sync_all()?)
    }

    // Puts it where nothing was, and is not.
    fn link(&mut self, rt: &HostRuntime, place: &FilePlace) -> Result<(), Misplaced> {
        match fs::hard_link(rt, self.path.as_str(), place.path.as_str()) {
            Ok(()) => {
                self.remove(rt);
                Ok(())
            }
            Err(error) if error.kind() == ErrorKind::AlreadyExists => {
                Err(Misplaced::Refused(Refusal::Changed))
            }
            // Not every file system has links.
            Err(_) => self.rename(rt, place),
        }
    }

    // Puts it in the place of what is as it was.
    fn rename(&mut self, rt: &HostRuntime, place: &FilePlace) -> Result<(), Misplaced> {
        if !place.is_as_it_was(rt)? {
            return Err(Misplaced::Refused(Refusal::Changed));
        }
        fs::rename(rt, self.path.as_str(), place.path.as_str())?;
        self.is_there = false;
        Ok(())
    }

    /// Puts it at its place, unless something else came there meanwhile.
    pub(crate) fn put(&mut self, rt: &HostRuntime, place: &FilePlace) -> Result<(), Misplaced> {
        match place.old {
            Some(_) => self.rename(rt, place),
            None => self.link(rt, place),
        }
    }

    /// Removes it from beside its place.
    pub(crate) fn remove(&mut self, rt: &HostRuntime) {
        if self.is_there && fs::remove_file(rt, self.path.as_str()).is_ok() {
            self.is_there = false;
        }
    }
}
