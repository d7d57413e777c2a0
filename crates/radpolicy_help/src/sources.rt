//! The files that a fault may be in.

use avp_dict::{DictKind, Dictionary, FileSet, NamedFile};
use avp_forms::{Profile, profile_of};
use avp_lists::Octets;
use radpolicy::{Job, Plan};
use std::alloc::{AllocError, Global};

/// A file, as it was named on the command line, and what it holds.
#[derive(Clone, Copy)]
pub struct Source<'a> {
    pub path: &'a str,
    pub text: &'a [u8],
}

/// The files of a job.
#[derive(Drop)]
pub struct Sources<'a> {
    pub files: &'a FileSet,
    /// The paths of the dictionary files.
    pub dictionaries: &'a [&'a str],
    /// The request, or the list with which a run is to begin, whose lines are explained.
    pub request: Source<'a>,
    pub policy: Source<'a>,
    pub script: Source<'a>,
    /// The path of the secret's file.
    pub secret: &'a str,
    /// The request is read in the forms of the wider profile, whatever its comments ask for.
    pub is_request_wider: bool,
    /// The names of attributes that are secret as well, as if the dictionary marked them.
    pub hidden: &'a [&'a str],
}

const NOTHING: Source<'static> = Source {
    path: "",
    text: &[],
};

/// The name of standard input in a place.
pub const STANDARD_INPUT: &str = "<stdin>";

fn source_at<'a>(path: Option<&'a str>, octets: Option<&'a Octets>) -> Source<'a> {
    Source {
        path: path.unwrap_or(STANDARD_INPUT),
        text: match octets {
            Some(octets) => octets.as_slice(),
            None => &[],
        },
    }
}

impl<'a> Sources<'a> {
    /// The files of a job that was made by a plan.
    pub fn of_job(plan: &'a Plan<'a>, job: &'a Job) -> Sources<'a> {
        Sources {
            files: &job.files,
            dictionaries: plan.dictionaries.as_slice(),
            request: source_at(plan.request, Some(&job.request)),
            policy: source_at(plan.policy, job.policy.as_ref()),
            script: source_at(plan.script, job.script.as_ref()),
            secret: plan.secret.unwrap_or(""),
            is_request_wider: false,
            hidden: &[],
        }
    }

    /// Dictionary files of these paths, and no other files.
    pub fn of_files(files: &'a FileSet, dictionaries: &'a [&'a str]) -> Sources<'a> {
        Sources {
            files,
            dictionaries,
            request: NOTHING,
            policy: NOTHING,
            script: NOTHING,
            secret: "",
            is_request_wider: false,
            hidden: &[],
        }
    }

    /// The profile in which the request is read.
    pub(crate) fn request_profile(&self) -> Profile {
        if self.is_request_wider {
            Profile::Wider
        } else {
            profile_of(self.request.text)
        }
    }

    /// The dictionary; none where it is refused.
    pub(crate) fn dictionary(&self, alloc: Global) -> Option<Dictionary> {
        if self.files.is_empty() || !self.files.has_distinct_names() {
            return None;
        }
        Dictionary::read(alloc, self.files).ok()
    }

    /// The dictionary; one without a line where it is refused.
    pub(crate) fn dictionary_or_none(&self, alloc: Global) -> Result<Dictionary, AllocError> {
        match read_dictionary(alloc, self.files)? {
            Some(dictionary) => Ok(dictionary),
            None => read_dictionary(alloc, &empty_set(alloc)?)?.ok_or(AllocError),
        }
    }
}

// The dictionary of these files; none where it is refused.
fn read_dictionary(alloc: Global, files: &FileSet) -> Result<Option<Dictionary>, AllocError> {
    if files.is_empty() || !files.has_distinct_names() {
        return Ok(None);
    }
    match Dictionary::read(alloc, files) {
        Ok(dictionary) => Ok(Some(dictionary)),
        Err(fault) if fault.kind == DictKind::Memory => Err(AllocError),
        Err(_) => Ok(None),
    }
}

// A file without a line.
fn empty_set(alloc: Global) -> Result<FileSet, AllocError> {
    let mut files = Vec::new(alloc);
    let octets = Octets::from_vec(Vec::new(alloc));
    files.push(NamedFile::at(alloc, "dictionary", octets)?)?;
    Ok(FileSet::from_vec(files))
}
