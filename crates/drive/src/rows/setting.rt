//! What questions are asked of.

use super::words::bad;
use crate::dictionaries;
use avp_dict::{Dictionary, FileSet, NamedFile};
use avp_forms::Profile;
use std::alloc::Global;
use std::io;
use std::io::Write;

/// The dictionary, how names and texts are read, what packets are made and read by, and what policies run over.
#[derive(Drop)]
pub struct Setting {
    pub alloc: Global,
    pub dictionary: Dictionary,
    pub profile: Profile,
    pub zone: Option<i16>,
    pub secret: Vec<u8>,
    pub authenticator: [u8; 16],
    pub request: Vec<u8>,
}

// How many names a dictionary has, and the places of its notes: file and line.
fn write_counts<W: Write>(out: &mut W, dictionary: &Dictionary) -> io::Result<()> {
    let counts = dictionary.counts();
    write!(
        out,
        "{} attributes, {} values, {} vendors",
        counts.attributes, counts.values, counts.vendors
    )?;
    for note in dictionary.notes() {
        write!(out, ", note {}:{}", note.file, note.line)?;
    }
    Ok(())
}

impl Setting {
    /// The plain profile, a dictionary without a line, the secret `s`, an authenticator of zeros, and a request without
    /// a line.
    pub fn new(alloc: Global) -> io::Result<Setting> {
        Ok(Setting {
            alloc,
            dictionary: dictionaries::of_text(alloc, b"")?,
            profile: Profile::Plain,
            zone: None,
            secret: Vec::from_slice(alloc, b"s")?,
            authenticator: [0; 16],
            request: Vec::new(alloc),
        })
    }

    /// `dictionary`: how many names it has and its notes, or the place of the fault, which is a file, a line and an
    /// offset, and its kind.
    pub fn read_dictionary<W: Write>(
        &mut self,
        out: &mut W,
        files: Vec<NamedFile>,
    ) -> io::Result<()> {
        let set = FileSet::from_vec(files);
        if set.is_empty() || !set.has_distinct_names() {
            return bad();
        }
        match Dictionary::read(self.alloc, &set) {
            Ok(dictionary) => {
                self.dictionary = dictionary;
                write_counts(out, &self.dictionary)
            }
            Err(fault) => write!(
                out,
                "{}:{}:{} {:?}: {fault}",
                fault.file, fault.line, fault.offset, fault.kind
            ),
        }
    }

    /// The authenticator of these digits.
    pub fn set_authenticator(&mut self, digits: &[u8]) -> io::Result<()> {
        let mut authenticator = [0; 16];
        match hex::decode_to_slice(digits, &mut authenticator) {
            Ok(()) => {
                self.authenticator = authenticator;
                Ok(())
            }
            Err(_) => bad(),
        }
    }
}
