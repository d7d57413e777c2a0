//! Reading files and standard input. What a file holds, whether it can be read, and whether there is memory, no
//! contract can say: a refusal for the first two names a path that was given.

ghost use Rattle.std.specs.Prelude.{◌≡◌, ◌⊎◌, ◌<◌, Ok, Some, IfOk, IfErr, IfSome, is_some, codes, length};
ghost use Rattle.avp_dict.specs.Lines.{HasDistinctNames};
ghost use Rattle.radpolicy.specs.Plans.{names_of_files, names_of_paths};
ghost use Rattle.radpolicy_common.specs.Inputs.{AreRead, AreUnread, WhereKnown, files_of, named_file, octets_of, octets_of_files};
ghost use Rattle.radpolicy_common.specs.Refusals.{fault_of_unread};
ghost use Rattle.radpolicy_common.specs.Unread.{IsRefusalOf, IsRefusalOfFiles, IsRefusalOfSet};
ghost use Rattle.radpolicy_common.specs.declared.files.Unread.TheVariants as why;

use crate::inputs::Inputs;
use avp_dict::{FileSet, NamedFile};
use avp_lists::Octets;
use radpolicy::{Fault, MAX_INPUT_OCTETS, read_input, read_input_with_room};
use std::alloc::{AllocError, AllocFailed, Global};
use std::fs::File;
use std::io;
use std::io::{Seek, SeekFrom};

/// Why files were not all read.
#[derive(Clone, Copy, Debug, Drop, PartialEq, Eq)]
pub enum Unread<'a> {
    Memory,
    /// No dictionary file was named.
    NoDictionary,
    /// Two dictionary files have one last component.
    SameNames,
    /// The file's path as it was given, or `-` for standard input.
    File(&'a str),
}

impl From<AllocError> for Unread<'_> {
    ghost from_gives = { λ _ unread. unread ≡ why.Memory };

    fn from(_error: AllocError) -> Self {
        Unread::Memory
    }
}

impl<T: Drop> From<AllocFailed<T>> for Unread<'_> {
    ghost from_gives = { λ _ unread. unread ≡ why.Memory };

    fn from(_error: AllocFailed<T>) -> Self {
        Unread::Memory
    }
}

impl Unread<'_> {
    /// The fault for which a program ends.
    pub fn fault(self) -> Fault
        ensures { result ≡ fault_of_unread self.entry }
    {
        match self {
            Unread::Memory => Fault::Memory,
            Unread::NoDictionary => Fault::Usage,
            Unread::SameNames => Fault::OptionValue,
            Unread::File(_) => Fault::FileNotReadable,
        }
    }
}

// What was read under a name. More than an input file may have is not readable.
fn octets_of(name: &str, read: io::Result<Option<Octets>>) -> Result<Octets, Unread<'_>>
    ensures read { IfOk result (λ octets. read ≡ Ok (Some octets)) }
    ensures named { IfErr result (λ unread.
        (unread ≡ Unread.Memory) ⊎ (unread ≡ Unread.File name.entry)) }
{
    match read {
        Ok(Some(octets)) => Ok(octets),
        Ok(None) => Err(Unread::File(name)),
        Err(error) => match error.kind() {
            io::ErrorKind::OutOfMemory => Err(Unread::Memory),
            _ => Err(Unread::File(name)),
        },
    }
}

// How much room a file wants by its size, with one octet more, in which its end is met. Reading goes on to the end,
// whatever the size says; for a pipe, and for a file of `/proc`, which tell none, no room is made before.
fn room_for(file: &mut File) -> io::Result<usize> {
    match file.seek(SeekFrom::End(0)) {
        Ok(size) if size > 0 => {
            file.seek(SeekFrom::Start(0))?;
            Ok(size.min(MAX_INPUT_OCTETS as u64 + 1) as usize + 1)
        }
        _ => Ok(0),
    }
}

fn octets_in(alloc: Global, mut file: File) -> io::Result<Option<Octets>> {
    let room = room_for(&mut file)?;
    read_input_with_room(alloc, file, room)
}

/// What a file holds, at most 16,777,216 octets.
pub fn read_file<'a>(rt: &HostRuntime, path: &'a str) -> Result<Octets, Unread<'a>>
    ensures { IfErr result (λ unread.
        (unread ≡ Unread.Memory) ⊎ (unread ≡ Unread.File path.entry)) }
{
    match File::open(rt, path) {
        Ok(file) => octets_of(path, octets_in(rt.alloc(), file)),
        Err(error) => octets_of(path, Err(error)),
    }
}

/// What a file holds, if one is named.
pub fn read_optional<'a, I: Inputs>(
    inputs: &I,
    path: Option<&'a str>,
) -> Result<Option<Octets>, Unread<'a>>
    ensures read { IfOk result (λ octets. WhereKnown (I.contents inputs.now) (λ c.
        AreRead (named_file c path.entry) (octets_of octets))) }
    ensures unread { IfErr result (λ unread. WhereKnown (I.contents inputs.now) (λ c.
        AreUnread (named_file c path.entry) unread)) }
    ensures given { IfOk result (λ octets. is_some octets ≡ is_some path.entry) }
    ensures named { IfErr result (λ unread.
        (unread ≡ Unread.Memory) ⊎ IfSome path.entry (λ p. unread ≡ Unread.File p)) }
{
    match path {
        Some(path) => Ok(Some(inputs.file(path)?)),
        None => Ok(None),
    }
}

/// What standard input holds, at most 16,777,216 octets.
pub fn read_standard_input(rt: &HostRuntime) -> Result<Octets, Unread<'static>>
    ensures { IfErr result (IsRefusalOf (codes "-")) }
{
    octets_of("-", read_input(rt.alloc(), rt.stdin()))
}

/// Dictionary files, the main one first, of a plan: [`radpolicy::read_words`] compared their names. For other paths
/// there is [`read_dictionary_set`].
pub fn read_dictionaries<'a, I: Inputs>(
    inputs: &I,
    paths: &[&'a str],
) -> Result<FileSet, Unread<'a>>
    ensures read { IfOk result (λ files. WhereKnown (I.contents inputs.now) (λ c.
        AreRead (files_of c paths.now) (octets_of_files files))) }
    ensures unread { IfErr result (λ unread. WhereKnown (I.contents inputs.now) (λ c.
        AreUnread (files_of c paths.now) unread)) }
    ensures named { IfOk result (λ files. names_of_files files ≡ names_of_paths paths.now) }
    ensures refused { IfErr result (IsRefusalOfFiles paths.now) }
{
    let alloc = inputs.allocator();
    let mut files = Vec::new(alloc);
    for path in paths {
        let octets = inputs.file(path)?;
        files.push(NamedFile::at(alloc, path, octets)?)?;
    }
    Ok(FileSet::from_vec(files))
}

// Files of these names, without what they hold.
fn empty_files(alloc: Global, paths: &[&str]) -> Result<FileSet, AllocError>
    ensures { IfOk result (λ files. names_of_files files ≡ names_of_paths paths.now) }
{
    let mut files = Vec::new(alloc);
    for path in paths {
        let octets = Octets::from_vec(Vec::new(alloc));
        files.push(NamedFile::at(alloc, path, octets)?)?;
    }
    Ok(FileSet::from_vec(files))
}

/// Dictionary files, the main one first, that a dictionary can be read from. No file is read where none is named, or
/// two have one last component.
#[tactic(auto, using(crate::proofs::FileNames::distinct_by_names, crate::proofs::FileNames::some_by_names))]
pub fn read_dictionary_set<'a, I: Inputs>(
    inputs: &I,
    paths: &[&'a str],
) -> Result<FileSet, Unread<'a>>
    ensures read { IfOk result (λ files. WhereKnown (I.contents inputs.now) (λ c.
        AreRead (files_of c paths.now) (octets_of_files files))) }
    ensures named { IfOk result (λ files. names_of_files files ≡ names_of_paths paths.now) }
    ensures first { IfOk result (λ files. 0 < length files) }
    ensures distinct { IfOk result (λ files. HasDistinctNames files) }
    ensures none { length paths.now ≡ 0 → result ≡ Err Unread.NoDictionary }
    ensures refused { IfErr result (IsRefusalOfSet paths.now) }
{
    if paths.is_empty() {
        return Err(Unread::NoDictionary);
    }
    if !empty_files(inputs.allocator(), paths)?.has_distinct_names() {
        return Err(Unread::SameNames);
    }
    let files = read_dictionaries(inputs, paths)?;
    Ok(files)
}
