ghost use Rattle.std.specs.Prelude.{◌≡◌, ◌↔◌, IfOk, IsTrue, length};
ghost use Rattle.std.specs.List.{list_any};
ghost use Rattle.avp_dict.specs.Lines.{HasDistinctNames, last_component, has_name, names_differ};

use avp_lists::Octets;
use std::alloc::{AllocError, Global};
use std::marker::Model;

/// A dictionary file.
#[derive(Debug, Drop)]
pub struct NamedFile {
    /// The last component of its path.
    pub name: Octets,
    pub octets: Octets,
}

impl NamedFile {
    /// The file at a path, with what it holds.
    pub fn at(alloc: Global, path: &str, octets: Octets) -> Result<NamedFile, AllocError>
        ensures name { IfOk result (λ file. file.name ≡ last_component path.now) }
        ensures octets { IfOk result (λ file. file.octets ≡ octets) }
    {
        let name = Octets::from_slice(alloc, last_component(path.as_bytes()))?;
        Ok(NamedFile { name, octets })
    }
}

/// Dictionary files, the main file first, seen by contracts as their list.
#[derive(Debug)]
pub struct FileSet {
    files: Vec<NamedFile>,
}

impl Drop for FileSet {
    fn drop(self) {
        let FileSet { files: _ } = self;
    }
}

impl Model for FileSet {
    ghost use Rattle.std.specs.Prelude.{List};
    ghost use Rattle.avp_dict.specs.declared.file.files.NamedFile.{NamedFile};

    ghost Value = { List NamedFile };

    ghost view = { λ set. set.files.items };
}

impl FileSet {
    pub fn from_vec(files: Vec<NamedFile>) -> FileSet
        ensures { result ≡ files.items }
    {
        FileSet { files }
    }

    pub fn as_slice(&self) -> &[NamedFile]
        ensures { result.now ≡ self.now }
    {
        self.files.as_slice()
    }

    pub fn is_empty(&self) -> bool
        ensures { IsTrue result ↔ (length self.now ≡ 0) }
    {
        self.files.is_empty()
    }

    /// Whether no two files have one name.
    pub fn has_distinct_names(&self) -> bool
        ensures { IsTrue result ↔ HasDistinctNames self.now }
    {
        names_differ(&self.files)
    }
}

// The last octets go first, since the names of a set mostly begin alike.
fn has_name(name: &[u8], file: &NamedFile) -> bool
    ensures { result ≡ has_name name.now file.now }
{
    let own = file.name.as_slice();
    own.last() == name.last() && own == name
}

fn is_named(files: &[NamedFile], name: &[u8]) -> bool
    ensures { result ≡ list_any (has_name name.now) files.now }
{
    files.iter().any(|file| has_name(name, file))
}

fn names_differ(files: &[NamedFile]) -> bool
    ensures { result ≡ names_differ files.now }
{
    let mut rest = files;
    while let [file, later @ ..] = rest {
        if is_named(later, file.name.as_slice()) {
            return false;
        }
        rest = later;
    }
    true
}

/// What follows the last `/` of a path, or the whole path: the name by which a file is given and included.
pub fn last_component(path: &[u8]) -> &[u8]
    ensures { result.now ≡ last_component path.now }
{
    let mut last = path;
    let mut rest = path;
    while let [octet, after @ ..] = rest {
        if *octet == b'/' {
            last = after;
        }
        rest = after;
    }
    last
}
