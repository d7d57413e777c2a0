//! Reads a configuration whole, from its first file on.

ghost use Rattle.std.specs.Prelude.{◌≡◌, ◌-◌, ◌≤◌, ◌<◌, length, IfOk};
ghost use Rattle.server_configuration.specs.Files.{AreWithinDepth, octets_in};
ghost use Rattle.server_configuration.specs.Places.{AreNested, AreOnLines};
ghost use Rattle.server_configuration.specs.internal.Refusals.{IsPlaced};

use crate::configurations::Configuration;
use crate::faults::{ConfigurationFault, FaultKind, Refusal};
use crate::includes::{MAX_CONFIGURATION_OCTETS, MAX_DEPTH, MAX_FILES, Reading, kind_of};
use crate::reader::{MAX_ITEMS, MAX_OCTETS};
use crate::sources::{Files, SourceFile, Unread};
use std::alloc::Global;

// The fault of no file.
fn no_memory(alloc: Global) -> ConfigurationFault {
    ConfigurationFault {
        file: SourceFile {
            path: Vec::new(alloc),
            octets: Vec::new(alloc),
            depth: 0,
        },
        line: 1,
        kind: FaultKind::Memory,
        unread: None,
    }
}

// The fault of the first file, which is not read.
fn unopened(alloc: Global, path: &[u8], kind: FaultKind) -> ConfigurationFault {
    match (Vec::from_slice(alloc, path), Vec::from_slice(alloc, path)) {
        (Ok(path), Ok(unread)) if kind != FaultKind::Memory => ConfigurationFault {
            file: SourceFile {
                path,
                octets: Vec::new(alloc),
                depth: 0,
            },
            line: 1,
            kind,
            unread: Some(unread),
        },
        _ => no_memory(alloc),
    }
}

// The fault at a place of the files.
fn fault_of(alloc: Global, files: Vec<SourceFile>, refusal: Refusal) -> ConfigurationFault
    requires { IsPlaced files.items refusal }
{
    let mut files = files;
    match refusal {
        Refusal::Memory => no_memory(alloc),
        Refusal::At { file, line, kind } => ConfigurationFault {
            file: files.swap_remove(file),
            line,
            kind,
            unread: None,
        },
        Refusal::Unread {
            file,
            line,
            kind,
            path,
        } => ConfigurationFault {
            file: files.swap_remove(file),
            line,
            kind,
            unread: Some(path),
        },
    }
}

fn read_first<F: Files>(alloc: Global, files: &F, path: &[u8]) -> Result<SourceFile, FaultKind>
    ensures size { IfOk result (λ file. length file.octets.items ≤ MAX_OCTETS) }
    ensures depth { IfOk result (λ file. file.depth ≡ 0) }
    ensures path { IfOk result (λ file. file.path.items ≡ path.now) }
{
    match files.octets(alloc, path, MAX_OCTETS) {
        Err(unread) => Err(kind_of(unread)),
        Ok(octets) if octets.len() > MAX_OCTETS => Err(FaultKind::TooLong),
        Ok(octets) => match Vec::from_slice(alloc, path) {
            Ok(path) => Ok(SourceFile {
                path,
                octets,
                depth: 0,
            }),
            Err(_) => Err(FaultKind::Memory),
        },
    }
}

// The configuration that begins with a file.
fn read_from<F: Files>(
    alloc: Global,
    files: &F,
    first: SourceFile,
) -> Result<Configuration, ConfigurationFault>
    requires size { length first.octets.items ≤ MAX_OCTETS }
    requires depth { first.depth ≡ 0 }
    ensures lines { IfOk result (λ read. AreOnLines read.files.items read.items.items) }
    ensures nested { IfOk result (λ read. AreNested read.items.items) }
    ensures files { IfOk result (λ read. length read.files.items ≤ MAX_FILES) }
    ensures octets { IfOk result (λ read. octets_in read.files.items ≤ MAX_CONFIGURATION_OCTETS) }
    ensures depth { IfOk result (λ read. AreWithinDepth MAX_DEPTH read.files.items) }
    ensures items { IfOk result (λ read. length read.items.items ≤ MAX_ITEMS) }
{
    let mut reading = Reading::new(alloc);
    let read = match reading.begin(alloc, first, None) {
        Ok(()) => reading.finish(alloc, files),
        Err(refusal) => Err(refusal),
    };
    match read {
        Ok(()) => Ok(Configuration {
            files: reading.files,
            items: reading.items,
        }),
        Err(refusal) => Err(fault_of(alloc, reading.files, refusal)),
    }
}

/// Reads a file and what it includes: files, and the files of folders, whose paths end in `/`, in the order of their
/// names. Of a folder those names are taken that consist of letters, digits, `.`, `_` and `-` and do not begin with
/// `.`. A path that does not begin with `/` is relative to the folder of the file that names it. A file is read to its
/// end before what it includes, so a fault in it comes first.
pub fn read_configuration<F: Files>(
    alloc: Global,
    files: &F,
    path: &[u8],
) -> Result<Configuration, ConfigurationFault>
    // Each item is on a line of a file that was read.
    ensures lines { IfOk result (λ read. AreOnLines read.files.items read.items.items) }
    // The section that holds an item is an item before it.
    ensures nested { IfOk result (λ read. AreNested read.items.items) }

    ensures files { IfOk result (λ read. length read.files.items ≤ MAX_FILES) }
    ensures octets { IfOk result (λ read. octets_in read.files.items ≤ MAX_CONFIGURATION_OCTETS) }
    ensures depth { IfOk result (λ read. AreWithinDepth MAX_DEPTH read.files.items) }
    ensures items { IfOk result (λ read. length read.items.items ≤ MAX_ITEMS) }
{
    match read_first(alloc, files, path) {
        Ok(first) => read_from(alloc, files, first),
        Err(kind) => Err(unopened(alloc, path, kind)),
    }
}
