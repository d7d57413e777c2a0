//! The files that the words of the command line name.

use crate::command_line::Plan;
use avp_dict::{FileSet, NamedFile};
use avp_lists::Octets;
use radpolicy_common::{Unread, read_file};
use radpolicy_import_conditions::ServerCode;
use radpolicy_import_policies::{Module, ModuleAnswer};
use server_configuration::{
    ConfigurationFault, Files, SourceFile, SystemFiles, Unread as UnreadFile,
};
use std::alloc::{AllocError, Global};

/// Where Debian's packages have a server's dictionaries.
const OF_SERVER: &[u8] = b"/usr/share/freeradius/";

/// Where the dictionaries are that are installed with the programs.
const OF_INSTALLATION: &[u8] = b"/usr/local/share/radpolicy/dictionaries/";

/// The same, installed by a package.
const OF_PACKAGE: &[u8] = b"/usr/share/radpolicy/dictionaries/";

/// The system's files, and a first one that includes those that were named.
#[derive(Clone, Copy)]
pub struct NamedFiles<'a> {
    pub alloc: Global,
    pub system: SystemFiles<'a>,
    pub first: &'a [u8],
}

/// The name of the first file: no file of the system has it.
pub const FIRST: &[u8] = b"";

impl Files for NamedFiles<'_> {
    fn octets(&self, alloc: Global, path: &[u8], limit: usize) -> Result<Vec<u8>, UnreadFile> {
        if path == FIRST {
            return Ok(Vec::from_slice(alloc, self.first)?);
        }
        self.system.octets(alloc, &path_meant(alloc, path)?, limit)
    }

    fn names(&self, alloc: Global, folder: &[u8]) -> Result<Vec<Vec<u8>>, UnreadFile> {
        self.system.names(alloc, &path_meant(alloc, folder)?)
    }

    fn is_folder(&self, path: &[u8]) -> bool {
        match path_meant(self.alloc, path) {
            Ok(path) => self.system.is_folder(&path),
            Err(_) => false,
        }
    }
}

/// The path of a server's main file, where its folder is named alone.
pub fn main_file<F: Files>(
    alloc: Global,
    files: &F,
    plan: &Plan<'_>,
) -> Result<Option<Vec<u8>>, AllocError> {
    let [path] = plan.configuration.as_slice() else {
        return Ok(None);
    };
    if !files.is_folder(path.as_bytes()) {
        return Ok(None);
    }
    let mut main = Vec::from_slice(alloc, path.as_bytes())?;
    if main.last() != Some(&b'/') {
        main.push(b'/')?;
    }
    main.extend_from_slice(b"radiusd.conf")?;
    Ok(Some(main))
}

// An octet of a path that would be read otherwise between quotes, and the letter that stands for it behind a NUL: no
// path has that.
const STAND_INS: [(u8, u8); 4] = [(b'"', b'q'), (b'\\', b'b'), (b'$', b'd'), (b'\n', b'n')];

fn push_written(text: &mut Vec<u8>, octet: u8) -> Result<(), AllocError> {
    match STAND_INS.iter().find(|(meant, _)| *meant == octet) {
        Some((_, letter)) => {
            text.push(0)?;
            Ok(text.push(*letter)?)
        }
        None => Ok(text.push(octet)?),
    }
}

fn push_include(text: &mut Vec<u8>, path: &str) -> Result<(), AllocError> {
    text.extend_from_slice(b"$INCLUDE \"")?;
    for octet in path.as_bytes() {
        push_written(text, *octet)?;
    }
    text.extend_from_slice(b"\"\n")
}

/// What the first file holds, where files are named.
pub fn first_file(alloc: Global, plan: &Plan<'_>) -> Result<Vec<u8>, AllocError> {
    let mut text = Vec::new(alloc);
    for path in &plan.configuration {
        push_include(&mut text, path)?;
    }
    Ok(text)
}

fn octet_meant(letter: u8) -> u8 {
    match STAND_INS.iter().find(|(_, written)| *written == letter) {
        Some((meant, _)) => *meant,
        None => letter,
    }
}

/// The path that is meant by one in the first file, or by one beside it.
pub fn path_meant(alloc: Global, written: &[u8]) -> Result<Vec<u8>, AllocError> {
    let mut path = Vec::new(alloc);
    let mut rest = written;
    while let [octet, after @ ..] = rest {
        rest = after;
        match (*octet, after) {
            (0, [letter, others @ ..]) => {
                path.push(octet_meant(*letter))?;
                rest = others;
            }
            _ => path.push(*octet)?,
        }
    }
    Ok(path)
}

/// Gives the files of a configuration the paths that are meant.
pub fn name_files(alloc: Global, files: &mut [SourceFile]) -> Result<(), AllocError> {
    for file in files {
        file.path = path_meant(alloc, &file.path)?;
    }
    Ok(())
}

/// The same fault with the paths that are meant.
pub fn with_names(
    alloc: Global,
    fault: ConfigurationFault,
) -> Result<ConfigurationFault, AllocError> {
    let mut fault = fault;
    fault.file.path = path_meant(alloc, &fault.file.path)?;
    if let Some(unread) = &fault.unread {
        fault.unread = Some(path_meant(alloc, unread)?);
    }
    Ok(fault)
}

// The path of a dictionary in a folder.
fn dictionary_path(
    alloc: Global,
    folder: &[u8],
    name: &[u8],
) -> Result<Option<String>, AllocError> {
    let mut path = Vec::from_slice(alloc, folder)?;
    path.extend_from_slice(name)?;
    match str::from_utf8(&path) {
        Ok(path) => Ok(Some(String::from_str(alloc, path)?)),
        Err(_) => Ok(None),
    }
}

// The dictionaries of a folder, the main one first; none where it is not there.
fn dictionaries_in<F: Files>(
    alloc: Global,
    files: &F,
    folder: &[u8],
) -> Result<Vec<String>, AllocError> {
    let mut paths = Vec::new(alloc);
    let Ok(names) = files.names(alloc, folder) else {
        return Ok(paths);
    };
    if let Some(path) = dictionary_path(alloc, folder, b"dictionary")? {
        paths.push(path)?;
    }
    for name in &names {
        if name.starts_with(b"dictionary.")
            && let Some(path) = dictionary_path(alloc, folder, name)?
        {
            paths.push(path)?;
        }
    }
    Ok(paths)
}

/// The dictionaries of the system, the main one first: those of a server, or else those that are installed with the
/// programs.
pub fn system_dictionaries<F: Files>(alloc: Global, files: &F) -> Result<Vec<String>, AllocError> {
    for folder in [OF_SERVER, OF_INSTALLATION] {
        let paths = dictionaries_in(alloc, files, folder)?;
        if !paths.is_empty() {
            return Ok(paths);
        }
    }
    dictionaries_in(alloc, files, OF_PACKAGE)
}

// The name of a module and what stands for its calls: a word without `=` names one whose calls do nothing.
fn module_in(word: &str) -> (&str, &str) {
    word.split_once('=').unwrap_or((word, "noop"))
}

/// The path of the policy that stands for the calls of a module, if it is no code.
pub fn policy_path(word: &str) -> Option<&str> {
    let (_, answer) = module_in(word);
    match ServerCode::named(answer.as_bytes()) {
        Some(_) => None,
        None => Some(answer),
    }
}

// What stands for the calls of a module.
fn read_answer<'a>(rt: &HostRuntime, word: &'a str) -> Result<ModuleAnswer, Unread<'a>> {
    match ServerCode::named(word.as_bytes()) {
        Some(code) => Ok(ModuleAnswer::Code(code)),
        None => {
            let octets = read_file(rt, word)?;
            let policy = Vec::from_slice(rt.alloc(), octets.as_slice())?;
            Ok(ModuleAnswer::Policy(policy))
        }
    }
}

// What stands for the calls of modules.
fn read_modules<'a>(rt: &HostRuntime, plan: &Plan<'a>) -> Result<Vec<Module>, Unread<'a>> {
    let mut modules = Vec::new(rt.alloc());
    for word in &plan.modules {
        let (name, answer) = module_in(word);
        let answer = read_answer(rt, answer)?;
        let name = Vec::from_slice(rt.alloc(), name.as_bytes())?;
        modules.push(Module { name, answer })?;
    }
    Ok(modules)
}

/// What files hold that are put in places of the policy, or in front of it.
#[derive(Drop)]
pub struct Given {
    pub modules: Vec<Module>,
    /// The pairs of initial lists.
    pub initial: Option<Octets>,
}

/// What the files hold that the words name for it.
pub fn read_given<'a>(rt: &HostRuntime, plan: &Plan<'a>) -> Result<Given, Unread<'a>> {
    let modules = read_modules(rt, plan)?;
    let initial = match plan.initial {
        Some(path) => Some(read_file(rt, path)?),
        None => None,
    };
    Ok(Given { modules, initial })
}

/// The files of a set, with another in front of them: its main file.
pub fn with_main(
    alloc: Global,
    path: &str,
    text: &[u8],
    files: &FileSet,
) -> Result<FileSet, AllocError> {
    let mut all = Vec::new(alloc);
    all.push(NamedFile::at(alloc, path, Octets::from_slice(alloc, text)?)?)?;
    for file in files.as_slice() {
        let (name, octets) = (file.name.copy(alloc)?, file.octets.copy(alloc)?);
        all.push(NamedFile { name, octets })?;
    }
    Ok(FileSet::from_vec(all))
}
