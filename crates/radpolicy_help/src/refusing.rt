//! Refusals with help.

ghost use Rattle.std.specs.Prelude.{◌≡◌, []};
ghost use Rattle.radpolicy.specs.Faults.{IsPrintedWith, status_of};
ghost use Rattle.radpolicy_common.specs.Refusals.{fault_of_unread};

use crate::colours::coloured;
use crate::command_lines::{
    explain_no_dictionary, explain_options, explain_options_shortly, explain_unread,
};
use crate::explanations::explain;
use crate::names::explain_name;
use crate::one_line::{Told, on_one_line};
use crate::printing::print_with_help;
use crate::sources::Sources;
use crate::wishes::is_help_wanted;
use avp_dict::{Dictionary, FileSet};
use radpolicy::{Fault, WriteOutput, print_named_fault, status};
use radpolicy_common::{LineBreaks, Stream, Unread, refuse, refuse_early, visible_text};
use std::alloc::{AllocError, Global};
use std::fs;

const RADPOLICY: &str = "radpolicy";

// Help as it is printed.
fn shown_help(rt: &HostRuntime, help: Vec<u8>) -> Result<Vec<u8>, AllocError> {
    if Stream::Error.is_coloured(rt) {
        coloured(rt.alloc(), &help)
    } else {
        Ok(help)
    }
}

/// Prints help, if it is wanted and there was memory for it; in colour, where colours are wanted.
pub fn tell_help(rt: &HostRuntime, help: Result<Vec<u8>, AllocError>) {
    if let Ok(help) = help
        && is_help_wanted(rt)
        && let Ok(shown) = shown_help(rt, help)
    {
        let _ = rt.stderr().write_all(&shown);
    }
}

/// Prints a fault of `radpolicy` itself and its help, if there was memory for it, and gives the fault's status. In colour,
/// where colours are wanted, the help's places and carets are bold.
pub fn refuse_with_help(
    rt: &HostRuntime,
    fault: &Fault,
    files: &FileSet,
    help: Result<Vec<u8>, AllocError>,
) -> u8
    requires { IsPrintedWith files.now fault.now }
    ensures { result ≡ status_of fault.now }
{
    if let Ok(help) = help
        && let Ok(help) = shown_help(rt, help)
    {
        let mut out = WriteOutput::new(rt.stderr());
        let _ = print_with_help(fault, files, &help, &mut out);
        status(fault)
    } else {
        refuse(rt, RADPOLICY, fault, files)
    }
}

// What is printed of a fault: where help is wanted its line and the help below it, else both on one line.
fn fault_text(rt: &HostRuntime, told: &Told<'_>) -> Result<Vec<u8>, AllocError> {
    if !is_help_wanted(rt) {
        return on_one_line(rt.alloc(), told);
    }
    let mut text = Vec::from_slice(rt.alloc(), told.line)?;
    text.push(b'\n')?;
    let shown = shown_help(rt, Vec::from_slice(rt.alloc(), told.help)?)?;
    text.extend_from_slice(&shown)?;
    Ok(text)
}

// Prints a fault; no more than its line where there is no memory for its help.
fn tell(rt: &HostRuntime, told: &Told<'_>) {
    match fault_text(rt, told) {
        Ok(text) => {
            let _ = rt.stderr().write_all(&text);
        }
        Err(_) => {
            let _ = rt.stderr().write_all(told.line);
            let _ = rt.stderr().write_all(b"\n");
        }
    }
}

// A fault's line under a program's name, without its end. It has no control characters.
fn named_line(
    alloc: Global,
    program: &str,
    fault: &Fault,
    files: &FileSet,
) -> Result<Vec<u8>, AllocError>
    requires { IsPrintedWith files.now fault.now }
{
    let mut line = Vec::new(alloc);
    let mut out = WriteOutput::new(&mut line);
    if !print_named_fault(program.as_bytes(), fault, files, &mut out) {
        return Err(AllocError);
    }
    visible_text(
        alloc,
        line.strip_suffix(b"\n").unwrap_or(&line),
        LineBreaks::Escaped,
    )
}

// The same of a fault at a place that the program names itself, as a path, a word or a line of a file.
fn placed_line(
    alloc: Global,
    program: &str,
    fault: &Fault,
    place: &[u8],
) -> Result<Vec<u8>, AllocError> {
    let number = fault.number();
    let mut line = Vec::from_slice(
        alloc,
        format!(in alloc; "{program}: E{number:02} ")?.as_bytes(),
    )?;
    line.extend_from_slice(place)?;
    line.extend_from_slice(format!(in alloc; ": {fault}")?.as_bytes())?;
    visible_text(alloc, &line, LineBreaks::Escaped)
}

/// Prints a fault by its line, and what helps: below the line where help is wanted, else behind it. Where there is no
/// memory for the line, the fault's number and words are printed.
pub fn tell_fault(
    rt: &HostRuntime,
    program: &str,
    fault: &Fault,
    line: Result<Vec<u8>, AllocError>,
    help: Result<Vec<u8>, AllocError>,
) {
    let Ok(line) = line else {
        let number = fault.number();
        let _ = eprintln!(rt; "{program}: E{number:02}: {fault}");
        return;
    };
    let help = match &help {
        Ok(help) => help.as_slice(),
        Err(_) => &[],
    };
    tell(
        rt,
        &Told {
            program,
            fault,
            line: &line,
            help,
        },
    );
}

/// Prints a fault at a place that the program names itself, as a path, a word or a line of a file, with what helps, and
/// gives the fault's status. Where no help is wanted all is on one line, else the help is below the fault's line.
pub fn refuse_at(
    rt: &HostRuntime,
    program: &str,
    fault: &Fault,
    place: &[u8],
    help: Result<Vec<u8>, AllocError>,
) -> u8
    ensures { result ≡ status_of fault.now }
{
    let line = placed_line(rt.alloc(), program, fault, place);
    tell_fault(rt, program, fault, line, help);
    status(fault)
}

/// Prints a fault as a program beside `radpolicy` does, and gives the fault's status: under the program's name, and with
/// what explains it, below the fault's line where help is wanted and else on one line with the place. Of what is printed,
/// names of files included, nothing has control characters.
pub fn refuse_explained(
    rt: &HostRuntime,
    program: &str,
    fault: &Fault,
    files: &FileSet,
    sources: &Sources<'_>,
) -> u8
    requires { IsPrintedWith files.now fault.now }
    ensures { result ≡ status_of fault.now }
{
    let line = named_line(rt.alloc(), program, fault, files);
    let help = explain(rt.alloc(), fault, sources);
    tell_fault(rt, program, fault, line, help);
    status(fault)
}

// What is said of a file that was not readable.
fn unread_help(rt: &HostRuntime, path: &str) -> Result<Vec<u8>, AllocError> {
    let is_folder = fs::metadata(rt, path).is_ok_and(|found| found.is_dir());
    explain_unread(rt.alloc(), path, is_folder)
}

/// Prints what is said of a file that was not readable, or where there is no dictionary, if help is wanted.
pub fn tell_unread(rt: &HostRuntime, unread: Unread<'_>) {
    match unread {
        Unread::File(path) if is_help_wanted(rt) => tell_help(rt, unread_help(rt, path)),
        Unread::NoDictionary => tell_help(rt, explain_no_dictionary(rt.alloc())),
        Unread::File(_) | Unread::Memory | Unread::SameNames => {}
    }
}

/// Prints the line of files that were not all read, with what is said of them, and gives its status. For programs beside
/// `radpolicy`: the path has no control characters.
pub fn refuse_unread_explained(rt: &HostRuntime, program: &str, unread: Unread<'_>) -> u8
    ensures { result ≡ status_of (fault_of_unread unread.entry) }
{
    let fault = unread.fault();
    match unread {
        Unread::File(path) => {
            refuse_at(rt, program, &fault, path.as_bytes(), unread_help(rt, path))
        }
        Unread::NoDictionary => {
            let alloc = rt.alloc();
            let line = named_line(alloc, program, &fault, &FileSet::from_vec(Vec::new(alloc)));
            tell_fault(rt, program, &fault, line, explain_no_dictionary(alloc));
            status(&fault)
        }
        Unread::Memory | Unread::SameNames => refuse_early(rt, program, &fault),
    }
}

/// Prints the line of words of a command line that were refused, and what is said of them; where help is wanted, also how
/// the program is asked for its options. Gives the fault's status.
pub fn refuse_words_of(
    rt: &HostRuntime,
    fault: &Fault,
    program: &str,
    said: Result<String, AllocError>,
) -> u8
    requires { IsPrintedWith [] fault.now }
    ensures { result ≡ status_of fault.now }
{
    let alloc = rt.alloc();
    let Ok(said) = said else {
        return refuse_early(rt, program, fault);
    };
    let help = if is_help_wanted(rt) {
        explain_options(alloc, fault, program, said.as_str())
    } else {
        explain_options_shortly(alloc, fault, said.as_str())
    };
    let line = named_line(alloc, program, fault, &FileSet::from_vec(Vec::new(alloc)));
    tell_fault(rt, program, fault, line, help);
    status(fault)
}

/// Prints the line of a name of the command line that is no attribute's of the dictionary, and which names are near; and
/// gives the fault's status.
pub fn refuse_name(rt: &HostRuntime, program: &str, dictionary: &Dictionary, name: &str) -> u8 {
    let fault = Fault::OptionValue;
    let help = explain_name(rt.alloc(), dictionary, name);
    refuse_at(rt, program, &fault, name.as_bytes(), help)
}
