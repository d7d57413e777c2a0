//! Refusals, as the program shows them: a line on standard error, and an exit status.

ghost use Rattle.std.specs.Prelude.{◌≡◌, []};
ghost use Rattle.radpolicy_common.specs.Refusals.{fault_of_unread};
ghost use Rattle.radpolicy.specs.Faults.{IsPrintedWith, status_of};
ghost use Rattle.radpolicy.specs.declared.faults.Fault.TheVariants.{OptionValue};

use crate::file_kinds::FileKind;
use crate::files::Unread;
use crate::terminals::{LineBreaks, visible_text};
use avp_dict::FileSet;
use radpolicy::{Fault, WriteOutput, print_named_fault, status};

/// Prints a fault's line under the name of a program, and gives its status, which is that of the fault even if the line
/// could not be printed.
pub fn refuse(rt: &HostRuntime, program: &str, fault: &Fault, files: &FileSet) -> u8
    requires { IsPrintedWith files.now fault.now }
    ensures { result ≡ status_of fault.now }
{
    let mut out = WriteOutput::new(rt.stderr());
    let _ = print_named_fault(program.as_bytes(), fault, files, &mut out);
    status(fault)
}

/// The same before any file was read.
pub fn refuse_early(rt: &HostRuntime, program: &str, fault: &Fault) -> u8
    requires { IsPrintedWith [] fault.now }
    ensures { result ≡ status_of fault.now }
{
    let files = FileSet::from_vec(Vec::new(rt.alloc()));
    refuse(rt, program, fault, &files)
}

/// Prints the line of files that were not all read, and gives its status: want of memory is E09, no dictionary file
/// E01, two of one name E02, and a file that was not readable E04 with its path.
pub fn refuse_unread(rt: &HostRuntime, program: &str, unread: Unread<'_>) -> u8
    ensures { result ≡ status_of (fault_of_unread unread.entry) }
{
    let fault = unread.fault();
    match unread {
        Unread::File(path) => {
            let _ = eprintln!(rt; "{program}: E04 {path}: {fault}");
            status(&fault)
        }
        _ => refuse_early(rt, program, &fault),
    }
}

/// Prints the line E02 of a file in which attribute lines or packets were to be, and which is of another kind, and gives
/// the status. The path has no control characters.
pub fn refuse_kind(rt: &HostRuntime, program: &str, path: &str, kind: FileKind) -> u8
    ensures { result ≡ status_of OptionValue }
{
    let advice = kind.advice();
    let _ = eprint!(rt; "{program}: E02 ");
    if let Ok(shown) = visible_text(rt.alloc(), path.as_bytes(), LineBreaks::Escaped) {
        let _ = rt.stderr().write_all(&shown);
    }
    let _ = eprintln!(rt; ": {advice}");
    status(&Fault::OptionValue)
}
