//! A fault's line, and help after it.

ghost use Rattle.std.specs.Prelude.{◌≡◌, true, false};
ghost use Rattle.std.specs.Io.KnownBytes.{Appends};
ghost use Rattle.radpolicy.specs.Faults.{IsPrintedWith, fault_line};
ghost use Rattle.radpolicy_help.specs.Helping.{helped_line};

use avp_dict::FileSet;
use radpolicy::{Fault, Output, print_fault, put_all};

/// Puts the line of a fault and, if all of it was taken, the help after it; says whether all was taken.
pub fn print_with_help<O: Output>(fault: &Fault, files: &FileSet, help: &[u8], out: &mut O) -> bool
    requires printed { IsPrintedWith files.now fault.now }
    requires works { O.has_failed out.old ≡ false }
    ensures both { result ≡ true
        → Appends (O.taken out.old) (O.taken out.new) (helped_line files.now fault.now help.now) }
{
    if !print_fault(fault, files, out) {
        return false;
    }
    match put_all(out, help) {
        Ok(()) => true,
        Err(_) => false,
    }
}
