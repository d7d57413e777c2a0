//! The files of a plan, and the record in them that is the request.

ghost use Rattle.std.specs.Prelude.{◌≡◌, ◌<◌, IfOk, length};
ghost use Rattle.avp_dict.specs.Lines.{HasDistinctNames};

use crate::plans::StartPlan;
use crate::start_files::StartFiles;
use radpolicy::{Fault, status};
use radpolicy_common::{file_kind, refuse_early, refuse_kind};
use radpolicy_help::{STANDARD_INPUT, refuse_unread_explained};
use radpolicy_record_answers::{AskedRecord, Search, find_record, search_text};
use std::io::Write;

// Says why the record of this name is not the request, and gives the status.
fn refuse_record(rt: &HostRuntime, program: &str, path: &str, name: &str, search: &Search) -> u8 {
    let _ = eprint!(rt; "{program}: ");
    if let Ok(said) = search_text(rt.alloc(), path, name, search) {
        let _ = rt.stderr().write_all(&said);
    }
    status(&Fault::OptionValue)
}

// Takes the record that a plan names, if it names one; or gives the status, where it was said why there is none.
fn take_named(
    rt: &HostRuntime,
    program: &str,
    plan: &mut StartPlan<'_>,
    files: &mut StartFiles,
) -> Result<(), u8>
    ensures { files.new.dictionary ≡ files.old.dictionary }
{
    let Some(name) = plan.record else {
        return Ok(());
    };
    let asked = AskedRecord {
        form: plan.form,
        name,
        server: plan.server,
    };
    match find_record(rt.alloc(), files.request.as_slice(), asked) {
        Ok(Search::Found(record)) => {
            plan.form = files.take_record(record);
            Ok(())
        }
        Ok(search) => {
            let path = plan.request.unwrap_or(STANDARD_INPUT);
            Err(refuse_record(rt, program, path, name, &search))
        }
        Err(_) => Err(refuse_early(rt, program, &Fault::Memory)),
    }
}

/// What the files of a plan hold. Where it names a record, the request is that of the record, and the plan's form the
/// record's. Where a file can't be read, or there is no such record, says so and gives the status.
pub fn open_start(
    rt: &HostRuntime,
    program: &str,
    plan: &mut StartPlan<'_>,
) -> Result<StartFiles, u8>
    ensures first { IfOk result (λ files. 0 < length files.dictionary) }
    ensures distinct { IfOk result (λ files. HasDistinctNames files.dictionary) }
{
    let mut files = match StartFiles::read(rt, plan) {
        Ok(files) => files,
        Err(unread) => return Err(refuse_unread_explained(rt, program, unread)),
    };
    if let Some(kind) = file_kind(files.request.as_slice()) {
        let path = plan.request.unwrap_or(STANDARD_INPUT);
        return Err(refuse_kind(rt, program, path, kind));
    }
    take_named(rt, program, plan, &mut files)?;
    Ok(files)
}
