//! The report of a check: what a dictionary holds.

ghost use Rattle.std.specs.Prelude.{◌≡◌, ◌<◌, ◌++◌, All, length, IfOk, OnOk};
ghost use Rattle.std.specs.List.{flat_map};
ghost use Rattle.radpolicy.specs.Faults.{name_at};
ghost use Rattle.radpolicy.specs.Reports.{count_line, dictionary_text, note_line, size_text};

use avp_dict::{Dictionary, FileSet, NamedFile, Note};
use itoa::Buffer;
use std::alloc::{AllocError, Global};

/// A count after its name.
pub(crate) fn push_count(text: &mut Vec<u8>, name: &str, count: usize) -> Result<(), AllocError>
    ensures { OnOk result (text.new.items ≡ text.old.items ++ count_line name.now count) }
{
    let mut digits = Buffer::new();
    text.extend_from_slice(name.as_bytes())?;
    text.extend_from_slice(b" ")?;
    text.extend_from_slice(digits.format(count).as_bytes())?;
    text.extend_from_slice(b"\n")?;
    Ok(())
}

fn name_at(files: &[NamedFile], place: usize) -> &[u8]
    requires { place < length files.now }
    ensures { result.now ≡ name_at files.now place }
{
    files[place].name.as_slice()
}

fn push_note(text: &mut Vec<u8>, files: &[NamedFile], note: &Note) -> Result<(), AllocError>
    requires { note.now.file < length files.now }
    ensures { OnOk result (text.new.items ≡ text.old.items ++ note_line files.now note.now) }
{
    let mut digits = Buffer::new();
    text.extend_from_slice(b"note ")?;
    text.extend_from_slice(name_at(files, note.file))?;
    text.extend_from_slice(b":")?;
    text.extend_from_slice(digits.format(note.line).as_bytes())?;
    text.extend_from_slice(b"\n")?;
    Ok(())
}

fn push_notes(text: &mut Vec<u8>, files: &[NamedFile], notes: &[Note]) -> Result<(), AllocError>
    requires { All (λ note. note.file < length files.now) notes.now }
    ensures { OnOk result (text.new.items ≡ text.old.items
        ++ flat_map (note_line files.now) notes.now) }
{
    for note in notes {
        push_note(text, files, note)?;
    }
    Ok(())
}

// The line of a policy's size, where there is a policy.
fn push_size(text: &mut Vec<u8>, size: Option<usize>) -> Result<(), AllocError>
    ensures { OnOk result (text.new.items ≡ text.old.items ++ size_text size) }
{
    match size {
        Some(size) => push_count(text, "size", size),
        None => Ok(()),
    }
}

/// The text of a check of these files, which hold this dictionary, with a policy of this size.
pub(crate) fn text_of_check(
    alloc: Global,
    files: &FileSet,
    dictionary: &Dictionary,
    size: Option<usize>,
) -> Result<Vec<u8>, AllocError>
    requires { All (λ note. note.file < length files.now) dictionary.now.notes }
    ensures { IfOk result (λ text. text.items ≡ dictionary_text files.now dictionary.now
        ++ size_text size) }
{
    let counts = dictionary.counts();
    let notes = dictionary.notes();
    let mut text = Vec::new(alloc);
    push_count(&mut text, "files", files.as_slice().len())?;
    push_count(&mut text, "attributes", counts.attributes)?;
    push_count(&mut text, "values", counts.values)?;
    push_count(&mut text, "vendors", counts.vendors)?;
    push_count(&mut text, "notes", notes.len())?;
    push_notes(&mut text, files.as_slice(), notes)?;
    push_size(&mut text, size)?;
    Ok(text)
}
