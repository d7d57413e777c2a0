//! The text of a policy, and where each line of it comes from.

ghost use Rattle.std.specs.Prelude.{◌≡◌, ◌++◌, All, IfOk, OnOk};
ghost use Rattle.server_configuration.specs.Places.{AreOnLines, HasLine};
ghost use Rattle.radpolicy_import_policies.specs.OriginTexts.{EndAsTold, line_end};
ghost use Rattle.radpolicy_import_policies.specs.Origins.{AreLines, line_origins};
ghost use Rattle.radpolicy_import_policies.specs.internal.Marks.{IsMarked};

use crate::drafts::Draft;
use crate::faults::ImportFault;
use crate::origin_texts::{push_origin, push_policies};
use crate::origins::{LineOrigin, origin_of};
use crate::settings::{LineEnds, PROFILE_LINE};
use server_configuration::Configuration;
use std::alloc::{AllocError, Global};

/// A policy's text, and where each line of it comes from.
#[derive(Drop)]
pub(crate) struct PolicyText {
    pub(crate) text: Vec<u8>,
    pub(crate) lines: Vec<LineOrigin>,
}

// What a line says, as deep as it is in blocks.
fn indented(alloc: Global, draft: &Draft) -> Result<Vec<u8>, AllocError> {
    let mut said = Vec::new(alloc);
    for _ in 0..draft.depth {
        said.push(b'\t')?;
    }
    said.extend_from_slice(&draft.text)?;
    Ok(said)
}

// What a line that says this ends in.
fn push_line_end(
    out: &mut Vec<u8>,
    configuration: &Configuration,
    line_ends: LineEnds,
    said: &[u8],
    line: &LineOrigin,
) -> Result<(), AllocError>
    ensures { OnOk result (out.new.items
        ≡ out.old.items ++ line_end line_ends configuration.now said.now line.now) }
{
    match line_ends {
        // Words after those of the profile's line would make it another comment.
        LineEnds::Origins if said != PROFILE_LINE => {
            out.extend_from_slice(b"  # ")?;
            push_origin(out, configuration, line.origin)?;
            push_policies(out, configuration, &line.policies)
        }
        LineEnds::Origins | LineEnds::Nothing => Ok(()),
    }
}

// Where a line comes from, which is marked, and how many statements it is.
#[tactic(auto, using(crate::proofs::FoundLines::line_of_origin, crate::proofs::MarkedLines::is_marked))]
fn line_of(
    alloc: Global,
    configuration: &Configuration,
    marks: &[bool],
    draft: &Draft,
) -> Result<LineOrigin, ImportFault>
    ensures line { AreOnLines configuration.now.files.items configuration.now.items.items
        → IfOk result (λ line.
        HasLine configuration.now.files.items line.origin.file line.origin.line) }
    ensures place { IfOk result (IsMarked configuration.now.items.items marks.now) }
{
    let Some(origin) = origin_of(configuration, draft.place) else {
        return Err(ImportFault::Lost);
    };
    if marks.get(draft.place) != Some(&true) {
        return Err(ImportFault::Lost);
    }
    Ok(LineOrigin {
        origin,
        policies: Vec::from_slice(alloc, &draft.policies)?,
        statements: draft.statements,
    })
}

// Adds a line.
#[tactic(auto, using(crate::proofs::FoundLines::lines_after))]
fn add_line(
    alloc: Global,
    configuration: &Configuration,
    marks: &[bool],
    line_ends: LineEnds,
    made: &mut PolicyText,
    draft: &Draft,
) -> Result<(), ImportFault>
    ensures lines { AreOnLines configuration.now.files.items configuration.now.items.items
        → AreLines configuration.now.files.items (line_origins made.old.lines.items)
        → OnOk result (AreLines configuration.now.files.items (line_origins made.new.lines.items)) }
    ensures ends { EndAsTold line_ends configuration.now made.old.lines.items made.old.text.items
        → OnOk result (EndAsTold line_ends configuration.now
        made.new.lines.items made.new.text.items) }
    ensures places { All (IsMarked configuration.now.items.items marks.now) made.old.lines.items
        → OnOk result (All (IsMarked configuration.now.items.items marks.now)
        made.new.lines.items) }
{
    let said = indented(alloc, draft)?;
    let line = line_of(alloc, configuration, marks, draft)?;
    made.text.extend_from_slice(&said)?;
    push_line_end(&mut made.text, configuration, line_ends, &said, &line)?;
    made.text.push(b'\n')?;
    made.lines.push(line)?;
    Ok(())
}

/// The lines of a policy, and where each comes from.
#[tactic(auto, using(crate::proofs::EndedLines::no_lines))]
pub(crate) fn rendered(
    alloc: Global,
    configuration: &Configuration,
    marks: &[bool],
    line_ends: LineEnds,
    drafts: &[Draft],
) -> Result<PolicyText, ImportFault>
    ensures lines { AreOnLines configuration.now.files.items configuration.now.items.items
        → IfOk result (λ made.
        AreLines configuration.now.files.items (line_origins made.lines.items)) }
    ensures ends { IfOk result (λ made.
        EndAsTold line_ends configuration.now made.lines.items made.text.items) }
    ensures places { IfOk result (λ made.
        All (IsMarked configuration.now.items.items marks.now) made.lines.items) }
{
    let mut made = PolicyText {
        text: Vec::new(alloc),
        lines: Vec::new(alloc),
    };
    for draft in drafts {
        add_line(alloc, configuration, marks, line_ends, &mut made, draft)?;
    }
    Ok(made)
}
