//! Policies that are made of a server's statements.

ghost use Rattle.std.specs.Prelude.{◌≡◌, ◌+◌, All, length, IfOk, IfSome, OnOk};
ghost use Rattle.server_configuration.specs.Places.{AreOnLines, line_feeds};
ghost use Rattle.avp_unlang.specs.Policies.{SpellsPolicy};
ghost use Rattle.radpolicy_import_policies.specs.Imports.{kept_in, left_in, part_origins, warning_origins};
ghost use Rattle.radpolicy_import_policies.specs.OriginTexts.{EndAsTold};
ghost use Rattle.radpolicy_import_policies.specs.Origins.{AreLines, IsOfItem, line_origins};
ghost use Rattle.radpolicy_import_policies.specs.Statements.{count_of};

use crate::drafts::{Draft, DraftPart, DraftWarning};
use crate::faults::ImportFault;
use crate::importers::{Importer, is_before};
use crate::item_readers::ItemReader;
use crate::origin_texts::line_feeds;
use crate::origins::{LineOrigin, Origin, origin_of};
use crate::policy_texts::{PolicyText, rendered};
use crate::settings::{PROFILE_LINE, Settings};
use crate::statement_places::marks_of;
use crate::statements::{Statement, counted};
use avp_dict::Dictionary;
use avp_unlang::{Policy, PolicyKind, read_policy};
use radpolicy_import_conditions::{Difference, Reason};
use radpolicy_import_texts::{SecretNames, shown_item};
use server_configuration::Configuration;
use std::alloc::{AllocError, Global};

/// A part that is left out.
#[derive(Debug, Drop)]
pub struct LeftOut {
    pub origin: Origin,
    /// How many statements it is.
    pub count: usize,
    pub reason: Reason,
    /// What it says, or the beginning of it.
    pub shown: Vec<u8>,
}

/// What a server does otherwise with a condition or a line that is kept, or may do.
#[derive(Debug, Drop)]
pub struct Warning {
    pub origin: Origin,
    pub difference: Difference,
    /// What the condition or the line says, or the beginning of it.
    pub shown: Vec<u8>,
}

/// A policy, and what was left out of it.
#[derive(Drop)]
pub struct Imported {
    /// The policy's text. Each line ends as the settings ask for.
    pub text: Vec<u8>,
    /// The policy.
    pub policy: Policy,
    /// Where each line comes from.
    pub lines: Vec<LineOrigin>,
    pub left_out: Vec<LeftOut>,
    pub warnings: Vec<Warning>,
    /// How many statements were read.
    pub read: usize,
    /// How many of them are in the policy: those that its lines are.
    pub kept: usize,
    /// How many of those have a value that is given: the result of an expansion that an attribute is in place of.
    pub given: usize,
    /// How many calls of modules are comments.
    pub calls: usize,
}

// How many statements are left out.
fn left_in(parts: &[LeftOut]) -> Option<usize>
    ensures { IfSome result (λ n. n ≡ left_in parts.now) }
{
    let mut total = 0usize;
    for part in parts {
        total = total.checked_add(part.count)?;
    }
    Some(total)
}

// How many statements the lines are.
fn kept_in(lines: &[LineOrigin]) -> Option<usize>
    ensures { IfSome result (λ n. n ≡ kept_in lines.now) }
{
    let mut total = 0usize;
    for line in lines {
        total = total.checked_add(line.statements)?;
    }
    Some(total)
}

// How many statements are kept, where those and the ones that are left out are all that were read.
fn all_kept(lines: &[LineOrigin], parts: &[LeftOut], read: usize) -> Result<usize, ImportFault>
    ensures kept { IfOk result (λ kept. kept ≡ kept_in lines.now) }
    ensures all { IfOk result (λ kept. kept + left_in parts.now ≡ read) }
{
    let (Some(kept), Some(left)) = (kept_in(lines), left_in(parts)) else {
        return Err(ImportFault::TooManyStatements);
    };
    match kept.checked_add(left) {
        Some(all) if all == read => Ok(kept),
        _ => Err(ImportFault::Lost),
    }
}

// Adds a part, with its place.
#[tactic(auto, using(crate::proofs::FoundLines::parts_after))]
fn add_part(
    made: &mut Vec<LeftOut>,
    alloc: Global,
    configuration: &Configuration,
    hidden: Option<&SecretNames<'_>>,
    part: &DraftPart,
) -> Result<(), ImportFault>
    ensures { AreOnLines configuration.now.files.items configuration.now.items.items
        → AreLines configuration.now.files.items (part_origins made.old.items)
        → OnOk result (AreLines configuration.now.files.items (part_origins made.new.items)) }
{
    let Some(origin) = origin_of(configuration, part.place) else {
        return Err(ImportFault::Lost);
    };
    let shown = shown_item(alloc, hidden, configuration, part.place)?;
    made.push(LeftOut {
        origin,
        count: part.count,
        reason: part.reason,
        shown,
    })?;
    Ok(())
}

// What is left out, with its places.
fn left_out(
    alloc: Global,
    configuration: &Configuration,
    hidden: Option<&SecretNames<'_>>,
    parts: &[DraftPart],
) -> Result<Vec<LeftOut>, ImportFault>
    ensures { AreOnLines configuration.now.files.items configuration.now.items.items
        → IfOk result (λ made. AreLines configuration.now.files.items (part_origins made.items)) }
{
    let mut made = Vec::new(alloc);
    for part in parts {
        add_part(&mut made, alloc, configuration, hidden, part)?;
    }
    Ok(made)
}

// The warnings of a policy. One of the plain profile puts in a date as its number of seconds, of which policies warn.
fn warnings_in(
    alloc: Global,
    is_wider: bool,
    warnings: Vec<DraftWarning>,
) -> Result<Vec<DraftWarning>, AllocError> {
    let mut told = Vec::new(alloc);
    for warning in warnings {
        if is_wider || warning.difference != Difference::PrintedDate {
            told.push(warning)?;
        }
    }
    Ok(told)
}

// Adds a warning, with its place.
#[tactic(auto, using(crate::proofs::FoundLines::warnings_after))]
fn add_warning(
    made: &mut Vec<Warning>,
    alloc: Global,
    configuration: &Configuration,
    hidden: Option<&SecretNames<'_>>,
    warning: &DraftWarning,
) -> Result<(), ImportFault>
    ensures { AreOnLines configuration.now.files.items configuration.now.items.items
        → AreLines configuration.now.files.items (warning_origins made.old.items)
        → OnOk result (AreLines configuration.now.files.items (warning_origins made.new.items)) }
{
    let Some(origin) = origin_of(configuration, warning.place) else {
        return Err(ImportFault::Lost);
    };
    let shown = shown_item(alloc, hidden, configuration, warning.place)?;
    made.push(Warning {
        origin,
        difference: warning.difference,
        shown,
    })?;
    Ok(())
}

// What is warned of, with its places.
fn warnings_of(
    alloc: Global,
    configuration: &Configuration,
    hidden: Option<&SecretNames<'_>>,
    warnings: &[DraftWarning],
) -> Result<Vec<Warning>, ImportFault>
    ensures { AreOnLines configuration.now.files.items configuration.now.items.items
        → IfOk result (λ made.
        AreLines configuration.now.files.items (warning_origins made.items)) }
{
    let mut made = Vec::new(alloc);
    for warning in warnings {
        add_warning(&mut made, alloc, configuration, hidden, warning)?;
    }
    Ok(made)
}

// Why lines are no policy by themselves, if they are none: those of a statement, and before and after them those of the
// branch that they are in.
fn fault_of(
    alloc: Global,
    dictionary: &Dictionary,
    is_wider: bool,
    begin: Option<&Draft>,
    drafts: &[Draft],
) -> Result<Option<PolicyKind>, ImportFault> {
    let mut text = Vec::new(alloc);
    if is_wider {
        text.extend_from_slice(PROFILE_LINE)?;
        text.push(b'\n')?;
    }
    if let Some(draft) = begin {
        text.extend_from_slice(&draft.text)?;
        text.push(b'\n')?;
    }
    for draft in drafts {
        text.extend_from_slice(&draft.text)?;
        text.push(b'\n')?;
    }
    if begin.is_some() {
        text.push(b'}')?;
    }
    match read_policy(alloc, dictionary, &text) {
        Ok(_) => Ok(None),
        Err(fault) if fault.kind == PolicyKind::Memory => Err(ImportFault::Memory),
        Err(fault) => Ok(Some(fault.kind)),
    }
}

// Adds what becomes of a statement, in the branch that begins with a draft, if it is in one. What is refused as a whole
// is left out as one.
fn add_statement(
    alloc: Global,
    dictionary: &Dictionary,
    importer: &mut Importer<'_>,
    begin: Option<usize>,
    statement: &Statement,
) -> Result<(), ImportFault> {
    let (drafts, parts, calls) = (importer.drafts.len(), importer.parts.len(), importer.calls);
    let (wider, returns, given) = (importer.wider, importer.returns, importer.given);
    let (warnings, captured_else) = (importer.warnings.len(), importer.captured_else);
    let (tells_length, tagged) = (importer.tells_length, importer.tagged.len());
    importer.statement(statement)?;
    let Some(added) = importer.drafts.get(drafts..) else {
        return Ok(());
    };
    let is_wider = importer.wider.is_some();
    let begin = match begin {
        Some(at) => importer.drafts.get(at),
        None => None,
    };
    let Some(kind) = fault_of(alloc, dictionary, is_wider, begin, added)? else {
        return Ok(());
    };
    importer.drafts.truncate(drafts);
    importer.parts.truncate(parts);
    importer.calls = calls;
    importer.wider = wider;
    importer.returns = returns;
    importer.given = given;
    importer.warnings.truncate(warnings);
    importer.captured_else = captured_else;
    importer.tells_length = tells_length;
    importer.tagged.truncate(tagged);
    importer.begun = 0;
    let alone = std::slice::from_ref(statement);
    importer.leave_all(statement.place, alone, 0, Reason::Refused(kind))
}

// Adds what becomes of the statements of the section. What may follow `return` is in a branch.
fn add_statements(
    alloc: Global,
    dictionary: &Dictionary,
    importer: &mut Importer<'_>,
    statements: &[Statement],
) -> Result<(), ImportFault> {
    let last = importer.reader.last_acting(statements);
    let (mut rest, mut begin) = (None, None);
    for (at, statement) in statements.iter().enumerate() {
        let returns = importer.returns;
        importer.follows = is_before(at, last);
        add_statement(alloc, dictionary, importer, begin, statement)?;
        if is_before(at, last) && importer.returns != returns {
            rest = importer.begin_rest(rest, statement.place)?;
            begin = importer.drafts.len().checked_sub(1);
        }
    }
    importer.end_rest(rest)
}

// The lines of the policy, below that of the wider profile where one needs it.
fn with_profile(
    alloc: Global,
    wider: Option<usize>,
    drafts: Vec<Draft>,
) -> Result<Vec<Draft>, AllocError> {
    let Some(place) = wider else {
        return Ok(drafts);
    };
    let mut all = Vec::new(alloc);
    all.push(Draft {
        depth: 0,
        text: Vec::from_slice(alloc, PROFILE_LINE)?,
        place,
        policies: Vec::new(alloc),
        statements: 0,
    })?;
    for draft in drafts {
        all.push(draft)?;
    }
    Ok(all)
}

/// The policy that a server's statements become.
pub fn import_statements(
    alloc: Global,
    configuration: &Configuration,
    dictionary: &Dictionary,
    settings: Settings<'_>,
    statements: &[Statement],
) -> Result<Imported, ImportFault>
    // What is written is a policy.
    ensures policy { IfOk result (λ imported.
        SpellsPolicy dictionary.now imported.text.items imported.policy) }
    // The statements that are kept, line by line, and those that are left out are as many as were
    // read.
    ensures read { IfOk result (λ imported. imported.read ≡ count_of statements.now) }
    ensures kept { IfOk result (λ imported. imported.kept ≡ kept_in imported.lines.items) }
    ensures all { IfOk result (λ imported.
        imported.kept + left_in imported.left_out.items ≡ imported.read) }
    // Each line comes from a line of a file that was read, and so does each part that is left out,
    // and each warning.
    ensures lines { AreOnLines configuration.now.files.items configuration.now.items.items
        → IfOk result (λ imported.
        AreLines configuration.now.files.items (line_origins imported.lines.items)) }
    // It is that of a statement, or of a pair of the initial lists.
    ensures places { IfOk result (λ imported. All (IsOfItem configuration.now.items.items
        settings.entry.initial statements.now) imported.lines.items) }
    // The text's lines are these, in their order, and each ends in its own origin where the
    // settings ask for it.
    ensures numbers { IfOk result (λ imported.
        line_feeds imported.text.items ≡ length imported.lines.items) }
    ensures ends { IfOk result (λ imported. EndAsTold settings.entry.line_ends configuration.now
        imported.lines.items imported.text.items) }
    ensures parts { AreOnLines configuration.now.files.items configuration.now.items.items
        → IfOk result (λ imported. AreLines configuration.now.files.items
        (part_origins imported.left_out.items)) }
    ensures warnings { AreOnLines configuration.now.files.items configuration.now.items.items
        → IfOk result (λ imported. AreLines configuration.now.files.items
        (warning_origins imported.warnings.items)) }
{
    let mut importer = Importer::new(ItemReader {
        alloc,
        configuration,
        dictionary,
        settings,
    });
    importer.initial()?;
    add_statements(alloc, dictionary, &mut importer, statements)?;
    let Importer {
        drafts,
        parts,
        warnings,
        calls,
        wider,
        given,
        ..
    } = importer;
    let warnings = warnings_in(alloc, wider.is_some(), warnings)?;
    let drafts = with_profile(alloc, wider, drafts)?;
    let items = configuration.items.len();
    let marks = marks_of(alloc, items, settings.initial, statements)?;
    let made = rendered(alloc, configuration, &marks, settings.line_ends, &drafts)?;
    let PolicyText { text, lines } = made;
    if line_feeds(&text) != lines.len() {
        return Err(ImportFault::LineFeed);
    }
    let left_out = left_out(alloc, configuration, settings.hidden, &parts)?;
    let warnings = warnings_of(alloc, configuration, settings.hidden, &warnings)?;
    let policy = read_policy(alloc, dictionary, &text)?;
    let read = counted(statements)?;
    let kept = all_kept(&lines, &left_out, read)?;
    Ok(Imported {
        text,
        policy,
        lines,
        left_out,
        warnings,
        read,
        kept,
        given,
        calls,
    })
}
