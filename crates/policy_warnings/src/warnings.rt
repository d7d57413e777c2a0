//! What a policy is warned of.

ghost use Rattle.std.specs.Prelude.{◌≡◌, ◌++◌, ◌∷◌, [], IfOk, OnOk};
ghost use Rattle.std.specs.List.{flat_map};
ghost use Rattle.policy_warnings.specs.Warnings.{is_filter, is_literal, is_replacement, is_undone, line_warnings, lines_warnings, undone_by, update_warnings, warning, warning_if, warnings_in, warnings_in_branch, warnings_of};

use crate::absences::warns_of_absence;
use crate::mentions::{is_within, same_list};
use avp_lists::Op;
use avp_unlang::{Branch, Line, Source, Statement};
use std::alloc::{AllocError, Global};

/// Why a policy is warned of something.
#[derive(Clone, Copy, Debug, PartialEq, Eq)]
pub enum Reason {
    /// A condition compares an attribute that may be absent, where that matters.
    AbsentComparison,
    /// An `update` without lines.
    EmptyUpdate,
    /// `==` in an `update`.
    FilterInUpdate,
    /// A line that the next one undoes.
    UndoneLine,
    /// A `transaction`.
    TransactionBlock,
    /// `:=` of an attribute of which there may be several instances.
    SeveralInstances,
    /// An `&` source that may be absent.
    AbsentSource,
    /// A condition that repeats an earlier one of its chain.
    RepeatedCondition,
    /// A word without `&` and without quotes that a server takes for an attribute.
    BareName,
    /// An attribute that a server makes itself.
    VirtualAttribute,
    /// A comparison for which a server asks a module.
    ModuleComparison,
    /// A number in hexadecimal that a server reads otherwise.
    HexadecimalNumber,
    /// An empty text for an attribute with a tag.
    EmptyTagged,
    /// `-=` of an IPv6 prefix.
    ShortPrefix,
    /// A repetition of a letter beyond ASCII.
    RepeatedOctet,
    /// A `^` that matches at the beginning of each line.
    LineStart,
}

/// A warning, and the line of the text that it is about.
#[derive(Clone, Copy, Debug, Drop, PartialEq, Eq)]
pub struct Warning {
    pub line: usize,
    pub reason: Reason,
}

fn is_filter(op: Op) -> bool
    ensures { result ≡ is_filter op }
{
    op == Op::KeepEqual
}

pub(crate) fn is_replacement(op: Op) -> bool
    ensures { result ≡ is_replacement op }
{
    op == Op::Replace
}

fn is_literal(source: &Source) -> bool
    ensures { result ≡ is_literal source.now }
{
    matches!(source, Source::Literal(_))
}

fn is_undone(line: &Line, next: &Line) -> bool
    ensures { result ≡ is_undone line.now next.now }
{
    is_replacement(line.op)
        && is_replacement(next.op)
        && same_list(line.list, next.list)
        && line.id.equals(next.id)
        && is_within(line.selection, next.selection)
        && is_literal(&next.source)
}

pub(crate) fn push_if(
    warnings: &mut Vec<Warning>,
    test: bool,
    line: usize,
    reason: Reason,
) -> Result<(), AllocError>
    ensures { OnOk result (warnings.new.items
        ≡ warnings.old.items ++ warning_if test line reason) }
{
    if test {
        warnings.push(Warning { line, reason })?;
    }
    Ok(())
}

fn push_undone(warnings: &mut Vec<Warning>, line: &Line, others: &[Line]) -> Result<(), AllocError>
    ensures { OnOk result (warnings.new.items
        ≡ warnings.old.items ++ undone_by line.now others.now) }
{
    match others {
        [] => Ok(()),
        [next, ..] => push_if(
            warnings,
            is_undone(line, next),
            line.line,
            Reason::UndoneLine,
        ),
    }
}

fn push_line(warnings: &mut Vec<Warning>, line: &Line, others: &[Line]) -> Result<(), AllocError>
    ensures { OnOk result (warnings.new.items
        ≡ warnings.old.items ++ line_warnings line.now others.now) }
{
    push_if(
        warnings,
        is_filter(line.op),
        line.line,
        Reason::FilterInUpdate,
    )?;
    push_undone(warnings, line, others)
}

fn push_lines(warnings: &mut Vec<Warning>, lines: &[Line]) -> Result<(), AllocError>
    ensures { OnOk result (warnings.new.items ≡ warnings.old.items ++ lines_warnings lines.now) }
{
    let mut rest = lines;
    while let [line, others @ ..] = rest {
        push_line(warnings, line, others)?;
        rest = others;
    }
    Ok(())
}

fn push_update(warnings: &mut Vec<Warning>, n: usize, lines: &[Line]) -> Result<(), AllocError>
    ensures { OnOk result (warnings.new.items
        ≡ warnings.old.items ++ update_warnings n lines.now) }
{
    match lines {
        [] => push_if(warnings, true, n, Reason::EmptyUpdate),
        [_, ..] => push_lines(warnings, lines),
    }
}

#[cycle(blocks)]
fn push_block(warnings: &mut Vec<Warning>, block: &[Statement]) -> Result<(), AllocError>
    ensures { OnOk result (warnings.new.items ≡ warnings.old.items ++ warnings_of block.now) }
{
    for statement in block {
        push_statement(warnings, statement)?;
    }
    Ok(())
}

#[cycle(blocks)]
#[tactic(auto, using(crate::proofs::Blocks::branch_out))]
fn push_branch(warnings: &mut Vec<Warning>, branch: &Branch) -> Result<(), AllocError>
    ensures { OnOk result (warnings.new.items
        ≡ warnings.old.items ++ warnings_in_branch branch.now) }
{
    let is_warned = warns_of_absence(&branch.cond);
    push_if(warnings, is_warned, branch.line, Reason::AbsentComparison)?;
    push_block(warnings, branch.block.as_slice())
}

#[cycle(blocks)]
fn push_branches(warnings: &mut Vec<Warning>, branches: &[Branch]) -> Result<(), AllocError>
    ensures { OnOk result (warnings.new.items
        ≡ warnings.old.items ++ flat_map warnings_in_branch branches.now) }
{
    for branch in branches {
        push_branch(warnings, branch)?;
    }
    Ok(())
}

#[cycle(blocks)]
#[tactic(auto, using(crate::proofs::Blocks::in_update, crate::proofs::Blocks::in_if, crate::proofs::Blocks::in_transaction, crate::proofs::Blocks::in_word))]
fn push_statement(warnings: &mut Vec<Warning>, statement: &Statement) -> Result<(), AllocError>
    ensures { OnOk result (warnings.new.items ≡ warnings.old.items ++ warnings_in statement.now) }
{
    match statement {
        Statement::Update(line, lines) => push_update(warnings, *line, lines.as_slice()),
        Statement::If(branches, otherwise) => {
            push_branches(warnings, branches.as_slice())?;
            match otherwise {
                Some(block) => push_block(warnings, block.as_slice()),
                None => Ok(()),
            }
        }
        Statement::Transaction(line, block) => {
            push_if(warnings, true, *line, Reason::TransactionBlock)?;
            push_block(warnings, block.as_slice())
        }
        Statement::Word(_, _) => Ok(()),
    }
}

/// What statements are warned of, in the order of their text.
pub fn warnings_of(alloc: Global, statements: &[Statement]) -> Result<Vec<Warning>, AllocError>
    ensures { IfOk result (λ warnings. warnings.items ≡ warnings_of statements.now) }
{
    let mut warnings = Vec::new(alloc);
    push_block(&mut warnings, statements)?;
    Ok(warnings)
}
