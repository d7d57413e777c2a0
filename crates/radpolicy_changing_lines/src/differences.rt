//! The lines that made a difference between two runs.

ghost use Rattle.std.specs.Prelude.{◌≡◌, IfOk, OnOk};
ghost use Rattle.std.specs.List.{fold, list_any};
ghost use Rattle.radpolicy_changing_lines.specs.ChangingLines.{changing_line, stopping_line};
ghost use Rattle.radpolicy_changing_lines.specs.Differences.{line_of_change, line_of_result, lines_of, old_trace, same_line, with_change, with_changes, with_line, with_result};

use crate::runs::{changing_line, stopping_line};
use avp_lists::{AttrId, List, Store};
use avp_step::Stepper;
use std::alloc::{AllocError, Global};

/// A line of one of two policies, by its number from 1.
#[derive(Clone, Copy, Debug, PartialEq, Eq)]
pub enum PolicyLine {
    New(usize),
    Old(usize),
}

impl PolicyLine {
    pub fn equals(self, other: PolicyLine) -> bool
        ensures { result ≡ same_line self other }
    {
        match (self, other) {
            (PolicyLine::New(line), PolicyLine::New(own)) => line == own,
            (PolicyLine::Old(line), PolicyLine::Old(own)) => line == own,
            (PolicyLine::New(_), PolicyLine::Old(_)) | (PolicyLine::Old(_), PolicyLine::New(_)) => {
                false
            }
        }
    }
}

/// In what the end of a run differs from another.
#[derive(Clone, Copy)]
pub struct Difference<'a> {
    /// The result differs, or one run was stopped and the other was not.
    pub result: bool,
    /// The attributes of the reply list whose instances differ.
    pub reply: &'a [AttrId],
    /// Those of the control list.
    pub control: &'a [AttrId],
}

/// The run of the new policy, and that of the old one, if there is one.
#[derive(Drop)]
pub struct Runs<'a, S: Store> {
    pub new_run: Stepper<'a, S>,
    pub old_run: Option<Stepper<'a, S>>,
}

/// Whether a line is among these.
pub fn has_line(lines: &[PolicyLine], line: PolicyLine) -> bool
    ensures { result ≡ list_any (same_line line) lines.now }
{
    lines.iter().any(|own| line.equals(*own))
}

// Adds a line, where it is not among them.
fn add_line(lines: &mut Vec<PolicyLine>, line: PolicyLine) -> Result<(), AllocError>
    ensures { OnOk result (lines.new.items ≡ with_line lines.old.items line) }
{
    if !has_line(lines, line) {
        lines.push(line)?;
    }
    Ok(())
}

// The line of the old run that changed an attribute.
fn old_line<S: Store>(
    alloc: Global,
    old: &mut Option<Stepper<'_, S>>,
    list: List,
    id: AttrId,
) -> Result<Option<usize>, AllocError>
    ensures line { IfOk result (λ line. line ≡ changing_line list id (old_trace old.old)) }
    ensures trace { old_trace old.new ≡ old_trace old.old }
{
    match old {
        Some(run) => changing_line(alloc, run, list, id),
        None => Ok(None),
    }
}

// The line that stopped the old run.
fn old_stop<S: Store>(old: &mut Option<Stepper<'_, S>>) -> Result<Option<usize>, AllocError>
    ensures line { IfOk result (λ line. line ≡ stopping_line (old_trace old.old)) }
    ensures trace { old_trace old.new ≡ old_trace old.old }
{
    match old {
        Some(run) => stopping_line(run),
        None => Ok(None),
    }
}

impl<S: Store> Runs<'_, S> {
    // The line that changed an attribute of a list.
    fn line_of_change(
        &mut self,
        alloc: Global,
        list: List,
        id: AttrId,
    ) -> Result<Option<PolicyLine>, AllocError>
        ensures line { IfOk result (λ line.
            line ≡ line_of_change self.old.new_run.trace (old_trace self.old.old_run) list id) }
        ensures new { self.new.new_run.trace ≡ self.old.new_run.trace }
        ensures old { old_trace self.new.old_run ≡ old_trace self.old.old_run }
    {
        if let Some(line) = changing_line(alloc, &mut self.new_run, list, id)? {
            return Ok(Some(PolicyLine::New(line)));
        }
        match old_line(alloc, &mut self.old_run, list, id)? {
            Some(line) => Ok(Some(PolicyLine::Old(line))),
            None => Ok(None),
        }
    }

    // Adds the line that changed an attribute of a list.
    fn add_change(
        &mut self,
        lines: &mut Vec<PolicyLine>,
        list: List,
        id: AttrId,
    ) -> Result<(), AllocError>
        ensures lines { OnOk result (lines.new.items ≡ with_change self.old.new_run.trace
            (old_trace self.old.old_run) list lines.old.items id) }
        ensures new { self.new.new_run.trace ≡ self.old.new_run.trace }
        ensures old { old_trace self.new.old_run ≡ old_trace self.old.old_run }
    {
        let alloc = *lines.allocator();
        match self.line_of_change(alloc, list, id)? {
            Some(line) => add_line(lines, line),
            None => Ok(()),
        }
    }

    // Adds the lines that changed attributes of a list.
    fn add_changes(
        &mut self,
        lines: &mut Vec<PolicyLine>,
        list: List,
        ids: &[AttrId],
    ) -> Result<(), AllocError>
        ensures lines { OnOk result (lines.new.items ≡ with_changes self.old.new_run.trace
            (old_trace self.old.old_run) list ids.now lines.old.items) }
        ensures new { self.new.new_run.trace ≡ self.old.new_run.trace }
        ensures old { old_trace self.new.old_run ≡ old_trace self.old.old_run }
    {
        let mut rest = ids;
        while let [id, later @ ..] = rest {
            self.add_change(lines, list, *id)?;
            rest = later;
        }
        Ok(())
    }

    // The line that stopped the new run, or else the old one.
    fn line_of_result(&mut self) -> Result<Option<PolicyLine>, AllocError>
        ensures { IfOk result (λ line. line
            ≡ line_of_result self.old.new_run.trace (old_trace self.old.old_run)) }
    {
        if let Some(line) = stopping_line(&mut self.new_run)? {
            return Ok(Some(PolicyLine::New(line)));
        }
        match old_stop(&mut self.old_run)? {
            Some(number) => Ok(Some(PolicyLine::Old(number))),
            None => Ok(None),
        }
    }

    // Adds the line that stopped a run, where the result differs.
    fn add_result(&mut self, lines: &mut Vec<PolicyLine>, differs: bool) -> Result<(), AllocError>
        ensures { OnOk result (lines.new.items ≡ with_result self.old.new_run.trace
            (old_trace self.old.old_run) differs lines.old.items) }
    {
        if !differs {
            return Ok(());
        }
        match self.line_of_result()? {
            Some(line) => add_line(lines, line),
            None => Ok(()),
        }
    }

    /// The lines that made a difference, each once: for each attribute that differs the last line of the new policy
    /// that changed it, or where none did that of the old one; and where the result differs, the line that stopped the
    /// new run, or else the old one.
    pub fn lines_of(
        self,
        alloc: Global,
        difference: &Difference<'_>,
    ) -> Result<Vec<PolicyLine>, AllocError>
        ensures { IfOk result (λ lines. lines.items
            ≡ lines_of self.entry.new_run.trace (old_trace self.entry.old_run) difference.now.result
            difference.now.reply.now difference.now.control.now) }
    {
        let mut runs = self;
        let mut lines = Vec::new(alloc);
        runs.add_changes(&mut lines, List::Reply, difference.reply)?;
        runs.add_changes(&mut lines, List::Control, difference.control)?;
        runs.add_result(&mut lines, difference.result)?;
        Ok(lines)
    }
}
