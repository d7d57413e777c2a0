//! What is said at the end of a replay, on standard error.

use crate::command_line::{AgainstPlan, Plan};
use crate::counted_lines::{PolicyTexts, counted_lines};
use crate::equal_differences::{EqualDifference, equal_differences};
use crate::json_summaries::json_summary;
use crate::places::shown;
use radpolicy_replay_records::{Layout, Summary};
use std::alloc::{AllocError, Global};

/// What a replay came to.
#[derive(Drop)]
pub struct Ended {
    pub summary: Summary,
    /// Whether packets were read without a secret.
    pub is_unchecked: bool,
    /// How many records a second were read, where that can be told.
    pub rate: Option<u64>,
}

/// Whether answers were to be compared, and each record that was taken was refused.
pub fn is_nothing_compared(plan: &Plan<'_>, summary: &Summary) -> bool {
    plan.comparison.is_some()
        && summary.refused > 0
        && summary.refused.saturating_add(summary.left_out) >= summary.read
}

// How many records were not asked for, where only some were.
fn left_out_shown(alloc: Global, plan: &Plan<'_>, summary: &Summary) -> Result<String, AllocError> {
    let left_out = summary.left_out;
    match plan.only {
        Some(_) => format!(in alloc; ", {left_out} left out"),
        None => Ok(String::new(alloc)),
    }
}

// How many records there were, and of which kinds.
fn show_kinds(rt: &HostRuntime, plan: &Plan<'_>, summary: &Summary) -> Result<(), AllocError> {
    let (read, refused) = (summary.read, summary.refused);
    let left_out = left_out_shown(rt.alloc(), plan, summary)?;
    let Some(comparison) = &plan.comparison else {
        let _ = eprintln!(rt; "{read} read{left_out}, {refused} refused");
        return Ok(());
    };
    let (same, different) = (summary.same, summary.different);
    let (unanswered, challenged) = (summary.unanswered, summary.challenged);
    let _ = match comparison.against {
        AgainstPlan::File(_) => {
            eprintln!(rt;
                "{read} read{left_out}, {same} same, {different} different, {refused} refused"
            )
        }
        AgainstPlan::Captured => eprintln!(rt;
            "{read} read{left_out}, {same} same, {different} different, {unanswered} unanswered, \
            {challenged} challenged, {refused} refused"
        ),
    };
    Ok(())
}

// A difference that several records have, and which they are.
fn show_difference(rt: &HostRuntime, equal: &EqualDifference) -> Result<(), AllocError> {
    let records = equal.records;
    let text = shown(rt.alloc(), &equal.text)?;
    let names = shown(rt.alloc(), &equal.names_in_row(rt.alloc())?)?;
    let _ = eprintln!(rt; "  {records} records: {text} ({names})");
    Ok(())
}

// The differences that several records have. One that a single record has is told of that.
fn show_differences(rt: &HostRuntime, summary: &Summary) -> Result<(), AllocError> {
    for equal in &equal_differences(rt.alloc(), summary.differences.as_slice(), 2)? {
        show_difference(rt, equal)?;
    }
    Ok(())
}

// Which lines made records different, and how many each.
fn show_lines(
    rt: &HostRuntime,
    plan: &Plan<'_>,
    texts: PolicyTexts<'_>,
    summary: &Summary,
) -> Result<(), AllocError> {
    for line in counted_lines(rt.alloc(), plan, texts, summary.lines.as_slice())? {
        let (records, number) = (line.records, line.number);
        let path = shown(rt.alloc(), line.policy.as_bytes())?;
        let text = shown(rt.alloc(), &line.text)?;
        let _ = eprintln!(rt; "  {records} by {path}:{number}: {text}");
    }
    Ok(())
}

/// How many records there were, of which kinds, which differences several have, which lines of the policies made them different, and how fast it went.
pub fn show_summary(
    rt: &HostRuntime,
    plan: &Plan<'_>,
    texts: PolicyTexts<'_>,
    ended: &Ended,
) -> Result<(), AllocError> {
    if plan.layout == Layout::Json {
        let line = String::from_utf8_lossy(
            rt.alloc(),
            &json_summary(rt.alloc(), plan, texts, ended)?,
        )?;
        let _ = eprintln!(rt; "{line}");
        return Ok(());
    }
    show_kinds(rt, plan, &ended.summary)?;
    if is_nothing_compared(plan, &ended.summary) {
        let _ = eprintln!(rt; "every record is refused: --all tells why");
    }
    show_differences(rt, &ended.summary)?;
    show_lines(rt, plan, texts, &ended.summary)?;
    if ended.is_unchecked {
        let _ = eprintln!(rt;
            "no secret: hidden values are octets, no authenticator was checked, no reply packet was made"
        );
    }
    if let Some(rate) = ended.rate {
        let _ = eprintln!(rt; "{rate} records a second");
    }
    Ok(())
}
