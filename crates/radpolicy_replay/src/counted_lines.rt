//! The lines of the policies that made records different.

use crate::command_line::Plan;
use radpolicy_changing_lines::PolicyLine;
use radpolicy_common::{Redaction, policy_shown};
use radpolicy_replay_records::LineCount;
use std::alloc::{AllocError, Global};

/// The texts of the policies, and what is hidden of them.
#[derive(Clone, Copy)]
pub struct PolicyTexts<'a> {
    pub new: &'a [u8],
    /// Empty where answers are compared with no policy's.
    pub old: &'a [u8],
    pub redaction: &'a Redaction<'a>,
}

/// A line of a policy, and how many records it made different.
#[derive(Drop)]
pub struct CountedLine<'a> {
    pub records: u64,
    /// The path of the policy.
    pub policy: &'a str,
    pub number: usize,
    /// Without what is hidden, and without the blanks around it.
    pub text: Vec<u8>,
}

// How many records each line of a policy made different, by the lines' numbers.
type Counts = Vec<(usize, u64)>;

// The counts of the lines of the new policy and of the old one, each in the order of lines.
fn counts_in_order(alloc: Global, counts: &[LineCount]) -> Result<(Counts, Counts), AllocError> {
    let (mut new, mut old) = (Vec::new(alloc), Vec::new(alloc));
    for count in counts {
        match count.line {
            PolicyLine::New(line) => new.push((line, count.records))?,
            PolicyLine::Old(line) => old.push((line, count.records))?,
        }
    }
    new.sort()?;
    old.sort()?;
    Ok((new, old))
}

// Adds the lines of the policy of this path and this text that have counts.
fn push_lines<'a>(
    lines: &mut Vec<CountedLine<'a>>,
    redaction: &Redaction<'_>,
    policy: &'a str,
    text: &[u8],
    counts: &[(usize, u64)],
) -> Result<(), AllocError> {
    if counts.is_empty() {
        return Ok(());
    }
    let alloc = *lines.allocator();
    let shown = policy_shown(alloc, redaction, text)?;
    let texts: Vec<&[u8]> = shown.split(|octet| *octet == b'\n').collect(alloc)?;
    for (number, records) in counts {
        let text = texts.get(number.saturating_sub(1)).copied().unwrap_or(&[]);
        lines.push(CountedLine {
            records: *records,
            policy,
            number: *number,
            text: Vec::from_slice(alloc, text.trim_ascii())?,
        })?;
    }
    Ok(())
}

/// The lines of the new policy and then those of the old one, each in their order.
pub fn counted_lines<'a>(
    alloc: Global,
    plan: &Plan<'a>,
    texts: PolicyTexts<'_>,
    counts: &[LineCount],
) -> Result<Vec<CountedLine<'a>>, AllocError> {
    let (new, old) = counts_in_order(alloc, counts)?;
    let mut lines = Vec::new(alloc);
    push_lines(&mut lines, texts.redaction, plan.policy, texts.new, &new)?;
    if let Some(path) = plan.old_policy() {
        push_lines(&mut lines, texts.redaction, path, texts.old, &old)?;
    }
    Ok(lines)
}
