//! How many records each line of the policies made different.

ghost use Rattle.std.specs.Prelude.{◌≡◌, ◌<◌, ◌+◌, ◌++◌, ◌^◌, [], All, IfOk, OnOk, filter, map};
ghost use Rattle.radpolicy_replay_records.specs.LineCounts.{counted_once, first_count, is_counted, is_new, with_lines};
ghost use Rattle.radpolicy_replay_records.specs.declared.line_counts.LineCount.{LineCount as Count};

use radpolicy_changing_lines::{PolicyLine, has_line};
use std::alloc::{AllocError, Global};
use std::marker::Model;

/// How many records a line made different.
#[derive(Clone, Copy, Debug, PartialEq, Eq)]
pub struct LineCount {
    pub line: PolicyLine,
    pub records: u64,
}

/// How many records each line made different, of those that made one different.
#[derive(Drop)]
pub struct LineCounts {
    counts: Vec<LineCount>,
}

impl Model for LineCounts {
    ghost use Rattle.std.specs.Prelude.{List};
    ghost use Rattle.radpolicy_replay_records.specs.declared.line_counts.LineCount.{LineCount};

    ghost Value = { List LineCount };

    ghost view = { λ c. c.counts.items };
}

fn is_counted(counts: &[LineCount], line: PolicyLine) -> bool
    ensures { result ≡ is_counted counts.now line }
{
    counts.iter().any(|count| line.equals(count.line))
}

// One record more, where the line is among these.
fn counted_once(lines: &[PolicyLine], count: LineCount) -> LineCount
    requires { count.records + 1 < 2 ^ 64 }
    ensures { result ≡ counted_once lines.now count }
{
    if has_line(lines, count.line) {
        LineCount {
            records: count.records + 1,
            ..count
        }
    } else {
        count
    }
}

// The counts with one record more for each of the lines.
fn all_counted_once(
    alloc: Global,
    counts: &[LineCount],
    lines: &[PolicyLine],
) -> Result<Vec<LineCount>, AllocError>
    requires { All (λ (count : Count). count.records + 1 < 2 ^ 64) counts.now }
    ensures { IfOk result (λ counted. counted.items ≡ map (counted_once lines.now) counts.now) }
{
    let mut counted = Vec::new(alloc);
    for count in counts {
        counted.push(counted_once(lines, *count))?;
    }
    Ok(counted)
}

// Adds the first count of each line that has none among these.
fn push_new(
    counted: &mut Vec<LineCount>,
    counts: &[LineCount],
    lines: &[PolicyLine],
) -> Result<(), AllocError>
    ensures { OnOk result (counted.new.items ≡ counted.old.items
        ++ map first_count (filter (is_new counts.now) lines.now)) }
{
    let mut rest = lines;
    while let [line, later @ ..] = rest {
        if !is_counted(counts, *line) {
            counted.push(LineCount {
                line: *line,
                records: 1,
            })?;
        }
        rest = later;
    }
    Ok(())
}

impl LineCounts {
    pub(crate) fn new(alloc: Global) -> LineCounts
        ensures { result ≡ [] }
    {
        LineCounts {
            counts: Vec::new(alloc),
        }
    }

    pub fn as_slice(&self) -> &[LineCount]
        ensures { result.now ≡ self.now }
    {
        self.counts.as_slice()
    }

    /// The same with one record more for each of the lines.
    pub(crate) fn with_lines(&self, lines: &[PolicyLine]) -> Result<LineCounts, AllocError>
        requires { All (λ (count : Count). count.records + 1 < 2 ^ 64) self.now }
        ensures { IfOk result (λ counts. counts ≡ with_lines self.now lines.now) }
    {
        let alloc = *self.counts.allocator();
        let mut counts = all_counted_once(alloc, self.counts.as_slice(), lines)?;
        push_new(&mut counts, self.counts.as_slice(), lines)?;
        Ok(LineCounts { counts })
    }
}
