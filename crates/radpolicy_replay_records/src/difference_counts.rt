//! How many records have each difference.

ghost use Rattle.std.specs.Prelude.{◌≡◌, ◌<◌, ◌+◌, ◌++◌, ◌^◌, [], All, IfOk, OnOk, codes, nat_lt, length, map};
ghost use Rattle.std.specs.List.{list_any};
ghost use Rattle.radpolicy_replay_records.specs.DifferenceCounts.{counted_again, differences_with, has_difference, names_with, new_count, one_more, with_difference};
ghost use Rattle.radpolicy_replay_records.specs.declared.difference_counts.DifferenceCount.{DifferenceCount as Count};

use avp_lists::Octets;
use std::alloc::{AllocError, Global};
use std::marker::Model;

/// As many differences are counted: those that come first.
pub const MAX_DIFFERENCES: usize = 1_000;

/// As many names are kept of the records with a difference.
pub const MAX_NAMES: u64 = 3;

/// How many records have a difference.
#[derive(Drop)]
pub struct DifferenceCount {
    /// What is said of such a record, without what it is called.
    pub difference: Octets,
    pub records: u64,
    /// The names of the first of them, each on a line.
    pub names: Octets,
}

/// How many records have each of the differences.
#[derive(Drop)]
pub struct DifferenceCounts {
    counts: Vec<DifferenceCount>,
}

impl Model for DifferenceCounts {
    ghost use Rattle.std.specs.Prelude.{List};
    ghost use Rattle.radpolicy_replay_records.specs.declared.difference_counts.DifferenceCount.{DifferenceCount};

    ghost Value = { List DifferenceCount };

    ghost view = { λ c. c.counts.items };
}

fn push_line(lines: &mut Vec<u8>, text: &[u8]) -> Result<(), AllocError>
    ensures { OnOk result (lines.new.items ≡ lines.old.items ++ text.now ++ codes "\n") }
{
    lines.extend_from_slice(text)?;
    lines.push(b'\n')?;
    Ok(())
}

impl DifferenceCount {
    // Whether it is of this difference.
    fn is_of(&self, difference: &[u8]) -> bool
        ensures { result ≡ has_difference difference.now self.now }
    {
        self.difference.as_slice() == difference
    }

    // The names with one more, if there is room for it.
    fn names_with(&self, alloc: Global, name: &[u8]) -> Result<Octets, AllocError>
        ensures { IfOk result (λ names.
            names ≡ names_with self.now.records self.now.names name.now) }
    {
        let mut names = Vec::from_slice(alloc, self.names.as_slice())?;
        if self.records < MAX_NAMES {
            push_line(&mut names, name)?;
        }
        Ok(Octets::from_vec(names))
    }

    fn add(&mut self, alloc: Global, name: &[u8]) -> Result<(), AllocError>
        requires { self.old.records + 1 < 2 ^ 64 }
        ensures { OnOk result (self.new ≡ one_more name.now self.old) }
    {
        self.names = self.names_with(alloc, name)?;
        self.records += 1;
        Ok(())
    }

    // One record more, where it is of this difference.
    fn count_again(
        &mut self,
        alloc: Global,
        name: &[u8],
        difference: &[u8],
    ) -> Result<(), AllocError>
        requires { self.old.records + 1 < 2 ^ 64 }
        ensures { OnOk result (self.new ≡ counted_again name.now difference.now self.old) }
    {
        if self.is_of(difference) {
            return self.add(alloc, name);
        }
        Ok(())
    }
}

fn has_difference(counts: &[DifferenceCount], difference: &[u8]) -> bool
    ensures { result ≡ list_any (has_difference difference.now) counts.now }
{
    counts.iter().any(|count| count.is_of(difference))
}

// One record more, of the count of this difference.
fn count_again(
    alloc: Global,
    counts: &mut [DifferenceCount],
    name: &[u8],
    difference: &[u8],
) -> Result<(), AllocError>
    requires { All (λ (count : Count). count.records + 1 < 2 ^ 64) counts.old }
    ensures { OnOk result (counts.new ≡ map (counted_again name.now difference.now) counts.old) }
{
    for count in counts.iter_mut() {
        count.count_again(alloc, name, difference)?;
    }
    Ok(())
}

// The first record of a difference, if there is room for it.
fn push_new(
    alloc: Global,
    counts: &mut Vec<DifferenceCount>,
    name: &[u8],
    difference: &[u8],
) -> Result<(), AllocError>
    ensures { OnOk result (counts.new.items ≡ counts.old.items
        ++ new_count (nat_lt (length counts.old.items) MAX_DIFFERENCES) name.now difference.now) }
{
    if counts.len() < MAX_DIFFERENCES {
        let mut names = Vec::new(alloc);
        push_line(&mut names, name)?;
        counts.push(DifferenceCount {
            difference: Octets::from_slice(alloc, difference)?,
            records: 1,
            names: Octets::from_vec(names),
        })?;
    }
    Ok(())
}

fn count_difference(
    alloc: Global,
    counts: &mut Vec<DifferenceCount>,
    name: &[u8],
    difference: &[u8],
) -> Result<(), AllocError>
    requires { All (λ (count : Count). count.records + 1 < 2 ^ 64) counts.old.items }
    ensures { OnOk result (counts.new.items
        ≡ with_difference counts.old.items name.now difference.now) }
{
    if has_difference(counts.as_slice(), difference) {
        count_again(alloc, counts.as_mut_slice(), name, difference)
    } else {
        push_new(alloc, counts, name, difference)
    }
}

impl DifferenceCounts {
    pub(crate) fn new(alloc: Global) -> DifferenceCounts
        ensures { result ≡ [] }
    {
        DifferenceCounts {
            counts: Vec::new(alloc),
        }
    }

    pub fn as_slice(&self) -> &[DifferenceCount]
        ensures { result.now ≡ self.now }
    {
        self.counts.as_slice()
    }

    /// One record more, of this name and with this difference, if it has one.
    pub(crate) fn count(&mut self, name: &[u8], difference: &[u8]) -> Result<(), AllocError>
        requires { All (λ (count : Count). count.records + 1 < 2 ^ 64) self.old }
        ensures { OnOk result (self.new ≡ differences_with self.old name.now difference.now) }
    {
        if let [] = difference {
            return Ok(());
        }
        let alloc = *self.counts.allocator();
        count_difference(alloc, &mut self.counts, name, difference)
    }
}
