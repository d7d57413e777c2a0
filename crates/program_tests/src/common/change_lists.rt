//! Changes between lists, and that they are short.

use avp_lists::{AttrId, Pair, Value};
use radpolicy_common::{Change, changes};
use std::alloc::{AllocError, Global};
use std::test::Fail;

fn pair(number: u64) -> Pair {
    Pair {
        id: AttrId::Plain(5),
        value: Value::Int(number),
    }
}

// A pair for each octet.
fn pairs_of(alloc: Global, numbers: &[u8]) -> Result<Vec<Pair>, AllocError> {
    let mut pairs = Vec::new(alloc);
    for number in numbers {
        pairs.push(pair(u64::from(*number)))?;
    }
    Ok(pairs)
}

// Pairs of the numbers from the first one on.
fn pairs_from(alloc: Global, first: u64, count: u32) -> Result<Vec<Pair>, AllocError> {
    let mut pairs = Vec::new(alloc);
    for place in 0..count {
        pairs.push(pair(first.saturating_add(u64::from(place))))?;
    }
    Ok(pairs)
}

// How many pairs are kept, removed and added.
fn counts_between(
    alloc: Global,
    before: &[Pair],
    after: &[Pair],
) -> Result<(usize, usize, usize), AllocError> {
    let found = changes(alloc, before, after)?;
    let changes = found.as_slice();
    let kept = changes
        .iter()
        .filter(|change| matches!(change, Change::Kept(_)));
    let removed = changes
        .iter()
        .filter(|change| matches!(change, Change::Removed(_)));
    let added = changes
        .iter()
        .filter(|change| matches!(change, Change::Added(_)));
    Ok((kept.count(), removed.count(), added.count()))
}

// Lists, and how many pairs are kept, removed and added between them. The last three are as Python finds by a table of
// longest common parts.
const LISTS: [(&[u8], &[u8], (usize, usize, usize)); 10] = [
    (b"", b"", (0, 0, 0)),
    (b"", b"ab", (0, 0, 2)),
    (b"ab", b"", (0, 2, 0)),
    (b"abc", b"abc", (3, 0, 0)),
    (b"aaa", b"aa", (2, 1, 0)),
    (b"abcd", b"axcd", (3, 1, 1)),
    (b"abcd", b"dabc", (3, 1, 1)),
    (b"abcabba", b"cbabac", (4, 3, 2)),
    (b"abcbdab", b"bdcaba", (4, 3, 2)),
    (
        b"accggtcgagtgcgcggaagccggccgaa",
        b"gtcgttcggaatgccgttgctctgtaaa",
        (20, 9, 8),
    ),
];

#[test]
fn few_pairs_change(rt: HostRuntime) -> Result<(), Fail> {
    for (before, after, wanted) in LISTS {
        let before = pairs_of(rt.alloc(), before)?;
        let after = pairs_of(rt.alloc(), after)?;
        assert_eq!(rt; counts_between(rt.alloc(), &before, &after)?, wanted);
    }
    Ok(())
}

// What became of a pair, and whether it is the one that did.
fn signed(change: &Change<'_>) -> (char, bool) {
    match change {
        Change::Kept(own) => ('=', own.equals(&pair(97)) || own.equals(&pair(99))),
        Change::Removed(own) => ('-', own.equals(&pair(98))),
        Change::Added(own) => ('+', own.equals(&pair(120))),
    }
}

#[test]
fn what_is_removed_comes_first(rt: HostRuntime) -> Result<(), Fail> {
    let before = pairs_of(rt.alloc(), b"abc")?;
    let after = pairs_of(rt.alloc(), b"axc")?;
    let found = changes(rt.alloc(), before.as_slice(), after.as_slice())?;
    assert_eq!(rt; found.len(), 4);
    for (change, sign) in found.iter().zip(['=', '-', '+', '=']) {
        assert_eq!(rt; signed(change), (sign, true));
    }
    Ok(())
}

// Lists of 4,096 pairs: one pair more at the head, one less at the tail, and both ends and the middle changed.
#[test]
fn long_lists_change_by_little(rt: HostRuntime) -> Result<(), Fail> {
    let alloc = rt.alloc();
    let before = pairs_from(alloc, 0, 4096)?;
    let shorter = pairs_from(alloc, 1, 4095)?;
    assert_eq!(rt; counts_between(alloc, &before, &shorter)?, (4095, 1, 0));
    assert_eq!(rt; counts_between(alloc, &shorter, &before)?, (4095, 0, 1));
    let mut edited = pairs_from(alloc, 0, 4096)?;
    for (place, number) in [(0usize, 9000u64), (2000, 9001), (4095, 9002)] {
        match edited.get_mut(place) {
            Some(own) => *own = pair(number),
            None => return Err(Fail::new("a shorter list")),
        }
    }
    assert_eq!(rt; counts_between(alloc, &before, &edited)?, (4093, 3, 3));
    Ok(())
}

// Nothing stays of 4,096 pairs.
#[test]
fn long_lists_change_wholly(rt: HostRuntime) -> Result<(), Fail> {
    let before = pairs_from(rt.alloc(), 0, 4096)?;
    let after = pairs_from(rt.alloc(), 5000, 4096)?;
    assert_eq!(rt;
        counts_between(rt.alloc(), &before, &after)?,
        (0, 4096, 4096)
    );
    Ok(())
}
