//! Patterns, and searches for them.

use avp_patterns::{Pattern, PatternFault, PatternFlags, check_pattern};
use std::alloc::Global;
use std::process::Abort;
use std::test::Fail;

// Example: check_pattern
fn checks(rt: &impl Abort, alloc: Global) -> Result<(), Fail> {
    let flags = PatternFlags {
        ignore_case: false,
        multi_line: false,
    };
    assert_eq!(rt;
        check_pattern(alloc, b"^(a|b", flags),
        Err(PatternFault::NotRead(1))
    );
    Ok(())
}

// Example: Pattern::read
fn reads_a_pattern(rt: &impl Abort, alloc: Global) -> Result<(), Fail> {
    let flags = PatternFlags {
        ignore_case: true,
        multi_line: false,
    };
    let pattern = Pattern::read(alloc, b"@example\\.(org|com)$", flags)?;
    let mut matcher = pattern.matcher(alloc)?;
    assert!(rt; matcher.is_match(b"bob@EXAMPLE.org"));
    Ok(())
}

// Example: PatternMatcher::captures
fn captures(rt: &impl Abort, alloc: Global, flags: PatternFlags) -> Result<(), Fail> {
    let pattern = Pattern::read(alloc, b"^([a-z]+)@(x)?", flags)?;
    let mut matcher = pattern.matcher(alloc)?;
    let groups = matcher.captures(b"bob@example.org").ok_or("no match")?;
    assert_eq!(rt;
        (groups[0], groups[1], groups[2]),
        (Some((0, 4)), Some((0, 3)), None)
    );
    Ok(())
}

#[test]
fn patterns(rt: HostRuntime) -> Result<(), Fail> {
    let flags = PatternFlags {
        ignore_case: false,
        multi_line: false,
    };
    checks(&rt, rt.alloc())?;
    reads_a_pattern(&rt, rt.alloc())?;
    captures(&rt, rt.alloc(), flags)
}
