//! Calls of patterns that no example makes.

use avp_patterns::{Pattern, PatternFlags};
use std::test::Fail;

#[test]
fn finds_by_flags(rt: HostRuntime) -> Result<(), Fail> {
    let flags = PatternFlags {
        ignore_case: true,
        multi_line: true,
    };
    let pattern = Pattern::read(rt.alloc(), b"^bob$", flags)?;
    assert_eq!(rt;
        (pattern.text(), pattern.flags()),
        (b"^bob$".as_slice(), flags)
    );
    assert!(rt; pattern.size() > 0);
    let mut matcher = pattern.matcher(rt.alloc())?;
    assert!(rt; matcher.is_match(b"a\nBOB\nb"));
    assert!(rt; !matcher.is_match(b"bobby"));
    Ok(())
}
