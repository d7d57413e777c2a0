//! Policies that are read.

use attribute_tests::samples::test_dictionary;
use avp_dict::Dictionary;
use avp_unlang::{PolicyFault, PolicyKind, read_policy, size};
use std::alloc::Global;
use std::process::Abort;
use std::test::Fail;

// Example: read_policy
fn reads_a_policy(rt: &impl Abort, alloc: Global, dictionary: &Dictionary) -> Result<(), Fail> {
    let text = b"update reply { Session-Timeout := 600 }\nreject";
    let policy = read_policy(alloc, dictionary, text)?;
    assert_eq!(rt; policy.statements().len(), 2);
    let refused = read_policy(alloc, dictionary, b"rejected").err();
    let (line, offset, kind) = (1, 0, PolicyKind::Misplaced);
    assert_eq!(rt; refused, Some(PolicyFault { line, offset, kind }));
    Ok(())
}

// Example: size
fn counts(rt: &impl Abort, alloc: Global, dictionary: &Dictionary) -> Result<(), Fail> {
    let text = b"if (&User-Name) { update reply { Session-Timeout := 600 } }\nreject";
    let policy = read_policy(alloc, dictionary, text)?;
    assert_eq!(rt; size(&policy), 3);
    Ok(())
}

#[test]
fn policies(rt: HostRuntime) -> Result<(), Fail> {
    let dictionary = test_dictionary(rt.alloc())?;
    reads_a_policy(&rt, rt.alloc(), &dictionary)?;
    counts(&rt, rt.alloc(), &dictionary)
}
