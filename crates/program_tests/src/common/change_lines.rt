//! The lines of changes. How they come in a walk, and what is hidden, is in the cases of tests/walk.

use crate::shared::HIDING;
use attribute_tests::samples::{all_fit, octets, test_dictionary};
use avp_dict::Dictionary;
use avp_lists::{AttrId, Pair, Value};
use radpolicy_common::{Redaction, change_lines, changes};
use std::alloc::Global;
use std::test::Fail;

fn lines_between(
    alloc: Global,
    dictionary: &Dictionary,
    before: &[Pair],
    after: &[Pair],
) -> Result<Vec<u8>, Fail> {
    if !all_fit(dictionary, before) || !all_fit(dictionary, after) {
        return Err(Fail::new("a pair does not fit"));
    }
    let found = changes(alloc, before, after)?;
    let redaction = Redaction::new(alloc, dictionary, HIDING, &[])?;
    Ok(change_lines(alloc, &redaction, found.as_slice())?)
}

#[test]
fn lines_tell_what_changed(rt: HostRuntime) -> Result<(), Fail> {
    let alloc = rt.alloc();
    let dictionary = test_dictionary(alloc)?;
    let before = [Pair {
        id: AttrId::Plain(27),
        value: Value::Int(60),
    }];
    let after = [Pair {
        id: AttrId::Plain(18),
        value: Value::Text(octets(alloc, b"a\nb")?),
    }];
    let lines = lines_between(alloc, &dictionary, &before, &after)?;
    let wanted = b"- Session-Timeout = 60\n+ Reply-Message = \"a\\nb\"\n";
    assert_eq!(rt; lines.as_slice(), wanted.as_slice());
    let same = lines_between(alloc, &dictionary, &after, &after)?;
    assert!(rt; same.is_empty());
    Ok(())
}
