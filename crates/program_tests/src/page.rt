//! A call of what `radpolicy_page_data` makes a page by, and of what shows a policy's text. What they show, and what is
//! hidden, is in the cases of tests/page.

use crate::shared::{HEAD, HIDING};
use attribute_tests::samples::test_dictionary;
use avp_dict::Dictionary;
use avp_forms::Profile;
use avp_unlang::Policy;
use radpolicy::{PreparedPolicy, Reply, Start};
use radpolicy_common::{Redaction, policy_shown};
use radpolicy_page_data::page_of;
use std::alloc::{AllocError, Global};
use std::test::Fail;

const POLICY: &[u8] = b"update reply { User-Password := \"a\" }";

const RUN: &[u8] =
    b"{\"hidden\":true,\"policy\":\"update reply { User-Password := (hidden) }\",\"positions\":[[\"start\",\"ok\",[0,0,\"User-Name = \\\"b\\u003cb\\\"\"],[0,0],[0,0]],[\"line 1\",\"ok\",[1,0],[0,0,\"User-Password = (hidden)\"],[0,0]]],\"reply\":null}";

const LISTS: &[u8] =
    b"request\n  User-Name = \"b&lt;b\"\nreply\n  User-Password = (hidden)\ncontrol\n";

#[test]
fn a_page_has_a_run(rt: HostRuntime) -> Result<(), Fail> {
    let alloc = rt.alloc();
    let dictionary: Dictionary = test_dictionary(alloc)?;
    let policy = PreparedPolicy::read(alloc, &dictionary, POLICY)?;
    let request = b"User-Name = \"b<b\"";
    let start = Start::of_lines(alloc, &policy, None, HEAD, Profile::Plain, None, request)?;
    let page = page_of(alloc, start, &Reply::Unmade, POLICY, HIDING)?;
    assert_eq!(&rt; page.run.as_slice(), RUN);
    assert_eq!(&rt; page.lists.as_slice(), LISTS);
    Ok(())
}

fn redaction_of<'a>(
    alloc: Global,
    dictionary: &'a Dictionary,
    policy: &Policy,
) -> Result<Redaction<'a>, AllocError> {
    Redaction::new(alloc, dictionary, HIDING, &[policy])
}

#[test]
fn a_policy_is_shown(rt: HostRuntime) -> Result<(), Fail> {
    let alloc = rt.alloc();
    let dictionary: Dictionary = test_dictionary(alloc)?;
    let policy = PreparedPolicy::read(alloc, &dictionary, POLICY)?;
    let redaction = redaction_of(alloc, &dictionary, policy.policy())?;
    let shown = policy_shown(alloc, &redaction, POLICY)?;
    let wanted = b"update reply { User-Password := (hidden) }";
    assert_eq!(&rt; shown.as_slice(), wanted.as_slice());
    Ok(())
}
