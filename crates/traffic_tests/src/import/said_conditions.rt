//! Policies that ask for a condition.

use attribute_tests::samples::test_dictionary;
use avp_dict::Dictionary;
use avp_unlang::{Cond, Policy, read_policy};
use radpolicy_import_conditions::{
    ConditionPrinter, ConditionReader, KnownCodes, Names, rewritten, says,
};
use std::alloc::Global;
use std::test::Fail;

// The condition in place of a server's.
fn condition(alloc: Global, dictionary: &Dictionary, text: &[u8]) -> Result<Cond, Fail> {
    let reader = ConditionReader {
        alloc,
        names: Names {
            dictionary,
            others: &[],
        },
        codes: KnownCodes::unknown(),
        takes_patterns: true,
        is_meant: true,
    };
    match reader.condition(text) {
        Ok(condition) => Ok(rewritten(alloc, &condition)?),
        Err(_) => Err(Fail::new("no condition")),
    }
}

// The policy of a text.
fn policy(alloc: Global, dictionary: &Dictionary, text: &[u8]) -> Result<Policy, Fail> {
    match read_policy(alloc, dictionary, text) {
        Ok(policy) => Ok(policy),
        Err(_) => Err(Fail::new("no policy")),
    }
}

// The text of a policy that asks for a condition.
fn asking(
    alloc: Global,
    dictionary: &Dictionary,
    head: &[u8],
    cond: &Cond,
) -> Result<Vec<u8>, Fail> {
    let mut text = Vec::from_slice(alloc, head)?;
    text.extend_from_slice(b"if ")?;
    let printer = ConditionPrinter { alloc, dictionary };
    if printer.push_condition(&mut text, cond).is_err() {
        return Err(Fail::new("no text"));
    }
    text.extend_from_slice(b" { }")?;
    Ok(text)
}

// Whether the condition in place of a server's, once it is printed, is what is read of it.
fn is_said(alloc: Global, head: &[u8], text: &[u8]) -> Result<bool, Fail> {
    let dictionary = test_dictionary(alloc)?;
    let cond = condition(alloc, &dictionary, text)?;
    let asking = asking(alloc, &dictionary, head, &cond)?;
    Ok(says(&policy(alloc, &dictionary, &asking)?, &cond))
}

// Whether a policy asks for the condition in place of a server's.
fn asks(alloc: Global, text: &[u8], condition_text: &[u8]) -> Result<bool, Fail> {
    let dictionary = test_dictionary(alloc)?;
    let cond = condition(alloc, &dictionary, condition_text)?;
    Ok(says(&policy(alloc, &dictionary, text)?, &cond))
}

const WIDER: &[u8] = b"# profile: wider\n";

// Lines before a policy, and conditions: in place of a server's, and printed, they are what is read.
const SAID: [(&[u8], &[u8]); 9] = [
    (b"", b"(&User-Name == 'a\"b\\\\c')"),
    (b"", b"(&Service-Type != Login-User || 3 < &NAS-Port)"),
    (b"", b"(&Class == 0x00ff && &NAS-IP-Address == 10.1.2.3)"),
    (b"", b"(&reply:Reply-Message == &User-Name)"),
    (b"", b"(!(&User-Name == 'a' && &NAS-Port < 3) || !!&Class)"),
    (b"", b"(&User-Name || (&Class || !&NAS-Port))"),
    (
        b"",
        b"((&User-Name || (&Class || !&NAS-Port)) && (&NAS-Port == 1 && (&Class && &User-Name)))",
    ),
    (WIDER, b"(&User-Name =~ /^a(b)/i && &NAS-Port == 1)"),
    (WIDER, b"(&User-Name !~ /a/ || \"%{1}\")"),
];

#[test]
fn conditions_are_said(rt: HostRuntime) -> Result<(), Fail> {
    for (head, text) in SAID {
        assert!(rt; is_said(rt.alloc(), head, text)?);
    }
    Ok(())
}

// Policies, conditions, and whether the policy asks for that alone.
const ASKED: [(&[u8], &[u8], bool); 8] = [
    (
        b"if (&User-Name || &Class) { }",
        b"(&User-Name || &Class)",
        true,
    ),
    (
        b"if (&User-Name && &Class) { }",
        b"(&User-Name || &Class)",
        false,
    ),
    (
        b"if (&Class || &User-Name) { }",
        b"(&User-Name || &Class)",
        false,
    ),
    (b"if (&User-Name) { }", b"(&User-Name || &Class)", false),
    (b"if (&Class) { } else { ok }", b"(&Class)", false),
    (b"if (&Class) { } noop", b"(&Class)", false),
    (b"if (&Class) { ok }", b"(&Class)", false),
    (b"noop", b"(&Class)", false),
];

#[test]
fn policies_ask_for_a_condition(rt: HostRuntime) -> Result<(), Fail> {
    for (policy, condition, wanted) in ASKED {
        assert!(rt; asks(rt.alloc(), policy, condition)? == wanted);
    }
    Ok(())
}
