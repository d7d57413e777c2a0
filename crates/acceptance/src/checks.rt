//! Checks of dictionary files and of policies.

use crate::commands::{CHECK, CHECK_POLICY};
use crate::program::{Source, expect_end};
use crate::steps::EDITED_TRANSACTIONS;
use attribute_tests::samples::{INCLUDING_FILE, NESTED_TRANSACTIONS, TEST_DICTIONARY};
use std::test::Fail;

const INCLUDED: &[u8] = b"ATTRIBUTE X-A 200 integer # c\nATTRIBUTE X-B 200 string\n";

// Words, dictionary files, the status, and the output or the line of a fault.
const DICTIONARIES: [(&str, &[u8], u8, &[u8]); 15] = [
    (
        "radpolicy check d x",
        INCLUDING_FILE,
        0,
        b"files 2
attributes 3
values 1
vendors 1
notes 4
note d:2
note d:5
note d:8
note d:9
",
    ),
    // A vendor with a continuation octet is skipped.
    (
        CHECK,
        b"VENDOR U 60 format=1,1,c
BEGIN-VENDOR U
ATTRIBUTE U-A 1 string
END-VENDOR U
",
        0,
        b"files 1
attributes 0
values 0
vendors 1
notes 3
note d:2
note d:3
note d:4
",
    ),
    // A value may come before its attribute.
    (
        CHECK,
        b"VALUE X Y 1\nATTRIBUTE X 200 integer\n",
        0,
        b"files 1
attributes 1
values 1
vendors 0
notes 0
",
    ),
    // The value of a tagged attribute is noted.
    (
        CHECK,
        b"ATTRIBUTE Tunnel-Type 64 integer has_tag\nVALUE Tunnel-Type PPTP 1\n",
        0,
        b"files 1
attributes 1
values 0
vendors 0
notes 1
note d:2
",
    ),
    (
        CHECK,
        TEST_DICTIONARY,
        0,
        b"files 1
attributes 18
values 4
vendors 1
notes 0
",
    ),
    (
        CHECK,
        b"ATTRIBUTE A x integer",
        2,
        b"radpolicy: E10 d:1: unreadable line\n",
    ),
    (
        CHECK,
        b"ATTRIBUTE A 4294967296 integer",
        2,
        b"radpolicy: E11 d:1: number out of range\n",
    ),
    (
        CHECK,
        b"BEGIN-VENDOR Nope",
        2,
        b"radpolicy: E13 d:1: unknown vendor\n",
    ),
    (
        CHECK,
        b"$INCLUDE gone",
        2,
        b"radpolicy: E15 d:1: file not handed in\n",
    ),
    (
        CHECK,
        b"ATTRIBUTE A 200 integer
VALUE A One 1
VALUE A one 2
",
        2,
        b"radpolicy: E19 d:3: VALUE has another number\n",
    ),
    (
        CHECK,
        b"$INCLUDE d",
        2,
        b"radpolicy: E16 d:1: includes too deep\n",
    ),
    (
        CHECK,
        b"ATTRIBUTE X 200 integer\nATTRIBUTE x 201 integer",
        2,
        b"radpolicy: E12 d:2: name has another number\n",
    ),
    (
        CHECK,
        b"END-VENDOR Cisco",
        2,
        b"radpolicy: E14 d:1: BEGIN and END differ\n",
    ),
    (
        CHECK,
        b"VALUE X Y 1",
        2,
        b"radpolicy: E18 d:1: VALUE of no ATTRIBUTE\n",
    ),
    // A dictionary is refused before a policy.
    (
        "radpolicy run --policy p x/d",
        b"# only this\n\nATTRIBUTE A x string",
        2,
        b"radpolicy: E10 d:3: unreadable line\n",
    ),
];

#[test]
fn checks_dictionaries(rt: HostRuntime) -> Result<(), Fail> {
    for (words, lines, status, wanted) in DICTIONARIES {
        let sources: [Source; 4] = [
            ("d", lines),
            ("x/d", lines),
            ("x", INCLUDED),
            ("p", b"nonsense"),
        ];
        expect_end(&rt, rt.alloc(), words, &sources, (status, wanted))?;
    }
    Ok(())
}

// Policies, the status, and what their files hold with their size, or the line of a fault.
const POLICIES: [(&[u8], u8, &[u8]); 14] = [
    (
        NESTED_TRANSACTIONS,
        0,
        b"files 1
attributes 18
values 4
vendors 1
notes 0
size 14
",
    ),
    (
        EDITED_TRANSACTIONS,
        0,
        b"files 1
attributes 18
values 4
vendors 1
notes 0
size 13
",
    ),
    (
        b"update reply { Class ^= 0x01 }",
        0,
        b"files 1
attributes 18
values 4
vendors 1
notes 0
size 1
",
    ),
    (
        b"update { Vendor-Specific !* ANY }",
        0,
        b"files 1
attributes 18
values 4
vendors 1
notes 0
size 1
",
    ),
    (
        b"update { Reply-Message := \"50%%\" }",
        0,
        b"files 1
attributes 18
values 4
vendors 1
notes 0
size 1
",
    ),
    (
        b"if (&Class) { } elsif (ok) { } else { noop }",
        0,
        b"files 1
attributes 18
values 4
vendors 1
notes 0
size 3
",
    ),
    (
        b"update reply { Class ^ 0x01 }",
        2,
        b"radpolicy: E50 policy:1: unreadable token\n",
    ),
    (
        b"switch &Class { }",
        2,
        b"radpolicy: E51 policy:1: token does not fit\n",
    ),
    (
        b"update outer.reply { }",
        2,
        b"radpolicy: E51 policy:1: token does not fit\n",
    ),
    (
        b"\nupdate { Nosuch := 1 }",
        2,
        b"radpolicy: E32 policy:2: unknown attribute\n",
    ),
    (
        b"update { NAS-Port := abc }",
        2,
        b"radpolicy: E30 policy:1: not a value\n",
    ),
    (
        b"update { Vendor-Specific := 0x00 }",
        2,
        b"radpolicy: E33 policy:1: not writable\n",
    ),
    (
        b"update { NAS-Port := &User-Name }",
        2,
        b"radpolicy: E55 policy:1: types differ\n",
    ),
    (
        b"update { Reply-Message := \"50%\" }",
        2,
        b"radpolicy: E50 policy:1: unreadable token\n",
    ),
];

#[test]
fn checks_policies(rt: HostRuntime) -> Result<(), Fail> {
    for (policy, status, wanted) in POLICIES {
        let sources: [Source; 2] = [("d", TEST_DICTIONARY), ("p", policy)];
        expect_end(&rt, rt.alloc(), CHECK_POLICY, &sources, (status, wanted))?;
    }
    Ok(())
}
