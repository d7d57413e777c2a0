//! Texts at the limits, and past them.

use crate::commands::{CHECK_POLICY, RUN, RUN_ACCESS, RUN_UNNAMED, STEP};
use crate::data::sources_of;
use crate::program::{Source, expect_end};
use attribute_tests::samples::TEST_DICTIONARY;
use std::alloc::{AllocError, Global};
use std::test::Fail;

// Parts of a text, each so many times.
type Parts = &'static [(&'static [u8], usize)];

fn push_repeated(text: &mut Vec<u8>, part: &[u8], count: usize) -> Result<(), AllocError> {
    for _ in 0..count {
        text.extend_from_slice(part)?;
    }
    Ok(())
}

fn text_of(alloc: Global, parts: &[(&[u8], usize)]) -> Result<Vec<u8>, AllocError> {
    let mut text = Vec::new(alloc);
    for (part, count) in parts {
        push_repeated(&mut text, part, *count)?;
    }
    Ok(text)
}

// Policies, the status, and what their files hold with their size, or the line of a fault.
const POLICIES: [(Parts, u8, &[u8]); 4] = [
    (
        &[
            (b"update control {\n", 1),
            (b"Class !* ANY\n", 65535),
            (b"}\n", 1),
        ],
        0,
        b"files 1
attributes 18
values 4
vendors 1
notes 0
size 65535
",
    ),
    (
        &[
            (b"update control {\n", 1),
            (b"Class !* ANY\n", 65536),
            (b"}\n", 1),
        ],
        2,
        b"radpolicy: E54 policy:65537: policy too large\n",
    ),
    (
        &[(b"transaction {\n", 64), (b"}\n", 64)],
        0,
        b"files 1
attributes 18
values 4
vendors 1
notes 0
size 128
",
    ),
    (
        &[(b"transaction {\n", 65), (b"}\n", 65)],
        2,
        b"radpolicy: E53 policy:65: nested too deep\n",
    ),
];

#[test]
fn checks_large_policies(rt: HostRuntime) -> Result<(), Fail> {
    for (policy, status, wanted) in POLICIES {
        let policy = text_of(rt.alloc(), policy)?;
        let sources: [Source; 2] = [("d", TEST_DICTIONARY), ("p", &policy)];
        expect_end(&rt, rt.alloc(), CHECK_POLICY, &sources, (status, wanted))?;
    }
    Ok(())
}

// Requests, and the line of their fault.
const REQUESTS: [(Parts, &[u8]); 3] = [
    // A value of one octet more than its attribute has, and one that can't be hidden.
    (
        &[(b"Class = ", 1), (b"a", 254)],
        b"radpolicy: E31 request:1: too long\n",
    ),
    (
        &[(b"User-Password = ", 1), (b"a", 129)],
        b"radpolicy: E31 request:1: too long\n",
    ),
    // One pair more than a list has.
    (
        &[(b"Class = 0x01\n", 4097)],
        b"radpolicy: E35 request:4097: too many pairs\n",
    ),
];

#[test]
fn refuses_large_requests(rt: HostRuntime) -> Result<(), Fail> {
    for (request, wanted) in REQUESTS {
        let request = text_of(rt.alloc(), request)?;
        expect_end(
            &rt,
            rt.alloc(),
            RUN,
            &sources_of(&request, b""),
            (2, wanted),
        )?;
    }
    Ok(())
}

// A list of 4096 pairs is full: the second section fails, and its first line is undone with it.
#[test]
fn stops_at_a_full_list(rt: HostRuntime) -> Result<(), Fail> {
    let alloc = rt.alloc();
    let request = text_of(alloc, &[(b"Attr-25 = 0x01\n", 4096)])?;
    let policy =
        b"update reply { Attr-25 += 0x05 } update { reply:Attr-25 += 0x06 Attr-18 += 0x61 }";
    let wanted = text_of(
        alloc,
        &[
            (b"request\n", 1),
            (b"  Attr-25 = 0x01\n", 4096),
            (
                b"reply\n  Attr-25 = 0x05\ncontrol\nresult fail stopped\n",
                1,
            ),
        ],
    )?;
    let sources = sources_of(&request, policy);
    expect_end(&rt, alloc, RUN_UNNAMED, &sources, (0, &wanted))
}

// A name of 253 octets is as long as a value may be, and longer than what can be hidden.
#[test]
fn fails_where_a_value_is_too_long(rt: HostRuntime) -> Result<(), Fail> {
    let alloc = rt.alloc();
    let request = text_of(alloc, &[(b"User-Name = ", 1), (b"a", 253)])?;
    let policies: [&[u8]; 2] = [
        b"update reply { Reply-Message := \"%{User-Name}x\" }",
        b"update reply { User-Password := &User-Name }",
    ];
    for policy in policies {
        let sources: [Source; 4] = [
            ("d", TEST_DICTIONARY),
            ("-", &request),
            ("p", policy),
            ("s", b"end"),
        ];
        let wanted = b"1 line 1 failed P3 fail\n";
        expect_end(&rt, alloc, STEP, &sources, (0, wanted))?;
    }
    Ok(())
}

// An `update` of the reply with 15 `Class` of 253 octets and one of so many more.
fn long_policy(alloc: Global, last: usize) -> Result<Vec<u8>, AllocError> {
    let line = text_of(alloc, &[(b"Class += 0x", 1), (b"11", 253), (b"\n", 1)])?;
    text_of(
        alloc,
        &[
            (b"update reply {\n", 1),
            (&line, 15),
            (b"Class += 0x", 1),
            (b"11", last),
            (b"\n}", 1),
        ],
    )
}

// The report of the run with 249 octets more. Its packet has 4096 octets, and its authenticator was computed elsewhere.
fn long_report(alloc: Global) -> Result<Vec<u8>, AllocError> {
    let pair = text_of(alloc, &[(b"  Class = 0x", 1), (b"11", 253), (b"\n", 1)])?;
    let attribute = text_of(alloc, &[(b"19ff", 1), (b"11", 253)])?;
    text_of(
        alloc,
        &[
            (b"request\nreply\n", 1),
            (&pair, 15),
            (b"  Class = 0x", 1),
            (b"11", 249),
            (
                b"\ncontrol\nresult ok\npacket 02001000c67d4ccafaa88932ae1e9da67587badc",
                1,
            ),
            (&attribute, 15),
            (b"19fb", 1),
            (b"11", 249),
            (b"\n", 1),
        ],
    )
}

#[test]
fn refuses_a_reply_that_is_too_long(rt: HostRuntime) -> Result<(), Fail> {
    let alloc = rt.alloc();
    let (policy, report) = (long_policy(alloc, 249)?, long_report(alloc)?);
    let sources = sources_of(b"", &policy);
    expect_end(&rt, alloc, RUN_ACCESS, &sources, (0, &report))?;
    let wanted = b"radpolicy: E46: packet too long\n";
    // One that has to be signed.
    let sources = sources_of(b"Attr-80 = 0x00", &policy);
    expect_end(&rt, alloc, RUN_ACCESS, &sources, (2, wanted))?;
    let policy = long_policy(alloc, 253)?;
    let sources = sources_of(b"", &policy);
    expect_end(&rt, alloc, RUN_ACCESS, &sources, (2, wanted))
}
