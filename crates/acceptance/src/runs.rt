//! Runs of whole policies, each as its report.

use crate::commands::{RUN, RUN_ACCESS, RUN_ACCESS_5, RUN_ACCOUNTING, RUN_PACKET, RUN_STANDARD};
use crate::data::sources_of;
use crate::packets::{SIGNED_REQUEST, STANDARD_REQUEST};
use crate::program::expect_end;
use crate::unnamed_attributes::UNNAMED;
use crate::values::VALUES;
use attribute_tests::samples::NESTED_TRANSACTIONS;
use std::alloc::Global;
use std::process::Abort;
use std::test::Fail;

/// An update whose last line names an attribute that the request does not have.
pub const ABSENT_SOURCE: &[u8] = b"update reply {
\tClass := 0x01
\tReply-Message += \"x\"
\tClass += &request:Class
}
";

/// A text of expansions, below a condition.
pub const GREETING: &[u8] = b"if (&NAS-Port >= 7 && !&Class) {
\tupdate reply { Reply-Message := \"hi %{User-Name} on %{NAS-Port}%{Class}\" }
}
else { reject }
";

/// Were `||` to bind more tightly than `&&`, this would not hold.
pub const MIXED_CONDITION: &[u8] = b"if (ok || fail && reject) { noop }";

/// Words, the request, the policy, the status, and the report or the line of a fault.
pub type Run = (
    &'static str,
    &'static [u8],
    &'static [u8],
    u8,
    &'static [u8],
);

// The Response Authenticators were computed elsewhere.
const RUNS: [Run; 15] = [
    // Refused transactions are taken back.
    (
        RUN,
        b"",
        NESTED_TRANSACTIONS,
        0,
        b"request
reply
  Class = 0x01
control
  Session-Timeout = 60
result reject
",
    ),
    // An update stops at an absent source.
    (
        RUN,
        b"User-Name = \"u\"\n",
        ABSENT_SOURCE,
        0,
        b"request
  User-Name = \"u\"
reply
control
result fail stopped
",
    ),
    // Attributes are expanded in a text.
    (
        RUN,
        b"User-Name = bob\nNAS-Port = 7\n",
        GREETING,
        0,
        b"request
  User-Name = \"bob\"
  NAS-Port = 7
reply
  Reply-Message = \"hi bob on 7\"
control
result ok
",
    ),
    // `&&` binds more tightly than `||`.
    (
        RUN,
        b"",
        MIXED_CONDITION,
        0,
        b"request
reply
control
result noop
",
    ),
    // An expanded text is read as a number.
    (
        RUN,
        b"User-Name = \"300\"",
        b"update control { Session-Timeout := \"%{User-Name}\" }",
        0,
        b"request
  User-Name = \"300\"
reply
control
  Session-Timeout = 300
result ok
",
    ),
    // The code is fail where an update failed, and a reply is a reject.
    (
        RUN_ACCESS_5,
        b"User-Name = \"u\"\n",
        ABSENT_SOURCE,
        0,
        b"request
  User-Name = \"u\"
reply
control
result fail stopped
packet 03050014ff2643188d4c2e313c198fc24cd94775
",
    ),
    // A rejected Accounting-Request is not answered, another one is.
    (
        RUN_ACCOUNTING,
        b"Acct-Status-Type = Start",
        b"reject",
        0,
        b"request
  Acct-Status-Type = Start
reply
control
result reject stopped
packet none
",
    ),
    (
        RUN_ACCOUNTING,
        b"Acct-Status-Type = Start",
        b"",
        0,
        b"request
  Acct-Status-Type = Start
reply
control
result ok
packet 05000014f3b4fd2979fc457e5b3a40dcee7ed7dc
",
    ),
    // Where the code is fail only Proxy-States are sent back, and else they too.
    (
        RUN_ACCESS,
        b"Proxy-State = 0x0a0b",
        b"update reply { Class += 0x01 } transaction { fail }",
        0,
        b"request
  Proxy-State = 0x0a0b
reply
  Class = 0x01
control
result fail
packet 03000018ac466e20fcbdc9518331cd5d4489f11321040a0b
",
    ),
    (
        RUN_ACCESS,
        b"Proxy-State = 0x0a0b",
        b"update reply { Reply-Message := \"\" }",
        0,
        b"request
  Proxy-State = 0x0a0b
reply
  Reply-Message = \"\"
control
result ok
packet 020000185c6373894019b6b4e71a7cd35e7ed3d721040a0b
",
    ),
    // The packets of RFC 2865, section 7.1.
    (
        RUN_STANDARD,
        STANDARD_REQUEST,
        b"update reply {
\tService-Type := Login-User
\tLogin-Service := Telnet
\tLogin-IP-Host := 192.168.1.3
}
",
        0,
        b"request
  User-Name = \"nemo\"
  User-Password = \"arctangent\"
  NAS-IP-Address = 192.168.1.16
  NAS-Port = 3
reply
  Service-Type = Login-User
  Login-Service = Telnet
  Login-IP-Host = 192.168.1.3
control
result ok
packet 0200002686fe220e7624ba2a1005f6bf9b55e0b20606000000010f06000000000e06c0a80103
",
    ),
    // The reply to a signed request is signed, whatever the policy gives for it.
    (
        RUN_PACKET,
        SIGNED_REQUEST,
        b"",
        0,
        b"request
  User-Name = \"u\"
  Attr-80 = 0x12c10da18ce04bb1fcf42c68a7eb68ae
reply
control
result ok
packet 020000265887ab16a71d434b8acbe9f265da25595012e55ff7fe6520f0fde1e13578b98000f5
",
    ),
    (
        RUN_PACKET,
        SIGNED_REQUEST,
        b"update reply { Attr-80 := 0x01 }",
        0,
        b"request
  User-Name = \"u\"
  Attr-80 = 0x12c10da18ce04bb1fcf42c68a7eb68ae
reply
  Attr-80 = 0x01
control
result ok
packet 020000265887ab16a71d434b8acbe9f265da25595012e55ff7fe6520f0fde1e13578b98000f5
",
    ),
    (
        RUN_PACKET,
        SIGNED_REQUEST,
        b"reject",
        0,
        b"request
  User-Name = \"u\"
  Attr-80 = 0x12c10da18ce04bb1fcf42c68a7eb68ae
reply
control
result reject stopped
packet 030000266525c641da6df0861346b9d564cb8685501210f1f93382974ea9c5fa9c9ae0a16318
",
    ),
    // An Accounting-Response is not.
    (
        RUN_ACCOUNTING,
        b"Attr-80 = 0x00",
        b"",
        0,
        b"request
  Attr-80 = 0x00
reply
control
result ok
packet 050000141a180f00935af4f713e7d4d90d3787fb
",
    ),
];

fn expect_runs(rt: &impl Abort, alloc: Global, rows: &[Run]) -> Result<(), Fail> {
    for (words, request, policy, status, wanted) in rows {
        let sources = sources_of(request, policy);
        expect_end(rt, alloc, words, &sources, (*status, wanted))?;
    }
    Ok(())
}

#[test]
fn reports_runs(rt: HostRuntime) -> Result<(), Fail> {
    expect_runs(&rt, rt.alloc(), &RUNS)?;
    expect_runs(&rt, rt.alloc(), &VALUES)?;
    expect_runs(&rt, rt.alloc(), &UNNAMED)
}
