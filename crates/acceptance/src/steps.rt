//! Walks by a script, forward and back over the run of a policy.

use crate::commands::{STEP, STEP_PACKET};
use crate::program::{Source, expect_end};
use crate::runs::{ABSENT_SOURCE, GREETING, MIXED_CONDITION};
use attribute_tests::samples::{NESTED_TRANSACTIONS, TEST_DICTIONARY};
use std::test::Fail;

/// Goes to the end, back into the transactions, and to the start.
pub const THERE_AND_BACK: &[u8] = b"end back back show start back";

const FAILED_TRANSACTION: &[u8] =
    b"update reply { Class += 0x01 Reply-Message += \"a\" Class += 0x02 Class += 0x01 }
transaction {
update reply { Class += 0x09 }
fail }";

/// A transaction that is refused, round one that fails.
pub const EDITED_TRANSACTIONS: &[u8] = b"update reply { Class += 0x01 Class += 0x02 Class += 0x01 }
transaction {
  update reply { Class -= 0x01 }
  transaction {
    update reply { Class := 0x03 }
    fail
  }
  update reply { Class += 0x04 }
  reject
}
update reply { Class := 0x05 }
";

const PREPENDING_TRANSACTION: &[u8] = b"update reply { Class ^= 0x01 }
transaction {
  update reply { Class ^= 0x02 Class += 0x03 }
  fail
}
update reply { Class ^= 0x04 }
";

// Words, scripts, requests, policies, the status, and what the walk prints or the line of a fault.
const STEPS: [(&str, &[u8], &[u8], &[u8], u8, &[u8]); 13] = [
    // Each step of transactions has its label, and the lists are shown after both rollbacks.
    (
        STEP,
        b"forward forward forward forward forward forward forward forward forward show
forward forward forward forward show forward forward",
        b"",
        NESTED_TRANSACTIONS,
        0,
        b"1 line 1 ok
2 enter 2 ok
3 line 3 ok
4 enter 4 ok
5 line 5 ok
6 enter 6 ok
7 line 7 ok
8 word 8 fail
9 rollback 6 fail
request
reply
  Class = 0x03
control
10 line 10 fail
11 commit 4 fail
12 word 12 reject
13 rollback 2 reject
request
reply
  Class = 0x01
control
14 line 14 reject
14 line 14 reject stays
",
    ),
    // So has a line with an absent source.
    (
        STEP,
        b"end",
        b"User-Name = \"u\"\n",
        ABSENT_SOURCE,
        0,
        b"3 line 4 failed P1 fail\n",
    ),
    // A condition that holds.
    (
        STEP,
        b"forward forward forward",
        b"User-Name = bob\nNAS-Port = 7\n",
        GREETING,
        0,
        b"1 if 1 true ok
2 line 2 ok
2 line 2 ok stays
",
    ),
    // A mixed condition.
    (
        STEP,
        b"forward forward",
        b"",
        MIXED_CONDITION,
        0,
        b"1 if 1 true ok\n2 word 1 noop\n",
    ),
    // An expanded text that is no value.
    (
        STEP,
        b"end",
        b"User-Name = \"300\"",
        b"update control { Session-Timeout := \"%{User-Name}x\" }",
        0,
        b"1 line 1 failed P2 fail\n",
    ),
    // Back into a refused transaction.
    (
        STEP,
        THERE_AND_BACK,
        b"",
        NESTED_TRANSACTIONS,
        0,
        b"14 line 14 reject
13 rollback 2 reject
12 word 12 reject
request
reply
  Class = 0x03
  Reply-Message = \"m\"
control
0 start ok
0 start ok stays
",
    ),
    // Back from a line that failed, which fails again.
    (
        STEP,
        b"end back show forward",
        b"User-Name = \"u\"\n",
        ABSENT_SOURCE,
        0,
        b"3 line 4 failed P1 fail
2 line 3 ok
request
  User-Name = \"u\"
reply
  Class = 0x01
  Reply-Message = \"x\"
control
3 line 4 failed P1 fail
",
    ),
    // Nothing for an empty script.
    (STEP, b"", b"", b"", 0, b""),
    // Back over a rollback.
    (
        STEP,
        b"end show back back show",
        b"",
        FAILED_TRANSACTION,
        0,
        b"8 rollback 2 fail
request
reply
  Class = 0x01
  Reply-Message = \"a\"
  Class = 0x02
  Class = 0x01
control
7 word 4 fail
6 line 3 ok
request
reply
  Class = 0x01
  Reply-Message = \"a\"
  Class = 0x02
  Class = 0x01
  Class = 0x09
control
",
    ),
    // Back over two rollbacks.
    (
        STEP,
        b"end back back back back show back show",
        b"",
        EDITED_TRANSACTIONS,
        0,
        b"13 line 11 reject
12 rollback 2 reject
11 word 9 reject
10 line 8 fail
9 rollback 4 fail
request
reply
  Class = 0x02
control
8 word 6 fail
request
reply
  Class = 0x03
control
",
    ),
    // Back to pairs at both ends.
    (
        STEP,
        b"end show back back back show",
        b"",
        PREPENDING_TRANSACTION,
        0,
        b"7 line 6 fail
request
reply
  Class = 0x04
  Class = 0x01
control
6 rollback 2 fail
5 word 4 fail
4 line 3 ok
request
reply
  Class = 0x02
  Class = 0x01
  Class = 0x03
control
",
    ),
    (
        STEP,
        b"show\njump",
        b"",
        b"",
        2,
        b"radpolicy: E06 script:2: unknown script word\n",
    ),
    // A packet without a secret.
    (
        STEP_PACKET,
        b"",
        b"",
        b"",
        2,
        b"radpolicy: E02: option value\n",
    ),
];

#[test]
fn walks_forward_and_back(rt: HostRuntime) -> Result<(), Fail> {
    for (words, script, request, policy, status, wanted) in STEPS {
        let sources: [Source; 4] = [
            ("d", TEST_DICTIONARY),
            ("-", request),
            ("p", policy),
            ("s", script),
        ];
        expect_end(&rt, rt.alloc(), words, &sources, (status, wanted))?;
    }
    Ok(())
}
