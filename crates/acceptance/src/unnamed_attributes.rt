//! Runs of update sections on requests of unnamed attributes.

use crate::commands::RUN_UNNAMED;
use crate::runs::Run;

const LINES: &[u8] = b"Attr-25 = 0x01
Attr-18 = 0x61
Attr-25 = 0x02
Attr-25 = 0x01
";

pub const UNNAMED: [Run; 15] = [
    (
        RUN_UNNAMED,
        b"",
        b"",
        0,
        b"request
reply
control
result ok
",
    ),
    (
        RUN_UNNAMED,
        b"Attr-25 = 0x01\nAttr-1 = 0x626f62\n",
        b"update reply { Attr-25 += 0x02 Attr-18 += 0x6869 Attr-25 += 0x02 }",
        0,
        b"request
  Attr-25 = 0x01
  Attr-1 = 0x626f62
reply
  Attr-25 = 0x02
  Attr-18 = 0x6869
  Attr-25 = 0x02
control
result ok
",
    ),
    (
        RUN_UNNAMED,
        LINES,
        b"update request { Attr-25 := 0x09 }",
        0,
        b"request
  Attr-25 = 0x09
  Attr-18 = 0x61
reply
control
result ok
",
    ),
    (
        RUN_UNNAMED,
        LINES,
        b"update request { Attr-25 -= 0x01 }",
        0,
        b"request
  Attr-18 = 0x61
  Attr-25 = 0x02
reply
control
result ok
",
    ),
    (
        RUN_UNNAMED,
        LINES,
        b"update request { Attr-25 == 0x01 }",
        0,
        b"request
  Attr-25 = 0x01
  Attr-18 = 0x61
  Attr-25 = 0x01
reply
control
result ok
",
    ),
    (
        RUN_UNNAMED,
        LINES,
        b"update request { Attr-25 !* ANY }",
        0,
        b"request
  Attr-18 = 0x61
reply
control
result ok
",
    ),
    (
        RUN_UNNAMED,
        LINES,
        b"update request { Attr-25 = 0x07 }",
        0,
        b"request
  Attr-25 = 0x01
  Attr-18 = 0x61
  Attr-25 = 0x02
  Attr-25 = 0x01
reply
control
result ok
",
    ),
    (
        RUN_UNNAMED,
        LINES,
        b"update request { Attr-25 !* ANY Attr-25 = 0x07 }",
        0,
        b"request
  Attr-18 = 0x61
  Attr-25 = 0x07
reply
control
result ok
",
    ),
    (
        RUN_UNNAMED,
        LINES,
        b"update request { Attr-26 !* ANY Attr-26 !* ANY Attr-1 := 0x }",
        0,
        b"request
  Attr-25 = 0x01
  Attr-18 = 0x61
  Attr-25 = 0x02
  Attr-25 = 0x01
  Attr-1 = 0x
reply
control
result ok
",
    ),
    (
        RUN_UNNAMED,
        b"Nosuch = 1\n",
        b"update reply {\n Class += 0x01 }",
        2,
        b"radpolicy: E32 policy:2: unknown attribute\n",
    ),
    (
        RUN_UNNAMED,
        b"\nNosuch = 1\n",
        b"update reply { }",
        2,
        b"radpolicy: E32 request:2: unknown attribute\n",
    ),
    (
        RUN_UNNAMED,
        b"",
        b"update reply { Attr-25 += 0x01 \"",
        2,
        b"radpolicy: E50 policy:1: unreadable token\n",
    ),
    (
        RUN_UNNAMED,
        b"",
        b"update\nupdate",
        2,
        b"radpolicy: E51 policy:2: token does not fit\n",
    ),
    (
        RUN_UNNAMED,
        b"Attr-25 = 0x1",
        b"",
        2,
        b"radpolicy: E30 request:1: not a value\n",
    ),
    (
        RUN_UNNAMED,
        b"Attr-26 = 0x01",
        b"",
        2,
        b"radpolicy: E33 request:1: not writable\n",
    ),
];
