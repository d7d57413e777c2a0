//! Requests as packets, signed ones among them.

use crate::commands::{DECODE, DECODE_EMPTY, DECODE_STANDARD, ENCODE, ENCODE_ZEROS};
use crate::data::sources_of;
use crate::program::expect_end;
use std::test::Fail;

/// The Access-Request of RFC 2865, section 7.1.
pub const STANDARD_REQUEST: &[u8] =
    b"010000380f403f9473978057bd83d5cb98f4227a01066e656d6f02120dbe708d93d413ce3196e43f782a0aee0406c0a80110050600000003";

/// A name and a Message-Authenticator under the secret `s`, with an authenticator of zeros.
pub const SIGNED_REQUEST: &[u8] =
    b"0100002900000000000000000000000000000000010375501212c10da18ce04bb1fcf42c68a7eb68ae";

const WRONG_REQUEST: &[u8] =
    b"0100002900000000000000000000000000000000010375501212c10da18ce04bb1fcf42c68a7eb68af";

// Words, lines, and their packet's line.
const ENCODED: [(&str, &[u8], &[u8]); 2] = [
    // The request of RFC 2865, section 7.1.
    (
        ENCODE,
        b"User-Name = \"nemo\", User-Password = arctangent
NAS-IP-Address = 192.168.1.16,
NAS-Port = 3
",
        b"packet 010000380f403f9473978057bd83d5cb98f4227a01066e656d6f02120dbe708d93d413ce3196e43f782a0aee0406c0a80110050600000003
",
    ),
    // One that is signed.
    (
        ENCODE_ZEROS,
        b"User-Name = \"u\"\nAttr-80 = 0x00\n",
        b"packet 0100002900000000000000000000000000000000010375501212c10da18ce04bb1fcf42c68a7eb68ae\n",
    ),
];

#[test]
fn encodes_requests(rt: HostRuntime) -> Result<(), Fail> {
    for (words, lines, wanted) in ENCODED {
        expect_end(&rt, rt.alloc(), words, &sources_of(lines, b""), (0, wanted))?;
    }
    Ok(())
}

// Words, packets, the status, and what they hold or the line of a fault.
const DECODED: [(&str, &[u8], u8, &[u8]); 9] = [
    (
        DECODE_STANDARD,
        STANDARD_REQUEST,
        0,
        b"code 1
identifier 0
authenticator 0f403f9473978057bd83d5cb98f4227a
request
  User-Name = \"nemo\"
  User-Password = \"arctangent\"
  NAS-IP-Address = 192.168.1.16
  NAS-Port = 3
",
    ),
    (
        DECODE,
        SIGNED_REQUEST,
        0,
        b"code 1
identifier 0
authenticator 00000000000000000000000000000000
request
  User-Name = \"u\"
  Attr-80 = 0x12c10da18ce04bb1fcf42c68a7eb68ae
",
    ),
    (
        DECODE,
        WRONG_REQUEST,
        2,
        b"radpolicy: E47: wrong Message-Authenticator\n",
    ),
    (
        DECODE_EMPTY,
        STANDARD_REQUEST,
        2,
        b"radpolicy: E03: empty secret\n",
    ),
    (DECODE, b"010", 2, b"radpolicy: E05: not hex\n"),
    (DECODE, b"01zz", 2, b"radpolicy: E05: not hex\n"),
    (DECODE, b"", 2, b"radpolicy: E40: fewer than 20 octets\n"),
    (
        DECODE,
        b"01000016 00000000000000000000000000000000 0101",
        2,
        b"radpolicy: E43 offset 20: bad attribute length\n",
    ),
    (
        DECODE,
        b"02000014\n00000000000000000000000000000000",
        2,
        b"radpolicy: E44: code not taken\n",
    ),
];

#[test]
fn decodes_packets(rt: HostRuntime) -> Result<(), Fail> {
    for (words, packet, status, wanted) in DECODED {
        let sources = sources_of(packet, b"");
        expect_end(&rt, rt.alloc(), words, &sources, (status, wanted))?;
    }
    Ok(())
}
