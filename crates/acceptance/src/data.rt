//! What the worked rows share: more attributes, an authenticator, and what lies at the paths of words.

use crate::program::Source;
use attribute_tests::samples::TEST_DICTIONARY;

/// An attribute of each type that is no text, and two whose flag makes them octets.
pub const TYPES: &[u8] = b"ATTRIBUTE Ty-B 201 byte
ATTRIBUTE Ty-S 202 short
ATTRIBUTE Ty-G 203 signed
ATTRIBUTE Ty-L 204 integer64
ATTRIBUTE Ty-E 205 ether
ATTRIBUTE Ty-D 206 date
ATTRIBUTE Ty-V 207 ipv6addr
ATTRIBUTE Ty-T 208 integer has_tag
ATTRIBUTE Ty-U 209 string has_tag
";

/// The authenticator of the request in RFC 2865, section 7.1.
pub const AUTHENTICATOR_OCTETS: [u8; 16] = [
    0x0f, 0x40, 0x3f, 0x94, 0x73, 0x97, 0x80, 0x57, 0xbd, 0x83, 0xd5, 0xcb, 0x98, 0xf4, 0x22, 0x7a,
];

/// A value of an attribute with a tag.
pub const TAGGED: &[u8] = b"ATTRIBUTE Tunnel-Type 64 integer has_tag\nVALUE Tunnel-Type PPTP 1\n";

/// A request, a policy, and what else a row's words may name: dictionaries and secrets.
pub fn sources_of<'a>(request: &'a [u8], policy: &'a [u8]) -> [Source<'a>; 9] {
    [
        ("-", request),
        ("p", policy),
        ("d", TEST_DICTIONARY),
        ("t", TYPES),
        ("v", TAGGED),
        ("n", b""),
        ("s", b"s"),
        ("x", b"xyzzy5461\n"),
        ("e", b"\n"),
    ]
}
