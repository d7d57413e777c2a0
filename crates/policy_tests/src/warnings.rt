//! Texts that are no policies: `radpolicy-lint` tells why each is refused, and not what it would be warned of.

use attribute_tests::samples::read_dictionary;
use avp_dict::Dictionary;
use policy_warnings::{Reason, bare_names, written_values};
use std::alloc::Global;
use std::test::Fail;

const DICTIONARY: &[u8] = b"ATTRIBUTE User-Name 1 string
ATTRIBUTE Session-Timeout 27 integer
ATTRIBUTE Acct-Terminate-Cause 49 integer
ATTRIBUTE Tunnel-Type 64 integer has_tag
VALUE Acct-Terminate-Cause Session-Timeout 5
VENDOR Cisco 9
";

const LINES: &str = "# profile: wider
update reply {
  User-Name := # the name == User-Name

    User-Name
  User-Name := \"= User-Name\"
}
if (&User-Name =~ /= User-Name/ && (&Acct-Terminate-Cause == Session-Timeout ||
    &User-Name != reply:User-Name)) { ok }
User-Name = User-Name";

// Texts, and the lines on which each has a word that a server takes for an attribute. No value in them is one that a
// server reads otherwise.
const TEXTS: [(&str, &[usize]); 24] = [
    // Behind operators a name is a word of its own.
    ("User-Name ==User-Name", &[1]),
    ("User-Name !=User-Name", &[1]),
    ("User-Name <User-Name", &[1]),
    ("User-Name <=User-Name", &[1]),
    ("User-Name >User-Name", &[1]),
    ("User-Name >=User-Name", &[1]),
    ("User-Name =User-Name", &[1]),
    ("User-Name :=User-Name", &[1]),
    ("User-Name +=User-Name", &[1]),
    ("User-Name ^=User-Name", &[1]),
    ("User-Name -=User-Name", &[1]),
    // Behind other signs it is not.
    ("User-Name !* User-Name", &[]),
    ("User-Name && User-Name", &[]),
    ("User-Name || User-Name", &[]),
    ("User-Name ! User-Name", &[]),
    ("User-Name ( User-Name", &[]),
    ("User-Name { User-Name", &[]),
    ("User-Name & User-Name", &[]),
    ("User-Name ==& User-Name", &[]),
    (LINES, &[5, 8, 9, 10]),
    // Numbers that are none.
    (
        "# profile: wider\nif (\n&Tunnel-Type == 0X0d) { ok }\n",
        &[],
    ),
    ("# profile: wider\nif (\n&Tunnel-Type == x0d) { ok }\n", &[]),
    (
        "# profile: wider\nif (\n&Tunnel-Type && 0x0d) { ok }\n",
        &[],
    ),
    (
        "# profile: wider\nif (\n\"%{Tunnel-Type\" == 0x0d) { ok }\n",
        &[],
    ),
];

// The lines on which a text has such a word.
fn lines_of(alloc: Global, dictionary: &Dictionary, text: &[u8]) -> Result<Vec<usize>, Fail> {
    let mut lines = Vec::new(alloc);
    for warning in &bare_names(alloc, dictionary, text)? {
        if warning.reason == Reason::BareName {
            lines.push(warning.line)?;
        }
    }
    Ok(lines)
}

#[test]
fn texts_that_are_no_policies(rt: HostRuntime) -> Result<(), Fail> {
    let alloc = rt.alloc();
    let dictionary = read_dictionary(alloc, DICTIONARY)?;
    for (text, wanted) in TEXTS {
        let lines = lines_of(alloc, &dictionary, text.as_bytes())?;
        assert_eq!(rt; lines.as_slice(), wanted, "{text}");
        let values = written_values(alloc, &dictionary, text.as_bytes())?;
        assert!(rt; values.is_empty(), "{text}");
    }
    Ok(())
}
