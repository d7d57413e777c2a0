//! What the tests of several crates share: a dictionary and how they read one, and a policy.
#![tactic(auto)]

ghost use Rattle.std.specs.Prelude.{◌≡◌, true, All, IfOk, IsTrue};
ghost use Rattle.avp_dict.specs.Limits.{fits};

use avp_dict::{Dictionary, FileSet, NamedFile};
use avp_lists::{Octets, Pair};
use std::alloc::{AllocError, Global};
use std::test::Fail;

/// Attributes of RFC 2865 and 2866, two extended ones, an internal one and a vendor.
pub const TEST_DICTIONARY: &[u8] = b"ATTRIBUTE User-Name 1 string
ATTRIBUTE User-Password 2 string encrypt=1
ATTRIBUTE NAS-IP-Address 4 ipaddr
ATTRIBUTE NAS-Port 5 integer
ATTRIBUTE Service-Type 6 integer
ATTRIBUTE Login-IP-Host 14 ipaddr
ATTRIBUTE Login-Service 15 integer
ATTRIBUTE Reply-Message 18 string
ATTRIBUTE Class 25 octets
ATTRIBUTE Vendor-Specific 26 octets
ATTRIBUTE Session-Timeout 27 integer
ATTRIBUTE Proxy-State 33 octets
ATTRIBUTE Acct-Status-Type 40 integer
ATTRIBUTE Acct-Session-Id 44 string
ATTRIBUTE Test-Ext 241.1 integer
ATTRIBUTE Test-Long 245.1 octets
ATTRIBUTE Tmp-Number 1000 integer
VALUE Service-Type Login-User 1
VALUE Login-Service Telnet 0
VALUE Acct-Status-Type Start 1
VALUE Acct-Status-Type Stop 2
VENDOR Cisco 9
BEGIN-VENDOR Cisco
ATTRIBUTE Cisco-AVPair 1 string
END-VENDOR Cisco
";

/// A main file that includes `x`, with a vendor and names of values; four of its lines give notes.
pub const INCLUDING_FILE: &[u8] = b"$INCLUDE sub/x
$INCLUDE- gone
VENDOR V 100 format=2,1
BEGIN-VENDOR V
ATTRIBUTE V-A 65536 integer
ATTRIBUTE V-B 0x0101 integer
END-VENDOR V
VALUE V-A One 1
VALUE X-A One 1
VALUE V-B One 1
";

/// Three transactions, one in the other: the innermost fails, the middle one is kept and the outer one is refused.
pub const NESTED_TRANSACTIONS: &[u8] = b"update reply { Class += 0x01 }
transaction {
  update reply { Class += 0x02 }
  transaction {
    update reply { Class := 0x03 }
    transaction {
      update reply { Class !* ANY }
      fail
    }
    update reply { Reply-Message += \"m\" }
  }
  reject
}
update control { Session-Timeout := 60 }
";

/// These octets, copied.
pub fn octets(alloc: Global, bytes: &[u8]) -> Result<Octets, AllocError>
    ensures { IfOk result (λ copy. copy ≡ bytes.now) }
{
    Octets::from_slice(alloc, bytes)
}

/// A file of this name with these octets.
pub fn file(alloc: Global, name: &[u8], bytes: &[u8]) -> Result<NamedFile, AllocError> {
    Ok(NamedFile {
        name: octets(alloc, name)?,
        octets: octets(alloc, bytes)?,
    })
}

/// A set of one file, of the name `d`.
pub fn one_file(alloc: Global, lines: &[u8]) -> Result<FileSet, AllocError> {
    let mut files = Vec::new(alloc);
    files.push(file(alloc, b"d", lines)?)?;
    Ok(FileSet::from_vec(files))
}

/// The dictionary of one file with these lines.
pub fn read_dictionary(alloc: Global, lines: &[u8]) -> Result<Dictionary, Fail> {
    let set = one_file(alloc, lines)?;
    if set.is_empty() || !set.has_distinct_names() {
        return Err(Fail::new("no set of files"));
    }
    Ok(Dictionary::read(alloc, &set)?)
}

/// The dictionary of [`TEST_DICTIONARY`].
pub fn test_dictionary(alloc: Global) -> Result<Dictionary, Fail> {
    read_dictionary(alloc, TEST_DICTIONARY)
}

/// Whether each of the pairs fits.
pub fn all_fit(dictionary: &Dictionary, pairs: &[Pair]) -> bool
    ensures { IsTrue result → All (λ pair. fits pair dictionary.now ≡ true) pairs.now }
{
    pairs.iter().all(|pair| dictionary.fits(pair))
}
