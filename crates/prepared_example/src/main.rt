//! The program of docs/LIBRARY.md: a policy that is read once, and run on a thousand requests.
#![tactic(auto)]

use avp_dict::{Dictionary, FileSet, NamedFile};
use avp_forms::Profile;
use avp_lists::Octets;
use avp_unlang::Code;
use radpolicy::{Fault, PreparedPolicy, RequestHead, RequestKind, Secret, Start};
use std::alloc::{AllocError, Global};
use std::io;

const DICTIONARY: &[u8] = b"ATTRIBUTE User-Name 1 string
ATTRIBUTE NAS-Port 5 integer
ATTRIBUTE Session-Timeout 27 integer
";

const POLICY: &[u8] = b"if (&NAS-Port >= 900) { reject }
update reply { Session-Timeout := 600 }
";

fn files_of(alloc: Global) -> Result<FileSet, AllocError> {
    let octets = Octets::from_slice(alloc, DICTIONARY)?;
    let files = vec![in alloc; NamedFile::at(alloc, "dictionary", octets)?]?;
    Ok(FileSet::from_vec(files))
}

// How many of a thousand requests the policy rejects.
fn rejected(alloc: Global, dictionary: &Dictionary) -> Result<u32, Fault> {
    let policy = PreparedPolicy::read(alloc, dictionary, POLICY)?;
    let secret = Secret::new(b"testing123")?;
    let head = RequestHead {
        kind: RequestKind::Access,
        id: 7,
        authenticator: None,
    };
    let mut rejected = 0;
    for port in 0..1000_u32 {
        let lines = format!(in alloc; "User-Name = bob, NAS-Port = {port}")?;
        let start = Start::of_lines(
            alloc,
            &policy,
            Some(&secret),
            head,
            Profile::Plain,
            None,
            lines.as_bytes(),
        )?;
        if start.run(alloc)?.code() == Code::Reject {
            rejected += 1;
        }
    }
    Ok(rejected)
}

fn main(rt: HostRuntime) -> io::Result<()> {
    let files = files_of(rt.alloc())?;
    if files.is_empty() || !files.has_distinct_names() {
        return Err(io::ErrorKind::InvalidInput.into());
    }
    let Ok(dictionary) = Dictionary::read(rt.alloc(), &files) else {
        return Err(io::ErrorKind::InvalidData.into());
    };
    match rejected(rt.alloc(), &dictionary) {
        Ok(count) => println!(&rt; "{count} of 1000 requests are rejected"),
        Err(fault) => println!(&rt; "refused: {fault}"),
    }
}
