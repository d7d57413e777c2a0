//! One call of each that `radpolicy_clients` reads clients and addresses by, and files that nobody may read. Which
//! client an address is of, and what is refused, is in the cases of tests/replays.

use radpolicy_clients::{ClientFault, Clients, address_of, prefix_of, read_clients, read_lines};
use server_configuration::{FaultKind, Files, Unread};
use std::alloc::Global;
use std::net::{IpAddr, Ipv4Addr};
use std::test::Fail;

// One file, and `c/secret`, which nobody may read.
#[derive(Clone, Copy)]
struct OneFile<'a> {
    octets: &'a [u8],
}

impl Files for OneFile<'_> {
    fn octets(&self, alloc: Global, path: &[u8], _limit: usize) -> Result<Vec<u8>, Unread> {
        if path != b"c/file".as_slice() {
            return Err(Unread::Forbidden);
        }
        match Vec::from_slice(alloc, self.octets) {
            Ok(octets) => Ok(octets),
            Err(_) => Err(Unread::Memory),
        }
    }

    fn names(&self, alloc: Global, _folder: &[u8]) -> Result<Vec<Vec<u8>>, Unread> {
        Ok(Vec::new(alloc))
    }

    fn is_folder(&self, _path: &[u8]) -> bool {
        false
    }
}

// Whether the secret that is shared with an address is this one.
fn shares(clients: &Clients, address: &[u8], wanted: &[u8]) -> bool {
    match address_of(address) {
        Some(address) => match clients.secret_for(address) {
            Some(secret) => secret.as_slice() == wanted,
            None => wanted.is_empty(),
        },
        None => false,
    }
}

#[test]
fn clients_are_read(rt: HostRuntime) -> Result<(), Fail> {
    let alloc = rt.alloc();
    let octets = b"client 192.0.2.0/24 {\nsecret = first\n}\n";
    let Ok(clients) = read_clients(alloc, &OneFile { octets }, b"c/file") else {
        return Err(Fail::new("refused"));
    };
    assert!(rt; shares(&clients, b"192.0.2.1", b"first"));
    let Ok(clients) = read_lines(alloc, b"2001:db8::/33 six\n") else {
        return Err(Fail::new("refused"));
    };
    assert!(rt; shares(&clients, b"2001:db8::1", b"six"));
    assert!(rt; shares(&clients, b"192.0.2.1", b""));
    let address = IpAddr::V4(Ipv4Addr::new(10, 0, 0, 1));
    assert!(rt; prefix_of(b"10.0.0.1/0") == Some((address, 0)));
    Ok(())
}

#[test]
fn files_that_may_not_be_read_are_told(rt: HostRuntime) {
    let octets = b"$INCLUDE secret".as_slice();
    let read = read_clients(rt.alloc(), &OneFile { octets }, b"c/secret");
    assert!(rt; matches!(&read, Err(refused) if refused.fault == ClientFault::Forbidden));
    let read = read_clients(rt.alloc(), &OneFile { octets }, b"c/file");
    let included = ClientFault::Configuration(FaultKind::Forbidden);
    assert!(rt;
        matches!(&read, Err(refused) if refused.fault == included
            && matches!(&refused.unread, Some(path) if path.as_slice() == b"c/secret".as_slice()))
    );
}
