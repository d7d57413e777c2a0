//! Help for clients that are not read.

use radpolicy_clients::ClientFault;
use server_configuration::FaultKind;
use std::alloc::{AllocError, Global};

fn client_hint(fault: ClientFault) -> &'static str {
    match fault {
        ClientFault::Memory | ClientFault::Unreadable | ClientFault::Forbidden => "",
        ClientFault::Configuration(
            FaultKind::Unreadable | FaultKind::Forbidden | FaultKind::NotRegular,
        ) => "",
        ClientFault::Configuration(_) => {
            "correct the line, or write lines of an address and a secret, as 192.0.2.0/24 testing123\n"
        }
        ClientFault::Reference(_) => "write the value in the place of ${..}\n",
        ClientFault::NotTwoWords => {
            "write an address and a secret on each line, as 192.0.2.0/24 testing123\n\
            or give a server's clients.conf as it is\n"
        }
        ClientFault::NotAddress => {
            "names of hosts are not looked up\n\
            write an address, as 192.0.2.1, 192.0.2.0/24 or 2001:db8::/32\n"
        }
        ClientFault::NotBits =>
            "netmask takes a number up to 32, or up to 128 for an IPv6 address\n",
        ClientFault::NoClient => {
            "write client nas { ipaddr = 192.0.2.1 secret = testing123 }, an item a line\n"
        }
        ClientFault::NoAddress => "write ipaddr = 192.0.2.1 between the client's { and }\n",
        ClientFault::NoSecret => "write secret = testing123 between the client's { and }\n",
    }
}

/// What to do about a fault of the clients.
pub fn client_help(alloc: Global, fault: ClientFault) -> Result<Vec<u8>, AllocError> {
    Vec::from_slice(alloc, client_hint(fault).as_bytes())
}
