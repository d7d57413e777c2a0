//! The file of clients.

use crate::clients::Clients;
use crate::configurations::{ItemFault, clients_of};
use crate::faults::{ClientFault, ClientsFault};
use crate::lines::{has_lines, read_lines};
use server_configuration::{
    Configuration, ConfigurationFault, FaultKind, Files, MAX_OCTETS, Unread, read_configuration,
};
use std::alloc::Global;

// Files of which the first was read already, so that it may be a pipe.
#[derive(Clone, Copy)]
struct Begun<'a, F> {
    files: &'a F,
    path: &'a [u8],
    octets: &'a [u8],
}

impl<F: Files> Files for Begun<'_, F> {
    fn octets(&self, alloc: Global, path: &[u8], limit: usize) -> Result<Vec<u8>, Unread> {
        if path != self.path {
            return self.files.octets(alloc, path, limit);
        }
        match Vec::from_slice(alloc, self.octets) {
            Ok(octets) => Ok(octets),
            Err(_) => Err(Unread::Memory),
        }
    }

    fn names(&self, alloc: Global, folder: &[u8]) -> Result<Vec<Vec<u8>>, Unread> {
        self.files.names(alloc, folder)
    }

    fn is_folder(&self, path: &[u8]) -> bool {
        self.files.is_folder(path)
    }
}

// The path and the place of what is not read.
fn fault_at(alloc: Global, path: &[u8], line: usize, fault: ClientFault) -> ClientsFault {
    match Vec::from_slice(alloc, path) {
        Ok(path) => ClientsFault {
            path,
            line,
            fault,
            unread: None,
        },
        Err(_) => ClientsFault {
            path: Vec::new(alloc),
            line,
            fault: ClientFault::Memory,
            unread: None,
        },
    }
}

fn unread_fault(unread: Unread) -> ClientFault {
    match unread {
        Unread::Memory => ClientFault::Memory,
        Unread::Missing | Unread::Unreadable => ClientFault::Unreadable,
        Unread::Forbidden => ClientFault::Forbidden,
        Unread::NotRegular => ClientFault::Configuration(FaultKind::NotRegular),
        Unread::TooLong => ClientFault::Configuration(FaultKind::TooLong),
    }
}

fn configuration_fault(refused: ConfigurationFault) -> ClientsFault {
    let fault = match refused.kind {
        FaultKind::Memory => ClientFault::Memory,
        kind => ClientFault::Configuration(kind),
    };
    let line = refused.line;
    let unread = refused.unread;
    let file = refused.file;
    let path = file.path;
    ClientsFault {
        path,
        line,
        fault,
        unread,
    }
}

// The place of an item that is no client.
fn item_fault(alloc: Global, configuration: &Configuration, refused: ItemFault) -> ClientsFault {
    let Some(item) = configuration.items.get(refused.item) else {
        return fault_at(alloc, b"", 1, refused.fault);
    };
    match configuration.files.get(item.file) {
        Some(file) => fault_at(alloc, &file.path, item.line, refused.fault),
        None => fault_at(alloc, b"", item.line, refused.fault),
    }
}

fn read_sections<F: Files>(alloc: Global, files: &F, path: &[u8]) -> Result<Clients, ClientsFault> {
    let configuration = match read_configuration(alloc, files, path) {
        Ok(configuration) => configuration,
        Err(fault) => return Err(configuration_fault(fault)),
    };
    match clients_of(alloc, &configuration) {
        Ok(clients) => Ok(clients),
        Err(refused) => Err(item_fault(alloc, &configuration, refused)),
    }
}

/// The clients of a file: of lines, each an address or a prefix and a secret, if its first words have the sign `.` or
/// `:` of an address, and otherwise of a FreeRADIUS server's configuration, as `clients.conf`, with what it includes.
/// Names of hosts are not looked up. No secret is in a fault.
pub fn read_clients<F: Files>(
    alloc: Global,
    files: &F,
    path: &[u8],
) -> Result<Clients, ClientsFault> {
    let octets = match files.octets(alloc, path, MAX_OCTETS) {
        Ok(octets) => octets,
        Err(unread) => return Err(fault_at(alloc, path, 1, unread_fault(unread))),
    };
    if has_lines(&octets) {
        return match read_lines(alloc, &octets) {
            Ok(clients) => Ok(clients),
            Err(refused) => Err(fault_at(alloc, path, refused.line, refused.fault)),
        };
    }
    let begun = Begun {
        files,
        path,
        octets: &octets,
    };
    read_sections(alloc, &begun, path)
}
