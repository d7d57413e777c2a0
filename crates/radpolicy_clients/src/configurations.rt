//! The clients of a server's configuration: `client NAME { ipaddr = .. secret = .. }`.

ghost use Rattle.std.specs.Prelude.{◌<◌, IfErr, length};

use crate::addresses::{prefix_of, prefix_with, small_number};
use crate::clients::{Client, Clients};
use crate::faults::ClientFault;
use avp_dict::{QuoteMark, octets_between};
use server_configuration::{Configuration, Content, Quote, Text};
use std::alloc::Global;
use std::net::{IpAddr, Ipv4Addr};

// The names of an address's pair, in the order in which the server looks for them.
const ADDRESS_NAMES: [&[u8]; 3] = [b"ipaddr", b"ipv4addr", b"ipv6addr"];

/// Why a client is not read, and the place of its item.
#[derive(Clone, Copy, Debug)]
pub(crate) struct ItemFault {
    pub(crate) item: usize,
    pub(crate) fault: ClientFault,
}

// What a value stands for, with its references filled in.
fn octets_of(
    alloc: Global,
    configuration: &Configuration,
    section: usize,
    value: &Text,
) -> Result<Vec<u8>, ClientFault> {
    match configuration.resolved(alloc, Some(section), &value.octets, &[]) {
        Ok(octets) => match value.quote {
            Quote::Double => Ok(octets_between(alloc, QuoteMark::Double, &octets)?),
            Quote::Single => Ok(octets_between(alloc, QuoteMark::Single, &octets)?),
            Quote::Bare | Quote::Back => Ok(octets),
        },
        Err(fault) => Err(ClientFault::Reference(fault.kind)),
    }
}

// The value of the pair of this name in a section, if it has one.
fn value_of(
    alloc: Global,
    configuration: &Configuration,
    section: usize,
    name: &[u8],
) -> Result<Option<Vec<u8>>, ClientFault> {
    let Some(place) = configuration.pair(Some(section), name) else {
        return Ok(None);
    };
    match configuration.value(place) {
        Some(value) => Ok(Some(octets_of(alloc, configuration, section, value)?)),
        None => Ok(None),
    }
}

// The name of a section, as `client NAME {` has it.
fn second_name<'a>(configuration: &'a Configuration, section: usize) -> Option<&'a Text> {
    match &configuration.items.get(section)?.content {
        Content::Section { arguments, .. } => arguments.first(),
        _ => None,
    }
}

// The text of a client's address: its pair's, or its name.
fn address_text(
    alloc: Global,
    configuration: &Configuration,
    section: usize,
) -> Result<Vec<u8>, ClientFault> {
    for name in ADDRESS_NAMES {
        if let Some(value) = value_of(alloc, configuration, section, name)? {
            return Ok(value);
        }
    }
    match second_name(configuration, section) {
        Some(name) => octets_of(alloc, configuration, section, name),
        None => Err(ClientFault::NoAddress),
    }
}

// The prefix of a client's address. `*` stands for every IPv4 address.
fn written_prefix(text: &[u8]) -> Result<(IpAddr, u8), ClientFault> {
    if text == b"*".as_slice() {
        return Ok((IpAddr::V4(Ipv4Addr::UNSPECIFIED), 0));
    }
    match prefix_of(text) {
        Some(prefix) => Ok(prefix),
        None => Err(ClientFault::NotAddress),
    }
}

// The prefix of a client, of which a `netmask` is the length.
fn client_prefix(
    alloc: Global,
    configuration: &Configuration,
    section: usize,
) -> Result<(IpAddr, u8), ClientFault> {
    let text = address_text(alloc, configuration, section)?;
    let (address, count) = written_prefix(&text)?;
    match value_of(alloc, configuration, section, b"netmask")? {
        Some(mask) => match prefix_with(Some(address), small_number(&mask)) {
            Some(prefix) => Ok(prefix),
            None => Err(ClientFault::NotBits),
        },
        None => Ok((address, count)),
    }
}

fn client_of(
    alloc: Global,
    configuration: &Configuration,
    section: usize,
) -> Result<Client, ClientFault> {
    let (address, count) = client_prefix(alloc, configuration, section)?;
    let Some(secret) = value_of(alloc, configuration, section, b"secret")? else {
        return Err(ClientFault::NoSecret);
    };
    Client::new(address, count, secret).ok_or(ClientFault::NoSecret)
}

fn push_client(
    clients: &mut Clients,
    alloc: Global,
    configuration: &Configuration,
    section: usize,
) -> Result<(), ClientFault> {
    let client = client_of(alloc, configuration, section)?;
    clients.push(client)?;
    Ok(())
}

// Adds the client of an item, if it is one. Those in a section of their own are of one listener alone.
fn push_item(
    clients: &mut Clients,
    alloc: Global,
    configuration: &Configuration,
    place: usize,
) -> Result<(), ClientFault> {
    let Some(item) = configuration.items.get(place) else {
        return Ok(());
    };
    match &item.content {
        Content::Section { name, .. }
            if item.section.is_none() && name.octets.as_slice() == b"client".as_slice() => {
            push_client(clients, alloc, configuration, place)
        }
        Content::Word { .. } if item.section.is_none() => Err(ClientFault::NoClient),
        _ => Ok(()),
    }
}

/// The clients of a configuration, in order.
pub(crate) fn clients_of(alloc: Global, configuration: &Configuration) -> Result<Clients, ItemFault>
    ensures { IfErr result (λ f. f.item < length configuration.now.items.items) }
{
    let mut clients = Clients::new(alloc);
    for item in 0..configuration.items.len() {
        if let Err(fault) = push_item(&mut clients, alloc, configuration, item) {
            return Err(ItemFault { item, fault });
        }
    }
    Ok(clients)
}
