//! The clients, and which of them an address is of.

ghost use Rattle.std.specs.Prelude.{◌≡◌, [], ◌∷◌, ◌++◌, ◌<◌, All, IfNone, IfSome, MatchOption, OnOk, length, nat_lt};
ghost use Rattle.std.specs.Option.{option_copied};
ghost use Rattle.radpolicy_clients.specs.Clients.{IsMeant, IsOther, client_for, holds, secret_for};
ghost use Rattle.radpolicy_clients.specs.internal.Choosing.{chosen};

use crate::addresses::begins_as;
use radpolicy::Secret;
use std::alloc::{AllocError, Global};
use std::marker::Model;
use std::net::IpAddr;

/// The addresses that begin as this one does, and the secret that is shared with them.
// It has no Debug, so that the secret is not printed by mistake.
#[derive(Drop)]
pub struct Client {
    address: IpAddr,
    prefix_length: u8,
    secret: Vec<u8>,
}

impl Model for Client {
    ghost use Rattle.std.specs.Prelude.{◌<◌, length};
    ghost use Rattle.radpolicy_clients.specs.Clients.{Client as Shown};

    ghost Value = { Shown };

    ghost view = { λ c. record {
      address = c.address;
      prefix_length = c.prefix_length;
      secret = c.secret.items;
    } };

    ghost invariant = { λ c. 0 < length c.secret.items };
}

impl Client {
    /// None where the secret has no octets.
    pub fn new(address: IpAddr, prefix_length: u8, secret: Vec<u8>) -> Option<Client>
        ensures made { IfSome result (λ client. client ≡ record {
          address = address;
          prefix_length = prefix_length;
          secret = secret.items;
        }) }
        ensures none { IfNone result (secret.items ≡ []) }
    {
        if secret.len() < 1 {
            return None;
        }
        Some(Client {
            address,
            prefix_length,
            secret,
        })
    }

    fn holds(&self, address: IpAddr) -> bool
        ensures { result ≡ holds address self.now }
    {
        begins_as(self.prefix_length, self.address, address)
    }

    fn is_shorter(&self, other: &Client) -> bool
        ensures { result ≡ nat_lt self.now.prefix_length other.now.prefix_length }
    {
        self.prefix_length < other.prefix_length
    }

    fn secret(&self) -> &[u8]
        ensures octets { result.now ≡ self.now.secret }
        ensures some { 0 < length result.now }
    {
        &self.secret
    }
}

// The one that was found and the next one that holds the address: the one of them that is meant.
fn chosen<'a>(found: Option<&'a Client>, client: &'a Client) -> &'a Client
    ensures { result.now ≡ chosen (option_copied found.entry) client.entry.now }
{
    match found {
        Some(found) if !found.is_shorter(client) => found,
        _ => client,
    }
}

/// The clients, in the order in which they were read.
#[derive(Drop)]
pub struct Clients {
    clients: Vec<Client>,
}

impl Model for Clients {
    ghost use Rattle.std.specs.Prelude.{List};
    ghost use Rattle.radpolicy_clients.specs.Clients.{Client as Shown};

    ghost Value = { List Shown };

    ghost view = { λ c. c.clients.items };
}

impl Clients {
    /// None yet.
    pub fn new(alloc: Global) -> Clients
        ensures { result ≡ [] }
    {
        Clients {
            clients: Vec::new(alloc),
        }
    }

    /// Adds a client at the end.
    pub fn push(&mut self, client: Client) -> Result<(), AllocError>
        ensures { OnOk result (self.new ≡ self.old ++ client ∷ []) }
    {
        self.clients.push(client)?;
        Ok(())
    }

    fn find(&self, address: IpAddr) -> Option<&Client>
        ensures { option_copied result ≡ client_for self.now address }
    {
        let mut found = None;
        let mut rest = self.clients.as_slice();
        while let [client, later @ ..] = rest {
            if client.holds(address) {
                found = Some(chosen(found, client));
            }
            rest = later;
        }
        found
    }

    /// The client that an address is of: of those that hold it the one with the longest prefix, and of equally long
    /// ones the first.
    pub fn client_for(&self, address: IpAddr) -> Option<&Client>
        ensures client { option_copied result ≡ client_for self.now address }
        ensures meant { MatchOption result (All (IsOther address) self.now)
            (λ client. IsMeant self.now address client.now) }
    {
        self.find(address)
    }

    /// The secret that is shared with an address.
    pub fn secret_for(&self, address: IpAddr) -> Option<Secret<'_>>
        ensures { result ≡ secret_for self.now address }
    {
        let client = self.client_for(address)?;
        Secret::new(client.secret()).ok()
    }
}
