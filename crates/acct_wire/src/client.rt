//! The clients of a site: the access servers and proxies that may send reports.
ghost use Rattle.std.specs.Prelude.{◌≡◌, ◌++◌, [], ◌∷◌, Some, None, IfOk, IfErr, OnOk, OnErr};
ghost use Rattle.std.specs.List.{list_any};
ghost use Rattle.std.specs.Option.{option_copied};
ghost use Rattle.acct_model.specs.Faults.{fault_or};
ghost use Rattle.acct_wire.specs.Clients.{has_name, has_address, client_at, client_named};
ghost use Rattle.acct_wire.specs.ClientFaults.{client_fault};

use crate::hearing::Stamping;
use acct_model::{Octets, Text};
use std::alloc::Global;
use std::marker::Model;
use thiserror::Error;

/// An access server, or a proxy in its place.
pub struct Client {
    /// Its name, by which its sessions are known.
    pub name: Text,
    /// The IPv4 address from which it sends.
    pub address: [u8; 4],
    /// The secret that it shares with the server (RFC 2866, section 3).
    pub secret: Octets,
}

impl Drop for Client {
    fn drop(self) {
        let Client {
            name: _,
            address: _,
            secret: _,
        } = self;
    }
}

/// Clients of which no two share a name or an address, and how those of them are heard whose logins
/// are stamped.
pub struct Clients {
    clients: Vec<Client>,
    stamping: Option<Stamping>,
}

impl Drop for Clients {
    fn drop(self) {
        let Clients {
            clients: _,
            stamping: _,
        } = self;
    }
}

impl Model for Clients {
    ghost use Rattle.acct_wire.specs.Clients.{ClientsFacts};

    ghost Value = { ClientsFacts };

    ghost use Rattle.acct_wire.specs.ClientFaults.{AreClients};

    ghost view = { λ c. record { list = c.clients.items; stamping = c.stamping } };

    ghost invariant = { λ c. AreClients c.clients.items };
}

/// Why clients can't be the clients of a site.
#[derive(Clone, Copy, PartialEq, Eq, Debug, Error)]
pub enum ClientError {
    /// An earlier client has the same name.
    #[error("an earlier client has the same name")]
    TwiceNamed = 1,
    /// An earlier client has the same address.
    #[error("an earlier client has the same address")]
    TwiceAddressed = 2,
    /// Out of memory.
    #[error("out of memory")]
    Memory = 3,
}

impl Clients {
    ghost use Rattle.acct_wire.specs.ClientFaults.{clients_fault};

    /// No clients. It takes no memory.
    pub fn none(alloc: Global) -> Clients
        ensures { result ≡ record { list = []; stamping = None } }
    {
        Clients {
            clients: Vec::new(alloc),
            stamping: None,
        }
    }

    /// The clients as they are given, if they have no fault. The logins of none are stamped. It takes
    /// no memory.
    ///
    /// # Errors
    ///
    /// The first fault: each client in its turn for `TwiceNamed` and then for `TwiceAddressed`.
    pub fn new(list: Vec<Client>) -> Result<Clients, ClientError>
        ensures kept { IfOk result (λ kept.
            kept ≡ record { list = list.items; stamping = None }) }
        ensures faultless { OnOk result (clients_fault list.items ≡ None) }
        ensures fault { IfErr result (λ fault. clients_fault list.items ≡ Some fault) }
    {
        for i in 0..list.len() {
            if let Some(fault) = fault_behind(&list[..i], &list[i]) {
                return Err(fault);
            }
        }
        Ok(Clients {
            clients: list,
            stamping: None,
        })
    }

    /// The same clients, heard so. It takes no memory.
    pub fn heard_by(self, stamping: Option<Stamping>) -> Clients
        ensures { result ≡ record { list = self.list; stamping = stamping } }
    {
        let Clients {
            clients,
            stamping: _,
        } = self;
        Clients { clients, stamping }
    }

    /// Puts a client at the end, if it has no fault among those before it. It is compared with each
    /// of them.
    ///
    /// # Errors
    ///
    /// The first of `TwiceNamed` and `TwiceAddressed` that holds, and `Memory` only if neither
    /// does. The clients are then as before.
    pub fn push(&mut self, client: Client) -> Result<(), ClientError>
        ensures pushed { OnOk result
            (self.new ≡ record self.old { list = self.old.list ++ client ∷ [] }) }
        ensures faultless { OnOk result (client_fault self.old.list client ≡ None) }
        ensures refused { IfErr result (λ error.
            error ≡ fault_or ClientError.Memory (client_fault self.old.list client)) }
        ensures unchanged { OnErr result (self.new ≡ self.old) }
    {
        if let Some(fault) = fault_behind(&self.clients, &client) {
            return Err(fault);
        }
        if self.clients.push(client).is_err() {
            return Err(ClientError::Memory);
        }
        Ok(())
    }

    /// The clients in the order in which they were given.
    pub fn list(&self) -> &[Client]
        ensures { result.now ≡ self.now.list }
    {
        &self.clients
    }

    /// How the site hears those of them whose logins are stamped, if there are any.
    pub fn stamping(&self) -> Option<&Stamping>
        ensures { option_copied result ≡ self.now.stamping }
    {
        self.stamping.as_ref()
    }

    /// The client of this name. It goes through the clients once.
    pub fn named(&self, name: &str) -> Option<&Client>
        ensures { option_copied result ≡ client_named name.now self.now.list }
    {
        for client in &self.clients {
            if client.name.as_str() == name {
                return Some(client);
            }
        }
        None
    }

    /// The client that sends from this address. It goes through the clients once.
    pub(crate) fn at(&self, address: [u8; 4]) -> Option<&Client>
        ensures { option_copied result ≡ client_at address self.now.list }
    {
        for client in &self.clients {
            if client.address == address {
                return Some(client);
            }
        }
        None
    }
}

// What is wrong with a client that comes after earlier ones.
fn fault_behind(earlier: &[Client], client: &Client) -> Option<ClientError>
    ensures { result ≡ client_fault earlier.now client.now }
{
    if is_named(earlier, client) {
        return Some(ClientError::TwiceNamed);
    }
    if is_addressed(earlier, client) {
        return Some(ClientError::TwiceAddressed);
    }
    None
}

fn is_named(earlier: &[Client], client: &Client) -> bool
    ensures { result ≡ list_any (has_name client.now.name) earlier.now }
{
    earlier.iter().any(|other| other.name == client.name)
}

fn is_addressed(earlier: &[Client], client: &Client) -> bool
    ensures { result ≡ list_any (has_address client.now.address) earlier.now }
{
    earlier.iter().any(|other| other.address == client.address)
}
