//! The client `ap1`.
ghost use Rattle.std.specs.Prelude.{◌≡◌, IfOk};
ghost use Rattle.acct_site.specs.SampleSite.{sample_clients};

use acct_model::{Octets, Text};
use acct_wire::{Client, Clients};
use std::alloc::{AllocError, Global};

/// The client `ap1` at 10.0.0.1, with its secret.
///
/// # Errors
///
/// Only if an allocation fails.
pub fn sample_clients(alloc: Global) -> Result<Clients, AllocError>
    ensures { IfOk result (λ clients. clients ≡ sample_clients) }
{
    let mut list = Vec::new(alloc);
    list.push(Client {
        name: Text::from_str(alloc, "ap1")?,
        address: [10, 0, 0, 1],
        secret: Octets::from_slice(alloc, b"xyzzy5461")?,
    })?;
    match Clients::new(list) {
        Ok(clients) => Ok(clients),
        Err(_) => unreachable!(),
    }
}
