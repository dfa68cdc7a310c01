//! IPv4 addresses as text: four numbers separated by dots.
ghost use Rattle.std.specs.Prelude.{◌≡◌, ℕ, List, IfOk, MatchOption, string_bytes};
ghost use Rattle.std.specs.Net.Grammar.{IsDotted};
ghost use Rattle.acct_model.specs.Shown.{shown_address};

use crate::shown::NoMemory;
use std::alloc::Global;
use std::net::Ipv4Addr;

/// An address as text: its four numbers separated by dots, and no text for none.
///
/// # Errors
///
/// `NoMemory` if the text cannot be grown.
pub fn show_address(alloc: Global, address: Option<[u8; 4]>) -> Result<String, NoMemory>
    ensures { IfOk result (λ text. string_bytes text ≡ shown_address address) }
{
    let Some(octets) = address else {
        return Ok(String::new(alloc));
    };
    match Ipv4Addr::from_octets(octets).to_string(alloc) {
        Ok(text) => Ok(text),
        Err(_) => Err(NoMemory),
    }
}

/// The address that a text spells as four numbers of 0 to 255 without leading zeros, separated by
/// dots; none if it spells none.
pub fn address_of(text: &str) -> Option<[u8; 4]>
    ensures { MatchOption result
        ((octets : List ℕ) → IsDotted text.now octets → ⊥)
        (IsDotted text.now) }
{
    match text.parse::<Ipv4Addr>() {
        Ok(address) => Some(address.octets()),
        Err(_) => None,
    }
}
