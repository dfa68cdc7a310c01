//! Octets shown as text, and read again.
ghost use Rattle.std.specs.Prelude.{◌≡◌, string_bytes, IfOk};
ghost use Rattle.percent_encoding.specs.Percent.{percent_decode as decoded};
ghost use Rattle.acct_model.specs.Shown.{shown};

use percent_encoding::{AsciiSet, CONTROLS, ascii_set, percent_decode, percent_encode};
use std::alloc::Global;
use thiserror::Error;

/// Out of memory.
#[derive(Clone, Copy, PartialEq, Eq, Debug, Error)]
#[error("out of memory")]
pub struct NoMemory;

const ESCAPED: AsciiSet = ascii_set!(CONTROLS.add(b'%'));

/// The octets as text: octets 0 to 31, 127, `%` and all past ASCII as `%` and two upper-case
/// hexadecimal digits, every other octet as itself.
///
/// # Errors
///
/// `NoMemory` if the text cannot be grown.
pub fn show(alloc: Global, octets: &[u8]) -> Result<String, NoMemory>
    ensures { IfOk result (λ text. string_bytes text ≡ shown octets.now) }
{
    let mut text = String::new(alloc);
    match percent_encode(octets, ESCAPED).append_to(&mut text) {
        Ok(()) => Ok(text),
        Err(_) => Err(NoMemory),
    }
}

/// The octets that a text shows: each `%` with two hexadecimal digits is the octet that these
/// spell, all else is itself.
///
/// # Errors
///
/// `NoMemory` if the octets cannot be grown.
pub fn unshow(alloc: Global, text: &str) -> Result<Vec<u8>, NoMemory>
    ensures { IfOk result (λ octets. octets.items ≡ decoded text.now) }
{
    let mut octets = Vec::new(alloc);
    match percent_decode(text.as_bytes()).append_to(&mut octets) {
        Ok(()) => Ok(octets),
        Err(_) => Err(NoMemory),
    }
}
