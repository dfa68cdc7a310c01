//! Octets as text without `;`, `/` and spaces, and read again.
ghost use Rattle.std.specs.Prelude.{◌≡◌, string_bytes, IfOk};
ghost use Rattle.percent_encoding.specs.Percent.{percent_decode};
ghost use Rattle.acct_model.specs.Coded.{coded};

use crate::octets::Octets;
use percent_encoding::{AsciiSet, NON_ALPHANUMERIC, ascii_set, percent_decode, percent_encode};
use std::alloc::{AllocError, Global};

const NOT_PLAIN: AsciiSet = ascii_set!(NON_ALPHANUMERIC.remove(b'.').remove(b'_').remove(b'-'));

/// The octets as text: letters and digits of ASCII, `.`, `_` and `-` as themselves, every other
/// octet as `%` and two upper-case hexadecimal digits.
///
/// # Errors
///
/// Only if an allocation fails.
pub fn coded_text(alloc: Global, octets: &[u8]) -> Result<String, AllocError>
    ensures { IfOk result (λ text. string_bytes text ≡ coded octets.now) }
{
    let mut text = String::new(alloc);
    percent_encode(octets, NOT_PLAIN).append_to(&mut text)?;
    Ok(text)
}

// The octets that coded octets say.
pub(crate) fn uncoded(alloc: Global, octets: &[u8]) -> Result<Octets, AllocError>
    ensures { IfOk result (λ plain. plain ≡ percent_decode octets.now) }
{
    let mut plain = Vec::new(alloc);
    percent_decode(octets).append_to(&mut plain)?;
    Ok(Octets { octets: plain })
}
