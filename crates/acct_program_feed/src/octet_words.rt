//! Octets as words of a line: in hexadecimal digits, or shown as `acct_model::show` shows them. `-`
//! means none.
ghost use Rattle.std.specs.Prelude.{◌≡◌, None, Some, IfOk, IfErr};
ghost use Rattle.hex.specs.Hex.{encode_lower};
ghost use Rattle.acct_program_feed.specs.Octets.{octets_in_hex, octets_shown as octets_in};
ghost use Rattle.acct_program_feed.specs.Octets.{shown_word};
ghost use Rattle.acct_program_feed.specs.declared.line_fault.LineFault.TheVariants.{Bad as bad};

use crate::line_fault::LineFault;
use acct_model::{NoMemory, Octets, Text, show, unshow};
use hex::FromHexError;
use std::alloc::{AllocError, Global};

/// The word for no octets.
const NONE: &str = "-";

/// The octets that a word spells: two hexadecimal digits of either case for each, and `-` for none.
///
/// # Errors
///
/// `Bad` for every other word, also the empty one; `NoMemory` if the octets cannot be kept.
pub fn octets_of(alloc: Global, word: &str) -> Result<Octets, LineFault>
    ensures octets { IfOk result (λ octets. octets_in_hex word.now ≡ Some octets) }
    ensures refused { IfErr result (λ fault. fault ≡ bad → octets_in_hex word.now ≡ None) }
{
    if word.is_empty() {
        return Err(LineFault::Bad);
    }
    if word == NONE {
        let octets = Vec::new(alloc);
        return Ok(Octets { octets });
    }
    match hex::decode(alloc, word) {
        Ok(octets) => Ok(Octets { octets }),
        Err(FromHexError::OutOfMemory) => Err(LineFault::NoMemory),
        Err(_) => Err(LineFault::Bad),
    }
}

/// The octets as hexadecimal digits in lower case, two for each.
///
/// # Errors
///
/// Only if an allocation fails.
pub fn hex_of(alloc: Global, octets: &[u8]) -> Result<Text, AllocError>
    ensures { IfOk result (λ digits. digits ≡ encode_lower octets.now) }
{
    let text = hex::encode(alloc, octets)?;
    Ok(Text { text })
}

/// The octets of the account or session id that a word shows.
///
/// # Errors
///
/// `Bad` for the empty word; `NoMemory` if the octets cannot be kept.
pub fn octets_shown(alloc: Global, word: &str) -> Result<Octets, LineFault>
    ensures octets { IfOk result (λ octets. octets_in word.now ≡ Some octets) }
    ensures refused { IfErr result (λ fault. fault ≡ bad → octets_in word.now ≡ None) }
{
    if word.is_empty() {
        return Err(LineFault::Bad);
    }
    if word == NONE {
        let octets = Vec::new(alloc);
        return Ok(Octets { octets });
    }
    let octets = unshow(alloc, word)?;
    Ok(Octets { octets })
}

/// The word that shows an account, a session id or a Class.
///
/// # Errors
///
/// Only if an allocation fails.
pub fn word_of(alloc: Global, octets: &[u8]) -> Result<Text, NoMemory>
    ensures { IfOk result (λ word. word ≡ shown_word octets.now) }
{
    if octets.is_empty() {
        return match Text::from_str(alloc, NONE) {
            Ok(word) => Ok(word),
            Err(_) => Err(NoMemory),
        };
    }
    let text = show(alloc, octets)?;
    Ok(Text { text })
}
