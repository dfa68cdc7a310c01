//! Numbers in decimal, as texts have them.
ghost use Rattle.std.specs.Prelude.{◌≡◌, ◌≤◌, IfSome};
ghost use Rattle.std.specs.Char.{is_ascii_digit};
ghost use Rattle.std.specs.List.{list_all};
ghost use Rattle.acct_model.specs.Numbers.{number_of as number_in};
ghost use Rattle.acct_model.specs.Numbers.{number_up_to as number_in_bounds};

use std::str::from_utf8;

/// The most digits of a number below 2^64 that does not begin with 0.
pub const MOST_DIGITS: usize = 20;

/// The number that 1 to 20 decimal digits spell, if it isn't above the given one.
pub fn number_up_to(text: &str, most: u64) -> Option<u64>
    ensures number { result ≡ number_in_bounds most text.now }
    ensures bound { IfSome result (λ number. number ≤ most) }
{
    let number = number_of(text.as_bytes(), MOST_DIGITS)?;
    if number <= most { Some(number) } else { None }
}

/// The number that 1 to `most_digits` decimal digits spell, if it is below 2^64.
pub fn number_of(text: &[u8], most_digits: usize) -> Option<u64>
    ensures { result ≡ number_in most_digits text.now }
{
    if text.len() > most_digits || !are_digits(text) {
        return None;
    }
    match from_utf8(text) {
        Ok(digits) => digits.parse::<u64>().ok(),
        Err(_) => None,
    }
}

fn are_digits(octets: &[u8]) -> bool
    ensures { result ≡ list_all is_ascii_digit octets.now }
{
    octets.iter().all(|octet| octet.is_ascii_digit())
}
