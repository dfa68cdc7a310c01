//! The lines of an input.
ghost use Rattle.std.specs.Prelude.{◌≡◌, ◌<◌, length};
ghost use Rattle.std.specs.Iterator.{at_most};
ghost use Rattle.acct_program_feed.specs.Lines.{IsCut, GivesLine};

use memchr::memchr;
use std::marker::Model;

/// The octet that ends a line.
const LINE_END: u8 = b'\n';

/// The lines of octets, each without the octet 10 that ends it. The last one may lack its end.
#[derive(Drop)]
pub struct Lines<'a> {
    rest: &'a [u8],
}

impl<'a> Model for Lines<'a> {
    ghost use Rattle.std.specs.Prelude.{List, ℕ};

    ghost Value = { List ℕ };

    ghost view = { λ lines. lines.rest.now };
}

impl<'a> Lines<'a> {
    /// The lines of these octets.
    pub fn new(octets: &'a [u8]) -> Lines<'a>
        ensures { result ≡ octets.now }
    {
        Lines { rest: octets }
    }
}

impl<'a> Iterator for Lines<'a> {
    type Item = &'a [u8];

    ghost remaining = { λ lines. at_most (length lines) };

    ghost next_gives = { λ before line after. GivesLine before line after };

    fn next(&mut self) -> Option<&'a [u8]> {
        if self.rest.is_empty() {
            return None;
        }
        let (line, rest) = cut_line(self.rest);
        self.rest = rest;
        Some(line)
    }
}

// The first line, and what follows its end.
fn cut_line(octets: &[u8]) -> (&[u8], &[u8])
    ensures cut { IsCut octets.now result.0.now result.1.now }
    ensures shorter { 0 < length octets.now → length result.1.now < length octets.now }
{
    match memchr(LINE_END, octets) {
        Some(end) => (&octets[..end], &octets[end + 1..]),
        None => (octets, &[]),
    }
}
