//! The attributes of a packet.
ghost use Rattle.std.specs.Prelude.{◌≡◌, ℕ, ◌≤◌, ◌++◌, length, ◌↔◌, List, IsTrue, IfSome, IfNone};
ghost use Rattle.std.specs.Option.{option_map};
ghost use Rattle.radius_codec.specs.Attributes.{spelling, IsShort, Spells, Fits, word, value_of};

use crate::limits::{ATTRIBUTE_HEADER, WORD};
use byteorder::{BigEndian, ByteOrder};
use std::marker::Model;

/// The attributes of a packet in their order (RFC 2865, section 5), borrowed from the datagram: at
/// most 4,076 octets, every one of them part of an attribute. Only `read` makes one.
#[derive(Drop)]
pub struct Attributes<'a> {
    octets: &'a [u8],
}

impl<'a> Model for Attributes<'a> {
    ghost use Rattle.std.specs.Prelude.{ℕ, List};

    ghost Value = { List (ℕ × List ℕ) };

    ghost use Rattle.radius_codec.specs.Attributes.{attributes_in, AreAttributes};

    ghost view = { λ a. attributes_in a.octets.now };

    ghost invariant = { λ a. AreAttributes a.octets.now };
}

/// The attributes that are left of a walk, in their order: each a type and a value.
#[derive(Drop)]
pub struct AttributeIter<'a> {
    rest: Attributes<'a>,
}

impl<'a> Model for AttributeIter<'a> {
    ghost use Rattle.std.specs.Prelude.{ℕ, List};

    ghost Value = { List (ℕ × List ℕ) };

    ghost view = { λ it. it.rest };
}

impl<'a> Attributes<'a> {
    /// The value of the first attribute of a type, in octets; none where no attribute has the type.
    pub fn first(&self, kind: u8) -> Option<&'a [u8]>
        ensures { option_map (λ value. value.now) result ≡ value_of kind self.now }
    {
        for (found, value) in self.iter() {
            if found == kind {
                return Some(value);
            }
        }
        None
    }

    /// The attributes in their order, each a type and a value, borrowed from the datagram.
    pub fn iter(&self) -> AttributeIter<'a>
        ensures all { result ≡ self.now }
        ensures fits { Fits self.now }
    {
        AttributeIter {
            rest: Attributes {
                octets: self.octets,
            },
        }
    }

    // The attributes that the octets spell, if they spell any list.
    pub(crate) fn of_octets(octets: &'a [u8]) -> Option<Attributes<'a>>
        requires { length octets.now ≤ 4076 }
        ensures some { IfSome result (Spells octets.now) }
        ensures none { IfNone result
            ((attributes : List (ℕ × List ℕ)) → Spells octets.now attributes → ⊥) }
    {
        if are_attributes(octets) {
            Some(Attributes { octets })
        } else {
            None
        }
    }
}

impl<'a> Iterator for AttributeIter<'a> {
    ghost use Rattle.std.specs.Iterator.{YieldsFirstBy, item_count};

    type Item = (u8, &'a [u8]);

    ghost next_gives = { YieldsFirstBy (λ item. (item.0, item.1.now)) (λ it. it) };

    ghost remaining = { item_count (λ it. it) };

    fn next(&mut self) -> Option<(u8, &'a [u8])> {
        let Some((kind, value, after)) = split_attribute(self.rest.octets) else {
            return None;
        };
        self.rest = Attributes { octets: after };
        Some((kind, value))
    }
}

/// The number that a value of four octets spells, high octet first (RFC 2865, section 5); none for
/// a value of any other size.
pub fn word_of(value: &[u8]) -> Option<u32>
    ensures { result ≡ word value.now }
{
    if value.len() == WORD {
        Some(BigEndian::read_u32(value))
    } else {
        None
    }
}

// Whether the octets are a list of attributes and nothing else.
fn are_attributes(octets: &[u8]) -> bool
    ensures { IsTrue result ↔ ((attributes : List (ℕ × List ℕ)) × Spells octets.now attributes) }
{
    let mut rest = octets;
    while !rest.is_empty() {
        match split_attribute(rest) {
            Some((_, _, after)) => rest = after,
            None => return false,
        }
    }
    true
}

// The attribute at the front, as type and value, and the octets after it.
fn split_attribute(octets: &[u8]) -> Option<(u8, &[u8], &[u8])>
    ensures found { IfSome result (λ s. octets.now ≡ spelling (s.0, s.1.now) ++ s.2.now) }
    ensures short { IfSome result (λ s. IsShort (s.0, s.1.now)) }
    ensures none { IfNone result
        ((attribute : ℕ × List ℕ) (rest : List ℕ) →
        octets.now ≡ spelling attribute ++ rest → ⊥) }
{
    if octets.len() < ATTRIBUTE_HEADER {
        return None;
    }
    let size = octets[1] as usize;
    if size < ATTRIBUTE_HEADER || octets.len() < size {
        return None;
    }
    Some((octets[0], &octets[ATTRIBUTE_HEADER..size], &octets[size..]))
}
