//! The front of a datagram: the octets that its Length field counts.
ghost use Rattle.std.specs.Prelude.{◌≡◌, ℕ, List, IfOk, IfErr, OnOk, IfSome, IfNone};
ghost use Rattle.std.specs.Prelude.{◌≤◌, length, slice_index, drop};
ghost use Rattle.radius_codec.specs.Attributes.{Spells};
ghost use Rattle.radius_codec.specs.Packet.{HasFront, front_of, Framed, IsFrontFault};

use crate::attributes::Attributes;
use crate::limits::{AUTHENTICATOR, HEADER, LONGEST_PACKET};
use crate::packet::{CodecError, Packet};
use byteorder::{BigEndian, ByteOrder};
use std::marker::Model;

/// The octets of a packet, as many as its Length field counts (RFC 2866, section 3), borrowed from
/// the datagram that begins with them. Contracts see it as these octets. Only `of` makes one.
#[derive(Drop)]
pub struct Front<'a> {
    octets: &'a [u8],
}

impl<'a> Model for Front<'a> {
    ghost use Rattle.std.specs.Prelude.{ℕ, List};
    ghost use Rattle.radius_codec.specs.Packet.{IsFront};

    ghost Value = { List ℕ };

    ghost view = { λ f. f.octets.now };

    ghost invariant = { λ f. IsFront f.octets.now };
}

impl<'a> Front<'a> {
    /// The octets of a datagram that its Length field counts, without the padding after them (RFC
    /// 2866, section 3). The attributes are not looked at.
    ///
    /// # Errors
    ///
    /// `TooShort` and `BadLength`, the first that holds.
    pub fn of(bytes: &'a [u8]) -> Result<Front<'a>, CodecError>
        ensures found { OnOk result (HasFront bytes.now) }
        ensures octets { IfOk result (λ front. front ≡ front_of bytes.now) }
        ensures fault { IfErr result (IsFrontFault bytes.now) }
    {
        if bytes.len() < HEADER {
            return Err(CodecError::TooShort);
        }
        let size = BigEndian::read_u16(&bytes[2..4]) as usize;
        if size < HEADER || size > LONGEST_PACKET || size > bytes.len() {
            return Err(CodecError::BadLength);
        }
        Ok(Front {
            octets: &bytes[..size],
        })
    }

    /// Its octets, 20 at least.
    pub fn octets(&self) -> &'a [u8]
        ensures all { result.now ≡ self.now }
        ensures least { 20 ≤ length result.now }
    {
        self.octets
    }

    /// What the packet is, as `codes` names it.
    pub fn code(&self) -> u8
        ensures { result ≡ slice_index self.now 0 }
    {
        self.octets[0]
    }

    /// The packet that these octets are: none where an attribute's Length is below 2 or runs past
    /// their end (RFC 2866, section 5). Any code is read, and the authenticator is not tested.
    pub fn packet(&self) -> Option<Packet<'a>>
        ensures packet { IfSome result (λ packet. Framed self.now packet.code packet.id
            packet.authenticator packet.attributes) }
        ensures none { IfNone result ((attributes : List (ℕ × List ℕ)) →
            Spells (drop 20 self.now) attributes → ⊥) }
    {
        let attributes = Attributes::of_octets(&self.octets[HEADER..])?;
        let mut authenticator = [0; AUTHENTICATOR];
        authenticator.copy_from_slice(&self.octets[4..HEADER]);
        Some(Packet {
            code: self.octets[0],
            id: self.octets[1],
            authenticator,
            attributes,
        })
    }
}
