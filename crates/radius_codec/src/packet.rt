//! Packets as they stand in a datagram.
ghost use Rattle.std.specs.Prelude.{◌≡◌, ℕ, List, IfOk, IfErr};
ghost use Rattle.radius_codec.specs.Packet.{Framed, IsFault};

use crate::attributes::Attributes;
use crate::front::Front;
use thiserror::Error;

/// A packet (RFC 2866, section 3), whose attributes lie in the datagram that it was read from.
#[derive(Drop)]
pub struct Packet<'a> {
    /// What the packet is, as `codes` names it: an Accounting-Request, an Accounting-Response or
    /// another.
    pub code: u8,
    /// The identifier, which a response takes from its request.
    pub id: u8,
    /// The Request Authenticator or the Response Authenticator.
    pub authenticator: [u8; 16],
    /// The attributes in their order.
    pub attributes: Attributes<'a>,
}

/// Why octets are no packet. The first that holds is given.
#[derive(Clone, Copy, PartialEq, Eq, Debug, Error)]
pub enum CodecError {
    /// The datagram ends before the twenty octets that every packet has (RFC 2866, section 3).
    #[error("a packet has 20 octets at least")]
    TooShort = 1,
    /// The Length field is below 20, above 4,096 or above the octets of the datagram (RFC 2866,
    /// section 3).
    #[error("the Length field is below 20, above 4096 or above the datagram's octets")]
    BadLength = 2,
    /// An attribute's Length is below 2 or runs past the packet's end (RFC 2866, section 5).
    #[error("an attribute's Length is below 2 or runs past the end of the packet")]
    BadAttribute = 3,
}

/// The packet at the front of a datagram (RFC 2866, section 3). Any code is read, and the
/// authenticator is not tested.
///
/// # Errors
///
/// `TooShort`, `BadLength` and `BadAttribute`, the first that holds.
pub fn read(bytes: &[u8]) -> Result<Packet<'_>, CodecError>
    ensures packet { IfOk result (λ packet.
        Framed bytes.now packet.code packet.id packet.authenticator packet.attributes) }
    // No other list of attributes is spelled there.
    ensures only { IfOk result (λ packet.
        (code identifier : ℕ) (authenticator : List ℕ) (attributes : List (ℕ × List ℕ)) →
        Framed bytes.now code identifier authenticator attributes →
        attributes ≡ packet.attributes) }
    ensures fault { IfErr result (IsFault bytes.now) }
{
    match Front::of(bytes)?.packet() {
        Some(packet) => Ok(packet),
        None => Err(CodecError::BadAttribute),
    }
}
