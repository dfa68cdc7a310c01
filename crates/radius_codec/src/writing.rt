//! The two steps of every packet that is written: attributes after the first twenty octets, then
//! those twenty.
ghost use Rattle.std.specs.Prelude.{◌≡◌, ◌+◌, ◌-◌, ◌≤◌, ◌++◌, length, take, drop};
ghost use Rattle.radius_codec.specs.Attributes.{spelling};
ghost use Rattle.radius_codec.specs.Packet.{head_octets, digest};

use crate::authenticator::digest_of;
use crate::limits::{ATTRIBUTE_HEADER, HEADER};
use byteorder::{BigEndian, ByteOrder};

// Writes the attribute at a place, and says where it ends.
pub(crate) fn put_attribute(out: &mut [u8; 4096], at: usize, kind: u8, value: &[u8]) -> usize
    requires short { length value.now ≤ 253 }
    requires room { at + length value.now + 2 ≤ 4096 }
    ensures octets { out.new ≡
        take at out.old ++ spelling (kind, value.now) ++ drop result out.old }
    ensures end { result ≡ at + length value.now + 2 }
{
    let start = at + ATTRIBUTE_HEADER;
    let end = start + value.len();
    out[at] = kind;
    out[at + 1] = (value.len() + ATTRIBUTE_HEADER) as u8;
    out[start..end].copy_from_slice(value);
    end
}

// Writes the first twenty octets of the packet that ends at `end`, after which its attributes
// stand. `place` is what the digest covers in the authenticator's place.
pub(crate) fn seal(
    out: &mut [u8; 4096],
    code: u8,
    identifier: u8,
    place: &[u8],
    secret: &[u8],
    end: usize,
)
    requires least { 20 ≤ end }
    requires most { end ≤ 4096 }
    ensures { let octets = take (end - 20) (drop 20 out.old) in
        let head = head_octets code identifier end in
        out.new ≡ head ++ digest head place.now octets secret.now ++ drop 20 out.old }
{
    let mut head = [code, identifier, 0, 0];
    BigEndian::write_u16(&mut head[2..], end as u16);
    let authenticator = digest_of(&head, place, &out[HEADER..end], secret);
    out[..4].copy_from_slice(&head);
    out[4..HEADER].copy_from_slice(&authenticator);
}
