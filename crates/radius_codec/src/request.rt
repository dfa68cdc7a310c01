//! Accounting-Requests written into an array.
ghost use Rattle.std.specs.Prelude.{◌≡◌, ◌+◌, ◌<◌, ◌≤◌, ◌++◌, length, take, drop, List, ℕ};
ghost use Rattle.std.specs.Prelude.{IfOk, OnErr, OnSome, IfSome, IfNone};
ghost use Rattle.radius_codec.specs.Attributes.{spellings, Fits, pairs};
ghost use Rattle.radius_codec.specs.Packet.{request_octets, IsSigned, IsRequestOf};

use crate::codes::ACCOUNTING_REQUEST;
use crate::limits::{ATTRIBUTE_HEADER, AUTHENTICATOR, HEADER, LONGEST_VALUE, MOST_ATTRIBUTES};
use crate::writing::{put_attribute, seal};
use thiserror::Error;

/// The attributes do not fit into a packet: a value has more than 253 octets, or all attributes
/// together take more than 4,076 (RFC 2865, sections 3 and 5).
#[derive(Clone, Copy, PartialEq, Eq, Debug, Error)]
#[error("the attributes take more octets than a packet has room for")]
pub struct TooLong;

/// Writes the Accounting-Request of these attributes, each a type and a value, signs it with the
/// secret (RFC 2866, section 3), and gives its size in octets. Octets of `out` past it stay as they
/// were.
///
/// # Errors
///
/// `TooLong` where the attributes do not fit; `out` is then unchanged.
pub fn write_request(
    identifier: u8,
    attributes: &[(u8, &[u8])],
    secret: &[u8],
    out: &mut [u8; 4096],
) -> Result<usize, TooLong>
    ensures written { IfOk result (λ size.
        out.new ≡ request_octets identifier (spellings (pairs attributes.now)) secret.now
        ++ drop size out.old) }
    ensures size { IfOk result (λ size. size ≡ 20 + length (spellings (pairs attributes.now))) }
    ensures most { IfOk result (λ size. size ≤ 4096) }
    ensures signed { IfOk result (λ size. IsSigned (take size out.new) secret.now) }
    // It is read as these attributes, whatever octets follow.
    ensures read { IfOk result (λ size. (after : List ℕ) →
        IsRequestOf (take size out.new ++ after) identifier (pairs attributes.now)) }

    ensures too_long { OnErr result (Fits (pairs attributes.now) → ⊥) }
    ensures err { OnErr result (out.new ≡ out.old) }
{
    if octets_needed(attributes).is_none() {
        return Err(TooLong);
    }
    let end = put_attributes(out, attributes);
    seal(
        out,
        ACCOUNTING_REQUEST,
        identifier,
        &[0; AUTHENTICATOR],
        secret,
        end,
    );
    Ok(end)
}

/// Writes the Accounting-Request whose attributes stand spelled in `octets`, which are taken as
/// they are, signs it with the secret (RFC 2866, section 3), and gives its size in octets. Octets
/// of `out` past it stay as they were.
///
/// # Errors
///
/// `TooLong` for more than 4,076 octets; `out` is then unchanged.
pub fn sign_request(
    identifier: u8,
    octets: &[u8],
    secret: &[u8],
    out: &mut [u8; 4096],
) -> Result<usize, TooLong>
    ensures written { IfOk result (λ size.
        out.new ≡ request_octets identifier octets.now secret.now ++ drop size out.old) }
    ensures size { IfOk result (λ size. size ≡ 20 + length octets.now) }
    ensures most { IfOk result (λ size. size ≤ 4096) }
    ensures signed { IfOk result (λ size. IsSigned (take size out.new) secret.now) }

    ensures too_long { OnErr result (4076 < length octets.now) }
    ensures err { OnErr result (out.new ≡ out.old) }
{
    if octets.len() > MOST_ATTRIBUTES {
        return Err(TooLong);
    }
    let end = HEADER + octets.len();
    out[HEADER..end].copy_from_slice(octets);
    seal(
        out,
        ACCOUNTING_REQUEST,
        identifier,
        &[0; AUTHENTICATOR],
        secret,
        end,
    );
    Ok(end)
}

// How many octets the attributes take, if they fit into a packet.
fn octets_needed(attributes: &[(u8, &[u8])]) -> Option<usize>
    ensures fits { OnSome result (Fits (pairs attributes.now)) }
    ensures size { IfSome result (λ size. size ≡ length (spellings (pairs attributes.now))) }
    ensures none { IfNone result (Fits (pairs attributes.now) → ⊥) }
{
    let mut size = 0;
    for (_, value) in attributes {
        if value.len() > LONGEST_VALUE {
            return None;
        }
        size += value.len() + ATTRIBUTE_HEADER;
        if size > MOST_ATTRIBUTES {
            return None;
        }
    }
    Some(size)
}

// Writes attributes after the first twenty octets, and says where they end.
fn put_attributes(out: &mut [u8; 4096], attributes: &[(u8, &[u8])]) -> usize
    requires { Fits (pairs attributes.now) }
    ensures octets { out.new ≡
        take 20 out.old ++ spellings (pairs attributes.now) ++ drop result out.old }
    ensures end { result ≡ 20 + length (spellings (pairs attributes.now)) }
{
    let mut end = HEADER;
    for (kind, value) in attributes {
        end = put_attribute(out, end, *kind, value);
    }
    end
}
