//! Authenticators: MD5 over a packet and the shared secret.
ghost use Rattle.std.specs.Prelude.{◌≡◌, ◌≤◌, ◌↔◌, IsTrue, length};
ghost use Rattle.radius_codec.specs.Packet.{digest, HasDigest, IsSigned, IsSignedResponse};

use crate::front::Front;
use crate::limits::{AUTHENTICATOR, HEADER};
use md5::{Digest, Md5};

/// Whether a request's authenticator is the digest of the request and the secret (RFC 2866, section
/// 3).
pub fn request_matches(front: &Front<'_>, secret: &[u8]) -> bool
    ensures { IsTrue result ↔ IsSigned front.now secret.now }
{
    has_digest(front.octets(), &[0; AUTHENTICATOR], secret)
}

/// Whether a response's authenticator is the digest of the response, the authenticator of the
/// request that it answers, and the secret (RFC 2866, section 3). Code and identifier are not
/// compared with the request's.
pub fn response_matches(
    front: &Front<'_>,
    request_authenticator: &[u8; AUTHENTICATOR],
    secret: &[u8],
) -> bool
    ensures { IsTrue result ↔
        IsSignedResponse front.now request_authenticator.now secret.now }
{
    has_digest(front.octets(), request_authenticator, secret)
}

// Whether a packet's authenticator is its digest with `place` in the authenticator's place.
fn has_digest(front: &[u8], place: &[u8], secret: &[u8]) -> bool
    requires { 20 ≤ length front.now }
    ensures { IsTrue result ↔ HasDigest front.now place.now secret.now }
{
    let wanted = digest_of(&front[..4], place, &front[HEADER..], secret);
    &front[4..HEADER] == wanted.as_slice()
}

// The digest of a packet's first four octets, the sixteen that stand in the authenticator's place,
// its attributes and the secret.
pub(crate) fn digest_of(head: &[u8], place: &[u8], octets: &[u8], secret: &[u8]) -> [u8; 16]
    ensures { result ≡ digest head.now place.now octets.now secret.now }
{
    let mut hasher = Md5::new();
    hasher.update(head);
    hasher.update(place);
    hasher.update(octets);
    hasher.update(secret);
    hasher.finalize()
}
