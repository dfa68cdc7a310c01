//! HMAC with MD5: the digest of a message that only who has the key can make.
ghost use Rattle.std.specs.Prelude.{◌≡◌, ◌≤◌, ◌++◌, ◌-◌, length, replicate};
ghost use Rattle.md5.specs.Md5.{Holds};
ghost use Rattle.radius_codec.specs.Hmac.{key_block, hmac};

use md5::{Digest, Md5};

/// The octets of a block, to which a key is filled up (RFC 1321, section 3.4).
const BLOCK: usize = 64;
/// What the inner and the outer digest add to the key (RFC 2104, section 2).
const INNER_PAD: u8 = 0x36;

const OUTER_PAD: u8 = 0x5c;

/// The digest under a key of a message that stands in two parts (RFC 2104, section 2).
pub fn hmac_md5(key: &[u8], head: &[u8], rest: &[u8]) -> [u8; 16]
    requires { length key.now ≤ 64 }
    ensures { result ≡ hmac key.now (head.now ++ rest.now) }
{
    let mut inner = begun(key, INNER_PAD);
    inner.update(head);
    inner.update(rest);
    let digest = inner.finalize();
    let mut outer = begun(key, OUTER_PAD);
    outer.update(&digest);
    outer.finalize()
}

// A hasher of the key's block.
fn begun(key: &[u8], pad: u8) -> Md5
    requires { length key.now ≤ 64 }
    ensures { Holds result (key_block key.now pad) }
{
    let mut hasher = Md5::new();
    for octet in &filled(key) {
        hasher.update(&[*octet ^ pad]);
    }
    hasher
}

// The key with zeros behind it.
fn filled(key: &[u8]) -> [u8; BLOCK]
    requires { length key.now ≤ 64 }
    ensures { result ≡ key.now ++ replicate (64 - length key.now) 0 }
{
    let mut block = [0; BLOCK];
    block[..key.len()].copy_from_slice(key);
    block
}
