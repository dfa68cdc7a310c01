//! Digests under keys of up to a block, as RFC 2202 has them in section 2.
use radius_codec::hmac_md5;

// A key, a message and its digest.
static DIGESTS: [(&[u8], &[u8], [u8; 16]); 5] = [
    (
        &[0x0b; 16],
        b"Hi There",
        *b"\x92\x94\x72\x7a\x36\x38\xbb\x1c\x13\xf4\x8e\xf8\x15\x8b\xfc\x9d",
    ),
    (
        b"Jefe",
        b"what do ya want for nothing?",
        *b"\x75\x0c\x78\x3e\x6a\xb0\xb5\x03\xea\xa8\x6e\x31\x0a\x5d\xb7\x38",
    ),
    (
        &[0xaa; 16],
        &[0xdd; 50],
        *b"\x56\xbe\x34\x52\x1d\x14\x4c\x88\xdb\xb8\xc7\x33\xf0\xe8\xb3\xf6",
    ),
    (
        b"\x01\x02\x03\x04\x05\x06\x07\x08\x09\x0a\x0b\x0c\x0d\x0e\x0f\x10\x11\x12\x13\x14\x15\x16\x17\x18\x19",
        &[0xcd; 50],
        *b"\x69\x7e\xaf\x0a\xca\x3a\x3a\xea\x3a\x75\x16\x47\x46\xff\xaa\x79",
    ),
    (
        &[0x0c; 16],
        b"Test With Truncation",
        *b"\x56\x46\x1e\xf2\x34\x2e\xdc\x00\xf9\xba\xb9\x95\x69\x0e\xfd\x4c",
    ),
];

#[test]
fn messages_are_digested_in_one_part_and_in_two(rt: HostRuntime) {
    for (key, message, digest) in &DIGESTS {
        assert!(rt; hmac_md5(key, message, b"") == *digest);
        assert!(rt; are_digested_at(key, message, 3) == *digest);
    }
}

fn are_digested_at(key: &[u8], message: &[u8], cut: usize) -> [u8; 16] {
    match (message.get(..cut), message.get(cut..)) {
        (Some(head), Some(rest)) if key.len() <= 64 => hmac_md5(key, head, rest),
        _ => [0; 16],
    }
}
