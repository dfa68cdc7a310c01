//! A request whose octets come from outside, and arrays that show what was written.

/// The attributes of a Start of session `s1` by user `al`.
pub(crate) const START: [u8; 14] = [0x28, 6, 0, 0, 0, 1, 0x2c, 4, b's', b'1', 1, 4, b'a', b'l'];

/// The same as types and values.
pub(crate) const START_VALUES: [(u8, &[u8]); 3] = [(40, &[0, 0, 0, 1]), (44, b"s1"), (1, b"al")];

/// The Start under the identifier 7. The digest is that of Python's hashlib over the same octets.
pub(crate) const START_PACKET: [u8; 34] = [
    0x04, 0x07, 0x00, 0x22, 0xa0, 0x21, 0x9d, 0xa7, 0x81, 0xbf, 0x21, 0x71, 0x05, 0xbb, 0xdd, 0x1d,
    0x2b, 0x3a, 0x0e, 0x94, 0x28, 0x06, 0x00, 0x00, 0x00, 0x01, 0x2c, 0x04, 0x73, 0x31, 0x01, 0x04,
    0x61, 0x6c,
];

/// The Start's packet, and five octets of padding after it.
pub(crate) const PADDED_PACKET: [u8; 39] = [
    0x04, 0x07, 0x00, 0x22, 0xa0, 0x21, 0x9d, 0xa7, 0x81, 0xbf, 0x21, 0x71, 0x05, 0xbb, 0xdd, 0x1d,
    0x2b, 0x3a, 0x0e, 0x94, 0x28, 0x06, 0x00, 0x00, 0x00, 0x01, 0x2c, 0x04, 0x73, 0x31, 0x01, 0x04,
    0x61, 0x6c, FILL, FILL, FILL, FILL, FILL,
];

/// What the arrays are filled with, to see which octets are written.
pub(crate) const FILL: u8 = 0xee;

/// Whether no octet of these was written.
pub(crate) fn are_filled(octets: &[u8]) -> bool {
    for octet in octets {
        if *octet != FILL {
            return false;
        }
    }
    true
}

/// Whether an array has these octets at its front, and was written no further than to this end.
pub(crate) fn holds(out: &[u8; 4096], front: &[u8], end: usize) -> bool {
    match (out.get(..front.len()), out.get(end..)) {
        (Some(octets), Some(rest)) => octets == front && are_filled(rest),
        _ => false,
    }
}
