//! Requests that are written from attributes, and signed.
use crate::samples::{FILL, START, START_PACKET, START_VALUES, holds};
use foreign_packets::SECRET;
use radius_codec::{TooLong, sign_request, write_request};

// The longest attribute, with a value of 253 octets.
const LONGEST: (u8, &[u8]) = (1, &[0; 253]);

// Attributes, and what comes of writing them: the size, and the octets at the front of the array.
// 4,076 octets are the most of all attributes together: fifteen attributes of 255 octets, and one
// of 251.
static WRITTEN: [(&[(u8, &[u8])], Result<usize, TooLong>, &[u8]); 5] = [
    (&START_VALUES, Ok(34), &START_PACKET),
    (
        &[
            LONGEST,
            LONGEST,
            LONGEST,
            LONGEST,
            LONGEST,
            LONGEST,
            LONGEST,
            LONGEST,
            LONGEST,
            LONGEST,
            LONGEST,
            LONGEST,
            LONGEST,
            LONGEST,
            LONGEST,
            (1, &[0; 249]),
        ],
        Ok(4096),
        &[4, 7, 0x10, 0],
    ),
    (
        &[
            LONGEST,
            LONGEST,
            LONGEST,
            LONGEST,
            LONGEST,
            LONGEST,
            LONGEST,
            LONGEST,
            LONGEST,
            LONGEST,
            LONGEST,
            LONGEST,
            LONGEST,
            LONGEST,
            LONGEST,
            (1, &[0; 250]),
        ],
        Err(TooLong),
        &[],
    ),
    (
        &[
            LONGEST,
            LONGEST,
            LONGEST,
            LONGEST,
            LONGEST,
            LONGEST,
            LONGEST,
            LONGEST,
            LONGEST,
            LONGEST,
            LONGEST,
            LONGEST,
            LONGEST,
            LONGEST,
            LONGEST,
            (1, &[0; 254]),
        ],
        Err(TooLong),
        &[],
    ),
    (&[(1, &[0; 254])], Err(TooLong), &[]),
];

// Attribute octets, and what comes of signing them.
static SIGNED: [(&[u8], Result<usize, TooLong>, &[u8]); 4] = [
    (&START, Ok(34), &START_PACKET),
    (&[0x28, 2], Ok(22), &[4, 7, 0, 22]),
    (&[2; 4077], Err(TooLong), &[]),
    (&[2; 4076], Ok(4096), &[4, 7, 0x10, 0]),
];

#[test]
fn requests_are_written(rt: HostRuntime) {
    for (attributes, size, front) in &WRITTEN {
        assert!(rt; comes_of_writing(attributes, *size, front));
    }
}

// Whether these attributes come to this size or fault, and to these first octets.
fn comes_of_writing(
    attributes: &[(u8, &[u8])],
    size: Result<usize, TooLong>,
    front: &[u8],
) -> bool {
    let mut out = [FILL; 4096];
    let written = write_request(7, attributes, SECRET, &mut out);
    written == size && holds(&out, front, size.unwrap_or(0))
}

#[test]
fn requests_are_signed(rt: HostRuntime) {
    for (octets, size, front) in &SIGNED {
        assert!(rt; comes_of_signing(octets, *size, front));
    }
}

// Whether these attribute octets come to this size or fault, and to these first octets.
fn comes_of_signing(octets: &[u8], size: Result<usize, TooLong>, front: &[u8]) -> bool {
    let mut out = [FILL; 4096];
    let signed = sign_request(7, octets, SECRET, &mut out);
    signed == size && holds(&out, front, size.unwrap_or(0))
}
