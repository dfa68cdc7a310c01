//! Responses, and digests over requests and responses.
use crate::samples::{FILL, PADDED_PACKET, START_PACKET, holds};
use foreign_packets::{FOREIGN_PACKETS, SECRET};
use md5::{Digest, Md5};
use radius_codec::{Front, read, request_matches, response_matches, write_request, write_response};

// RFC 1321, section A.5.
const DIGEST_OF_ABC: [u8; 16] = [
    0x90, 0x01, 0x50, 0x98, 0x3c, 0xd2, 0x4f, 0xb0, 0xd6, 0x96, 0x3f, 0x7d, 0x28, 0xe1, 0x7f, 0x72,
];

#[test]
fn digest_of_abc(rt: HostRuntime) {
    assert!(rt; Md5::digest(b"abc".as_slice()) == DIGEST_OF_ABC);
}

#[test]
fn a_start_matches_its_secret(rt: HostRuntime) {
    assert!(rt; matches(&START_PACKET, SECRET));
    assert!(rt; !matches(&START_PACKET, b"another"));
}

// Whether a datagram is signed as a request with a secret.
fn matches(datagram: &[u8], secret: &[u8]) -> bool {
    match Front::of(datagram) {
        Ok(front) => request_matches(&front, secret),
        Err(_) => false,
    }
}

// The response to the Start, with a digest of Python's hashlib.
const START_RESPONSE: [u8; 20] = [
    0x05, 0x07, 0x00, 0x14, 0x70, 0x85, 0xea, 0xed, 0x1f, 0x37, 0x21, 0x38, 0x92, 0xe8, 0x68, 0x15,
    0xce, 0x9d, 0xa4, 0xfd,
];

// Five octets of padding change nothing.
#[test]
fn a_start_is_answered(rt: HostRuntime) {
    assert!(rt; gets(&START_PACKET, &START_RESPONSE) && gets(&PADDED_PACKET, &START_RESPONSE));
}

// Whether a datagram gets this response, and no other octet is written.
fn gets(datagram: &[u8], response: &[u8]) -> bool {
    let Ok(packet) = read(datagram) else {
        return false;
    };
    let mut reply = [FILL; 4096];
    write_response(&packet, SECRET, &mut reply) == response.len()
        && holds(&reply, response, response.len())
}

#[test]
fn foreign_requests_are_answered(rt: HostRuntime) {
    for foreign in &FOREIGN_PACKETS {
        assert!(rt;
            matches_and_gets(foreign.request, foreign.response),
            "{}",
            foreign.client
        );
    }
}

fn matches_and_gets(request: &[u8], response: &[u8]) -> bool {
    matches(request, SECRET) && gets(request, response)
}

// The responses to foreign requests match the authenticators of these, under their secret alone.
#[test]
fn foreign_responses_match(rt: HostRuntime) {
    for foreign in &FOREIGN_PACKETS {
        assert!(rt;
            is_matched(foreign.request, foreign.response),
            "{}",
            foreign.client
        );
    }
}

fn is_matched(request: &[u8], response: &[u8]) -> bool {
    match (read(request), Front::of(response)) {
        (Ok(packet), Ok(front)) => {
            matches_found(&front, packet.authenticator) == (true, false, false)
        }
        _ => false,
    }
}

// Whether a response matches under the secret, under another secret, and with another authenticator
// of its request.
fn matches_found(front: &Front<'_>, authenticator: [u8; 16]) -> (bool, bool, bool) {
    let mut other = authenticator;
    other[15] ^= 1;
    (
        response_matches(front, &authenticator, SECRET),
        response_matches(front, &authenticator, b"xyzzy5462"),
        response_matches(front, &other, SECRET),
    )
}

const LONG: &[u8] = &[0x5a; 253];

// A Start with Proxy-States before and between its other attributes.
const PROXIED: [(u8, &[u8]); 5] = [
    (40, &[0, 0, 0, 1]),
    (33, b"p"),
    (44, b"s1"),
    (33, LONG),
    (1, b"al"),
];

// The front of the response, up to the long value. The digest is that of Python's hashlib.
const PROXIED_FRONT: [u8; 25] = [
    0x05, 0x07, 0x01, 0x16, 0xb1, 0x16, 0x56, 0x1b, 0x8d, 0xad, 0x75, 0x37, 0xe7, 0x33, 0xf5, 0x33,
    0xfa, 0xda, 0x15, 0xf1, 0x21, 0x03, 0x70, 0x21, 0xff,
];

// RFC 2865, section 5.33: Proxy-States come back in order and unmodified, and nothing else does.
#[test]
fn proxy_states_come_back(rt: HostRuntime) {
    assert!(rt; have_come_back());
}

fn have_come_back() -> bool {
    let mut request = [FILL; 4096];
    let Ok(size) = write_request(7, &PROXIED, SECRET, &mut request) else {
        return false;
    };
    let Ok(packet) = read(&request[..size]) else {
        return false;
    };
    let mut reply = [FILL; 4096];
    write_response(&packet, SECRET, &mut reply) == 278
        && &reply[25..278] == LONG
        && holds(&reply, &PROXIED_FRONT, 278)
}
