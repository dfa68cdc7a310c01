//! Datagrams that are read.
use crate::samples::{FILL, PADDED_PACKET, START_PACKET};
use foreign_packets::SECRET;
use radius_codec::{CodecError, Front, read, sign_request, word_of};

// RFC 2865, section 5: a number has four octets, the high one first.
static NUMBERS: [(&[u8], Option<u32>); 6] = [
    (&[1, 2, 3, 4], Some(0x0102_0304)),
    (&[0, 0, 0, 8], Some(8)),
    (&[64, 0, 0, 0], Some(0x4000_0000)),
    (&[255; 4], Some(u32::MAX)),
    (&[0; 3], None),
    (&[0; 5], None),
];

#[test]
fn numbers_have_four_octets(rt: HostRuntime) {
    for (octets, number) in &NUMBERS {
        assert!(rt; word_of(octets) == *number);
    }
}

// Five octets of padding change nothing.
#[test]
fn a_start_is_read(rt: HostRuntime) {
    assert!(rt; is_start(&START_PACKET) && is_start(&PADDED_PACKET));
}

fn is_start(datagram: &[u8]) -> bool {
    let Ok(packet) = read(datagram) else {
        return false;
    };
    let status = match packet.attributes.first(40) {
        Some(value) => word_of(value),
        None => None,
    };
    (packet.code, packet.id, status) == (4, 7, Some(1))
        && packet.attributes.first(44) == Some(b"s1".as_slice())
        && packet.attributes.first(33).is_none()
}

// RFC 2866, section 5: an attribute's Length is 2 at least and ends within the packet.
static ENDLESS: [&[u8]; 6] = [
    &[0x28, 1],
    &[0x28, 3],
    &[0x28, 0],
    &[0x28, 1, 2],
    &[0x28],
    &[0x28, 2, 0x28, 255, 0],
];

#[test]
fn attributes_have_to_end(rt: HostRuntime) {
    for octets in &ENDLESS {
        assert!(rt; fault_of(octets) == Some(CodecError::BadAttribute));
    }
}

// What is wrong with a packet of these attribute octets.
fn fault_of(octets: &[u8]) -> Option<CodecError> {
    let mut out = [FILL; 4096];
    match sign_request(7, octets, SECRET, &mut out) {
        Ok(size) => read(&out[..size]).err(),
        Err(_) => None,
    }
}

// A Length of 2 is an empty value.
#[test]
fn values_may_be_empty(rt: HostRuntime) {
    assert!(rt; is_one_empty_value(&[0x28, 2]));
}

// Whether these attribute octets are one attribute without a value.
fn is_one_empty_value(octets: &[u8]) -> bool {
    let mut out = [FILL; 4096];
    let Ok(size) = sign_request(7, octets, SECRET, &mut out) else {
        return false;
    };
    let Ok(packet) = read(&out[..size]) else {
        return false;
    };
    let mut attributes = packet.attributes.iter();
    attributes.next() == Some((40, [].as_slice())) && attributes.next().is_none()
}

// The size of a datagram, its Length field, and what is wrong with it: RFC 2865, section 3, for the
// limits 20 and 4,096.
static LENGTHS: [(usize, [u8; 2], Option<CodecError>); 8] = [
    (0, [0, 0], Some(CodecError::TooShort)),
    (19, [0, 20], Some(CodecError::TooShort)),
    (20, [0, 19], Some(CodecError::BadLength)),
    (20, [0, 20], None),
    (20, [0, 21], Some(CodecError::BadLength)),
    (4096, [0x10, 0], None),
    (4097, [0x10, 1], Some(CodecError::BadLength)),
    (4097, [0x10, 0], None),
];

#[test]
fn lengths_are_judged(rt: HostRuntime) {
    for (size, length, fault) in &LENGTHS {
        assert!(rt; has_fault(*size, *length, *fault), "{size} octets");
    }
}

// Whether both readers find this fault in a datagram of this size and Length: after the first
// twenty octets empty attributes of type 2.
fn has_fault(size: usize, length: [u8; 2], fault: Option<CodecError>) -> bool {
    let mut datagram = [2; 4097];
    datagram[2..4].copy_from_slice(&length);
    match datagram.get(..size) {
        Some(octets) => Front::of(octets).err() == fault && read(octets).err() == fault,
        None => false,
    }
}
