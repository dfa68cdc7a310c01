//! How requests are read: octet by octet, to their end, and from a reader that fails.
use acct_desk::{ReadFault, read_request};
use std::alloc::{AllocError, Global};
use std::io;
use std::io::{ErrorKind, Read};
use std::test::Fail;

// A reader that gives so many octets a read, and then this fault for ever.
#[derive(Drop)]
struct Slow<'b> {
    octets: &'b [u8],
    size: usize,
    reads: usize,
    fault: ErrorKind,
}

impl Read for Slow<'_> {
    fn read(&mut self, buf: &mut [u8]) -> io::Result<usize> {
        self.reads = self.reads.saturating_add(1);
        if self.octets.is_empty() {
            return Err(io::Error::from(self.fault));
        }
        let room = buf.len().min(self.size);
        self.octets.read(&mut buf[..room])
    }
}

// The front of what is sent, a piece behind it and how often that is repeated, and the end.
type Sent = (&'static [u8], (&'static [u8], usize), &'static [u8]);

// How many octets a read gives, how many reads are made, and how many octets are read by them.
type Taken = (usize, usize, Result<usize, ReadFault>);

const BALANCE: &[u8] = b"GET /me/balance HTTP/1.1\r\nDesk-Key: al-key-0000000001\r\n\r\n";

const OPEN_FIELD: &[u8] = b"GET /me/balance HTTP/1.1\r\nDesk-Key: al-key-0000000001\r\nPad:";

const TOP_UP: &[u8] =
    b"POST /topups HTTP/1.1\r\nDesk-Key: cash-key-00000001\r\nContent-Length: 4096\r\n\r\n\
    {\"account\":\"al\",\"sum\":500,\"voucher\":\"V-1\"}";

// A whole request is read whole, and no read is made after it. What can't become one is read until
// its octets have doubled, or 8,192 have no head. A head has up to 8,192 octets and a body 4,096.
static ROWS: [(Sent, Taken); 9] = [
    ((BALANCE, (b"", 0), b""), (1, 57, Ok(57))),
    ((b"GET", (b"", 0), b""), (1, 4, Err(ReadFault::Failed))),
    (
        (b"\n\nGET / HTTP/1.0\nA:\n", (b"", 0), b"\n"),
        (1, 21, Ok(21)),
    ),
    ((b"GET / HTTP/2.0\r\n", (b"", 0), b"\r\n"), (1, 16, Ok(16))),
    ((TOP_UP, (b" ", 4054), b""), (1, 4172, Ok(4172))),
    ((BALANCE, (b"x", 3000), b""), (4096, 1, Ok(1024))),
    ((OPEN_FIELD, (b"p", 8129), b"\r\n\r\n"), (4096, 8, Ok(8192))),
    (
        (OPEN_FIELD, (b"p", 11_937), b"\r\n\r\n"),
        (4096, 8, Ok(8192)),
    ),
    (
        (b"GET / HTTP/1.1\r\n", (b"A:\r\n", 3999), b"\r\n"),
        (4096, 1, Ok(1024)),
    ),
];

fn joined(alloc: Global, sent: &Sent) -> Result<Vec<u8>, AllocError> {
    let (front, (piece, times), end) = *sent;
    let mut octets = front.to_vec(alloc)?;
    for _ in 0..times {
        octets.extend_from_slice(piece)?;
    }
    octets.extend_from_slice(end)?;
    Ok(octets)
}

fn read_by(alloc: Global, octets: &[u8], size: usize, fault: ErrorKind) -> Taken {
    let mut reader = Slow {
        octets,
        size,
        reads: 0,
        fault,
    };
    let read = read_request(alloc, &mut reader);
    (size, reader.reads, read.map(|read| read.len()))
}

fn is_read_so(alloc: Global, sent: &Sent, taken: Taken) -> Result<bool, AllocError> {
    let octets = joined(alloc, sent)?;
    Ok(read_by(alloc, &octets, taken.0, ErrorKind::Other) == taken)
}

#[test]
fn no_more_is_read_than_is_wanted(rt: HostRuntime) -> Result<(), Fail> {
    for (sent, taken) in &ROWS {
        assert!(rt; is_read_so(rt.alloc(), sent, *taken)?);
    }
    Ok(())
}

// A reader that is interrupted for ever.
#[test]
fn readers_are_given_up(rt: HostRuntime) {
    let wanted = (1, 16_384, Err(ReadFault::TooManyTurns));
    assert!(rt; read_by(rt.alloc(), b"", 1, ErrorKind::Interrupted) == wanted);
}
