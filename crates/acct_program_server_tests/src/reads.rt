//! An input whose reads are interrupted, or fail.
use acct_program::{InputFault, read_input};
use std::alloc::Global;
use std::io;
use std::io::{ErrorKind, Read};
use std::test::Fail;

// Is interrupted by so many reads, then has three octets, and then fails or is at its end. It counts
// its reads.
#[derive(Drop)]
struct Interrupted {
    interruptions: u32,
    then: Option<ErrorKind>,
    reads: u32,
}

impl Read for Interrupted {
    fn read(&mut self, buffer: &mut [u8]) -> io::Result<usize> {
        self.reads = self.reads.saturating_add(1);
        if self.reads <= self.interruptions {
            return Err(io::Error::from(ErrorKind::Interrupted));
        }
        if self.reads == self.interruptions.saturating_add(1) {
            return b"abc".as_slice().read(buffer);
        }
        match self.then {
            Some(kind) => Err(io::Error::from(kind)),
            None => Ok(0),
        }
    }
}

// How many octets are read, or why not, and how many reads that took.
fn read(alloc: Global, then: Option<ErrorKind>) -> (Result<usize, InputFault>, u32) {
    let mut reader = Interrupted {
        interruptions: 3,
        then,
        reads: 0,
    };
    let read = read_input(alloc, &mut reader).map(|octets| octets.len());
    (read, reader.reads)
}

// An interrupted read is tried again, and one that fails is not.
#[test]
fn tries_again_what_was_interrupted(rt: HostRuntime) -> Result<(), Fail> {
    assert!(rt; read(rt.alloc(), None) == (Ok(3), 5));
    let failed = read(rt.alloc(), Some(ErrorKind::UnexpectedEof));
    assert!(rt; failed == (Err(InputFault::CannotRead), 5));
    Ok(())
}
