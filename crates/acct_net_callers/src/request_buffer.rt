//! What has been read of a caller's request.
ghost use Rattle.std.specs.Prelude.{◌≡◌, ◌∷◌, ◌++◌, [], true, false, Some, OnOk, IfOk};
ghost use Rattle.std.specs.Prelude.{IfSome, IsOkAnd};
ghost use Rattle.acct_net_callers.specs.Transfer.{Receives, Ends, HasGrown, IsRequestOf};

use crate::blocking::would_block;
use acct_desk::{ReadFault, read_request};
use acct_model::Octets;
use acct_service::Fault;
use std::alloc::Global;
use std::io;
use std::io::{ErrorKind, Read};

/// The octets that have been read of a request, and whether its caller closed its sending side.
#[derive(Drop)]
pub struct RequestBuffer {
    /// What has been read, in its order.
    pub octets: Vec<u8>,
    /// Whether the caller sends no more.
    pub has_ended: bool,
}

impl RequestBuffer {
    /// An empty buffer: nothing has been read yet.
    pub fn new(alloc: Global) -> RequestBuffer
        ensures none { result.octets.items ≡ [] }
        ensures open { result.has_ended ≡ false }
    {
        RequestBuffer {
            octets: Vec::new(alloc),
            has_ended: false,
        }
    }

    /// Adds what one read puts into the given buffer. No octets are the end, unless the buffer is
    /// empty. It says whether octets were added or the end was found.
    ///
    /// # Errors
    ///
    /// If the read fails for another reason than that it would block, or memory is refused.
    pub fn fill<R: Read>(&mut self, reader: &mut R, buffer: &mut [u8]) -> Result<bool, Fault>
        ensures receives { OnOk result (Receives (R.remaining reader.old) (R.remaining reader.new)
            self.old.octets.items self.new.octets.items) }
        ensures ends { OnOk result (Ends (R.remaining reader.new) self.old.has_ended
            self.new.has_ended) }
        ensures grows { IfOk result (λ has_moved. has_moved ≡ true → HasGrown self.old self.new) }
        ensures same { IfOk result (λ has_moved. has_moved ≡ false → self.new ≡ self.old) }
    {
        match reader.read(buffer) {
            Ok(0) if buffer.is_empty() => return Ok(false),
            Ok(0) => self.has_ended = true,
            Ok(count) => {
                let grown = self.octets.extend_from_slice(&buffer[..count]);
                grown.map_err(|_| Fault)?;
            }
            Err(error) if would_block(&error) => return Ok(false),
            Err(_) => return Err(Fault),
        }
        Ok(true)
    }

    /// The request as `read_request` reads it from the buffered octets. It is there if it is whole,
    /// can't become whole, or its caller sends no more. None means that more has to be read first.
    ///
    /// # Errors
    ///
    /// If memory is refused.
    pub fn whole_request(&self, alloc: Global) -> Result<Option<Octets>, Fault>
        ensures { IfOk result (λ read. IfSome read (λ request.
            IsRequestOf self.now.octets.items self.now.has_ended request)) }
    {
        let octets = self.octets.as_slice();
        if self.has_ended {
            return outcome_of(read_request(alloc, &mut { octets }));
        }
        outcome_of(read_request(alloc, &mut PartialReader { octets }))
    }
}

// The request that was read, or None if the reader failed at the end of the buffered octets.
fn outcome_of(read: Result<Vec<u8>, ReadFault>) -> Result<Option<Octets>, Fault>
    ensures { IfOk result (λ outcome. IfSome outcome (λ octets.
        IsOkAnd read (λ read. octets ≡ read.items))) }
{
    match read {
        Ok(octets) => Ok(Some(Octets { octets })),
        Err(ReadFault::Failed) => Ok(None),
        Err(_) => Err(Fault),
    }
}

// A reader of the buffered octets that would block after the last one, since more are expected.
#[derive(Drop)]
struct PartialReader<'a> {
    octets: &'a [u8],
}

impl Read for PartialReader<'_> {
    // At least one more octet is expected. It is never read, so its value does not matter.
    ghost remaining = { λ reader. Some (reader.octets.now ++ 0 ∷ []) };

    fn read(&mut self, buf: &mut [u8]) -> io::Result<usize> {
        if self.octets.is_empty() {
            return Err(io::Error::from(ErrorKind::WouldBlock));
        }
        self.octets.read(buf)
    }
}
