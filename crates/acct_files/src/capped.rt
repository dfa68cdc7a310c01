//! A reader that fails past a number of octets or of reads.
ghost use Rattle.std.specs.Prelude.{◌≡◌, ◌+◌, ◌-◌, ◌^◌, min, IfOk};
ghost use Rattle.std.specs.Io.{ReadsAtMost};
ghost use Rattle.std.specs.Io.KnownBytes.{ReadConsumes};
ghost use Rattle.acct_files.specs.inner.Reading.{IsWithinLimits};

use std::io;
use std::io::{ErrorKind, Read};

/// A reader under limits. If the limit of octets is passed, the octet past it is still returned and
/// the next read fails.
#[derive(Drop)]
pub struct Capped<R> {
    inner: R,
    octets_left: u64,
    reads_left: u64,
}

impl<R: Read> Capped<R> {
    /// The reader, which may return this many octets in this many reads, and fails past either.
    pub fn new(inner: R, octets: u64, reads: u64) -> Capped<R>
        ensures remaining { ⟦<Capped<R> as Read>⟧.remaining result ≡ R.remaining inner }
        ensures octets { result.octets_left ≡ min (octets + 1) (2 ^ 64 - 1) }
        ensures reads { result.reads_left ≡ reads }
    {
        Capped {
            inner,
            octets_left: octets.saturating_add(1),
            reads_left: reads,
        }
    }
}

impl<R: Read> Read for Capped<R> {
    ghost remaining = { λ s. R.remaining s.inner };

    fn read(&mut self, buf: &mut [u8]) -> io::Result<usize>
        ensures bound { ReadsAtMost result buf.new }
        ensures bytes { ReadConsumes (R.remaining self.old.inner) (R.remaining self.new.inner)
            result buf.new }
        ensures limits { IfOk result (IsWithinLimits self.old self.new) }
    {
        if self.reads_left == 0 || self.octets_left == 0 {
            return Err(io::Error::from(ErrorKind::Other));
        }
        self.reads_left -= 1;
        let room = if (buf.len() as u64) < self.octets_left {
            buf.len()
        } else {
            self.octets_left as usize
        };
        let count = self.inner.read(&mut buf[..room])?;
        self.octets_left -= count as u64;
        Ok(count)
    }
}
