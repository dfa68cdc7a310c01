//! A writer of balances that counts the overdrawn accounts.
ghost use Rattle.std.specs.Prelude.{◌≡◌};

use std::io;
use std::io::Write;

// How the line of an account ends that is not overdrawn.
const NO_OVERRUN: [u8; 2] = *b",0";

/// A writer that passes all octets on. It counts the lines of overdrawn accounts among those of
/// `export balances`.
#[derive(Drop)]
pub(crate) struct CountedLines<W> {
    pub(crate) writer: W,
    overdrawn: u64,
    last: [u8; 2],
}

impl<W: Write> CountedLines<W> {
    /// A writer to which nothing was written yet.
    pub(crate) fn new(writer: W) -> CountedLines<W>
        ensures { result.writer ≡ writer }
    {
        CountedLines {
            writer,
            overdrawn: 0,
            last: [0; 2],
        }
    }

    /// How many overdrawn accounts were written. The first line has the column names.
    pub(crate) fn overdrawn(&self) -> u64 {
        self.overdrawn.saturating_sub(1)
    }

    // Counts a line, if it ends here.
    fn note(&mut self, octet: u8)
        ensures { self.new.writer ≡ self.old.writer }
    {
        if octet == b'\n' && self.last != NO_OVERRUN {
            self.overdrawn = self.overdrawn.saturating_add(1);
        }
        self.last = [self.last[1], octet];
    }
}

impl<W: Write> Write for CountedLines<W> {
    ghost contents = { λ c. W.contents c.writer };

    fn write(&mut self, octets: &[u8]) -> io::Result<usize> {
        let written = self.writer.write(octets)?;
        for octet in octets.iter().take(written) {
            self.note(*octet);
        }
        Ok(written)
    }

    fn flush(&mut self) -> io::Result<()> {
        self.writer.flush()
    }
}
