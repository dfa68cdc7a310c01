//! What is still to be written of a caller's response.
ghost use Rattle.std.specs.Prelude.{◌≡◌, ◌↔◌, ◌≤◌, ◌<◌, [], ℕ, List, drop, take, length};
ghost use Rattle.std.specs.Prelude.{true, false, IsTrue, OnOk, IfOk};
ghost use Rattle.std.specs.Io.KnownBytes.{Appends};
ghost use Rattle.acct_net_callers.specs.Transfer.{Sends};

use crate::blocking::would_block;
use acct_model::Octets;
use acct_service::Fault;
use std::alloc::{AllocError, Global};
use std::io::Write;
use std::marker::Model;

/// The most octets of one write, so that one caller's long response keeps nobody waiting for long.
const MOST_AT_ONCE: usize = 65_536;

/// What is left of a response: its last octets.
#[derive(Drop)]
pub struct ResponseBuffer {
    octets: Octets,
    sent: usize,
}

impl Model for ResponseBuffer {
    ghost Value = { List ℕ };

    ghost view = { λ response. drop response.sent response.octets };

    ghost invariant = { λ response. response.sent ≤ length response.octets };
}

impl ResponseBuffer {
    /// These octets, of which none is written yet.
    ///
    /// # Errors
    ///
    /// Only if memory is refused.
    pub fn from_slice(alloc: Global, octets: &[u8]) -> Result<ResponseBuffer, AllocError>
        ensures { IfOk result (λ response. response ≡ octets.now) }
    {
        let octets = Octets::from_slice(alloc, octets)?;
        Ok(ResponseBuffer { octets, sent: 0 })
    }

    /// Whether all octets are written.
    pub fn is_written(&self) -> bool
        ensures { IsTrue result ↔ (self.now ≡ []) }
    {
        self.octets.as_slice()[self.sent..].is_empty()
    }

    /// Writes the next octets, as many as the writer takes of them at once, and says whether it
    /// took any.
    ///
    /// # Errors
    ///
    /// If the write fails for another reason than that it would block.
    pub fn write<W: Write>(&mut self, writer: &mut W) -> Result<bool, Fault>
        ensures sends { OnOk result (Sends (W.contents writer.old) (W.contents writer.new)
            self.old self.new) }
        ensures shorter { IfOk result (λ has_moved. has_moved ≡ true
            → length self.new < length self.old) }
        ensures same { IfOk result (λ has_moved. has_moved ≡ false → self.new ≡ self.old) }
    {
        let count = write_some(writer, &self.octets.as_slice()[self.sent..])?;
        self.sent += count;
        Ok(count > 0)
    }
}

/// Writes the first of these octets, as many as the writer takes of them at once, and gives their
/// number. That is 0 if the write would block.
///
/// # Errors
///
/// If the write fails for another reason than that it would block.
pub fn write_some<W: Write>(writer: &mut W, octets: &[u8]) -> Result<usize, Fault>
    ensures within { IfOk result (λ count. count ≤ length octets.now) }
    ensures sends { IfOk result (λ count.
        Appends (W.contents writer.old) (W.contents writer.new) (take count octets.now)) }
{
    let piece = octets.len().min(MOST_AT_ONCE);
    match writer.write(&octets[..piece]) {
        Ok(0) if piece > 0 => Err(Fault),
        Ok(count) => Ok(count),
        Err(error) if would_block(&error) => Ok(0),
        Err(_) => Err(Fault),
    }
}
