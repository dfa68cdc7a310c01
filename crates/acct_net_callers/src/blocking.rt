//! Whether a call failed only because it would block.
ghost use Rattle.std.specs.Prelude.{◌≡◌, ◌↔◌, IsTrue};
ghost use Rattle.std.specs.IoError.{error_kind};

use std::io;
use std::io::ErrorKind;

/// Whether a call failed only because it would have to wait. (A call that does not wait is never
/// interrupted, but the kit's types leave it open; it is then a fault as any other.)
pub fn would_block(error: &io::Error) -> bool
    ensures { IsTrue result ↔ (error_kind error.now ≡ ErrorKind.WouldBlock) }
{
    error.kind() == ErrorKind::WouldBlock
}
