//! A writer with several holders.
use std::cell::RefCell;
use std::io;
use std::io::{ErrorKind, Write};

/// A writer with several holders, who write in turn.
#[derive(Clone, Copy)]
pub struct Shared<'w, W> {
    writer: &'w RefCell<W>,
}

impl<'w, W> Shared<'w, W> {
    /// Another holder of a writer.
    pub fn new(writer: &'w RefCell<W>) -> Shared<'w, W> {
        Shared { writer }
    }
}

impl<'w, W: Write> Write for Shared<'w, W> {
    fn write(&mut self, octets: &[u8]) -> io::Result<usize> {
        match self.writer.try_borrow_mut() {
            Ok(mut writer) => writer.write(octets),
            Err(_) => Err(io::Error::from(ErrorKind::ResourceBusy)),
        }
    }

    fn flush(&mut self) -> io::Result<()> {
        match self.writer.try_borrow_mut() {
            Ok(mut writer) => writer.flush(),
            Err(_) => Err(io::Error::from(ErrorKind::ResourceBusy)),
        }
    }
}
