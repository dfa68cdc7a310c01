//! What a command leaves of a book's files.
use sqlite::{Connection, FileStore, Files, Leftover};
use sqlite_disk::Disk;

/// What a command leaves of a book's files. It is released as the program ends. Until then its
/// values say what the files hold.
pub enum Left<D: Disk> {
    /// No file is open as a database: none was opened, or it was released again.
    Nothing,
    /// An open that failed left this of them.
    Unopened(Leftover<D>),
    /// They are still open: the command met a fault, or only read them.
    Open(Connection<FileStore<D>>),
    /// A close that failed left this of them.
    Unclosed(FileStore<D>),
    /// The last commit is in the file of the book, and the log is empty.
    Closed(Files<D>),
}

impl<D: Disk + Drop> Drop for Left<D> {
    fn drop(self) {
        match self {
            Left::Nothing => {}
            Left::Unopened(_left) => {}
            Left::Open(_connection) => {}
            Left::Unclosed(_store) => {}
            Left::Closed(_files) => {}
        }
    }
}
