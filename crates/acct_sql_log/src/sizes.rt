//! Sizes of the files of a book, in octets, as SQLite's file format has them.

/// The header of a database. No database has fewer octets, but for an empty one, which has none.
pub const DATABASE_HEADER_OCTETS: u64 = 100;
/// The header of a log. A log that has no more octets has no frame.
pub const LOG_HEADER_OCTETS: u64 = 32;
