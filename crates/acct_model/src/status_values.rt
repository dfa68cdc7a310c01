//! The values of Acct-Status-Type that are accepted, each named once (RFC 2866, section 5.1).

/// A session begins.
pub const START: u32 = 1;
/// A session ends.
pub const STOP: u32 = 2;
/// A session goes on.
pub const INTERIM_UPDATE: u32 = 3;
/// A client begins accounting.
pub const ACCOUNTING_ON: u32 = 7;
/// A client ends accounting.
pub const ACCOUNTING_OFF: u32 = 8;
