//! The codes of packets, each named once: on the wire a code is one octet (RFC 2866, section 3).

/// An Accounting-Request (RFC 2866, section 4.1).
pub const ACCOUNTING_REQUEST: u8 = 4;
/// An Accounting-Response (RFC 2866, section 4.2).
pub const ACCOUNTING_RESPONSE: u8 = 5;
