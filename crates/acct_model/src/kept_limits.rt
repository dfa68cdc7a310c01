//! The limits of what is kept, each named once.

/// The last moment that is kept, in seconds since 1970: moments are below 2^53.
pub const LAST_MOMENT: u64 = (1 << 53) - 1;

/// The most octets of a session, input and output together: they are below 2^63. It has the type in
/// which both are added.
pub(crate) const MOST_OCTETS: u128 = (1 << 63) - 1;

/// The octets of a gigaword, after which a counter of octets begins at 0 again (RFC 2869, sections
/// 5.1 and 5.2).
pub(crate) const GIGAWORD: u64 = 1 << 32;

/// The greatest block of a plan, in octets.
pub(crate) const GREATEST_BLOCK: u64 = 1 << 53;
