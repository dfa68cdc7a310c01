//! What numbers the tables keep.

/// The most octets of a session, those of its input and its output together: they are below 2^63.
pub(crate) const MOST_OCTETS: u64 = (1 << 63) - 1;

/// The greatest INTEGER of a table. The block and the unit of a plan have to fit in one.
pub(crate) const GREATEST_INTEGER: u64 = (1 << 63) - 1;
