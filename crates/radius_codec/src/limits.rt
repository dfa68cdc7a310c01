//! The sizes that the RFCs give, each named once.

// Octets before the attributes: code, identifier, Length and authenticator (RFC 2866, section 3).
pub(crate) const HEADER: usize = 20;

// Octets of the authenticator (RFC 2866, section 3).
pub(crate) const AUTHENTICATOR: usize = 16;

// Octets of the longest packet (RFC 2865, section 3; RFC 2866, section 3, gives one less).
pub(crate) const LONGEST_PACKET: usize = 4096;

// Octets that the attributes of the longest packet take.
pub(crate) const MOST_ATTRIBUTES: usize = 4076;

// Octets of an attribute before its value: type and Length (RFC 2865, section 5).
pub(crate) const ATTRIBUTE_HEADER: usize = 2;

// Octets of the longest value: a Length of one octet counts it (RFC 2865, section 5).
pub(crate) const LONGEST_VALUE: usize = 253;

// Octets of a number or an address (RFC 2865, section 5).
pub(crate) const WORD: usize = 4;
