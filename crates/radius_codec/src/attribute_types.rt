//! The types of attributes, each named once: on the wire a type is one octet (RFC 2865, section 5).

/// User-Name: octets (RFC 2865, section 5.1).
pub const USER_NAME: u8 = 1;
/// NAS-IP-Address: the IPv4 address of the access server (RFC 2865, section 5.4).
pub const NAS_IP_ADDRESS: u8 = 4;
/// Framed-IP-Address: an IPv4 address (RFC 2865, section 5.8).
pub const FRAMED_IP_ADDRESS: u8 = 8;
/// Class: octets (RFC 2865, section 5.25).
pub const CLASS: u8 = 25;
/// Calling-Station-Id: octets (RFC 2865, section 5.31).
pub const CALLING_STATION_ID: u8 = 31;
/// NAS-Identifier: the name of the access server, as octets (RFC 2865, section 5.32).
pub const NAS_IDENTIFIER: u8 = 32;
/// Proxy-State: octets that a response repeats (RFC 2865, section 5.33).
pub const PROXY_STATE: u8 = 33;
/// Acct-Status-Type: a number (RFC 2866, section 5.1).
pub const ACCT_STATUS_TYPE: u8 = 40;
/// Acct-Delay-Time: seconds (RFC 2866, section 5.2).
pub const ACCT_DELAY_TIME: u8 = 41;
/// Acct-Input-Octets: octets received from the user's port (RFC 2866, section 5.3).
pub const ACCT_INPUT_OCTETS: u8 = 42;
/// Acct-Output-Octets: octets sent to the user's port (RFC 2866, section 5.4).
pub const ACCT_OUTPUT_OCTETS: u8 = 43;
/// Acct-Session-Id: octets (RFC 2866, section 5.5).
pub const ACCT_SESSION_ID: u8 = 44;
/// Acct-Session-Time: seconds (RFC 2866, section 5.7).
pub const ACCT_SESSION_TIME: u8 = 46;
/// Acct-Terminate-Cause: a number (RFC 2866, section 5.10).
pub const ACCT_TERMINATE_CAUSE: u8 = 49;
/// Acct-Input-Gigawords: how often Acct-Input-Octets wrapped around 2^32 (RFC 2869, section 5.1).
pub const ACCT_INPUT_GIGAWORDS: u8 = 52;
/// Acct-Output-Gigawords: how often Acct-Output-Octets wrapped around 2^32 (RFC 2869, section 5.2).
pub const ACCT_OUTPUT_GIGAWORDS: u8 = 53;
/// NAS-IPv6-Address: the IPv6 address of the access server (RFC 3162, section 2.1).
pub const NAS_IPV6_ADDRESS: u8 = 95;
