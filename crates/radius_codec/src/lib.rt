//! RADIUS accounting packets: octets read into packets, packets written into octets, and the MD5
//! authenticators that tie both to a secret.
//!
//! The rules that this crate keeps:
//!
//! 1. A packet is a code, an identifier, a Length of two octets, an authenticator of sixteen octets
//!    and attributes (RFC 2866, section 3). Numbers stand with their high octet first.
//! 2. Length counts all of these. It is 20 at least and 4,096 at most (RFC 2865, section 3; RFC
//!    2866, section 3, stops at 4,095), and no more octets than the datagram has.
//! 3. Octets past Length are padding: nothing is read from them, and no digest covers them (RFC
//!    2866, section 3).
//! 4. An attribute is a type, a Length of one octet that counts type, Length and value, and a value
//!    (RFC 2865, section 5). One Length below 2 or past the packet's end spoils the whole packet. A
//!    Length of 2 is an empty value.
//! 5. Attributes keep their order, and the octets of a packet spell one list of them at most.
//! 6. A request's authenticator is the MD5 digest of its first four octets, sixteen zeros, its
//!    attributes and the secret (RFC 2866, section 3).
//! 7. A response has the request's identifier, and its Proxy-States in their order and unmodified
//!    (RFC 2865, section 5.33). The request's authenticator stands in the place of the zeros (RFC
//!    2866, section 3).
//! 8. Nothing is allocated: values are borrowed from the datagram, and packets are written into the
//!    caller's array, of which no octet past the packet changes.
#![tactic(auto)]

pub mod attribute_types;
mod attributes;
mod authenticator;
pub mod codes;
mod front;
mod hmac;
mod limits;
mod packet;
mod request;
mod response;
mod writing;

pub use attributes::{AttributeIter, Attributes, word_of};
pub use authenticator::{request_matches, response_matches};
pub use front::Front;
pub use hmac::hmac_md5;
pub use packet::{CodecError, Packet, read};
pub use request::{TooLong, sign_request, write_request};
pub use response::write_response;
