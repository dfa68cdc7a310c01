//! Answers datagrams: from the octets that an access server sent to the octets of the reply, over a
//! book.
//!
//! 1. The client is the one whose address is the datagram's source. Its secret signs the request
//!    and the reply, its name names its sessions.
//! 2. A datagram is tested by eleven rules in their order (`Reason`, 1 to 11), and the first that
//!    it breaks drops it. These tests take no memory and do not call the book. No datagram breaks
//!    two rules first (`laws`).
//! 3. The entry of a datagram that keeps them all is recorded, and only then is the reply written
//!    (RFC 2866, section 4). Writing it takes no memory.
//! 4. An entry that would take a balance out of range is dropped (12), and so is one for which the
//!    book or an allocation fails (13). Nothing has changed then, if the book is still open.
//! 5. Of a client whose logins are stamped, a stamp says who pays for a report and by which plan
//!    (`hearing`).
//! 6. A report may be dropped for its age (14), before the book is called (`answer_within`).
#![tactic(auto)]

mod answering;
mod client;
mod datagram;
mod hearing;
pub mod laws;
mod reason;

pub use answering::{LONGEST_PACKET, Outcome, answer, answer_within};
pub use client::{Client, ClientError, Clients};
pub use datagram::Datagram;
pub use hearing::{StampedClient, Stamping};
pub use reason::Reason;
