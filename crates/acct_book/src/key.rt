//! The name of a session.
use acct_model::{Octets, Text};

/// Names a session, in the order of clients and then of session ids, octet by octet.
#[derive(PartialEq, Eq, PartialOrd, Ord, Debug)]
pub struct Key {
    /// The client's name.
    pub client: Text,
    /// Acct-Session-Id (RFC 2866, section 5.5), which may have no octets.
    pub session: Octets,
}

impl Drop for Key {
    fn drop(self) {
        let Key {
            client: _,
            session: _,
        } = self;
    }
}
