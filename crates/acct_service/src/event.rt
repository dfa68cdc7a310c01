//! The events that a server receives.
ghost use Rattle.std.specs.Prelude.{◌≡◌, ◌<◌, ◌^◌, IfOk};

use acct_model::Octets;
use std::alloc::{AllocError, Global};

/// What was received, and from where.
pub enum What {
    /// A datagram.
    Datagram {
        /// The IPv4 address that it came from.
        source: [u8; 4],
        /// The UDP port that it came from.
        port: u16,
        /// Its octets.
        bytes: Octets,
    },
    /// A request at the desk.
    Desk {
        /// Its octets.
        bytes: Octets,
    },
}

impl Drop for What {
    fn drop(self) {
        match self {
            What::Datagram {
                source: _,
                port: _,
                bytes: _,
            } => {}
            What::Desk { bytes: _ } => {}
        }
    }
}

impl What {
    // A copy, with the address that it came from.
    fn copy(&self, alloc: Global) -> Result<What, AllocError>
        ensures { IfOk result (λ copy. copy ≡ self.now) }
    {
        match self {
            What::Datagram {
                source,
                port,
                bytes,
            } => Ok(What::Datagram {
                source: *source,
                port: *port,
                bytes: bytes.copy(alloc)?,
            }),
            What::Desk { bytes } => Ok(What::Desk {
                bytes: bytes.copy(alloc)?,
            }),
        }
    }
}

/// Something received, and when. Its moment is below 2^53.
pub struct Event {
    /// When it was received, in seconds since 1970.
    pub moment: u64,
    /// What was received.
    pub what: What,
    pub ghost moment_fits: { moment < 2 ^ 53 },
}

impl Drop for Event {
    fn drop(self) {
        let Event { moment: _, what: _ } = self;
    }
}

impl Event {
    /// A copy of the event, with its source and its moment.
    ///
    /// # Errors
    ///
    /// Only if an allocation fails.
    pub fn copy(&self, alloc: Global) -> Result<Event, AllocError>
        ensures { IfOk result (λ copy. copy ≡ self.now) }
    {
        let what = self.what.copy(alloc)?;
        Ok(Event {
            moment: self.moment,
            what,
        })
    }
}
