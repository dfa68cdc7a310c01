//! Which sockets are ready, so that a read or a write there need not wait, and what the clocks said
//! after the wait for them.
ghost use Rattle.std.specs.Prelude.{◌≡◌, ◌+◌, ◌-◌, ◌<◌, ◌^◌, IfOk, IsErr, IsTrue, ◌↔◌, length};
ghost use Rattle.mio.specs.Events.{items};

use crate::binds::Binds;
use acct_service::moment_of;
use mio::unix::SourceFd;
use mio::{Events, Interest, Poll, Token};
use std::alloc::Global;
use std::io;
use std::os::fd::AsRawFd;
use std::time::{Clock, Duration, Instant};

/// The sockets that are watched, each under a number, and those of them that were last found ready.
/// A socket is found ready once, as it becomes so: it is to be used until it would block.
#[derive(Drop)]
pub struct Readiness {
    poll: Poll,
    events: Events<Global>,
    // How many waits there were, the most milliseconds of the last one, and whether it failed.
    waits: u64,
    most: u64,
    has_failed: bool,
    // What the clocks said when they were last read: the time, if it could be read, and the second
    // since 1970.
    time: Option<Instant>,
    moment: u64,
    ghost fits: { moment < 2 ^ 53 },
}

impl Readiness {
    /// No socket is watched yet. One wait finds at most so many ready.
    ///
    /// # Errors
    ///
    /// Those of the system, and `OutOfMemory`.
    pub fn new<R: Binds>(runtime: &R, alloc: Global, capacity: usize) -> io::Result<Readiness>
        ensures { IfOk result (λ readiness. readiness.waits ≡ 0) }
    {
        Ok(Readiness {
            poll: runtime.poll()?,
            events: Events::with_capacity(alloc, capacity)?,
            waits: 0,
            most: 0,
            has_failed: false,
            time: None,
            moment: 0,
        })
    }

    /// Watches under a number, until the socket is closed, whether it can be read.
    ///
    /// # Errors
    ///
    /// Those of the system.
    pub fn watch<S: AsRawFd>(&self, socket: &S, number: usize) -> io::Result<()> {
        self.register(socket, number, Interest::READABLE)
    }

    /// Watches under a number, until the socket is closed, whether it can be read or written.
    ///
    /// # Errors
    ///
    /// Those of the system.
    pub fn watch_both<S: AsRawFd>(&self, socket: &S, number: usize) -> io::Result<()> {
        self.register(socket, number, Interest::READABLE | Interest::WRITABLE)
    }

    fn register<S: AsRawFd>(
        &self,
        socket: &S,
        number: usize,
        interest: Interest,
    ) -> io::Result<()> {
        let descriptor = socket.as_raw_fd();
        self.poll
            .registry()
            .register(&mut SourceFd(&descriptor), Token(number), interest)
    }

    /// Waits until a socket is ready, but no longer than so many milliseconds, and then reads the
    /// clocks. It counts its waits. No contract of the system says how long it waits: that it is
    /// given `most` is read by eye.
    ///
    /// # Errors
    ///
    /// Those of the system.
    pub fn wait<R: Clock>(&mut self, runtime: &R, most: u64) -> io::Result<()>
        requires { self.old.waits < 2 ^ 64 - 1 }
        ensures waits { self.new.waits ≡ self.old.waits + 1 }
        ensures most { self.new.most ≡ most }
        ensures failed { IsTrue self.new.has_failed ↔ IsErr result }
    {
        self.waits += 1;
        self.most = most;
        let waited = self
            .poll
            .poll(&mut self.events, Some(Duration::from_millis(most)));
        self.has_failed = waited.is_err();
        self.read_clocks(runtime);
        waited
    }

    /// Reads the clocks. No contract of the system says what they said: this is read by eye.
    pub fn read_clocks<R: Clock>(&mut self, runtime: &R)
        ensures waits { self.new.waits ≡ self.old.waits }
        ensures most { self.new.most ≡ self.old.most }
        ensures failed { self.new.has_failed ≡ self.old.has_failed }
        ensures events { self.new.events ≡ self.old.events }
    {
        self.time = Instant::now(runtime).ok();
        self.moment = moment_of(runtime);
    }

    /// The seconds since 1970 when the clocks were last read.
    pub fn moment(&self) -> u64
        ensures moment { result ≡ self.now.moment }
        ensures fits { result < 2 ^ 53 }
    {
        self.moment
    }

    /// The time when the clocks were last read, if it could be read.
    pub fn time(&self) -> Option<Instant>
        ensures { result ≡ self.now.time }
    {
        self.time
    }

    /// Whether the last wait was given time, and found no socket ready.
    pub fn has_found_none(&self) -> bool
        ensures { IsTrue result ↔ ((0 < self.now.most) × (length (items self.now.events) ≡ 0)) }
    {
        self.most > 0 && self.events.is_empty()
    }

    /// The sockets that were found ready. A read or a write there may still block.
    pub fn events(&self) -> &Events<Global> {
        &self.events
    }
}
