//! A runtime whose clocks a test sets, and whose accepts fail at first.
use std::cell::Cell;
use std::io;
use std::io::ErrorKind;
use std::net::{Net, OpenListener, SocketAddr, TcpListener, TcpStream, UdpSocket};
use std::os::fd::{AsRawFd, RawFd};
use std::time::{Clock, Duration};

/// The machine's sockets, but that the first accept of each listener fails. Its date is set, and
/// its other clock is ahead of the machine's.
#[derive(Drop)]
pub struct Flaky {
    /// The machine.
    pub host: HostRuntime,
    /// How the first accept of each listener fails.
    pub fault: Cell<ErrorKind>,
    /// The date, in seconds since 1970. It is 900 milliseconds later.
    pub moment: Cell<u64>,
    /// How many seconds the other clock is ahead.
    pub ahead: Cell<u64>,
}

impl Flaky {
    /// A runtime at this moment, whose accepts fail at first because nobody waits.
    pub fn at(host: HostRuntime, moment: u64) -> Flaky {
        Flaky {
            host,
            fault: Cell::new(ErrorKind::WouldBlock),
            moment: Cell::new(moment),
            ahead: Cell::new(0),
        }
    }
}

impl Clock for Flaky {
    fn monotonic(&self) -> io::Result<Duration> {
        let ahead = Duration::from_secs(self.ahead.get());
        match self.host.monotonic()?.checked_add(ahead) {
            Some(now) => Ok(now),
            None => Err(io::Error::from(ErrorKind::Other)),
        }
    }

    fn since_1970(&self) -> io::Result<Duration> {
        Ok(Duration::new(self.moment.get(), 900_000_000))
    }
}

impl Net for Flaky {
    type Stream = TcpStream;

    type Listener = FlakyListener;

    fn bind(&self, addr: SocketAddr) -> io::Result<FlakyListener> {
        Ok(FlakyListener {
            listener: TcpListener::bind(&self.host, addr)?,
            fault: Cell::new(Some(self.fault.get())),
        })
    }

    fn connect(&self, addr: SocketAddr) -> io::Result<TcpStream> {
        TcpStream::connect(&self.host, addr)
    }

    fn bind_udp(&self, addr: SocketAddr) -> io::Result<UdpSocket> {
        UdpSocket::bind(&self.host, addr)
    }
}

/// A listener whose next accept fails so, if it is to fail.
#[derive(Drop)]
pub struct FlakyListener {
    listener: TcpListener,
    fault: Cell<Option<ErrorKind>>,
}

impl AsRawFd for FlakyListener {
    fn as_raw_fd(&self) -> RawFd {
        self.listener.as_raw_fd()
    }
}

impl OpenListener for FlakyListener {
    type Stream = TcpStream;

    fn accept(&self) -> io::Result<(TcpStream, SocketAddr)> {
        match self.fault.replace(None) {
            Some(fault) => Err(io::Error::from(fault)),
            None => self.listener.accept(),
        }
    }

    fn local_addr(&self) -> io::Result<SocketAddr> {
        self.listener.local_addr()
    }

    fn set_nonblocking(&self, nonblocking: bool) -> io::Result<()> {
        self.listener.set_nonblocking(nonblocking)
    }
}
