//! What a server asks of the network.
use mio::Poll;
use std::io;
use std::io::{Read, Write};
use std::net::{Ipv4Addr, Net, OpenListener, OpenStream, TcpListener, UdpSocket};
use std::os::fd::AsRawFd;

/// The network of the system, to be listened at. Who is given no more than this connects to nobody:
/// no call of it makes a connection.
pub trait Binds {
    /// A connection that was accepted.
    type Stream: Read + Write + OpenStream + AsRawFd + Drop;

    /// What accepts connections.
    type Listener: OpenListener<Stream = Self::Stream> + AsRawFd + Drop;

    /// Accepts connections at an IPv4 address and a port.
    ///
    /// # Errors
    ///
    /// Those of the system.
    fn bind_listener(&self, address: [u8; 4], port: u16) -> io::Result<Self::Listener>;

    /// Receives datagrams at an IPv4 address and a port.
    ///
    /// # Errors
    ///
    /// Those of the system.
    fn bind_datagrams(&self, address: [u8; 4], port: u16) -> io::Result<UdpSocket>;

    /// What waits until one of several sockets is ready.
    ///
    /// # Errors
    ///
    /// Those of the system.
    fn poll(&self) -> io::Result<Poll>;
}

impl<R: Net> Binds for R {
    type Stream = R::Stream;

    type Listener = R::Listener;

    fn bind_listener(&self, address: [u8; 4], port: u16) -> io::Result<R::Listener> {
        TcpListener::bind(self, (Ipv4Addr::from(address), port))
    }

    fn bind_datagrams(&self, address: [u8; 4], port: u16) -> io::Result<UdpSocket> {
        UdpSocket::bind(self, (Ipv4Addr::from(address), port))
    }

    fn poll(&self) -> io::Result<Poll> {
        Poll::new(self)
    }
}
