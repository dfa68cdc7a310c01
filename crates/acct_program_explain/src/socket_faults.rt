//! Why a server cannot bind its sockets.
use acct_model::{Text, address_of};
use std::io;
use std::io::{ErrorKind, Write};
use std::net::{Ipv4Addr, Net, TcpListener, UdpSocket};

/// The sockets that a server is to have.
#[derive(Clone, Copy)]
pub struct Wanted<'a> {
    /// Its IPv4 addresses for reports, as they were written.
    pub addresses: &'a [Text],
    /// The IPv4 address of its desk, as it was written.
    pub desk: &'a Text,
    /// The UDP port for reports.
    pub radius_port: u16,
    /// The TCP port of the desk.
    pub desk_port: u16,
}

/// Writes one line that says which socket cannot be bound, and why. It binds each of them again,
/// one after the other. If all can be bound now, the line says so. A writer that fails changes
/// nothing.
pub fn explain_sockets<R: Net, E: Write>(runtime: &R, wanted: Wanted<'_>, errors: &mut E) {
    for address in wanted.addresses {
        if let Some(why) = why_no_datagrams(runtime, address, wanted.radius_port) {
            let (address, port) = (address.as_str(), wanted.radius_port);
            let _ = writeln!(errors, "explained: UDP {address}:{port}: {why}");
            return;
        }
    }
    let (desk, port) = (wanted.desk.as_str(), wanted.desk_port);
    let why = why_no_callers(runtime, wanted.desk, port).unwrap_or(
        "each socket can be bound now: another program had one and is gone",
    );
    let _ = writeln!(errors, "explained: TCP {desk}:{port}: {why}");
}

// Why datagrams cannot be received at an address.
fn why_no_datagrams<R: Net>(runtime: &R, address: &Text, port: u16) -> Option<&'static str> {
    let Some(octets) = address_of(address.as_str()) else {
        return Some(NO_ADDRESS);
    };
    match UdpSocket::bind(runtime, (Ipv4Addr::from_octets(octets), port)) {
        Ok(_socket) => None,
        Err(error) => Some(why_unbound(&error)),
    }
}

// Why connections cannot be accepted at an address.
fn why_no_callers<R: Net>(runtime: &R, address: &Text, port: u16) -> Option<&'static str> {
    let Some(octets) = address_of(address.as_str()) else {
        return Some(NO_ADDRESS);
    };
    match TcpListener::bind(runtime, (Ipv4Addr::from_octets(octets), port)) {
        Ok(_listener) => None,
        Err(error) => Some(why_unbound(&error)),
    }
}

const NO_ADDRESS: &str = "the address is four numbers from 0 to 255 with dots";

fn why_unbound(error: &io::Error) -> &'static str {
    match error.kind() {
        ErrorKind::AddrInUse => "another program has this port",
        ErrorKind::AddrNotAvailable => "this machine has no such address",
        ErrorKind::PermissionDenied => {
            "this user may not have this port: one below 1024, or one that the unit doesn't allow"
        }
        _ => "the system refused",
    }
}
