//! Access servers by UDP and callers of the desk by TCP, as an exchange.
#![tactic(auto)]

mod binds;
mod datagrams;
mod desk;
mod event_loop;
mod readiness;
mod sockets;

pub use binds::Binds;
pub use datagrams::Datagrams;
pub use sockets::Sockets;
