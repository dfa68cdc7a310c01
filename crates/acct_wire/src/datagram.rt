//! A datagram as it was received.
ghost use Rattle.std.specs.Prelude.{◌<◌, ◌^◌};

/// A datagram, with its source and moment. Its moment is below 2^53.
#[derive(Drop)]
pub struct Datagram<'a> {
    /// The IPv4 address that sent it.
    pub source: [u8; 4],
    /// Its octets.
    pub bytes: &'a [u8],
    /// When it was received, in seconds since 1970.
    pub moment: u64,
    pub ghost moment_fits: { moment < 2 ^ 53 },
}
