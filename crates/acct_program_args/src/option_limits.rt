//! The greatest and least numbers of the options.

/// The greatest number of a port.
pub const LAST_PORT: u64 = 65_535;
/// The most days that an option has: 100 years.
pub const MOST_DAYS: u64 = 36_500;
/// The fewest days of `--before` and `--silent`, so that a session that still reports is not taken
/// for an old one.
pub const FEWEST_DAYS: u64 = 30;
/// The most turns that a server makes.
pub const MOST_TURNS: u64 = (1 << 63) - 1;
/// The most addresses that a server receives reports at.
pub const MOST_ADDRESSES: usize = 16;
/// The most seconds from one writing of the balances to the next: a day.
pub const MOST_SECONDS: u64 = 86_400;
