//! The clock's moment.
ghost use Rattle.std.specs.Prelude.{◌≡◌, ◌<◌, ◌-◌, ◌^◌, ◌/◌, min};
ghost use Rattle.std.specs.Time.{system_time_nanos};

use acct_model::LAST_MOMENT;
use std::time::{Clock, SystemTime, UNIX_EPOCH};

/// The clock's seconds since 1970, as `seconds_of` gives them; 0 if the clock cannot be read.
pub fn moment_of<R: Clock>(runtime: &R) -> u64
    ensures { result < 2 ^ 53 }
{
    match SystemTime::now(runtime) {
        Ok(now) => seconds_of(now),
        Err(_) => 0,
    }
}

/// The whole seconds of a time since 1970, at most 2^53 - 1.
pub fn seconds_of(time: SystemTime) -> u64
    ensures { result ≡ min (system_time_nanos time / 1_000_000_000) (2 ^ 53 - 1) }
{
    match time.duration_since(UNIX_EPOCH) {
        Ok(since) => since.as_secs().min(LAST_MOMENT),
        Err(_) => 0,
    }
}
