//! A clock that stands still, and its moment.
use acct_service::moment_of;
use std::io;
use std::io::ErrorKind;
use std::test::Fail;
use std::time::{Clock, Duration};

// A clock that stands so many seconds and nanoseconds after 1970, or before it at none.
#[derive(Drop)]
struct Stopped {
    since_1970: Option<(u64, u32)>,
}

impl Clock for Stopped {
    fn monotonic(&self) -> io::Result<Duration> {
        Err(io::Error::from(ErrorKind::Other))
    }

    fn since_1970(&self) -> io::Result<Duration> {
        match self.since_1970 {
            Some((seconds, nanoseconds)) if nanoseconds < 1_000_000_000 => {
                Ok(Duration::new(seconds, nanoseconds))
            }
            _ => Err(io::Error::from(ErrorKind::Other)),
        }
    }
}

// Where a clock stands, and its moment: the second that has begun, none before 1970, and the last
// one that a book takes after it.
static MOMENTS: [(Option<(u64, u32)>, u64); 8] = [
    (Some((1_700_000_123, 900_000_000)), 1_700_000_123),
    (Some((1_700_000_124, 0)), 1_700_000_124),
    (Some((0, 999_999_999)), 0),
    (Some((1, 0)), 1),
    (None, 0),
    (Some((9_007_199_254_740_990, 0)), 9_007_199_254_740_990),
    (Some((9_007_199_254_740_991, 1)), 9_007_199_254_740_991),
    (Some((9_007_199_254_740_993, 0)), 9_007_199_254_740_991),
];

#[test]
fn gives_the_clocks_second(rt: HostRuntime) -> Result<(), Fail> {
    for (since_1970, moment) in &MOMENTS {
        let stopped = Stopped {
            since_1970: *since_1970,
        };
        assert!(rt; moment_of(&stopped) == *moment);
    }
    Ok(())
}
