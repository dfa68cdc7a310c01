//! A reader under limits of octets and of reads.
use acct_files::Capped;
use std::io::Read;

// Limits of octets and of reads, how many octets of six are then returned, one a read, and whether
// the end is reached. The read that reaches the end counts, and the octet past the limit is
// returned.
const LIMITS: &[(u64, u64, (usize, bool))] = &[
    (6, 7, (6, true)),
    (5, 9, (6, false)),
    (4, 9, (5, false)),
    (9, 6, (6, false)),
    (9, 5, (5, false)),
    (9, 0, (0, false)),
];

fn handed_on(octets: u64, reads: u64) -> (usize, bool) {
    let mut capped = Capped::new(b"abcdef".as_slice(), octets, reads);
    let mut octet = [0; 1];
    for count in 0..10 {
        match capped.read(&mut octet) {
            Ok(0) => return (count, true),
            Ok(_) => {}
            Err(_) => return (count, false),
        }
    }
    (10, false)
}

// The first row that isn't as expected.
fn failing() -> Option<(u64, u64)> {
    for (octets, reads, told) in LIMITS {
        if handed_on(*octets, *reads) != *told {
            return Some((*octets, *reads));
        }
    }
    None
}

#[test]
fn readers_fail_past_their_limits(rt: HostRuntime) {
    assert_eq!(rt; failing(), None);
}
