//! The locks that the system lists.
use acct_program::read_input;
use acct_reads::ReadsFiles;
use std::alloc::Global;
use std::str;

// Where Linux lists the locks of files, a line for each.
const LIST: &str = "/proc/locks";

// Whether a program has a lock on the file of this number on this device. None if that is not known:
// the list cannot be read, as under a service manager that hides it, or it has the file's number on
// another device without a disk. The layers of a container have such devices, and the list names
// another one than a file's metadata.
pub(crate) fn is_locked<R: ReadsFiles>(
    runtime: &R,
    alloc: Global,
    device: u64,
    number: u64,
) -> Option<bool> {
    let mut reader = runtime.open(LIST).ok()?;
    let octets = read_input(alloc, &mut reader).ok()?;
    let text = str::from_utf8(&octets).ok()?;
    if text.lines().any(|line| is_of(line, device, number)) {
        return Some(true);
    }
    let may_be = text.lines().any(|line| may_be_of(line, device, number));
    if may_be { None } else { Some(false) }
}

// A file in the list: the two numbers of its device, and its own.
#[derive(Clone, Copy)]
struct Place {
    major: u64,
    minor: u64,
    file: u64,
}

// Whether a line is about a lock on this file.
fn is_of(line: &str, device: u64, number: u64) -> bool {
    match place_in(line) {
        Some(place) => {
            place.major == major_of(device)
                && place.minor == minor_of(device)
                && place.file == number
        }
        None => false,
    }
}

// Whether a line may be about a lock on this file: neither device is a disk.
fn may_be_of(line: &str, device: u64, number: u64) -> bool {
    match place_in(line) {
        Some(place) => place.major == 0 && major_of(device) == 0 && place.file == number,
        None => false,
    }
}

// The file that a line is about. Its sixth word has the two numbers of the device, in hexadecimal,
// and that of the file.
fn place_in(line: &str) -> Option<Place> {
    let place = line.split_ascii_whitespace().nth(5)?;
    let mut parts = place.split(':');
    let major = u64::from_str_radix(parts.next()?, 16).ok()?;
    let minor = u64::from_str_radix(parts.next()?, 16).ok()?;
    let file = parts.next()?.parse::<u64>().ok()?;
    Some(Place { major, minor, file })
}

// The two numbers of a device, as Linux packs them into one.
fn major_of(device: u64) -> u64 {
    ((device >> 8) & 0xfff) | ((device >> 32) & 0xffff_f000)
}

fn minor_of(device: u64) -> u64 {
    (device & 0xff) | ((device >> 12) & 0xffff_ff00)
}
