//! What is known about a log that is damaged.
use acct_reads::{ReadsFiles, log_name};
use acct_sql_log::{Damage, damage_beside, has_lost_book};
use std::alloc::Global;
use std::io::Write;

// What is left to do about a book whose log is damaged.
const TO_DO: &str = ": restore a copy, or give --lose-damaged-commits, which loses them";
// The same if the log shows no lost commit.
const TO_GO_ON: &str = ": a killed sqlite3 leaves that, and so does a lost block: \
    restore a copy, or give --lose-damaged-commits to go on";

// If the log of a book is damaged, writes one line that says where, how many commits are lost by
// that, and what to do, unless the book is to be made.
pub(crate) fn tell_damage<R: ReadsFiles, E: Write>(
    runtime: &R,
    alloc: Global,
    file: &str,
    is_new: bool,
    errors: &mut E,
) -> bool {
    let (to_do, to_go_on) = if is_new { ("", "") } else { (TO_DO, TO_GO_ON) };
    let _ = match damage_beside(runtime, alloc, file) {
        // The caller finds why a log cannot be read.
        Ok(None) | Err(_) => return false,
        Ok(Some(Damage::Header)) => writeln!(
            errors,
            "explained: {file}: the header of its log is damaged, and each commit in it is \
             lost{to_do}"
        ),
        Ok(Some(Damage::Frame { frame, commits: 0 })) => writeln!(
            errors,
            "explained: {file}: frame {frame} of its log is damaged, and this log shows no lost \
             commit{to_go_on}"
        ),
        Ok(Some(Damage::Frame { frame, commits: 1 })) => writeln!(
            errors,
            "explained: {file}: frame {frame} of its log is damaged, and 1 commit ends there or \
             behind it{to_do}"
        ),
        Ok(Some(Damage::Frame { frame, commits })) => writeln!(
            errors,
            "explained: {file}: frame {frame} of its log is damaged, and {commits} commits end \
             there or behind it{to_do}"
        ),
    };
    true
}

// If the log of a book is there without its book, writes one line that says so, and what to do.
pub(crate) fn tell_lost<R: ReadsFiles, E: Write>(
    runtime: &R,
    alloc: Global,
    file: &str,
    errors: &mut E,
) -> bool {
    if let Ok(false) = has_lost_book(runtime, alloc, file) {
        return false;
    }
    let Ok(log) = log_name(runtime, alloc, file) else {
        return false;
    };
    let _ = writeln!(
        errors,
        "explained: {file}: next to it is a log, {log}, of a book that is missing: put the book's \
         file back; init makes no book next to that log"
    );
    true
}
