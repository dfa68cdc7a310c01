//! Where the names of a book lead, look after look. One look is not enough for a line.
use acct_model::Text;
use acct_program_commands::{BookNames, Gauges};
use std::fs;
use std::test::Fail;

const BOOK: &str = "names-book";

const KEPT: &str = "names-kept";

const LOST: &str = "db: the name of names-book, or of its log, leads to another file or to none: \
    nothing is answered\n";

const BACK: &str = "db: the name of names-book, or of its log, leads to its file again\n";

// The name that the file has at a look, its moment, whether the book is away then, and what is
// printed.
type Row = (&'static str, u32, bool, &'static str);

static ROWS: [Row; 10] = [
    (BOOK, 10, false, ""),
    (KEPT, 11, true, ""),
    (BOOK, 12, false, ""),
    (KEPT, 13, true, ""),
    // In the same second it is not looked at.
    (KEPT, 13, true, ""),
    (KEPT, 14, true, LOST),
    (KEPT, 15, true, ""),
    (BOOK, 16, false, BACK),
    (KEPT, 17, true, ""),
    // The clock may step back.
    (KEPT, 7, true, LOST),
];

// Gives the file this name.
fn name(rt: &HostRuntime, name: &str) -> Result<(), Fail> {
    let other = if name == BOOK { KEPT } else { BOOK };
    if fs::exists(rt, other)? {
        fs::rename(rt, other, name)?;
    }
    Ok(())
}

// The moment of the first row that does not hold.
fn first_wrong(rt: &HostRuntime) -> Result<Option<u32>, Fail> {
    let (gauges, mut told) = (Gauges::new(), Vec::new(rt.alloc()));
    let book = Text::from_str(rt.alloc(), BOOK)?;
    let mut names = BookNames::new(rt, rt.alloc(), &book)?;
    for (at, moment, is_away, wanted) in &ROWS {
        name(rt, at)?;
        told.truncate(0);
        names.look(u64::from(*moment), &gauges, &mut told);
        let is_noted = (gauges.is_away(), names.is_away()) == (*is_away, *is_away);
        if !is_noted || told.as_slice() != wanted.as_bytes() {
            return Ok(Some(*moment));
        }
    }
    Ok(None)
}

#[test]
fn tells_where_the_names_lead(rt: HostRuntime) -> Result<(), Fail> {
    fs::write(&rt, BOOK, "book")?;
    assert_eq!(rt; first_wrong(&rt)?, None);
    fs::remove_file(&rt, KEPT)?;
    Ok(())
}
