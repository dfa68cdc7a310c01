//! What goes into a book on tables.
ghost use Rattle.std.specs.Prelude.{IsTrue};
ghost use Rattle.acct_book.specs.Content.{key_of, IsNone};

use acct_book::{Book, Key, Row, SessionState, Unavailable};
use acct_model::{Octets, Text};
use std::alloc::Global;
use std::test::Fail;

/// The name of a session of the client `ap1`.
pub(crate) fn key(alloc: Global, id: &[u8]) -> Result<Key, Fail> {
    Ok(Key {
        client: Text::from_str(alloc, "ap1")?,
        session: Octets::from_slice(alloc, id)?,
    })
}

/// The row of a session of the account `al`.
pub(crate) fn row(alloc: Global, id: &[u8], state: SessionState) -> Result<Row, Fail> {
    Ok(Row {
        client: Text::from_str(alloc, "ap1")?,
        session: Octets::from_slice(alloc, id)?,
        account: Octets::from_slice(alloc, b"al")?,
        class: Octets::from_slice(alloc, b"gold")?,
        plan: Octets::from_slice(alloc, b"default")?,
        input: 101,
        output: 202,
        seconds: 303,
        first: 404,
        last: 505,
        state,
        cause: 6,
        calling: Octets::from_slice(alloc, b"00-11")?,
        framed: Some([10, 9, 8, 7]),
    })
}

// Whether the row is under none of these keys.
fn is_apart(gone: &[Key], row: &Row) -> bool
    ensures { IsTrue result → IsNone gone.now (key_of row.now) }
{
    gone.iter().all(|key| key.client != row.client || key.session != row.session)
}

/// Carries the sessions of these keys into a row, which is none of them.
pub(crate) fn carry<B: Book>(book: &mut B, gone: &[Key], row: &Row) -> Result<(), Unavailable> {
    if !is_apart(gone, row) {
        return Err(Unavailable);
    }
    book.put_forward(gone, row)
}
