//! The walk over the members of a book that an export writes.
ghost use Rattle.std.specs.Prelude.{◌≡◌, ℕ, List, Option, None, IfOk, OnOk, flat_map, length};
ghost use Rattle.std.specs.Io.KnownBytes.{Appends};
ghost use Rattle.csv.specs.Writing.{text_written};
ghost use Rattle.acct_book.specs.Content.{Content};
ghost use Rattle.acct_book.specs.Meets.{Meets};
ghost use Rattle.acct_book.specs.Step.{Looks};
ghost use Rattle.acct_files.specs.Exporting.{IsBetweenLines, line, export_text};
ghost use Rattle.acct_files.specs.Vouchers.{Fields};

use crate::csv_lines::{ExportError, finish};
use acct_book::{Book, Unavailable, WALK_LIMIT};
use csv::{ByteRecord, Writer};
use std::alloc::Global;
use std::io::Write;

/// How an export writes the members of one kind.
pub(crate) trait Export {
    /// The key that finds a member.
    type Key: Drop;

    /// What is written.
    type Member: Drop;

    /// This member is the next after a key, or there is none.
    ghost is_next: { Content → Option Self.Key → Option Self.Member → Type 0 };

    /// The key of a member.
    ghost key_of: { Self.Member → Self.Key };

    /// The fields of the first line.
    ghost header: { Self → Fields };

    /// The text that is written for a member.
    ghost text_of: { Self → Self.Member → List ℕ };

    /// A writer of lines that has written the header.
    fn begin<W: Write + Drop>(&self, writer: W) -> Result<Writer<W>, ExportError>
        ensures between { IfOk result IsBetweenLines }
        ensures text { IfOk result (λ lines. Appends (W.contents writer)
            (text_written W.contents lines) (line (header self.now))) };

    /// The member after the one of this key, or the first.
    fn next<B: Book>(
        book: &mut B,
        after: &Option<Self::Key>,
    ) -> Result<Option<Self::Member>, Unavailable>
        ensures found { B.is_open book.new
            → IfOk result (λ member. is_next (B.content book.old) after.now member) }
        ensures reads { Looks B.Book book.old book.new result };

    /// Writes the text for a member.
    fn write<W: Write + Drop>(
        &self,
        alloc: Global,
        lines: &mut Writer<W>,
        fields: &mut ByteRecord,
        member: &Self::Member,
    ) -> Result<(), ExportError>
        requires { IsBetweenLines lines.old }
        ensures between { OnOk result (IsBetweenLines lines.new) }
        ensures text { OnOk result (Appends (text_written W.contents lines.old)
            (text_written W.contents lines.new) (text_of self.now member.now)) };

    /// The key of a member.
    fn into_key(member: Self::Member) -> Self::Key
        ensures { result ≡ key_of member };
}

/// Writes the header, and then the text for each member of the book, in the order of their keys. It
/// holds one member at a time. Returns the writer, and how many members there are.
///
/// # Errors
///
/// `Unavailable` also past 2^63 - 1 members. The book's content stays as it is, whatever the
/// answer.
pub(crate) fn write_members<X: Export, B: Book, W: Write + Drop>(
    alloc: Global,
    book: &mut B,
    export: &X,
    writer: W,
) -> Result<(W, u64), ExportError>
    ensures reads { Looks B.Book book.old book.new result }
    ensures text { IfOk result (λ done. (members : List X.Member)
        × Appends (W.contents writer) (W.contents done.0)
        (export_text (X.header export.now) (X.text_of export.now) members)
        × (length members ≡ done.1)
        × (B.is_open book.new
        → Meets (X.is_next (B.content book.old)) X.key_of None members)) }
{
    let mut lines = export.begin(writer)?;
    let mut fields = ByteRecord::new(alloc);
    let count = write_each(alloc, book, export, &mut lines, &mut fields)?;
    match finish(lines) {
        Ok(writer) => Ok((writer, count)),
        Err(error) => Err(error),
    }
}

// Writes the text for each member, to a writer that has written the header. Returns how many there
// are.
fn write_each<X: Export, B: Book, W: Write + Drop>(
    alloc: Global,
    book: &mut B,
    export: &X,
    lines: &mut Writer<W>,
    fields: &mut ByteRecord,
) -> Result<u64, ExportError>
    requires { IsBetweenLines lines.old }
    ensures reads { Looks B.Book book.old book.new result }
    ensures text { IfOk result (λ count. (members : List X.Member)
        × Appends (text_written W.contents lines.old) (text_written W.contents lines.new)
        (flat_map (X.text_of export.now) members)
        × (length members ≡ count)
        × (B.is_open book.new
        → Meets (X.is_next (B.content book.old)) X.key_of None members)) }
{
    let mut after: Option<X::Key> = None;
    for count in 0..WALK_LIMIT {
        let Some(member) = X::next(book, &after)? else {
            return Ok(count);
        };
        export.write(alloc, lines, fields, &member)?;
        after = Some(X::into_key(member));
    }
    match X::next(book, &after)? {
        Some(_) => Err(ExportError::Unavailable),
        None => Ok(WALK_LIMIT),
    }
}
