//! The export of sessions.
ghost use Rattle.std.specs.Prelude.{◌≡◌, ◌++◌, [], ◌∷◌, ℕ, List, None, IfOk, OnOk, length, map};
ghost use Rattle.std.specs.Prelude.{option_map};
ghost use Rattle.std.specs.Io.KnownBytes.{Appends};
ghost use Rattle.csv.specs.Records.{fields_of, partial_of};
ghost use Rattle.csv.specs.Writing.{text_written};
ghost use Rattle.acct_book.specs.declared.key.Key.{Key};
ghost use Rattle.acct_book.specs.Content.{key_of as key_of_row};
ghost use Rattle.acct_book.specs.Step.{Looks};
ghost use Rattle.acct_book.specs.Maps.{key_cmp};
ghost use Rattle.acct_book.specs.Row.{RowFacts};
ghost use Rattle.acct_book.specs.Walk.{AreAllPast, IsNextRow};
ghost use Rattle.acct_files.specs.Exporting.{line, session_header, session_fields};
ghost use Rattle.acct_files.specs.Exporting.{session_name, session_counts, session_end};
ghost use Rattle.acct_files.specs.Exporting.{export_text};

use crate::csv_lines::{ExportError, begin, push, push_number, push_shown, write_line};
use crate::walk::{Export, write_members};
use acct_book::{Book, Key, Row, Unavailable, charge};
use acct_model::{NoMemory, Plans, show_address};
use csv::{ByteRecord, Writer};
use std::alloc::Global;
use std::io::Write;

/// Writes a header and a line for each session, in the order of their keys. A line has the
/// session's names, its octets and their price under these plans, its moments, and how it ended.
/// The export holds one session at a time. Returns the writer, and how many sessions there are.
///
/// # Errors
///
/// `Unavailable` also past 2^63 - 1 sessions. The book's content stays as it is, whatever the
/// answer.
pub fn export_sessions<B: Book, W: Write + Drop>(
    alloc: Global,
    book: &mut B,
    plans: &Plans,
    writer: W,
) -> Result<(W, u64), ExportError>
    ensures reads { Looks B.Book
        book.old book.new result }
    ensures text { IfOk result (λ done. (entries : List (Key × RowFacts))
        × Appends (W.contents writer) (W.contents done.0)
        (export_text session_header (λ e. line (session_fields plans.now e.1)) entries)
        × (length entries ≡ done.1)
        × (B.is_open book.new → AreAllPast key_cmp (B.content book.old).rows None entries)) }
{
    write_members(alloc, book, &SessionExport { plans }, writer)
}

// A line for each session, priced by these plans.
#[derive(Clone, Copy)]
struct SessionExport<'p> {
    plans: &'p Plans,
}

impl<'p> Export for SessionExport<'p> {
    type Key = Key;

    type Member = Row;

    ghost is_next = { IsNextRow };

    ghost key_of = { key_of_row };

    ghost header = { λ _. session_header };

    ghost text_of = { λ export row. line (session_fields export.plans.now row) };

    fn begin<W: Write + Drop>(&self, writer: W) -> Result<Writer<W>, ExportError> {
        begin(
            writer,
            &[
                b"client", b"session", b"account", b"class", b"input", b"output", b"total",
                b"charged", b"seconds", b"first", b"last", b"state", b"cause", b"calling",
                b"framed",
            ],
        )
    }

    fn next<B: Book>(book: &mut B, after: &Option<Key>) -> Result<Option<Row>, Unavailable>
        ensures found { B.is_open book.new
            → IfOk result (λ row. IsNextRow (B.content book.old) after.now row) }
        ensures reads { Looks B.Book book.old book.new result }
    {
        book.next_session(after.as_ref())
    }

    fn write<W: Write + Drop>(
        &self,
        alloc: Global,
        lines: &mut Writer<W>,
        fields: &mut ByteRecord,
        row: &Row,
    ) -> Result<(), ExportError> {
        fields.clear();
        push_name(alloc, fields, row)?;
        push_counts(fields, self.plans, row)?;
        push_end(alloc, fields, row)?;
        write_line(lines, fields)
    }

    fn into_key(row: Row) -> Key
        ensures { result ≡ key_of_row row }
    {
        row.into_key()
    }
}

// Client, session, account and class.
fn push_name(alloc: Global, fields: &mut ByteRecord, row: &Row) -> Result<(), ExportError>
    requires { partial_of fields.old ≡ [] }
    ensures fields { OnOk result (fields_of fields.new
        ≡ fields_of fields.old ++ session_name row.now) }
    ensures partial { OnOk result (partial_of fields.new ≡ []) }
{
    push(fields, row.client.as_str().as_bytes())?;
    push_shown(alloc, fields, row.session.as_slice())?;
    push_shown(alloc, fields, row.account.as_slice())?;
    push_shown(alloc, fields, row.class.as_slice())
}

// Octets, what they cost, and moments.
fn push_counts(fields: &mut ByteRecord, plans: &Plans, row: &Row) -> Result<(), ExportError>
    requires { partial_of fields.old ≡ [] }
    ensures fields { OnOk result (fields_of fields.new ≡ fields_of fields.old
        ++ session_counts plans.now row.now) }
    ensures partial { OnOk result (partial_of fields.new ≡ []) }
{
    push_number(fields, row.input)?;
    push_number(fields, row.output)?;
    push_number(fields, row.total())?;
    push_number(fields, charge(plans, row))?;
    push_number(fields, row.seconds)?;
    push_number(fields, row.first)?;
    push_number(fields, row.last)
}

// How the session ended, its calling station and its address.
fn push_end(alloc: Global, fields: &mut ByteRecord, row: &Row) -> Result<(), ExportError>
    requires { partial_of fields.old ≡ [] }
    ensures fields { OnOk result (fields_of fields.new
        ≡ fields_of fields.old ++ session_end row.now) }
    ensures partial { OnOk result (partial_of fields.new ≡ []) }
{
    push(fields, row.state.word().as_bytes())?;
    push_number(fields, row.cause)?;
    push_shown(alloc, fields, row.calling.as_slice())?;
    match show_address(alloc, row.framed) {
        Ok(text) => push(fields, text.as_bytes()),
        Err(NoMemory) => Err(ExportError::Memory),
    }
}
