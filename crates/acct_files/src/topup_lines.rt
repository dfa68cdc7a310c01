//! The export of top-ups.
ghost use Rattle.std.specs.Prelude.{◌≡◌, ℕ, List, None, IfOk, OnOk, length, map, option_map};
ghost use Rattle.std.specs.Io.KnownBytes.{Appends};
ghost use Rattle.csv.specs.Writing.{text_written};
ghost use Rattle.acct_model.specs.Vouchers.{TopUpFacts};
ghost use Rattle.acct_book.specs.Step.{Looks};
ghost use Rattle.acct_book.specs.Maps.{octets_cmp};
ghost use Rattle.acct_book.specs.Walk.{AreAllPast, IsNextTopUp};
ghost use Rattle.acct_files.specs.Exporting.{line, topup_header, topup_fields};
ghost use Rattle.acct_files.specs.Exporting.{export_text};

use crate::csv_lines::{ExportError, begin, push, push_number, push_shown, write_line};
use crate::walk::{Export, write_members};
use acct_book::{Book, Unavailable};
use acct_model::{Text, TopUp};
use csv::{ByteRecord, Writer};
use std::alloc::Global;
use std::io::Write;

/// Writes `voucher,account,sum,when` and a line for each voucher, in the order of their numbers. It
/// holds one top-up at a time. Returns the writer, and how many top-ups there are.
///
/// # Errors
///
/// `Unavailable` also past 2^63 - 1 top-ups. The book's content stays as it is, whatever the
/// answer.
pub fn export_topups<B: Book, W: Write + Drop>(
    alloc: Global,
    book: &mut B,
    writer: W,
) -> Result<(W, u64), ExportError>
    ensures reads { Looks B.Book
        book.old book.new result }
    ensures text { IfOk result (λ done. (entries : List (List ℕ × TopUpFacts))
        × Appends (W.contents writer) (W.contents done.0)
        (export_text topup_header (λ e. line (topup_fields e.1)) entries)
        × (length entries ≡ done.1)
        × (B.is_open book.new
        → AreAllPast octets_cmp (B.content book.old).topups None entries)) }
{
    write_members(alloc, book, &TopUpExport, writer)
}

// A line for each voucher.
#[derive(Clone, Copy)]
struct TopUpExport;

impl Export for TopUpExport {
    type Key = Text;

    type Member = TopUp;

    ghost is_next = { IsNextTopUp };

    ghost key_of = { λ topup. topup.voucher };

    ghost header = { λ _. topup_header };

    ghost text_of = { λ _ topup. line (topup_fields topup) };

    fn begin<W: Write + Drop>(&self, writer: W) -> Result<Writer<W>, ExportError> {
        begin(writer, &[b"voucher", b"account", b"sum", b"when"])
    }

    fn next<B: Book>(book: &mut B, after: &Option<Text>) -> Result<Option<TopUp>, Unavailable> {
        match after {
            None => book.next_topup(None),
            Some(number) => book.next_topup(Some(number.as_str())),
        }
    }

    fn write<W: Write + Drop>(
        &self,
        alloc: Global,
        lines: &mut Writer<W>,
        fields: &mut ByteRecord,
        topup: &TopUp,
    ) -> Result<(), ExportError> {
        fields.clear();
        push(fields, topup.voucher.as_str().as_bytes())?;
        push_shown(alloc, fields, topup.account.as_slice())?;
        push_number(fields, topup.sum)?;
        push_number(fields, topup.when)?;
        write_line(lines, fields)
    }

    fn into_key(topup: TopUp) -> Text {
        topup.into_voucher()
    }
}
