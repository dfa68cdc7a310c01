//! The exports of accounts: their balances, and their overdrafts.
ghost use Rattle.std.specs.Prelude.{◌≡◌, [], ◌∷◌, ℕ, ℤ, List, None, IfOk, OnOk, length, option_map};
ghost use Rattle.std.specs.Io.KnownBytes.{Appends};
ghost use Rattle.csv.specs.Writing.{text_written};
ghost use Rattle.acct_book.specs.Step.{Looks};
ghost use Rattle.acct_book.specs.Maps.{octets_cmp};
ghost use Rattle.acct_book.specs.Walk.{AreAllPast, IsNextBalance};
ghost use Rattle.acct_files.specs.Exporting.{IsBetweenLines, line, account_header, account_line};
ghost use Rattle.acct_files.specs.Exporting.{export_text};

use crate::csv_lines::{ExportError, begin, push_number, push_shown, write_line};
use crate::walk::{Export, write_members};
use acct_book::{Book, Unavailable, overrun};
use csv::{ByteRecord, Writer};
use std::alloc::Global;
use std::io::Write;

/// Which lines of accounts an export has.
#[derive(Clone, Copy, PartialEq, Eq, Debug)]
pub enum AccountExport {
    /// The balance of each account, and by how much it is below 0.
    Balances,
    /// The overdraft of each account with a negative balance.
    Overruns,
}

/// Writes `account,balance,overrun` and a line for each account, in the order of the accounts. It
/// holds one account at a time. Returns the writer, and how many accounts there are.
///
/// # Errors
///
/// `Unavailable` also past 2^63 - 1 accounts. The book's content stays as it is, whatever the
/// answer.
pub fn export_balances<B: Book, W: Write + Drop>(
    alloc: Global,
    book: &mut B,
    writer: W,
) -> Result<(W, u64), ExportError>
    ensures reads { Looks B.Book
        book.old book.new result }
    ensures text { IfOk result (λ done. (entries : List (List ℕ × ℤ))
        × Appends (W.contents writer) (W.contents done.0)
        (export_text (account_header AccountExport.Balances)
        (λ e. account_line AccountExport.Balances e.0 e.1) entries)
        × (length entries ≡ done.1)
        × (B.is_open book.new → AreAllPast octets_cmp (B.content book.old).balances None entries)) }
{
    export_accounts(alloc, book, writer, AccountExport::Balances)
}

/// Writes `account,overrun` and a line for each account whose balance is below 0, in the order of
/// the accounts. It holds one account at a time. Returns the writer, and how many accounts there
/// are, whatever their balance.
///
/// # Errors
///
/// `Unavailable` also past 2^63 - 1 accounts. The book's content stays as it is, whatever the
/// answer.
pub fn export_overruns<B: Book, W: Write + Drop>(
    alloc: Global,
    book: &mut B,
    writer: W,
) -> Result<(W, u64), ExportError>
    ensures reads { Looks B.Book
        book.old book.new result }
    ensures text { IfOk result (λ done. (entries : List (List ℕ × ℤ))
        × Appends (W.contents writer) (W.contents done.0)
        (export_text (account_header AccountExport.Overruns)
        (λ e. account_line AccountExport.Overruns e.0 e.1) entries)
        × (length entries ≡ done.1)
        × (B.is_open book.new → AreAllPast octets_cmp (B.content book.old).balances None entries)) }
{
    export_accounts(alloc, book, writer, AccountExport::Overruns)
}

// Writes the header, and what it has for each account. Returns the writer, and how many there are.
fn export_accounts<B: Book, W: Write + Drop>(
    alloc: Global,
    book: &mut B,
    writer: W,
    what: AccountExport,
) -> Result<(W, u64), ExportError>
    ensures reads { Looks B.Book
        book.old book.new result }
    ensures text { IfOk result (λ done. (entries : List (List ℕ × ℤ))
        × Appends (W.contents writer) (W.contents done.0)
        (export_text (account_header what) (λ e. account_line what e.0 e.1) entries)
        × (length entries ≡ done.1)
        × (B.is_open book.new → AreAllPast octets_cmp (B.content book.old).balances None entries)) }
{
    write_members(alloc, book, &what, writer)
}

impl Export for AccountExport {
    type Key = Vec<u8>;

    type Member = (Vec<u8>, i64);

    ghost is_next = { λ content after kept. IsNextBalance content
        (option_map (λ a. a.items) after) (option_map (λ k. (k.0.items, k.1)) kept) };

    ghost key_of = { λ kept. kept.0 };

    ghost header = { account_header };

    ghost text_of = { λ what kept. account_line what kept.0.items kept.1 };

    fn begin<W: Write + Drop>(&self, writer: W) -> Result<Writer<W>, ExportError> {
        match self {
            AccountExport::Balances => begin(writer, &[b"account", b"balance", b"overrun"]),
            AccountExport::Overruns => begin(writer, &[b"account", b"overrun"]),
        }
    }

    fn next<B: Book>(
        book: &mut B,
        after: &Option<Vec<u8>>,
    ) -> Result<Option<(Vec<u8>, i64)>, Unavailable> {
        match after {
            None => book.next_account(None),
            Some(account) => book.next_account(Some(account.as_slice())),
        }
    }

    fn write<W: Write + Drop>(
        &self,
        alloc: Global,
        lines: &mut Writer<W>,
        fields: &mut ByteRecord,
        kept: &(Vec<u8>, i64),
    ) -> Result<(), ExportError> {
        let balance = kept.1;
        match self {
            AccountExport::Balances => write_balance(alloc, lines, fields, &kept.0, balance),
            AccountExport::Overruns => write_overrun(alloc, lines, fields, &kept.0, balance),
        }
    }

    fn into_key(kept: (Vec<u8>, i64)) -> Vec<u8> {
        kept.0
    }
}

fn write_balance<W: Write + Drop>(
    alloc: Global,
    lines: &mut Writer<W>,
    fields: &mut ByteRecord,
    account: &[u8],
    balance: i64,
) -> Result<(), ExportError>
    requires { IsBetweenLines lines.old }
    ensures between { OnOk result (IsBetweenLines lines.new) }
    ensures text { OnOk result (Appends (text_written W.contents lines.old)
        (text_written W.contents lines.new)
        (account_line AccountExport.Balances account.now balance)) }
{
    fields.clear();
    push_shown(alloc, fields, account)?;
    push_number(fields, balance)?;
    push_number(fields, overrun(balance))?;
    write_line(lines, fields)
}

fn write_overrun<W: Write + Drop>(
    alloc: Global,
    lines: &mut Writer<W>,
    fields: &mut ByteRecord,
    account: &[u8],
    balance: i64,
) -> Result<(), ExportError>
    requires { IsBetweenLines lines.old }
    ensures between { OnOk result (IsBetweenLines lines.new) }
    ensures text { OnOk result (Appends (text_written W.contents lines.old)
        (text_written W.contents lines.new)
        (account_line AccountExport.Overruns account.now balance)) }
{
    let above = overrun(balance);
    if above == 0 {
        return Ok(());
    }
    fields.clear();
    push_shown(alloc, fields, account)?;
    push_number(fields, above)?;
    write_line(lines, fields)
}
