//! The receiver of an audit's findings, and the result of an audit.
ghost use Rattle.std.specs.Prelude.{◌≡◌, ◌↔◌, ℕ, List, Option, OnOk, IsTrue};
ghost use Rattle.std.specs.Io.KnownBytes.{Appends};
ghost use Rattle.acct_book_audit.specs.Finding.{Finding, WrongAccount, StraySession, StrayVoucher};

use crate::statement::Statement;
use acct_book::{Row, Unavailable};
use acct_model::TopUp;

/// Receives what an audit finds, and its progress.
pub trait Auditor {
    /// Why the auditor stops the audit.
    type Error: From<Unavailable>;

    /// How it tells a finding.
    ghost words: { Finding → List ℕ };

    /// What it has told, if that is known.
    ghost told: { Self → Option (List ℕ) };

    /// Receives an account whose balance is not right, by its statement.
    fn tell_account(&mut self, account: &[u8], statement: &Statement) -> Result<(), Self::Error>
        ensures { OnOk result (Appends (told self.old) (told self.new)
            (words (WrongAccount account.now statement.now))) };

    /// Receives a session for whose account no balance is kept.
    fn tell_session(&mut self, row: &Row) -> Result<(), Self::Error>
        ensures { OnOk result (Appends (told self.old) (told self.new)
            (words (StraySession row.now))) };

    /// Receives a voucher for whose account no balance is kept.
    fn tell_voucher(&mut self, topup: &TopUp) -> Result<(), Self::Error>
        ensures { OnOk result (Appends (told self.old) (told self.new)
            (words (StrayVoucher topup.now))) };

    /// Receives how many of a kind were seen so far.
    fn go_on(&mut self, kind: Kind, count: u64)
        ensures { told self.new ≡ told self.old };
}

/// What an audit goes through, one kind after the other.
#[derive(Clone, Copy, PartialEq, Eq, Debug)]
pub enum Kind {
    /// The accounts for which a balance is kept.
    Accounts,
    /// The sessions.
    Sessions,
    /// The vouchers.
    Vouchers,
}

/// How many of a kind were seen, and how many of them are wrong.
#[derive(Clone, Copy, PartialEq, Eq, Debug)]
pub struct Seen {
    /// All of them.
    pub all: u64,
    /// Those that are wrong.
    pub wrong: u64,
}

/// The result of an audit of a book.
#[derive(Clone, Copy, PartialEq, Eq, Debug)]
pub struct Audit {
    /// Accounts: wrong are those whose balance is not right.
    pub accounts: Seen,
    /// Sessions: wrong are those for whose account no balance is kept.
    pub sessions: Seen,
    /// Vouchers: wrong are those for whose account no balance is kept.
    pub vouchers: Seen,
}

impl Audit {
    ghost use Rattle.acct_book_audit.specs.Audit.{IsClean};

    /// Whether nothing is wrong.
    pub fn is_clean(&self) -> bool
        ensures { IsTrue result ↔ IsClean self.now }
    {
        self.accounts.wrong == 0 && self.sessions.wrong == 0 && self.vouchers.wrong == 0
    }
}
