//! What a book is, in memory or in tables.
ghost use Rattle.std.specs.Prelude.{◌≡◌, IfOk, IsOk, option_map};
ghost use Rattle.std.specs.Option.{option_copied};
ghost use Rattle.acct_book.specs.Content.{Content, HasOwnKeys, kept_balance, with_session};
ghost use Rattle.acct_book.specs.Content.{with_topup, with_closed, with_forward, key_of, IsNone};
ghost use Rattle.acct_book.specs.Book.{Only, Reads, Writes};
ghost use Rattle.acct_book.specs.Walk.{IsNextRow, IsNextBalance, IsNextTopUp, AreRowsOf};
ghost use Rattle.acct_book.specs.Walk.{AreKeysOf, AreTopUpsOf};

use crate::key::Key;
use crate::row::Row;
use acct_model::TopUp;
use std::alloc::AllocError;
use thiserror::Error;

/// The most members that a walk over a book meets.
pub const WALK_LIMIT: u64 = (1 << 63) - 1;

/// The store or an allocation failed.
#[derive(Clone, Copy, PartialEq, Eq, Debug, Error)]
#[error("the book is unavailable")]
pub struct Unavailable;

impl From<AllocError> for Unavailable {
    fn from(_error: AllocError) -> Unavailable {
        Unavailable
    }
}

/// A book of rows by key, balances by account and top-ups by number. If it keeps a list of plans,
/// no call changes that.
///
/// # Errors
///
/// Each call may return `Unavailable`: a store may fail without a visible cause. If the book is
/// still open, its content is then as before. The call may also have shut the book. If it was to
/// write, a crash may then leave the whole write. Only `balance` of a steady book never returns
/// `Unavailable`.
pub trait Book {
    /// What it contains, however it is kept. It has no meaning for a book that is not open.
    ghost content: { Self → Content };

    /// The store is as it promises.
    ghost is_sound: { Self → Type 0 };

    /// It is sound, and its content can still be read. A store that a failed write has shut is
    /// sound, but no longer open.
    ghost is_open: { Self → Type 0 };

    /// Its `balance` never fails.
    ghost is_steady: { Self → Type 0 };

    /// What a crash at this moment may leave.
    ghost left: { Self → Content → Type 0 };

    /// The row of a session.
    fn session(&mut self, key: &Key) -> Result<Option<Row>, Unavailable>
        ensures found { is_open self.new
            → IfOk result (λ row. row ≡ (content self.old).rows key.now) }
        ensures reads { Reads content is_sound is_open is_steady left self.old self.new result };

    /// The balance of an account, 0 if none is kept.
    fn balance(&mut self, account: &[u8]) -> Result<i64, Unavailable>
        ensures found { is_open self.new
            → IfOk result (λ balance. balance ≡ kept_balance (content self.old) account.now) }
        ensures steady { is_steady self.old → IsOk result }
        ensures reads { Reads content is_sound is_open is_steady left self.old self.new result };

    /// The top-up that is kept by a number.
    fn voucher(&mut self, number: &str) -> Result<Option<TopUp>, Unavailable>
        ensures found { is_open self.new
            → IfOk result (λ topup. topup ≡ (content self.old).topups number.now) }
        ensures reads { Reads content is_sound is_open is_steady left self.old self.new result };

    /// Sets a row under its key and the balance of its account, both or neither.
    fn put_session(&mut self, row: &Row, balance: i64) -> Result<(), Unavailable>
        ensures { Writes content is_sound is_open is_steady left self.old self.new
            (with_session (content self.old) row.now balance) result };

    /// Sets a top-up under its number and the balance of its account, both or neither.
    fn put_topup(&mut self, topup: &TopUp, balance: i64) -> Result<(), Unavailable>
        ensures { Writes content is_sound is_open is_steady left self.old self.new
            (with_topup (content self.old) topup.now balance) result };

    /// Closes each live session of a client, with the cause 11.
    fn close_client(&mut self, client: &str) -> Result<(), Unavailable>
        ensures { Writes content is_sound is_open is_steady left self.old self.new
            (with_closed (content self.old) client.now) result };

    /// Removes the rows under these keys and sets a row under its own key, which is none of them:
    /// all of it or nothing. No balance changes.
    fn put_forward(&mut self, gone: &[Key], row: &Row) -> Result<(), Unavailable>
        requires { is_open self.old → IsNone gone.now (key_of row.now) }
        ensures { Writes content is_sound is_open is_steady left self.old self.new
            (with_forward (content self.old) gone.now row.now) result };

    /// All rows of an account, in the order of their keys.
    fn sessions_of(&mut self, account: &[u8]) -> Result<Vec<Row>, Unavailable>
        ensures found { is_open self.new
            → IfOk result (λ rows. AreRowsOf (content self.old) account.now rows.items) }
        ensures reads { Reads content is_sound is_open is_steady left self.old self.new result };

    /// The keys of all rows of an account, in their order. They take less memory than the rows.
    fn keys_of(&mut self, account: &[u8]) -> Result<Vec<Key>, Unavailable>
        ensures found { is_open self.new
            → IfOk result (λ keys. AreKeysOf (content self.old) account.now keys.items) }
        ensures reads { Reads content is_sound is_open is_steady left self.old self.new result };

    /// All top-ups of an account, in the order of their numbers.
    fn topups_of(&mut self, account: &[u8]) -> Result<Vec<TopUp>, Unavailable>
        ensures found { is_open self.new
            → IfOk result (λ topups. AreTopUpsOf (content self.old) account.now topups.items) }
        ensures reads { Reads content is_sound is_open is_steady left self.old self.new result };

    /// The row at the least key after the given one, or at the least of all.
    fn next_session(&mut self, after: Option<&Key>) -> Result<Option<Row>, Unavailable>
        ensures found { is_open self.new
            → IfOk result (λ row. IsNextRow (content self.old) (option_copied after.entry) row) }
        ensures reads { Reads content is_sound is_open is_steady left self.old self.new result };

    /// The least account after the given one, or the least of all, with its balance.
    fn next_account(&mut self, after: Option<&[u8]>) -> Result<Option<(Vec<u8>, i64)>, Unavailable>
        ensures found { is_open self.new
            → IfOk result (λ kept. IsNextBalance (content self.old) (option_copied after.entry)
            (option_map (λ k. (k.0.items, k.1)) kept)) }
        ensures reads { Reads content is_sound is_open is_steady left self.old self.new result };

    /// The top-up at the least number after the given one, or at the least of all.
    fn next_topup(&mut self, after: Option<&str>) -> Result<Option<TopUp>, Unavailable>
        ensures found { is_open self.new
            → IfOk result (λ topup.
            IsNextTopUp (content self.old) (option_copied after.entry) topup) }
        ensures reads { Reads content is_sound is_open is_steady left self.old self.new result };

    /// An open book is sound.
    ghost open_sound: { (book : Self) → is_open book → is_sound book };

    /// In an open book each row is kept under its own key, and each top-up under its own number.
    ghost own_keys: { (book : Self) → is_open book → HasOwnKeys (content book) };

    /// While a book is open, a crash leaves its content and nothing else.
    ghost settled: { (book : Self) → is_open book → Only (content book) (left book) };
}
