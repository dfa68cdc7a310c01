//! A book that fails one call.
ghost use Rattle.std.specs.Prelude.{◌≡◌, ◌↔◌, ◌-◌, IsErr};

use acct_book::{Book, Key, Row, Unavailable};
use acct_model::TopUp;

/// A book that returns `Unavailable` at one call, and passes each other call on.
#[derive(Drop)]
pub struct FailingBook<B> {
    /// The book that the other calls go to.
    pub book: B,
    /// How many calls until one fails, that one counted. At 0 no call fails.
    pub calls_left: u64,
}

impl<B: Book> FailingBook<B> {
    /// A book that fails the call of this number, counting the next one as 1. At 0 it fails none.
    pub fn new(book: B, calls_left: u64) -> FailingBook<B>
        ensures book { result.book ≡ book }
        ensures calls { result.calls_left ≡ calls_left }
    {
        FailingBook { book, calls_left }
    }

    // Counts a call, and fails it if it is the one.
    fn count(&mut self) -> Result<(), Unavailable>
        ensures book { self.new.book ≡ self.old.book }
        ensures calls { self.new.calls_left ≡ self.old.calls_left - 1 }
        ensures refused { IsErr result ↔ (self.old.calls_left ≡ 1) }
    {
        let is_refused = self.calls_left == 1;
        self.calls_left = self.calls_left.saturating_sub(1);
        if is_refused {
            return Err(Unavailable);
        }
        Ok(())
    }
}

impl<B: Book> Book for FailingBook<B> {
    ghost content = { λ s. B.content s.book };

    ghost is_sound = { λ s. B.is_sound s.book };

    ghost is_open = { λ s. B.is_open s.book };

    ghost is_steady = { λ _. ⊥ };

    ghost left = { λ s. B.left s.book };

    fn session(&mut self, key: &Key) -> Result<Option<Row>, Unavailable> {
        self.count()?;
        self.book.session(key)
    }

    fn balance(&mut self, account: &[u8]) -> Result<i64, Unavailable> {
        self.count()?;
        self.book.balance(account)
    }

    fn voucher(&mut self, number: &str) -> Result<Option<TopUp>, Unavailable> {
        self.count()?;
        self.book.voucher(number)
    }

    fn put_session(&mut self, row: &Row, balance: i64) -> Result<(), Unavailable> {
        self.count()?;
        self.book.put_session(row, balance)
    }

    fn put_topup(&mut self, topup: &TopUp, balance: i64) -> Result<(), Unavailable> {
        self.count()?;
        self.book.put_topup(topup, balance)
    }

    fn close_client(&mut self, client: &str) -> Result<(), Unavailable> {
        self.count()?;
        self.book.close_client(client)
    }

    fn put_forward(&mut self, gone: &[Key], row: &Row) -> Result<(), Unavailable> {
        self.count()?;
        self.book.put_forward(gone, row)
    }

    fn sessions_of(&mut self, account: &[u8]) -> Result<Vec<Row>, Unavailable> {
        self.count()?;
        self.book.sessions_of(account)
    }

    fn keys_of(&mut self, account: &[u8]) -> Result<Vec<Key>, Unavailable> {
        self.count()?;
        self.book.keys_of(account)
    }

    fn topups_of(&mut self, account: &[u8]) -> Result<Vec<TopUp>, Unavailable> {
        self.count()?;
        self.book.topups_of(account)
    }

    fn next_session(&mut self, after: Option<&Key>) -> Result<Option<Row>, Unavailable> {
        self.count()?;
        self.book.next_session(after)
    }

    fn next_account(
        &mut self,
        after: Option<&[u8]>,
    ) -> Result<Option<(Vec<u8>, i64)>, Unavailable> {
        self.count()?;
        self.book.next_account(after)
    }

    fn next_topup(&mut self, after: Option<&str>) -> Result<Option<TopUp>, Unavailable> {
        self.count()?;
        self.book.next_topup(after)
    }

    ghost open_sound = { λ s told. B.open_sound s.book told };

    ghost own_keys = { λ s told. B.own_keys s.book told };

    ghost settled = { λ s told c h. B.settled s.book told c h };
}
