//! A book whose store shuts at a failed write.
ghost use Rattle.std.specs.Prelude.{◌≡◌, ◌↔◌, ◌-◌, false, IsOk, IsErr};
ghost use Rattle.acct_book.specs.Memory.{content_of};

use acct_book::{Book, Key, MemBook, Row, Unavailable};
use acct_model::TopUp;
use std::alloc::Global;

/// A book that is written twice, as a store writes its memory and then its disk. It is shut from
/// the first write to the end of the second. If the second fails, each later call fails, and a
/// crash may leave the content without the write or with it.
#[derive(Drop)]
pub struct ShutBook {
    present: MemBook,
    durable: MemBook,
    writes_left: u64,
    is_shut: bool,
    ghost in_step: { is_shut ≡ false → content_of present ≡ content_of durable },
}

impl ShutBook {
    ghost use Rattle.std.specs.Prelude.{◌⊎◌};
    ghost use Rattle.acct_book.specs.Book.{Only};
    ghost use Rattle.acct_book.specs.Content.{empty_content};

    /// An empty book that shuts at the write after so many.
    pub fn new(alloc: Global, writes_left: u64) -> ShutBook
        ensures content { ⟦<ShutBook as Book>⟧.content result ≡ empty_content }
        ensures open { ⟦<ShutBook as Book>⟧.is_open result }
        ensures writes { result.writes_left ≡ writes_left }
    {
        ShutBook {
            present: MemBook::new(alloc),
            durable: MemBook::new(alloc),
            writes_left,
            is_shut: false,
        }
    }

    /// Whether a write has failed in its midst. Then each call fails.
    pub fn is_shut(&self) -> bool
        ensures { result ≡ false ↔ ⟦<ShutBook as Book>⟧.is_open self.now }
    {
        self.is_shut
    }

    // Fails if the book is shut.
    fn check_open(&self) -> Result<(), Unavailable>
        ensures { IsOk result ↔ (self.now.is_shut ≡ false) }
    {
        if self.is_shut {
            return Err(Unavailable);
        }
        Ok(())
    }

    // Takes one of the writes that are left, and fails if there is none.
    fn take_write(&mut self) -> Result<(), Unavailable>
        ensures present { self.new.present ≡ self.old.present }
        ensures durable { self.new.durable ≡ self.old.durable }
        ensures shut { self.new.is_shut ≡ self.old.is_shut }
        ensures writes { self.new.writes_left ≡ self.old.writes_left - 1 }
        ensures refused { IsErr result ↔ (self.old.writes_left ≡ 0) }
    {
        if self.writes_left == 0 {
            return Err(Unavailable);
        }
        self.writes_left -= 1;
        Ok(())
    }
}

impl Book for ShutBook {
    ghost use Rattle.std.specs.Prelude.{◌⊎◌};
    ghost use Rattle.std.proofs.Common.{◌∙◌, inl, inr};

    ghost content = { λ s. content_of s.durable };

    ghost is_sound = { λ _. Unit {0} };

    ghost is_open = { λ s. s.is_shut ≡ false };

    ghost is_steady = { λ _. ⊥ };

    ghost left = { λ s c. (c ≡ content_of s.durable) ⊎ (c ≡ content_of s.present) };

    fn session(&mut self, key: &Key) -> Result<Option<Row>, Unavailable> {
        self.check_open()?;
        self.durable.session(key)
    }

    fn balance(&mut self, account: &[u8]) -> Result<i64, Unavailable> {
        self.check_open()?;
        self.durable.balance(account)
    }

    fn voucher(&mut self, number: &str) -> Result<Option<TopUp>, Unavailable> {
        self.check_open()?;
        self.durable.voucher(number)
    }

    fn put_session(&mut self, row: &Row, balance: i64) -> Result<(), Unavailable> {
        self.check_open()?;
        self.present.put_session(row, balance)?;
        self.is_shut = true;
        self.take_write()?;
        self.durable.put_session(row, balance)?;
        self.is_shut = false;
        Ok(())
    }

    fn put_topup(&mut self, topup: &TopUp, balance: i64) -> Result<(), Unavailable> {
        self.check_open()?;
        self.present.put_topup(topup, balance)?;
        self.is_shut = true;
        self.take_write()?;
        self.durable.put_topup(topup, balance)?;
        self.is_shut = false;
        Ok(())
    }

    fn close_client(&mut self, client: &str) -> Result<(), Unavailable> {
        self.check_open()?;
        self.present.close_client(client)?;
        self.is_shut = true;
        self.take_write()?;
        self.durable.close_client(client)?;
        self.is_shut = false;
        Ok(())
    }

    fn put_forward(&mut self, gone: &[Key], row: &Row) -> Result<(), Unavailable> {
        self.check_open()?;
        self.present.put_forward(gone, row)?;
        self.is_shut = true;
        self.take_write()?;
        self.durable.put_forward(gone, row)?;
        self.is_shut = false;
        Ok(())
    }

    fn sessions_of(&mut self, account: &[u8]) -> Result<Vec<Row>, Unavailable> {
        self.check_open()?;
        self.durable.sessions_of(account)
    }

    fn keys_of(&mut self, account: &[u8]) -> Result<Vec<Key>, Unavailable> {
        self.check_open()?;
        self.durable.keys_of(account)
    }

    fn topups_of(&mut self, account: &[u8]) -> Result<Vec<TopUp>, Unavailable> {
        self.check_open()?;
        self.durable.topups_of(account)
    }

    fn next_session(&mut self, after: Option<&Key>) -> Result<Option<Row>, Unavailable> {
        self.check_open()?;
        self.durable.next_session(after)
    }

    fn next_account(
        &mut self,
        after: Option<&[u8]>,
    ) -> Result<Option<(Vec<u8>, i64)>, Unavailable> {
        self.check_open()?;
        self.durable.next_account(after)
    }

    fn next_topup(&mut self, after: Option<&str>) -> Result<Option<TopUp>, Unavailable> {
        self.check_open()?;
        self.durable.next_topup(after)
    }

    ghost open_sound = { λ _ _. tt };

    ghost own_keys = { λ s _. s.durable.own_keys };

    ghost settled = { λ s told c h. elim h [ inl is ↦ is | inr is ↦ is ∙ s.in_step told ] };
}
