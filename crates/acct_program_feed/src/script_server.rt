//! A configuration with its book: what answers datagrams.
ghost use Rattle.std.specs.Prelude.{◌≡◌};
ghost use Rattle.acct_book.specs.Effect.{Effect};
ghost use Rattle.acct_book.specs.Step.{Does};
ghost use Rattle.acct_wire.specs.Outcomes.{Answers, Written};
ghost use Rattle.acct_program_feed.specs.Answers.{ReplyFits};

use acct_book::Book;
use acct_site::Config;
use acct_wire::{Datagram, LONGEST_PACKET, Outcome, answer};
use std::alloc::Global;

/// A configuration with its book, and a buffer for a reply.
pub struct Server<B> {
    /// The allocator of the book's rows.
    pub alloc: Global,
    /// Who may send, and what sessions cost.
    pub config: Config,
    /// What was accepted.
    pub book: B,
    /// The last reply, at its front.
    pub reply: [u8; LONGEST_PACKET],
}

impl<B: Drop> Drop for Server<B> {
    fn drop(self) {
        let Server {
            alloc: _,
            config: _,
            book: _,
            reply: _,
        } = self;
    }
}

impl<B: Book> Server<B> {
    /// A configuration with a book.
    pub fn new(alloc: Global, config: Config, book: B) -> Server<B>
        ensures config { result.config ≡ config }
        ensures book { result.book ≡ book }
    {
        Server {
            alloc,
            config,
            book,
            reply: [0; LONGEST_PACKET],
        }
    }

    /// Answers a datagram. The reply, if it gets one, is at the front of `reply`.
    pub fn answer(&mut self, datagram: &Datagram<'_>) -> Outcome
        ensures answers { (effect : Effect)
            × Answers self.old.config.clients datagram.now.source datagram.now.bytes.now
            datagram.now.moment self.new.reply result effect
            × Does B.Book self.old.config.plans self.old.book self.new.book effect }
        ensures written { Written self.old.reply self.new.reply result }
        ensures fits { ReplyFits result }
        ensures same_config { self.new.config ≡ self.old.config }
    {
        answer(
            self.alloc,
            &self.config.clients,
            &self.config.plans,
            &mut self.book,
            datagram,
            &mut self.reply,
        )
    }
}
