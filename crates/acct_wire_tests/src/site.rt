//! The sample site over a book in memory, of which a call can be refused.
use acct_book::MemBook;
use acct_book_fakes::FailingBook;
use acct_model::Plans;
use acct_site::{sample_clients, sample_plans};
use acct_wire::{Clients, Datagram, Outcome, Stamping, answer};
use std::alloc::Global;
use std::test::Fail;

// A reply without Proxy-States.
pub(crate) const SHORT_REPLY: Outcome = Outcome::Reply(20);

// The sample site, its book, and the array that its replies are written to.
#[derive(Drop)]
pub(crate) struct Site {
    pub(crate) book: FailingBook<MemBook>,
    pub(crate) out: [u8; 4096],
    alloc: Global,
    clients: Clients,
    plans: Plans,
}

impl Site {
    // The site over an empty book that refuses no call, if its client is heard so.
    pub(crate) fn new(alloc: Global, stamping: Option<Stamping>) -> Result<Site, Fail> {
        let clients = sample_clients(alloc)?.heard_by(stamping);
        let plans = sample_plans(alloc)?;
        Ok(Site {
            book: FailingBook::new(MemBook::new(alloc), 0),
            out: [0; 4096],
            alloc,
            clients,
            plans,
        })
    }

    // Answers a datagram from the address of the client.
    pub(crate) fn answer(&mut self, bytes: &[u8]) -> Outcome {
        let datagram = Datagram {
            source: [10, 0, 0, 1],
            bytes,
            moment: 1_795_329_300,
        };
        answer(
            self.alloc,
            &self.clients,
            &self.plans,
            &mut self.book,
            &datagram,
            &mut self.out,
        )
    }
}
