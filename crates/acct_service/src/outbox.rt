//! Answers datagrams and requests, and holds the octets to send.
ghost use Rattle.std.specs.Prelude.{◌≡◌, ◌≤◌, ◌<◌, ◌^◌, [], ℕ, Option, false, ◌||◌};
ghost use Rattle.acct_service.specs.declared.event.What.TheVariants as what;
ghost use Rattle.acct_service.specs.Machine.{TakesStep, answer_of, is_reply};

use crate::rules::Rules;
use crate::stepping::Turn;
use acct_book::Book;
use acct_desk::handle;
use acct_site::Config;
use acct_wire::{Datagram, LONGEST_PACKET, Outcome, answer_within};
use std::alloc::Global;
use std::marker::Model;

/// The octets of an answer. The reply to a datagram is in an array that is made once. A response of
/// the desk is kept as the desk returned it. It also keeps whether a datagram was answered. Contracts
/// see it as these octets and that.
pub struct Outbox {
    reply: [u8; LONGEST_PACKET],
    size: usize,
    response: Option<Vec<u8>>,
    has_answered: bool,
}

impl Drop for Outbox {
    fn drop(self) {
        let Outbox {
            reply: _,
            size: _,
            response: _,
            has_answered: _,
        } = self;
    }
}

impl Model for Outbox {
    ghost use Rattle.std.specs.Prelude.{◌≤◌};
    ghost use Rattle.acct_service.specs.Sending.{Held, held};

    ghost Value = { Held };

    ghost view = { λ o. held o.reply o.size o.response o.has_answered };

    ghost use Rattle.acct_wire.specs.declared.answering.TheConstants.{LONGEST_PACKET};

    ghost invariant = { λ o. o.size ≤ LONGEST_PACKET };
}

impl Outbox {
    /// An empty outbox. It allocates no memory.
    pub fn new() -> Outbox
        ensures octets { result.octets ≡ [] }
        ensures none { result.has_answered ≡ false }
    {
        Outbox {
            reply: [0; LONGEST_PACKET],
            size: 0,
            response: None,
            has_answered: false,
        }
    }

    /// The octets of the last reply or response. It allocates no memory.
    pub fn bytes(&self) -> &[u8]
        ensures { result.now ≡ self.now.octets }
    {
        match &self.response {
            Some(response) => response.as_slice(),
            None => &self.reply[..self.size],
        }
    }

    // Whether a datagram was answered with a reply since `forget_answers`.
    pub(crate) fn has_answered(&self) -> bool
        ensures { result ≡ self.now.has_answered }
    {
        self.has_answered
    }

    // From now on no datagram was answered, until one is.
    pub(crate) fn forget_answers(&mut self)
        ensures { self.new.has_answered ≡ false }
    {
        self.has_answered = false;
    }

    // Answers a datagram, and keeps the reply.
    pub(crate) fn answer_datagram<B: Book>(
        &mut self,
        alloc: Global,
        rules: &Rules<'_>,
        book: &mut B,
        datagram: &Datagram<'_>,
    ) -> Turn
        ensures step { (port : ℕ) → TakesStep B.Book rules.now.oldest rules.now.config.now
            datagram.now.moment (what.Datagram datagram.now.source port datagram.now.bytes.now) book.old book.new
            (answer_of result self.new.octets) }
        ensures answered { self.new.has_answered
            ≡ (is_reply (answer_of result self.new.octets) || self.old.has_answered) }
    {
        let outcome = answer_within(
            alloc,
            &rules.config.clients,
            &rules.config.plans,
            rules.oldest,
            book,
            datagram,
            &mut self.reply,
        );
        match outcome {
            Outcome::Reply(size) => {
                self.size = size;
                self.response = None;
                self.has_answered = true;
                Turn::Reply
            }
            Outcome::Drop(reason) => Turn::Dropped(reason),
        }
    }

    // Answers a request at the desk, and keeps the response.
    pub(crate) fn answer_request<B: Book>(
        &mut self,
        alloc: Global,
        config: &Config,
        book: &mut B,
        bytes: &[u8],
        moment: u64,
    ) -> Turn
        requires { moment < 2 ^ 53 }
        ensures step { (oldest : Option ℕ) → TakesStep B.Book oldest config.now moment
            (what.Desk bytes.now) book.old book.new (answer_of result self.new.octets) }
        ensures answered { self.new.has_answered ≡ self.old.has_answered }
    {
        match handle(alloc, &config.keys, &config.plans, book, bytes, moment) {
            Ok(response) => {
                self.response = Some(response);
                Turn::Reply
            }
            Err(_) => Turn::Mute,
        }
    }
}
