//! One event, one answer.
ghost use Rattle.std.specs.Prelude.{◌≡◌, ◌||◌, None};
ghost use Rattle.acct_service.specs.Machine.{TakesStep, answer_of, answers_datagram};

use crate::event::{Event, What};
use crate::outbox::Outbox;
use crate::rules::Rules;
use acct_book::Book;
use acct_site::Config;
use acct_wire::{Datagram, Reason};
use std::alloc::Global;

/// How an event was answered.
#[derive(Clone, Copy, PartialEq, Eq, Debug)]
pub enum Turn {
    /// The octets in the outbox are to be sent.
    Reply,
    /// The datagram was dropped, and nothing has changed, if the book goes on answering.
    Dropped(Reason),
    /// There was no memory for a response of the desk. Nothing was recorded.
    Mute,
}

/// Answers one event over a book whose content stands for a history under the plans of the
/// configuration: a datagram by `acct_wire::answer`, a desk request by `acct_desk::handle`. It
/// makes one step of the machine, whose answer is `Turn`, with the octets of the outbox.
///
/// Its cost is that of these two calls. The octets of the answer are not copied.
pub fn step<B: Book>(
    alloc: Global,
    config: &Config,
    book: &mut B,
    event: &Event,
    out: &mut Outbox,
) -> Turn
    ensures { TakesStep B.Book None config.now event.now.moment event.now.what book.old book.new
        (answer_of result out.new.octets) }
{
    let rules = Rules {
        config,
        oldest: None,
    };
    step_within(alloc, &rules, book, event, out)
}

/// Answers one event as `step` does, but drops a report whose Acct-Delay-Time is more than
/// `rules.oldest` seconds (`acct_wire::answer_within`), if that is limited.
/// The outbox keeps that a datagram was answered with a reply.
pub fn step_within<B: Book>(
    alloc: Global,
    rules: &Rules<'_>,
    book: &mut B,
    event: &Event,
    out: &mut Outbox,
) -> Turn
    ensures step { TakesStep B.Book rules.now.oldest rules.now.config.now event.now.moment
        event.now.what book.old book.new (answer_of result out.new.octets) }
    ensures answered { out.new.has_answered ≡ (answers_datagram event.now.what
        (answer_of result out.new.octets) || out.old.has_answered) }
{
    match &event.what {
        What::Datagram {
            source,
            port: _,
            bytes,
        } => {
            let datagram = Datagram {
                source: *source,
                bytes: bytes.as_slice(),
                moment: event.moment,
            };
            out.answer_datagram(alloc, rules, book, &datagram)
        }
        What::Desk { bytes } => {
            out.answer_request(alloc, rules.config, book, bytes.as_slice(), event.moment)
        }
    }
}
