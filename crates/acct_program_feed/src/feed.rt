//! `feed`: a script of packets, vouchers and questions, answered over a book.
//!
//! 1. The whole input is read before its first line is answered.
//! 2. A line ends at octet 10 or with the input; an empty line is skipped.
//! 3. A line that isn't UTF-8 or isn't in the language is a bad line. It is answered as one, and
//!    the run goes on.
//! 4. A run ends early if an allocation or a writer fails.
ghost use Rattle.std.specs.Prelude.{◌≡◌, ◌≢◌, ◌^◌, ◌<◌, ◌≤◌, [], true, IfOk, IfSome};
ghost use Rattle.std.specs.Prelude.{List, ℕ, MatchOption, length};
ghost use Rattle.radius_codec.specs.Packet.{request_octets};
ghost use Rattle.acct_program_feed.specs.Feed.{Ran, AnswersParsed, AnswersLine};
ghost use Rattle.acct_program_feed.specs.inner.Feed.{Prints};
ghost use Rattle.acct_program_feed.specs.Feed.{FeedsDatagram, AnswersSigned};
ghost use Rattle.acct_program_feed.specs.Feed.{AnswersBalance, AnswersTopUp, AnswersSession};
ghost use Rattle.acct_program_feed.specs.Answers.{packet_answer};
ghost use Rattle.acct_program_feed.specs.Line.{HasMoment};

use crate::answer::Answer;
use crate::line::{Line, read_line};
use crate::line_fault::LineFault;
use crate::lines::Lines;
use crate::script_server::Server;
use crate::stop::Stop;
use acct_book::{Book, Key, record};
use acct_model::{Entry, TopUp};
use acct_program::{InputFault, Status, read_input};
use acct_site::Config;
use acct_wire::{Client, Datagram, LONGEST_PACKET};
use radius_codec::sign_request;
use std::alloc::Global;
use std::io::{Read, Write};
use std::str;

/// Answers the lines of the reader over a book. Returns how the run ended.
pub fn answer_reader<B: Book + Drop, R: Read, W: Write>(
    alloc: Global,
    config: Config,
    book: B,
    reader: &mut R,
    writer: &mut W,
) -> Status
    ensures words { result ≢ Status.BadCommandLine }
    ensures ran { result ≡ Status.Done → (input : List ℕ)
        × IfSome (R.remaining reader.old) (λ all. input ≡ all) × (new : B)
        × Ran B.Book config.clients config.plans
        book new input [] true (W.contents writer.old) (W.contents writer.new) }
{
    match read_input(alloc, reader) {
        Ok(input) => answer_input(alloc, config, book, &input, writer),
        Err(InputFault::TooLong) => end(writer, "too long", Status::Refused),
        Err(InputFault::CannotRead) => end(writer, "cannot read", Status::Refused),
        Err(InputFault::NoMemory) => end(writer, "unavailable", Status::Unavailable),
    }
}

/// Answers the lines of an input over a book. Returns how the run ended. The book is dropped at the
/// end, so `ran` only says that there is such a book. That is enough for a store that is always
/// sound, such as one in memory.
pub fn answer_input<B: Book + Drop, W: Write>(
    alloc: Global,
    config: Config,
    book: B,
    input: &[u8],
    writer: &mut W,
) -> Status
    ensures words { result ≢ Status.BadCommandLine }
    ensures ran { result ≡ Status.Done → (new : B)
        × Ran B.Book config.clients config.plans
        book new input.now [] true (W.contents writer.old) (W.contents writer.new) }
{
    match Feed::new(alloc, config, book).answer_lines(input, writer) {
        Ok(true) => Status::Done,
        Ok(false) | Err(Stop::CannotWrite) => Status::Refused,
        Err(Stop::NoMemory) => end(writer, "unavailable", Status::Unavailable),
    }
}

/// Writes the last answer of a run that ends early. Returns how the run ends.
pub fn end<W: Write>(writer: &mut W, text: &str, status: Status) -> Status
    requires words { status ≢ Status.BadCommandLine }
    requires done { status ≢ Status.Done }
    ensures words { result ≢ Status.BadCommandLine }
    ensures done { result ≢ Status.Done }
{
    match writeln!(writer, "{text}") {
        Ok(()) => status,
        Err(_) => Status::Refused,
    }
}

/// A run over a book, with a buffer for one request.
pub struct Feed<B> {
    server: Server<B>,
    request: [u8; LONGEST_PACKET],
}

impl<B: Drop> Drop for Feed<B> {
    fn drop(self) {
        let Feed {
            server: _,
            request: _,
        } = self;
    }
}

impl<B: Book> Feed<B> {
    /// A run over this book, with this configuration.
    pub fn new(alloc: Global, config: Config, book: B) -> Feed<B>
        ensures config { result.server.config ≡ config }
        ensures book { result.server.book ≡ book }
    {
        Feed {
            server: Server::new(alloc, config, book),
            request: [0; LONGEST_PACKET],
        }
    }

    /// Answers the lines of an input in their order, each over the book as the one before left it.
    /// Returns whether all were good.
    ///
    /// # Errors
    ///
    /// `CannotWrite`, and `NoMemory`: the line at which it ended may have changed the book. No
    /// clause says what was answered then.
    pub fn answer_lines<W: Write>(&mut self, input: &[u8], writer: &mut W) -> Result<bool, Stop>
        ensures ran { IfOk result (λ good. Ran B.Book
            self.old.server.config.clients self.old.server.config.plans
            self.old.server.book self.new.server.book input.now [] good
            (W.contents writer.old) (W.contents writer.new)) }
    {
        let mut are_good = true;
        for line in Lines::new(input) {
            let is_good = self.answer_line(line, writer)?;
            are_good = are_good && is_good;
        }
        Ok(are_good)
    }

    // Answers a line. Returns whether it was good.
    fn answer_line<W: Write>(&mut self, octets: &[u8], writer: &mut W) -> Result<bool, Stop>
        ensures printed { IfOk result (λ good. Prints B.Book self.old.server.config.clients
            self.old.server.config.plans
            self.old.server.book self.new.server.book octets.now good
            (W.contents writer.old) (W.contents writer.new)) }
        ensures same_config { self.new.server.config ≡ self.old.server.config }
    {
        let Some(answer) = self.answer_to(octets)? else {
            return Ok(true);
        };
        writeln!(writer, "{answer}")?;
        Ok(!matches!(answer, Answer::BadLine))
    }

    // The answer to the octets of a line. An empty line has no answer.
    fn answer_to(&mut self, octets: &[u8]) -> Result<Option<Answer>, Stop>
        ensures answers { IfOk result (AnswersLine B.Book
            self.old.server.config.clients self.old.server.config.plans
            self.old.server.book self.new.server.book octets.now) }
        ensures same_config { self.new.server.config ≡ self.old.server.config }
    {
        let Ok(text) = str::from_utf8(octets) else {
            return Ok(Some(Answer::BadLine));
        };
        match read_line(self.server.alloc, text) {
            Ok(None) => Ok(None),
            Ok(Some(line)) => Ok(Some(self.answer(line)?)),
            Err(LineFault::Bad) => Ok(Some(Answer::BadLine)),
            Err(LineFault::NoMemory) => Err(Stop::NoMemory),
        }
    }

    /// Answers a line over the book.
    ///
    /// # Errors
    ///
    /// Only `NoMemory`. The line may have changed the book then.
    pub fn answer(&mut self, line: Line) -> Result<Answer, Stop>
        requires { HasMoment line }
        ensures answers { IfOk result (AnswersParsed B.Book
            self.old.server.config.clients self.old.server.config.plans
            self.old.server.book self.new.server.book line) }
        ensures same_config { self.new.server.config ≡ self.old.server.config }
    {
        match line {
            Line::Signed {
                moment,
                client,
                identifier,
                octets,
            } => self.answer_signed(moment, client.as_str(), identifier, octets.as_slice()),
            Line::Packet {
                moment,
                source,
                octets,
            } => {
                let datagram = Datagram {
                    source,
                    bytes: octets.as_slice(),
                    moment,
                };
                self.answer_packet(&datagram)
            }
            Line::Balance { account } => self.answer_balance(account.as_slice()),
            Line::TopUp { topup } => Ok(self.answer_topup(topup)),
            Line::Session { key } => self.answer_session(&key),
        }
    }

    // Signs the attributes' octets as the client of this name does, and answers the request.
    fn answer_signed(
        &mut self,
        moment: u64,
        client: &str,
        identifier: u8,
        octets: &[u8],
    ) -> Result<Answer, Stop>
        requires { moment < 2 ^ 53 }
        ensures answers { IfOk result (AnswersSigned B.Book
            self.old.server.config.clients self.old.server.config.plans
            self.old.server.book self.new.server.book moment client.now identifier octets.now) }
        ensures same_config { self.new.server.config ≡ self.old.server.config }
    {
        let Some(client) = self.server.config.clients.named(client) else {
            return Ok(Answer::BadLine);
        };
        let Some(request) = signed_request(client, identifier, octets, &mut self.request) else {
            return Ok(Answer::BadLine);
        };
        let datagram = Datagram {
            source: client.address,
            bytes: request,
            moment,
        };
        let outcome = self.server.answer(&datagram);
        let answer = Answer::of_signed(self.server.alloc, outcome, &self.server.reply)?;
        Ok(answer)
    }

    // Answers a datagram as it was received.
    fn answer_packet(&mut self, datagram: &Datagram<'_>) -> Result<Answer, Stop>
        ensures answers { IfOk result (FeedsDatagram B.Book
            self.old.server.config.clients self.old.server.config.plans
            self.old.server.book self.new.server.book datagram.now.source datagram.now.bytes.now
            datagram.now.moment packet_answer) }
        ensures same_config { self.new.server.config ≡ self.old.server.config }
    {
        let outcome = self.server.answer(datagram);
        let answer = Answer::of_packet(self.server.alloc, outcome, &self.server.reply)?;
        Ok(answer)
    }

    fn answer_balance(&mut self, account: &[u8]) -> Result<Answer, Stop>
        ensures answers { IfOk result (AnswersBalance B.Book
            self.old.server.config.clients self.old.server.config.plans
            self.old.server.book self.new.server.book account.now) }
        ensures same_config { self.new.server.config ≡ self.old.server.config }
    {
        let told = self.server.book.balance(account);
        let answer = Answer::of_balance(self.server.alloc, account, told)?;
        Ok(answer)
    }

    // Credits a voucher.
    fn answer_topup(&mut self, topup: TopUp) -> Answer
        ensures answers { AnswersTopUp B.Book
            self.old.server.config.clients self.old.server.config.plans
            self.old.server.book self.new.server.book topup result }
        ensures same_config { self.new.server.config ≡ self.old.server.config }
    {
        let entry = Entry::TopUp(topup);
        let server = &mut self.server;
        let told = record(server.alloc, &mut server.book, &server.config.plans, &entry);
        Answer::of_voucher(told)
    }

    fn answer_session(&mut self, key: &Key) -> Result<Answer, Stop>
        ensures answers { IfOk result (AnswersSession B.Book
            self.old.server.config.clients self.old.server.config.plans
            self.old.server.book self.new.server.book key.now) }
        ensures same_config { self.new.server.config ≡ self.old.server.config }
    {
        if self
            .server
            .config
            .clients
            .named(key.client.as_str())
            .is_none()
        {
            return Ok(Answer::BadLine);
        }
        let told = self.server.book.session(key);
        let answer = Answer::of_session(self.server.alloc, &self.server.config.plans, told)?;
        Ok(answer)
    }
}

// The request of these attributes, signed as the client does, if they fit into one.
fn signed_request<'a>(
    client: &Client,
    identifier: u8,
    octets: &[u8],
    room: &'a mut [u8; LONGEST_PACKET],
) -> Option<&'a [u8]>
    ensures { MatchOption result (4076 < length octets.now) (λ request. (length octets.now ≤ 4076)
        × (request.now ≡ request_octets identifier octets.now client.now.secret)) }
{
    match sign_request(identifier, octets, client.secret.as_slice(), room) {
        Ok(size) => Some(&room[..size]),
        Err(_) => None,
    }
}
