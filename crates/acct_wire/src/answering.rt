//! A datagram judged, recorded and answered.
ghost use Rattle.std.specs.Prelude.{◌≡◌, ◌↔◌, ◌≤◌, ◌<◌, ◌^◌, IfOk, IfErr, IsTrue};
ghost use Rattle.acct_model.specs.Entries.{count_at};
ghost use Rattle.acct_book.specs.Effect.{Effect};
ghost use Rattle.acct_book.specs.Step.{Does};
ghost use Rattle.acct_wire.specs.Datagrams.{IsRequest, BreaksFirst, RequestAsks};
ghost use Rattle.acct_wire.specs.Datagrams.{IsTooOld};
ghost use Rattle.acct_wire.specs.inner.Datagrams.{SpellsEntry, reason_of as reason_in};
ghost use Rattle.acct_wire.specs.inner.Datagrams.{RefusesAs, IsDropped};
ghost use Rattle.acct_wire.specs.inner.Hearing.{entry_in};
ghost use Rattle.acct_wire.specs.Outcomes.{Answers, AnswersWithin, Written};

use crate::client::{Client, Clients};
use crate::datagram::Datagram;
use crate::reason::Reason;
use acct_book::{Book, RecordError, record};
use acct_model::{Entry, EntryError, Plans, entry_of};
use radius_codec::attribute_types::ACCT_DELAY_TIME;
use radius_codec::codes::ACCOUNTING_REQUEST;
use radius_codec::{CodecError, Front, Packet, request_matches, word_of, write_response};
use std::alloc::Global;

/// The most octets of a packet (RFC 2865, section 3; RFC 2866, section 3, gives one less).
pub const LONGEST_PACKET: usize = 4096;

/// What became of a datagram.
#[derive(Clone, Copy, PartialEq, Eq, Debug)]
pub enum Outcome {
    /// Its entry was recorded, and the reply is in this many octets of the array.
    Reply(usize),
    /// Nothing is sent, for this reason, and the content of a book that is still open is as before.
    /// After `Unavailable` a crash may leave the whole entry, if the write of it shut the book.
    Drop(Reason),
}

/// Answers a datagram over a book whose content stands for a history under these plans. It judges
/// it, records its entry and writes the reply to the front of `out` (RFC 2866, sections 3 and 4).
/// It replies only after the entry was recorded. After a drop `out` is as before, and so is the
/// content of a book that is still open.
///
/// For a report it reads one row and one balance from the book and writes both by one call. For a
/// restart it closes the client's sessions by one call. Beyond that it costs reading the datagram,
/// and going through the clients once.
pub fn answer<B: Book>(
    alloc: Global,
    clients: &Clients,
    plans: &Plans,
    book: &mut B,
    datagram: &Datagram<'_>,
    out: &mut [u8; LONGEST_PACKET],
) -> Outcome
    // What it returns and what that does, over any book, and what the array then holds.
    ensures answers { (effect : Effect)
        × Answers clients.now datagram.now.source datagram.now.bytes.now datagram.now.moment
        out.new result effect
        × Does B.Book plans.now book.old book.new effect }
    ensures written { Written out.old out.new result }
{
    answer_within(alloc, clients, plans, None, book, datagram, out)
}

/// Answers a datagram as `answer` does, but drops a report that is too old: by its own delay it
/// waited for more than `oldest` seconds. It tests that before it calls the book. Without `oldest`
/// no report is too old.
pub fn answer_within<B: Book>(
    alloc: Global,
    clients: &Clients,
    plans: &Plans,
    oldest: Option<u64>,
    book: &mut B,
    datagram: &Datagram<'_>,
    out: &mut [u8; LONGEST_PACKET],
) -> Outcome
    // What it returns and what that does, over any book, and what the array then holds.
    ensures answers { (effect : Effect)
        × AnswersWithin oldest clients.now datagram.now.source datagram.now.bytes.now
        datagram.now.moment out.new result effect
        × Does B.Book plans.now book.old book.new effect }
    ensures written { Written out.old out.new result }
{
    let request = match requested(alloc, clients, oldest, datagram) {
        Ok(request) => request,
        Err(reason) => return Outcome::Drop(reason),
    };
    match record(alloc, book, plans, &request.entry) {
        Ok(_) => {
            let secret = request.client.secret.as_slice();
            Outcome::Reply(write_response(&request.packet, secret, out))
        }
        Err(RecordError::BalanceLimit(_)) => Outcome::Drop(Reason::BalanceLimit),
        Err(RecordError::VoucherDiffers(_)) => Outcome::Drop(Reason::Unavailable),
        Err(RecordError::Unavailable) => Outcome::Drop(Reason::Unavailable),
    }
}

// A client's signed request, and the entry that it spells.
#[derive(Drop)]
struct Request<'c, 'b> {
    client: &'c Client,
    packet: Packet<'b>,
    entry: Entry,
}

// What a datagram requests, judged without the book.
fn requested<'c, 'b>(
    alloc: Global,
    clients: &'c Clients,
    oldest: Option<u64>,
    datagram: &Datagram<'b>,
) -> Result<Request<'c, 'b>, Reason>
    ensures asks { IfOk result (λ request. RequestAsks clients.now datagram.now.source
        datagram.now.bytes.now datagram.now.moment request.client.now request.packet.id
        request.packet.authenticator request.packet.attributes request.entry) }
    ensures recent { IfOk result (λ request.
        ¬ IsTooOld oldest request.packet.attributes request.entry) }
    ensures dropped { IfErr result (IsDropped oldest clients.now datagram.now.source
        datagram.now.bytes.now datagram.now.moment) }
{
    let Some(client) = clients.at(datagram.source) else {
        return Err(Reason::UnknownClient);
    };
    let packet = match request_in(client.secret.as_slice(), datagram.bytes) {
        Ok(packet) => packet,
        Err(reason) => return Err(reason),
    };
    let entry = match asked_of(alloc, clients, client, &packet, datagram.moment) {
        Ok(entry) => entry,
        Err(reason) => return Err(reason),
    };
    if is_too_old(&entry, oldest, &packet) {
        return Err(Reason::TooOld);
    }
    Ok(Request {
        client,
        packet,
        entry,
    })
}

// Whether an entry is a report that waited for more than so many seconds, by its packet. The delay
// is asked, and not the report's own moment: that is cut at 0 if the clock lags behind the delay.
fn is_too_old(entry: &Entry, oldest: Option<u64>, packet: &Packet<'_>) -> bool
    ensures { IsTrue result ↔ IsTooOld oldest packet.now.attributes entry.now }
{
    match (oldest, entry) {
        (Some(oldest), Entry::Report(_)) => oldest < u64::from(delay_of(packet)),
        _ => false,
    }
}

// Acct-Delay-Time in seconds, 0 if there is none.
fn delay_of(packet: &Packet<'_>) -> u32
    ensures { result ≡ count_at ACCT_DELAY_TIME packet.now.attributes }
{
    match packet.attributes.first(ACCT_DELAY_TIME) {
        Some(value) => word_of(value).unwrap_or(0),
        None => 0,
    }
}

// The signed request at the front of a datagram.
fn request_in<'b>(secret: &[u8], bytes: &'b [u8]) -> Result<Packet<'b>, Reason>
    ensures request { IfOk result (λ packet. IsRequest secret.now bytes.now packet.id
        packet.authenticator packet.attributes) }
    ensures breaks { IfErr result (BreaksFirst secret.now bytes.now) }
{
    let front = match Front::of(bytes) {
        Ok(front) => front,
        Err(CodecError::TooShort) => return Err(Reason::TooShort),
        Err(_) => return Err(Reason::BadLength),
    };
    if front.code() != ACCOUNTING_REQUEST {
        return Err(Reason::WrongCode);
    }
    if !request_matches(&front, secret) {
        return Err(Reason::BadAuthenticator);
    }
    match front.packet() {
        Some(packet) => Ok(packet),
        None => Err(Reason::BadAttribute),
    }
}

// The entry that a request spells, as the site hears the client.
fn asked_of(
    alloc: Global,
    clients: &Clients,
    client: &Client,
    packet: &Packet<'_>,
    moment: u64,
) -> Result<Entry, Reason>
    requires { moment < 2 ^ 53 }
    ensures asked { IfOk result (SpellsEntry clients.now.stamping client.now.name
        packet.now.attributes moment) }
    ensures refused { IfErr result (RefusesAs packet.now.attributes) }
{
    let name = client.name.as_str();
    match entry_of(alloc, name, packet, moment) {
        Ok(entry) => heard(alloc, clients, name, packet, entry),
        Err(error) => Err(reason_of(error)),
    }
}

// The entry of a client's packet, as the site hears the client.
fn heard(
    alloc: Global,
    clients: &Clients,
    name: &str,
    packet: &Packet<'_>,
    entry: Entry,
) -> Result<Entry, Reason>
    ensures heard { IfOk result (λ heard. heard
        ≡ entry_in clients.now.stamping name.now packet.now.attributes entry) }
    ensures memory { IfErr result (λ reason. reason ≡ Reason.Unavailable) }
{
    let Some(stamping) = clients.stamping() else {
        return Ok(entry);
    };
    let Some(client) = stamping.called(name) else {
        return Ok(entry);
    };
    match client.hear(alloc, name, &stamping.secrets, packet, entry) {
        Ok(entry) => Ok(entry),
        Err(_) => Err(Reason::Unavailable),
    }
}

// How a refusal of attributes is a reason.
fn reason_of(error: EntryError) -> Reason
    ensures { result ≡ reason_in error }
{
    match error {
        EntryError::NoStatus => Reason::NoStatus,
        EntryError::UnknownStatus => Reason::UnknownStatus,
        EntryError::NoSessionId => Reason::NoSessionId,
        EntryError::BadField => Reason::BadField,
        EntryError::TotalTooLarge => Reason::TotalTooLarge,
        EntryError::Memory => Reason::Unavailable,
    }
}
