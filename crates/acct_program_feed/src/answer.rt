//! The answer to a line. Its text is the `output` of its `Display`.
ghost use Rattle.std.specs.Prelude.{◌≡◌, ◌≤◌, ◌++◌, Some, IfOk, length, codes};
ghost use Rattle.std.specs.Fmt.{DisplaysOnOk};
ghost use Rattle.acct_program_feed.specs.Answers.{ReplyFits, answer_text, after_space, credit_text};
ghost use Rattle.acct_program_feed.specs.Answers.{packet_answer, signed_answer};
ghost use Rattle.acct_program_feed.specs.Answers.{balance_answer, credit_of, session_answer};

use crate::octet_words::{hex_of, word_of};
use crate::shown_row::ShownRow;
use acct_book::{RecordError, Recorded, Row, Unavailable};
use acct_model::{NoMemory, Plans, Text};
use acct_wire::{Outcome, Reason};
use std::alloc::{AllocError, Global};
use std::fmt;

/// The octets of a packet before its authenticator: code, identifier and length (RFC 2866, section
/// 3).
const FRONT: usize = 4;
/// The octets of a packet before its attributes (RFC 2866, section 3).
const HEADER: usize = 20;

/// The answer to a line.
#[derive(Drop)]
pub enum Answer {
    /// A reply to a request that was signed: its code, identifier and length, and its attributes,
    /// in hexadecimal digits.
    Parted {
        /// Code, identifier and length.
        front: Text,
        /// The attributes.
        attributes: Text,
    },
    /// A whole reply, in hexadecimal digits.
    Reply {
        /// Its octets.
        octets: Text,
    },
    /// A datagram was dropped.
    Dropped {
        /// Why.
        reason: Reason,
    },
    /// An account's balance.
    Balance {
        /// The account, as it is shown.
        account: Text,
        /// Its balance.
        balance: i64,
    },
    /// What became of a voucher.
    Voucher {
        /// It.
        became: Credit,
    },
    /// A session's row.
    Session {
        /// It, as it is shown.
        row: ShownRow,
    },
    /// There is no such session.
    NoSession,
    /// The book could not be read.
    Unavailable,
    /// The line isn't in the language of `feed`, or its attributes are too long to be signed.
    BadLine,
}

/// What became of a voucher.
#[derive(Clone, Copy, PartialEq, Eq, Debug)]
pub enum Credit {
    /// It was credited.
    New,
    /// It was credited before, to the same account by the same sum.
    Repeat,
    /// It was credited before, to another account or by another sum.
    Differs,
    /// The balance would leave its range.
    Limit,
    /// The book could not be read or written, or memory ran out.
    Unavailable,
}

impl fmt::Display for Credit {
    ghost output = { λ became. Some (credit_text became) };

    fn fmt<W: fmt::Write>(&self, f: &mut fmt::Formatter<W>) -> fmt::Result {
        f.write_str(match self {
            Credit::New => "new",
            Credit::Repeat => "repeat",
            Credit::Differs => "differs",
            Credit::Limit => "limit",
            Credit::Unavailable => "unavailable",
        })
    }
}

impl fmt::Display for Answer {
    ghost output = { λ answer. Some (answer_text answer) };

    fn fmt<W: fmt::Write>(&self, f: &mut fmt::Formatter<W>) -> fmt::Result {
        match self {
            Answer::Parted { front, attributes } => {
                write_parted(front.as_str(), attributes.as_str(), f)
            }
            Answer::Reply { octets } => {
                let octets = octets.as_str();
                write!(f, "reply {octets}")
            }
            Answer::Dropped { reason } => {
                let number = reason.number();
                write!(f, "drop {number}")
            }
            Answer::Balance { account, balance } => {
                let (account, balance) = (account.as_str(), *balance);
                write!(f, "balance {account} {balance}")
            }
            Answer::Voucher { became } => write!(f, "{became}"),
            Answer::Session { row } => write!(f, "{row}"),
            Answer::NoSession => f.write_str("no session"),
            Answer::Unavailable => f.write_str("unavailable"),
            Answer::BadLine => f.write_str("bad line"),
        }
    }
}

// Writes the front of a reply and its attributes, if it has some.
fn write_parted<W: fmt::Write>(
    front: &str,
    attributes: &str,
    f: &mut fmt::Formatter<W>,
) -> fmt::Result
    ensures { DisplaysOnOk W.write_str_gives f.old result
        (Some (codes "reply " ++ front.now ++ after_space attributes.now)) f.new }
{
    if attributes.is_empty() {
        return write!(f, "reply {front}");
    }
    write!(f, "reply {front} {attributes}")
}

impl Answer {
    /// The answer to a datagram, whose reply is at the front of `out`.
    ///
    /// # Errors
    ///
    /// Only if an allocation fails.
    pub fn of_packet(alloc: Global, outcome: Outcome, out: &[u8]) -> Result<Answer, AllocError>
        requires fits { ReplyFits outcome }
        requires room { 4096 ≤ length out.now }
        ensures { IfOk result (λ answer. answer ≡ packet_answer out.now outcome) }
    {
        match outcome {
            Outcome::Reply(size) => Ok(Answer::Reply {
                octets: hex_of(alloc, &out[..size])?,
            }),
            Outcome::Drop(reason) => Ok(Answer::Dropped { reason }),
        }
    }

    /// The answer to a request that was signed. Its reply is at the front of `out`.
    ///
    /// # Errors
    ///
    /// Only if an allocation fails.
    pub fn of_signed(alloc: Global, outcome: Outcome, out: &[u8]) -> Result<Answer, AllocError>
        requires fits { ReplyFits outcome }
        requires room { 4096 ≤ length out.now }
        ensures { IfOk result (λ answer. answer ≡ signed_answer out.now outcome) }
    {
        match outcome {
            Outcome::Reply(size) => Ok(Answer::Parted {
                front: hex_of(alloc, &out[..FRONT])?,
                attributes: hex_of(alloc, &out[HEADER..size])?,
            }),
            Outcome::Drop(reason) => Ok(Answer::Dropped { reason }),
        }
    }

    /// The answer for an account's balance, from what the book returned.
    ///
    /// # Errors
    ///
    /// Only if an allocation fails.
    pub fn of_balance(
        alloc: Global,
        account: &[u8],
        told: Result<i64, Unavailable>,
    ) -> Result<Answer, NoMemory>
        ensures { IfOk result (λ answer. answer ≡ balance_answer account.now told) }
    {
        match told {
            Ok(balance) => Ok(Answer::Balance {
                account: word_of(alloc, account)?,
                balance,
            }),
            Err(_) => Ok(Answer::Unavailable),
        }
    }

    /// The answer for a voucher, from what the book returned.
    pub fn of_voucher(told: Result<Recorded, RecordError>) -> Answer
        ensures { result ≡ Answer.Voucher (credit_of told) }
    {
        let became = match told {
            Ok(Recorded::New) => Credit::New,
            Ok(Recorded::Repeat) => Credit::Repeat,
            Err(RecordError::VoucherDiffers(_)) => Credit::Differs,
            Err(RecordError::BalanceLimit(_)) => Credit::Limit,
            Err(RecordError::Unavailable) => Credit::Unavailable,
        };
        Answer::Voucher { became }
    }

    /// The answer for a session, from what the book returned.
    ///
    /// # Errors
    ///
    /// Only if an allocation fails.
    pub fn of_session(
        alloc: Global,
        plans: &Plans,
        told: Result<Option<Row>, Unavailable>,
    ) -> Result<Answer, NoMemory>
        ensures { IfOk result (λ answer. answer ≡ session_answer plans.now told) }
    {
        match told {
            Ok(Some(row)) => Ok(Answer::Session {
                row: ShownRow::new(alloc, plans, &row)?,
            }),
            Ok(None) => Ok(Answer::NoSession),
            Err(Unavailable) => Ok(Answer::Unavailable),
        }
    }
}
