//! The lines that `feed` reads.
//!
//! One space each separates the words of a line. A number is 1 to 20 decimal digits. Octets are
//! hexadecimal digits or `-`. An account or a session id is shown as `acct_model::show` shows it,
//! or as `-` if it is empty.
ghost use Rattle.std.specs.Prelude.{◌≡◌, ℕ, List, [], ◌∷◌, codes, IfOk, IfErr, IfSome};
ghost use Rattle.std.specs.Prelude.{MatchOption};
ghost use Rattle.acct_model.specs.Vouchers.{TopUpFacts};
ghost use Rattle.acct_book.specs.declared.key.Key.{Key};
ghost use Rattle.acct_program_feed.specs.Words.{words as words_in};
ghost use Rattle.acct_program_feed.specs.Line.{HasMoment, SpellsLine, IsBad, AreWordsOf, AreSigned};
ghost use Rattle.acct_program_feed.specs.Line.{ArePacket};
ghost use Rattle.acct_program_feed.specs.Line.{AreBalance, AreTopUp, AreSession};
ghost use Rattle.acct_program_feed.specs.declared.line_fault.LineFault.TheVariants.{Bad as bad};

use crate::line_fault::LineFault;
use crate::octet_words::{octets_of, octets_shown};
use crate::words::{cut_word, four_words, one_word, three_words, two_words};
use acct_book::Key;
use acct_model::{
    LAST_MOMENT, MOST_DIGITS, Octets, Text, TopUp, address_of, number_of, number_up_to,
};
use std::alloc::Global;

/// What a line asks for.
#[derive(Drop)]
pub enum Line {
    /// To sign a request of these attributes as a client does, and to answer it.
    Signed {
        /// When it is received, in seconds since 1970.
        moment: u64,
        /// The client's name.
        client: Text,
        /// The request's identifier.
        identifier: u8,
        /// The octets of its attributes.
        octets: Octets,
    },
    /// To answer a datagram.
    Packet {
        /// When it is received, in seconds since 1970.
        moment: u64,
        /// Its IPv4 source address.
        source: [u8; 4],
        /// Its octets.
        octets: Octets,
    },
    /// To print the balance of an account.
    Balance {
        /// The account.
        account: Octets,
    },
    /// To credit a voucher.
    TopUp {
        /// The voucher, its account and its sum.
        topup: TopUp,
    },
    /// To print the row of a session.
    Session {
        /// The session's key.
        key: Key,
    },
}

/// What a line asks for, or none if it is empty.
///
/// # Errors
///
/// `Bad` exactly if no line has this text, unless an allocation fails before that is known.
/// `NoMemory` if its octets cannot be kept.
pub fn read_line(alloc: Global, text: &str) -> Result<Option<Line>, LineFault>
    ensures spelled { IfOk result (λ line. MatchOption line (text.now ≡ []) (SpellsLine text.now)) }
    ensures refused { IfErr result (λ fault. fault ≡ bad → IsBad text.now) }
    ensures moment { IfOk result (λ line. IfSome line HasMoment) }
{
    if text.is_empty() {
        return Ok(None);
    }
    let (kind, words) = cut_word(text).ok_or(LineFault::Bad)?;
    let line = match kind {
        "signed" => read_signed(alloc, words)?,
        "packet" => read_packet(alloc, words)?,
        "balance" => read_balance(alloc, words)?,
        "topup" => read_topup(alloc, words)?,
        "session" => read_session(alloc, words)?,
        _ => return Err(LineFault::Bad),
    };
    Ok(Some(line))
}

// `MOMENT CLIENT IDENTIFIER OCTETS`.
fn read_signed(alloc: Global, words: &str) -> Result<Line, LineFault>
    ensures spelled { IfOk result (AreWordsOf (codes "signed" ∷ words_in words.now)) }
    ensures refused { IfErr result (λ fault. fault ≡ bad → (moment identifier : ℕ)
        (client octets : List ℕ)
        → AreSigned (codes "signed" ∷ words_in words.now) moment client identifier octets → ⊥) }
    ensures moment { IfOk result HasMoment }
{
    let (moment, client, identifier, octets) = four_words(words).ok_or(LineFault::Bad)?;
    let moment = number_up_to(moment, LAST_MOMENT).ok_or(LineFault::Bad)?;
    let identifier = number_up_to(identifier, 255).ok_or(LineFault::Bad)? as u8;
    let octets = octets_of(alloc, octets)?;
    let client = Text::from_str(alloc, client)?;
    Ok(Line::Signed {
        moment,
        client,
        identifier,
        octets,
    })
}

// `MOMENT ADDRESS OCTETS`.
fn read_packet(alloc: Global, words: &str) -> Result<Line, LineFault>
    ensures spelled { IfOk result (AreWordsOf (codes "packet" ∷ words_in words.now)) }
    ensures refused { IfErr result (λ fault. fault ≡ bad → (moment : ℕ) (source octets : List ℕ)
        → ArePacket (codes "packet" ∷ words_in words.now) moment source octets → ⊥) }
    ensures moment { IfOk result HasMoment }
{
    let (moment, source, octets) = three_words(words).ok_or(LineFault::Bad)?;
    let moment = number_up_to(moment, LAST_MOMENT).ok_or(LineFault::Bad)?;
    let Some(source) = address_of(source) else {
        return Err(LineFault::Bad);
    };
    let octets = octets_of(alloc, octets)?;
    Ok(Line::Packet {
        moment,
        source,
        octets,
    })
}

// `ACCOUNT`.
fn read_balance(alloc: Global, words: &str) -> Result<Line, LineFault>
    ensures spelled { IfOk result (AreWordsOf (codes "balance" ∷ words_in words.now)) }
    ensures refused { IfErr result (λ fault. fault ≡ bad → (account : List ℕ)
        → AreBalance (codes "balance" ∷ words_in words.now) account → ⊥) }
    ensures moment { IfOk result HasMoment }
{
    let account = one_word(words).ok_or(LineFault::Bad)?;
    let account = octets_shown(alloc, account)?;
    Ok(Line::Balance { account })
}

// `MOMENT VOUCHER ACCOUNT SUM`.
fn read_topup(alloc: Global, words: &str) -> Result<Line, LineFault>
    ensures spelled { IfOk result (AreWordsOf (codes "topup" ∷ words_in words.now)) }
    ensures refused { IfErr result (λ fault. fault ≡ bad → (topup : TopUpFacts)
        → AreTopUp (codes "topup" ∷ words_in words.now) topup → ⊥) }
    ensures moment { IfOk result HasMoment }
{
    let (moment, voucher, account, sum) = four_words(words).ok_or(LineFault::Bad)?;
    let moment = number_up_to(moment, LAST_MOMENT).ok_or(LineFault::Bad)?;
    let sum = number_of(sum.as_bytes(), MOST_DIGITS).ok_or(LineFault::Bad)?;
    let account = octets_shown(alloc, account)?;
    let topup = TopUp::new(alloc, voucher, account.as_slice(), sum, moment)?;
    Ok(Line::TopUp { topup })
}

// `CLIENT SESSION`.
fn read_session(alloc: Global, words: &str) -> Result<Line, LineFault>
    ensures spelled { IfOk result (AreWordsOf (codes "session" ∷ words_in words.now)) }
    ensures refused { IfErr result (λ fault. fault ≡ bad → (key : Key)
        → AreSession (codes "session" ∷ words_in words.now) key → ⊥) }
    ensures moment { IfOk result HasMoment }
{
    let (client, session) = two_words(words).ok_or(LineFault::Bad)?;
    let session = octets_shown(alloc, session)?;
    let client = Text::from_str(alloc, client)?;
    Ok(Line::Session {
        key: Key { client, session },
    })
}
