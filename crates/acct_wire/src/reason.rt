//! Why a datagram is dropped.
ghost use Rattle.std.specs.Prelude.{◌≡◌, ◌≤◌, ◌<◌};
ghost use Rattle.acct_wire.specs.Reasons.{reason_number, reason_name, reason_place};
ghost use Rattle.acct_wire.specs.declared.reason.TheConstants.Reason.{COUNT};

use std::error::Error;
use std::fmt;

/// Why a datagram is dropped. It is tested in the order of the numbers, except that 14 is tested
/// between 11 and 12. The number of a reason is the one that operators see.
#[derive(Clone, Copy, PartialEq, Eq, Debug)]
pub enum Reason {
    /// No client has the address that sent it (RFC 2866, section 3).
    UnknownClient = 1,
    /// It has fewer than 20 octets.
    TooShort = 2,
    /// Its Length is below 20, above 4,096 or above the datagram (RFC 2866, section 3).
    BadLength = 3,
    /// Its code isn't Accounting-Request.
    WrongCode = 4,
    /// Its authenticator isn't the digest under the client's secret (RFC 2866, section 3).
    BadAuthenticator = 5,
    /// The Length of an attribute is below 2 or past the packet's end (RFC 2865, section 5).
    BadAttribute = 6,
    /// There is no Acct-Status-Type (RFC 2866, section 5.1).
    NoStatus = 7,
    /// The Acct-Status-Type isn't four octets, or none that is known (RFC 2866, section 5.1).
    UnknownStatus = 8,
    /// A report has no Acct-Session-Id (RFC 2866, section 5.5).
    NoSessionId = 9,
    /// A number or address of a report isn't four octets (RFC 2865, section 5).
    BadField = 10,
    /// A report's input and output are above 2^63 - 1 octets together.
    TotalTooLarge = 11,
    /// The account's balance would leave its range.
    BalanceLimit = 12,
    /// The book or an allocation failed.
    Unavailable = 13,
    /// A report is older than the server accepts.
    TooOld = 14,
}

impl Reason {
    /// How many reasons there are. They are numbered from 1 on, and no number is left out.
    pub const COUNT: usize = 14;

    /// All reasons, in the order of their numbers.
    pub const ALL: [Reason; Reason::COUNT] = [
        Reason::UnknownClient,
        Reason::TooShort,
        Reason::BadLength,
        Reason::WrongCode,
        Reason::BadAuthenticator,
        Reason::BadAttribute,
        Reason::NoStatus,
        Reason::UnknownStatus,
        Reason::NoSessionId,
        Reason::BadField,
        Reason::TotalTooLarge,
        Reason::BalanceLimit,
        Reason::Unavailable,
        Reason::TooOld,
    ];

    /// The number that operators see, 1 to `COUNT`.
    pub fn number(self) -> u8
        ensures number { result ≡ reason_number self }
        ensures least { 1 ≤ result }
        ensures most { result ≤ COUNT }
    {
        self as u8
    }

    /// The place of its count in an array of counts, of which there is one for each reason in the
    /// order of the numbers.
    pub fn place(self) -> usize
        ensures place { result ≡ reason_place self }
        ensures within { result < COUNT }
    {
        self.number() as usize - 1
    }

    /// The name that operators see next to the number: that of the variant.
    pub fn name(self) -> &'static str
        ensures { result.now ≡ reason_name self }
    {
        match self {
            Reason::UnknownClient => "UnknownClient",
            Reason::TooShort => "TooShort",
            Reason::BadLength => "BadLength",
            Reason::WrongCode => "WrongCode",
            Reason::BadAuthenticator => "BadAuthenticator",
            Reason::BadAttribute => "BadAttribute",
            Reason::NoStatus => "NoStatus",
            Reason::UnknownStatus => "UnknownStatus",
            Reason::NoSessionId => "NoSessionId",
            Reason::BadField => "BadField",
            Reason::TotalTooLarge => "TotalTooLarge",
            Reason::BalanceLimit => "BalanceLimit",
            Reason::Unavailable => "Unavailable",
            Reason::TooOld => "TooOld",
        }
    }

    // What is wrong, in words.
    fn words(self) -> &'static str {
        match self {
            Reason::UnknownClient => "no client has this address",
            Reason::TooShort => "the datagram has fewer than 20 octets",
            Reason::BadLength => "the Length field is below 20, above 4096 or above the datagram",
            Reason::WrongCode => "the packet is no Accounting-Request",
            Reason::BadAuthenticator => "the authenticator is not that of the client's secret",
            Reason::BadAttribute => {
                "the Length of an attribute is below 2 or past the packet's end"
            }
            Reason::NoStatus => "there is no Acct-Status-Type",
            Reason::UnknownStatus => "the Acct-Status-Type is unknown",
            Reason::NoSessionId => "there is no Acct-Session-Id",
            Reason::BadField => "a number or address is not 4 octets",
            Reason::TotalTooLarge => "the total is above 9223372036854775807 octets",
            Reason::BalanceLimit => "the balance would leave its range",
            Reason::Unavailable => "the book is unavailable",
            Reason::TooOld => "the report is too old",
        }
    }
}

// It is written out, so that its proof has one call, and not one for each reason.
impl fmt::Display for Reason {
    fn fmt<W: fmt::Write>(&self, f: &mut fmt::Formatter<W>) -> fmt::Result {
        f.write_str(self.words())
    }
}

impl Error for Reason {}
