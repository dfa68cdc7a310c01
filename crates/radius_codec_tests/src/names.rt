//! Numbers that have names, and the numbers and texts of errors.
use radius_codec::attribute_types::*;
use radius_codec::{CodecError, TooLong, codes};
use std::alloc::Global;
use std::fmt::Display;
use std::test::Fail;

// The named numbers.
const NAMED: [u8; 16] = [
    codes::ACCOUNTING_REQUEST,
    codes::ACCOUNTING_RESPONSE,
    USER_NAME,
    FRAMED_IP_ADDRESS,
    CLASS,
    CALLING_STATION_ID,
    PROXY_STATE,
    ACCT_STATUS_TYPE,
    ACCT_DELAY_TIME,
    ACCT_INPUT_OCTETS,
    ACCT_OUTPUT_OCTETS,
    ACCT_SESSION_ID,
    ACCT_SESSION_TIME,
    ACCT_TERMINATE_CAUSE,
    ACCT_INPUT_GIGAWORDS,
    ACCT_OUTPUT_GIGAWORDS,
];

// The numbers that RFC 2865, RFC 2866 and RFC 2869 give.
const NUMBERS: [u8; 16] = [4, 5, 1, 8, 25, 31, 33, 40, 41, 42, 43, 44, 46, 49, 52, 53];

#[test]
fn names_stand_for_the_numbers_of_the_rfcs(rt: HostRuntime) {
    assert!(rt; NAMED == NUMBERS);
}

// The numbers and texts of the errors.
static ERRORS: [(CodecError, u8, &str); 3] = [
    (CodecError::TooShort, 1, "a packet has 20 octets at least"),
    (
        CodecError::BadLength,
        2,
        "the Length field is below 20, above 4096 or above the datagram's octets",
    ),
    (
        CodecError::BadAttribute,
        3,
        "an attribute's Length is below 2 or runs past the end of the packet",
    ),
];

const TOO_LONG: &str = "the attributes take more octets than a packet has room for";

#[test]
fn errors_have_numbers_and_texts(rt: HostRuntime) -> Result<(), Fail> {
    for (error, number, text) in &ERRORS {
        assert!(rt;
            *error as u8 == *number && is_shown(rt.alloc(), error, text)?,
            "{text}"
        );
    }
    assert!(rt; is_shown(rt.alloc(), &TooLong, TOO_LONG)?);
    Ok(())
}

fn is_shown<T: Display>(alloc: Global, shown: &T, text: &str) -> Result<bool, Fail> {
    Ok(format!(in alloc; "{shown}")?.as_str() == text)
}
