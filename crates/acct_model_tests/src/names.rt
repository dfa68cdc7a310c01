//! Numbers that have names, and the numbers and texts of errors.
use acct_model::status_values::{ACCOUNTING_OFF, ACCOUNTING_ON, INTERIM_UPDATE, START, STOP};
use acct_model::{EntryError, NoMemory, PlanError, TopUpError};
use std::alloc::Global;
use std::fmt::Display;
use std::test::Fail;

const STATUS_VALUES: [u32; 5] = [START, STOP, INTERIM_UPDATE, ACCOUNTING_ON, ACCOUNTING_OFF];

// The values of RFC 2866, section 5.1.
#[test]
fn status_values_are_those_of_the_rfc(rt: HostRuntime) {
    assert!(rt; STATUS_VALUES == [1, 2, 3, 7, 8]);
}

// The numbers of the errors of plans, entries and top-ups.
const PLAN_NUMBERS: [u8; 5] = [
    PlanError::NoDefault as u8,
    PlanError::TwicePlanned as u8,
    PlanError::BadBlock as u8,
    PlanError::BadUnit as u8,
    PlanError::Memory as u8,
];

const ENTRY_NUMBERS: [u8; 6] = [
    EntryError::NoStatus as u8,
    EntryError::UnknownStatus as u8,
    EntryError::NoSessionId as u8,
    EntryError::BadField as u8,
    EntryError::TotalTooLarge as u8,
    EntryError::Memory as u8,
];

const TOPUP_NUMBERS: [u8; 4] = [
    TopUpError::BadVoucher as u8,
    TopUpError::BadAccount as u8,
    TopUpError::BadSum as u8,
    TopUpError::Memory as u8,
];

#[test]
fn errors_are_numbered(rt: HostRuntime) {
    assert!(rt; PLAN_NUMBERS == [1, 2, 3, 4, 5]);
    assert!(rt; ENTRY_NUMBERS == [1, 2, 3, 4, 5, 6]);
    assert!(rt; TOPUP_NUMBERS == [1, 2, 3, 4]);
}

static PLAN_TEXTS: [(PlanError, &str); 5] = [
    (PlanError::NoDefault, "there is no plan default"),
    (
        PlanError::TwicePlanned,
        "an earlier plan has the same class",
    ),
    (
        PlanError::BadBlock,
        "the block is not 1 to 9007199254740992",
    ),
    (PlanError::BadUnit, "the unit is not 0 to 1000000000"),
    (PlanError::Memory, "out of memory"),
];

static ENTRY_TEXTS: [(EntryError, &str); 6] = [
    (EntryError::NoStatus, "there is no Acct-Status-Type"),
    (EntryError::UnknownStatus, "the Acct-Status-Type is unknown"),
    (EntryError::NoSessionId, "there is no Acct-Session-Id"),
    (EntryError::BadField, "a number or address is not 4 octets"),
    (
        EntryError::TotalTooLarge,
        "the total is above 9223372036854775807 octets",
    ),
    (EntryError::Memory, "out of memory"),
];

static TOPUP_TEXTS: [(TopUpError, &str); 4] = [
    (
        TopUpError::BadVoucher,
        "the voucher's number is not 1 to 32 of A-Z, 0-9 and -",
    ),
    (TopUpError::BadAccount, "the account is not 1 to 253 octets"),
    (TopUpError::BadSum, "the sum is not 1 to 1000000000000"),
    (TopUpError::Memory, "out of memory"),
];

static MEMORY_TEXT: [(NoMemory, &str); 1] = [(NoMemory, "out of memory")];

#[test]
fn errors_have_their_texts(rt: HostRuntime) -> Result<(), Fail> {
    assert!(rt;
        are_shown(rt.alloc(), &PLAN_TEXTS)?
            && are_shown(rt.alloc(), &ENTRY_TEXTS)?
            && are_shown(rt.alloc(), &TOPUP_TEXTS)?
            && are_shown(rt.alloc(), &MEMORY_TEXT)?
    );
    Ok(())
}

// Whether each of these is shown by its text.
fn are_shown<T: Display>(alloc: Global, table: &[(T, &str)]) -> Result<bool, Fail> {
    for (shown, text) in table {
        if format!(in alloc; "{shown}")?.as_str() != *text {
            return Ok(false);
        }
    }
    Ok(true)
}
