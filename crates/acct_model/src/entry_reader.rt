//! Attributes read as entries.
ghost use Rattle.std.specs.Prelude.{◌≡◌, ◌+◌, ◌^◌, ◌<◌, None, false, is_none, IfOk, IfErr, OnOk};
ghost use Rattle.acct_model.specs.declared.entry_reader.EntryError.TheVariants.{Memory};
ghost use Rattle.radius_codec.specs.Attributes.{value_of};
ghost use Rattle.acct_model.specs.Entries as spec;

use crate::entry::{Entry, Restart};
use crate::first_values::{FirstValues, TYPES};
use crate::kept_limits::{GIGAWORD, MOST_OCTETS};
use crate::octets::Octets;
use crate::report::{Report, ReportKind};
use crate::status_values;
use crate::text::Text;
use radius_codec::attribute_types::*;
use radius_codec::{Packet, word_of};
use std::alloc::{AllocError, Global};
use thiserror::Error;

/// The types whose first value has to have four octets in a report.
const NUMBER_TYPES: [u8; 8] = [
    FRAMED_IP_ADDRESS,
    ACCT_DELAY_TIME,
    ACCT_INPUT_OCTETS,
    ACCT_OUTPUT_OCTETS,
    ACCT_SESSION_TIME,
    ACCT_TERMINATE_CAUSE,
    ACCT_INPUT_GIGAWORDS,
    ACCT_OUTPUT_GIGAWORDS,
];

/// Why a packet's attributes are no entry, in the order in which it is tested.
#[derive(Clone, Copy, PartialEq, Eq, Debug, Error)]
pub enum EntryError {
    /// There is no Acct-Status-Type.
    #[error("there is no Acct-Status-Type")]
    NoStatus = 1,
    /// Acct-Status-Type is not four octets, or none of Start, Stop, Interim-Update, Accounting-On
    /// and Accounting-Off.
    #[error("the Acct-Status-Type is unknown")]
    UnknownStatus = 2,
    /// A report has no Acct-Session-Id.
    #[error("there is no Acct-Session-Id")]
    NoSessionId = 3,
    /// A number or address of a report is not four octets.
    #[error("a number or address is not 4 octets")]
    BadField = 4,
    /// A report's input and output are above 2^63 - 1 octets together.
    #[error("the total is above 9223372036854775807 octets")]
    TotalTooLarge = 5,
    /// Out of memory.
    #[error("out of memory")]
    Memory = 6,
}

impl From<AllocError> for EntryError {
    ghost use Rattle.std.specs.Prelude.{◌≡◌};
    ghost use Rattle.acct_model.specs.declared.entry_reader.EntryError.TheVariants.{Memory};

    ghost from_gives = { λ _ e. e ≡ Memory };

    fn from(_error: AllocError) -> EntryError {
        EntryError::Memory
    }
}

/// The entry that a client's packet spells, received at `moment`, in seconds since 1970 (RFC 2866,
/// section 5). The first attribute of each type counts. Of a restart only the status is read.
///
/// # Errors
///
/// The first refusal in the order of `EntryError`; `Memory` only if there is no other.
pub fn entry_of(
    alloc: Global,
    client: &str,
    packet: &Packet<'_>,
    moment: u64,
) -> Result<Entry, EntryError>
    requires { moment < 2 ^ 53 }
    ensures entry { IfOk result (spec.IsEntryOf client.now packet.now.attributes moment) }
    ensures accepted { OnOk result (spec.refusal_of packet.now.attributes ≡ None) }
    ensures refused { IfErr result (spec.RefusesEntry (spec.refusal_of packet.now.attributes)) }
{
    let mut values = [None; TYPES];
    let attributes = FirstValues::of(&packet.attributes, &mut values);
    let Some(value) = attributes.first(ACCT_STATUS_TYPE) else {
        return Err(EntryError::NoStatus);
    };
    let Some(status) = word_of(value) else {
        return Err(EntryError::UnknownStatus);
    };
    if status == status_values::ACCOUNTING_ON || status == status_values::ACCOUNTING_OFF {
        let client = Text::from_str(alloc, client)?;
        return Ok(Entry::Restart(Restart { client }));
    }
    let Some(kind) = kind_of(status) else {
        return Err(EntryError::UnknownStatus);
    };
    if let Some(fault) = report_fault(&attributes) {
        return Err(fault);
    }
    let report = report_of(alloc, client, &attributes, kind, moment)?;
    Ok(Entry::Report(report))
}

// The kind of report that a status value means.
fn kind_of(status: u32) -> Option<ReportKind>
    ensures { result ≡ spec.kind_of status }
{
    match status {
        status_values::START => Some(ReportKind::Start),
        status_values::STOP => Some(ReportKind::Stop),
        status_values::INTERIM_UPDATE => Some(ReportKind::Interim),
        _ => None,
    }
}

// What is wrong with a report's attributes.
fn report_fault(attributes: &FirstValues<'_, '_>) -> Option<EntryError>
    ensures { result ≡ spec.report_fault attributes.now }
{
    if attributes.first(ACCT_SESSION_ID).is_none() {
        return Some(EntryError::NoSessionId);
    }
    if has_bad_number(attributes) {
        return Some(EntryError::BadField);
    }
    let total = u128::from(input_of(attributes)) + u128::from(output_of(attributes));
    if total > MOST_OCTETS {
        return Some(EntryError::TotalTooLarge);
    }
    None
}

fn has_bad_number(attributes: &FirstValues<'_, '_>) -> bool
    ensures { result ≡ spec.has_bad_number attributes.now }
{
    for kind in &NUMBER_TYPES {
        if number_at(attributes, *kind).is_none() {
            return true;
        }
    }
    false
}

// The report that attributes without a fault spell.
fn report_of(
    alloc: Global,
    client: &str,
    attributes: &FirstValues<'_, '_>,
    kind: ReportKind,
    moment: u64,
) -> Result<Report, AllocError>
    requires moment { moment < 2 ^ 53 }
    requires faultless { spec.report_fault attributes.now ≡ None }
    ensures { IfOk result (λ report.
        report ≡ spec.report_of client.now attributes.now moment kind) }
{
    Ok(Report {
        client: Text::from_str(alloc, client)?,
        session: octets_at(alloc, attributes, ACCT_SESSION_ID)?,
        user: octets_at(alloc, attributes, USER_NAME)?,
        class: octets_at(alloc, attributes, CLASS)?,
        kind,
        input: input_of(attributes),
        output: output_of(attributes),
        seconds: count_at(attributes, ACCT_SESSION_TIME),
        when: moment.saturating_sub(u64::from(count_at(attributes, ACCT_DELAY_TIME))),
        cause: count_at(attributes, ACCT_TERMINATE_CAUSE),
        calling: octets_at(alloc, attributes, CALLING_STATION_ID)?,
        framed: address_of(attributes),
    })
}

// The octets received, with the wraps of their counter.
fn input_of(attributes: &FirstValues<'_, '_>) -> u64
    ensures { result ≡ spec.input_of attributes.now }
{
    GIGAWORD * u64::from(count_at(attributes, ACCT_INPUT_GIGAWORDS))
        + u64::from(count_at(attributes, ACCT_INPUT_OCTETS))
}

// The octets sent, with the wraps of their counter.
fn output_of(attributes: &FirstValues<'_, '_>) -> u64
    ensures { result ≡ spec.output_of attributes.now }
{
    GIGAWORD * u64::from(count_at(attributes, ACCT_OUTPUT_GIGAWORDS))
        + u64::from(count_at(attributes, ACCT_OUTPUT_OCTETS))
}

// The four octets of the first Framed-IP-Address.
fn address_of(attributes: &FirstValues<'_, '_>) -> Option<[u8; 4]>
    requires { is_none (spec.number_at FRAMED_IP_ADDRESS attributes.now) ≡ false }
    ensures { result ≡ value_of FRAMED_IP_ADDRESS attributes.now }
{
    match attributes.first(FRAMED_IP_ADDRESS) {
        Some([a, b, c, d]) => Some([*a, *b, *c, *d]),
        _ => None,
    }
}

fn octets_at(
    alloc: Global,
    attributes: &FirstValues<'_, '_>,
    kind: u8,
) -> Result<Octets, AllocError>
    requires { kind < 54 }
    ensures { IfOk result (λ octets. octets ≡ spec.octets_at kind attributes.now) }
{
    Octets::from_slice(alloc, attributes.first(kind).unwrap_or(&[]))
}

// The first number of a type, 0 if it is absent or no number.
fn count_at(attributes: &FirstValues<'_, '_>, kind: u8) -> u32
    requires { kind < 54 }
    ensures { result ≡ spec.count_at kind attributes.now }
{
    number_at(attributes, kind).unwrap_or(0)
}

// The first number of a type: 0 if it is absent, none if it has not four octets.
fn number_at(attributes: &FirstValues<'_, '_>, kind: u8) -> Option<u32>
    requires { kind < 54 }
    ensures { result ≡ spec.number_at kind attributes.now }
{
    match attributes.first(kind) {
        Some(value) => word_of(value),
        None => Some(0),
    }
}
