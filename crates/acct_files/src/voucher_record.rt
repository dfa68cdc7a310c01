//! The vouchers that records of CSV ask for.
ghost use Rattle.std.specs.Prelude.{◌≡◌, ◌^◌, ◌<◌, Ok, IfOk, IfErr, option_map};
ghost use Rattle.csv.specs.Records.{fields_of};
ghost use Rattle.acct_files.specs.Vouchers.{three_of, is_header as is_header_record};
ghost use Rattle.acct_files.specs.Vouchers.{asked_by, topup_asked, IsLineFault};

use crate::import_report::Cause;
use acct_model::{TopUp, TopUpError, number_of};
use csv::ByteRecord;
use percent_encoding::percent_decode;
use std::alloc::Global;
use std::str::from_utf8;

/// The most digits of a sum.
const MOST_DIGITS: usize = 13;

/// Why a record asks for no top-up.
#[derive(Clone, Copy, PartialEq, Eq, Debug)]
pub enum Fault {
    /// The first rule that it breaks.
    Refused(Cause),
    /// Out of memory.
    Memory,
}

/// Whether a record is `voucher,account,sum`.
pub fn is_header(row: &ByteRecord) -> bool
    ensures { result ≡ is_header_record (fields_of row.now) }
{
    match three_fields(row) {
        Some((voucher, account, sum)) => {
            voucher == b"voucher".as_slice()
                && account == b"account".as_slice()
                && sum == b"sum".as_slice()
        }
        None => false,
    }
}

/// The top-up that a record asks for at a moment, in seconds since 1970.
///
/// # Errors
///
/// The first rule that the record breaks, in the order of `Cause`, or `Memory` in its place.
pub fn topup_in(alloc: Global, row: &ByteRecord, moment: u64) -> Result<TopUp, Fault>
    requires { moment < 2 ^ 53 }
    ensures asked { IfOk result (λ topup. asked_by moment (fields_of row.now) ≡ Ok topup) }
    ensures refused { IfErr result (λ fault.
        IsLineFault fault (asked_by moment (fields_of row.now))) }
{
    let Some((voucher, account, sum)) = three_fields(row) else {
        return Err(Fault::Refused(Cause::FieldCount));
    };
    let Ok(voucher) = from_utf8(voucher) else {
        return Err(Fault::Refused(Cause::BadVoucher));
    };
    let Ok(account) = percent_decode(account).into_cow(alloc) else {
        return Err(Fault::Memory);
    };
    // No voucher's sum is 0.
    let sum = number_of(sum, MOST_DIGITS).unwrap_or(0);
    topup_of(alloc, voucher, &account, sum, moment)
}

fn topup_of(
    alloc: Global,
    voucher: &str,
    account: &[u8],
    sum: u64,
    moment: u64,
) -> Result<TopUp, Fault>
    requires { moment < 2 ^ 53 }
    ensures asked { IfOk result (λ topup.
        topup_asked moment voucher.now account.now sum ≡ Ok topup) }
    ensures refused { IfErr result (λ fault.
        IsLineFault fault (topup_asked moment voucher.now account.now sum)) }
{
    match TopUp::new(alloc, voucher, account, sum, moment) {
        Ok(topup) => Ok(topup),
        Err(TopUpError::BadVoucher) => Err(Fault::Refused(Cause::BadVoucher)),
        Err(TopUpError::BadAccount) => Err(Fault::Refused(Cause::BadAccount)),
        Err(TopUpError::BadSum) => Err(Fault::Refused(Cause::BadSum)),
        Err(TopUpError::Memory) => Err(Fault::Memory),
    }
}

fn three_fields(row: &ByteRecord) -> Option<(&[u8], &[u8], &[u8])>
    ensures { option_map (λ f. (f.0.now, f.1.now, f.2.now)) result ≡ three_of (fields_of row.now) }
{
    if row.len() != 3 {
        return None;
    }
    Some((row.get(0)?, row.get(1)?, row.get(2)?))
}
