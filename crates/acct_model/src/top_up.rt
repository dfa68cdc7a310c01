//! Vouchers that raise balances.
ghost use Rattle.std.specs.Prelude.{◌≡◌, ◌^◌, ◌<◌, None, IfOk, IfErr, OnOk};
ghost use Rattle.std.specs.List.{list_all};
ghost use Rattle.acct_model.specs.Vouchers.{is_voucher_octet, is_voucher_number};
ghost use Rattle.acct_model.specs.Vouchers.{is_voucher_account};

use crate::octets::Octets;
use crate::text::Text;
use std::alloc::{AllocError, Global};
use std::marker::Model;
use thiserror::Error;

/// The most characters of a voucher's number.
const LONGEST_NUMBER: usize = 32;
/// The most octets of an account.
const LONGEST_ACCOUNT: usize = 253;
/// The greatest sum of one voucher.
const GREATEST_SUM: u64 = 1_000_000_000_000;

/// A voucher that is credited to an account. Its number is 1 to 32 of the characters `A` to `Z`,
/// `0` to `9` and `-`, its account 1 to 253 octets, its sum 1 to 10^12, and its moment below 2^53.
#[derive(Debug)]
pub struct TopUp {
    /// The voucher's number.
    pub voucher: Text,
    /// The account that it is credited to.
    pub account: Octets,
    /// By how much the balance rises.
    pub sum: u64,
    /// The moment of the top-up, in seconds since 1970.
    pub when: u64,
}

impl Drop for TopUp {
    fn drop(self) {
        let TopUp {
            voucher: _,
            account: _,
            sum: _,
            when: _,
        } = self;
    }
}

impl Model for TopUp {
    ghost use Rattle.acct_model.specs.Vouchers.{TopUpFacts, IsTopUp};

    ghost Value = { TopUpFacts };

    ghost view = { λ t. record {
      voucher = t.voucher;
      account = t.account;
      sum = t.sum;
      when = t.when;
    } };

    ghost invariant = { λ t. IsTopUp t.voucher t.account t.sum t.when };
}

/// Why there is no top-up by a voucher, in the order in which it is tested.
#[derive(Clone, Copy, PartialEq, Eq, Debug, Error)]
pub enum TopUpError {
    /// The number is not 1 to 32 of the characters `A` to `Z`, `0` to `9` and `-`.
    #[error("the voucher's number is not 1 to 32 of A-Z, 0-9 and -")]
    BadVoucher = 1,
    /// The account is not 1 to 253 octets.
    #[error("the account is not 1 to 253 octets")]
    BadAccount = 2,
    /// The sum is not 1 to 10^12.
    #[error("the sum is not 1 to 1000000000000")]
    BadSum = 3,
    /// Out of memory.
    #[error("out of memory")]
    Memory = 4,
}

impl From<AllocError> for TopUpError {
    ghost use Rattle.std.specs.Prelude.{◌≡◌};
    ghost use Rattle.acct_model.specs.declared.top_up.TopUpError.TheVariants.{Memory};

    ghost from_gives = { λ _ e. e ≡ Memory };

    fn from(_error: AllocError) -> TopUpError {
        TopUpError::Memory
    }
}

impl TopUp {
    ghost use Rattle.acct_model.specs.TopUpFaults.{topup_fault, IsTopUpError};

    /// A top-up, if its number, account and sum are in their bounds. `when` is in seconds since
    /// 1970.
    ///
    /// # Errors
    ///
    /// The first fault in the order of `TopUpError`; `Memory` only if there is no other.
    pub fn new(
        alloc: Global,
        voucher: &str,
        account: &[u8],
        sum: u64,
        when: u64,
    ) -> Result<TopUp, TopUpError>
        requires { when < 2 ^ 53 }
        ensures kept { IfOk result (λ topup. topup ≡ record {
          voucher = voucher.now;
          account = account.now;
          sum = sum;
          when = when;
        }) }
        ensures faultless { OnOk result (topup_fault voucher.now account.now sum ≡ None) }
        ensures refused { IfErr result (IsTopUpError (topup_fault voucher.now account.now sum)) }
    {
        if !is_number(voucher) {
            return Err(TopUpError::BadVoucher);
        }
        if !is_account(account) {
            return Err(TopUpError::BadAccount);
        }
        if sum == 0 || sum > GREATEST_SUM {
            return Err(TopUpError::BadSum);
        }
        Ok(TopUp {
            voucher: Text::from_str(alloc, voucher)?,
            account: Octets::from_slice(alloc, account)?,
            sum,
            when,
        })
    }

    /// The voucher's number. It takes no memory.
    pub fn into_voucher(self) -> Text
        ensures { result ≡ self.voucher }
    {
        let TopUp {
            voucher,
            account: _,
            sum: _,
            when: _,
        } = self;
        voucher
    }
}

/// Whether octets may name the account of a voucher or of a key: there are 1 to 253 of them.
pub fn is_account(octets: &[u8]) -> bool
    ensures { result ≡ is_voucher_account octets.now }
{
    !octets.is_empty() && octets.len() <= LONGEST_ACCOUNT
}

// Whether a text is a voucher's number.
fn is_number(voucher: &str) -> bool
    ensures { result ≡ is_voucher_number voucher.now }
{
    if voucher.is_empty() || voucher.len() > LONGEST_NUMBER {
        return false;
    }
    are_characters(voucher.as_bytes())
}

fn are_characters(octets: &[u8]) -> bool
    ensures { result ≡ list_all is_voucher_octet octets.now }
{
    octets.iter().all(|octet| is_character(*octet))
}

fn is_character(octet: u8) -> bool
    ensures { result ≡ is_voucher_octet octet }
{
    matches!(octet, b'A'..=b'Z' | b'0'..=b'9' | b'-')
}
