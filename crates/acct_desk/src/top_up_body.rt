//! The JSON body that asks for a top-up.
ghost use Rattle.std.specs.Prelude.{◌≡◌, ◌≢◌, ◌<◌, ◌^◌, Some, None, Err, IfOk, option_map};
ghost use Rattle.percent_encoding.specs.Percent as percent;
ghost use Rattle.serde_json.specs.Data.{Data};
ghost use Rattle.serde_json.specs.View.{view};
ghost use Rattle.acct_desk.specs.TopUpBodies.{topup_from, member_text, whole_at, topup_of_value};
ghost use Rattle.acct_desk.specs.TopUpBodies.{IsJson};

use acct_model::{NoMemory, TopUp, TopUpError, unshow};
use serde_json::Value;
use std::alloc::Global;

// Why a body asks for no top-up.
#[derive(Clone, Copy, Debug, PartialEq, Eq)]
pub(crate) enum BodyError {
    // It is not JSON.
    NotJson,
    // A member is missing or out of its bounds.
    NoTopUp,
    // Out of memory.
    Memory,
}

impl From<NoMemory> for BodyError {
    ghost use Rattle.std.specs.Prelude.{◌≡◌};
    ghost use Rattle.acct_desk.specs.declared.top_up_body.BodyError.TheVariants.{Memory};

    ghost from_gives = { λ _ e. e ≡ Memory };

    fn from(_error: NoMemory) -> BodyError {
        BodyError::Memory
    }
}

// The top-up that a body asks for.
pub(crate) fn topup_of_body(alloc: Global, body: &[u8], when: u64) -> Result<TopUp, BodyError>
    requires { when < 2 ^ 53 }
    ensures ok { IfOk result (λ t. (d : Data) × IsJson body.now (Some d)
        × (topup_of_value d when ≡ Some t)) }
    ensures bad { result ≡ Err BodyError.NoTopUp
        → (d : Data) × IsJson body.now (Some d) × (topup_of_value d when ≡ None) }
    ensures json { result ≡ Err BodyError.NotJson → IsJson body.now None }
{
    let value = value_of(alloc, body)?;
    topup_of_members(alloc, &value, when)
}

// The JSON value of a body.
fn value_of(alloc: Global, body: &[u8]) -> Result<Value, BodyError>
    ensures ok { IfOk result (λ v. IsJson body.now (Some (view v))) }
    ensures json { result ≡ Err BodyError.NotJson → IsJson body.now None }
    ensures bad { result ≢ Err BodyError.NoTopUp }
{
    match Value::from_slice(alloc, body) {
        Ok(value) => Ok(value),
        Err(error) if error.is_memory() => Err(BodyError::Memory),
        Err(_) => Err(BodyError::NotJson),
    }
}

// The top-up that a JSON value asks for.
fn topup_of_members(alloc: Global, value: &Value, when: u64) -> Result<TopUp, BodyError>
    requires { when < 2 ^ 53 }
    ensures ok { IfOk result (λ t. topup_of_value (view value.now) when ≡ Some t) }
    ensures bad { result ≡ Err BodyError.NoTopUp → topup_of_value (view value.now) when ≡ None }
    ensures json { result ≢ Err BodyError.NotJson }
{
    let Some(account) = text_member(value, "account") else {
        return Err(BodyError::NoTopUp);
    };
    let Some(sum) = whole_member(value, "sum") else {
        return Err(BodyError::NoTopUp);
    };
    let Some(voucher) = text_member(value, "voucher") else {
        return Err(BodyError::NoTopUp);
    };
    let account = unshow(alloc, account)?;
    topup_from(alloc, voucher, &account, sum, when)
}

// The top-up of these parts.
fn topup_from(
    alloc: Global,
    voucher: &str,
    account: &[u8],
    sum: u64,
    when: u64,
) -> Result<TopUp, BodyError>
    requires { when < 2 ^ 53 }
    ensures ok { IfOk result (λ t. topup_from voucher.now account.now sum when ≡ Some t) }
    ensures bad { result ≡ Err BodyError.NoTopUp
        → topup_from voucher.now account.now sum when ≡ None }
    ensures json { result ≢ Err BodyError.NotJson }
{
    match TopUp::new(alloc, voucher, account, sum, when) {
        Ok(topup) => Ok(topup),
        Err(TopUpError::Memory) => Err(BodyError::Memory),
        Err(_) => Err(BodyError::NoTopUp),
    }
}

// A member that is a text.
fn text_member<'v>(value: &'v Value, name: &str) -> Option<&'v str>
    ensures { option_map (λ s. s.now) result ≡ member_text name.now (view value.now) }
{
    value.get(name).and_then(Value::as_str)
}

// A member that is a whole number.
fn whole_member(value: &Value, name: &str) -> Option<u64>
    ensures { result ≡ whole_at name.now (view value.now) }
{
    value.get(name).and_then(Value::as_u64)
}
