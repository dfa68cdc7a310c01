//! How far a balance is below 0.
ghost use Rattle.std.specs.Prelude.{◌≡◌};
ghost use Rattle.acct_book.specs.Balance.{overrun_of};

/// How far a balance is below 0, and 0 if it is not.
pub fn overrun(balance: i64) -> u64
    ensures { result ≡ overrun_of balance }
{
    if balance < 0 {
        balance.unsigned_abs()
    } else {
        0
    }
}
