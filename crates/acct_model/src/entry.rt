//! What a history is made of.
use crate::report::Report;
use crate::text::Text;
use crate::top_up::TopUp;

/// A client began or ended accounting: Accounting-On or Accounting-Off (RFC 2866, section 5.1).
#[derive(Drop)]
pub struct Restart {
    /// The client's name.
    pub client: Text,
}

/// One entry of a history.
#[derive(Drop)]
pub enum Entry {
    /// A session reports.
    Report(Report),
    /// A client restarts.
    Restart(Restart),
    /// A voucher raises an account's balance.
    TopUp(TopUp),
}
