//! What a RADIUS accounting server accepts and what it charges: entries, plans and prices.
//!
//! 1. An entry is a report of a session (RFC 2866, section 5.1: Start, Interim-Update, Stop), a
//!    restart of a client (Accounting-On, Accounting-Off) or a top-up by a voucher. `entry_of`
//!    reads reports and restarts from a packet's attributes.
//! 2. A session is named by the client that sent it and its Acct-Session-Id. It is charged to the
//!    User-Name of its first accepted report, by the plan that the Class of that report named among
//!    the plans in force then. It keeps that plan, whatever plans are added later.
//! 3. A total is input and output together, gigawords counted (RFC 2869, sections 5.1 and 5.2), at
//!    most 2^63 - 1 octets.
//! 4. A plan counts the total, the input or the output. Its price is its unit for each block of
//!    counted octets that was started. A class without a plan is priced by the plan `default`.
//! 5. A history is the list of what was accepted and of the plans that were added, the newest
//!    first. `specs/History.antt` says what follows from it: the sessions, their owners, plans and
//!    charges, the vouchers, and each account's balance. The module `laws` says what holds of all
//!    histories.
#![tactic(auto)]

mod address;
mod coded;
mod entry;
mod entry_reader;
mod first_values;
mod kept_limits;
pub mod laws;
mod number;
mod octets;
mod plan;
mod plan_list;
mod plans;
mod report;
mod shown;
mod stamp;
pub mod status_values;
mod text;
mod top_up;

pub use address::{address_of, show_address};
pub use coded::coded_text;
pub use entry::{Entry, Restart};
pub use entry_reader::{EntryError, entry_of};
pub use kept_limits::LAST_MOMENT;
pub use number::{MOST_DIGITS, number_of, number_up_to};
pub use octets::Octets;
pub use plan::{Count, Plan, counted, price};
pub use plan_list::PlanList;
pub use plans::{PlanError, Plans};
pub use report::{Report, ReportKind};
pub use shown::{NoMemory, show, unshow};
pub use stamp::{LONGEST_STAMP, Stamp, StampSecret, StampSecrets, are_same, is_login, signature};
pub use text::Text;
pub use top_up::{TopUp, TopUpError, is_account};
