//! What a shop uploads and accounting downloads, as CSV.
//!
//! 1. `import` reads vouchers from a text, one record at a time, and records each in a book. A
//! record is added, repeated or refused with its cause; what was recorded before the import stopped
//! stays.
//! 2. Records are numbered from 1, the header being 1. Only the list of refused records grows with
//! the text.
//! 3. An export writes a header and a line for each session, account or voucher of a book, and
//! changes nothing in it. So are its plans written.
#![tactic(auto)]

mod account_lines;
mod capped;
mod csv_lines;
mod import_report;
mod importing;
pub mod laws;
mod plan_lines;
mod refused_list;
mod session_lines;
mod topup_lines;
mod voucher_record;
mod walk;

pub use account_lines::{AccountExport, export_balances, export_overruns};
pub use capped::Capped;
pub use csv_lines::ExportError;
pub use import_report::{Cause, ImportReport, Outcome, Refused, Stopped};
pub use importing::import;
pub use plan_lines::export_plans;
pub use refused_list::RefusedList;
pub use session_lines::export_sessions;
pub use topup_lines::export_topups;
