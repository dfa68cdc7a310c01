//! What `export` writes, by name.
ghost use Rattle.std.specs.Prelude.{◌≡◌, ◌≢◌, IfSome, IfNone};
ghost use Rattle.acct_program_args.specs.Orders.{export_name};
ghost use Rattle.acct_program_args.specs.declared.job.Export.{Export as Named};

use crate::job::Export;

/// The names that `export` takes, as an operator reads them.
pub const EXPORT_NAMES: &str = "sessions, balances, topups or overruns";

/// What of a book `export` writes by this name.
pub fn export_named(name: &str) -> Option<Export>
    ensures some { IfSome result (λ what. name.now ≡ export_name what) }
    ensures none { IfNone result ((what : Named) → name.now ≢ export_name what) }
{
    match name {
        "sessions" => Some(Export::Sessions),
        "balances" => Some(Export::Balances),
        "topups" => Some(Export::TopUps),
        "overruns" => Some(Export::Overruns),
        _ => None,
    }
}
