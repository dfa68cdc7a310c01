//! The options of the commands.
ghost use Rattle.std.specs.Prelude.{◌≡◌, false, codes, IfOk};
ghost use Rattle.clap.specs.Words.{rule_of};
ghost use Rattle.acct_program_args.specs.CommandLine.{config_rule, database_rule, what_rule};
ghost use Rattle.acct_program_args.specs.CommandLine.{bind_rule, option_rule, flag_rule, required};
ghost use Rattle.acct_program_args.specs.CommandLine.{port_rule, turns_rule, sync_rule};
ghost use Rattle.acct_program_args.specs.CommandLine.{balances_every_rule, seconds_rule, tied};
ghost use Rattle.acct_program_args.specs.CommandLine.{before_rule, days_rule, at_rule, keep_rule};
ghost use Rattle.acct_program_args.specs.CommandLine.{oldest_rule, audit_rule};
ghost use Rattle.acct_program_args.specs.CommandLine.{account_rule, until_rule};

use crate::exports::EXPORT_NAMES;
use clap::{Arg, ArgAction};
use std::alloc::{AllocError, Global};

/// `--config FILE`
pub fn config_option<'a>(alloc: Global) -> Arg<'a>
    ensures rule { rule_of result ≡ config_rule }
    ensures local { result.global ≡ false }
{
    valued(alloc, "config", "FILE").help(
        "The clients, plans and keys, as TOML: /etc/radacctd.toml, say",
    )
}

/// `--db FILE`
pub fn database_option<'a>(alloc: Global, help: &'a str) -> Arg<'a>
    ensures rule { rule_of result ≡ database_rule }
    ensures local { result.global ≡ false }
{
    valued(alloc, "db", "FILE").help(help)
}

/// `WHAT`
pub fn what_option<'a>(alloc: Global) -> Arg<'a>
    ensures rule { rule_of result ≡ required what_rule }
    ensures local { result.global ≡ false }
{
    Arg::new(alloc, "what")
        .value_name("WHAT")
        .required(true)
        .help(EXPORT_NAMES)
}

/// `--explain`
pub fn explain_flag<'a>(alloc: Global) -> Arg<'a>
    ensures rule { rule_of result ≡ flag_rule (codes "explain") }
    ensures local { result.global ≡ false }
{
    flag(alloc, "explain").help("Tells more of a fault, in a second line on standard error")
}

/// `--lose-damaged-commits`
pub fn lose_flag<'a>(alloc: Global) -> Arg<'a>
    ensures rule { rule_of result ≡ flag_rule (codes "lose-damaged-commits") }
    ensures local { result.global ≡ false }
{
    flag(alloc, "lose-damaged-commits").help(
        "Opens a book whose log is damaged, without what was recorded from the damage on",
    )
}

/// `--page-sums`
pub fn page_sums_flag<'a>(alloc: Global) -> Arg<'a>
    ensures rule { rule_of result ≡ flag_rule (codes "page-sums") }
    ensures local { result.global ≡ false }
{
    flag(alloc, "page-sums").help(
        "Ends each page of the book in a sum: damage is found, and sqlite3 must not write it",
    )
}

/// `--list`
pub fn list_flag<'a>(alloc: Global) -> Arg<'a>
    ensures rule { rule_of result ≡ flag_rule (codes "list") }
    ensures local { result.global ≡ false }
{
    flag(alloc, "list").help("Writes the plans that the book keeps as CSV, and adds none")
}

/// `--bind A.B.C.D`
pub fn bind_option<'a>(alloc: Global) -> Arg<'a>
    ensures rule { rule_of result ≡ bind_rule }
    ensures local { result.global ≡ false }
{
    valued(alloc, "bind", "A.B.C.D")
        .action(ArgAction::Append)
        .default_value("127.0.0.1")
        .help(
            "An IPv4 address for accounting reports, up to 16 of them; 0.0.0.0 for each of the \
             machine's",
        )
}

/// `--desk-bind A.B.C.D`
pub fn desk_bind_option<'a>(alloc: Global) -> Arg<'a>
    ensures rule { rule_of result ≡ option_rule (codes "desk-bind") }
    ensures local { result.global ≡ false }
{
    valued(alloc, "desk-bind", "A.B.C.D").help(
        "The IPv4 address of the desk; the first --bind where it isn't given",
    )
}

/// An option for a port.
pub fn port_option<'a>(alloc: Global, id: &'a str, default: &'a str, help: &'a str) -> Arg<'a>
    ensures rule { rule_of result ≡ port_rule id.now default.now }
    ensures local { result.global ≡ false }
{
    valued(alloc, id, "PORT")
        .value_parser(clap::value_parser!(u16).range(1..))
        .default_value(default)
        .help(help)
}

/// `--turns N`
pub fn turns_option<'a>(alloc: Global) -> Arg<'a>
    ensures rule { rule_of result ≡ turns_rule }
    ensures local { result.global ≡ false }
{
    valued(alloc, "turns", "N")
        .value_parser(clap::value_parser!(i64).range(1..))
        .default_value("9223372036854775807")
        .help("How many turns to make before the end; one takes 20 milliseconds at most to wait")
}

/// `--sync HOW`
pub fn sync_option<'a>(alloc: Global) -> Arg<'a>
    ensures rule { rule_of result ≡ sync_rule }
    ensures local { result.global ≡ false }
{
    valued(alloc, "sync", "HOW").default_value("twice").help(
        "once or twice: how often a write of the book is synced; once where disks tear no octet",
    )
}

/// `--oldest-report DAYS`
pub fn oldest_option<'a>(alloc: Global, help: &'a str) -> Arg<'a>
    ensures rule { rule_of result ≡ oldest_rule }
    ensures local { result.global ≡ false }
{
    valued(alloc, "oldest-report", "DAYS")
        .value_parser(clap::value_parser!(i64).range(1..=36_500))
        .help(help)
}

/// `--audit`, which may only be given with `--db`.
///
/// # Errors
///
/// Only if an allocation fails.
pub fn audit_option<'a>(alloc: Global) -> Result<Arg<'a>, AllocError>
    ensures rule { IfOk result (λ option. rule_of option ≡ audit_rule) }
    ensures local { IfOk result (λ option. option.global ≡ false) }
{
    needing(audit_flag(alloc), "db")
}

// `--audit`, without the rule that it needs `--db`.
fn audit_flag<'a>(alloc: Global) -> Arg<'a>
    ensures rule { rule_of result ≡ flag_rule (codes "audit") }
    ensures local { result.global ≡ false }
{
    flag(alloc, "audit").help("Holds each balance of --db against its vouchers and sessions")
}

/// `--quiet`
pub fn quiet_flag<'a>(alloc: Global) -> Arg<'a>
    ensures rule { rule_of result ≡ flag_rule (codes "quiet") }
    ensures local { result.global ≡ false }
{
    flag(alloc, "quiet").help("Tells no drops and no counts on standard error while it runs")
}

/// `--status FILE`
pub fn status_option<'a>(alloc: Global) -> Arg<'a>
    ensures rule { rule_of result ≡ option_rule (codes "status") }
    ensures local { result.global ≡ false }
{
    valued(alloc, "status", "FILE").help(
        "A file to write counts into, in Prometheus' text form; what another program wrote is kept",
    )
}

/// `--balances FILE`
pub fn balances_option<'a>(alloc: Global) -> Arg<'a>
    ensures rule { rule_of result ≡ option_rule (codes "balances") }
    ensures local { result.global ≡ false }
{
    valued(alloc, "balances", "FILE").help(
        "A file to write the balances of all accounts into; what another program wrote is kept",
    )
}

/// `--balances-every SECONDS`, which may only be given with `--balances`.
///
/// # Errors
///
/// Only if an allocation fails.
pub fn balances_every_option<'a>(alloc: Global) -> Result<Arg<'a>, AllocError>
    ensures rule { IfOk result (λ option. rule_of option ≡ balances_every_rule) }
    ensures local { IfOk result (λ option. option.global ≡ false) }
{
    needing(seconds_option(alloc), "balances")
}

/// `--before DAYS`
pub fn before_option<'a>(alloc: Global) -> Arg<'a>
    ensures rule { rule_of result ≡ before_rule }
    ensures local { result.global ≡ false }
{
    days_option(alloc, "before").default_value("90").help(
        "Carries sessions that ended more than so many days ago, 30 or more",
    )
}

/// `--silent DAYS`
pub fn silent_option<'a>(alloc: Global) -> Arg<'a>
    ensures rule { rule_of result ≡ days_rule (codes "silent") }
    ensures local { result.global ≡ false }
{
    days_option(alloc, "silent").help(
        "Carries open sessions too that have not reported for so many days, 30 or more",
    )
}

// An option for a number of days.
fn days_option<'a>(alloc: Global, id: &'a str) -> Arg<'a>
    ensures rule { rule_of result ≡ days_rule id.now }
    ensures local { result.global ≡ false }
{
    valued(alloc, id, "DAYS").value_parser(clap::value_parser!(i64).range(30..=36_500))
}

/// `--at MOMENT`
pub fn at_option<'a>(alloc: Global) -> Arg<'a>
    ensures rule { rule_of result ≡ at_rule }
    ensures local { result.global ≡ false }
{
    valued(alloc, "at", "MOMENT")
        .value_parser(clap::value_parser!(i64).range(1..=9_007_199_254_740_991))
        .help("Carries sessions that ended before this moment, in seconds since 1970")
}

/// `--until SECONDS`
pub fn until_option<'a>(alloc: Global) -> Arg<'a>
    ensures rule { rule_of result ≡ until_rule }
    ensures local { result.global ≡ false }
{
    valued(alloc, "until", "SECONDS")
        .value_parser(clap::value_parser!(i64).range(1..=9_007_199_254_740_991))
        .help("The last second in which the key is taken, since 1970")
}

/// `ACCOUNT`
pub fn account_option<'a>(alloc: Global) -> Arg<'a>
    ensures rule { rule_of result ≡ required account_rule }
    ensures local { result.global ≡ false }
{
    Arg::new(alloc, "account")
        .value_name("ACCOUNT")
        .required(true)
        .help("The account, 1 to 253 octets; a % and two hexadecimal digits are one octet")
}

/// `--keep CLIENT`
pub fn keep_option<'a>(alloc: Global) -> Arg<'a>
    ensures rule { rule_of result ≡ keep_rule }
    ensures local { result.global ≡ false }
{
    valued(alloc, "keep", "CLIENT")
        .action(ArgAction::Append)
        .help("A client whose sessions stay; it may be given more than once")
}

/// `--dry-run`
pub fn dry_run_flag<'a>(alloc: Global) -> Arg<'a>
    ensures rule { rule_of result ≡ flag_rule (codes "dry-run") }
    ensures local { result.global ≡ false }
{
    flag(alloc, "dry-run").help("Prints what would be carried, and changes nothing")
}

/// `--yes`
pub fn yes_flag<'a>(alloc: Global) -> Arg<'a>
    ensures rule { rule_of result ≡ flag_rule (codes "yes") }
    ensures local { result.global ≡ false }
{
    flag(alloc, "yes").help(
        "Goes on if the clock does not agree with the reports in the book, or with its file",
    )
}

// `--balances-every SECONDS`, without the rule that it needs `--balances`.
fn seconds_option<'a>(alloc: Global) -> Arg<'a>
    ensures rule { rule_of result ≡ seconds_rule }
    ensures local { result.global ≡ false }
{
    valued(alloc, "balances-every", "SECONDS")
        .value_parser(clap::value_parser!(i64).range(1..=86_400))
        .default_value("60")
        .help("The fewest seconds from one writing of the balances to the next, 1 to 86400")
}

/// An option that must be given.
pub fn needed<'a>(option: Arg<'a>) -> Arg<'a>
    requires { option.global ≡ false }
    ensures rule { rule_of result ≡ required (rule_of option.entry) }
    ensures local { result.global ≡ false }
{
    option.required(true)
}

// An option that may only be given with another one.
fn needing<'a>(option: Arg<'a>, other: &'a str) -> Result<Arg<'a>, AllocError>
    requires { option.global ≡ false }
    ensures rule { IfOk result (λ tied_one. rule_of tied_one ≡ tied (rule_of option.entry)) }
    ensures local { IfOk result (λ tied_one. tied_one.global ≡ false) }
{
    option.requires_arg(other)
}

// An option of one value.
fn valued<'a>(alloc: Global, id: &'a str, value: &'a str) -> Arg<'a>
    ensures rule { rule_of result ≡ option_rule id.now }
    ensures local { result.global ≡ false }
{
    Arg::new(alloc, id).long(id).value_name(value)
}

// A flag.
fn flag<'a>(alloc: Global, id: &'a str) -> Arg<'a>
    ensures rule { rule_of result ≡ flag_rule id.now }
    ensures local { result.global ≡ false }
{
    Arg::new(alloc, id).long(id).action(ArgAction::SetTrue)
}
