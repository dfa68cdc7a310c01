//! What the command line asks for.
ghost use Rattle.std.specs.Prelude.{◌≡◌, IfOk, IfSome, Some, codes, map, string_bytes};
ghost use Rattle.clap.specs.Words.{first_of, rows_of, found_of, subcommand_of};
ghost use Rattle.acct_program_args.specs.CommandLine.{app};
ghost use Rattle.acct_program_args.specs.Orders.{AreKeptNames, HasBounds, IsExport};
ghost use Rattle.acct_program_args.specs.Orders.{NamesJob, WordsAskFor, WordsAskOfBook};

use crate::commands::{PROGRAM, command_line};
use crate::exports::export_named;
use crate::forward_options::carrying_of;
use crate::job::{BookJob, Export, Job, KeptNames, Order, Paths};
use crate::options::{account_option, flag_option, number_option, text_option};
use crate::serve_options::serving_of;
use acct_model::{LAST_MOMENT, Text};
use clap::error::ErrorKind;
use clap::{ArgMatches, Command, Error};
use std::alloc::{AllocError, Global};

/// The job that the arguments name. The first argument is the program's name.
///
/// # Errors
///
/// The error of `clap`: for a bad command line, for help or the version, or if an allocation fails.
pub fn job_of(alloc: Global, words: Vec<String>) -> Result<Order, Error>
    ensures named { IfOk result (NamesJob (subcommand_of app (map string_bytes words.items))) }
    ensures bounds { IfOk result (λ order. HasBounds order.job) }
{
    let matches = command_line(alloc)?.try_get_matches_from(words.as_slice())?;
    let Some((name, options)) = matches.subcommand() else {
        return Err(no_job(alloc));
    };
    match asked(alloc, name, options)? {
        Some(job) => Ok(Order {
            job,
            explains: flag_option(options, "explain"),
            loses_commits: flag_option(options, "lose-damaged-commits"),
        }),
        None => Err(no_job(alloc)),
    }
}

// What the options of a command ask for, if it is one of ours and they fit.
fn asked(alloc: Global, name: &str, options: &ArgMatches<'_>) -> Result<Option<Job>, AllocError>
    ensures { IfOk result (λ job. IfSome job
        (WordsAskFor name.now (rows_of (found_of options.now)))) }
{
    let config = text_option(alloc, options, "config")?;
    if name == "feed" {
        return Ok(Some(Job::Feed { config }));
    }
    let Some(config) = config else {
        return Ok(None);
    };
    if name == "key" {
        return asked_of_key(alloc, config, options);
    }
    let database = text_option(alloc, options, "db")?;
    if name == "check" {
        return asked_to_check(alloc, config, database, options);
    }
    let Some(database) = database else {
        return Ok(None);
    };
    match asked_of_book(alloc, name, options)? {
        Some(job) => Ok(Some(Job::Book(Paths { config, database }, job))),
        None => Ok(None),
    }
}

// What the options of `key` ask for, if they name an account of 1 to 253 octets.
fn asked_of_key(
    alloc: Global,
    config: Text,
    options: &ArgMatches<'_>,
) -> Result<Option<Job>, AllocError>
    requires { first_of (codes "config") (rows_of (found_of options.now)) ≡ Some config }
    ensures { IfOk result (λ job. IfSome job
        (WordsAskFor (codes "key") (rows_of (found_of options.now)))) }
{
    let Some(account) = account_option(alloc, options)? else {
        return Ok(None);
    };
    match number_option(options, "until", LAST_MOMENT) {
        Some(until) => Ok(Some(Job::Key {
            config,
            account,
            until,
        })),
        None => Ok(None),
    }
}

// What the options of `check` ask for, if there is a book or no audit is asked for.
fn asked_to_check(
    alloc: Global,
    config: Text,
    database: Option<Text>,
    options: &ArgMatches<'_>,
) -> Result<Option<Job>, AllocError>
    requires config { first_of (codes "config") (rows_of (found_of options.now)) ≡ Some config }
    requires database { first_of (codes "db") (rows_of (found_of options.now)) ≡ database }
    ensures { IfOk result (λ job. IfSome job
        (WordsAskFor (codes "check") (rows_of (found_of options.now)))) }
{
    let audits = flag_option(options, "audit");
    if audits && database.is_none() {
        return Ok(None);
    }
    let kept = kept_names(alloc, options)?;
    Ok(Some(Job::Check {
        config,
        database,
        kept,
        audits,
    }))
}

// The files that the options of `check` say a server is to write.
fn kept_names(alloc: Global, options: &ArgMatches<'_>) -> Result<KeptNames, AllocError>
    ensures { IfOk result (AreKeptNames (rows_of (found_of options.now))) }
{
    Ok(KeptNames {
        status: text_option(alloc, options, "status")?,
        balances: text_option(alloc, options, "balances")?,
    })
}

// What the options of a command that keeps a book ask for.
fn asked_of_book(
    alloc: Global,
    name: &str,
    options: &ArgMatches<'_>,
) -> Result<Option<BookJob>, AllocError>
    ensures { IfOk result (λ job. IfSome job
        (WordsAskOfBook name.now (rows_of (found_of options.now)))) }
{
    match name {
        "init" => Ok(Some(BookJob::Init {
            has_sums: flag_option(options, "page-sums"),
        })),
        "serve" => asked_to_serve(alloc, options),
        "import" => Ok(Some(BookJob::Import)),
        "export" => Ok(asked_to_export(options)),
        "migrate" => Ok(Some(BookJob::Migrate)),
        "plans" => Ok(Some(asked_of_plans(options))),
        "forward" => asked_to_carry(alloc, options),
        _ => Ok(None),
    }
}

// What the options of `plans` ask for.
fn asked_of_plans(options: &ArgMatches<'_>) -> BookJob
    ensures { WordsAskOfBook (codes "plans") (rows_of (found_of options.now)) result }
{
    if flag_option(options, "list") {
        BookJob::ListPlans
    } else {
        BookJob::AddPlans
    }
}

// What the options of `serve` ask for.
fn asked_to_serve(alloc: Global, options: &ArgMatches<'_>) -> Result<Option<BookJob>, AllocError>
    ensures { IfOk result (λ job. IfSome job
        (WordsAskOfBook (codes "serve") (rows_of (found_of options.now)))) }
{
    match serving_of(alloc, options)? {
        Some(serving) => Ok(Some(BookJob::Serve(serving))),
        None => Ok(None),
    }
}

// What the options of `forward` ask for.
fn asked_to_carry(alloc: Global, options: &ArgMatches<'_>) -> Result<Option<BookJob>, AllocError>
    ensures { IfOk result (λ job. IfSome job
        (WordsAskOfBook (codes "forward") (rows_of (found_of options.now)))) }
{
    match carrying_of(alloc, options)? {
        Some(carrying) => Ok(Some(BookJob::Forward(carrying))),
        None => Ok(None),
    }
}

// What the options of `export` ask for.
fn asked_to_export(options: &ArgMatches<'_>) -> Option<BookJob>
    ensures { IfSome result (WordsAskOfBook (codes "export") (rows_of (found_of options.now))) }
{
    let what = export_option(options)?;
    Some(BookJob::Export(what))
}

// What the options say that `export` writes.
fn export_option(options: &ArgMatches<'_>) -> Option<Export>
    ensures { IfSome result (IsExport (rows_of (found_of options.now))) }
{
    let text = options.get_str("what")?;
    export_named(text)
}

// The error if the arguments name no command, or an option is missing or out of its range.
fn no_job(alloc: Global) -> Error {
    let mut command = Command::new(alloc, PROGRAM);
    match command.error(
        ErrorKind::InvalidValue,
        "a command or an option is missing, a number isn't plain digits, a word isn't one that \
         help names, or there are more than 16 addresses",
    ) {
        Ok(error) => error,
        Err(error) => Error::from(error),
    }
}
