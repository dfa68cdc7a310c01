//! The program's command line, with its commands.
//!
//! Each step takes what the step before returned, a command or an allocation error, so that no
//! command is dropped in between.
ghost use Rattle.std.specs.Prelude.{◌≡◌, false, true, codes};
ghost use Rattle.clap.specs.Words.{App, Rule, app_of, rule_of, new_app, with_rule, with_subcommand};
ghost use Rattle.acct_program_args.specs.CommandLine.{app, bare_app, feed_app, check_app, book_app};
ghost use Rattle.acct_program_args.specs.CommandLine.{configured_app, serve_app, export_app};
ghost use Rattle.acct_program_args.specs.CommandLine.{forward_app, init_app, opening_app};
ghost use Rattle.acct_program_args.specs.CommandLine.{key_app, plans_app};
ghost use Rattle.acct_program_args.specs.inner.Made.{IsMade};

use crate::args::{
    account_option, at_option, audit_option, balances_every_option, balances_option, before_option,
    bind_option, config_option, database_option, desk_bind_option, dry_run_flag, explain_flag,
    keep_option, list_flag, lose_flag, needed, oldest_option, page_sums_flag, port_option,
    quiet_flag, silent_option, status_option, sync_option, turns_option, until_option, what_option,
    yes_flag,
};
use clap::{Arg, Command};
use std::alloc::{AllocError, Global};

/// The program's name.
pub const PROGRAM: &str = "radacctd";
/// The program's version, and the number of the schema of the books that it keeps.
const VERSION: &str = "0.1.0 (schema 3)";

/// The command line.
pub fn command_line<'a>(alloc: Global) -> Result<Command<'a>, AllocError>
    ensures { IsMade app result }
{
    let program = Ok(bare_program(alloc));
    let program = with_command(program, feed_command(alloc));
    let program = with_command(program, check_command(alloc));
    let program = with_command(program, init_command(alloc));
    let program = with_command(program, serve_command(alloc));
    let program = with_command(program, import_command(alloc));
    let program = with_command(program, export_command(alloc));
    let program = with_command(program, migrate_command(alloc));
    let program = with_command(program, plans_command(alloc));
    let program = with_command(program, forward_command(alloc));
    with_command(program, key_command(alloc))
}

// The program without its commands.
fn bare_program<'a>(alloc: Global) -> Command<'a>
    ensures { app_of result ≡ bare_app }
{
    Command::new(alloc, PROGRAM)
        .about("A RADIUS accounting server with prepaid data allowances (RFC 2866)")
        .version(VERSION)
        .subcommand_required(true)
}

// A program with one command more.
fn with_command<'a>(
    program: Result<Command<'a>, AllocError>,
    command: Result<Command<'a>, AllocError>,
) -> Result<Command<'a>, AllocError>
    ensures { (a b : App) → IsMade a program.entry → IsMade b command.entry → b.top.is_plain ≡ true
        → IsMade (with_subcommand a b.top) result }
{
    let program = program?;
    let command = command?;
    program.subcommand(command)
}

// A command with one option more.
fn with_option<'a>(
    command: Result<Command<'a>, AllocError>,
    option: Arg<'a>,
) -> Result<Command<'a>, AllocError>
    requires { option.global ≡ false }
    ensures { (a : App) (rule : Rule) → IsMade a command.entry → rule_of option.entry ≡ rule
        → IsMade (with_rule a rule) result }
{
    let command = command?;
    command.arg(option)
}

// A command without options.
fn new_command<'a>(alloc: Global, name: &'a str, about: &'a str) -> Result<Command<'a>, AllocError>
    ensures { IsMade (new_app name.now) result }
{
    Ok(Command::new(alloc, name).about(about))
}

fn feed_command<'a>(alloc: Global) -> Result<Command<'a>, AllocError>
    ensures { IsMade feed_app result }
{
    let about =
        "Answers packets, vouchers and questions from standard input, over a book in memory";
    let command = new_command(alloc, "feed", about);
    let command = with_option(command, config_option(alloc));
    with_option(command, explain_flag(alloc))
}

fn check_command<'a>(alloc: Global) -> Result<Command<'a>, AllocError>
    ensures { IsMade check_app result }
{
    let about = "Reads a configuration, and says what it has or the first thing that is wrong";
    let book = "A book that is to keep the same plans, a SQLite database";
    let audit = audit_option(alloc)?;
    let command = configured_command(alloc, "check", about);
    let command = with_option(command, database_option(alloc, book));
    let command = with_option(command, status_option(alloc));
    let command = with_option(command, balances_option(alloc));
    let command = with_option(command, audit);
    let command = with_option(command, explain_flag(alloc));
    with_option(command, lose_flag(alloc))
}

fn serve_command<'a>(alloc: Global) -> Result<Command<'a>, AllocError>
    ensures { IsMade serve_app result }
{
    let about = "Answers access servers by RADIUS accounting, and callers of the desk by HTTP";
    let reports = "The UDP port for accounting reports, 1 to 65535";
    let desk = "The TCP port of the desk, 1 to 65535";
    let oldest = "Drops reports that are more than so many days old when they come";
    let balances_every = balances_every_option(alloc)?;
    let command = opening_command(alloc, "serve", about);
    let command = with_option(command, bind_option(alloc));
    let command = with_option(command, desk_bind_option(alloc));
    let command = with_option(command, port_option(alloc, "radius-port", "1813", reports));
    let command = with_option(command, port_option(alloc, "desk-port", "8066", desk));
    let command = with_option(command, turns_option(alloc));
    let command = with_option(command, sync_option(alloc));
    let command = with_option(command, quiet_flag(alloc));
    let command = with_option(command, status_option(alloc));
    let command = with_option(command, balances_option(alloc));
    let command = with_option(command, balances_every);
    with_option(command, oldest_option(alloc, oldest))
}

fn init_command<'a>(alloc: Global) -> Result<Command<'a>, AllocError>
    ensures { IsMade init_app result }
{
    let about = "Makes an empty book in a file, for the plans of a configuration";
    with_option(book_command(alloc, "init", about), page_sums_flag(alloc))
}

fn import_command<'a>(alloc: Global) -> Result<Command<'a>, AllocError>
    ensures { IsMade (opening_app (codes "import")) result }
{
    let about = "Credits the vouchers of standard input, CSV of voucher,account,sum";
    opening_command(alloc, "import", about)
}

fn export_command<'a>(alloc: Global) -> Result<Command<'a>, AllocError>
    ensures { IsMade export_app result }
{
    let about = "Writes the sessions, balances, topups or overruns of a book as CSV";
    with_option(opening_command(alloc, "export", about), what_option(alloc))
}

fn migrate_command<'a>(alloc: Global) -> Result<Command<'a>, AllocError>
    ensures { IsMade (opening_app (codes "migrate")) result }
{
    let about = "Makes a book of an earlier version one of this version, with the same balances";
    opening_command(alloc, "migrate", about)
}

fn plans_command<'a>(alloc: Global) -> Result<Command<'a>, AllocError>
    ensures { IsMade plans_app result }
{
    let about = "Adds the plans of a configuration that a book does not keep yet";
    with_option(opening_command(alloc, "plans", about), list_flag(alloc))
}

fn forward_command<'a>(alloc: Global) -> Result<Command<'a>, AllocError>
    ensures { IsMade forward_app result }
{
    let about = "Carries old sessions forward into a line for each account; no balance changes";
    let oldest = "What serve has: refuses to carry sessions whose late reports it would still take";
    let command = opening_command(alloc, "forward", about);
    let command = with_option(command, before_option(alloc));
    let command = with_option(command, at_option(alloc));
    let command = with_option(command, silent_option(alloc));
    let command = with_option(command, keep_option(alloc));
    let command = with_option(command, dry_run_flag(alloc));
    let command = with_option(command, yes_flag(alloc));
    with_option(command, oldest_option(alloc, oldest))
}

fn key_command<'a>(alloc: Global) -> Result<Command<'a>, AllocError>
    ensures { IsMade key_app result }
{
    let about = "Prints a key that shows an account's pages until a moment, signed by [stamp]";
    let command = configured_command(alloc, "key", about);
    let command = with_option(command, needed(until_option(alloc)));
    let command = with_option(command, explain_flag(alloc));
    with_option(command, account_option(alloc))
}

// A command that opens an existing book.
fn opening_command<'a>(
    alloc: Global,
    name: &'a str,
    about: &'a str,
) -> Result<Command<'a>, AllocError>
    ensures { IsMade (opening_app name.now) result }
{
    with_option(book_command(alloc, name, about), lose_flag(alloc))
}

// A command that keeps a book.
fn book_command<'a>(alloc: Global, name: &'a str, about: &'a str) -> Result<Command<'a>, AllocError>
    ensures { IsMade (book_app name.now) result }
{
    let book = "The book, a SQLite database: /var/lib/radacctd/book, say";
    let command = configured_command(alloc, name, about);
    let command = with_option(command, needed(database_option(alloc, book)));
    with_option(command, explain_flag(alloc))
}

// A command that needs a configuration.
fn configured_command<'a>(
    alloc: Global,
    name: &'a str,
    about: &'a str,
) -> Result<Command<'a>, AllocError>
    ensures { IsMade (configured_app name.now) result }
{
    with_option(
        new_command(alloc, name, about),
        needed(config_option(alloc)),
    )
}
