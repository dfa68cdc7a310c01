//! How the options of `serve` say that a server runs.
ghost use Rattle.std.specs.Prelude.{◌≡◌, IfOk, IfSome};
ghost use Rattle.clap.specs.Words.{all_of, first_of, rows_of, found_of};
ghost use Rattle.acct_program_args.specs.Orders.{IsAddresses, IsBalances, IsBounded, IsDeskAddress};
ghost use Rattle.acct_program_args.specs.Orders.{IsListening, IsNumber, IsServing, IsSyncs};
ghost use Rattle.acct_program_args.specs.Orders.{IsTelling, syncs_name};

use crate::job::{BalancesFile, Listening, Serving, Syncs, Telling};
use crate::option_limits::{MOST_ADDRESSES, MOST_SECONDS, MOST_TURNS};
use crate::options::{
    flag_option, is_given, number_option, oldest_option, port_option, text_option, texts_option,
};
use acct_model::Text;
use clap::ArgMatches;
use std::alloc::{AllocError, Global};

/// How the options of `serve` say that a server runs, if they fit.
pub fn serving_of(alloc: Global, options: &ArgMatches<'_>) -> Result<Option<Serving>, AllocError>
    ensures { IfOk result (λ serving. IfSome serving
        (IsServing (rows_of (found_of options.now)))) }
{
    let Some(turns) = number_option(options, "turns", MOST_TURNS) else {
        return Ok(None);
    };
    let Some(syncs) = syncs_option(options) else {
        return Ok(None);
    };
    let Some(oldest_report) = oldest_option(alloc, options)? else {
        return Ok(None);
    };
    let Some(listening) = listening_of(alloc, options)? else {
        return Ok(None);
    };
    let Some(telling) = telling_of(alloc, options)? else {
        return Ok(None);
    };
    Ok(Some(Serving {
        listening,
        turns,
        syncs,
        oldest_report,
        telling,
    }))
}

// How often the options say that the book is synced.
fn syncs_option(options: &ArgMatches<'_>) -> Option<Syncs>
    ensures { IfSome result (IsSyncs (rows_of (found_of options.now))) }
{
    let text = options.get_str("sync")?;
    syncs_named(text)
}

// How often a book is synced by this name.
fn syncs_named(name: &str) -> Option<Syncs>
    ensures { IfSome result (λ syncs. name.now ≡ syncs_name syncs) }
{
    match name {
        "once" => Some(Syncs::Once),
        "twice" => Some(Syncs::Twice),
        _ => None,
    }
}

// Where the options say that a server listens, if they fit.
fn listening_of(alloc: Global, options: &ArgMatches<'_>) -> Result<Option<Listening>, AllocError>
    ensures { IfOk result (λ listening. IfSome listening
        (IsListening (rows_of (found_of options.now)))) }
{
    let Some(radius_port) = port_option(options, "radius-port") else {
        return Ok(None);
    };
    let Some(desk_port) = port_option(options, "desk-port") else {
        return Ok(None);
    };
    let Some(desk_address) = desk_address(alloc, options)? else {
        return Ok(None);
    };
    let Some(addresses) = addresses(alloc, options)? else {
        return Ok(None);
    };
    Ok(Some(Listening {
        addresses,
        desk_address,
        radius_port,
        desk_port,
    }))
}

// The addresses at which the options say that reports are received, if there are 1 to 16.
fn addresses(alloc: Global, options: &ArgMatches<'_>) -> Result<Option<Vec<Text>>, AllocError>
    ensures { IfOk result (λ addresses. IfSome addresses
        (λ addresses. IsAddresses (rows_of (found_of options.now)) addresses.items)) }
{
    match texts_option(alloc, options, "bind")? {
        Some(texts) if !texts.is_empty() && texts.len() <= MOST_ADDRESSES => Ok(Some(texts)),
        _ => Ok(None),
    }
}

// The address of the desk: its own, or else the first of the others.
fn desk_address(alloc: Global, options: &ArgMatches<'_>) -> Result<Option<Text>, AllocError>
    ensures { IfOk result (λ address. IfSome address
        (IsDeskAddress (rows_of (found_of options.now)))) }
{
    match text_option(alloc, options, "desk-bind")? {
        Some(address) => Ok(Some(address)),
        None => text_option(alloc, options, "bind"),
    }
}

// What the options say that a server writes apart from its replies, if they fit.
fn telling_of(alloc: Global, options: &ArgMatches<'_>) -> Result<Option<Telling>, AllocError>
    ensures { IfOk result (λ telling. IfSome telling
        (IsTelling (rows_of (found_of options.now)))) }
{
    let Some(seconds) = number_option(options, "balances-every", MOST_SECONDS) else {
        return Ok(None);
    };
    let status = text_option(alloc, options, "status")?;
    let balances = match text_option(alloc, options, "balances")? {
        Some(file) => Some(BalancesFile { file, seconds }),
        None if is_given(options, "balances-every") => return Ok(None),
        None => None,
    };
    Ok(Some(Telling {
        is_quiet: flag_option(options, "quiet"),
        status,
        balances,
    }))
}
