//! Which sessions the options of `forward` say are carried forward.
ghost use Rattle.std.specs.Prelude.{◌≡◌, IfOk, IfSome, unwrap_or, codes, []};
ghost use Rattle.clap.specs.Words.{all_of, rows_of, found_of};
ghost use Rattle.std.specs.Prelude.{◌≤◌};
ghost use Rattle.acct_program_args.specs.Orders.{IsCarrying, IsCutoff, IsSilence, IsNumber};

use crate::job::{Carrying, Cutoff};
use crate::option_limits::{FEWEST_DAYS, MOST_DAYS};
use crate::options::{
    flag_option, is_given, number_option, oldest_option, text_option, texts_option,
};
use acct_model::{LAST_MOMENT, Text};
use clap::ArgMatches;
use std::alloc::{AllocError, Global};

/// Which sessions the options of `forward` say are carried forward, and how, if they fit.
pub fn carrying_of(alloc: Global, options: &ArgMatches<'_>) -> Result<Option<Carrying>, AllocError>
    ensures { IfOk result (λ carrying. IfSome carrying
        (IsCarrying (rows_of (found_of options.now)))) }
{
    let Some(cutoff) = cutoff_of(alloc, options)? else {
        return Ok(None);
    };
    let Some(silent) = silence_of(alloc, options)? else {
        return Ok(None);
    };
    let Some(oldest_report) = oldest_option(alloc, options)? else {
        return Ok(None);
    };
    let kept = kept_clients(alloc, options)?;
    Ok(Some(Carrying {
        cutoff,
        silent,
        kept,
        is_dry: flag_option(options, "dry-run"),
        is_sure: flag_option(options, "yes"),
        oldest_report,
    }))
}

// From which moment on a session that has ended stays, if only one of both options is given.
fn cutoff_of(alloc: Global, options: &ArgMatches<'_>) -> Result<Option<Cutoff>, AllocError>
    ensures { IfOk result (λ cutoff. IfSome cutoff (IsCutoff (rows_of (found_of options.now)))) }
{
    if text_option(alloc, options, "at")?.is_none() {
        return match days_option(options, "before") {
            Some(days) => Ok(Some(Cutoff::Before(days))),
            None => Ok(None),
        };
    }
    if is_given(options, "before") {
        return Ok(None);
    }
    match number_option(options, "at", LAST_MOMENT) {
        Some(moment) => Ok(Some(Cutoff::At(moment))),
        None => Ok(None),
    }
}

// For how many days an open session must have been silent, if that is given.
fn silence_of(alloc: Global, options: &ArgMatches<'_>) -> Result<Option<Option<u64>>, AllocError>
    ensures { IfOk result (λ silent. IfSome silent (IsSilence (rows_of (found_of options.now)))) }
{
    if text_option(alloc, options, "silent")?.is_none() {
        return Ok(Some(None));
    }
    match days_option(options, "silent") {
        Some(days) => Ok(Some(Some(days))),
        None => Ok(None),
    }
}

// The number of days of an option.
fn days_option(options: &ArgMatches<'_>, id: &str) -> Option<u64>
    ensures { IfSome result (λ days.
        IsNumber id.now (rows_of (found_of options.now)) 36500 days × (30 ≤ days)) }
{
    let days = number_option(options, id, MOST_DAYS)?;
    if days < FEWEST_DAYS { None } else { Some(days) }
}

// The clients whose sessions stay.
fn kept_clients(alloc: Global, options: &ArgMatches<'_>) -> Result<Vec<Text>, AllocError>
    ensures { IfOk result (λ kept.
        unwrap_or (all_of (codes "keep") (rows_of (found_of options.now))) [] ≡ kept.items) }
{
    match texts_option(alloc, options, "keep")? {
        Some(kept) => Ok(kept),
        None => Ok(Vec::new(alloc)),
    }
}
