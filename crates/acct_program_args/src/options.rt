//! What was found for an option.
ghost use Rattle.std.specs.Prelude.{◌≡◌, IfOk, IfSome, IfNone, Some, None, map};
ghost use Rattle.clap.specs.Words.{all_of, first_of, rows_of, found_of};
ghost use Rattle.clap.specs.Takes.{is_given as given_by_words};
ghost use Rattle.acct_program_args.specs.Orders.{IsAccount, IsFlag, IsNumber, IsOldest};

use crate::option_limits::{LAST_PORT, MOST_DAYS};
use acct_model::{Octets, Text, is_account, number_up_to, unshow};
use clap::ArgMatches;
use clap::parser::ValueSource;
use std::alloc::{AllocError, Global};

/// The text of an option, if it has one.
pub fn text_option(
    alloc: Global,
    options: &ArgMatches<'_>,
    id: &str,
) -> Result<Option<Text>, AllocError>
    ensures { IfOk result (λ text. text ≡ first_of id.now (rows_of (found_of options.now))) }
{
    match options.get_str(id) {
        Some(text) => Ok(Some(Text::from_str(alloc, text)?)),
        None => Ok(None),
    }
}

/// The texts of an option that may be given more than once, if it has any.
pub fn texts_option(
    alloc: Global,
    options: &ArgMatches<'_>,
    id: &str,
) -> Result<Option<Vec<Text>>, AllocError>
    ensures some { IfOk result (λ texts. IfSome texts
        (λ texts. all_of id.now (rows_of (found_of options.now)) ≡ Some texts.items)) }
    ensures none { IfOk result (λ texts. IfNone texts
        (all_of id.now (rows_of (found_of options.now)) ≡ None)) }
{
    match options.get_strs(id) {
        Some(words) => Ok(Some(copied(alloc, words)?)),
        None => Ok(None),
    }
}

// Copies of the values of an option.
fn copied(alloc: Global, words: &[&str]) -> Result<Vec<Text>, AllocError>
    ensures { IfOk result (λ texts. texts.items ≡ map (λ word. word.now) words.now) }
{
    let mut texts = Vec::with_capacity(alloc, words.len())?;
    for word in words {
        texts.push(Text::from_str(alloc, word)?)?;
    }
    Ok(texts)
}

/// The number of an option, if it has one from 1 to the given one.
pub fn number_option(options: &ArgMatches<'_>, id: &str, most: u64) -> Option<u64>
    ensures { IfSome result (IsNumber id.now (rows_of (found_of options.now)) most) }
{
    let text = options.get_str(id)?;
    let number = number_up_to(text, most)?;
    if number == 0 { None } else { Some(number) }
}

/// The account that is named, percent-decoded, if it has 1 to 253 octets.
pub fn account_option(alloc: Global, options: &ArgMatches<'_>) -> Result<Option<Octets>, AllocError>
    ensures { IfOk result (λ account. IfSome account (IsAccount (rows_of (found_of options.now)))) }
{
    let Some(text) = options.get_str("account") else {
        return Ok(None);
    };
    let Ok(octets) = unshow(alloc, text) else {
        return Err(AllocError);
    };
    if is_account(&octets) {
        Ok(Some(Octets { octets }))
    } else {
        Ok(None)
    }
}

/// The port of an option, if it has one.
pub fn port_option(options: &ArgMatches<'_>, id: &str) -> Option<u16>
    ensures { IfSome result (IsNumber id.now (rows_of (found_of options.now)) 65535) }
{
    let port = number_option(options, id, LAST_PORT)?;
    Some(port as u16)
}

/// How many days old a report may be, if that is given and fits.
pub fn oldest_option(
    alloc: Global,
    options: &ArgMatches<'_>,
) -> Result<Option<Option<u64>>, AllocError>
    ensures { IfOk result (λ oldest. IfSome oldest (IsOldest (rows_of (found_of options.now)))) }
{
    if text_option(alloc, options, "oldest-report")?.is_none() {
        return Ok(Some(None));
    }
    match number_option(options, "oldest-report", MOST_DAYS) {
        Some(days) => Ok(Some(Some(days))),
        None => Ok(None),
    }
}

/// Whether a flag is given.
pub fn flag_option(options: &ArgMatches<'_>, id: &str) -> bool
    ensures { IsFlag id.now (rows_of (found_of options.now)) result }
{
    options.get_flag(id)
}

/// Whether the command line gives an option. Its default does not count.
pub fn is_given(options: &ArgMatches<'_>, id: &str) -> bool
    ensures { result ≡ given_by_words id.now (rows_of (found_of options.now)) }
{
    match options.value_source(id) {
        Some(ValueSource::DefaultValue) => false,
        Some(ValueSource::CommandLine) => true,
        None => options.contains_id(id),
    }
}
