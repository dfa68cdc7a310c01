//! What is wrong with the text of a configuration.
use crate::fields::kind_of;
use crate::finding::{Finding, What};
use crate::headers::{header_line, line_at};
use crate::table_faults::{top_finding, twice_in, wrong_in};
use acct_site_config::{ConfigError, ConfigKind};
use std::alloc::{AllocError, Global};
use std::io::Write;
use toml::{Table, Value};

/// Writes one line that says where in the text of a configuration its first fault is and what would
/// be right. Writes nothing if no more than the fault is known. The line calls the text `file`. An
/// allocation or a writer that fails changes nothing.
pub fn explain_config<E: Write>(
    alloc: Global,
    file: &str,
    text: &str,
    error: ConfigError,
    errors: &mut E,
) {
    match toml::table_from_str(alloc, text) {
        Ok(document) => {
            if let Ok(Some(finding)) = finding_in(alloc, text, &document, error) {
                tell(file, &finding, errors);
            }
        }
        Err(fault) => {
            if let Some(place) = fault.span() {
                let finding = Finding {
                    line: Some(line_at(text.as_bytes(), place.start)),
                    what: What::Syntax(&fault),
                };
                tell(file, &finding, errors);
            }
        }
    }
}

// Writes one line about a finding.
fn tell<E: Write>(file: &str, finding: &Finding<'_>, errors: &mut E) {
    let what = finding.what;
    let _ = match finding.line {
        Some(line) => writeln!(errors, "explained: {file} line {line}: {what}"),
        None => writeln!(errors, "explained: {file}: {what}"),
    };
}

// What is wrong with a document.
fn finding_in<'d>(
    alloc: Global,
    text: &str,
    document: &'d Table,
    error: ConfigError,
) -> Result<Option<Finding<'d>>, AllocError> {
    let Some((kind, fields)) = kind_of(error.table) else {
        return Ok(top_finding(document, error.kind));
    };
    let Some(tables) = array_of(document, kind.table) else {
        return Ok(None);
    };
    let Some(value) = tables.get(error.index) else {
        return Ok(None);
    };
    let line = header_line(text, kind.table, error.index, tables.len());
    let Some(table) = value.as_table() else {
        return Ok(Some(Finding {
            line,
            what: What::Said("a table of names stands in double brackets, as [[client]]"),
        }));
    };
    let what = match error.kind {
        ConfigKind::TwiceClient | ConfigKind::TwicePlanned | ConfigKind::TwiceKeyed => {
            twice_in(text, kind, fields, tables, error.index)
        }
        ConfigKind::NoStamp => Some(What::Said(
            "the logins of this [[client]] are stamped, and there is no [stamp] with a secret",
        )),
        _ => wrong_in(alloc, kind, fields, table, error.kind)?,
    };
    Ok(what.map(|what| Finding { line, what }))
}

// The tables of an array.
fn array_of<'d>(document: &'d Table, name: &str) -> Option<&'d [Value]> {
    Some(document.get(name)?.as_array()?.as_slice())
}
