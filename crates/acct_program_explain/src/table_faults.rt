//! What is wrong with a table of a configuration, and with the text as a whole.
use crate::fields::{Field, Kind, field_at_fault};
use crate::finding::{Finding, What};
use crate::headers::header_line;
use acct_site_config::ConfigKind;
use std::alloc::{AllocError, Global};
use toml::{Table, Value};

// The names of the arrays.
const ARRAYS: [&str; 4] = ["client", "plan", "key", "withdrawn"];
// The name of the table of the secrets that sign stamps.
const STAMP: &str = "stamp";
// The names of a key that say who bears it.
const BEARERS: [&str; 3] = ["account", "cashier", "logins"];

// What is wrong with the text as a whole.
pub(crate) fn top_finding(document: &Table, fault: ConfigKind) -> Option<Finding<'_>> {
    let what = match fault {
        ConfigKind::NoDefault => What::Said("no [[plan]] has the class default"),
        ConfigKind::BadShape => top_shape(document),
        ConfigKind::BadStamp => What::Said("a secret of [stamp] has 16 to 64 octets"),
        _ => return None,
    };
    Some(Finding { line: None, what })
}

// Which name of the text as a whole is wrong.
fn top_shape(document: &Table) -> What<'_> {
    for (name, value) in document {
        if name.as_str() == STAMP {
            if let Some(what) = stamp_shape(value) {
                return what;
            }
            continue;
        }
        if !ARRAYS.contains(&name.as_str()) {
            return What::UnknownAtTop { name };
        }
        if !value.is_array() {
            return What::NoArray { name };
        }
    }
    What::Said("1024 [[client]], 256 [[plan]], 4096 [[key]] and 1024 [[withdrawn]] are the most")
}

// What is wrong with the shape of the stamp's table.
fn stamp_shape(value: &Value) -> Option<What<'_>> {
    let Some(table) = value.as_table() else {
        return Some(What::Said("the stamp is one table, [stamp]"));
    };
    for (name, value) in table {
        if name.as_str() != "secret" && name.as_str() != "old" {
            return Some(What::Said("[stamp] has secret, perhaps old, and no other name"));
        }
        if !value.is_str() {
            return Some(What::Said("a secret of [stamp] is a text in quotes"));
        }
    }
    if !table.contains_key("secret") {
        return Some(What::Said("[stamp] has no secret"));
    }
    None
}

// What is wrong with a table by itself, without regard to earlier ones.
pub(crate) fn wrong_in<'d>(
    alloc: Global,
    kind: Kind,
    fields: &'static [Field],
    table: &'d Table,
    fault: ConfigKind,
) -> Result<Option<What<'d>>, AllocError> {
    if fault == ConfigKind::BadShape {
        if let Some(what) = wrong_names(kind, fields, table) {
            return Ok(Some(what));
        }
    }
    let field = field_at_fault(alloc, kind, fields, table, fault)?;
    Ok(field.map(|field| What::Rule {
        table: kind.table,
        field: field.name,
        rule: field.rule,
    }))
}

// Which name of a table is unknown or missing.
fn wrong_names<'d>(kind: Kind, fields: &'static [Field], table: &'d Table) -> Option<What<'d>> {
    for name in table.keys() {
        if !fields.iter().any(|field| field.name == name.as_str()) {
            return Some(What::Unknown {
                table: kind.table,
                name,
                known: kind.known,
            });
        }
    }
    for field in fields {
        if field.is_required && !table.contains_key(field.name) {
            return Some(What::Missing {
                table: kind.table,
                field: field.name,
            });
        }
    }
    wrong_bearer(kind, table)
}

// What is wrong with a key that has none of the names of who bears it, or more than one.
fn wrong_bearer<'d>(kind: Kind, table: &'d Table) -> Option<What<'d>> {
    if kind.table != "key" {
        return None;
    }
    let named = BEARERS.iter().filter(|name| table.contains_key(**name));
    match named.count() {
        0 => Some(What::Said("this [[key]] has none of account, cashier and logins")),
        1 if table.contains_key("accounts") && !table.contains_key("cashier") => {
            Some(What::Said("this [[key]] has accounts without cashier"))
        }
        1 => None,
        _ => Some(What::Said("this [[key]] has more than one of account, cashier and logins")),
    }
}

// Which unique name of a table has the same text as in an earlier table, and on which line that one
// begins.
pub(crate) fn twice_in<'d>(
    text: &str,
    kind: Kind,
    fields: &'static [Field],
    tables: &'d [Value],
    index: usize,
) -> Option<What<'d>> {
    for field in fields.iter().filter(|field| field.is_unique) {
        if let Some(first) = first_alike(tables, index, field.name) {
            return Some(What::Twice {
                table: kind.table,
                field: field.name,
                earlier: header_line(text, kind.table, first, tables.len()),
            });
        }
    }
    None
}

// The index of the first table before an index that has the same text at a name.
fn first_alike(tables: &[Value], index: usize, name: &str) -> Option<usize> {
    let text = text_at(tables.get(index)?, name)?;
    let earlier = tables.get(..index)?;
    earlier
        .iter()
        .position(|table| text_at(table, name) == Some(text))
}

fn text_at<'d>(table: &'d Value, name: &str) -> Option<&'d str> {
    table.as_table()?.get(name)?.as_str()
}
