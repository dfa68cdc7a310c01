//! The values at the names of a document's tables.
ghost use Rattle.std.specs.Prelude.{◌≡◌, map, option_map, bytes_eq, string_bytes};
ghost use Rattle.std.specs.BTreeMap.{keys};
ghost use Rattle.std.specs.List.{list_all, list_any};
ghost use Rattle.std.specs.Option.{option_copied};
ghost use Rattle.toml.specs.Data.{get_member};
ghost use Rattle.toml.specs.View.{view, table_view};
ghost use Rattle.acct_site_config.specs.Tables as spec;

use toml::{Table, Value};

// The table that a value is, if it has no names but these.
pub(crate) fn table_of<'t>(value: &'t Value, known: &[&str]) -> Option<&'t Table>
    ensures { option_map (λ table. table_view table.now) result
        ≡ spec.table_shown (map (λ word. word.now) known.now) (view value.now) }
{
    only(value.as_table()?, known)
}

// The table, if it has no names but these.
pub(crate) fn only<'t>(table: &'t Table, known: &[&str]) -> Option<&'t Table>
    ensures { option_map (λ table. table_view table.now) result
        ≡ spec.only (map (λ word. word.now) known.now) (table_view table.now) }
{
    if !has_only(table, known) {
        return None;
    }
    Some(table)
}

// Whether each name of a table is one of these.
fn has_only(table: &Table, known: &[&str]) -> bool
    ensures { result ≡ list_all
        (λ name. list_any (λ word. bytes_eq (string_bytes name) word.now) known.now)
        (keys table.now) }
{
    table.keys().all(|name| is_one_of(name.as_str(), known))
}

fn is_one_of(name: &str, known: &[&str]) -> bool
    ensures { result ≡ list_any (λ word. bytes_eq name.now word.now) known.now }
{
    known.iter().any(|word| name == *word)
}

// The text at a name, if its value is a text.
pub(crate) fn text_at<'t>(table: &'t Table, name: &str) -> Option<&'t str>
    ensures { option_copied result ≡ spec.text_at name.now (table_view table.now) }
{
    match table.get(name) {
        Some(value) => value.as_str(),
        None => None,
    }
}

// The whole number at a name, if its value is a whole number.
pub(crate) fn integer_at(table: &Table, name: &str) -> Option<i64>
    ensures { result ≡ spec.integer_at name.now (table_view table.now) }
{
    match table.get(name) {
        Some(value) => value.as_integer(),
        None => None,
    }
}

// The text at a name, or a default if the name is absent. None if its value is no text.
pub(crate) fn text_or<'t>(table: &'t Table, name: &str, default: &'t str) -> Option<&'t str>
    ensures { option_copied result ≡ spec.text_or default.now name.now (table_view table.now) }
{
    match table.get(name) {
        Some(value) => value.as_str(),
        None => Some(default),
    }
}

// The text at a name, if there is one: none if its value is no text.
pub(crate) fn text_if<'t>(table: &'t Table, name: &str) -> Option<Option<&'t str>>
    ensures { option_map (λ text. option_map (λ t. t.now) text) result
        ≡ spec.text_if (get_member name.now (table_view table.now)) }
{
    match table.get(name) {
        Some(value) => match value.as_str() {
            Some(text) => Some(Some(text)),
            None => None,
        },
        None => Some(None),
    }
}

// The truth value at a name, false if the name is absent. None if its value is none.
pub(crate) fn bool_at(table: &Table, name: &str) -> Option<bool>
    ensures { result ≡ spec.bool_at name.now (table_view table.now) }
{
    match table.get(name) {
        Some(value) => value.as_bool(),
        None => Some(false),
    }
}

// The elements of the array at a name, if there are no more than a limit. An absent one is empty.
pub(crate) fn array_at<'t>(table: &'t Table, name: &str, limit: usize) -> Option<&'t [Value]>
    ensures { option_map (λ values. map view values.now) result
        ≡ spec.array_at name.now limit (table_view table.now) }
{
    let Some(value) = table.get(name) else {
        return Some(&[]);
    };
    match value.as_array() {
        Some(values) => {
            if values.len() > limit {
                return None;
            }
            Some(values.as_slice())
        }
        None => None,
    }
}
