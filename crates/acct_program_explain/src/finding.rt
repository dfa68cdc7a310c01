//! What is found wrong in a configuration, in an operator's words.
use std::fmt;
use toml::de::Error;

// What is found wrong, and on which line.
pub(crate) struct Finding<'t> {
    // The line, from 1, if it is known.
    pub(crate) line: Option<usize>,
    // What is wrong there.
    pub(crate) what: What<'t>,
}

impl Drop for Finding<'_> {
    fn drop(self) {
        let Finding { line: _, what: _ } = self;
    }
}

// What is wrong. A `table` is the name of an array of tables.
#[derive(Clone, Copy)]
pub(crate) enum What<'t> {
    // It isn't TOML.
    Syntax(&'t Error),
    // A value breaks its rule.
    Rule {
        table: &'static str,
        field: &'static str,
        rule: &'static str,
    },
    // A name is missing.
    Missing {
        table: &'static str,
        field: &'static str,
    },
    // A name is unknown.
    Unknown {
        table: &'static str,
        name: &'t str,
        known: &'static str,
    },
    // An earlier table has the same value, on this line if it is known.
    Twice {
        table: &'static str,
        field: &'static str,
        earlier: Option<usize>,
    },
    // The text as a whole has a name that is unknown.
    UnknownAtTop {
        name: &'t str,
    },
    // A name of the text as a whole has a value that is no array of tables.
    NoArray {
        name: &'t str,
    },
    // A text that is always the same.
    Said(&'static str),
}

// Each text is in a function of its own, so that the proof of one does not go through the others.
impl fmt::Display for What<'_> {
    fn fmt<W: fmt::Write>(&self, f: &mut fmt::Formatter<W>) -> fmt::Result {
        match self {
            What::Syntax(error) => write_syntax(f, error),
            What::Rule { table, field, rule } => write_rule(f, table, field, rule),
            What::Missing { table, field } => write_missing(f, table, field),
            What::Unknown { table, name, known } => write_unknown(f, table, name, known),
            What::Twice {
                table,
                field,
                earlier,
            } => write_twice(f, table, field, *earlier),
            What::UnknownAtTop { name } => write_unknown_at_top(f, name),
            What::NoArray { name } => write_no_array(f, name),
            What::Said(text) => f.write_str(text),
        }
    }
}

fn write_syntax<W: fmt::Write>(f: &mut fmt::Formatter<W>, error: &Error) -> fmt::Result {
    write!(f, "this is not TOML: {}", error.message())
}

fn write_rule<W: fmt::Write>(
    f: &mut fmt::Formatter<W>,
    table: &str,
    field: &str,
    rule: &str,
) -> fmt::Result {
    write!(f, "{field} of this [[{table}]] is {rule}")
}

fn write_missing<W: fmt::Write>(
    f: &mut fmt::Formatter<W>,
    table: &str,
    field: &str,
) -> fmt::Result {
    write!(f, "this [[{table}]] has no {field}")
}

// A name in quotes may have line ends, so it is shown with them escaped.
fn write_unknown<W: fmt::Write>(
    f: &mut fmt::Formatter<W>,
    table: &str,
    name: &str,
    known: &str,
) -> fmt::Result {
    write!(f, "{name:?} is no name of a [[{table}]], which has {known}")
}

fn write_twice<W: fmt::Write>(
    f: &mut fmt::Formatter<W>,
    table: &str,
    field: &str,
    earlier: Option<usize>,
) -> fmt::Result {
    match earlier {
        Some(line) => write!(
            f,
            "this [[{table}]] has the {field} of the one at line {line}"
        ),
        None => write!(f, "this [[{table}]] has the {field} of an earlier one"),
    }
}

fn write_unknown_at_top<W: fmt::Write>(f: &mut fmt::Formatter<W>, name: &str) -> fmt::Result {
    write!(
        f,
        "{name:?} is no name: there are [[client]], [[plan]], [[key]], [stamp] and [[withdrawn]]"
    )
}

fn write_no_array<W: fmt::Write>(f: &mut fmt::Formatter<W>, name: &str) -> fmt::Result {
    write!(f, "{name} is written [[{name}]]")
}
