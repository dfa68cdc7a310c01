//! What is explained, and where it is written.
use crate::config_faults::explain_config;
use crate::files::{has_sums, why_unmade, why_unopened, why_unread};
use crate::log_faults::{tell_damage, tell_lost};
use crate::reading::octets_of;
use acct_model::{LAST_MOMENT, Text};
use acct_program_args::{
    EXPORT_NAMES, FEWEST_DAYS, LAST_PORT, MOST_DAYS, MOST_SECONDS, MOST_TURNS, export_named,
};
use acct_reads::ReadsFiles;
use acct_site_config::ConfigError;
use std::alloc::Global;
use std::io::Write;
use std::str;

/// What is explained.
#[derive(Clone, Copy)]
pub enum Explained<'a> {
    /// A configuration is wrong.
    Config {
        /// Its file.
        file: &'a Text,
        /// The error that was printed.
        error: ConfigError,
    },
    /// A configuration cannot be read.
    Unread {
        /// Its file.
        file: &'a Text,
    },
    /// A book that should exist cannot be opened.
    Unopened {
        /// Its file.
        file: &'a Text,
        /// Whether it would be opened with a damaged log too.
        loses_commits: bool,
    },
    /// A book was opened.
    Opened {
        /// Its file.
        file: &'a Text,
    },
    /// A book that is to be made cannot be opened.
    Unmade {
        /// Its file.
        file: &'a Text,
    },
}

/// Writes one line that says what is known about a fault, beginning with `explained: `. Writes
/// nothing if no more than the fault is known. It examines the file again as it is now, and changes
/// none. A writer that fails changes nothing.
pub fn explain<R: ReadsFiles, E: Write>(
    runtime: &R,
    alloc: Global,
    what: Explained<'_>,
    errors: &mut E,
) {
    match what {
        Explained::Config { file, error } => {
            explain_file(runtime, alloc, file.as_str(), error, errors);
        }
        Explained::Unread { file } => {
            tell(file.as_str(), why_unread(runtime, file.as_str()), errors);
        }
        Explained::Unopened {
            file,
            loses_commits,
        } => {
            let is_told = tell_lost(runtime, alloc, file.as_str(), errors)
                || (!loses_commits && tell_damage(runtime, alloc, file.as_str(), false, errors));
            if !is_told {
                let why = why_unopened(runtime, alloc, file.as_str());
                tell(file.as_str(), why, errors);
            }
        }
        Explained::Opened { file } => {
            if has_sums(runtime, file.as_str()) {
                tell(file.as_str(), "each page ends in a sum", errors);
            }
        }
        Explained::Unmade { file } => {
            let is_told = tell_lost(runtime, alloc, file.as_str(), errors)
                || tell_damage(runtime, alloc, file.as_str(), true, errors);
            if !is_told {
                let why = why_unmade(runtime, alloc, file.as_str());
                tell(file.as_str(), why, errors);
            }
        }
    }
}

// Writes one line about a file.
fn tell<E: Write>(file: &str, why: &str, errors: &mut E) {
    let _ = writeln!(errors, "explained: {file}: {why}");
}

// Reads a configuration again, and writes what is wrong with it.
fn explain_file<R: ReadsFiles, E: Write>(
    runtime: &R,
    alloc: Global,
    file: &str,
    error: ConfigError,
    errors: &mut E,
) {
    let Some(octets) = octets_of(runtime, alloc, file) else {
        return;
    };
    match str::from_utf8(&octets) {
        Ok(text) => explain_config(alloc, file, text, error, errors),
        Err(_) => tell(file, "it is not UTF-8", errors),
    }
}

// An option that takes one of a few values, and these values.
#[derive(Clone, Copy)]
struct Choice {
    option: &'static str,
    takes: &'static str,
    words: &'static [&'static str],
}

static CHOICES: [Choice; 1] = [Choice {
    option: "--sync",
    takes: "once or twice",
    words: &["once", "twice"],
}];

// An option that takes a number, with the least and the greatest.
#[derive(Clone, Copy)]
struct Range {
    option: &'static str,
    least: u64,
    most: u64,
}

static RANGES: [Range; 8] = [
    Range {
        option: "--radius-port",
        least: 1,
        most: LAST_PORT,
    },
    Range {
        option: "--desk-port",
        least: 1,
        most: LAST_PORT,
    },
    Range {
        option: "--turns",
        least: 1,
        most: MOST_TURNS,
    },
    Range {
        option: "--balances-every",
        least: 1,
        most: MOST_SECONDS,
    },
    Range {
        option: "--oldest-report",
        least: 1,
        most: MOST_DAYS,
    },
    Range {
        option: "--before",
        least: FEWEST_DAYS,
        most: MOST_DAYS,
    },
    Range {
        option: "--silent",
        least: FEWEST_DAYS,
        most: MOST_DAYS,
    },
    Range {
        option: "--at",
        least: 1,
        most: LAST_MOMENT,
    },
];

/// Writes one line that says which argument is wrong, if `--explain` is given and that is known. It
/// is an option with a value that it doesn't take, or the argument of `export`. `words` begins with
/// the program's name. A writer that fails changes nothing.
pub fn explain_words<E: Write>(words: &[String], errors: &mut E) {
    if !words.iter().any(|word| word.as_str() == "--explain") {
        return;
    }
    if let Some(choice) = CHOICES.iter().find(|choice| is_other(words, choice)) {
        let (option, takes) = (choice.option, choice.takes);
        let _ = writeln!(errors, "explained: {option} takes {takes}");
    } else if let Some(range) = RANGES.iter().find(|range| is_outside(words, range)) {
        let (option, least, most) = (range.option, range.least, range.most);
        let _ = writeln!(
            errors,
            "explained: {option} takes a number from {least} to {most}"
        );
    } else if has_no_export(words) {
        let _ = writeln!(errors, "explained: WHAT is {EXPORT_NAMES}");
    }
}

// Whether a command line gives an option a value that it doesn't take.
fn is_other(words: &[String], choice: &Choice) -> bool {
    value_of(words, choice.option).is_some_and(|value| !choice.words.contains(&value))
}

// Whether a command line gives an option a number that it doesn't take, or no number.
fn is_outside(words: &[String], range: &Range) -> bool {
    value_of(words, range.option).is_some_and(|value| match value.parse::<u64>() {
        Ok(number) => number < range.least || number > range.most,
        Err(_) => true,
    })
}

// The value that follows an option or its `=` in a command line.
fn value_of<'w>(words: &'w [String], option: &str) -> Option<&'w str> {
    for (place, word) in words.iter().enumerate() {
        let Some(rest) = word.as_str().strip_prefix(option) else {
            continue;
        };
        if rest.is_empty() {
            let next = words.get(place.saturating_add(1))?;
            return Some(next.as_str());
        }
        if let Some(value) = rest.strip_prefix('=') {
            return Some(value);
        }
    }
    None
}

// Whether a command line is of `export` and has none of the names that it takes.
fn has_no_export(words: &[String]) -> bool {
    let is_export = words.get(1).is_some_and(|word| word.as_str() == "export");
    is_export
        && !words
            .iter()
            .any(|word| export_named(word.as_str()).is_some())
}
