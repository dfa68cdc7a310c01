//! `feed`: the lines of a script, answered over any book.
//!
//! 1. A line is read whole before it is answered; what isn't in the language is a bad line.
//! 2. `specs/Feed.antt` and `Answers.antt` define the answer to a line, and its text.
//! 3. A run answers each line over the book as the line before left it, and prints its answer.
#![tactic(auto)]

mod answer;
mod feed;
mod line;
mod line_fault;
mod lines;
mod octet_words;
mod script_server;
mod shown_row;
mod stop;
mod words;

pub use feed::{answer_input, answer_reader, end};
