//! Tests of what the program does at moments that a test sets, and of reads that fail. All else of
//! it is in `rows/`, over the built program.
#![tactic(auto)]

#[cfg(test)]
mod minutes;
#[cfg(test)]
mod names;
#[cfg(test)]
mod reads;
