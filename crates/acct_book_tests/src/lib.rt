//! Tests of `acct_book`, by its public calls only.
#![tactic(auto)]

#[cfg(test)]
mod memory;
#[cfg(test)]
mod refusals;
