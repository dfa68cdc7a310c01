//! Tests of `acct_sql`, by its public calls only.
#![tactic(auto)]

#[cfg(test)]
mod calls;
#[cfg(test)]
mod sample_book;
#[cfg(test)]
mod sizes;
