//! Tests of `acct_model`, of its public calls alone.
#![tactic(auto)]

#[cfg(test)]
mod caller;
#[cfg(test)]
mod names;
