//! Tests of `acct_service`, by its public calls only.
#![tactic(auto)]

#[cfg(test)]
mod clock;
#[cfg(test)]
mod failing;
#[cfg(test)]
mod runs;
