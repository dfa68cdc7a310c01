//! Tests of `acct_net` and `acct_net_callers`, of their public calls alone.
#![tactic(auto)]

#[cfg(test)]
mod callers;
#[cfg(test)]
mod faults;
#[cfg(test)]
mod flaky;
#[cfg(test)]
mod silence;
