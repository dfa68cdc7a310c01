//! Tests of `acct_wire`: packets of other programs, and calls of a book and allocations that fail.
//! Which datagrams are answered is proved; stamped clients are shown by `rows/stamped.py`.
#![tactic(auto)]

#[cfg(test)]
mod foreign;
#[cfg(test)]
mod refusals;
#[cfg(test)]
mod site;
