//! Tests of `acct_desk`, of what no contract says and the built program can't show: calls of a book,
//! allocations and readers that fail. What the desk answers is shown by `rows/desk.py`.
#![tactic(auto)]

#[cfg(test)]
mod desk;
#[cfg(test)]
mod reading;
#[cfg(test)]
mod refusals;
