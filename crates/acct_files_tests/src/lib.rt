//! Tests of `acct_files`, of what no contract says and the built program can't show: readers,
//! writers, books and allocations that fail. Worked texts are rows of `rows/desk.py`.
#![tactic(auto)]

#[cfg(test)]
mod exports;
#[cfg(test)]
mod imports;
#[cfg(test)]
mod limits;
