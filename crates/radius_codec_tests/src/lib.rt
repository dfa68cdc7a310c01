//! Tests of `radius_codec`, of its public calls alone.
#![tactic(auto)]

#[cfg(test)]
mod hmacs;
#[cfg(test)]
mod names;
#[cfg(test)]
mod packets;
#[cfg(test)]
mod requests;
#[cfg(test)]
mod responses;
#[cfg(test)]
mod samples;
