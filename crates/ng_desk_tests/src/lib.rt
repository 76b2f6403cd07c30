//! Tests of a desk for callers in threads, and of a controller that is given a list of events, over devices in memory,
//! through public functions. No program depends on this crate.
//!
//! Expected values are worked out by hand from what a controller does, never copied from what the crates return.
#![tactic(auto)]

#[cfg(test)]
mod callers;
#[cfg(test)]
mod devices;
#[cfg(test)]
mod listed;
#[cfg(test)]
mod memory;
