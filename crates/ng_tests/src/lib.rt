//! Tests of the crates below `ng_session` through their public functions, for what no case of `ngc_cases` can show:
//! numbers and lines, pulses' times, programs and single lines, devices in memory and large records on them. No program
//! depends on this crate.
//!
//! Expected values are worked out from the language and from docs/DEVICE.md, by hand or by other means, never copied
//! from what the crates return. The tests are in crates of their own because a crate with tests is proved twice. Tests
//! that need private parts of a crate are in that crate.
#![tactic(auto)]

#[cfg(test)]
mod commands;
#[cfg(test)]
mod device;
#[cfg(test)]
mod faults;
#[cfg(test)]
mod lines;
#[cfg(test)]
mod numbers;
#[cfg(test)]
mod pacing;
#[cfg(test)]
mod parameters;
#[cfg(test)]
mod printing;
#[cfg(test)]
mod programs;
#[cfg(test)]
mod records;
#[cfg(test)]
mod sectors;
#[cfg(test)]
mod settings;
