//! Tests of the console's language and of devices in files, through public functions. No program depends on this crate.
//!
//! Expected values are worked out by hand from the language, never copied from what the crates return.
#![tactic(auto)]

#[cfg(test)]
mod cached;
#[cfg(test)]
mod console_lines;
#[cfg(test)]
mod dialogue;
#[cfg(test)]
mod files;
#[cfg(test)]
mod lasting;
