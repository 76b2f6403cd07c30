//! Values of the past, which proofs alone read.
#![tactic(auto)]

mod past;

pub use past::Past;
