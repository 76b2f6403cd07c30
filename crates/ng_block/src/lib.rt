//! Blocks: what a line of a program does.
//!
//! `execute` returns what a line does in a state, or its first fault: the new modal state, the parameters that change,
//! and the plan of the block. The plan's commands and segments come one at a time, in the order of the block's steps,
//! through cursors whose models are the lists. `Scratch::execute` is the one way to execute a line. A caller that runs
//! a program keeps a `Scratch` and executes the lines in it, by `Scratch::execute_after` for each line after those
//! before it. `execute` takes a new one. The crates above define what the lines of a whole program lead to: the dry run
//! (`ng_dry`) and the controller's session. This crate depends on the reader of lines, the state, the parameter table,
//! the offsets and the canonical text.
//!
//! Each code that `ng_modal` accepts is executed here. `ng_modal` decides what a line asks for, and whether it may;
//! `ng_arc` decides which arcs are valid; and `ng_cycles` decides what a canned cycle does, and whether it is valid.
#![tactic(auto)]

mod action;
mod actions;
mod after;
mod arcs;
mod axis_data;
mod block_segments;
mod commands;
mod cycles;
mod effect;
mod ends;
mod faults;
mod goal;
mod homes;
pub mod laws;
mod motion;
mod path;
mod percent;
mod place;
mod plan;
mod remark;
mod scratch;
mod segments_with_outputs;
mod shifts;
mod terms;

pub use block_segments::{BlockSegments, Resumed};
pub use commands::Commands;
pub use effect::{CHANGES, Changes, Effect, ProgramFlow};
pub use ends::switched_off;
pub use ng_cycles::MotionState;
pub use ng_offsets::{SLOTS, Tools};
pub use percent::percent_at;
pub use scratch::{Scratch, execute};
pub use segments_with_outputs::BlockSegmentsWithOutputs;
pub use terms::Terms;
