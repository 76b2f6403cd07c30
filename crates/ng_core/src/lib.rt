//! The controller: what an operator's events do to a machine and to what is stored of it.
//!
//! `power_on` finds what a device stands for and starts a session over it. `Controller::on` handles an event: it is
//! `step` of `ng_session`, whose writes go through the journal of `ng_journal` and whose items are handed out by the
//! device. A Tick does at most one of these: hand out an item, open a segment, commit an entry, begin a line.
//!
//! `specs/Events.antt` says what an event leaves of the device, also at a stop within the call. `specs/Runs.antt` says
//! this of a list of events, `specs/Headline.antt` of all that happened since power on, in terms of the plain
//! interpreter, and `specs/Lifetime.antt` of all sessions of a device, over any number of power cuts.
//!
//! This crate names no sector and no code of the language: the journal deals with the first, the session with the
//! second.
#![tactic(auto)]

mod controller;
mod half_done;
pub mod laws;
mod power;
mod running;
mod ticking;
mod tooling;

pub use controller::Controller;
pub use ng_layout::Source;
pub use ng_session::{Activity, Condition, Event, HalfShown, Reply, Status, Text};
pub use power::power_on;
