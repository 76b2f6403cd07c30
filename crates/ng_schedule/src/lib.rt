//! When each line of OUT is due: its lines go in, each comes out behind the nanosecond at which it is due.
//!
//! `schedule` reads the lines of items (`ng_lines`), gives them to a `Stream` (`ng_pace`) that knows what the motors
//! allow, and writes each with the sum of the times of those before it. Its contract says which text that is, for every
//! reader and writer: all lines in their order, none sooner than OUT says. If one of them fails, or there is no memory,
//! a beginning of that text is written. Memory doesn't grow with OUT: it is taken once for the lines that are ahead.
//!
//! `Schedule` holds what is known between two lines; `splitting` passes the lines on as their bytes are read; `output`
//! writes. specs/Private/Parts.antt says what is known while a run is under way; only private contracts use it.
#![tactic(auto)]

mod ending;
mod finishing;
mod giving;
mod output;
mod run;
mod splitting;

pub use ending::{Ended, ScheduleFault, Shown};
pub use run::schedule;
