//! The dry run: a program's bytes go in, its canonical text comes out, without a machine.
//!
//! `dry` applies the step that `ng_block` defines for a line to the lines of a program as they are read, from the fresh
//! state; `dry_from` does so from any state. It writes the text of their commands as it goes, up to the program's end
//! or to the first line that is refused. Its contract says exactly which text, for every reader and writer. If one of
//! them fails, or there is no memory, a beginning of that text is written. Memory doesn't grow with the program: only
//! the beginning of one line and the text that waits are kept.
//!
//! `LineSplitter` splits the bytes into lines and passes them to `DryRun`, which holds the state between two lines;
//! what a line prints is written by `output`. The crate depends on `ng_block`, which executes a line, and on
//! `ng_canon`, which defines a command's text. specs/Private/Parts.antt says what the parts do for every continuation
//! of the program; only private contracts use it.
#![tactic(auto)]

mod dry_run;
mod ending;
mod output;
mod run;
mod splitting;

pub use dry_run::{READS, dry, dry_from};
pub use ending::{DryFault, Ended};
pub use output::put_canon;
