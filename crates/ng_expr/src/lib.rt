//! The values of a line: what the trees of its pieces evaluate to, given a table of parameters.
//!
//! `value` evaluates one tree. `Values` evaluates a line's words and assignments in order, all with the table as it was
//! before the line. If a piece has no value, the line has the fault of the first such piece. Nothing here allocates:
//! values are kept in storage that is reused for one line after another. The crate depends on `ng_words` for trees, on
//! `ng_params` for the table, and on `ng_num` for the operations. The crates above decide what words mean, and when
//! assignments take effect.
#![tactic(auto)]

mod assignment;
mod operation;
mod stack;
mod values;
mod walk;
mod word;

pub use values::{Values, evaluate};
pub use walk::{named, value};
pub use word::Word;
