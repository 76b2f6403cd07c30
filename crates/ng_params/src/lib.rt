//! The numbered parameters of the language (NISTIR 6556, 3.2.1), 1 to 5399: a table of numbers.
//!
//! In contracts, `Params` is a list of 5399 numbers. `Index` and `System` are numbers that are in range, so reading and
//! setting never fail. A point is stored as three consecutive parameters, in millimetres, whatever the unit of the
//! program. `changes_from` lists how a table differs from an older one, and `apply` makes such changes in the older
//! one. `difference_count` and `next_differences` find the differences without allocating. `settled_changes` makes a
//! list of changes one of differences. Only `new`, `copy` and `changes_from` allocate. The crate depends on `ng_num`.
//! The crates above decide which word sets which parameter, and when an offset takes effect; this crate gets the
//! changes to make.
#![tactic(auto)]

mod change;
mod differences;
mod index;
mod lasting;
pub mod laws;
mod params;
mod points;
mod system;

pub use change::Change;
pub use differences::{difference_count, next_differences, settled_changes};
pub use index::{Index, PARAMETER_COUNT};
pub use params::Params;
pub use points::g92_changes;
pub use system::System;
