//! Numbers, lengths and faults: the base of every other crate.
//!
//! A `Num` is a whole number of millionths and a `Len` a whole number of nanometres; both have the same range. Each
//! operation returns the mathematical value that its definition in `specs/` gives, rounded half away from zero, or the
//! fault that says why there is no value. Only the functions that print a number allocate: they grow the caller's text.
#![tactic(auto)]

mod arithmetic;
mod causes;
mod fault;
mod len;
mod num;
mod point;
mod power;
mod printing;
mod root;
mod rounding;
mod unit;
mod whole;

pub use causes::first_fault;
pub use fault::Fault;
pub use len::{Len, nm_of};
pub use num::Num;
pub use point::Point;
pub use printing::{print_length, print_number, print_point, print_whole};
pub use unit::Unit;
