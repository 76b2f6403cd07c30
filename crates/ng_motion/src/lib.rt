//! How a machine moves: what its motors allow, read from a text in TOML.
//!
//! `limits` reads the table `[motion]` of a text, in millimetres, and returns what a pacer takes, in steps; or it
//! returns a fault, whose text names the key and its range. specs/Given.antt has the keys, their ranges and the faults,
//! specs/Steps.antt how millimetres become steps. The other eight tables of a machine's file (specs/Table.antt) are a
//! player's: what is in them isn't looked at. A name that is none of the nine is refused, and a value that is no table.
//!
//! The crate `toml` defines what TOML is, and which table a text stands for; `ng_pace` takes the limits. Memory is
//! allocated only for the parsed table.
#![tactic(auto)]

mod axis;
mod fault;
mod given;
mod key;
mod name;
mod reading;
mod steps;
mod table;
mod values;

pub use axis::AxisName;
pub use fault::MotionFault;
pub use key::Key;
pub use name::KeyName;
pub use reading::limits;
pub use table::TableName;
