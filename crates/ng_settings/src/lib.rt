//! The settings of a machine, read from a text in TOML.
//!
//! `settings` returns the geometry and the tool table that a text gives, or its first fault: S1 if it isn't TOML, then
//! S2 to S6. Each cause is checked for all keys before the next. `specs/KeyValues.antt` has the keys, `Causes.antt` one
//! sentence for each cause, and `Reading.antt` their order. The crate `toml` defines what TOML is, and which table a
//! text stands for.
//!
//! The types of `ng_canon` and the contract of `settings` ensure that the numbers of settings are within their limits.
//! Memory is allocated only for the parsed table.
#![tactic(auto)]

mod key_values;
mod limits;
mod making;
mod numbers;
mod reading;
mod setting_numbers;
mod standard;
mod whole;

pub use reading::settings;
pub use standard::Settings;
