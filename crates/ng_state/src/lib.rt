//! The state of an interpreter, as plain types: the modes, the words that a canned cycle keeps, the modal state, and
//! the state, which is that and the table of parameters.
//!
//! What a line does to the state isn't defined here. So the crates that store the state, show it or compare two states
//! need only this crate, and aren't checked again when the language grows. The crates that read lines and execute
//! blocks need it too. Each type has its fresh value. In contracts a `State` is a `StateModel`, wherever its table is
//! stored. Only the table allocates. The crate depends on `ng_params` for the table, on `ng_offsets` for the offsets in
//! force, and on `ng_canon` for planes and outputs.
#![tactic(auto)]

mod kept_words;
mod modal_state;
mod modes;
mod state;

pub use kept_words::KeptWords;
pub use modal_state::ModalState;
pub use modes::{Distance, FeedMode, Modes, Motion, PathMode, Retract};
pub use state::State;
