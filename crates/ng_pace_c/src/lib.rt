//! Exports of `ng_pace` for C: a stream behind a pointer, and a function for each that C calls.
//!
//! C gives room for a handle, which has no stream at first. Each export lends what lies at its pointer to a function of
//! `calls`, whose clauses are those of `ng_pace`; its own clause says that the handle lies there again, and what it is
//! then. C owes what the clauses with a star say: the pointer is that of a handle which `ng_pace_make` made, nobody
//! else touches it meanwhile, and it isn't moved. Nothing else is required of C: a full stream refuses a line. A handle
//! goes to one call at a time.
#![tactic(auto)]

mod calls;
mod exports;
mod shapes;

pub use calls::Handle;
pub use shapes::{PaceGiven, PaceLine};
