//! Callers in threads: one controller for all of them, with one history of what it was given.
//!
//! `Desk::new` returns a desk and a seat for each caller. `Desk::call` gives an event to the controller under the
//! desk's lock, and adds a `Call` to the caller's seat. The lock protects a `Book`: a controller, and the history of
//! all calls in the order in which they were made. Its replies and its controller are always what `run` of `ng_core`
//! guarantees for its events, starting from the controller that the desk was made of, with the moments at which they
//! were answered (`specs/Running.antt`). `Desk::close` returns both, after it compared the history with the list of
//! each seat (`specs/Calls.antt`).
//!
//! No machine, session or sector is named here: the crate depends only on the contracts of `Controller`. No contract
//! says that a caller ever gets the lock, or who gets it first.
#![tactic(auto)]

mod book;
mod call;
mod comparing;
mod desk;
mod moments;
mod origin;
mod seat;

pub use book::Book;
pub use call::Call;
pub use desk::Desk;
pub use origin::Origin;
pub use seat::Seat;
