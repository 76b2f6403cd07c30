//! Modal groups: what the words of a line ask for, and whether they are valid together.
//!
//! `Sorted::check` looks at each word of a line once, given the modes before the line. It makes the block that the
//! words ask for: values by letter, what G and M words ask for by modal group, and what the line moves.
//! Otherwise it returns the first of the faults B1 to B19 whose cause holds. It doesn't allocate; its storage is reused
//! for one line after another. `check` does the same with storage of its own.
//!
//! A code is one row of the table in `specs/Codes.antt` and one row in `codes.rt`: its number and what its word asks
//! for. The numbers of the modal groups are in `Groups.antt`. Each cause is a sentence, in `WordCauses.antt` for B1 to
//! B5, which depend only on the words, or in `Causes.antt` for B6 to B19, which depend on what the words ask for. Their
//! order is the list in `Checking.antt`. All codes of the language are known here.
//!
//! The crate depends on `ng_expr` for the values of words, on `ng_state` for the modes, on `ng_params` for the numbers
//! of coordinate systems, on `ng_cycles` for the kinds of cycles, and on `ng_canon` for planes, directions of arcs and
//! the spindle. It knows nothing about parameters, offsets, arcs and cycles except their words.
#![tactic(auto)]

mod block;
mod by_group;
mod by_letter;
mod causes;
mod checking;
mod codes;
mod movement;
mod predicates;
mod requests;
mod slots;
mod sorted;
mod whole_numbers;

pub use block::Block;
pub use by_group::{GWords, MWords};
pub use by_letter::ByLetter;
pub use checking::check;
pub use movement::{Movement, StraightKind};
pub use requests::{Coolant, NonModal, StopWord, ToolLength};
pub use sorted::Sorted;
