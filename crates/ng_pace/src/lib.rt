//! Times for a stream of pulses that was planned without regard to acceleration.
//!
//! A `Stream` takes items in order and gives them out in the same order, each once, with the time until the next. It
//! stretches time alone: no item is given a shorter time than its own. The square of the rate changes from one pulse
//! to the next by no more than the motors allow. Whatever comes or doesn't come, the pulses can come to rest within
//! what is known, before each dwell and switch too. And no pulse is slower than it has to be: of the squares that may
//! be, the greatest is taken.
//!
//! What motors allow is found from the pulses themselves: along the chords that they follow, and at the corners
//! between these, no axis is asked for more than its acceleration and its greatest rate. A `Pacer` has the promises on
//! time alone, for lines that come with what is allowed at them. Rates are in pulses a second times 2^8, and a square
//! is that of such a rate.
//!
//! The crate depends on `ng_canon`, and so on `ng_num`. Only `Stream::new` and `Pacer::new` allocate.
#![tactic(auto)]

mod caps;
mod chord;
mod cone;
mod corner;
mod fault;
mod laws;
mod limits;
mod line;
mod pacer;
mod path;
mod planning;
mod root;
mod settling;
mod slopes;
mod start;
mod stepping;
mod stream;

pub use fault::PaceFault;
pub use laws::{given_out, held, keeps_acceleration, keeps_to_paths, lines_keep, paced_beginning};
pub use limits::Limits;
pub use line::{Line, Ramp};
pub use pacer::Pacer;
pub use stepping::Given;
pub use stream::Stream;
