//! The modal state of the interpreter: all of its state except the parameter table.
ghost use Rattle.std.specs.Prelude.{◌≡◌};

use crate::kept_words::KeptWords;
use crate::modes::Modes;
use ng_canon::{Feed, Outputs};
use ng_num::Point;
use ng_offsets::Offsets;

/// Everything that a block can read or change, except the parameter table.
#[derive(Clone, Copy, Debug, PartialEq, Eq)]
pub struct ModalState {
    pub modes: Modes,
    pub feed_per_min: Feed,
    pub outputs: Outputs,
    pub offsets: Offsets,
    /// The words that the current cycle keeps.
    pub kept: KeptWords,
    /// The machine's position, in machine coordinates.
    pub point: Point,
    /// Whether the position is known.
    pub point_known: bool,
}

impl ModalState {
    ghost use Rattle.ng_state.specs.Fresh.{fresh_modal_state};

    /// The fresh modal state (own): fresh modes, feed 0, everything off, no offsets, at point 0.
    pub fn fresh() -> ModalState
        ensures { result ≡ fresh_modal_state }
    {
        ModalState {
            modes: Modes::fresh(),
            feed_per_min: Feed::zero(),
            outputs: Outputs::fresh(),
            offsets: Offsets::none(),
            kept: KeptWords::none(),
            point: Point::zero(),
            point_known: true,
        }
    }
}
