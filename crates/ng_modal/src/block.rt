//! What a line asks for, given the modes before it.
ghost use Rattle.std.specs.Prelude.{◌≡◌};
ghost use Rattle.ng_modal.specs.Block.{takes_axes, motion_by, movement_of_word, movement_for, motion_after, plane_after};

use crate::by_group::{GWords, MWords};
use crate::by_letter::ByLetter;
use crate::movement::Movement;
use crate::requests::NonModal;
use ng_canon::Plane;
use ng_state::{Modes, Motion};

/// What a line asks for.
#[derive(Drop)]
pub struct Block {
    /// The values by letter.
    pub values: ByLetter,
    /// What the G words ask for.
    pub g: GWords,
    /// What the M words ask for.
    pub m: MWords,
    /// What the line moves. It is the movement of its group 1 word or, if it has none and its axis words call for a
    /// movement, that of the mode in force. `None` if nothing of group 1 moves.
    pub movement: Option<Movement>,
}

/// Whether a word of group 0 uses the axis words of its line: G10, G28, G30, G92.
#[inline]
pub(crate) fn takes_axes(word: Option<NonModal>) -> bool
    ensures { result ≡ takes_axes word }
{
    match word {
        Some(NonModal::SetOrigin)
        | Some(NonModal::Home)
        | Some(NonModal::SecondHome)
        | Some(NonModal::SetOffset) => true,
        _ => false,
    }
}

/// The motion mode by which a line moves, if it moves: that of its group 1 word or, without one, the mode in force.
#[inline]
fn motion_by(word: Option<Motion>, calls: bool, mode: Motion) -> Option<Motion>
    ensures { result ≡ motion_by word calls mode }
{
    match word {
        Some(word) => Some(word),
        None => if calls { Some(mode) } else { None },
    }
}

impl Block {
    /// The movement of the line's group 1 word. `None` if there is no such word, or it is G80.
    #[inline]
    pub(crate) fn movement_of_word(&self) -> Option<Movement>
        ensures { result ≡ movement_of_word self.now }
    {
        match self.g.motion {
            None => None,
            Some(word) => Movement::of(word),
        }
    }

    /// What the line moves in a motion mode.
    #[inline]
    pub(crate) fn movement_for(&self, mode: Motion) -> Option<Movement>
        ensures { result ≡ movement_for self.now.g self.now.values mode }
    {
        let calls = self.values.has_axis() && !takes_axes(self.g.non_modal);
        match motion_by(self.g.motion, calls, mode) {
            None => None,
            Some(mode) => Movement::of(mode),
        }
    }

    /// The motion mode after the line.
    #[inline]
    pub fn motion_after(&self, modes: &Modes) -> Motion
        ensures { result ≡ motion_after self.now modes.now }
    {
        self.g.motion.unwrap_or(modes.motion)
    }

    /// The plane after the line.
    #[inline]
    pub fn plane_after(&self, modes: &Modes) -> Plane
        ensures { result ≡ plane_after self.now modes.now }
    {
        self.g.plane.unwrap_or(modes.plane)
    }
}
