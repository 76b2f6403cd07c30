//! A cycle's segments, one at a time.
ghost use Rattle.std.specs.Prelude.{◌≡◌, ◌≤◌, Ok};

use crate::canned::Canned;
use crate::left::{CycleLeft, cycle_left};
use crate::motion_state::MotionState;
use crate::words::{CycleContext, CycleWords};
use ng_canon::{Geometry, Segment};
use ng_num::Fault;
use std::marker::Model;

/// The segments of a canned cycle that are left, and the machine's position and outputs before them. The segments
/// aren't stored.
#[derive(Drop)]
pub struct Cycle {
    left: CycleLeft,
}

impl Model for Cycle {
    ghost use Rattle.std.specs.Prelude.{◌≡◌, ◌+◌};
    ghost use Rattle.ng_cycles.specs.Segments.{CycleModel};
    ghost use Rattle.ng_cycles.specs.Left.{ahead_of};

    ghost Value = { CycleModel };

    ghost view = { λ c. ahead_of c.left };

    ghost invariant = { λ c. c.left.begun + c.left.repeats_left ≡ c.left.canned.repeats };
}

impl Cycle {
    ghost use Rattle.ng_cycles.specs.Segments.{whole, later};
    ghost use Rattle.ng_cycles.specs.Left.{IsNextSegment};
    ghost use Rattle.ng_cycles.specs.Faults.{canned_of};
    ghost use Rattle.ng_num.specs.Results.{and_then};

    /// All segments of a cycle.
    pub fn of(canned: &Canned) -> Cycle
        ensures { result ≡ whole canned.now }
    {
        Cycle {
            left: cycle_left(canned),
        }
    }

    /// All segments of the cycle of a line, or its first fault, as in `Canned::of`.
    pub fn new(
        words: &CycleWords,
        context: &CycleContext,
        geometry: &Geometry,
    ) -> Result<Cycle, Fault>
        requires { 1 ≤ words.now.repeats }
        ensures { result ≡ and_then (canned_of words.now context.now geometry.now) (λ drill. Ok (whole drill)) }
    {
        match Canned::of(words, context, geometry) {
            Ok(canned) => Ok(Cycle::of(&canned)),
            Err(fault) => Err(fault),
        }
    }

    /// A cycle before its segment n, counted from 0, or after its last one. The segments before aren't walked: whole
    /// repeats and whole pecks are skipped at once.
    pub fn from(canned: &Canned, n: u64) -> Cycle
        ensures { result ≡ later n (whole canned.now) }
    {
        let mut left = cycle_left(canned);
        left.advance(n);
        Cycle { left }
    }

    /// The next segment.
    pub fn next_segment(&mut self) -> Option<Segment>
        ensures { IsNextSegment self.old self.new result }
    {
        self.left.next()
    }

    /// The machine's position and outputs before the next segment.
    pub fn motion_state(&self) -> MotionState
        ensures { result ≡ self.now.motion_state }
    {
        self.left.motion_state
    }
}
