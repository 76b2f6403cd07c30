//! A block from one of its segments on, and the machine's position and outputs before that. The segments of a cycle
//! that are skipped aren't walked, so the time doesn't grow with their number.
ghost use Rattle.std.specs.Prelude.{◌≡◌, ◌<◌, ◌-◌, [], take, drop};
ghost use Rattle.ng_cycles.specs.Segments.{after_segments};
ghost use Rattle.ng_block.specs.BlockSegments.{actions_left, rest_of};
ghost use Rattle.ng_block.specs.Effects.{segments_by};
ghost use Rattle.ng_block.specs.Path.{path_segments};
ghost use Rattle.ng_block.specs.Resuming.{Stays, motion_state_at};

use crate::block_segments::{BlockSegments, BlockSegmentsLeft};
use crate::effect::Effect;
use crate::path::{Path, PathSegments, after_segment};
use ng_cycles::MotionState;
use ng_num::Point;

/// A block that goes on at one of its segments.
#[derive(Drop)]
pub struct Resumed {
    /// The segments from there on.
    pub block_segments: BlockSegments,
    /// The machine's position and outputs before them.
    pub motion_state: MotionState,
}

/// What is left of a block, the machine's position and outputs before that, and how many segments are still to be
/// skipped.
#[derive(Drop)]
struct Passing {
    rest: BlockSegmentsLeft,
    motion_state: MotionState,
    left: u64,
}

/// How many of `n` segments are left to skip after `count`.
fn left_after(n: u64, count: u128) -> u64
    ensures { result ≡ n - count }
{
    if count < n as u128 {
        n - count as u64
    } else {
        0
    }
}

impl Passing {
    /// Skips segments of the actions.
    fn pass_actions(&mut self)
        ensures stays { Stays self.old self.new }
        ensures actions { 0 < self.new.left → actions_left self.new.rest ≡ [] }
        ensures moves { self.new.rest.moves ≡ self.old.rest.moves }
    {
        while self.left > 0 {
            match self.rest.next_of_actions() {
                Some(segment) => {
                    self.motion_state = after_segment(self.motion_state, &segment);
                    self.left -= 1;
                }
                None => return,
            }
        }
    }

    /// Skips segments of the motion, once no action is left.
    fn pass_moves(&mut self, path: &Path)
        requires actions { actions_left self.old.rest ≡ [] }
        requires moves { self.old.rest.moves ≡ path_segments path.now }
        ensures stays { Stays self.old self.new }
        ensures actions { actions_left self.new.rest ≡ [] }
        ensures moves { 0 < self.new.left → self.new.rest.moves ≡ [] }
    {
        self.rest.moves = PathSegments::later(path, self.left);
        self.motion_state = path.motion_state_after(self.motion_state, self.left);
        self.left = left_after(self.left, path.count());
    }

    /// Skips the segment of the stop, once no other is left.
    fn pass_stop(&mut self)
        requires some { 0 < self.old.left }
        requires actions { actions_left self.old.rest ≡ [] }
        requires moves { self.old.rest.moves ≡ [] }
        ensures rest { rest_of self.new.rest ≡ drop self.old.left (rest_of self.old.rest) }
        ensures motion_state { self.new.motion_state ≡ after_segments self.old.motion_state (take self.old.left (rest_of self.old.rest)) }
    {
        if let Some(segment) = self.rest.next_of_stop() {
            self.motion_state = after_segment(self.motion_state, &segment);
        }
    }

    /// Skips as many segments as are to be skipped, or all, of a block with this path that hasn't begun to move.
    fn advance(&mut self, path: &Path)
        requires { self.old.rest.moves ≡ path_segments path.now }
        ensures rest { rest_of self.new.rest ≡ drop self.old.left (rest_of self.old.rest) }
        ensures motion_state { self.new.motion_state ≡ after_segments self.old.motion_state (take self.old.left (rest_of self.old.rest)) }
    {
        self.pass_actions();
        if self.left == 0 {
            return;
        }
        self.pass_moves(path);
        if self.left == 0 {
            return;
        }
        self.pass_stop();
    }
}

impl Effect {
    /// Its segments from segment `n` on, counted from 0, kept without the effect; and the machine's position and
    /// outputs before that segment. The position is where the segment begins, and the outputs are as the last switch
    /// before it left them. `start` is the machine's position before the block. If the block has no more than `n`
    /// segments, none is left, and the position is that after the block. The time doesn't grow with `n`.
    pub fn block_segments_from(&self, start: Point, n: u64) -> Resumed
        ensures block_segments { result.block_segments ≡ drop n (segments_by self.now) }
        ensures motion_state { result.motion_state ≡ motion_state_at self.now start n }
    {
        let mut passing = Passing {
            rest: self.block_segments_left(),
            motion_state: MotionState {
                point: start,
                outputs: self.plan.before,
            },
            left: n,
        };
        passing.advance(&self.plan.path);
        Resumed {
            block_segments: BlockSegments { rest: passing.rest },
            motion_state: passing.motion_state,
        }
    }
}
