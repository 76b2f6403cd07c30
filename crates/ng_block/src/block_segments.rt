//! A block's segments, one at a time, kept without its effect. So a block may be worked long after the scratch space of
//! its line is used for another line.
ghost use Rattle.std.specs.Prelude.{◌≡◌, ◌∷◌, [], MatchOption};
ghost use Rattle.ng_block.specs.BlockSegments.{actions_left, action_segments_left, stop_segments_left, rest_of};
ghost use Rattle.ng_block.specs.Effects.{segments_by};
ghost use Rattle.ng_block.specs.Path.{path_segments};

mod resuming;

use crate::actions::{Actions, copied};
use crate::effect::Effect;
use crate::ends::stop_segment;
use crate::path::PathSegments;
use ng_canon::{Outputs, Segment};
use ng_modal::StopWord;
pub use resuming::Resumed;
use std::marker::Model;

/// What is left of a block's segments.
#[derive(Drop)]
struct BlockSegmentsLeft {
    actions: Actions,
    /// How many of the actions have begun.
    begun: usize,
    /// The outputs after those.
    outputs: Outputs,
    /// The segments of the motion.
    moves: PathSegments,
    /// The stop, unless it has been executed.
    stop: Option<StopWord>,
}

/// The remaining segments of a block, in order. Contracts see the list of them.
#[derive(Drop)]
pub struct BlockSegments {
    rest: BlockSegmentsLeft,
}

impl Model for BlockSegments {
    ghost use Rattle.std.specs.Prelude.{List};
    ghost use Rattle.ng_canon.specs.declared.segment.Segment.{Segment};

    ghost Value = { List Segment };

    ghost use Rattle.ng_block.specs.BlockSegments.{rest_of};

    ghost view = { λ c. rest_of c.rest };
}

impl Effect {
    /// All of its segments, before the first.
    fn block_segments_left(&self) -> BlockSegmentsLeft
        ensures rest { rest_of result ≡ segments_by self.now }
        ensures moves { result.moves ≡ path_segments self.now.plan.path }
    {
        BlockSegmentsLeft {
            actions: copied(&self.plan.actions),
            begun: 0,
            outputs: self.plan.before,
            moves: PathSegments::of(&self.plan.path),
            stop: self.plan.stop,
        }
    }

    /// Its segments, kept without the effect.
    pub fn block_segments(&self) -> BlockSegments
        ensures { result ≡ segments_by self.now }
    {
        BlockSegments {
            rest: self.block_segments_left(),
        }
    }
}

impl BlockSegmentsLeft {
    /// The next segment of the actions.
    fn next_of_actions(&mut self) -> Option<Segment>
        ensures moves { self.new.moves ≡ self.old.moves }
        ensures stop { stop_segments_left self.new ≡ stop_segments_left self.old }
        ensures next { MatchOption result
            ((action_segments_left self.old ≡ []) × (actions_left self.new ≡ []))
            (λ segment. action_segments_left self.old ≡ segment ∷ action_segments_left self.new) }
    {
        while self.begun < self.actions.len() {
            let action = self.actions.as_slice()[self.begun];
            self.begun += 1;
            self.outputs = action.outputs_after(self.outputs);
            match action.segment(self.outputs) {
                Some(segment) => return Some(segment),
                None => {}
            }
        }
        None
    }

    /// The segment of the stop.
    fn next_of_stop(&mut self) -> Option<Segment>
        requires { actions_left self.old ≡ [] }
        ensures actions { actions_left self.new ≡ [] }
        ensures moves { self.new.moves ≡ self.old.moves }
        ensures stop { stop_segments_left self.new ≡ [] }
        ensures next { MatchOption result
            (stop_segments_left self.old ≡ [])
            (λ segment. stop_segments_left self.old ≡ segment ∷ []) }
    {
        let segment = stop_segment(self.stop, self.outputs);
        self.stop = None;
        segment
    }

    /// The next segment.
    fn next(&mut self) -> Option<Segment>
        ensures { MatchOption result
            ((rest_of self.old ≡ []) × (rest_of self.new ≡ []))
            (λ segment. rest_of self.old ≡ segment ∷ rest_of self.new) }
    {
        if let Some(segment) = self.next_of_actions() {
            return Some(segment);
        }
        match self.moves.next() {
            Some(segment) => Some(segment),
            None => self.next_of_stop(),
        }
    }
}

impl BlockSegments {
    /// The next segment.
    pub fn next(&mut self) -> Option<Segment>
        ensures { MatchOption result ((self.old ≡ []) × (self.new ≡ [])) (λ segment. self.old ≡ segment ∷ self.new) }
    {
        self.rest.next()
    }
}
