//! A block's segments, one at a time, and the outputs before each.
ghost use Rattle.std.specs.Prelude.{◌≡◌, ◌∷◌, [], MatchOption};
ghost use Rattle.ng_block.specs.Effects.{segments_by};
ghost use Rattle.ng_block.specs.SegmentsWithOutputs.{outputs_with};

use crate::block_segments::BlockSegments;
use crate::effect::Effect;
use ng_canon::{Outputs, Segment};
use std::marker::Model;

/// The remaining segments of a block, in order, and the outputs before them.
#[derive(Drop)]
pub struct BlockSegmentsWithOutputs {
    block_segments: BlockSegments,
    /// The outputs after the last switch.
    outputs: Outputs,
}

impl Model for BlockSegmentsWithOutputs {
    ghost use Rattle.ng_block.specs.SegmentsWithOutputs.{SegmentsModel};

    ghost Value = { SegmentsModel };

    ghost view = { λ s. record { outputs = s.outputs; segments = s.block_segments } };
}

impl Effect {
    /// Its segments, in order.
    pub fn segments(&self) -> BlockSegmentsWithOutputs
        ensures segments { result.segments ≡ segments_by self.now }
        ensures outputs { result.outputs ≡ self.now.plan.before }
    {
        BlockSegmentsWithOutputs {
            block_segments: self.block_segments(),
            outputs: self.plan.before,
        }
    }
}

/// The outputs after a segment.
fn outputs_with(outputs: Outputs, segment: &Segment) -> Outputs
    ensures { result ≡ outputs_with outputs segment.now }
{
    match segment {
        Segment::Switch(next) => *next,
        Segment::Line(_) => outputs,
        Segment::Arc(_) => outputs,
        Segment::Dwell(_) => outputs,
    }
}

impl BlockSegmentsWithOutputs {
    /// The next segment.
    pub fn next(&mut self) -> Option<Segment>
        ensures segment { MatchOption result
            ((self.old.segments ≡ []) × (self.new.segments ≡ []))
            (λ segment. self.old.segments ≡ segment ∷ self.new.segments) }
        ensures outputs { MatchOption result
            (self.new.outputs ≡ self.old.outputs)
            (λ segment. self.new.outputs ≡ outputs_with self.old.outputs segment) }
    {
        match self.block_segments.next() {
            Some(segment) => {
                self.outputs = outputs_with(self.outputs, &segment);
                Some(segment)
            }
            None => None,
        }
    }

    /// The outputs before the next segment.
    pub fn outputs(&self) -> Outputs
        ensures { result ≡ self.now.outputs }
    {
        self.outputs
    }
}
