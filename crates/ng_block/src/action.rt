//! What one action of a block prints and switches (NISTIR 6556, 3.5 to 3.7).
ghost use Rattle.std.specs.Prelude.{◌≡◌, ◌∷◌, [], MatchOption};
ghost use Rattle.ng_block.specs.Action.{coolant_commands, action_commands, coolant_outputs, action_outputs, action_segments, outputs_after};

use crate::path::spindle_command;
use ng_canon::{CanonicalCommand, Outputs, Plane, Segment, Spindle};
use ng_modal::Coolant;
use ng_num::{Len, Num, Point, Unit};

/// What a word of a block does besides a remark, a feed, a move and a stop.
#[derive(Clone, Copy)]
pub(crate) enum Action {
    /// S: revolutions a minute.
    SpindleSpeed(Num),
    /// T: a slot.
    SelectTool(u8),
    /// M6: the slot whose tool comes into the spindle.
    ChangeTool(u8),
    Spindle(Spindle),
    Coolant(Coolant),
    /// G4: seconds.
    Dwell(Num),
    SelectPlane(Plane),
    LengthUnits(Unit),
    /// The tool length after G43 or G49.
    ToolLength(Len),
    /// Origin plus G92 offset, after a word that changes one of them.
    OriginOffsets(Point),
    /// F, if it is the time of the move.
    InverseTime(Num),
}

impl Default for Action {
    fn default() -> Self {
        Action::Spindle(Spindle::Stopped)
    }
}

/// The commands of a coolant word.
fn coolant_commands(coolant: Coolant) -> (CanonicalCommand, Option<CanonicalCommand>)
    ensures { MatchOption result.1
        (coolant_commands coolant ≡ result.0 ∷ [])
        (λ second. coolant_commands coolant ≡ result.0 ∷ second ∷ []) }
{
    match coolant {
        Coolant::Mist => (CanonicalCommand::MistOn, None),
        Coolant::Flood => (CanonicalCommand::FloodOn, None),
        Coolant::Off => (CanonicalCommand::MistOff, Some(CanonicalCommand::FloodOff)),
    }
}

/// The outputs after a coolant word: mist and flood may both be on.
fn coolant_outputs(coolant: Coolant, before: Outputs) -> Outputs
    ensures { result ≡ coolant_outputs coolant before }
{
    match coolant {
        Coolant::Mist => Outputs {
            mist: true,
            ..before
        },
        Coolant::Flood => Outputs {
            flood: true,
            ..before
        },
        Coolant::Off => Outputs {
            mist: false,
            flood: false,
            ..before
        },
    }
}

impl Action {
    /// What it prints: one command or two.
    pub fn commands(&self) -> (CanonicalCommand, Option<CanonicalCommand>)
        ensures { MatchOption result.1
            (action_commands self.now ≡ result.0 ∷ [])
            (λ second. action_commands self.now ≡ result.0 ∷ second ∷ []) }
    {
        let command = match self {
            Action::SpindleSpeed(speed) => CanonicalCommand::SpindleSpeed(*speed),
            Action::SelectTool(slot) => CanonicalCommand::SelectTool(*slot),
            Action::ChangeTool(slot) => CanonicalCommand::ChangeTool(*slot),
            Action::Spindle(spindle) => spindle_command(*spindle),
            Action::Coolant(coolant) => return coolant_commands(*coolant),
            Action::Dwell(seconds) => CanonicalCommand::Dwell(*seconds),
            Action::SelectPlane(plane) => CanonicalCommand::SelectPlane(*plane),
            Action::LengthUnits(unit) => CanonicalCommand::LengthUnits(*unit),
            Action::ToolLength(length) => CanonicalCommand::ToolLength(*length),
            Action::OriginOffsets(offsets) => CanonicalCommand::OriginOffsets(*offsets),
            Action::InverseTime(time) => CanonicalCommand::InverseTime(*time),
        };
        (command, None)
    }

    /// The outputs after it. A change of the tool stops the spindle (own).
    pub fn outputs_after(&self, before: Outputs) -> Outputs
        ensures { result ≡ action_outputs before self.now }
    {
        match *self {
            Action::SpindleSpeed(speed) => Outputs { speed, ..before },
            Action::SelectTool(selected_slot) => Outputs {
                selected_slot,
                ..before
            },
            Action::ChangeTool(spindle_slot) => Outputs {
                spindle: Spindle::Stopped,
                spindle_slot,
                ..before
            },
            Action::Spindle(spindle) => Outputs { spindle, ..before },
            Action::Coolant(coolant) => coolant_outputs(coolant, before),
            _ => before,
        }
    }

    /// Its segment, given the outputs after it: a switch to them, or a dwell.
    pub fn segment(&self, now: Outputs) -> Option<Segment>
        ensures { MatchOption result
            (action_segments self.now now ≡ [])
            (λ segment. action_segments self.now now ≡ segment ∷ []) }
    {
        match self {
            Action::SpindleSpeed(_)
            | Action::SelectTool(_)
            | Action::ChangeTool(_)
            | Action::Spindle(_)
            | Action::Coolant(_) => Some(Segment::Switch(now)),
            Action::Dwell(seconds) => Some(Segment::Dwell(*seconds)),
            _ => None,
        }
    }
}

/// The outputs after some actions.
pub(crate) fn outputs_after(actions: &[Action], before: Outputs) -> Outputs
    ensures { result ≡ outputs_after before actions.now }
{
    let mut outputs = before;
    for action in actions {
        outputs = action.outputs_after(outputs);
    }
    outputs
}
