//! What a stop prints and switches, and how the program goes on after a line (NISTIR 6556, 3.6.1).
ghost use Rattle.std.specs.Prelude.{◌≡◌, ◌∷◌, [], MatchOption};
ghost use Rattle.ng_block.specs.Ends.{ends, stop_of, stop_commands, switched_off, stop_outputs, stop_segments};

use crate::effect::ProgramFlow;
use arrayvec::ArrayVec;
use ng_canon::{CanonicalCommand, Outputs, Plane, Segment, Spindle};
use ng_modal::StopWord;
use ng_num::Point;

/// The most commands of a stop.
const STOP_COMMANDS: usize = 7;

/// The commands of a stop, in order.
pub(crate) type StopCommands = ArrayVec<CanonicalCommand, STOP_COMMANDS>;

/// Whether a word ends the program: M2, M30.
#[inline]
pub fn ends(word: Option<StopWord>) -> bool
    ensures { result ≡ ends word }
{
    match word {
        Some(StopWord::End) | Some(StopWord::EndWithShuttle) => true,
        _ => false,
    }
}

/// How the program goes on after a line with this word.
#[inline]
pub(crate) fn stop_of(word: Option<StopWord>) -> ProgramFlow
    ensures { result ≡ stop_of word }
{
    match word {
        None => ProgramFlow::GoesOn,
        Some(StopWord::Program) | Some(StopWord::Shuttle) => ProgramFlow::Stops,
        Some(StopWord::Optional) => ProgramFlow::StopsIfWanted,
        Some(StopWord::End) | Some(StopWord::EndWithShuttle) => ProgramFlow::Ends,
    }
}

/// The commands of the program's end, except for its shuttle and its last one.
fn put_end(origin: Point, commands: &mut StopCommands)
    requires { commands.old.items ≡ [] }
    ensures { commands.new.items ≡ CanonicalCommand.OriginOffsets origin ∷ CanonicalCommand.SelectPlane Plane.Xy
        ∷ CanonicalCommand.StopSpindle ∷ CanonicalCommand.MistOff ∷ CanonicalCommand.FloodOff ∷ [] }
{
    commands.push(CanonicalCommand::OriginOffsets(origin));
    commands.push(CanonicalCommand::SelectPlane(Plane::Xy));
    commands.push(CanonicalCommand::StopSpindle);
    commands.push(CanonicalCommand::MistOff);
    commands.push(CanonicalCommand::FloodOff);
}

/// What a stop prints, given the origin after the line.
pub(crate) fn put_stop(word: Option<StopWord>, origin: Point, commands: &mut StopCommands)
    requires { commands.old.items ≡ [] }
    ensures { commands.new.items ≡ stop_commands word origin }
{
    match word {
        None => {}
        Some(StopWord::Program) => commands.push(CanonicalCommand::ProgramStop),
        Some(StopWord::Optional) => commands.push(CanonicalCommand::OptionalStop),
        Some(StopWord::Shuttle) => {
            commands.push(CanonicalCommand::PalletShuttle);
            commands.push(CanonicalCommand::ProgramStop);
        }
        Some(StopWord::End) => {
            put_end(origin, commands);
            commands.push(CanonicalCommand::ProgramEnd);
        }
        Some(StopWord::EndWithShuttle) => {
            put_end(origin, commands);
            commands.push(CanonicalCommand::PalletShuttle);
            commands.push(CanonicalCommand::ProgramEnd);
        }
    }
}

/// The outputs with spindle stopped and coolant off; speed and slots stay.
pub fn switched_off(outputs: Outputs) -> Outputs
    ensures { result ≡ switched_off outputs }
{
    Outputs {
        spindle: Spindle::Stopped,
        mist: false,
        flood: false,
        ..outputs
    }
}

/// The outputs after a stop: the program's end switches them off.
#[inline]
pub(crate) fn stop_outputs(word: Option<StopWord>, before: Outputs) -> Outputs
    ensures { result ≡ stop_outputs word before }
{
    if ends(word) {
        switched_off(before)
    } else {
        before
    }
}

/// What a stop switches, given the outputs before it.
pub(crate) fn stop_segment(word: Option<StopWord>, before: Outputs) -> Option<Segment>
    ensures { MatchOption result
        (stop_segments word before ≡ [])
        (λ segment. stop_segments word before ≡ segment ∷ []) }
{
    if ends(word) {
        Some(Segment::Switch(switched_off(before)))
    } else {
        None
    }
}
