//! What a line moves: the movement of a motion mode.
ghost use Rattle.std.specs.Prelude.{◌≡◌};
ghost use Rattle.ng_cycles.specs.Faults.{dwells as dwells_in, pecks_down};
ghost use Rattle.ng_modal.specs.Movement.{movement_of, is_straight, is_arc, is_cycle, dwells, pecks};

use ng_canon::ArcDirection;
use ng_cycles::CycleKind;
use ng_state::Motion;

/// The straight moves (NISTIR 6556, 3.5.1 and 3.5.2).
#[derive(Clone, Copy)]
pub enum StraightKind {
    /// G0: at the traverse rate.
    Traverse,
    /// G1: at a feed.
    Feed,
}

/// What a line moves (NISTIR 6556, 3.5.1 to 3.5.3 and 3.5.16).
#[derive(Clone, Copy)]
pub enum Movement {
    /// G0 and G1.
    Straight(StraightKind),
    /// G2 and G3: around an arc, at a feed.
    Arc(ArcDirection),
    /// G81 to G89.
    Cycle(CycleKind),
}

impl Movement {
    /// The movement of a motion mode. `None` for G80.
    #[inline]
    pub fn of(mode: Motion) -> Option<Movement>
        ensures { result ≡ movement_of mode }
    {
        match mode {
            Motion::Off => None,
            Motion::Traverse => Some(Movement::Straight(StraightKind::Traverse)),
            Motion::Feed => Some(Movement::Straight(StraightKind::Feed)),
            Motion::ClockwiseArc => Some(Movement::Arc(ArcDirection::Clockwise)),
            Motion::CounterclockwiseArc => Some(Movement::Arc(ArcDirection::Counterclockwise)),
            Motion::Drilling => Some(Movement::Cycle(CycleKind::Drilling)),
            Motion::DrillingWithDwell => Some(Movement::Cycle(CycleKind::DrillingWithDwell)),
            Motion::PeckDrilling => Some(Movement::Cycle(CycleKind::PeckDrilling)),
            Motion::Boring => Some(Movement::Cycle(CycleKind::Boring)),
            Motion::BoringWithStop => Some(Movement::Cycle(CycleKind::BoringWithStop)),
            Motion::BoringWithDwell => Some(Movement::Cycle(CycleKind::BoringWithDwell)),
        }
    }
}

/// Whether a movement is straight: G0 and G1.
#[inline]
pub(crate) fn is_straight(movement: Option<Movement>) -> bool
    ensures { result ≡ is_straight movement }
{
    match movement {
        Some(Movement::Straight(_)) => true,
        Some(Movement::Arc(_)) | Some(Movement::Cycle(_)) | None => false,
    }
}

/// Whether a movement is an arc: G2 and G3.
#[inline]
pub(crate) fn is_arc(movement: Option<Movement>) -> bool
    ensures { result ≡ is_arc movement }
{
    match movement {
        Some(Movement::Arc(_)) => true,
        Some(Movement::Straight(_)) | Some(Movement::Cycle(_)) | None => false,
    }
}

/// Whether a movement is a canned cycle.
#[inline]
pub(crate) fn is_cycle(movement: Option<Movement>) -> bool
    ensures { result ≡ is_cycle movement }
{
    match movement {
        Some(Movement::Cycle(_)) => true,
        Some(Movement::Straight(_)) | Some(Movement::Arc(_)) | None => false,
    }
}

fn dwells_in(kind: CycleKind) -> bool
    ensures { result ≡ dwells_in kind }
{
    match kind {
        CycleKind::DrillingWithDwell | CycleKind::BoringWithStop | CycleKind::BoringWithDwell =>
            true,
        CycleKind::Drilling | CycleKind::PeckDrilling | CycleKind::Boring => false,
    }
}

/// Whether a movement is a cycle that dwells: G82, G86 or G89.
#[inline]
pub(crate) fn dwells(movement: Option<Movement>) -> bool
    ensures { result ≡ dwells movement }
{
    match movement {
        Some(Movement::Cycle(kind)) => dwells_in(kind),
        Some(Movement::Straight(_)) | Some(Movement::Arc(_)) | None => false,
    }
}

fn pecks_down(kind: CycleKind) -> bool
    ensures { result ≡ pecks_down kind }
{
    match kind {
        CycleKind::PeckDrilling => true,
        CycleKind::Drilling
        | CycleKind::DrillingWithDwell
        | CycleKind::Boring
        | CycleKind::BoringWithStop
        | CycleKind::BoringWithDwell => false,
    }
}

/// Whether a movement is the cycle G83.
#[inline]
pub(crate) fn pecks(movement: Option<Movement>) -> bool
    ensures { result ≡ pecks movement }
{
    match movement {
        Some(Movement::Cycle(kind)) => pecks_down(kind),
        Some(Movement::Straight(_)) | Some(Movement::Arc(_)) | None => false,
    }
}
