//! The motion of a line: its feed, its pace and its path (NISTIR 6556, 3.5.1, 3.5.2, 3.5.12, 3.5.17, 3.5.19). E3 if a
//! computed length is out of range.
ghost use Rattle.std.specs.Prelude.{◌≡◌, ◌-ℤ◌, Ok, Err, MatchResult};
ghost use Rattle.ng_params.specs.Change.{with_changes};
ghost use Rattle.ng_modal.specs.Causes.{is_machine};
ghost use Rattle.ng_block.specs.Motion.{feed_mode_after, is_inverse, is_fed, feed_word, feed_set, time_word, feed_of, fed_pace, fed_pace_of, straight_pace, program_coordinate, coordinate, end_of, machine_end_of, straight_end_of};
ghost use Rattle.ng_block.specs.Goal.{straight_path, path_of};

use crate::arcs::path_along_arc;
use crate::axis_data::{named_on, unit_after};
use crate::cycles::cycle_path;
use crate::homes::{home_on, home_path};
use crate::path::Path;
use ng_canon::{Feed, Geometry, InverseTime, Pace, Rate};
use ng_modal::{Block, Movement, NonModal, StraightKind};
use ng_num::{Fault, Len, Num, Point, Unit, nm_of};
use ng_offsets::{Offsets, Shift};
use ng_params::Change;
use ng_state::{Distance, FeedMode, ModalState, Modes, State};
use std::alloc::Allocator;

/// How a line's axis words are read.
#[derive(Clone, Copy)]
struct Reading {
    unit: Unit,
    distance: Distance,
}

/// The feed mode after a line, by which its F is read.
#[inline]
pub(crate) fn feed_mode_after(block: &Block, modes: &Modes) -> FeedMode
    ensures { result ≡ feed_mode_after block.now modes.now }
{
    block.g.feed_mode.unwrap_or(modes.feed_mode)
}

/// Whether an F is a time: G93.
#[inline]
pub(crate) fn is_inverse(mode: FeedMode) -> bool
    ensures { result ≡ is_inverse mode }
{
    match mode {
        FeedMode::PerMinute => false,
        FeedMode::InverseTime => true,
    }
}

/// Whether a movement goes at a feed: G1, G2, G3.
fn is_fed(movement: Option<Movement>) -> bool
    ensures { result ≡ is_fed movement }
{
    match movement {
        Some(Movement::Straight(StraightKind::Feed)) | Some(Movement::Arc(_)) => true,
        Some(Movement::Straight(StraightKind::Traverse)) | Some(Movement::Cycle(_)) | None => false,
    }
}

/// The F that sets the feed.
#[inline]
pub(crate) fn feed_word(mode: FeedMode, word: Option<Num>) -> Option<Num>
    ensures { result ≡ feed_word mode word }
{
    match mode {
        FeedMode::PerMinute => word,
        FeedMode::InverseTime => None,
    }
}

/// The feed that F prints: the feed after the line.
#[inline]
pub(crate) fn feed_set(block: &Block, mode: FeedMode, feed_per_min: Feed) -> Option<Feed>
    ensures { result ≡ feed_set block.now mode feed_per_min }
{
    match feed_word(mode, block.values.f()) {
        Some(_) => Some(feed_per_min),
        None => None,
    }
}

/// The F that is the time of its line's move.
#[inline]
pub(crate) fn time_word(
    mode: FeedMode,
    movement: Option<Movement>,
    word: Option<Num>,
) -> Option<Num>
    ensures { result ≡ time_word mode movement word }
{
    match mode {
        FeedMode::PerMinute => None,
        FeedMode::InverseTime => if is_fed(movement) { word } else { None },
    }
}

/// The feed after a line.
#[inline]
pub(crate) fn feed_of(block: &Block, modal: &ModalState) -> Result<Feed, Fault>
    ensures { result ≡ feed_of block.now modal.now }
{
    match feed_word(feed_mode_after(block, &modal.modes), block.values.f()) {
        None => Ok(modal.feed_per_min),
        Some(feed) => Ok(Feed::of(nm_of(feed, modal.modes.unit)?)),
    }
}

/// The pace of a move at a feed or in a time.
fn fed_pace(mode: FeedMode, feed_per_min: Feed, word: Option<Num>) -> Option<Pace>
    ensures { result ≡ fed_pace mode feed_per_min word }
{
    match mode {
        FeedMode::PerMinute => match Rate::of(feed_per_min) {
            Some(rate) => Some(Pace::Feed(rate)),
            None => None,
        },
        FeedMode::InverseTime => match word {
            None => None,
            Some(word) => match InverseTime::of(word) {
                Some(time) => Some(Pace::InverseTime(time)),
                None => None,
            },
        },
    }
}

/// The pace of a line's move at a feed, with the feed after the line. `None` if the feed or the time is missing.
#[inline]
pub(crate) fn fed_pace_of(block: &Block, modal: &ModalState, feed_per_min: Feed) -> Option<Pace>
    ensures { result ≡ fed_pace_of block.now modal.now feed_per_min }
{
    let mode = feed_mode_after(block, &modal.modes);
    fed_pace(mode, feed_per_min, block.values.f())
}

/// The pace of a line's straight move. `None` if its feed or its time is missing.
#[inline]
pub(crate) fn straight_pace(
    kind: StraightKind,
    block: &Block,
    modal: &ModalState,
    feed_per_min: Feed,
) -> Option<Pace>
    ensures { result ≡ straight_pace kind block.now modal.now feed_per_min }
{
    match kind {
        StraightKind::Traverse => Some(Pace::Traverse),
        StraightKind::Feed => fed_pace_of(block, modal, feed_per_min),
    }
}

/// The program coordinate that an axis word names.
#[inline]
fn program_coordinate(
    distance: Distance,
    machine: Len,
    shift: Shift,
    length: Len,
) -> Result<Len, Fault>
    ensures { result ≡ program_coordinate distance (machine -ℤ shift) length }
{
    match distance {
        Distance::Absolute => Ok(length),
        Distance::Incremental => {
            let current = shift.to_program(machine)?;
            current.add(length)
        }
    }
}

/// The machine coordinate of an axis after a move.
#[inline]
fn coordinate(word: Option<Num>, reading: Reading, shift: Shift, machine: Len) -> Result<Len, Fault>
    ensures { result ≡ coordinate word reading.unit reading.distance shift machine }
{
    match word {
        None => Ok(machine),
        Some(number) => {
            let length = nm_of(number, reading.unit)?;
            let program = program_coordinate(reading.distance, machine, shift, length)?;
            shift.to_machine(program)
        }
    }
}

/// The end of a move under offsets. Nearly every line needs it, so it is always inlined.
#[inline(always)]
pub(crate) fn end_of(block: &Block, modal: &ModalState, offsets: &Offsets) -> Result<Point, Fault>
    ensures { result ≡ end_of block.now modal.now offsets.now }
{
    let reading = Reading {
        unit: unit_after(block, &modal.modes),
        distance: block.g.distance.unwrap_or(modal.modes.distance),
    };
    let values = &block.values;
    let point = &modal.point;
    let x = coordinate(values.x(), reading, offsets.x(), point.x)?;
    let y = coordinate(values.y(), reading, offsets.y(), point.y)?;
    let z = coordinate(values.z(), reading, offsets.z(), point.z)?;
    Ok(Point { x, y, z })
}

/// Whether a word of group 0 is G53.
#[inline]
fn is_machine(word: Option<NonModal>) -> bool
    ensures { result ≡ is_machine word }
{
    match word {
        Some(NonModal::MachineCoordinates) => true,
        _ => false,
    }
}

/// The end of a move under G53.
#[inline(never)]
fn machine_end_of(block: &Block, modal: &ModalState) -> Result<Point, Fault>
    ensures { result ≡ machine_end_of block.now modal.now }
{
    match named_on(block, &modal.modes) {
        Ok(named) => Ok(named.put(modal.point)),
        Err(fault) => Err(fault),
    }
}

/// The end of a straight move.
#[inline]
fn straight_end_of(block: &Block, modal: &ModalState, offsets: &Offsets) -> Result<Point, Fault>
    ensures { result ≡ straight_end_of block.now modal.now offsets.now }
{
    if is_machine(block.g.non_modal) {
        machine_end_of(block, modal)
    } else {
        end_of(block, modal, offsets)
    }
}

/// The path of a straight move under offsets, with the feed after the line. E3 if a coordinate of its end is out of
/// range.
fn straight_path(
    kind: StraightKind,
    block: &Block,
    modal: &ModalState,
    offsets: &Offsets,
    feed_per_min: Feed,
) -> Result<Path, Fault>
    ensures { result ≡ straight_path kind block.now modal.now offsets.now feed_per_min }
{
    let end = straight_end_of(block, modal, offsets)?;
    let pace = straight_pace(kind, block, modal, feed_per_min);
    Ok(Path::moving_at(pace, modal.point, end))
}

/// The path of what a line moves: under offsets, with the feed after the line, in the table that its assignments leave.
/// E3 if one of its coordinates is out of range; else C1 to C4 of an arc, Y1 to Y8, X1, X2 of a cycle.
pub(crate) fn path_of<A: Allocator + Copy + Drop>(
    block: &Block,
    state: &State<A>,
    assignments: &[Change],
    offsets: &Offsets,
    feed_per_min: Feed,
    geometry: &Geometry,
) -> Result<Path, Fault>
    ensures { let table = with_changes state.now.params assignments.now in
        result ≡ path_of block.now state.now.modal offsets.now table feed_per_min geometry.now }
{
    let modal = &state.modal;
    match block.movement {
        Some(Movement::Straight(kind)) => straight_path(kind, block, modal, offsets, feed_per_min),
        Some(Movement::Arc(turn)) => path_along_arc(turn, block, modal, offsets, feed_per_min),
        Some(Movement::Cycle(kind)) => cycle_path(
            kind,
            block,
            modal,
            offsets,
            feed_per_min,
            geometry,
        ),
        None => {
            let home = home_on(block.g.non_modal, &state.params, assignments);
            home_path(block, modal, offsets, home)
        }
    }
}

/// Stores the path under the offsets before the line, with the same faults. It isn't inlined, so that straight moves
/// don't pay for its local variables.
#[inline(never)]
pub(crate) fn put_path<A: Allocator + Copy + Drop>(
    block: &Block,
    state: &State<A>,
    assignments: &[Change],
    feed_per_min: Feed,
    geometry: &Geometry,
    place: &mut Path,
) -> Result<(), Fault>
    ensures { let table = with_changes state.now.params assignments.now in
        let way = path_of block.now state.now.modal state.now.modal.offsets table feed_per_min geometry.now in
        MatchResult result (λ _. way ≡ Ok place.new) (λ fault. way ≡ Err fault) }
{
    let offsets = &state.modal.offsets;
    match path_of(block, state, assignments, offsets, feed_per_min, geometry) {
        Ok(path) => {
            *place = path;
            Ok(())
        }
        Err(fault) => Err(fault),
    }
}
