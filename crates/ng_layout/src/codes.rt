//! The bytes that stand for modes and outputs in a state field.
ghost use Rattle.std.specs.Prelude.{◌≡◌, Some};
ghost use Rattle.ng_layout.specs.Codes.{motion_of, plane_of, distance_of, feed_mode_of, unit_of, retract_of, path_of};
ghost use Rattle.ng_layout.specs.Codes.{spindle_of, truth_of, source_of, opened_of};

use crate::half::{Opened, Source};
use ng_canon::{Plane, Spindle};
use ng_num::Unit;
use ng_state::{Distance, FeedMode, Motion, PathMode, Retract};

pub(crate) fn motion_of(code: u8) -> Option<Motion>
    ensures { result ≡ motion_of code }
{
    match code {
        0 => Some(Motion::Traverse),
        1 => Some(Motion::Feed),
        2 => Some(Motion::ClockwiseArc),
        3 => Some(Motion::CounterclockwiseArc),
        80 => Some(Motion::Off),
        81 => Some(Motion::Drilling),
        82 => Some(Motion::DrillingWithDwell),
        83 => Some(Motion::PeckDrilling),
        85 => Some(Motion::Boring),
        86 => Some(Motion::BoringWithStop),
        89 => Some(Motion::BoringWithDwell),
        _ => None,
    }
}

pub(crate) fn code_of_motion(motion: Motion) -> u8
    ensures { motion_of result ≡ Some motion }
{
    match motion {
        Motion::Traverse => 0,
        Motion::Feed => 1,
        Motion::ClockwiseArc => 2,
        Motion::CounterclockwiseArc => 3,
        Motion::Off => 80,
        Motion::Drilling => 81,
        Motion::DrillingWithDwell => 82,
        Motion::PeckDrilling => 83,
        Motion::Boring => 85,
        Motion::BoringWithStop => 86,
        Motion::BoringWithDwell => 89,
    }
}

pub(crate) fn plane_of(code: u8) -> Option<Plane>
    ensures { result ≡ plane_of code }
{
    match code {
        17 => Some(Plane::Xy),
        18 => Some(Plane::Xz),
        19 => Some(Plane::Yz),
        _ => None,
    }
}

pub(crate) fn code_of_plane(plane: Plane) -> u8
    ensures { plane_of result ≡ Some plane }
{
    match plane {
        Plane::Xy => 17,
        Plane::Xz => 18,
        Plane::Yz => 19,
    }
}

pub(crate) fn distance_of(code: u8) -> Option<Distance>
    ensures { result ≡ distance_of code }
{
    match code {
        90 => Some(Distance::Absolute),
        91 => Some(Distance::Incremental),
        _ => None,
    }
}

pub(crate) fn code_of_distance(distance: Distance) -> u8
    ensures { distance_of result ≡ Some distance }
{
    match distance {
        Distance::Absolute => 90,
        Distance::Incremental => 91,
    }
}

pub(crate) fn feed_mode_of(code: u8) -> Option<FeedMode>
    ensures { result ≡ feed_mode_of code }
{
    match code {
        93 => Some(FeedMode::InverseTime),
        94 => Some(FeedMode::PerMinute),
        _ => None,
    }
}

pub(crate) fn code_of_feed_mode(feed_mode: FeedMode) -> u8
    ensures { feed_mode_of result ≡ Some feed_mode }
{
    match feed_mode {
        FeedMode::InverseTime => 93,
        FeedMode::PerMinute => 94,
    }
}

pub(crate) fn unit_of(code: u8) -> Option<Unit>
    ensures { result ≡ unit_of code }
{
    match code {
        20 => Some(Unit::Inches),
        21 => Some(Unit::Millimetres),
        _ => None,
    }
}

pub(crate) fn code_of_unit(unit: Unit) -> u8
    ensures { unit_of result ≡ Some unit }
{
    match unit {
        Unit::Inches => 20,
        Unit::Millimetres => 21,
    }
}

pub(crate) fn retract_of(code: u8) -> Option<Retract>
    ensures { result ≡ retract_of code }
{
    match code {
        98 => Some(Retract::OldZ),
        99 => Some(Retract::ToR),
        _ => None,
    }
}

pub(crate) fn code_of_retract(retract: Retract) -> u8
    ensures { retract_of result ≡ Some retract }
{
    match retract {
        Retract::OldZ => 98,
        Retract::ToR => 99,
    }
}

pub(crate) fn path_of(code: u8) -> Option<PathMode>
    ensures { result ≡ path_of code }
{
    match code {
        0 => Some(PathMode::Exact),
        1 => Some(PathMode::ExactStop),
        2 => Some(PathMode::Continuous),
        _ => None,
    }
}

pub(crate) fn code_of_path(path: PathMode) -> u8
    ensures { path_of result ≡ Some path }
{
    match path {
        PathMode::Exact => 0,
        PathMode::ExactStop => 1,
        PathMode::Continuous => 2,
    }
}

pub(crate) fn spindle_of(code: u8) -> Option<Spindle>
    ensures { result ≡ spindle_of code }
{
    match code {
        0 => Some(Spindle::Stopped),
        1 => Some(Spindle::Clockwise),
        2 => Some(Spindle::Counterclockwise),
        _ => None,
    }
}

pub(crate) fn code_of_spindle(spindle: Spindle) -> u8
    ensures { spindle_of result ≡ Some spindle }
{
    match spindle {
        Spindle::Stopped => 0,
        Spindle::Clockwise => 1,
        Spindle::Counterclockwise => 2,
    }
}

pub(crate) fn truth_of(code: u8) -> Option<bool>
    ensures { result ≡ truth_of code }
{
    match code {
        0 => Some(false),
        1 => Some(true),
        _ => None,
    }
}

pub(crate) fn code_of_truth(truth: bool) -> u8
    ensures { truth_of result ≡ Some truth }
{
    if truth { 1 } else { 0 }
}

pub(crate) fn source_of(code: u8) -> Option<Option<Source>>
    ensures { result ≡ source_of code }
{
    match code {
        0 => Some(None),
        1 => Some(Some(Source::Program)),
        2 => Some(Some(Source::Mdi)),
        _ => None,
    }
}

pub(crate) fn code_of_source(source: Source) -> u8
    ensures { source_of result ≡ Some (Some source) }
{
    match source {
        Source::Program => 1,
        Source::Mdi => 2,
    }
}

pub(crate) fn opened_of(code: u8) -> Option<Option<Opened>>
    ensures { result ≡ opened_of code }
{
    match code {
        0 => Some(None),
        1 => Some(Some(Opened::Segment)),
        2 => Some(Some(Opened::Approach)),
        _ => None,
    }
}

pub(crate) fn code_of_opened(opened: Option<Opened>) -> u8
    ensures { opened_of result ≡ Some opened }
{
    match opened {
        None => 0,
        Some(Opened::Segment) => 1,
        Some(Opened::Approach) => 2,
    }
}
