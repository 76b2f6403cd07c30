//! The calls of C, on what lies at its pointer.
ghost use Rattle.std.specs.Prelude.{◌≡◌, ◌↔◌, ◌<◌, ◌≤◌, None, IsFalse};
ghost use Rattle.ng_pace_c.specs.Calls.{IsAnswered, IsBegun, IsEnd, IsFullSaid, IsPutOrFull, IsReadySaid, IsWanted};

use crate::shapes::{PaceGiven, PaceLine, item_of};
use ng_pace::{Limits, PaceFault, Stream};
use std::alloc::Global;

/// A stream, if one was begun.
#[derive(Drop)]
pub struct Handle {
    pub(crate) stream: Option<Stream<Global>>,
}

/// A handle without a stream.
pub(crate) fn none() -> Handle
    ensures { result.stream ≡ None }
{
    Handle { stream: None }
}

/// Why there is no stream, as a number above 0.
fn code_of(fault: PaceFault) -> u32
    ensures some { 0 < result }
    ensures no_acceleration { (result ≡ 1) ↔ (fault ≡ PaceFault.NoAcceleration) }
    ensures acceleration_too_great { (result ≡ 2) ↔ (fault ≡ PaceFault.AccelerationTooGreat) }
    ensures rate_too_great { (result ≡ 3) ↔ (fault ≡ PaceFault.RateTooGreat) }
    ensures no_corner { (result ≡ 4) ↔ (fault ≡ PaceFault.NoCorner) }
    ensures no_slack { (result ≡ 5) ↔ (fault ≡ PaceFault.NoSlack) }
    ensures slack_too_great { (result ≡ 6) ↔ (fault ≡ PaceFault.SlackTooGreat) }
    ensures no_percent { (result ≡ 7) ↔ (fault ≡ PaceFault.NoPercent) }
    ensures no_capacity { (result ≡ 8) ↔ (fault ≡ PaceFault.NoCapacity) }
    ensures no_other { ¬ (fault ≡ PaceFault.StartTooSmall) → result ≤ 9 }
{
    match fault {
        PaceFault::NoAcceleration => 1,
        PaceFault::AccelerationTooGreat => 2,
        PaceFault::RateTooGreat => 3,
        PaceFault::NoCorner => 4,
        PaceFault::NoSlack => 5,
        PaceFault::SlackTooGreat => 6,
        PaceFault::NoPercent => 7,
        PaceFault::NoCapacity => 8,
        PaceFault::OutOfMemory => 9,
        PaceFault::StartTooSmall => 10,
    }
}

/// Begins a stream, in the place of the one before, whose memory is given back first, and answers 0; or has none, and
/// answers why.
pub(crate) fn begin(handle: &mut Handle, alloc: Global, limits: Limits, capacity: usize) -> u32
    ensures { IsBegun handle.new limits capacity result }
{
    handle.stream = None;
    match Stream::new(alloc, limits, capacity) {
        Ok(stream) => {
            handle.stream = Some(stream);
            0
        }
        Err(fault) => code_of(fault),
    }
}

/// Whether there is no room for a line. Where there is no stream, there is none.
pub(crate) fn is_full(handle: &mut Handle) -> bool
    ensures { IsFullSaid handle.old handle.new result }
{
    match &handle.stream {
        None => true,
        Some(stream) => stream.is_full(),
    }
}

/// Takes a line, after all that are known. False, with nothing changed, if there is no room for it.
pub(crate) fn push(handle: &mut Handle, line: PaceLine) -> bool
    ensures { IsPutOrFull handle.old handle.new line result }
{
    match &mut handle.stream {
        None => false,
        Some(stream) => {
            if stream.is_full() {
                return false;
            }
            stream.push(item_of(line));
            true
        }
    }
}

/// Nothing more is known to come.
pub(crate) fn end(handle: &mut Handle)
    ensures { IsEnd handle.old handle.new }
{
    match &mut handle.stream {
        None => {}
        Some(stream) => stream.end(),
    }
}

/// No line.
fn not_given() -> PaceGiven
    ensures { IsFalse result.is_given }
{
    PaceGiven {
        ns: 0,
        ramp: 0,
        is_given: false,
        is_at_rest: false,
    }
}

/// The next line, at no more than this square.
pub(crate) fn next(handle: &mut Handle, wanted: u64) -> PaceGiven
    ensures { IsAnswered handle.old handle.new wanted result }
{
    match &mut handle.stream {
        None => not_given(),
        Some(stream) => match stream.next(wanted) {
            None => not_given(),
            Some(given) => PaceGiven {
                ns: given.ns,
                ramp: given.line.ramp.up.min(given.line.ramp.down),
                is_given: true,
                is_at_rest: stream.is_at_rest(),
            },
        },
    }
}

/// The square that is wanted at so many percent of the controller's rates.
pub(crate) fn wanted(handle: &mut Handle, percent: u64) -> u64
    ensures { IsWanted handle.old handle.new percent result }
{
    match &handle.stream {
        None => 0,
        Some(stream) => stream.wanted(percent),
    }
}

/// Whether a line can be given out: its limits are final.
pub(crate) fn is_ready(handle: &mut Handle) -> bool
    ensures { IsReadySaid handle.old handle.new result }
{
    match &handle.stream {
        None => false,
        Some(stream) => stream.is_ready(),
    }
}
