//! A run: lines go in, and their times come out.
ghost use Rattle.std.specs.Prelude.{◌≡◌, ◌≢◌, [], IfErr, IfOk, IfSome};
ghost use Rattle.ng_pace.specs.Axes.{AreLimits};
ghost use Rattle.ng_pace.specs.Calls.{IsEmpty};
ghost use Rattle.ng_schedule.specs.Schedule.{ScheduleSpec};

use crate::ending::{Ended, ScheduleFault, Shown};
use crate::giving::Schedule;
use crate::output::CAPACITY;
use crate::splitting::LineSplitter;
use arrayvec::ArrayVec;
use ng_pace::{Limits, PaceFault, Stream};
use std::alloc::Allocator;
use std::io::{Read, Write};

/// How many lines fit: so many are known ahead of the one that is given.
const LINES: usize = 8192;

/// The most reads that a run makes.
const READS: u64 = 1_000_000_000;

/// The bytes of a read.
const BUFFER: usize = 65_536;

/// What is told of a stream that isn't made.
fn fault_of(fault: PaceFault) -> ScheduleFault
    ensures { fault ≡ PaceFault.OutOfMemory → result ≡ ScheduleFault.Memory }
{
    match fault {
        PaceFault::OutOfMemory => ScheduleFault::Memory,
        _ => ScheduleFault::Limits,
    }
}

impl<A: Allocator + Copy + Drop> Schedule<A> {
    /// A run before its first line, with all the memory that it ever takes.
    fn new(alloc: A, limits: Limits, shown: Shown) -> Result<Schedule<A>, ScheduleFault>
        ensures empty { IfOk result (λ s. IsEmpty s.stream limits 8192) }
        ensures text { IfOk result (λ s. s.text.items ≡ []) }
        ensures shown { IfOk result (λ s. s.shown ≡ shown) }
        ensures due { IfOk result (λ s. s.due_ns ≡ 0) }
        ensures number { IfOk result (λ s. s.number ≡ 1) }
        ensures limits { AreLimits limits → IfErr result (λ fault. fault ≢ ScheduleFault.Limits) }
    {
        let stream = match Stream::new(alloc, limits, LINES) {
            Ok(stream) => stream,
            Err(fault) => return Err(fault_of(fault)),
        };
        match Vec::with_capacity(alloc, CAPACITY) {
            Ok(text) => Ok(Schedule {
                stream,
                shown,
                due_ns: 0,
                number: 1,
                text,
            }),
            Err(_) => Err(ScheduleFault::Memory),
        }
    }
}

/// Writes when each line of OUT is due, on a machine whose motors have these limits.
///
/// A line is written as it stood, behind the nanosecond from the start at which it is due, and a blank: the first is
/// due at 0, each other when the time that the pacer gave the one before is over. `Shown::Total` writes the nanosecond
/// at which the last line is over, alone. All lines come to rest at the end of the last.
///
/// A line that isn't one of OUT ends the run, as does a last line without its newline: all lines before it are written,
/// come to rest at the end of the last, and then `refused line K: not a line of OUT`; K counts lines from 1. A line
/// that would be over after more than 584 years, 2^64 - 2 nanoseconds, ends it with another such line. Where a run ends
/// so, no total is written.
///
/// The lines are read through a buffer of fixed size, by at most 1,000,000,000 reads; memory for 8,192 lines is taken
/// once, and memory doesn't grow. After a `ScheduleFault` a beginning of the text has been written; `Limits` and
/// `Memory` come before the first read, and `Limits` only for what a pacer can't meet. Source: own.
pub fn schedule<R: Read, W: Write, A: Allocator + Copy + Drop>(
    alloc: A,
    reader: &mut R,
    writer: &mut W,
    limits: Limits,
    shown: Shown,
) -> Result<Ended, ScheduleFault>
    ensures run { IfSome (R.remaining reader.old) (λ text.
        ScheduleSpec limits shown text (W.contents writer.old) (W.contents writer.new) result) }
    ensures limits { AreLimits limits → IfErr result (λ fault. fault ≢ ScheduleFault.Limits) }
{
    let schedule = match Schedule::new(alloc, limits, shown) {
        Ok(schedule) => schedule,
        Err(fault) => return Err(fault),
    };
    let mut splitter = LineSplitter {
        schedule,
        partial: ArrayVec::new(),
    };
    let mut buffer = [0u8; BUFFER];
    for pass in 0..READS {
        match reader.read(&mut buffer) {
            Err(_) => return Err(ScheduleFault::Reader),
            Ok(0) => return splitter.close(writer),
            Ok(n) => match splitter.take(writer, &buffer[..n]) {
                Ok(()) => {}
                Err(stop) => return splitter.stop(writer, stop),
            },
        }
    }
    Err(ScheduleFault::Reader)
}
