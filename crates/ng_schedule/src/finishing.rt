//! The end of a run.
ghost use Rattle.std.specs.Prelude.{◌≡◌, ◌≢◌, ◌++◌, [], IfErr, List, OnOk, Option, ℕ};
ghost use Rattle.ng_pace.specs.declared.limits.Limits.{Limits};
ghost use Rattle.ng_streams.specs.Waiting.{FlushSpec};
ghost use Rattle.ng_schedule.specs.Schedule.{BeginsNoLine, ScheduleSpec, end_text};
ghost use Rattle.ng_text.specs.Split.{HasNoNewline};
ghost use Rattle.ng_schedule.specs.Private.Parts.{HaltSpec, IsUnderWay, StopSpec};

use crate::ending::{Ended, Halt, ScheduleFault, Shown, Stop};
use crate::giving::Schedule;
use crate::output::{flush, put_last};
use crate::splitting::LineSplitter;
use std::alloc::Allocator;
use std::io::Write;

/// Prints what is shown behind the lines, and writes all text that waits.
fn put_end<W: Write, A: Allocator + Copy + Drop>(
    shown: Shown,
    text: &mut Vec<u8, A>,
    writer: &mut W,
    ns: u64,
) -> Result<(), ScheduleFault>
    ensures drains { FlushSpec (W.contents writer.old) (W.contents writer.new)
        (text.old.items ++ end_text shown ns) text.new.items result }
    ensures empty { OnOk result (text.new.items ≡ []) }
    ensures limits { IfErr result (λ fault. fault ≢ ScheduleFault.Limits) }
{
    match shown {
        Shown::Lines => flush(text, writer),
        Shown::Total => put_last(text, writer, b"", ns, b"\n"),
    }
}

impl<A: Allocator + Copy + Drop> Schedule<A> {
    /// Ends the run: no more lines are given.
    fn halt<W: Write>(&mut self, writer: &mut W, halt: Halt) -> Result<Ended, ScheduleFault>
        ensures step { (limits : Limits) (start : Option (List ℕ)) (bytes more : List ℕ)
            → HaltSpec limits start (W.contents writer.old) bytes self.old halt
            → ScheduleSpec limits self.old.shown (bytes ++ more) start (W.contents writer.new) result }
        ensures limits { halt ≢ Halt.Fault ScheduleFault.Limits
            → IfErr result (λ fault. fault ≢ ScheduleFault.Limits) }
    {
        match halt {
            Halt::Fault(fault) => Err(fault),
            Halt::TooLate => {
                let number = self.number;
                match put_last(
                    &mut self.text,
                    writer,
                    b"refused line ",
                    number,
                    b": over after more than 584 years\n",
                ) {
                    Ok(()) => Ok(Ended::TooLate(number)),
                    Err(fault) => Err(fault),
                }
            }
        }
    }

    /// Ends the run: all lines are there.
    fn finish<W: Write>(&mut self, writer: &mut W) -> Result<Ended, ScheduleFault>
        ensures step { (limits : Limits) (start : Option (List ℕ)) (bytes : List ℕ)
            → IsUnderWay limits start (W.contents writer.old) bytes [] self.old
            → ScheduleSpec limits self.old.shown bytes start (W.contents writer.new) result }
        ensures limits { IfErr result (λ fault. fault ≢ ScheduleFault.Limits) }
    {
        match self.give_all(writer) {
            Ok(()) => match put_end(self.shown, &mut self.text, writer, self.due_ns) {
                Ok(()) => Ok(Ended::Done),
                Err(fault) => Err(fault),
            },
            Err(halt) => self.halt(writer, halt),
        }
    }

    /// Ends the run: what follows isn't a line.
    fn refuse<W: Write>(&mut self, writer: &mut W) -> Result<Ended, ScheduleFault>
        ensures step { (limits : Limits) (start : Option (List ℕ)) (bytes rest : List ℕ)
            → IsUnderWay limits start (W.contents writer.old) bytes [] self.old → rest ≢ [] → BeginsNoLine rest
            → ScheduleSpec limits self.old.shown (bytes ++ rest) start (W.contents writer.new) result }
        ensures limits { IfErr result (λ fault. fault ≢ ScheduleFault.Limits) }
    {
        match self.give_all(writer) {
            Ok(()) => {
                let number = self.number;
                match put_last(
                    &mut self.text,
                    writer,
                    b"refused line ",
                    number,
                    b": not a line of OUT\n",
                ) {
                    Ok(()) => Ok(Ended::NotALine(number)),
                    Err(fault) => Err(fault),
                }
            }
            Err(halt) => self.halt(writer, halt),
        }
    }
}

impl<A: Allocator + Copy + Drop> LineSplitter<A> {
    /// Ends the run: no more lines are taken.
    pub(crate) fn stop<W: Write>(
        &mut self,
        writer: &mut W,
        stop: Stop,
    ) -> Result<Ended, ScheduleFault>
        ensures step { (limits : Limits) (start : Option (List ℕ)) (bytes more : List ℕ)
            → StopSpec limits start (W.contents writer.old) bytes self.old.schedule stop
            → ScheduleSpec limits self.old.schedule.shown (bytes ++ more) start (W.contents writer.new) result }
        ensures limits { stop ≢ Stop.Halted (Halt.Fault ScheduleFault.Limits)
            → IfErr result (λ fault. fault ≢ ScheduleFault.Limits) }
    {
        match stop {
            Stop::NotALine => self.schedule.refuse(writer),
            Stop::Halted(halt) => self.schedule.halt(writer, halt),
        }
    }

    /// Ends the run: there are no more bytes.
    pub(crate) fn close<W: Write>(&mut self, writer: &mut W) -> Result<Ended, ScheduleFault>
        requires { HasNoNewline self.old.partial.items }
        ensures step { (limits : Limits) (start : Option (List ℕ)) (bytes : List ℕ)
            → IsUnderWay limits start (W.contents writer.old) bytes self.old.partial.items self.old.schedule
            → ScheduleSpec limits self.old.schedule.shown bytes start (W.contents writer.new) result }
        ensures limits { IfErr result (λ fault. fault ≢ ScheduleFault.Limits) }
    {
        if self.partial.is_empty() {
            return self.schedule.finish(writer);
        }
        self.schedule.refuse(writer)
    }
}
