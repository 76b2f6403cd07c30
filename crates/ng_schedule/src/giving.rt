//! A run between two lines, and the lines that it gives.
ghost use Rattle.std.specs.Prelude.{◌≡◌, ◌≢◌, ◌+◌, ◌<◌, ◌++◌, [], ℕ, List, Option, Bool, true, false, IfErr, IfOk, OnOk, IsFalse, IsTrue, length};
ghost use Rattle.ng_canon.specs.declared.item.Item.{Item};
ghost use Rattle.ng_lines.specs.Lines.{IsItem, item_line};
ghost use Rattle.ng_pace.specs.Stream.{all_items};
ghost use Rattle.ng_pace.specs.declared.limits.Limits.{Limits};
ghost use Rattle.ng_streams.specs.Waiting.{FlushSpec};
ghost use Rattle.ng_schedule.specs.Schedule.{due_text};
ghost use Rattle.ng_schedule.specs.Private.Parts.{GiveSpec, IsNotFull, IsAt, IsFull, IsUnderWay};

use crate::ending::{Halt, ScheduleFault, Shown};
use crate::output::put_due;
use ng_canon::Item;
use ng_pace::Stream;
use std::alloc::Allocator;
use std::io::Write;

/// A run between two lines.
#[derive(Drop)]
pub(crate) struct Schedule<A: Allocator> {
    pub(crate) stream: Stream<A>,
    pub(crate) shown: Shown,
    /// When the next line that is given is due.
    pub(crate) due_ns: u64,
    /// The number of that line, from 1.
    pub(crate) number: u64,
    /// The text that isn't written yet.
    pub(crate) text: Vec<u8, A>,
}

/// Prints what is shown of a line.
#[inline(always)]
fn put_shown<W: Write, A: Allocator + Copy + Drop>(
    shown: Shown,
    text: &mut Vec<u8, A>,
    writer: &mut W,
    due_ns: u64,
    item: Item,
) -> Result<(), ScheduleFault>
    ensures moves { FlushSpec (W.contents writer.old) (W.contents writer.new)
        (text.old.items ++ due_text shown due_ns item) text.new.items result }
    ensures limits { IfErr result (λ fault. fault ≢ ScheduleFault.Limits) }
{
    match shown {
        Shown::Lines => put_due(text, writer, due_ns, item),
        Shown::Total => Ok(()),
    }
}

impl<A: Allocator + Copy + Drop> Schedule<A> {
    /// Gives the next line whose limits are final. False if there is none.
    #[inline(always)]
    fn give_next<W: Write>(&mut self, writer: &mut W) -> Result<bool, Halt>
        ensures step { (ended : Bool) (limits : Limits) (start : Option (List ℕ)) (bytes partial : List ℕ)
            → IsAt ended limits start (W.contents writer.old) bytes partial self.old → (IsFalse ended → IsFull self.old)
            → GiveSpec ended limits start (W.contents writer.new) bytes partial self.new result }
        ensures one { IfOk result (λ gave. IsTrue gave → length (all_items self.new.stream) + 1 ≡ length (all_items self.old.stream)) }
        ensures none { IfOk result (λ gave. IsFalse gave → self.old.stream.motion.known ≡ []) }
        ensures same { IfOk result (λ gave. IsFalse gave → self.new.stream ≡ self.old.stream) }
        ensures waiting { self.new.stream.waiting ≡ self.old.stream.waiting }
        ensures limits { IfErr result (λ halt. halt ≢ Halt.Fault ScheduleFault.Limits) }
        ensures shown { self.new.shown ≡ self.old.shown }
    {
        let Some(given) = self.stream.next(u64::MAX) else {
            return Ok(false);
        };
        let over_ns = self.due_ns.saturating_add(given.ns);
        if over_ns == u64::MAX {
            return Err(Halt::TooLate);
        }
        let Some(number) = self.number.checked_add(1) else {
            return Err(Halt::Fault(ScheduleFault::Reader));
        };
        match put_shown(
            self.shown,
            &mut self.text,
            writer,
            self.due_ns,
            given.line.item,
        ) {
            Ok(()) => {
                self.due_ns = over_ns;
                self.number = number;
                Ok(true)
            }
            Err(fault) => Err(Halt::Fault(fault)),
        }
    }

    /// Gives one line. If the limits of none are final, all that are known come to rest at their end.
    #[inline(always)]
    fn give_one<W: Write>(&mut self, writer: &mut W) -> Result<(), Halt>
        ensures step { (limits : Limits) (start : Option (List ℕ)) (bytes partial : List ℕ)
            → IsUnderWay limits start (W.contents writer.old) bytes partial self.old → IsFull self.old
            → GiveSpec false limits start (W.contents writer.new) bytes partial self.new result }
        ensures one { OnOk result (length (all_items self.new.stream) + 1 ≡ length (all_items self.old.stream)) }
        ensures shown { self.new.shown ≡ self.old.shown }
    {
        match self.give_next(writer) {
            Ok(true) => return Ok(()),
            Ok(false) => {}
            Err(halt) => return Err(halt),
        }
        self.stream.end();
        match self.give_next(writer) {
            Ok(true) => Ok(()),
            // It can't be that none is known: as many are as fit. So `HaltSpec` has no fault of limits.
            Ok(false) => Err(Halt::Fault(ScheduleFault::Limits)),
            Err(halt) => Err(halt),
        }
    }

    /// Gives lines until one more fits.
    #[inline(always)]
    fn give_while_full<W: Write>(&mut self, writer: &mut W) -> Result<(), Halt>
        ensures step { (limits : Limits) (start : Option (List ℕ)) (bytes partial : List ℕ)
            → IsUnderWay limits start (W.contents writer.old) bytes partial self.old
            → GiveSpec false limits start (W.contents writer.new) bytes partial self.new result }
        ensures not_full { OnOk result (IsNotFull self.new) }
        ensures shown { self.new.shown ≡ self.old.shown }
    {
        while self.stream.is_full() {
            match self.give_one(writer) {
                Ok(()) => {}
                Err(halt) => return Err(halt),
            }
        }
        Ok(())
    }

    /// Takes the item of the next line.
    #[inline(always)]
    pub(crate) fn take_item<W: Write>(&mut self, writer: &mut W, item: Item) -> Result<(), Halt>
        ensures step { (limits : Limits) (start : Option (List ℕ)) (bytes : List ℕ)
            → IsUnderWay limits start (W.contents writer.old) bytes [] self.old
            → GiveSpec false limits start (W.contents writer.new) (bytes ++ item_line item) [] self.new result }
        ensures shown { self.new.shown ≡ self.old.shown }
    {
        match self.give_while_full(writer) {
            Ok(()) => {
                self.stream.push(item);
                Ok(())
            }
            Err(halt) => Err(halt),
        }
    }

    /// Gives all lines: nothing more comes.
    pub(crate) fn give_all<W: Write>(&mut self, writer: &mut W) -> Result<(), Halt>
        ensures step { (limits : Limits) (start : Option (List ℕ)) (bytes partial : List ℕ)
            → IsUnderWay limits start (W.contents writer.old) bytes partial self.old
            → GiveSpec true limits start (W.contents writer.new) bytes partial self.new result }
        ensures all { OnOk result (all_items self.new.stream ≡ []) }
        ensures limits { IfErr result (λ halt. halt ≢ Halt.Fault ScheduleFault.Limits) }
        ensures shown { self.new.shown ≡ self.old.shown }
    {
        self.stream.end();
        loop {
            match self.give_next(writer) {
                Ok(true) => {}
                Ok(false) => return Ok(()),
                Err(halt) => return Err(halt),
            }
        }
    }
}
