//! Splitting the bytes of OUT into lines as they come.
ghost use Rattle.std.specs.Prelude.{◌≡◌, ◌∷◌, ◌++◌, [], List, Option, ℕ};
ghost use Rattle.ng_lines.specs.Lines.{item_line};
ghost use Rattle.ng_pace.specs.declared.limits.Limits.{Limits};
ghost use Rattle.ng_text.specs.Split.{HasNoNewline};
ghost use Rattle.ng_schedule.specs.Private.Parts.{IsUnderWay, StopSpec, TakeSpec};

use crate::ending::Stop;
use crate::giving::Schedule;
use arrayvec::ArrayVec;
use ng_canon::Item;
use ng_lines::{read_item, take_pulse};
use ng_text::split_line;
use std::alloc::Allocator;
use std::io::Write;

/// The most bytes that are kept of a line without its end; no line has as many.
const LONGEST_PARTIAL: usize = 128;

/// Splits bytes into the lines of a run, and keeps the beginning of a line until its end comes.
#[derive(Drop)]
pub(crate) struct LineSplitter<A: Allocator> {
    pub(crate) schedule: Schedule<A>,
    pub(crate) partial: ArrayVec<u8, LONGEST_PARTIAL>,
}

impl<A: Allocator + Copy + Drop> Schedule<A> {
    /// Takes what was read of the next line.
    #[inline(always)]
    fn take_read<W: Write>(&mut self, writer: &mut W, item: Item) -> Result<(), Stop>
        ensures step { (limits : Limits) (start : Option (List ℕ)) (bytes : List ℕ)
            → IsUnderWay limits start (W.contents writer.old) bytes [] self.old
            → TakeSpec limits start (W.contents writer.new) (bytes ++ item_line item) [] self.new result }
        ensures shown { self.new.shown ≡ self.old.shown }
    {
        match self.take_item(writer, item) {
            Ok(()) => Ok(()),
            Err(halt) => Err(Stop::Halted(halt)),
        }
    }

    /// Takes the next line, without its newline.
    #[inline(always)]
    fn take_line<W: Write>(&mut self, writer: &mut W, line: &[u8]) -> Result<(), Stop>
        requires { HasNoNewline line.now }
        ensures step { (limits : Limits) (start : Option (List ℕ)) (bytes : List ℕ)
            → IsUnderWay limits start (W.contents writer.old) bytes [] self.old
            → TakeSpec limits start (W.contents writer.new) (bytes ++ (line.now ++ 10 ∷ [])) [] self.new result }
        ensures shown { self.new.shown ≡ self.old.shown }
    {
        match read_item(line) {
            Some(item) => self.take_read(writer, item),
            None => Err(Stop::NotALine),
        }
    }
}

impl<A: Allocator + Copy + Drop> LineSplitter<A> {
    /// Takes the end of a line: the bytes before its newline.
    #[inline(never)]
    fn end_line<W: Write>(&mut self, writer: &mut W, line: &[u8]) -> Result<(), Stop>
        requires partial { HasNoNewline self.old.partial.items }
        requires line { HasNoNewline line.now }
        ensures step { (limits : Limits) (start : Option (List ℕ)) (bytes : List ℕ)
            → IsUnderWay limits start (W.contents writer.old) bytes self.old.partial.items self.old.schedule
            → TakeSpec limits start (W.contents writer.new) (bytes ++
            (line.now ++ 10 ∷ [])) self.new.partial.items self.new.schedule result }
        ensures partial { HasNoNewline self.new.partial.items }
        ensures shown { self.new.schedule.shown ≡ self.old.schedule.shown }
    {
        if self.partial.is_empty() {
            return self.schedule.take_line(writer, line);
        }
        self.end_partial(writer, line)
    }

    /// The same where the beginning of the line is kept.
    fn end_partial<W: Write>(&mut self, writer: &mut W, line: &[u8]) -> Result<(), Stop>
        requires partial { HasNoNewline self.old.partial.items }
        requires line { HasNoNewline line.now }
        ensures step { (limits : Limits) (start : Option (List ℕ)) (bytes : List ℕ)
            → IsUnderWay limits start (W.contents writer.old) bytes self.old.partial.items self.old.schedule
            → TakeSpec limits start (W.contents writer.new) (bytes ++
            (line.now ++ 10 ∷ [])) self.new.partial.items self.new.schedule result }
        ensures partial { HasNoNewline self.new.partial.items }
        ensures shown { self.new.schedule.shown ≡ self.old.schedule.shown }
    {
        match self.partial.try_extend_from_slice(line) {
            Err(_) => Err(Stop::NotALine),
            Ok(()) => {
                let taken = self.schedule.take_line(writer, self.partial.as_slice());
                self.partial.clear();
                taken
            }
        }
    }

    /// Keeps the beginning of a line.
    fn keep(&mut self, bytes: &[u8]) -> Result<(), Stop>
        requires partial { HasNoNewline self.old.partial.items }
        requires bytes { HasNoNewline bytes.now }
        ensures step { (limits : Limits) (start now : Option (List ℕ)) (before : List ℕ)
            → IsUnderWay limits start now before self.old.partial.items self.old.schedule
            → TakeSpec limits start now (before ++ bytes.now) self.new.partial.items self.new.schedule result }
        ensures partial { HasNoNewline self.new.partial.items }
        ensures shown { self.new.schedule.shown ≡ self.old.schedule.shown }
    {
        match self.partial.try_extend_from_slice(bytes) {
            Ok(()) => Ok(()),
            Err(_) => Err(Stop::NotALine),
        }
    }

    /// Takes the next bytes, and writes the lines that are given. Nearly all are lines of pulses: where none is kept,
    /// no end of a line is looked for before it is read.
    pub(crate) fn take<W: Write>(&mut self, writer: &mut W, bytes: &[u8]) -> Result<(), Stop>
        requires { HasNoNewline self.old.partial.items }
        ensures step { (limits : Limits) (start : Option (List ℕ)) (before : List ℕ)
            → IsUnderWay limits start (W.contents writer.old) before self.old.partial.items self.old.schedule
            → TakeSpec limits start (W.contents writer.new) (before ++ bytes.now) self.new.partial.items self.new.schedule result }
        ensures partial { HasNoNewline self.new.partial.items }
        ensures shown { self.new.schedule.shown ≡ self.old.schedule.shown }
    {
        let mut left = bytes;
        loop {
            if self.partial.is_empty()
                && let Some((pulse, after)) = take_pulse(left)
            {
                match self.schedule.take_read(writer, Item::Pulse(pulse)) {
                    Ok(()) => left = after,
                    Err(stop) => return Err(stop),
                }
            } else if let Some((line, after)) = split_line(left) {
                match self.end_line(writer, line) {
                    Ok(()) => left = after,
                    Err(stop) => return Err(stop),
                }
            } else {
                return self.keep(left);
            }
        }
    }
}
