//! Splitting the bytes of a program into lines as they come.
ghost use Rattle.std.specs.Prelude.{◌≡◌, ◌+◌, ◌<◌, ◌≤◌, ◌^◌, ◌∷◌, ◌++◌, [], ℕ, List, length};
ghost use Rattle.std.specs.Str.Lines.{strip_carriage_return};
ghost use Rattle.ng_dry.specs.Dry.{Output, DryRunSpec, onto, refused};
ghost use Rattle.ng_dry.specs.Private.Parts.{LineStepSpec, rest_of};
ghost use Rattle.ng_text.specs.Split.{HasNoNewline};
ghost use Rattle.ng_num.specs.declared.fault.Fault.TheVariants.{LineTooLong};

use crate::ending::{DryFault, Ended};
use crate::run::DryRun;
use arrayvec::ArrayVec;
use ng_num::Fault;
use ng_text::split_line;
use std::alloc::Allocator;
use std::io::Write;

/// The most bytes that are kept of a line without its end: the longest line and a carriage return.
pub(crate) const LONGEST_PARTIAL: usize = 257;

/// Splits bytes into the lines of a run, and keeps the beginning of a line until its end comes.
#[derive(Drop)]
pub(crate) struct LineSplitter<'a, A: Allocator> {
    pub run: DryRun<'a, A>,
    pub partial: ArrayVec<u8, LONGEST_PARTIAL>,
}

/// A line without the carriage return at its end.
fn without_return(line: &[u8]) -> &[u8]
    ensures { result.now ≡ strip_carriage_return line.now }
{
    match line.last() {
        Some(b'\r') => &line[..line.len() - 1],
        _ => line,
    }
}

impl<'a, A: Allocator + Copy + Drop> LineSplitter<'a, A> {
    /// Takes the end of a line: the bytes before its newline.
    fn end_line<W: Write>(&mut self, writer: &mut W, line: &[u8]) -> Result<Option<Ended>, DryFault>
        requires partial { HasNoNewline self.old.partial.items }
        requires line { HasNoNewline line.now }
        requires number { self.old.run.number < 2 ^ 63 }
        ensures step { LineStepSpec (W.contents writer.old) (W.contents writer.new)
            (λ more. rest_of self.old.run self.old.partial.items (line.now ++ 10 ∷ more))
            (λ more. rest_of self.new.run self.new.partial.items more) result }
        ensures partial { HasNoNewline self.new.partial.items }
        ensures number { self.new.run.number ≤ self.old.run.number + 1 }
    {
        if self.partial.is_empty() {
            return self.run.execute(writer, without_return(line));
        }
        match self.partial.try_extend_from_slice(line) {
            Err(_) => self.refuse_long(writer),
            Ok(()) => {
                let ended = self
                    .run
                    .execute(writer, without_return(self.partial.as_slice()));
                self.partial.clear();
                ended
            }
        }
    }

    /// Ends the run: the next line is too long.
    fn refuse_long<W: Write>(&mut self, writer: &mut W) -> Result<Option<Ended>, DryFault>
        ensures step { (f : List ℕ → Output) → ((more : List ℕ)
            → f more ≡ onto self.old.run.text (refused self.old.run.number LineTooLong))
            → LineStepSpec (W.contents writer.old) (W.contents writer.new) f
            (λ more. rest_of self.new.run self.new.partial.items more) result }
        ensures partial { self.new.partial ≡ self.old.partial }
        ensures number { self.new.run.number ≡ self.old.run.number }
    {
        match self.run.refuse(writer, Fault::LineTooLong) {
            Ok(end) => Ok(Some(end)),
            Err(broken) => Err(broken),
        }
    }

    /// Keeps the beginning of a line.
    fn keep<W: Write>(&mut self, writer: &mut W, bytes: &[u8]) -> Result<Option<Ended>, DryFault>
        requires partial { HasNoNewline self.old.partial.items }
        requires bytes { HasNoNewline bytes.now }
        ensures step { LineStepSpec (W.contents writer.old) (W.contents writer.new)
            (λ more. rest_of self.old.run self.old.partial.items (bytes.now ++ more))
            (λ more. rest_of self.new.run self.new.partial.items more) result }
        ensures partial { HasNoNewline self.new.partial.items }
        ensures number { self.new.run.number ≡ self.old.run.number }
    {
        match self.partial.try_extend_from_slice(bytes) {
            Ok(()) => Ok(None),
            Err(_) => self.refuse_long(writer),
        }
    }

    /// Takes the next bytes of the program, and writes what they print.
    pub fn take<W: Write>(
        &mut self,
        writer: &mut W,
        bytes: &[u8],
    ) -> Result<Option<Ended>, DryFault>
        requires partial { HasNoNewline self.old.partial.items }
        requires number { self.old.run.number + length bytes.now < 2 ^ 63 }
        ensures step { LineStepSpec (W.contents writer.old) (W.contents writer.new)
            (λ more. rest_of self.old.run self.old.partial.items (bytes.now ++ more))
            (λ more. rest_of self.new.run self.new.partial.items more) result }
        ensures partial { HasNoNewline self.new.partial.items }
        ensures number { self.new.run.number ≤ self.old.run.number + length bytes.now }
    {
        let mut left = bytes;
        while let Some((line, after)) = split_line(left) {
            match self.end_line(writer, line) {
                Ok(None) => left = after,
                Ok(Some(ended)) => return Ok(Some(ended)),
                Err(broken) => return Err(broken),
            }
        }
        self.keep(writer, left)
    }

    /// Takes the end of the program, and writes what it prints.
    pub fn close<W: Write>(&mut self, writer: &mut W) -> Result<Ended, DryFault>
        requires partial { HasNoNewline self.old.partial.items }
        requires number { self.old.run.number < 2 ^ 63 }
        ensures { DryRunSpec (W.contents writer.old) (W.contents writer.new) (rest_of self.old.run self.old.partial.items []) result }
    {
        if self.partial.is_empty() {
            return self.run.end_of_text(writer);
        }
        match self.run.execute(writer, self.partial.as_slice()) {
            Ok(None) => self.run.end_of_text(writer),
            Ok(Some(ended)) => Ok(ended),
            Err(broken) => Err(broken),
        }
    }
}
