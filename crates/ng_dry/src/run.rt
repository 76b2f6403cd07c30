//! A dry run between two lines.
ghost use Rattle.std.specs.Prelude.{◌≡◌, ◌+◌, ◌<◌, ◌≤◌, ◌^◌, ◌∷◌, [], Ok, Err, IfOk};
ghost use Rattle.ng_block.specs.Program.{is_end};
ghost use Rattle.ng_dry.specs.Dry.{DryRunSpec, onto, refused};
ghost use Rattle.ng_streams.specs.Waiting.{Wrote};
ghost use Rattle.ng_dry.specs.Private.Parts.{due, begun, LineStepSpec};

use crate::ending::{DryFault, Ended};
use crate::output::{CAPACITY, break_off, flush, put_effect, put_refusal};
use ng_block::{ProgramFlow, Scratch, Terms};
use ng_num::Fault;
use ng_state::{ModalState, State};
use ng_text::{first_kind, missing_end};
use ng_words::LineKind;
use std::alloc::{AllocError, Allocator};
use std::io::Write;
use std::marker::Model;

/// A run between two lines: the state, the number of the next line, and the text that isn't written yet.
#[derive(Drop)]
pub(crate) struct DryRun<'a, A: Allocator> {
    terms: Terms<'a>,
    /// The kind of the first line so far that isn't blank.
    first: LineKind,
    state: State<A>,
    number: u64,
    text: Vec<u8, A>,
    /// The working space for executing a line.
    places: Scratch,
}

impl<'a, A: Allocator> Model for DryRun<'a, A> {
    ghost use Rattle.ng_dry.specs.Private.Parts.{DryRunModel};

    ghost Value = { DryRunModel };

    ghost view = { λ r. record { terms = r.terms; first = r.first; setup = r.state; number = r.number; text = r.text.items } };
}

/// Whether the program ends.
fn is_end(stop: ProgramFlow) -> bool
    ensures { result ≡ is_end stop }
{
    match stop {
        ProgramFlow::Ends => true,
        ProgramFlow::GoesOn | ProgramFlow::Stops | ProgramFlow::StopsIfWanted => false,
    }
}

impl<'a, A: Allocator + Copy + Drop> DryRun<'a, A> {
    /// A run from a state, before the first line, with capacity for the text that waits, so that no line allocates.
    /// `AllocError` if there is no memory for it.
    pub fn new(alloc: A, terms: Terms<'a>, state: State<A>) -> Result<DryRun<'a, A>, AllocError>
        ensures { IfOk result (λ r. r ≡ begun terms.entry state) }
    {
        Ok(DryRun {
            terms,
            first: LineKind::Blank,
            state,
            number: 1,
            text: Vec::with_capacity(alloc, CAPACITY)?,
            places: Scratch::new(ModalState::fresh()),
        })
    }

    /// Writes the text that isn't written yet, at the end of the run.
    fn end<W: Write>(&mut self, writer: &mut W, end: Ended) -> Result<Ended, DryFault>
        ensures ended { DryRunSpec (W.contents writer.old) (W.contents writer.new) (record { text = self.old.text; ended = end }) result }
        ensures number { self.new.number ≡ self.old.number }
    {
        match flush(&mut self.text, writer) {
            Ok(()) => Ok(end),
            Err(fault) => Err(fault),
        }
    }

    /// Aborts the run: writes the text that isn't written yet.
    pub fn break_off<W: Write>(&mut self, writer: &mut W, fault: DryFault) -> DryFault
        ensures { Wrote (W.contents writer.old) (W.contents writer.new) self.old.text }
    {
        break_off(&mut self.text, writer, fault)
    }

    /// Ends the run because the next line is refused.
    pub fn refuse<W: Write>(&mut self, writer: &mut W, fault: Fault) -> Result<Ended, DryFault>
        ensures ended { DryRunSpec (W.contents writer.old) (W.contents writer.new)
            (onto self.old.text (refused self.old.number fault)) result }
        ensures number { self.new.number ≡ self.old.number }
    {
        let number = self.number;
        if let Err(broken) = put_refusal(&mut self.text, writer, number, fault) {
            return Err(broken);
        }
        Ok(Ended::Refused(number, fault))
    }

    /// Executes the next line, and writes what it prints. It is inlined into the loop over the lines: a call would cost
    /// 22 instructions per line.
    #[inline(always)]
    pub fn execute<W: Write>(
        &mut self,
        writer: &mut W,
        line: &[u8],
    ) -> Result<Option<Ended>, DryFault>
        requires { self.old.number < 2 ^ 63 }
        ensures step { LineStepSpec (W.contents writer.old) (W.contents writer.new)
            (λ more. due self.old (line.now ∷ more)) (λ more. due self.new more) result }
        ensures number { self.new.number ≤ self.old.number + 1 }
    {
        let effect = match self
            .places
            .execute_after(&self.terms, self.first, &self.state, line)
        {
            Ok(effect) => effect,
            Err(fault) => return match self.refuse(writer, fault) {
                Ok(end) => Ok(Some(end)),
                Err(broken) => Err(broken),
            },
        };
        if let Err(broken) = put_effect(&mut self.text, writer, effect) {
            return Err(broken);
        }
        self.state
            .take_over(&effect.modal, effect.changes.as_slice());
        self.first = first_kind(self.first, line);
        if is_end(effect.stop) {
            return match self.end(writer, Ended::Done) {
                Ok(end) => Ok(Some(end)),
                Err(broken) => Err(broken),
            };
        }
        self.number += 1;
        Ok(None)
    }

    /// Ends the run at the end of a text without a program end.
    pub fn end_of_text<W: Write>(&mut self, writer: &mut W) -> Result<Ended, DryFault>
        ensures { DryRunSpec (W.contents writer.old) (W.contents writer.new) (due self.old []) result }
    {
        let fault = missing_end(self.first);
        self.refuse(writer, fault)
    }
}
