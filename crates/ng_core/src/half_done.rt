//! A half-done block: the point of its machine is given, it goes on, or it is given up.
ghost use Rattle.std.specs.Prelude.{◌≡◌, ◌≤◌, ℕ, List, false, IfOk, IfErr};
ghost use Rattle.ng_num.specs.declared.fault.Fault.TheVariants.{DeviceFailed};
ghost use Rattle.ng_rig.specs.Calls.{IfHonest};
ghost use Rattle.ng_layout.specs.Stored.{DurableState};
ghost use Rattle.ng_journal.specs.Journal.{IsDurablyAt, HoldsProgram, JournalCall};
ghost use Rattle.ng_journal.specs.Storing.{ledger_of};
ghost use Rattle.ng_session.specs.Step.{IsProgramsLine};
ghost use Rattle.ng_core.specs.Private.NextLines.{IsNextLineAt, NextLineSpec};

use crate::controller::Controller;
use ng_journal::{Journal, laws};
use ng_num::{Fault, Point};
use ng_rig::Rig;
use ng_session::{Reply, Session};
use std::alloc::Allocator;

/// The byte of the program at which the next line begins after the half-done block. If the block is a line of the
/// program, the line at the place is read, and the next one begins after it; otherwise it begins at the place. J1 if
/// the device failed: then the journal is broken.
fn next_line<R: Rig, A: Allocator + Copy + Drop>(
    journal: &mut Journal<R, A>,
    session: &Session<A>,
) -> Result<u64, Fault>
    requires whole { journal.old.broken ≡ false }
    requires stored { session.now.stored ≡ journal.old.saved }
    ensures next { IfHonest (R.seen journal.old.rig) (R.seen journal.new.rig) ((standing : DurableState)
        → IsDurablyAt (R.seen journal.old.rig).trace journal.old standing
        → NextLineSpec result journal.new standing session.now (R.seen journal.old.rig).trace (R.seen journal.new.rig).trace) }
    ensures reads { (R.seen journal.old.rig).honest → (program : List ℕ)
        → HoldsProgram (R.seen journal.old.rig).trace journal.old program
        → IfOk result (λ next. IsNextLineAt program session.now next) }
    ensures unwritten { IfHonest (R.seen journal.old.rig) (R.seen journal.new.rig)
        ((R.seen journal.new.rig).trace ≡ (R.seen journal.old.rig).trace) }
    ensures within { IfOk result (λ next. next ≤ session.now.stored.length) }
    // Also for a device that isn't honest.
    ensures beyond { IfOk result (λ next. session.now.stored.place ≤ next) }
    ensures unread { (IsProgramsLine session.now.stored.half → ⊥) → (journal.new ≡ journal.old)
        × IfOk result (λ next. (program : List ℕ) → IsNextLineAt program session.now next) }
    ensures ledger { ledger_of journal.new ≡ ledger_of journal.old }
    ensures errors { IfErr result (λ e. (e ≡ DeviceFailed) × IsProgramsLine session.now.stored.half) }
    ensures call { JournalCall R.seen result journal.old journal.new }
{
    let place = session.place();
    if !session.is_programs_line() {
        return Ok(place);
    }
    match journal.program_line(place)? {
        Some(line) => Ok(line.next),
        None => Ok(place),
    }
}

impl<R: Rig, A: Allocator + Copy + Drop> Controller<R, A> {
    ghost use Rattle.std.specs.Prelude.{[]};
    ghost use Rattle.ng_session.specs.declared.event.Event.TheVariants as event;
    ghost use Rattle.ng_core.specs.Events.{CarriesOutEvent};

    /// Sets the machine's point, in nm of machine coordinates, after it is stored. K1 and X2 if the session refuses it,
    /// J4 if a counter is used up: then nothing is changed. J1 if the device failed: then the journal is broken, and
    /// the session is as before.
    pub(crate) fn reference(&mut self, point: &Point) -> Result<Reply, Fault>
        requires whole { self.old.journal.broken ≡ false }
        requires alone { self.old.lines.ahead ≡ [] }
        ensures { CarriesOutEvent {A = A} R.seen (event.Reference point.now) result self.old self.new }
    {
        if let Some(fault) = self.session.reference_refusal(*point, &self.geometry) {
            return Ok(Reply::Refused(fault));
        }
        if self.session.is_count_used_up() {
            laws::counters();
            return Err(Fault::CountersUsed);
        }
        let update = self.session.referenced(*point);
        self.keep(&update)
    }

    /// Gives the half-done block up, after that is stored. K1 and K4 if the session refuses it, J4 if a counter is used
    /// up: then nothing is changed. J1 if the device failed: then the journal is broken, and the session is as before.
    pub(crate) fn abandon(&mut self) -> Result<Reply, Fault>
        requires whole { self.old.journal.broken ≡ false }
        requires alone { self.old.lines.ahead ≡ [] }
        ensures { CarriesOutEvent {A = A} R.seen event.Abandon result self.old self.new }
    {
        if let Some(fault) = self.session.abandon_refusal() {
            return Ok(Reply::Refused(fault));
        }
        if self.session.is_count_used_up() {
            laws::counters();
            return Err(Fault::CountersUsed);
        }
        match self.session.abandoned() {
            Some(update) => self.keep(&update),
            None => Ok(Reply::Refused(Fault::NothingHalfDone)),
        }
    }

    /// Makes the half-done block go on. K1, K4, K3 and its line's own faults if the session refuses it, with no call of
    /// the device. If the block is a line of the program, the line is read now, to find where the next one begins: J1
    /// if the device failed, and then the journal is broken. In all these cases the session is as before.
    pub(crate) fn resume(&mut self) -> Result<Reply, Fault>
        requires whole { self.old.journal.broken ≡ false }
        requires alone { self.old.lines.ahead ≡ [] }
        ensures { CarriesOutEvent {A = A} R.seen event.Resume result self.old self.new }
    {
        if let Some(fault) = self.session.resume_refusal(&self.geometry) {
            return Ok(Reply::Refused(fault));
        }
        let next = next_line(&mut self.journal, &self.session)?;
        Ok(self.session.resume(next, &self.geometry))
    }
}
