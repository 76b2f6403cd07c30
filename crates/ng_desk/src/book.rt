//! A controller with the history of what it was given.
ghost use Rattle.std.specs.Prelude.{◌≡◌, ◌<◌, ◌+◌, ◌++◌, [], ◌∷◌, Some, length, IfOk, IfErr, OnOk};
ghost use Rattle.ng_num.specs.declared.fault.Fault.TheVariants.{OutOfMemory};
ghost use Rattle.ng_rig.specs.Trace.{moment};
ghost use Rattle.ng_desk.specs.Calls.{NumberedFrom};
ghost use Rattle.ng_core.specs.AnsweredEvents.{IsAnsweredEvent};
ghost use Rattle.ng_desk.specs.Running.{RunsFrom};

use crate::call::{Call, copied};
use crate::moments::Moments;
use crate::origin::Origin;
use ng_core::{Controller, Event};
use ng_num::Fault;
use ng_rig::Rig;
use std::alloc::Allocator;
use std::marker::Model;
use std::sync::ledger;
use std::sync::ledger::Share;

/// A controller with the history of everything that it was given (own). Contracts see a `Booked`. The replies and the
/// controller are always what `run` guarantees for the history's events, starting from the controller that the book was
/// made of, with each event answered at the moment that the book keeps for it.
pub struct Book<R: Rig, A: Allocator + Copy + Drop, O: Origin<R>> {
    alloc: A,
    controller: Controller<R, A>,
    history: Vec<Call<A>, A>,
    /// When each of the history's events was answered.
    moments: Moments<R, A>,
    /// Counts the calls of all shares.
    calls: ledger::Book<O>,
    /// A share of no part and no call.
    spare: Share<O>,
}

impl<R: Rig, A: Allocator + Copy + Drop, O: Origin<R>> Model for Book<R, A, O> {
    ghost use Rattle.std.specs.Prelude.{◌≡◌, length};
    ghost use Rattle.ng_desk.specs.Calls.{NumberedFrom};
    ghost use Rattle.ng_desk.specs.Running.{Booked, RunsFrom};

    ghost Value = { Booked R A };

    ghost view = { λ b. record { controller = b.controller; history = b.history.items; moments = b.moments } };

    ghost invariant = { λ b. (length b.history.items ≡ b.calls.total) × (b.spare.parts ≡ 0)
        × NumberedFrom 0 b.history.items × RunsFrom R.seen O.start b.history.items b.moments b.controller };
}

impl<R: Rig, A: Allocator + Copy + Drop, O: Origin<R>> Book<R, A, O> {
    /// An empty history with the controller where it starts, and a ledger of no call. It doesn't allocate.
    ///
    /// This is a function of its own, and isn't inlined: `Desk::new` returns the controller at one of two places in its
    /// result, and if LLVM sees both, it splits each into the pieces of the other, thousands of times over.
    #[inline(never)]
    pub fn new(
        alloc: A,
        controller: Controller<R, A>,
        calls: ledger::Book<O>,
        share: &mut Share<O>,
    ) -> Book<R, A, O>
        requires start { O.start ≡ Some controller }
        requires none { calls.total ≡ 0 }
        ensures book { result ≡ record { controller = controller; history = []; moments = [] } }
        ensures share { share.new ≡ share.old }
    {
        Book {
            alloc,
            controller,
            history: Vec::new(alloc),
            moments: Moments::none(),
            calls,
            spare: share.empty(),
        }
    }

    /// Gives an event to the controller, and appends a call to the history: the event, its reply, and as its number how
    /// many calls there were before (own). It returns a copy of that call, and the share counts it. In proofs it also
    /// keeps the moment at which the device is then.
    ///
    /// M1 if there is no memory for the history or for a copy of the event's text; then the event isn't given, and
    /// nothing is changed. Every other refusal is the reply of the call.
    pub fn give(&mut self, event: &Event<A>, mine: &mut Share<O>) -> Result<Call<A>, Fault>
        requires { 0 < mine.old.parts }
        ensures call { IfOk result (λ call. (call.number ≡ length self.old.history) × (call.event ≡ event.now)) }
        ensures history { IfOk result (λ call. self.new.history ≡ self.old.history ++ call ∷ []) }
        ensures moments { OnOk result (self.new.moments ≡ self.old.moments ++ moment (R.seen self.new.controller.journal.rig).trace ∷ []) }
        ensures exchange { IfOk result (λ call. IsAnsweredEvent R.seen event.now call.reply self.old.controller self.new.controller) }
        ensures size { (R.seen self.new.controller.journal.rig).sectors ≡ (R.seen self.old.controller.journal.rig).sectors }
        ensures counted { OnOk result (mine.new.amount ≡ mine.old.amount + 1) }
        ensures parts { mine.new.parts ≡ mine.old.parts }
        ensures memory { IfErr result (λ fault. (fault ≡ OutOfMemory) × (self.new ≡ self.old) × (mine.new.amount ≡ mine.old.amount)) }
    {
        self.history.reserve(1)?;
        let copy = copied(self.alloc, event)?;
        let told = copied(self.alloc, event)?;
        let given = copied(self.alloc, event)?;
        let number = self.history.len() as u64;
        let reply = self.controller.on(given);
        self.moments.push(&self.controller);
        self.calls.add(mine, 1);
        self.history.push_reserved(Call::of(number, copy, &reply));
        Ok(Call::of(number, told, &reply))
    }

    /// A share of no part and no call.
    pub(crate) fn no_share(&mut self) -> Share<O>
        ensures none { (result.parts ≡ 0) × (result.amount ≡ 0) }
        ensures same { self.new ≡ self.old }
    {
        self.spare.empty()
    }

    /// The controller and the history. The history is as long as all shares together have counted.
    pub(crate) fn close(self, all: Share<O>) -> (Controller<R, A>, Vec<Call<A>, A>)
        requires { all.parts ≡ O.parts }
        ensures runs { RunsFrom R.seen O.start result.1.items self.moments result.0 }
        ensures numbered { NumberedFrom 0 result.1.items }
        ensures counted { length result.1.items ≡ all.amount }
    {
        let mut all = all;
        let Book {
            alloc: _,
            controller,
            history,
            moments: _,
            mut calls,
            spare: _,
        } = self;
        calls.audit(&mut all);
        (controller, history)
    }
}
