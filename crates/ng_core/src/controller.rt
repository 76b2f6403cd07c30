//! A controller, and how it handles events.
ghost use Rattle.std.specs.Prelude.{◌≡◌, ◌<◌, true, false, Ok, [], ◌∷◌};
ghost use Rattle.ng_rig.specs.Calls.{IfHonest};
ghost use Rattle.ng_layout.specs.Limits.{greatest_count};
ghost use Rattle.ng_layout.specs.Update.{updated};

use ng_canon::Geometry;
use ng_journal::Journal;
use ng_layout::Update;
use ng_num::Fault;
use ng_rig::Rig;
use ng_session::{Condition, Event, KnownLines, Reply, Session, Status};
use std::alloc::Allocator;
use std::marker::Model;

/// A machine's controller, over its device (own). Contracts see a `ControllerModel`. After a failed call of the device
/// it is broken, until it is powered on again.
pub struct Controller<R: Rig, A: Allocator + Copy + Drop> {
    pub(crate) alloc: A,
    pub(crate) journal: Journal<R, A>,
    pub(crate) session: Session<A>,
    /// What is known of the lines of the program in force.
    pub(crate) lines: KnownLines<A>,
    pub(crate) geometry: Geometry,
}

impl<R: Rig, A: Allocator + Copy + Drop> Model for Controller<R, A> {
    ghost use Rattle.ng_core.specs.Model.{ControllerModel, IsControllerInvariant};

    ghost Value = { ControllerModel R };

    ghost view = { λ c. record {
      journal = c.journal;
      session = c.session;
      lines = c.lines;
      geometry = c.geometry;
    } };

    ghost invariant = { λ c. IsControllerInvariant c.journal c.session c.lines c.geometry };
}

impl<R: Rig, A: Allocator + Copy + Drop> Controller<R, A> {
    ghost use Rattle.std.specs.Prelude.{None};
    ghost use Rattle.ng_session.specs.Entries.{Entry};
    ghost use Rattle.ng_session.specs.Session.{commits};
    ghost use Rattle.ng_session.specs.Step.{IsQuiet};
    ghost use Rattle.ng_session.specs.SessionInvariant.{IsNextEntry};
    ghost use Rattle.ng_session.specs.Planned.{drops_plan};
    ghost use Rattle.ng_core.specs.Private.Commits.{IsCommitted};
    ghost use Rattle.ng_core.specs.Needs.{needs_device};
    ghost use Rattle.ng_core.specs.Events.{CarriesOut, CarriesOutEvent, Handles, TellsFailure, reply_to, broken_answer};
    ghost use Rattle.ng_rig.specs.Trace.{moment};
    ghost use Rattle.ng_core.specs.Headline.{AddsToPast};

    /// The device as it is, without a call to it.
    pub fn into_rig(self) -> R
        ensures { result ≡ self.journal.rig }
    {
        let Controller {
            alloc: _,
            journal,
            session: _,
            lines: _,
            geometry: _,
        } = self;
        journal.into_rig()
    }

    /// Whether a call of the device failed. Then each event but Status is refused with K5.
    pub fn broken(&self) -> bool
        ensures { result ≡ self.now.journal.broken }
    {
        self.journal.broken()
    }

    /// Handles an event (own).
    ///
    /// The session refuses and stays as it is for K1, K2, K3, K4 and J5; for a point outside the travel (X2); for a
    /// tool's slot (B14) and its length (E3); and for the own faults of a line of the operator or of a half-done block.
    /// If a line of the program is refused, or its text ends before the program does (X3, X4), the program stops there.
    ///
    /// M1 if there is no memory; only a Load needs any. J4 if the journal has used up a counter that a Load, an opened
    /// segment or approach, or an entry needs. In both cases nothing is changed. J1 if the device failed: then the
    /// controller is broken, and the device stands for the state before the event or for the state after it. K5 for all
    /// events but Status if the controller was broken already.
    ///
    /// The device keeps its size. Over an honest device, all that happened since power on, with this event, is
    /// accounted for by the plain interpreter, whenever power is cut.
    pub fn on(&mut self, event: Event<A>) -> Reply
        ensures serves { self.old.journal.broken ≡ false
            → Handles R.seen event result self.old self.new }
        ensures failures { self.old.journal.broken ≡ false
            → TellsFailure result (R.seen self.old.journal.rig).failed (R.seen self.new.journal.rig).failed }
        ensures broken { self.old.journal.broken ≡ true
            → (self.new ≡ self.old) × (result ≡ reply_to (broken_answer self.old.session event)) }
        ensures geometry { self.new.geometry ≡ self.old.geometry }
        ensures size { (R.seen self.new.journal.rig).sectors ≡ (R.seen self.old.journal.rig).sectors }
        ensures past { IfHonest (R.seen self.old.journal.rig) (R.seen self.new.journal.rig)
            (AddsToPast R.seen (event ∷ []) (result ∷ [])
            (moment (R.seen self.new.journal.rig).trace ∷ []) self.old self.new) }
    {
        self.reply(&event)
    }

    /// Handles an event as `on` does, but without taking it. Its refusals and effects are those of `on`.
    pub(crate) fn reply(&mut self, event: &Event<A>) -> Reply
        ensures serves { self.old.journal.broken ≡ false
            → Handles R.seen event.now result self.old self.new }
        ensures failures { self.old.journal.broken ≡ false
            → TellsFailure result (R.seen self.old.journal.rig).failed (R.seen self.new.journal.rig).failed }
        ensures broken { self.old.journal.broken ≡ true
            → (self.new ≡ self.old) × (result ≡ reply_to (broken_answer self.old.session event.now)) }
        ensures geometry { self.new.geometry ≡ self.old.geometry }
        ensures size { (R.seen self.new.journal.rig).sectors ≡ (R.seen self.old.journal.rig).sectors }
    {
        match self.handle(event) {
            Ok(reply) => reply,
            Err(fault) => Reply::Refused(fault),
        }
    }

    /// The reply of the session, or why there is none: M1, J4, J1 or K5.
    fn handle(&mut self, event: &Event<A>) -> Result<Reply, Fault>
        ensures carried { self.old.journal.broken ≡ false
            → CarriesOutEvent R.seen event.now result self.old self.new }
        ensures broken { self.old.journal.broken ≡ true
            → (self.new ≡ self.old) × (result ≡ broken_answer self.old.session event.now) }
        ensures geometry { self.new.geometry ≡ self.old.geometry }
        ensures size { (R.seen self.new.journal.rig).sectors ≡ (R.seen self.old.journal.rig).sectors }
    {
        if self.broken() {
            return self.answer_broken(event);
        }
        self.lines.forget_for(event);
        self.carry_out(event)
    }

    /// The reply while no call of the device has failed yet, or why there is none: M1, J4 or J1. The lines that were
    /// read ahead are dropped already if they no longer come after the event.
    fn carry_out(&mut self, event: &Event<A>) -> Result<Reply, Fault>
        requires whole { self.old.journal.broken ≡ false }
        requires alone { drops_plan event.now ≡ true → self.old.lines.ahead ≡ [] }
        ensures { CarriesOutEvent R.seen event.now result self.old self.new }
    {
        match event {
            Event::Load(text) => self.load(text.bytes()),
            Event::Reference(point) => self.reference(point),
            Event::Resume => self.resume(),
            Event::Abandon => self.abandon(),
            Event::Tool(slot, tool_length) => self.tool(*slot, *tool_length),
            Event::Tick => self.tick(),
            Event::Start
            | Event::Hold
            | Event::Continue
            | Event::Mdi(_)
            | Event::OptionalStop(_)
            | Event::BlockDelete(_)
            | Event::Status => Ok(self.answer(event)),
        }
    }

    /// The reply after the device failed.
    fn answer_broken(&self, event: &Event<A>) -> Result<Reply, Fault>
        ensures { result ≡ broken_answer self.now.session event.now }
    {
        match event {
            Event::Status => Ok(Reply::Status(Status {
                condition: Condition::Broken,
                ..self.session.status()
            })),
            Event::Load(_)
            | Event::Start
            | Event::Hold
            | Event::Continue
            | Event::Mdi(_)
            | Event::Reference(_)
            | Event::Resume
            | Event::Abandon
            | Event::Tool(_, _)
            | Event::OptionalStop(_)
            | Event::BlockDelete(_)
            | Event::Tick => Err(Fault::Broken),
        }
    }

    /// Loads a program, after it is stored.
    fn load(&mut self, text: &[u8]) -> Result<Reply, Fault>
        requires whole { self.old.journal.broken ≡ false }
        requires alone { self.old.lines.ahead ≡ [] }
        ensures { CarriesOutEvent {A = A} R.seen (Event.Load text.now) result self.old self.new }
    {
        if let Some(fault) = self.session.load_refusal(text) {
            return Ok(Reply::Refused(fault));
        }
        let stored = self.session.loading(text)?;
        self.journal.load_program(text, &stored)?;
        self.lines.forget();
        Ok(self.session.load(stored))
    }

    /// The reply to an event that the session handles by itself.
    fn answer(&mut self, event: &Event<A>) -> Reply
        requires whole { self.old.journal.broken ≡ false }
        requires quiet { IsQuiet event.now }
        requires alone { drops_plan event.now ≡ true → self.old.lines.ahead ≡ [] }
        ensures { CarriesOutEvent R.seen event.now (Ok result) self.old self.new }
    {
        self.session.answer(event, &self.geometry)
    }

    /// Commits one more entry: its update replaces what is stored. J4 if a counter is used up, J1 if the device failed:
    /// then the session is as before.
    pub(crate) fn keep(&mut self, update: &Update<'_>) -> Result<Reply, Fault>
        requires whole { self.old.journal.broken ≡ false }
        requires alone { self.old.lines.ahead ≡ [] }
        requires free { self.old.session.current ≡ None }
        requires count { self.old.session.stored.entries < greatest_count }
        requires next { IsNextEntry self.old.session.stored update.now }
        ensures { (entry : Entry) → IsCommitted entry → CarriesOut R.seen needs_device
            (λ program. commits program entry (record self.old.session {
              stored = updated self.old.session.stored update.now;
            }))
            result self.old self.new }
    {
        self.journal.commit_update(update)?;
        Ok(self.session.take(update))
    }
}
