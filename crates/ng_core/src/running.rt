//! A list of events, one after another.
ghost use Rattle.std.specs.Prelude.{◌≡◌, ℕ, List, length, IfOk, IfErr};
ghost use Rattle.ng_num.specs.declared.fault.Fault.TheVariants.{OutOfMemory};

use crate::controller::Controller;
use ng_num::Fault;
use ng_rig::Rig;
use ng_session::{Event, Reply};
use std::alloc::Allocator;

impl<R: Rig, A: Allocator + Copy + Drop> Controller<R, A> {
    ghost use Rattle.ng_core.specs.Runs.{CountsOneFailure};
    ghost use Rattle.ng_core.specs.Headline.{AreRun};

    /// Handles events in turn, each as `on` does, and returns the replies in order (own).
    ///
    /// M1 if there is no memory for all replies: then no event was handled, and nothing is changed. A fault of an event
    /// is its reply, and the next event is handled all the same. Over an honest device each stop leaves the state after
    /// the events that came until then, or after the one under way too. All that happened since power on, in this call
    /// and before it, is accounted for by the plain interpreter, whenever power is cut.
    pub fn run(&mut self, events: &[Event<A>]) -> Result<Vec<Reply, A>, Fault>
        ensures runs { IfOk result (λ replies. (moments : List ℕ)
            × AreRun R.seen events.now replies.items moments self.old self.new) }
        ensures each { IfOk result (λ replies. length replies.items ≡ length events.now) }
        ensures failures { IfOk result (λ replies. CountsOneFailure self.old.journal.broken self.new.journal.broken
            (R.seen self.old.journal.rig).failed (R.seen self.new.journal.rig).failed) }
        ensures geometry { self.new.geometry ≡ self.old.geometry }
        ensures size { (R.seen self.new.journal.rig).sectors ≡ (R.seen self.old.journal.rig).sectors }
        ensures memory { IfErr result (λ fault. (fault ≡ OutOfMemory) × (self.new ≡ self.old)) }
    {
        let mut replies = Vec::with_capacity(self.alloc, events.len())?;
        for event in events {
            let reply = self.reply(event);
            replies.push_reserved(reply);
        }
        Ok(replies)
    }
}
