//! The tool table: a tool's length is put into a slot of it.
ghost use Rattle.std.specs.Prelude.{◌≡◌, false};

use crate::controller::Controller;
use ng_journal::laws;
use ng_num::{Fault, Len};
use ng_rig::Rig;
use ng_session::Reply;
use std::alloc::Allocator;

impl<R: Rig, A: Allocator + Copy + Drop> Controller<R, A> {
    ghost use Rattle.std.specs.Prelude.{[]};
    ghost use Rattle.ng_session.specs.declared.event.Event.TheVariants as event;
    ghost use Rattle.ng_core.specs.Events.{CarriesOutEvent};

    /// Puts a tool's length, in nm, into a slot of the table, after that is stored. K1, B14 and E3 if the session
    /// refuses it, J4 if a counter is used up: then nothing is changed. J1 if the device failed: then the journal is
    /// broken, and the session is as before.
    pub(crate) fn tool(&mut self, slot: u16, tool_length: Len) -> Result<Reply, Fault>
        requires whole { self.old.journal.broken ≡ false }
        requires alone { self.old.lines.ahead ≡ [] }
        ensures { CarriesOutEvent {A = A} R.seen (event.Tool slot tool_length) result self.old self.new }
    {
        if let Some(fault) = self.session.tool_refusal(slot, tool_length) {
            return Ok(Reply::Refused(fault));
        }
        if self.session.is_count_used_up() {
            laws::counters();
            return Err(Fault::CountersUsed);
        }
        let update = self.session.tooled(slot, tool_length);
        self.keep(&update)
    }
}
