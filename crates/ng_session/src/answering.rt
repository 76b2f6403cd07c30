//! The events that a session handles by itself, without a device.
ghost use Rattle.std.specs.Prelude.{◌≡◌, ℕ, List};

use crate::event::Event;
use crate::reply::Reply;
use crate::session::Session;
use ng_canon::Geometry;
use std::alloc::Allocator;

impl<A: Allocator + Copy + Drop> Session<A> {
    ghost use Rattle.ng_session.specs.Step.{step, IsQuiet};

    /// Handles an event that neither writes to the device nor hands anything out: all but a Load, a Reference, a
    /// Resume, an Abandon, a Tool and a Tick. It doesn't allocate.
    pub fn answer(&mut self, event: &Event<A>, geometry: &Geometry) -> Reply
        requires { IsQuiet event.now }
        ensures reply { (program : List ℕ) → result ≡ (step geometry.now program self.old event.now).reply }
        ensures next { (program : List ℕ) → self.new ≡ (step geometry.now program self.old event.now).next }
    {
        match event {
            Event::Start => self.start(),
            Event::Hold => self.hold(),
            Event::Continue => self.resume_held(),
            Event::Mdi(text) => self.mdi(text.bytes(), geometry),
            Event::OptionalStop(wanted) => self.set_optional_stop(*wanted),
            Event::BlockDelete(on) => self.set_block_delete(*on),
            Event::Status => Reply::Status(self.status()),
            Event::Load(_)
            | Event::Reference(_)
            | Event::Resume
            | Event::Abandon
            | Event::Tool(_, _)
            | Event::Tick => unreachable!(),
        }
    }
}
