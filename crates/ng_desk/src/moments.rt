//! The moments at which events were answered, for proofs only.
ghost use Rattle.std.specs.Prelude.{◌≡◌, ◌++◌, [], ◌∷◌};

use ng_core::Controller;
use ng_past::Past;
use ng_rig::Rig;
use std::alloc::Allocator;
use std::marker::Model;

/// The moments of a device's trace at which events were answered, in order (own). Contracts see a list of numbers. A
/// program keeps none of them, so it doesn't allocate.
#[derive(Drop)]
pub(crate) struct Moments<R: Rig, A: Allocator + Copy + Drop> {
    /// The controller as each event left it.
    past: Past<Controller<R, A>>,
}

impl<R: Rig, A: Allocator + Copy + Drop> Model for Moments<R, A> {
    ghost use Rattle.std.specs.Prelude.{ℕ, List, map};
    ghost use Rattle.ng_rig.specs.Trace.{moment};

    ghost Value = { List ℕ };

    ghost view = { λ m. map (λ c. moment (R.seen c.journal.rig).trace) m.past.values };
}

impl<R: Rig, A: Allocator + Copy + Drop> Moments<R, A> {
    ghost use Rattle.ng_rig.specs.Trace.{moment};

    /// No event was answered yet.
    pub(crate) fn none() -> Moments<R, A>
        ensures { result ≡ [] }
    {
        Moments { past: Past::new() }
    }

    /// One more event was answered, which left this controller.
    pub(crate) fn push(&mut self, controller: &Controller<R, A>)
        ensures { self.new ≡ self.old ++ moment (R.seen controller.now.journal.rig).trace ∷ [] }
    {
        self.past = self.past.and(controller);
    }
}
