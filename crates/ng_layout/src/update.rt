//! What an entry changes of what is stored.
ghost use Rattle.std.specs.Prelude.{◌≡◌};
ghost use Rattle.std.specs.Option.{ForSome};
ghost use Rattle.ng_layout.specs.Storable.{IsStorableChange};

use crate::decoding::DecodedState;
use crate::stored::Stored;
use crate::tools::change_slot;
use ng_offsets::SlotChange;
use ng_params::Change;
use std::alloc::Allocator;
use std::marker::Model;

/// What an entry changes of what is stored: all that a state field says, the parameters that get other values, and the
/// slot whose length changes (own). Contracts see an `UpdateModel`.
#[derive(Drop)]
pub struct Update<'a> {
    pub decoded: DecodedState,
    /// Changes of parameters, made in order.
    pub changes: &'a [Change],
    pub slot: Option<SlotChange>,
}

impl<'a> Model for Update<'a> {
    ghost use Rattle.ng_layout.specs.Update.{UpdateModel};

    ghost Value = { UpdateModel };

    ghost view = { λ u. record { decoded = u.decoded; changes = u.changes.now; slot = u.slot } };
}

impl<A: Allocator + Copy + Drop> Stored<A> {
    ghost use Rattle.ng_layout.specs.Update.{updated};

    /// Makes an update. The length of the program and the room for it stay. It doesn't allocate.
    pub fn take_update(&mut self, update: &Update<'_>)
        requires { ForSome update.now.slot (IsStorableChange self.old.tools) }
        ensures { self.new ≡ updated self.old update.now }
    {
        change_slot(&mut self.tools, update.slot);
        self.state.params.apply(update.changes);
        self.take_decoded_state(update.decoded.copy(), self.length);
    }
}
