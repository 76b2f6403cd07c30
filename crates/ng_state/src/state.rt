//! The state that a line is executed in.
ghost use Rattle.std.specs.Prelude.{◌≡◌, IfOk};

use crate::modal_state::ModalState;
use ng_params::{Change, Params};
use std::alloc::{AllocError, Allocator};
use std::marker::Model;

/// Everything that a block can read or change: the parameter table and the modal state. In contracts it
/// is a `StateModel`.
#[derive(Drop)]
pub struct State<A: Allocator> {
    pub params: Params<A>,
    pub modal: ModalState,
}

impl<A: Allocator> Model for State<A> {
    ghost use Rattle.ng_state.specs.State.{StateModel};

    ghost Value = { StateModel };

    ghost view = { λ s. record { params = s.params; modal = s.modal } };
}

impl<A: Allocator + Copy + Drop> State<A> {
    ghost use Rattle.ng_state.specs.State.{fresh, changed};

    /// The fresh state (own): the default parameter table and the fresh modal state. `AllocError` if there is no
    /// memory for the table.
    pub fn fresh(alloc: A) -> Result<State<A>, AllocError>
        ensures { IfOk result (λ s. s ≡ fresh) }
    {
        Ok(State {
            params: Params::new(alloc)?,
            modal: ModalState::fresh(),
        })
    }

    /// A copy of this state, with a table of its own. `AllocError` if there is no memory for the table.
    pub fn copy(&self) -> Result<State<A>, AllocError>
        ensures { IfOk result (λ s. s ≡ self.now) }
    {
        Ok(State {
            params: self.params.copy()?,
            modal: self.modal,
        })
    }

    /// Replaces the modal state and makes changes of parameters in order, in place. It doesn't allocate.
    #[inline]
    pub fn take_over(&mut self, modal: &ModalState, changes: &[Change])
        ensures { self.new ≡ changed self.old modal.now changes.now }
    {
        self.params.apply(changes);
        self.modal = *modal;
    }
}
