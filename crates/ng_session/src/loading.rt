//! How a program is loaded.
ghost use Rattle.std.specs.Prelude.{◌≡◌, ◌≤◌, ℕ, Ok, IfOk, length};
ghost use Rattle.ng_layout.specs.Limits.{greatest_count};
ghost use Rattle.ng_layout.specs.Storable.{IsStorable};
ghost use Rattle.ng_session.specs.Entries.{after_load};

use crate::activity::Activity;
use crate::reply::Reply;
use crate::session::Session;
use ng_layout::Stored;
use ng_num::Fault;
use std::alloc::{AllocError, Allocator};

/// What is to be stored with a program of this length. `AllocError` if there is no memory for its table.
fn after_load<A: Allocator + Copy + Drop>(
    stored: &Stored<A>,
    length: u64,
) -> Result<Stored<A>, AllocError>
    requires { stored.now.entries ≤ greatest_count }
    ensures { IfOk result (λ x. x ≡ after_load stored.now length) }
{
    let mut state = stored.state.copy()?;
    state.params.clear_passing();
    Ok(Stored {
        entries: stored.entries + 1,
        state,
        place: 0,
        length,
        program_limit: stored.program_limit,
        half: None,
        tools: stored.tools.copy(),
    })
}

impl<A: Allocator + Copy + Drop> Session<A> {
    ghost use Rattle.std.specs.Prelude.{None, true, IfNone};
    ghost use Rattle.ng_session.specs.SessionInvariant.{IsSessionInvariant};
    ghost use Rattle.ng_session.specs.Session.{accepts_load};
    ghost use Rattle.ng_session.specs.Operator.{load, load_refusal, loaded};

    /// Why a program of these bytes can't be loaded now: K1 if the session isn't at rest or a block is half-done, J5 if
    /// the device takes fewer.
    pub fn load_refusal(&self, text: &[u8]) -> Option<Fault>
        ensures value { result ≡ load_refusal self.now text.now }
        ensures none { IfNone result ((accepts_load self.now ≡ true) × (length text.now ≤ self.now.stored.program_limit)) }
    {
        if !self.accepts_load() {
            return Some(Fault::Busy);
        }
        if text.len() as u64 > self.stored.program_limit {
            return Some(Fault::ProgramTooLong);
        }
        None
    }

    /// What is to be stored with a program of these bytes. It can be stored unless there are too many bytes. The
    /// session stays as it is. `AllocError` if there is no memory for its table.
    #[tactic(auto, using(crate::proofs::StorableStateLemmas::load_storable))]
    pub fn loading(&self, text: &[u8]) -> Result<Stored<A>, AllocError>
        ensures value { IfOk result (λ x. x ≡ after_load self.now.stored (length text.now)) }
        ensures storable { IfOk result (λ x. length text.now ≤ self.now.stored.program_limit → IsStorable x) }
    {
        after_load(&self.stored, text.len() as u64)
    }

    /// Goes on with a program, once that is stored.
    #[tactic(auto, using(crate::proofs::SessionInvariantLemmas::holds_free))]
    pub fn load(&mut self, stored: Stored<A>) -> Reply
        requires free { accepts_load self.old ≡ true }
        requires valid { IsSessionInvariant stored None }
        ensures reply { result ≡ Reply.Done stored.entries }
        ensures next { self.new ≡ loaded self.old stored }
    {
        self.stored = stored;
        self.activity = Activity::Idle;
        Reply::Done(self.stored.entries)
    }
}
