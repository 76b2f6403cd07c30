//! How a tool's length is put into a slot of the table (own).
ghost use Rattle.std.specs.Prelude.{◌≡◌, ◌<◌};
ghost use Rattle.ng_layout.specs.Limits.{greatest_count};
ghost use Rattle.ng_offsets.specs.Tools.{is_tool_length};
ghost use Rattle.ng_layout.specs.Update.{updated};
ghost use Rattle.ng_session.specs.Entries.{after_tool};
ghost use Rattle.ng_session.specs.SessionInvariant.{IsNextEntry};

use crate::session::Session;
use ng_block::SLOTS;
use ng_layout::{DecodedState, Update};
use ng_num::{Fault, Len};
use ng_offsets::SlotChange;
use std::alloc::Allocator;

/// The greatest length of a tool, in nm.
const LONGEST_TOOL: i64 = 1_000_000_000;

/// Whether a length is in the range of tools' lengths.
fn is_tool_length(tool_length: Len) -> bool
    ensures { result ≡ is_tool_length tool_length }
{
    let nm = tool_length.nm();
    0 <= nm && nm <= LONGEST_TOOL
}

impl<A: Allocator + Copy + Drop> Session<A> {
    ghost use Rattle.std.specs.Prelude.{None, IfNone, true};
    ghost use Rattle.ng_layout.specs.Tools.{takes_slot};
    ghost use Rattle.ng_session.specs.Session.{accepts_load};
    ghost use Rattle.ng_session.specs.Operator.{tool_refusal};

    /// Why a tool's length for a slot is refused now: K1 if the session isn't at rest or a block is half-done; B14 if
    /// the slot is neither in the table nor the one after its last, or is past the greatest; E3 if the length isn't
    /// from 0 to 1 m.
    pub fn tool_refusal(&self, slot: u16, tool_length: Len) -> Option<Fault>
        ensures value { result ≡ tool_refusal self.now slot tool_length }
        ensures none { IfNone result ((accepts_load self.now ≡ true)
            × (takes_slot self.now.stored.tools slot ≡ true) × (is_tool_length tool_length ≡ true)) }
    {
        if !self.accepts_load() {
            return Some(Fault::Busy);
        }
        if !self.takes_slot(slot as usize) {
            return Some(Fault::BadSlot);
        }
        if !is_tool_length(tool_length) {
            return Some(Fault::OutOfRange);
        }
        None
    }

    /// Whether a slot is in the table or is the one after its last.
    fn takes_slot(&self, slot: usize) -> bool
        ensures { result ≡ takes_slot self.now.stored.tools slot }
    {
        1 <= slot && slot <= self.stored.tools.slots() + 1 && slot <= SLOTS
    }

    /// What a length in a slot of the table changes of what is stored. The length in force stays. The session stays as
    /// it is.
    #[tactic(auto, using(crate::proofs::ToolSlotLemmas::slot_most))]
    pub fn tooled(&self, slot: u16, tool_length: Len) -> Update<'static>
        requires count { self.now.stored.entries < greatest_count }
        requires slot { takes_slot self.now.stored.tools slot ≡ true }
        requires tool { is_tool_length tool_length ≡ true }
        ensures value { updated self.now.stored result ≡ after_tool self.now.stored slot tool_length }
        ensures next { IsNextEntry self.now.stored result }
    {
        Update {
            decoded: DecodedState {
                entries: self.stored.entries + 1,
                place: self.stored.place,
                modal: self.stored.state.modal,
                half: self.waiting(),
            },
            changes: &[],
            slot: Some(SlotChange {
                slot: slot as u8,
                length: tool_length,
            }),
        }
    }
}
