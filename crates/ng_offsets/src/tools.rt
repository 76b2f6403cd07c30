//! The tool table.
ghost use Rattle.std.specs.Prelude.{◌≡◌, ◌≤◌, ◌<◌, [], ◌∷◌, ◌++◌, length};
ghost use Rattle.ng_offsets.specs.Tools.{length_of_slot, with_slot, first_change, AreTools, IsSlotChange, IsToolLength};

use arrayvec::ArrayVec;
use ng_num::Len;
use std::marker::Model;

/// The most slots that a tool table can have.
pub const SLOTS: usize = 128;

/// A tool length for a slot. The slot is in the table, or is the one after its last.
#[derive(Clone, Copy, Debug, PartialEq, Eq)]
pub struct SlotChange {
    /// The slot's number, from 1.
    pub slot: u8,
    pub length: Len,
}

/// The tool table: the tool lengths of slots 1, 2 and so on (NISTIR 6556, 3.2.3, in this project's profile). In
/// contracts it is the list of their nanometres.
#[derive(Drop)]
pub struct Tools {
    lengths: ArrayVec<Len, SLOTS>,
}

impl Model for Tools {
    ghost use Rattle.std.specs.Prelude.{List, ℤ};
    ghost use Rattle.ng_offsets.specs.Tools.{AreTools};

    ghost Value = { List ℤ };

    ghost view = { λ t. t.lengths.items };

    ghost invariant = { λ t. AreTools t.lengths.items };
}

impl Tools {
    /// A table with no slots.
    pub fn new() -> Tools
        ensures { result ≡ [] }
    {
        Tools {
            lengths: ArrayVec::new(),
        }
    }

    /// The number of slots, 0 to 128.
    pub fn slots(&self) -> usize
        ensures value { result ≡ length self.now }
        ensures range { result ≤ SLOTS }
        ensures tools { AreTools self.now }
    {
        self.lengths.len()
    }

    /// The tool length of a slot; that of slot 0 is 0. The caller ensures that the table has the slot.
    pub fn length(&self, slot: u8) -> Len
        requires { slot ≤ length self.now }
        ensures { result ≡ length_of_slot self.now slot }
    {
        if slot == 0 {
            Len::zero()
        } else {
            self.lengths[slot as usize - 1]
        }
    }

    /// Adds the next slot. The caller ensures that there are fewer than 128, and that the length is within the limits
    /// of a tool length.
    pub fn push(&mut self, tool_length: Len)
        requires fits { length self.old < SLOTS }
        requires tool { IsToolLength tool_length }
        ensures { self.new ≡ self.old ++ tool_length ∷ [] }
    {
        self.lengths.push(tool_length);
    }

    /// Gives a slot a length. If the slot is the one after the last, it is added.
    pub fn set(&mut self, change: SlotChange)
        requires slot { IsSlotChange self.old change }
        requires fits { change.slot ≤ SLOTS }
        requires tool { IsToolLength change.length }
        ensures { self.new ≡ with_slot change self.old }
    {
        let slot = change.slot as usize;
        if slot == self.lengths.len() + 1 {
            self.lengths.push(change.length);
        } else {
            self.lengths[slot - 1] = change.length;
        }
    }

    /// A table equal to this one.
    pub fn copy(&self) -> Tools
        ensures { result ≡ self.now }
    {
        let mut copy = Tools::new();
        for n in 0..self.lengths.len() {
            copy.push(self.lengths[n]);
        }
        copy
    }

    /// The first slot that another table has and this one doesn't, or that has another length there. `None` if there
    /// isn't one.
    pub fn change_to(&self, other: &Tools) -> Option<SlotChange>
        ensures { result ≡ first_change self.now other.now }
    {
        for n in 0..other.lengths.len() {
            let length = other.lengths[n];
            if n >= self.lengths.len() || self.lengths[n] != length {
                return Some(SlotChange {
                    slot: n as u8 + 1,
                    length,
                });
            }
        }
        None
    }
}
