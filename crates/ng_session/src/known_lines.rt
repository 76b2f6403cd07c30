//! What is known of the program in force: of the lines before a place, and the lines that were read ahead.
ghost use Rattle.std.specs.Prelude.{◌≡◌, ◌≢◌, ◌⊎◌, ◌≤◌, ◌++◌, ◌∷◌, [], List, ℕ, IfOk, MatchOption};
ghost use Rattle.std.specs.Option.{option_map};
ghost use Rattle.ng_layout.specs.Limits.{greatest_count};

use crate::current_block::CurrentBlock;
use crate::event::Event;
use crate::planned::Planned;
use circular_buffer::HeapCircularBuffer;
use ng_layout::Stored;
use ng_text::LinesBefore;
use std::alloc::{AllocError, Allocator};
use std::marker::Model;

/// The most lines that are read ahead (own).
const MOST_AHEAD: usize = 16;

/// What is known of the program in force (own). Contracts see a `KnownModel`.
#[derive(Drop)]
pub struct KnownLines<A: Allocator> {
    /// What is known of the lines before a place.
    before: LinesBefore,
    /// The lines that were read ahead, in order.
    ahead: HeapCircularBuffer<Planned, A>,
    /// What the next line is planned on while there are any: what will be stored once nothing is left of them. Its
    /// table of parameters serves them all.
    base: Stored<A>,
    /// Whether the line after these can't be planned on the state after them: it is refused, or there is none.
    ended: bool,
}

impl<A: Allocator> Model for KnownLines<A> {
    ghost use Rattle.std.specs.Prelude.{◌≡◌, length};
    ghost use Rattle.ng_params.specs.Numbers.{parameter_count};
    ghost use Rattle.ng_session.specs.Planned.{KnownModel};

    ghost Value = { KnownModel };

    ghost view = { λ k. record { before = k.before; ahead = k.ahead.items; base = k.base } };

    ghost invariant = { λ k. length k.base.setup.params ≡ parameter_count };
}

impl<A: Allocator + Copy + Drop> KnownLines<A> {
    ghost use Rattle.ng_session.specs.BareBlock.{block_on};
    ghost use Rattle.ng_session.specs.Planned.{PlannedModel, IsKnownOf, base_after, forgotten, forgotten_for};
    ghost use Rattle.ng_session.specs.Ticking.{after_current_block};
    ghost use Rattle.ng_session.specs.SessionInvariant.{IsSessionInvariant};

    /// What is known of every program, with memory for all lines that are read ahead and the table that they are
    /// planned in. `AllocError` if there is no memory for that; nothing is allocated later.
    pub fn none(alloc: A) -> Result<KnownLines<A>, AllocError>
        ensures ahead { IfOk result (λ k. k.ahead ≡ []) }
        ensures holds { IfOk result (λ k. (program : List ℕ) → IsKnownOf program k) }
    {
        Ok(KnownLines {
            before: LinesBefore::none(),
            ahead: HeapCircularBuffer::with_capacity(alloc, MOST_AHEAD)?,
            base: Stored::fresh(alloc, 0)?,
            ended: false,
        })
    }

    /// What is known of the lines before a place.
    pub fn lines_before(&self) -> &LinesBefore
        ensures { result.now ≡ self.now.before }
    {
        &self.before
    }

    /// Replaces what is known of the lines before a place.
    pub fn set_before(&mut self, before: LinesBefore)
        ensures { self.new ≡ record self.old { before = before } }
    {
        self.before = before;
    }

    /// Drops the lines that were read ahead.
    pub fn forget_ahead(&mut self)
        ensures { self.new ≡ forgotten self.old }
    {
        self.ahead.clear();
        self.ended = false;
    }

    /// Drops the lines that were read ahead, if they no longer come after an event.
    pub fn forget_for(&mut self, event: &Event<A>)
        ensures { self.new ≡ forgotten_for event.now self.old }
    {
        if event.drops_plan() {
            self.forget_ahead();
        }
    }

    /// Another program is in force: only what is true of every program is known.
    pub fn forget(&mut self)
        ensures ahead { self.new.ahead ≡ [] }
        ensures holds { (program : List ℕ) → IsKnownOf program self.new }
    {
        self.before = LinesBefore::none();
        self.forget_ahead();
    }

    /// Whether no more lines can be planned: they are full, or the next line can't be.
    pub(crate) fn is_done(&self) -> bool {
        self.ended || self.ahead.is_full()
    }

    /// No more lines can be planned until these are begun or dropped.
    pub fn end(&mut self)
        ensures { self.new ≡ self.old }
    {
        self.ended = true;
    }

    /// The last line that was read ahead.
    pub(crate) fn last(&self) -> Option<&Planned>
        ensures { MatchOption result (self.now.ahead ≡ []) (λ p. (ps : List PlannedModel) × (self.now.ahead ≡ ps ++ p.now ∷ [])) }
    {
        self.ahead.back()
    }

    /// What the next line is planned on.
    pub(crate) fn base(&self) -> &Stored<A>
        ensures { result.now ≡ self.now.base }
    {
        &self.base
    }

    /// Before a line is planned: if no line was read ahead, it is planned on what will be stored once nothing is left
    /// of the current block. It doesn't allocate.
    pub(crate) fn find_base(&mut self, stored: &Stored<A>, current: &Option<CurrentBlock>)
        requires { IsSessionInvariant stored.now current.now }
        ensures known { self.new ≡ record self.old { base = self.new.base } }
        ensures first { self.old.ahead ≡ [] → self.new.base
            ≡ base_after stored.now (option_map (block_on stored.now.setup.params) current.now) }
        ensures later { self.old.ahead ≢ [] → self.new.base ≡ self.old.base }
    {
        if !self.ahead.is_empty() {
            return;
        }
        self.base.take_over(stored);
        if let Some(block) = current {
            block.finish_in(&mut self.base);
        }
    }

    /// Adds a line that was planned on the base, if it fits: then the next one is planned on what will be stored
    /// after it.
    pub(crate) fn push(&mut self, planned: Planned)
        requires { self.old.base.entries ≤ greatest_count }
        ensures { (self.new ≡ record self.old {
          ahead = self.old.ahead ++ planned ∷ [];
          base = after_current_block self.old.base (block_on self.old.base.setup.params planned.block);
        }) ⊎ (self.new ≡ self.old) }
    {
        if self.ahead.len() < self.ahead.capacity() {
            let update = planned.block.update_by_block(self.base.entries);
            self.base.take_update(&update);
            let _ = self.ahead.try_push_back(planned);
        }
    }

    /// Takes the first line that was read ahead.
    pub(crate) fn take_front(&mut self) -> Option<Planned>
        ensures known { self.new ≡ record self.old { ahead = self.new.ahead } }
        ensures ahead { MatchOption result ((self.old.ahead ≡ []) × (self.new.ahead ≡ []))
            (λ p. self.old.ahead ≡ p ∷ self.new.ahead) }
    {
        let front = self.ahead.pop_front();
        if self.ahead.is_empty() {
            self.ended = false;
        }
        front
    }
}
