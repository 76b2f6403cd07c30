//! The current block.
ghost use Rattle.std.specs.Prelude.{◌≡◌, ◌≢◌, ◌≤◌, ◌+◌, ℤ, List, None, length};
ghost use Rattle.ng_params.specs.Change.{with_changes};
ghost use Rattle.ng_params.specs.Differences.{differences};
ghost use Rattle.ng_block.specs.Effects.{in_state};
ghost use Rattle.ng_layout.specs.Limits.{greatest_count};
ghost use Rattle.ng_layout.specs.Storable.{IsStorableModalState, IsStorable};
ghost use Rattle.ng_canon.specs.declared.pace.Pace.TheVariants as pace;
ghost use Rattle.ng_cycles.specs.Segments.{line_to};
ghost use Rattle.ng_session.specs.Entries.{place_by, place_after, motion_state_before, hand_approach};
ghost use Rattle.ng_layout.specs.Stored.{StoredModel};
ghost use Rattle.ng_layout.specs.Update.{updated};
ghost use Rattle.ng_session.specs.Ticking.{half_open, next_opened};
ghost use Rattle.ng_session.specs.Planned.{base_on};

use crate::stage::{Approach, Stage};
use arrayvec::ArrayVec;
use ng_block::{BlockSegments, Changes, Effect, ProgramFlow, Resumed};
use ng_canon::{Geometry, Item, Pace, Segment, StraightMove};
use ng_layout::{DecodedState, Half, LONGEST_TEXT, Opened, Source, Stored, Update, text_from};
use ng_num::Point;
use ng_params::settled_changes;
use ng_state::ModalState;
use ng_step::Stepper;
use std::alloc::Allocator;
use std::marker::Model;

/// The current block, as it was begun, and what is left of it (own). Contracts see a `BareBlock`.
#[derive(Drop)]
pub(crate) struct CurrentBlock {
    pub source: Source,
    /// Its line, without the line's end.
    pub text: ArrayVec<u8, LONGEST_TEXT>,
    /// Whether block delete was on when it was begun.
    pub block_delete: bool,
    pub stage: Stage,
    /// The number of the segment that opens next, counted from 0, after the approach if there is one.
    pub index: u64,
    /// The segment that opens next.
    pub upcoming: Option<Segment>,
    /// The segments after that.
    pub left: BlockSegments,
    /// The switch of the open approach.
    pub switch: Option<Item>,
    /// The items of what is open, after that. `None` before anything is opened.
    pub items: Option<Stepper>,
    /// The parameters that it gives other values: each once, in rising order.
    pub changes: Changes,
    /// The modal state after it.
    pub modal: ModalState,
    /// The byte of the program at which the next line begins then.
    pub place: u64,
    /// How the program goes on then.
    pub stop: ProgramFlow,
}

impl Model for CurrentBlock {
    ghost use Rattle.std.specs.Prelude.{[], unwrap_or};
    ghost use Rattle.ng_session.specs.BareBlock.{BareBlock, left_of, onto};

    ghost Value = { BareBlock };

    ghost view = { λ c. record {
      source = c.source;
      text = c.text.items;
      block_delete = c.block_delete;
      stage = c.stage;
      index = c.index;
      left = left_of c.upcoming c.left;
      items = onto c.switch (unwrap_or c.items []);
      changes = c.changes.items;
      modal = c.modal;
      place = c.place;
      stop = c.stop;
    } };
}

/// The place of the program after a block, if its next line begins at `next`. After the program's end that is the
/// beginning, and a line of the operator doesn't change it.
fn place_after(next: u64, place: u64, source: Source, stop: ProgramFlow) -> u64
    ensures { result ≡ place_after next place source stop }
{
    match stop {
        ProgramFlow::Ends => 0,
        ProgramFlow::GoesOn | ProgramFlow::Stops | ProgramFlow::StopsIfWanted => place_by(
            next, place, source,
        ),
    }
}

fn place_by(next: u64, place: u64, source: Source) -> u64
    ensures { result ≡ place_by next place source }
{
    match source {
        Source::Program => next,
        Source::Mdi => place,
    }
}

/// What an effect changes of the stored parameters: the differences that it makes.
fn changes_of<A: Allocator + Copy + Drop>(stored: &Stored<A>, effect: &Effect) -> Changes
    ensures { let params = stored.now.setup.params in
        result.items ≡ differences params (with_changes params effect.now.changes.items) }
{
    settled_changes(&stored.state.params, &effect.changes)
}

/// The point at which a block begins.
fn start_of<A: Allocator + Copy + Drop>(stored: &Stored<A>) -> Point
    ensures { result ≡ stored.now.setup.modal.point }
{
    stored.state.modal.point
}

/// The item that an approach begins with: the outputs there.
fn switch(approach: &Approach) -> Item
    ensures { result ≡ Item.Switch approach.now.to.outputs }
{
    Item::Switch(approach.to.outputs)
}

/// The line of an approach, at the traverse rate.
fn way(approach: &Approach) -> Segment
    ensures { result ≡ line_to pace.Traverse approach.now.from approach.now.to.point }
{
    Segment::Line(StraightMove {
        start: approach.from,
        end: approach.to.point,
        pace: Pace::Traverse,
    })
}

impl CurrentBlock {
    ghost use Rattle.std.specs.Prelude.{[], drop, IfSome, MatchBool};
    ghost use Rattle.ng_layout.specs.Storable.{IsStorableHalf};
    ghost use Rattle.ng_session.specs.declared.stage.Stage.TheVariants.{OnApproach, OnBlock};
    ghost use Rattle.ng_session.specs.BareBlock.{block_on, IsReady};
    ghost use Rattle.ng_session.specs.SessionInvariant.{IsNextEntry};
    ghost use Rattle.ng_session.specs.Session.{SessionModel, begun};
    ghost use Rattle.ng_session.specs.Operator.{begun_again};
    ghost use Rattle.ng_session.specs.Ticking.{after_current_block, after_current_approach, committed_on, first_of};
    ghost use Rattle.ng_session.specs.Ticking.{rest_of, opening_on, opened_on};

    /// The block of a line, before its first segment, given its effect. The next line of the program begins at `next`.
    pub fn begun<A: Allocator + Copy + Drop>(
        stored: &Stored<A>,
        source: Source,
        text: &[u8],
        block_delete: bool,
        next: u64,
        effect: &Effect,
    ) -> CurrentBlock
        requires storable { IsStorable stored.now }
        requires within { next ≤ stored.now.length }
        requires stands { IsStorableModalState effect.now.modal }
        requires short { length text.now ≤ 256 }
        ensures value { block_on stored.now.setup.params result
            ≡ begun stored.now source text.now block_delete next (in_state stored.now.setup effect.now) }
        ensures ready { IsReady stored.now result }
    {
        let mut left = effect.block_segments();
        let upcoming = left.next();
        CurrentBlock {
            source,
            text: text_from(text),
            block_delete,
            stage: Stage::OnBlock,
            index: 0,
            upcoming,
            left,
            switch: None,
            items: None,
            changes: changes_of(stored, effect),
            modal: effect.modal,
            place: place_after(next, stored.place, source, effect.stop),
            stop: effect.stop,
        }
    }

    /// The half-done block from its index on, before its approach from a point, given the effect of its whole line. The
    /// next line of the program begins at `next`.
    pub fn begun_again<A: Allocator + Copy + Drop>(
        stored: &Stored<A>,
        half: &Half,
        from: Point,
        next: u64,
        effect: &Effect,
    ) -> CurrentBlock
        requires storable { IsStorable stored.now }
        requires within { next ≤ stored.now.length }
        requires stands { IsStorableModalState effect.now.modal }
        requires short { length half.now.text ≤ 256 }
        ensures value { block_on stored.now.setup.params result
            ≡ begun_again stored.now half.now from next (in_state stored.now.setup effect.now) }
        ensures ready { IsReady stored.now result }
    {
        let Resumed {
            block_segments: mut left,
            motion_state: to,
        } = effect.block_segments_from(start_of(stored), half.index);
        let upcoming = left.next();
        CurrentBlock {
            source: half.source,
            text: text_from(half.text.as_slice()),
            block_delete: false,
            stage: Stage::ToApproach(Approach { from, to }),
            index: half.index,
            upcoming,
            left,
            switch: None,
            items: None,
            changes: changes_of(stored, effect),
            modal: effect.modal,
            place: place_after(next, stored.place, half.source, effect.stop),
            stop: effect.stop,
        }
    }

    /// Takes the next item of what is open.
    #[tactic(auto, using(crate::proofs::TakenItemLemmas::first_taken, crate::proofs::TakenItemLemmas::rest_taken))]
    pub fn next_item(&mut self) -> Option<Item>
        ensures item { result ≡ first_of self.old.items }
        ensures next { self.new ≡ record self.old { items = rest_of self.old.items } }
    {
        if let Some(switch) = self.switch {
            self.switch = None;
            return Some(switch);
        }
        let Some(items) = &mut self.items else {
            return None;
        };
        items.next()
    }

    /// The half-done block that is stored while the approach or the next segment is open. `None` if nothing is left to
    /// open.
    pub fn opening(&self) -> Option<Half>
        ensures half { (params : List ℤ) → result ≡ opening_on (block_on params self.now) self.now.stage }
        ensures waits { IfSome result IsStorableHalf }
    {
        match &self.stage {
            Stage::ToApproach(_) => Some(self.half_open(Opened::Approach)),
            Stage::OnApproach(_) => None,
            Stage::OnBlock => match self.upcoming {
                Some(_) => Some(self.half_open(Opened::Segment)),
                None => None,
            },
        }
    }

    /// The half-done block that is stored while part of it is open.
    fn half_open(&self, opened: Opened) -> Half
        ensures half { (params : List ℤ) → result ≡ half_open (block_on params self.now) opened }
        ensures waits { IsStorableHalf result }
    {
        Half {
            text: text_from(self.text.as_slice()),
            source: self.source,
            index: self.index,
            at: None,
            opened: Some(opened),
        }
    }

    /// What the next entry changes of what is stored, once nothing is left of the block, or of its approach if that
    /// isn't committed.
    pub fn update<A: Allocator + Copy + Drop>(&self, stored: &Stored<A>) -> Update<'_>
        requires count { stored.now.entries ≤ greatest_count }
        requires storable { IsStorable stored.now }
        requires ready { IsReady stored.now self.now }
        ensures value { (s : SessionModel) → s.stored ≡ stored.now → updated stored.now result
            ≡ (committed_on s (block_on stored.now.setup.params self.now) self.now.stage).stored }
        ensures next { IsNextEntry stored.now result }
    {
        match &self.stage {
            Stage::ToApproach(approach) | Stage::OnApproach(approach) => {
                self.update_by_approach(stored, approach)
            }
            Stage::OnBlock => self.update_by_block(stored.entries),
        }
    }

    /// What the next entry changes of what is stored once nothing is left of the block, given the number of entries
    /// before it.
    pub fn update_by_block(&self, entries: u64) -> Update<'_>
        requires { entries ≤ greatest_count + 1 }
        ensures value { (x : StoredModel) → x.entries ≡ entries
            → updated x result ≡ after_current_block x (block_on x.setup.params self.now) }
        ensures changes { result.changes ≡ self.now.changes }
        ensures slot { result.slot ≡ None }
    {
        Update {
            decoded: DecodedState {
                entries: entries + 1,
                place: self.place,
                modal: self.modal,
                half: None,
            },
            changes: self.changes.as_slice(),
            slot: None,
        }
    }

    /// What the next entry changes of what is stored once the machine is where the block's approach ends.
    fn update_by_approach<A: Allocator + Copy + Drop>(
        &self,
        stored: &Stored<A>,
        approach: &Approach,
    ) -> Update<'_>
        requires { stored.now.entries ≤ greatest_count }
        ensures value { updated stored.now result ≡ after_current_approach stored.now
            (block_on stored.now.setup.params self.now) approach.now.to.point }
        ensures changes { result.changes ≡ [] }
        ensures slot { result.slot ≡ None }
    {
        Update {
            decoded: DecodedState {
                entries: stored.entries + 1,
                place: stored.place,
                modal: stored.state.modal,
                half: Some(Half {
                    text: text_from(self.text.as_slice()),
                    source: self.source,
                    index: self.index,
                    at: Some(approach.to.point),
                    opened: None,
                }),
            },
            changes: &[],
            slot: None,
        }
    }

    /// How many entries come before the block's: one more while its approach isn't committed.
    fn entries_before(&self, entries: u64) -> u64
        requires { entries ≤ greatest_count }
        ensures few { result ≤ greatest_count + 1 }
        ensures block { self.now.stage ≡ OnBlock → result ≡ entries }
        ensures approach { (self.now.stage ≢ OnBlock) → result ≡ entries + 1 }
    {
        match &self.stage {
            Stage::ToApproach(_) | Stage::OnApproach(_) => entries + 1,
            Stage::OnBlock => entries,
        }
    }

    /// Makes what is stored that which will be once nothing is left of the block, nor of its approach.
    pub fn finish_in<A: Allocator + Copy + Drop>(&self, stored: &mut Stored<A>)
        requires { stored.old.entries ≤ greatest_count }
        ensures { stored.new ≡ base_on stored.old (block_on stored.old.setup.params self.now) self.now.stage }
    {
        let entries = self.entries_before(stored.entries);
        stored.take_update(&self.update_by_block(entries));
    }

    /// Opens the approach or the next segment, if one is left.
    pub fn open(&mut self, geometry: &Geometry)
        ensures opened { (params : List ℤ) → block_on params self.new
            ≡ opened_on geometry.now (block_on params self.old) self.old.stage }
        ensures unchanged { self.new ≡ record self.old {
          stage = self.new.stage;
          index = self.new.index;
          left = self.new.left;
          items = self.new.items;
        } }
    {
        match self.stage {
            Stage::ToApproach(approach) => self.open_approach(approach, geometry),
            Stage::OnApproach(_) => {}
            Stage::OnBlock => self.open_segment(geometry),
        }
    }

    /// Opens the approach.
    fn open_approach(&mut self, approach: Approach, geometry: &Geometry)
        ensures { self.new ≡ record self.old {
          stage = OnApproach approach;
          items = hand_approach geometry.now approach;
        } }
    {
        self.switch = Some(switch(&approach));
        self.items = Some(Stepper::new(&way(&approach), geometry));
        self.stage = Stage::OnApproach(approach);
    }

    /// Goes on to the block's segments. Returns false if the block is past its approach: then nothing is changed.
    pub fn end_approach(&mut self) -> bool
        ensures way { MatchBool result (self.old.stage ≢ OnBlock) (self.old.stage ≡ OnBlock) }
        ensures next { self.new ≡ record self.old { stage = OnBlock } }
    {
        match self.stage {
            Stage::ToApproach(_) | Stage::OnApproach(_) => {
                self.stage = Stage::OnBlock;
                true
            }
            Stage::OnBlock => false,
        }
    }

    /// Opens the next segment, if one is left.
    fn open_segment(&mut self, geometry: &Geometry)
        ensures opened { (params : List ℤ) → block_on params self.new
            ≡ next_opened geometry.now (block_on params self.old) self.old.left }
        ensures unchanged { self.new ≡ record self.old {
          index = self.new.index;
          left = self.new.left;
          items = self.new.items;
        } }
    {
        let Some(segment) = self.upcoming else { return };
        self.index = self.index.saturating_add(1);
        self.upcoming = self.left.next();
        self.switch = None;
        self.items = Some(Stepper::new(&segment, geometry));
    }
}
