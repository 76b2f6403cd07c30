//! All lengths of a line, computed before any of its commands: its feed, the offsets after it, the parameters that it
//! sets, and its path.
ghost use Rattle.std.specs.Prelude.{◌≡◌, ◌≤◌, ◌+◌, ◌++◌, length, Ok, Err, MatchResult, OnOk};
ghost use Rattle.ng_modal.specs.WholeNumbers.{IsSlot};
ghost use Rattle.ng_block.specs.Path.{moving_at};
ghost use Rattle.ng_block.specs.Goal.{selecting, storing, bearings_of, path_after_bearings, ended, goal_of, bearings_by, path_with_bearings, goal_by};

use crate::cycles::{put_kept_beside, put_kept_in};
use crate::effect::{CHANGES, Changes, Effect};
use crate::ends::ends;
use crate::motion::{end_of, feed_of, path_of, put_path, straight_pace};
use crate::path::Path;
use crate::place::clear;
use crate::shifts::{keeps_offsets, shift_of};
use crate::terms::Terms;
use ng_canon::{Feed, Pace, StraightMove};
use ng_modal::{Block, Movement};
use ng_num::{Fault, Point};
use ng_offsets::{Offsets, Tools};
use ng_params::{Change, Params, System};
use ng_state::State;
use std::alloc::Allocator;

/// Adds changes of parameters.
fn put_changes(from: &[Change], changes: &mut Changes)
    requires { length changes.old.items + length from.now ≤ CHANGES }
    ensures items { changes.new.items ≡ changes.old.items ++ from.now }
    ensures count { length changes.new.items ≡ length changes.old.items + length from.now }
{
    for change in from {
        changes.push(*change);
    }
}

/// Adds the change that a word of group 12 makes.
fn put_selection(system: Option<System>, changes: &mut Changes)
    requires { length changes.old.items + 1 ≤ CHANGES }
    ensures items { changes.new.items ≡ selecting system changes.old.items }
    ensures fits { length changes.new.items ≤ length changes.old.items + 1 }
{
    if let Some(system) = system {
        put_changes(&[system.selection()], changes);
    }
}

/// Adds the changes that axis data make.
fn put_stored(stored: &Option<[Change; 3]>, changes: &mut Changes)
    requires { length changes.old.items + 3 ≤ CHANGES }
    ensures items { changes.new.items ≡ storing stored.now changes.old.items }
    ensures fits { length changes.new.items ≤ length changes.old.items + 3 }
{
    if let Some(stored) = stored {
        put_changes(stored, changes);
    }
}

impl Effect {
    /// Finds the offsets after a block's axis data, and adds its changes of parameters to those of the assignments.
    fn find_bearings<A: Allocator + Copy + Drop>(
        &mut self,
        state: &State<A>,
        block: &Block,
        assignments: &[Change],
        tools: &Tools,
    ) -> Result<(), Fault>
        requires short { length assignments.now ≤ 128 }
        requires assignments { self.old.changes.items ≡ assignments.now }
        requires slot { IsSlot block.now.values.h (length tools.now) }
        ensures value { MatchResult result
            (λ _. bearings_of block.now assignments.now state.now tools.now ≡ Ok (bearings_by self.new))
            (λ fault. bearings_of block.now assignments.now state.now tools.now ≡ Err fault) }
        ensures fits { OnOk result (length self.new.changes.items ≤ 132) }
    {
        let at = shift_of(block, &state.modal, &state.params, assignments, tools)?;
        self.modal.offsets = at.offsets;
        self.shown = Some(at.shown);
        put_selection(block.g.system, &mut self.changes);
        put_stored(&at.stored, &mut self.changes);
        Ok(())
    }

    /// Sets a straight path at a pace, or that the pace is missing.
    #[inline]
    fn go_straight(&mut self, pace: Option<Pace>, start: Point, end: Point)
        ensures { self.new ≡ record self.old { plan = record self.old.plan { path = moving_at pace start end } } }
    {
        match pace {
            None => self.plan.path = Path::WithoutFeed,
            Some(pace) => self.plan.path = Path::Straight(StraightMove { start, end, pace }),
        }
    }

    /// Finds the offsets and the path of a block that has a word for offsets or of group 0. It isn't inlined, so that
    /// most lines don't pay for its local variables.
    #[inline(never)]
    fn find_path<A: Allocator + Copy + Drop>(
        &mut self,
        terms: &Terms<'_>,
        state: &State<A>,
        block: &Block,
        assignments: &[Change],
        feed_per_min: Feed,
    ) -> Result<(), Fault>
        requires short { length assignments.now ≤ 128 }
        requires assignments { self.old.changes.items ≡ assignments.now }
        requires slot { IsSlot block.now.values.h (length terms.now.tools) }
        ensures value { let way = path_after_bearings block.now assignments.now state.now terms.now.tools feed_per_min terms.now.geometry in
            MatchResult result (λ _. way ≡ Ok (path_with_bearings self.new)) (λ fault. way ≡ Err fault) }
        ensures fits { OnOk result (length self.new.changes.items ≤ 132) }
    {
        self.find_bearings(state, block, assignments, terms.tools)?;
        let offsets = &self.modal.offsets;
        self.plan.path = path_of(
            block,
            state,
            assignments,
            offsets,
            feed_per_min,
            terms.geometry,
        )?;
        Ok(())
    }

    /// Finds the offsets and the path of a block. Most lines leave the offsets as they are, so that is checked first.
    #[inline]
    #[tactic(auto, using(crate::proofs::BearingLemmas::bearings_same, crate::proofs::BearingLemmas::end_same))]
    fn find_any_path<A: Allocator + Copy + Drop>(
        &mut self,
        terms: &Terms<'_>,
        state: &State<A>,
        block: &Block,
        assignments: &[Change],
        feed_per_min: Feed,
    ) -> Result<(), Fault>
        requires short { length assignments.now ≤ 128 }
        requires slot { IsSlot block.now.values.h (length terms.now.tools) }
        ensures value { let way = path_after_bearings block.now assignments.now state.now terms.now.tools feed_per_min terms.now.geometry in
            MatchResult result (λ _. way ≡ Ok (path_with_bearings self.new)) (λ fault. way ≡ Err fault) }
        ensures fits { OnOk result (length self.new.changes.items ≤ 132) }
    {
        self.changes.clear();
        put_changes(assignments, &mut self.changes);
        if !keeps_offsets(block) {
            return self.find_path(terms, state, block, assignments, feed_per_min);
        }
        self.modal.offsets = state.modal.offsets;
        clear(&mut self.shown);
        let modal = &state.modal;
        match block.movement {
            Some(Movement::Straight(kind)) => {
                let end = end_of(block, modal, &modal.offsets)?;
                let pace = straight_pace(kind, block, modal, feed_per_min);
                self.go_straight(pace, modal.point, end);
                Ok(())
            }
            Some(Movement::Arc(_)) | Some(Movement::Cycle(_)) | None => put_path(
                block,
                state,
                assignments,
                feed_per_min,
                terms.geometry,
                &mut self.plan.path,
            ),
        }
    }

    /// Puts system 1 in force and drops the G92 offset, as the program's end does.
    #[inline(never)]
    fn end_bearings<A: Allocator + Copy + Drop>(&mut self, params: &Params<A>)
        requires { length self.old.changes.items ≤ 132 }
        ensures path { self.new.plan.path ≡ self.old.plan.path }
        ensures value { bearings_by self.new ≡ ended params.now (bearings_by self.old) }
    {
        self.modal.offsets = Offsets {
            origin: params.origin_after(System::first(), self.changes.as_slice()),
            g92: Point::zero(),
            tool_length: self.modal.offsets.tool_length,
        };
        self.changes.push(System::first().selection());
    }

    /// Finds all lengths of a block in a state: the feed and the offsets after it, the parameters that it sets, its
    /// path, and the words that a cycle keeps after it. E3 if one of them is out of range; else C1 to C4 of an arc, and
    /// Y1 to Y8, X1, X2 of a cycle.
    pub(crate) fn find_goal<A: Allocator + Copy + Drop>(
        &mut self,
        terms: &Terms<'_>,
        state: &State<A>,
        block: &Block,
        assignments: &[Change],
    ) -> Result<(), Fault>
        requires short { length assignments.now ≤ 128 }
        requires slot { IsSlot block.now.values.h (length terms.now.tools) }
        ensures { MatchResult result
            (λ _. goal_of block.now assignments.now state.now terms.now.tools terms.now.geometry ≡ Ok (goal_by self.new))
            (λ fault. goal_of block.now assignments.now state.now terms.now.tools terms.now.geometry ≡ Err fault) }
    {
        let feed_per_min = feed_of(block, &state.modal)?;
        self.find_any_path(terms, state, block, assignments, feed_per_min)?;
        if ends(block.m.stop) {
            self.end_bearings(&state.params);
        }
        self.modal.feed_per_min = feed_per_min;
        match block.movement {
            Some(Movement::Cycle(kind)) => {
                put_kept_in(kind, block, &state.modal, &mut self.modal.kept)
            }
            Some(Movement::Straight(_)) | Some(Movement::Arc(_)) | None => {
                put_kept_beside(block, &state.modal, &mut self.modal.kept);
                Ok(())
            }
        }
    }
}
