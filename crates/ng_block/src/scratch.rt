//! What a line does in a state. All lines go the same way, through one scratch space.
ghost use Rattle.std.specs.Prelude.{◌≡◌, MatchResult, Ok, Err};
ghost use Rattle.ng_num.specs.Causes.{NoneHolds, IsFirstFault};
ghost use Rattle.ng_block.specs.Causes.{causes};
ghost use Rattle.ng_words.specs.LineStorage.{pieces_by};
ghost use Rattle.ng_words.specs.Line.{last_comment};
ghost use Rattle.ng_expr.specs.Settle.{settled_of};
ghost use Rattle.ng_block.specs.Effects.{executed, executed_values, in_state};
ghost use Rattle.ng_block.specs.Remarks.{remark_of};
ghost use Rattle.ng_block.specs.Program.{deleted, executed_unless_deleted, executed_after};

use crate::effect::{Effect, ProgramFlow};
use crate::percent::percent_at;
use crate::terms::Terms;
use ng_canon::Geometry;
use ng_expr::Values;
use ng_modal::Sorted;
use ng_num::Fault;
use ng_offsets::Tools;
use ng_state::{ModalState, State};
use ng_words::{Line, LineKind, is_deletable, is_too_long};
use std::alloc::Allocator;

/// The space that a line is read into, in which its values are found, and in which its effect is left. It serves any
/// number of lines, one after another, and nothing is allocated.
#[derive(Drop)]
pub struct Scratch {
    line: Line,
    values: Values,
    sorted: Sorted,
    /// What the last valid line did. After a fault it may be anything, so it is only lent out with a result.
    effect: Effect,
}

impl Scratch {
    ghost use Rattle.ng_block.specs.Effects.{commands_by, segments_by};
    ghost use Rattle.std.specs.Prelude.{[]};

    /// The space before the first line, over a modal state.
    pub fn new(modal: ModalState) -> Scratch
        ensures commands { commands_by result.effect ≡ [] }
        ensures segments { segments_by result.effect ≡ [] }
    {
        Scratch {
            line: Line::new(),
            values: Values::new(),
            sorted: Sorted::nothing(),
            effect: Effect::none(modal),
        }
    }

    /// Puts into the effect what the values of a line do in a state, or returns their first fault: B1 to B19, E3, C1 to
    /// C4, Y1 to Y8, X1, X2. It is a method of its own, and the comment is found first, for speed: after five `?` in
    /// one method the compiler takes the last calls for rare ones, doesn't inline them, and a line costs 30
    /// instructions more.
    #[tactic(auto, unfolding(crate::specs::Effects::executed_values))]
    fn take_values<A: Allocator + Copy + Drop>(
        &mut self,
        terms: &Terms<'_>,
        state: &State<A>,
    ) -> Result<(), Fault>
        ensures { let remark = remark_of (last_comment (pieces_by self.old.line.places)) in
            let done = executed_values state.now remark (settled_of self.old.values) terms.now.tools terms.now.geometry in
            MatchResult result (λ _. done ≡ Ok (in_state state.now self.new.effect)) (λ f. done ≡ Err f) }
    {
        let comment = self.line.last_comment();
        let slots = terms.tools.slots() as u8;
        self.sorted.check(&self.values, &state.modal.modes, slots)?;
        let block = &self.sorted.block;
        let assignments = self.values.assignments.as_slice();
        self.effect.find_goal(terms, state, block, assignments)?;
        self.effect.finish(state, block, comment, terms.geometry)
    }

    /// Puts into the effect what a line does in a state, or returns its first fault: E1 to E5, then those of its
    /// values.
    #[inline]
    #[tactic(auto, unfolding(crate::specs::Effects::executed, crate::specs::Effects::executed_pieces), using(crate::proofs::CauseLemmas::first_of))]
    fn take_line<A: Allocator + Copy + Drop>(
        &mut self,
        terms: &Terms<'_>,
        state: &State<A>,
        text: &[u8],
    ) -> Result<(), Fault>
        ensures does { MatchResult result
            (λ _. executed state.now terms.now.tools terms.now.geometry text.now ≡ Ok (in_state state.now self.new.effect))
            (λ f. executed state.now terms.now.tools terms.now.geometry text.now ≡ Err f) }
        ensures first { MatchResult result
            (λ _. NoneHolds (causes state.now terms.now.tools terms.now.geometry text.now))
            (λ f. IsFirstFault (causes state.now terms.now.tools terms.now.geometry text.now) f) }
    {
        self.line.read(text)?;
        self.values.evaluate_into(&self.line, &state.params)?;
        self.take_values(terms, state)
    }

    /// Puts into the effect that a deleted line does nothing. E2 if it is too long: nothing else of it is looked at.
    fn delete_line<A: Allocator + Copy + Drop>(
        &mut self,
        state: &State<A>,
        text: &[u8],
    ) -> Result<(), Fault>
        ensures { MatchResult result
            (λ _. deleted state.now text.now ≡ Ok (in_state state.now self.new.effect))
            (λ f. deleted state.now text.now ≡ Err f) }
    {
        if is_too_long(text) {
            return Err(Fault::LineTooLong);
        }
        self.effect.leave(state, ProgramFlow::GoesOn);
        Ok(())
    }

    /// What a line does in a state, or its first fault, in the order of docs/LANGUAGE.md. The state stays as it is, and
    /// block delete isn't looked at. The effect stays here until the next line comes; after a fault there is none. A
    /// dry run and the controller run this for each line. Source: NISTIR 6556, 3.8, and own.
    #[inline(always)]
    pub fn execute<A: Allocator + Copy + Drop>(
        &mut self,
        terms: &Terms<'_>,
        state: &State<A>,
        text: &[u8],
    ) -> Result<&Effect, Fault>
        ensures does { MatchResult result
            (λ e. executed state.now terms.now.tools terms.now.geometry text.now ≡ Ok (in_state state.now e.now))
            (λ f. executed state.now terms.now.tools terms.now.geometry text.now ≡ Err f) }
        ensures first { MatchResult result
            (λ _. NoneHolds (causes state.now terms.now.tools terms.now.geometry text.now))
            (λ f. IsFirstFault (causes state.now terms.now.tools terms.now.geometry text.now) f) }
    {
        self.take_line(terms, state, text)?;
        Ok(&self.effect)
    }

    /// What a line does in a state, or its first fault. It does nothing if it is deleted.
    #[inline(always)]
    pub fn execute_unless_deleted<A: Allocator + Copy + Drop>(
        &mut self,
        terms: &Terms<'_>,
        state: &State<A>,
        text: &[u8],
    ) -> Result<&Effect, Fault>
        ensures { MatchResult result
            (λ e. executed_unless_deleted terms.now state.now text.now ≡ Ok (in_state state.now e.now))
            (λ f. executed_unless_deleted terms.now state.now text.now ≡ Err f) }
    {
        if terms.block_delete && is_deletable(text) {
            self.delete_line(state, text)?;
            return Ok(&self.effect);
        }
        self.execute(terms, state, text)
    }

    /// What a line of a program does in a state, or its first fault. It may be deleted, or be a percent line, which
    /// depends on the kind of the first line before it that isn't blank.
    #[inline(always)]
    pub fn execute_after<A: Allocator + Copy + Drop>(
        &mut self,
        terms: &Terms<'_>,
        first: LineKind,
        state: &State<A>,
        text: &[u8],
    ) -> Result<&Effect, Fault>
        ensures { MatchResult result
            (λ e. executed_after terms.now first state.now text.now ≡ Ok (in_state state.now e.now))
            (λ f. executed_after terms.now first state.now text.now ≡ Err f) }
    {
        match percent_at(first, text) {
            Some(stop) => {
                self.effect.leave(state, stop);
                Ok(&self.effect)
            }
            None => self.execute_unless_deleted(terms, state, text),
        }
    }
}

/// What a line does in a state, or its first fault: `Scratch::execute`, in a scratch space of its own. For callers of
/// one line: the programs keep a `Scratch`.
pub fn execute<A: Allocator + Copy + Drop>(
    state: &State<A>,
    text: &[u8],
    tools: &Tools,
    geometry: &Geometry,
) -> Result<Effect, Fault>
    ensures does { MatchResult result
        (λ e. executed state.now tools.now geometry.now text.now ≡ Ok (in_state state.now e))
        (λ f. executed state.now tools.now geometry.now text.now ≡ Err f) }
    ensures first { MatchResult result
        (λ _. NoneHolds (causes state.now tools.now geometry.now text.now))
        (λ f. IsFirstFault (causes state.now tools.now geometry.now text.now) f) }
{
    let terms = Terms {
        block_delete: false,
        tools,
        geometry,
    };
    let mut places = Scratch::new(state.modal);
    match places.take_line(&terms, state, text) {
        Ok(()) => Ok(places.effect),
        Err(fault) => Err(fault),
    }
}
