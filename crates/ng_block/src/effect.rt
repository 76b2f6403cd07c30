//! The effect of a block: the modal state after it, the parameters that it changes, how the program goes on, and the
//! plan of its commands and segments.
ghost use Rattle.std.specs.Prelude.{◌≡◌, ◌≤◌, ◌∷◌, ◌++◌, [], map, Ok, Err, length, IfSome, MatchResult, None};
ghost use Rattle.ng_canon.specs.Printing.{numeric};
ghost use Rattle.std.specs.Option.{option_map};
ghost use Rattle.ng_block.specs.Goal.{goal_by};
ghost use Rattle.ng_block.specs.Effects.{block_done, finished, segments_by, commands_by, in_state};
ghost use Rattle.ng_block.specs.Path.{pace_command};
ghost use Rattle.ng_block.specs.Plan.{feed_commands};
ghost use Rattle.ng_block.specs.Remarks.{remark_of};
ghost use Rattle.ng_block.specs.Program.{idle};
ghost use Rattle.ng_block.specs.declared.effect.ProgramFlow.TheVariants.{GoesOn};

use crate::actions::{Actions, put_actions};
use crate::after::put_modes_after;
use crate::ends::stop_of;
use crate::faults::path_fault;
use crate::motion::{feed_mode_after, feed_set};
use crate::path::Path;
use crate::plan::{Plan, put_outputs_after};
use crate::remark::Remark;
use crate::shifts::Shown;
use arrayvec::ArrayVec;
use ng_canon::{Feed, Geometry, StraightMove};
use ng_modal::Block;
use ng_num::Fault;
use ng_params::Change;
use ng_state::{ModalState, State};
use std::alloc::Allocator;

/// The most changes of parameters that a line makes: an assignment for each of its pieces, and those of its words.
pub const CHANGES: usize = 136;

/// The parameters that a line changes, in order.
pub type Changes = ArrayVec<Change, CHANGES>;

/// How the program goes on after a line.
#[derive(Clone, Copy, Debug, PartialEq, Eq)]
pub enum ProgramFlow {
    GoesOn,
    /// M0, M60.
    Stops,
    /// M1: stops if the operator wants it.
    StopsIfWanted,
    /// M2, M30.
    Ends,
}

/// What a line does: all that it changes and, by `commands` and `segments`, what it prints and moves, in order.
#[derive(Drop)]
pub struct Effect {
    pub modal: ModalState,
    /// The parameters that it sets, in order.
    pub changes: Changes,
    pub stop: ProgramFlow,
    /// What it prints of offsets, from which its actions are made. `None` if its words leave them unchanged.
    pub(crate) shown: Option<Shown>,
    pub(crate) plan: Plan,
}

impl Effect {
    /// No effect on a modal state.
    pub fn none(modal: ModalState) -> Effect
        ensures modal { result.modal ≡ modal }
        ensures changes { result.changes.items ≡ [] }
        ensures before { result.plan.before ≡ modal.outputs }
        ensures segments { segments_by result ≡ [] }
        ensures commands { commands_by result ≡ [] }
        ensures stop { result.stop ≡ GoesOn }
    {
        Effect {
            modal,
            changes: Changes::new(),
            stop: ProgramFlow::GoesOn,
            shown: None,
            plan: Plan {
                remark: Remark::none(),
                feed: None,
                actions: Actions::new(),
                path: Path::Still,
                stop: None,
                before: modal.outputs,
            },
        }
    }

    /// The only move of a block that just goes straight, after the feed that it sets, if any. `None` for any other
    /// block. So the commands of nearly every line need no cursor.
    #[inline]
    pub fn only_move(&self) -> Option<(Option<Feed>, &StraightMove)>
        ensures { IfSome result (λ x. commands_by self.now
            ≡ map numeric (feed_commands x.0 ++ pace_command x.1.now.pace x.1.now.end ∷ [])) }
    {
        let plan = &self.plan;
        if !plan.just_moves() {
            return None;
        }
        match &plan.path {
            Path::Straight(line) => Some((plan.feed, line)),
            Path::Still => None,
            Path::WithoutFeed => None,
            Path::Round(_) => None,
            Path::Homing(_) => None,
            Path::Cycle(_) => None,
        }
    }

    /// Becomes the effect of a line that does nothing in a state.
    pub(crate) fn leave<A: Allocator + Copy + Drop>(&mut self, state: &State<A>, stop: ProgramFlow)
        ensures { in_state state.now self.new ≡ idle state.now stop }
    {
        self.modal = state.modal;
        self.changes.clear();
        self.stop = stop;
        self.plan.remark.clear();
        self.plan.feed = None;
        self.plan.actions.clear();
        self.plan.path = Path::Still;
        self.plan.stop = None;
        self.plan.before = state.modal.outputs;
    }

    /// Becomes the effect of a valid block in a state. It has the block's goal already.
    pub(crate) fn take_block<A: Allocator + Copy + Drop>(
        &mut self,
        state: &State<A>,
        block: &Block,
        comment: Option<&[u8]>,
    )
        requires { IfSome comment (λ text. length text.now ≤ 256) }
        ensures { let remark = remark_of (option_map (λ text. text.now) comment.entry) in
            in_state state.now self.new ≡ block_done block.now (goal_by self.old) remark state.now }
    {
        let modal = &state.modal;
        let mode = feed_mode_after(block, &modal.modes);
        put_actions(
            block,
            mode,
            &modal.outputs,
            &self.shown,
            &mut self.plan.actions,
        );
        put_outputs_after(
            &self.plan.actions,
            block.m.stop,
            &modal.outputs,
            &mut self.modal.outputs,
        );
        put_modes_after(block, &modal.modes, &mut self.modal.modes);
        self.plan
            .path
            .put_point_after(&modal.point, &mut self.modal.point);
        self.modal.point_known = modal.point_known;
        self.stop = stop_of(block.m.stop);
        self.plan.remark.take(comment);
        self.plan.feed = feed_set(block, mode, self.modal.feed_per_min);
        self.plan.stop = block.m.stop;
        self.plan.before = modal.outputs;
    }

    /// Becomes that of a block in a state, whose goal it has. X1 where its move has no feed or no time, else X2 where
    /// it leaves the travel.
    #[inline]
    pub(crate) fn finish<A: Allocator + Copy + Drop>(
        &mut self,
        state: &State<A>,
        block: &Block,
        comment: Option<&[u8]>,
        geometry: &Geometry,
    ) -> Result<(), Fault>
        requires { IfSome comment (λ text. length text.now ≤ 256) }
        ensures { let remark = remark_of (option_map (λ text. text.now) comment.entry) in MatchResult result
            (λ _. finished block.now (goal_by self.old) remark state.now geometry.now ≡ Ok (in_state state.now self.new))
            (λ fault. finished block.now (goal_by self.old) remark state.now geometry.now ≡ Err fault) }
    {
        if let Some(fault) = path_fault(&self.plan.path, geometry) {
            return Err(fault);
        }
        self.take_block(state, block, comment);
        Ok(())
    }
}
