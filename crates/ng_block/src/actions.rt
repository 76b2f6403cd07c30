//! The actions that a block's words give it, in the order in which a block is executed (NISTIR 6556, 3.8, table 8).
ghost use Rattle.std.specs.Prelude.{◌≡◌, ◌≤◌, ◌+◌, ◌++◌, [], length, flat_map};
ghost use Rattle.std.specs.Option.{option_to_list};
ghost use Rattle.ng_block.specs.Action.{outputs_after};
ghost use Rattle.ng_block.specs.Actions.{slot_changed, dwell_on, actions_of, gives_nothing};
ghost use Rattle.ng_block.specs.Shifts.{shown_in, nothing_shown};

use crate::action::{Action, outputs_after};
use crate::motion::{is_inverse, time_word};
use crate::shifts::Shown;
use arrayvec::ArrayVec;
use ng_canon::Outputs;
use ng_modal::{Block, NonModal};
use ng_num::Num;
use ng_state::FeedMode;

/// The most actions of a block.
pub(crate) const ACTIONS: usize = 12;

/// The actions of a block, in order.
pub(crate) type Actions = ArrayVec<Action, ACTIONS>;

/// The same actions again.
pub(crate) fn copied(actions: &Actions) -> Actions
    ensures { result.items ≡ actions.now.items }
{
    let mut copy = Actions::new();
    for action in actions.as_slice() {
        copy.push(*action);
    }
    copy
}

/// Whether no word of a block asks for an action; what it prints of offsets is left out.
#[inline]
fn gives_nothing(block: &Block, mode: FeedMode) -> bool
    ensures { result ≡ gives_nothing block.now mode }
{
    let m = &block.m;
    !(is_inverse(mode)
        | block.values.s().is_some()
        | block.values.t().is_some()
        | m.tool_change
        | m.spindle.is_some()
        | m.coolant.is_some()
        | block.g.non_modal.is_some()
        | block.g.plane.is_some()
        | block.g.unit.is_some())
}

/// The slot that M6 puts into the spindle: that which is selected after the line's own T.
fn slot_changed(block: &Block, before: &Outputs) -> Option<u8>
    ensures { result ≡ slot_changed block.now before.now }
{
    if block.m.tool_change {
        Some(block.selected_slot().unwrap_or(before.selected_slot))
    } else {
        None
    }
}

/// The seconds of G4.
fn dwell_on(block: &Block) -> Option<Num>
    ensures { result ≡ dwell_on block.now }
{
    match block.g.non_modal {
        Some(NonModal::Dwell) => block.values.p(),
        _ => None,
    }
}

/// The actions of a block, each at its place in the order. `None` if no word asks for it. The time of a move comes
/// right before the move.
fn rows(block: &Block, mode: FeedMode, before: &Outputs, shown: &Shown) -> [Option<Action>; ACTIONS]
    ensures { flat_map option_to_list result ≡ actions_of block.now mode before.now shown.now }
{
    [
        block.values.s().map(Action::SpindleSpeed),
        block.selected_slot().map(Action::SelectTool),
        slot_changed(block, before).map(Action::ChangeTool),
        block.m.spindle.map(Action::Spindle),
        block.m.coolant.map(Action::Coolant),
        dwell_on(block).map(Action::Dwell),
        block.g.plane.map(Action::SelectPlane),
        block.g.unit.map(Action::LengthUnits),
        shown.tool_length.map(Action::ToolLength),
        shown.system.map(Action::OriginOffsets),
        shown.axis_data.map(Action::OriginOffsets),
        time_word(mode, block.movement, block.values.f()).map(Action::InverseTime),
    ]
}

/// Adds those of some actions that are there.
fn put_given(rows: &[Option<Action>], actions: &mut Actions)
    requires few { length rows.now ≤ ACTIONS }
    requires empty { actions.old.items ≡ [] }
    ensures { actions.new.items ≡ flat_map option_to_list rows.now }
{
    for row in rows {
        if let Some(action) = row {
            actions.push(*action);
        }
    }
}

/// Stores the actions of a block, given the outputs before it and what it prints of offsets. Most lines have none, as
/// the line before them, so this is checked first.
#[inline]
#[tactic(auto, using(crate::proofs::ActionLemmas::no_actions, crate::proofs::ActionLemmas::no_items))]
pub(crate) fn put_actions(
    block: &Block,
    mode: FeedMode,
    before: &Outputs,
    shown: &Option<Shown>,
    actions: &mut Actions,
)
    ensures { actions.new.items ≡ actions_of block.now mode before.now (shown_in shown.now) }
{
    if shown.is_some() | !gives_nothing(block, mode) | !actions.is_empty() {
        put_all(block, mode, before, shown, actions);
    }
}

/// Stores the actions of a block, row by row.
#[inline(never)]
fn put_all(
    block: &Block,
    mode: FeedMode,
    before: &Outputs,
    shown: &Option<Shown>,
    actions: &mut Actions,
)
    ensures { actions.new.items ≡ actions_of block.now mode before.now (shown_in shown.now) }
{
    actions.clear();
    let shown = shown.unwrap_or(Shown::nothing());
    put_given(&rows(block, mode, before, &shown), actions);
}

/// The outputs after a block's actions. What it prints of offsets switches none.
#[tactic(auto, using(crate::proofs::ActionLemmas::no_actions))]
pub(crate) fn outputs_at_motion(block: &Block, mode: FeedMode, before: &Outputs) -> Outputs
    ensures { result ≡ outputs_after before.now (actions_of block.now mode before.now nothing_shown) }
{
    if gives_nothing(block, mode) {
        return *before;
    }
    let mut actions = Actions::new();
    put_all(block, mode, before, &None, &mut actions);
    outputs_after(actions.as_slice(), *before)
}
