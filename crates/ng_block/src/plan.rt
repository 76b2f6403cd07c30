//! What is kept of a block, so that its parts can produce their commands and segments one at a time.
ghost use Rattle.std.specs.Prelude.{◌≡◌};
ghost use Rattle.ng_block.specs.Action.{outputs_after as outputs_after_actions};
ghost use Rattle.ng_block.specs.Ends.{stop_outputs};

use crate::action::outputs_after;
use crate::actions::Actions;
use crate::ends::stop_outputs;
use crate::path::Path;
use crate::remark::Remark;
use ng_canon::{Feed, Outputs};
use ng_modal::StopWord;

/// A valid block: its parts in the order in which they act (NISTIR 6556, 3.8, table 8), and the outputs before it.
#[derive(Drop)]
pub(crate) struct Plan {
    pub remark: Remark,
    /// The feed that its F sets.
    pub feed: Option<Feed>,
    /// What it does besides its remark, its feed, its motion and its stop. Most blocks have no action.
    pub actions: Actions,
    pub path: Path,
    pub stop: Option<StopWord>,
    /// The outputs before the block.
    pub before: Outputs,
}

impl Plan {
    ghost use Rattle.std.specs.Prelude.{[], ◌↔◌, None, IsTrue};

    /// Whether the block does nothing but set a feed and move.
    #[inline]
    #[tactic(auto, using(crate::proofs::ActionLemmas::no_items))]
    pub(crate) fn just_moves(&self) -> bool
        ensures { IsTrue result
            ↔ ((self.now.actions.items ≡ []) × (self.now.stop ≡ None) × (self.now.remark.manner ≡ None)) }
    {
        !(!self.actions.is_empty() | self.stop.is_some() | self.remark.manner.is_some())
    }
}

/// The outputs after a block.
#[inline(never)]
fn outputs_of(actions: &Actions, stop: Option<StopWord>, before: Outputs) -> Outputs
    ensures { result ≡ stop_outputs stop (outputs_after_actions before actions.now.items) }
{
    stop_outputs(stop, outputs_after(actions.as_slice(), before))
}

/// Stores the outputs after a block, given those before it. Most blocks switch nothing, so this is checked first.
#[inline]
#[tactic(auto, using(crate::proofs::ActionLemmas::no_items))]
pub(crate) fn put_outputs_after(
    actions: &Actions,
    stop: Option<StopWord>,
    before: &Outputs,
    place: &mut Outputs,
)
    ensures { place.new ≡ stop_outputs stop (outputs_after_actions before.now actions.now.items) }
{
    if actions.is_empty() && stop.is_none() {
        *place = *before;
    } else {
        *place = outputs_of(actions, stop, *before);
    }
}
