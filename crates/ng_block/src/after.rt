//! The modes after a block.
ghost use Rattle.std.specs.Prelude.{◌≡◌};
ghost use Rattle.ng_block.specs.After.{keeps_modes, modes_after};

use crate::axis_data::system_after;
use crate::ends::ends;
use crate::motion::feed_mode_after;
use ng_canon::Plane;
use ng_modal::Block;
use ng_params::System;
use ng_state::{Distance, FeedMode, Modes, Motion};

/// Whether no word of a block changes a mode but the motion.
#[inline]
fn keeps_modes(block: &Block) -> bool
    ensures { result ≡ keeps_modes block.now }
{
    let words = &block.g;
    !(words.plane.is_some()
        | words.distance.is_some()
        | words.feed_mode.is_some()
        | words.unit.is_some()
        | words.retract.is_some()
        | words.path.is_some()
        | words.system.is_some()
        | block.m.overrides.is_some()
        | block.m.stop.is_some())
}

/// Stores the modes after a block. Most lines change none but the motion, so this is checked first.
#[inline]
pub(crate) fn put_modes_after(block: &Block, modes: &Modes, place: &mut Modes)
    ensures { place.new ≡ modes_after block.now modes.now }
{
    if keeps_modes(block) {
        *place = *modes;
        place.motion = block.motion_after(modes);
    } else {
        *place = modes_by(block, modes);
    }
}

/// The modes after a block, mode by mode.
#[inline(never)]
fn modes_by(block: &Block, modes: &Modes) -> Modes
    ensures { result ≡ modes_after block.now modes.now }
{
    let words = &block.g;
    let after = Modes {
        motion: block.motion_after(modes),
        plane: block.plane_after(modes),
        distance: words.distance.unwrap_or(modes.distance),
        feed_mode: feed_mode_after(block, modes),
        unit: words.unit.unwrap_or(modes.unit),
        retract: words.retract.unwrap_or(modes.retract),
        system: system_after(block, modes),
        path: words.path.unwrap_or(modes.path),
        overrides: block.m.overrides.unwrap_or(modes.overrides),
    };
    if ends(block.m.stop) {
        Modes {
            motion: Motion::Feed,
            plane: Plane::Xy,
            distance: Distance::Absolute,
            feed_mode: FeedMode::PerMinute,
            system: System::first(),
            overrides: true,
            ..after
        }
    } else {
        after
    }
}
