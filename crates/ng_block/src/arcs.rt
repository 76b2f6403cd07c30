//! G2 and G3: the arc that a line asks for (NISTIR 6556, 3.5.3).
ghost use Rattle.std.specs.Prelude.{◌≡◌};
ghost use Rattle.ng_block.specs.Arcs.{axes_on, centre_offsets_on, asked_by, path_along_arc};

use crate::axis_data::unit_after;
use crate::motion::{end_of, fed_pace_of};
use crate::path::Path;
use ng_arc::{AskedArc, CentreOffsets, NamedAxes, check_arc};
use ng_canon::{ArcDirection, Feed};
use ng_modal::{Block, ByLetter};
use ng_num::{Fault, Point};
use ng_offsets::{Named, Offsets};
use ng_state::{ModalState, Modes};

/// The axes that a line names.
fn axes_on(values: &ByLetter) -> NamedAxes
    ensures { result ≡ axes_on values.now }
{
    NamedAxes {
        x: values.x().is_some(),
        y: values.y().is_some(),
        z: values.z().is_some(),
    }
}

/// How far an arc's centre is from its start, in the unit after the line.
fn centre_offsets_on(block: &Block, modes: &Modes) -> Result<CentreOffsets, Fault>
    ensures { result ≡ centre_offsets_on block.now modes.now }
{
    let values = &block.values;
    let named = Named::of(values.i(), values.j(), values.k(), unit_after(block, modes))?;
    Ok(CentreOffsets {
        i: named.x,
        j: named.y,
        k: named.z,
    })
}

/// The arc that a line asks for, from the machine's position.
fn asked_by(
    block: &Block,
    modal: &ModalState,
    turn: ArcDirection,
    end: Point,
    offsets: CentreOffsets,
) -> AskedArc
    ensures { result ≡ asked_by block.now modal.now turn end offsets }
{
    AskedArc {
        plane: block.plane_after(&modal.modes),
        turn,
        start: modal.point,
        end,
        named: axes_on(&block.values),
        offsets,
        unit: unit_after(block, &modal.modes),
    }
}

/// The path of a line's arc, under offsets and with the feed after the line. E3 if a coordinate of its end or its
/// centre is out of range, else C1 to C4: an arc without an end or without an offset in its plane, with radii that
/// differ, or with none.
#[inline(never)]
#[tactic(auto, unfolding(crate::specs::Arcs::path_along_arc))]
pub(crate) fn path_along_arc(
    turn: ArcDirection,
    block: &Block,
    modal: &ModalState,
    offsets: &Offsets,
    feed_per_min: Feed,
) -> Result<Path, Fault>
    ensures { result ≡ path_along_arc turn block.now modal.now offsets.now feed_per_min }
{
    let end = end_of(block, modal, offsets)?;
    let centre = centre_offsets_on(block, &modal.modes)?;
    let shape = check_arc(&asked_by(block, modal, turn, end, centre))?;
    match fed_pace_of(block, modal, feed_per_min) {
        Some(pace) => Ok(Path::Round(shape.at(pace))),
        None => Ok(Path::WithoutFeed),
    }
}
