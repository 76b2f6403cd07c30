//! What a line's axis data do to the offsets: G10, and G92 to G92.3 (NISTIR 6556, 3.5.5, 3.5.18).
ghost use Rattle.std.specs.Prelude.{◌≡◌};
ghost use Rattle.ng_params.specs.Change.{with_changes};
ghost use Rattle.ng_block.specs.AxisData.{unit_after, system_after, named_on, with_origin, with_offset, axis_data_of};

use ng_modal::{Block, NonModal};
use ng_num::{Fault, Point, Unit};
use ng_offsets::{Named, NewOffsets, Offsets};
use ng_params::{Change, Params, System};
use ng_state::{ModalState, Modes};
use std::alloc::Allocator;

/// What axis data do.
#[derive(Clone, Copy)]
pub(crate) struct AxisData {
    /// The offsets, if those in force change.
    pub new: Option<NewOffsets>,
    /// The changes of parameters that store an origin or an offset.
    pub stored: Option<[Change; 3]>,
}

/// The unit after a line's own word.
#[inline]
pub(crate) fn unit_after(block: &Block, modes: &Modes) -> Unit
    ensures { result ≡ unit_after block.now modes.now }
{
    block.g.unit.unwrap_or(modes.unit)
}

/// The coordinate system in force after a line's own word.
#[inline]
pub(crate) fn system_after(block: &Block, modes: &Modes) -> System
    ensures { result ≡ system_after block.now modes.now }
{
    block.g.system.unwrap_or(modes.system)
}

/// The axes that a line names, each with its length.
pub(crate) fn named_on(block: &Block, modes: &Modes) -> Result<Named, Fault>
    ensures { result ≡ named_on block.now modes.now }
{
    let values = &block.values;
    Named::of(values.x(), values.y(), values.z(), unit_after(block, modes))
}

/// What G10 does.
fn with_origin<A: Allocator + Copy + Drop>(
    system: Option<System>,
    block: &Block,
    modes: &Modes,
    offsets: &Offsets,
    params: &Params<A>,
    assignments: &[Change],
) -> Result<AxisData, Fault>
    ensures { result ≡ with_origin system block.now modes.now offsets.now (with_changes params.now assignments.now) }
{
    let Some(system) = system else {
        return Ok(AxisData {
            new: None,
            stored: None,
        });
    };
    let named = named_on(block, modes)?;
    let in_force = system_after(block, modes);
    let found = offsets.g10(system, in_force, &named, params, assignments)?;
    Ok(AxisData {
        new: found.0,
        stored: Some(found.1),
    })
}

/// What G92 does.
fn with_offset(
    block: &Block,
    modes: &Modes,
    point: Point,
    offsets: &Offsets,
) -> Result<AxisData, Fault>
    ensures { result ≡ with_offset block.now modes.now point offsets.now }
{
    let named = named_on(block, modes)?;
    let found = offsets.g92(&named, point)?;
    Ok(AxisData {
        new: Some(found.0),
        stored: Some(found.1),
    })
}

/// What a line's word of group 0 does to the offsets in force after its coordinate system, with the table after its
/// assignments. E3 if an offset, or a sum that is printed, is out of range.
pub(crate) fn axis_data_of<A: Allocator + Copy + Drop>(
    block: &Block,
    modal: &ModalState,
    offsets: &Offsets,
    params: &Params<A>,
    assignments: &[Change],
) -> Result<AxisData, Fault>
    ensures { result ≡ axis_data_of block.now modal.now.modes modal.now.point offsets.now (with_changes params.now assignments.now) }
{
    let (new, stored) = match block.g.non_modal {
        Some(NonModal::SetOrigin) => {
            let system = block.origin_system();
            return with_origin(system, block, &modal.modes, offsets, params, assignments);
        }
        Some(NonModal::SetOffset) => {
            return with_offset(block, &modal.modes, modal.point, offsets);
        }
        Some(NonModal::CancelOffsetAndParameters) => {
            let (new, stored) = offsets.g92_1();
            (Some(new), Some(stored))
        }
        Some(NonModal::CancelOffset) => (Some(offsets.g92_2()), None),
        Some(NonModal::RestoreOffset) => (Some(offsets.g92_3(params, assignments)?), None),
        _ => (None, None),
    };
    Ok(AxisData { new, stored })
}
