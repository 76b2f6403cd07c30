//! G28 and G30: the way home (NISTIR 6556, 3.5.8).
ghost use Rattle.std.specs.Prelude.{◌≡◌, ◌≤◌};
ghost use Rattle.ng_params.specs.Change.{with_changes};
ghost use Rattle.ng_params.specs.Numbers.{parameter_count};
ghost use Rattle.ng_params.specs.Points.{point_at};
ghost use Rattle.ng_params.specs.Params.{at};
ghost use Rattle.ng_block.specs.Homes.{home_on, home_path};

use crate::motion::end_of;
use crate::path::{HomePath, Path, traverse};
use ng_modal::{Block, NonModal};
use ng_num::{Fault, Len, Point};
use ng_offsets::Offsets;
use ng_params::{Change, Index, Params};
use ng_state::ModalState;
use std::alloc::Allocator;

/// The length in a parameter, which holds millimetres.
fn length_after<A: Allocator + Copy + Drop>(
    params: &Params<A>,
    changes: &[Change],
    index: u16,
) -> Len
    requires low { 1 ≤ index }
    requires high { index ≤ parameter_count }
    ensures { result ≡ at (with_changes params.now changes.now) index }
{
    let millimetres = params.get_after(Index::known(index), changes);
    Len::of_nm(millimetres.count() as i128).unwrap()
}

/// The point in three parameters.
fn point_after<A: Allocator + Copy + Drop>(
    params: &Params<A>,
    changes: &[Change],
    first: u16,
) -> Point
    requires low { 1 ≤ first }
    requires high { first ≤ 5397 }
    ensures { result ≡ point_at (with_changes params.now changes.now) first }
{
    Point {
        x: length_after(params, changes, first),
        y: length_after(params, changes, first + 1),
        z: length_after(params, changes, first + 2),
    }
}

/// The home that a line goes to, in machine coordinates, with the table after its assignments.
pub(crate) fn home_on<A: Allocator + Copy + Drop>(
    word: Option<NonModal>,
    params: &Params<A>,
    assignments: &[Change],
) -> Option<Point>
    ensures { result ≡ home_on word (with_changes params.now assignments.now) }
{
    match word {
        Some(NonModal::Home) => Some(point_after(params, assignments, 5161)),
        Some(NonModal::SecondHome) => Some(point_after(params, assignments, 5181)),
        _ => None,
    }
}

/// The way to a home, through the point that a line's axis words name. The path is still if there is no home. E3 if a
/// coordinate of that point is out of range.
#[inline(never)]
pub(crate) fn home_path(
    block: &Block,
    modal: &ModalState,
    offsets: &Offsets,
    home: Option<Point>,
) -> Result<Path, Fault>
    ensures { result ≡ home_path block.now modal.now offsets.now home }
{
    let Some(home) = home else {
        return Ok(Path::Still);
    };
    let start = modal.point;
    if !block.values.has_axis() {
        return Ok(Path::Straight(traverse(start, home)));
    }
    let between = end_of(block, modal, offsets)?;
    Ok(Path::Homing(HomePath {
        start,
        between,
        home,
    }))
}
