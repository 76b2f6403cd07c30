//! The offsets that a line puts in force, in the order of its steps: tool length, coordinate system, axis data. None of
//! them moves the machine.
ghost use Rattle.std.specs.Prelude.{◌≡◌, ◌≤◌, length};
ghost use Rattle.std.specs.Option.{option_map};
ghost use Rattle.ng_params.specs.Change.{with_changes};
ghost use Rattle.ng_modal.specs.WholeNumbers.{IsSlot};
ghost use Rattle.ng_block.specs.ToolLength.{slot_by, offsets_after_length, length_shown};
ghost use Rattle.ng_block.specs.AxisData.{offsets_after, offsets_shown, with_system};
ghost use Rattle.ng_block.specs.Shifts.{shift_of, keeps_offsets};

use crate::axis_data::axis_data_of;
use ng_modal::{Block, ToolLength};
use ng_num::{Fault, Len, Point};
use ng_offsets::{NewOffsets, Offsets, Tools};
use ng_params::{Change, Params, System};
use ng_state::ModalState;
use std::alloc::Allocator;

/// What the steps of a line print of the offsets. `None` if a step leaves them unchanged.
#[derive(Clone, Copy)]
pub(crate) struct Shown {
    /// The tool length after G43 or G49.
    pub tool_length: Option<Len>,
    /// Origin plus G92 offset after G54 to G59.3.
    pub system: Option<Point>,
    /// Origin plus G92 offset after G92 to G92.3, and after G10 of the system in force.
    pub axis_data: Option<Point>,
}

impl Shown {
    ghost use Rattle.ng_block.specs.Shifts.{nothing_shown};

    /// Nothing printed.
    pub fn nothing() -> Shown
        ensures { result ≡ nothing_shown }
    {
        Shown {
            tool_length: None,
            system: None,
            axis_data: None,
        }
    }
}

/// The offsets after a line's words.
#[derive(Clone, Copy)]
pub(crate) struct Shifted {
    pub offsets: Offsets,
    pub shown: Shown,
    /// The changes of parameters that its axis data make.
    pub stored: Option<[Change; 3]>,
}

/// Whether no word of a line changes an offset or stores one.
#[inline]
pub(crate) fn keeps_offsets(block: &Block) -> bool
    ensures { result ≡ keeps_offsets block.now }
{
    let words = &block.g;
    !(words.tool_length.is_some() | words.system.is_some() | words.non_modal.is_some())
}

/// The slot whose length a word takes.
fn slot_by(word: ToolLength, block: &Block) -> u8
    ensures { result ≡ slot_by word block.now.values.h }
{
    match word {
        ToolLength::OfSlot => block.length_slot().unwrap_or(0),
        ToolLength::Zero => 0,
    }
}

/// The offsets after the tool length of a line.
fn offsets_after_length(block: &Block, tools: &Tools, offsets: &Offsets) -> Offsets
    requires { IsSlot block.now.values.h (length tools.now) }
    ensures { result ≡ offsets_after_length block.now.g.tool_length block.now.values.h tools.now offsets.now }
{
    match block.g.tool_length {
        None => *offsets,
        Some(word) => offsets.tool_length(slot_by(word, block), tools),
    }
}

/// What the word of a tool length prints.
fn length_shown(word: Option<ToolLength>, after: &Offsets) -> Option<Len>
    ensures { result ≡ length_shown word after.now }
{
    match word {
        None => None,
        Some(_) => Some(after.tool_length),
    }
}

/// The offsets after a step that may change them.
fn offsets_after(new: &Option<NewOffsets>, offsets: Offsets) -> Offsets
    ensures { result ≡ offsets_after new.now offsets }
{
    match new {
        None => offsets,
        Some(new) => new.offsets,
    }
}

/// What a step prints of the offsets.
fn offsets_shown(new: &Option<NewOffsets>) -> Option<Point>
    ensures { result ≡ offsets_shown new.now }
{
    match new {
        None => None,
        Some(new) => Some(new.shown),
    }
}

/// The offsets that G54 to G59.3 give.
fn with_system<A: Allocator + Copy + Drop>(
    system: Option<System>,
    offsets: &Offsets,
    params: &Params<A>,
    assignments: &[Change],
) -> Result<Option<NewOffsets>, Fault>
    ensures { result ≡ with_system system offsets.now (with_changes params.now assignments.now) }
{
    match system {
        None => Ok(None),
        Some(system) => {
            let selected = offsets.select(system, params, assignments)?;
            Ok(Some(selected.0))
        }
    }
}

/// The offsets after a line's words, with the table after its assignments. E3 if one of them, or a sum that is printed,
/// is out of range.
#[inline(never)]
pub(crate) fn shift_of<A: Allocator + Copy + Drop>(
    block: &Block,
    modal: &ModalState,
    params: &Params<A>,
    assignments: &[Change],
    tools: &Tools,
) -> Result<Shifted, Fault>
    requires { IsSlot block.now.values.h (length tools.now) }
    ensures { result ≡ shift_of block.now modal.now (with_changes params.now assignments.now) tools.now }
{
    let lengthened = offsets_after_length(block, tools, &modal.offsets);
    let system = with_system(block.g.system, &lengthened, params, assignments)?;
    let placed = offsets_after(&system, lengthened);
    let data = axis_data_of(block, modal, &placed, params, assignments)?;
    Ok(Shifted {
        offsets: offsets_after(&data.new, placed),
        shown: Shown {
            tool_length: length_shown(block.g.tool_length, &lengthened),
            system: offsets_shown(&system),
            axis_data: offsets_shown(&data.new),
        },
        stored: data.stored,
    })
}
