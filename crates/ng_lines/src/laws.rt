//! What writing and reading promise together.
ghost use Rattle.std.specs.Prelude.{◌≡◌, ◌<◌, ◌^◌, Some, IfOk};
ghost use Rattle.ng_num.specs.Range.{IsCount};
ghost use Rattle.ng_lines.specs.Lines.{IsItem};

use crate::reading::read_item;
use crate::writing::push_item;
use ng_canon::Item;
use ng_num::Num;
use std::alloc::{AllocError, Allocator};

/// Called for its contract.
fn is_time(us: u64)
    ensures { us < 2 ^ 64 }
{
    let _us = us;
}

/// Called for its contract.
fn is_speed(speed: Num)
    ensures { IsCount speed }
{
    let _count = speed.count();
}

/// Called for its contract.
fn is_slot(slot: u8)
    ensures { slot < 2 ^ 8 }
{
    let _slot = slot;
}

/// Called for its contract: the numbers of an item are in the ranges of their types.
fn are_in_range(item: &Item)
    ensures { IsItem item.now }
{
    match *item {
        Item::Pulse(pulse) => is_time(pulse.period_us),
        Item::Dwell { us } => is_time(us),
        Item::Switch(outputs) => {
            is_speed(outputs.speed);
            is_slot(outputs.selected_slot);
            is_slot(outputs.spindle_slot);
        }
    }
}

/// Called for its contract: what is written of an item is read as that item, if there is memory for its line.
pub fn read_back<A: Allocator + Copy + Drop>(
    alloc: A,
    item: &Item,
) -> Result<Option<Item>, AllocError>
    ensures { IfOk result (λ read. read ≡ Some item.now) }
{
    are_in_range(item);
    let mut text = Vec::new(alloc);
    push_item(&mut text, *item)?;
    let line = text.as_slice();
    Ok(read_item(&line[..line.len() - 1]))
}
