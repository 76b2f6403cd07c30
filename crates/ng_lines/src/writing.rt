//! Writing the line of an item.
ghost use Rattle.std.specs.Prelude.{◌≡◌, ◌++◌, ◌∷◌, OnOk};
ghost use Rattle.std.specs.Fmt.{decimal};
ghost use Rattle.ng_lines.specs.Lines.{item_line, slots_text, spindle_text, switch_line, truth_digit, spinning_text};

use crate::pulses::{push_numbered_pulse, push_pulse};
use ng_canon::{Item, Outputs, Spindle};
use ng_num::{print_number, print_whole};
use std::alloc::{AllocError, Allocator};

fn spindle_text(spindle: Spindle) -> &'static [u8]
    ensures { result.now ≡ spindle_text spindle }
{
    match spindle {
        Spindle::Stopped => b"0",
        Spindle::Clockwise => b"1",
        Spindle::Counterclockwise => b"2",
    }
}

fn truth_digit(truth: bool) -> u8
    ensures { result ≡ truth_digit truth }
{
    if truth { b'1' } else { b'0' }
}

/// Appends the line of a dwell.
fn push_dwell<A: Allocator + Copy + Drop>(text: &mut Vec<u8, A>, us: u64) -> Result<(), AllocError>
    ensures { OnOk result (text.new.items ≡ text.old.items ++ item_line (Item.Dwell us)) }
{
    text.extend_from_slice(b"D ")?;
    print_whole(text, us)?;
    text.extend_from_slice(b"\n")
}

/// Appends the spindle and the coolant, and the blank after them.
fn push_spinning<A: Allocator + Copy + Drop>(
    text: &mut Vec<u8, A>,
    outputs: &Outputs,
) -> Result<(), AllocError>
    ensures { OnOk result (text.new.items ≡ text.old.items ++ spinning_text outputs.now) }
{
    text.extend_from_slice(spindle_text(outputs.spindle))?;
    text.extend_from_slice(b" ")?;
    print_number(text, outputs.speed, [b' ', truth_digit(outputs.mist)])?;
    text.extend_from_slice(&[b' ', truth_digit(outputs.flood), b' '])
}

/// Appends the slots.
fn push_slots<A: Allocator + Copy + Drop>(
    text: &mut Vec<u8, A>,
    outputs: &Outputs,
) -> Result<(), AllocError>
    ensures { OnOk result (text.new.items ≡ text.old.items ++ slots_text outputs.now) }
{
    print_whole(text, outputs.selected_slot as u64)?;
    text.extend_from_slice(b" ")?;
    print_whole(text, outputs.spindle_slot as u64)
}

/// Appends the line of all outputs.
fn push_switch<A: Allocator + Copy + Drop>(
    text: &mut Vec<u8, A>,
    outputs: Outputs,
) -> Result<(), AllocError>
    ensures { OnOk result (text.new.items ≡ text.old.items ++ switch_line outputs) }
{
    text.extend_from_slice(b"S ")?;
    push_spinning(text, &outputs)?;
    push_slots(text, &outputs)?;
    text.extend_from_slice(b"\n")
}

/// Appends the line of an item: `P x y z period`, `D microseconds` or `S spindle speed mist flood selected slot`. After
/// an error part of it may have been appended. Source: own.
pub fn push_item<A: Allocator + Copy + Drop>(
    text: &mut Vec<u8, A>,
    item: Item,
) -> Result<(), AllocError>
    ensures { OnOk result (text.new.items ≡ text.old.items ++ item_line item) }
{
    match item {
        Item::Pulse(pulse) => push_pulse(text, &pulse),
        Item::Dwell { us } => push_dwell(text, us),
        Item::Switch(outputs) => push_switch(text, outputs),
    }
}

/// Appends a number, a blank and the line of an item, as a pacer's time of it. After an error part of it may have been
/// appended. Source: own.
#[inline(always)]
pub fn push_numbered<A: Allocator + Copy + Drop>(
    text: &mut Vec<u8, A>,
    number: u64,
    item: Item,
) -> Result<(), AllocError>
    ensures { OnOk result (text.new.items ≡ text.old.items ++ (decimal number ++ 32 ∷ item_line item)) }
{
    match item {
        Item::Pulse(pulse) => push_numbered_pulse(text, number, &pulse),
        Item::Dwell { us: _ } => push_number_and_item(text, number, item),
        Item::Switch(_) => push_number_and_item(text, number, item),
    }
}

/// The same, part by part.
#[inline(never)]
fn push_number_and_item<A: Allocator + Copy + Drop>(
    text: &mut Vec<u8, A>,
    number: u64,
    item: Item,
) -> Result<(), AllocError>
    ensures { OnOk result (text.new.items ≡ text.old.items ++ (decimal number ++ 32 ∷ item_line item)) }
{
    print_whole(text, number)?;
    text.extend_from_slice(b" ")?;
    push_item(text, item)
}
