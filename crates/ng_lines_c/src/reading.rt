//! A line of OUT, as C is told of it.
ghost use Rattle.std.specs.Prelude.{◌≡◌, ◌++◌, IsTrue, IsFalse, codes};
ghost use Rattle.ng_canon.specs.declared.item.Item.{Item};
ghost use Rattle.ng_lines.specs.Lines.{IsItem, item_line};
ghost use Rattle.ng_lines_c.specs.Reading.{IsLine, blank, spindle_number, step_number, told};

use ng_canon::{AxisStep, Item, Outputs, Spindle};
use ng_lines::read_item;

/// A line of OUT: its letter, P, D or S; the steps of P; the microseconds of P and D; the outputs of S, the speed in
/// millionths.
#[repr(C)]
#[derive(Clone, Copy, Debug)]
pub struct OutLine {
    pub us: u64,
    pub speed: i64,
    pub letter: u32,
    pub x: i32,
    pub y: i32,
    pub z: i32,
    pub spindle: u32,
    pub selected: u32,
    pub slot: u32,
    pub mist: bool,
    pub flood: bool,
}

/// A step of an axis.
fn step_in(step: AxisStep) -> i32
    ensures { result ≡ step_number step }
{
    match step {
        AxisStep::Backward => -1,
        AxisStep::Still => 0,
        AxisStep::Forward => 1,
    }
}

fn spindle_in(spindle: Spindle) -> u32
    ensures { result ≡ spindle_number spindle }
{
    match spindle {
        Spindle::Stopped => 0,
        Spindle::Clockwise => 1,
        Spindle::Counterclockwise => 2,
    }
}

/// A line with nothing in it.
fn blank(letter: u32) -> OutLine
    ensures { result ≡ blank letter }
{
    OutLine {
        us: 0,
        speed: 0,
        letter,
        x: 0,
        y: 0,
        z: 0,
        spindle: 0,
        selected: 0,
        slot: 0,
        mist: false,
        flood: false,
    }
}

/// What C is told of an item.
fn told(item: Item) -> OutLine
    ensures { result ≡ told item }
{
    match item {
        Item::Pulse(pulse) => OutLine {
            us: pulse.period_us,
            x: step_in(pulse.x),
            y: step_in(pulse.y),
            z: step_in(pulse.z),
            ..blank(80)
        },
        Item::Dwell { us } => OutLine { us, ..blank(68) },
        Item::Switch(outputs) => OutLine {
            speed: outputs.speed.count(),
            spindle: spindle_in(outputs.spindle),
            selected: u32::from(outputs.selected_slot),
            slot: u32::from(outputs.spindle_slot),
            mist: outputs.mist,
            flood: outputs.flood,
            ..blank(83)
        },
    }
}

/// Reads a line without its newline; false, with nothing told, exactly if it is that of no item.
#[unsafe(no_mangle)]
pub extern "C" fn ng_line_read(text: &[u8], line: &mut OutLine) -> bool
    ensures read { IsTrue result → IsLine text.now line.new }
    ensures no { IsFalse result → (item : Item) → IsItem item → ¬ (item_line item ≡ text.now ++ codes "\n") }
    ensures same { IsFalse result → line.new ≡ line.old }
{
    match read_item(text) {
        Some(item) => {
            *line = told(item);
            true
        }
        None => false,
    }
}
