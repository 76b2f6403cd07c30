//! The run that a loss of power cuts off.
use crate::counts::{counts_of, led_to};
use crate::machine::{
    Device, Machine, device_of, formatted, granted, handed_out, left_of, powered, start,
};
use crate::run::Run;
use crate::telling::point_text;
use crate::ticking::{finish_lines, hand_out};
use anyhow::{Context, Result};
use ng_canon::Item;
use ng_num::Point;
use std::alloc::Global;

/// How many lines are finished before the cut.
const LINES_BEFORE: usize = 6;

/// How many items of the next line are handed out before the cut.
const ITEMS_BEFORE: usize = 600;

/// What the loss of power left.
#[derive(Drop)]
pub struct Cut {
    pub device: Device,
    /// Everything that was handed out before.
    pub items: Vec<Item>,
    /// The point to which that led, which is the machine's position.
    pub point: Point,
}

/// Prints how much of the line under way was handed out, and how much the run without a cut hands out for it.
fn tell_line<R: Print>(rt: &R, whole: &Run) -> Result<()> {
    let line = whole.lines.get(LINES_BEFORE).context("no line is left")?;
    let number = LINES_BEFORE + 1;
    let all = line.items;
    println!(rt;
        "  lines 1 to {LINES_BEFORE} are done, and {ITEMS_BEFORE} of the {all} pulses of line {number} are handed out: power is lost"
    )?;
    Ok(())
}

/// Runs the program up to the cut.
fn run_to_cut(machine: &mut Machine, alloc: Global) -> Result<()> {
    start(machine, alloc)?;
    finish_lines(machine, LINES_BEFORE)?;
    hand_out(machine, ITEMS_BEFORE)
}

/// The device of a machine that ran up to the cut.
fn device_at_cut(alloc: Global) -> Result<Device> {
    let mut machine = powered(alloc, formatted(alloc)?)?;
    let came = run_to_cut(&mut machine, alloc);
    let device = device_of(machine);
    came?;
    Ok(device)
}

/// Runs the program on a new machine up to the cut, and prints what was handed out.
pub fn show_cut<R: Print>(rt: &R, alloc: Global, whole: &Run) -> Result<Cut> {
    println!(rt; "\nSecond run, with a loss of power")?;
    let device = device_at_cut(alloc)?;
    let items = handed_out(&device)?;
    let point = granted(led_to(Point::zero(), items.as_slice()))?;
    tell_line(rt, whole)?;
    let counts = counts_of(items.as_slice()).text(alloc)?;
    let place = point_text(alloc, point)?;
    println!(rt; "  handed out until then: {counts}, which led to {place}")?;
    Ok(Cut {
        device: left_of(&device)?,
        items,
        point,
    })
}
