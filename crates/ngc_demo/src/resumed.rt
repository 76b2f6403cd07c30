//! The run that continues after power came back.
use crate::cut::Cut;
use crate::job::{line_at, pulses_between};
use crate::machine::{
    Device, Machine, ask, device_of, give, granted, left_of, powered, status_of, stored_on,
};
use crate::run::{End, Run, finish};
use crate::telling::{point_text, tell_answer, tell_items, tell_status};
use crate::ticking::finish_entry;
use anyhow::{Context, Result};
use ng_canon::Item;
use ng_core::{Event, Status};
use ng_num::{Len, Point};
use std::alloc::Global;

/// How far the operator lifts the tool, by hand, straight out of the work.
const LIFT_MM: i64 = 15;

/// What was done after power came back.
#[derive(Drop)]
pub struct Resumed {
    /// The status right after power on.
    pub found: Status,
    /// The machine's position, as the operator entered it.
    pub stands: Point,
    /// How many of the items are those of the way back.
    pub way_back: usize,
    pub run: Run,
}

impl Resumed {
    /// What was handed out on the way back, and what came after it.
    pub fn parts(&self) -> (&[Item], &[Item]) {
        let items = self.run.items.as_slice();
        items.split_at(self.way_back.min(items.len()))
    }
}

/// Prints which block the device shows as half-done.
fn tell_half<R: Print>(rt: &R, alloc: Global, device: Device, found: &Status) -> Result<()> {
    let half = stored_on(alloc, device)?.half;
    let half = half.context("no block is half-done")?;
    let text = std::str::from_utf8(half.text.as_slice())?;
    let number = line_at(found.place)?.number;
    let index = half.index;
    println!(rt;
        "  line {number}, \"{text}\", is half-done: its segment {index} was open, which begins at that point"
    )?;
    Ok(())
}

/// Lifts the tool, by hand, and tells the controller the machine's position.
fn refer<R: Print>(rt: &R, alloc: Global, machine: &mut Machine, cut: &Cut) -> Result<Point> {
    let lift = granted(Len::of_nm(i128::from(LIFT_MM) * 1_000_000))?;
    let stands = Point {
        z: granted(cut.point.z.add(lift))?,
        ..cut.point
    };
    let reply = give(machine, Event::Reference(stands))?;
    let point = point_text(alloc, stands)?;
    println!(rt; "  the operator lifts the tool by {LIFT_MM} mm, and tells where it stands:")?;
    let command = format!(in alloc; "reference {point}")?;
    tell_answer(rt, alloc, command.as_str(), &reply)?;
    Ok(stands)
}

/// Prints what a resume will do: how the machine goes back to the start of the segment.
fn tell_way<R: Print>(rt: &R, from: Point, found: &Status) -> Result<()> {
    let pulses = pulses_between(from, found.point);
    let number = line_at(found.place)?.number;
    println!(rt;
        "  so resume is to switch the spindle on, go straight back in {pulses} pulses, and do line {number} again"
    )?;
    Ok(())
}

/// Resumes the half-done block. Returns how many items the way back handed out.
fn resume<R: Print>(rt: &R, alloc: Global, machine: &mut Machine) -> Result<usize> {
    let reply = give(machine, Event::Resume)?;
    tell_answer(rt, alloc, "resume", &reply)?;
    finish_entry(machine)?.context("nothing goes on")
}

/// What was done after power came back, except what the device says of it.
#[derive(Drop)]
struct GoneOn {
    found: Status,
    stands: Point,
    way_back: usize,
    end: End,
}

/// Continues from what the cut left, up to the program's end.
fn go_on<R: Print>(rt: &R, alloc: Global, machine: &mut Machine, cut: &Cut) -> Result<GoneOn> {
    let found = status_of(machine)?;
    tell_status(rt, alloc, &found)?;
    tell_half(rt, alloc, left_of(&cut.device)?, &found)?;
    let refused = ask(machine, Event::Resume);
    tell_answer(rt, alloc, "resume", &refused)?;
    let stands = refer(rt, alloc, machine, cut)?;
    tell_way(rt, stands, &found)?;
    Ok(GoneOn {
        found,
        stands,
        way_back: resume(rt, alloc, machine)?,
        end: finish(machine, alloc)?,
    })
}

/// Powers on over what the cut left, and prints how the program continues.
pub fn show_resume<R: Print>(rt: &R, alloc: Global, cut: &Cut) -> Result<Resumed> {
    println!(rt; "\nPower comes back")?;
    let mut machine = powered(alloc, left_of(&cut.device)?)?;
    let gone_on = go_on(rt, alloc, &mut machine, cut);
    let device = device_of(machine);
    let GoneOn {
        found,
        stands,
        way_back,
        end,
    } = gone_on?;
    let resumed = Resumed {
        found,
        stands,
        way_back,
        run: Run::of(alloc, end, device)?,
    };
    let (back, after) = resumed.parts();
    tell_items(rt, alloc, "way back", back)?;
    resumed.run.tell(rt, alloc, after)?;
    Ok(resumed)
}
