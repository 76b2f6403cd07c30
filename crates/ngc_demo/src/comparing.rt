//! Comparing both runs: what they handed out, and the states at their ends.
use crate::counts::{counts_of, last_switch, led_to};
use crate::cut::Cut;
use crate::job::{line_at, pulses_between};
use crate::machine::granted;
use crate::resumed::Resumed;
use crate::run::Run;
use crate::telling::{number_text, point_text, value_text};
use anyhow::{Context, Result};
use ng_canon::{Item, Outputs, Spindle};
use ng_core::Status;
use ng_num::Point;
use ng_params::{PARAMETER_COUNT, difference_count};
use std::alloc::Global;

/// Prints whether something is the same in both runs, and returns that.
fn tell<R: Print>(rt: &R, is_same: bool, what: &str) -> Result<bool> {
    let verdict = if is_same { "the same" } else { "NOT THE SAME" };
    println!(rt; "  {verdict}: {what}")?;
    Ok(is_same)
}

/// What a run without a cut handed out, split into the items of the lines before a place and the rest.
fn split_before(whole: &Run, place: u64) -> (&[Item], &[Item]) {
    let mut before = 0usize;
    for line in &whole.lines {
        if line.place < place {
            before = before.saturating_add(line.items);
        }
    }
    let items = whole.items.as_slice();
    items.split_at(before.min(items.len()))
}

/// Compares all that was handed out, item by item.
fn compare_items<R: Print>(
    rt: &R,
    alloc: Global,
    whole: &Run,
    cut: &Cut,
    resumed: &Resumed,
) -> Result<bool> {
    let first = whole.items.get(..cut.items.len());
    let is_before = first == Some(cut.items.as_slice());
    let before = tell(
        rt,
        is_before,
        "what came before the loss, and the beginning of the first run",
    )?;
    let (_, wanted) = split_before(whole, resumed.found.place);
    let (_, found) = resumed.parts();
    let number = line_at(resumed.found.place)?.number;
    let what = format!(in alloc;
        "what came after the way back, and the first run from line {number} on"
    )?;
    let after = tell(rt, wanted == found, what.as_str())?;
    Ok(before && after)
}

/// The name of a way in which the spindle turns.
fn spindle_text(spindle: Spindle) -> &'static str {
    match spindle {
        Spindle::Stopped => "stopped",
        Spindle::Clockwise => "clockwise",
        Spindle::Counterclockwise => "counterclockwise",
    }
}

/// The outputs as text.
fn outputs_text(alloc: Global, outputs: &Outputs) -> Result<String> {
    let spinning = spindle_text(outputs.spindle);
    let speed = number_text(alloc, outputs.speed)?;
    Ok(format!(in alloc; "spindle {spinning}, speed {speed}")?)
}

/// Compares the switch at the start of the way back with the last one before the loss of power.
fn compare_outputs<R: Print>(rt: &R, alloc: Global, cut: &Cut, resumed: &Resumed) -> Result<bool> {
    let wanted = last_switch(cut.items.as_slice()).context("nothing was switched on")?;
    let spindle = outputs_text(alloc, &wanted)?;
    let (back, _) = resumed.parts();
    let is_first = back.first() == Some(&Item::Switch(wanted));
    let what = format!(in alloc;
        "the switch of the way back, and the last one before the loss: {spindle}"
    )?;
    tell(rt, is_first, what.as_str())
}

/// Compares the number of pulses with that of the first run, plus the pulses of the segment that are repeated and those
/// of the way back.
fn compare_counts<R: Print>(
    rt: &R,
    alloc: Global,
    whole: &Run,
    cut: &Cut,
    resumed: &Resumed,
) -> Result<bool> {
    let (done, _) = split_before(whole, resumed.found.place);
    let open = cut.items.get(done.len()..).unwrap_or_default();
    let first = counts_of(whole.items.as_slice()).pulses;
    let twice = counts_of(open).pulses;
    let back = pulses_between(resumed.stands, resumed.found.point) as usize;
    let before = counts_of(cut.items.as_slice()).pulses;
    let after = counts_of(resumed.run.items.as_slice()).pulses;
    let wanted = first.saturating_add(twice).saturating_add(back);
    let found = before.saturating_add(after);
    let what = format!(in alloc;
        "{before} + {after} pulses, and {first} + {twice} that came twice + {back} of the way back"
    )?;
    tell(rt, wanted == found, what.as_str())
}

/// Whether the pulses of a run lead from a point to the machine's position in its status.
fn leads_to_its_end(from: Point, run: &Run) -> Result<bool> {
    let point = granted(led_to(from, run.items.as_slice()))?;
    Ok(run.status.point_known && run.status.point == point)
}

/// Compares the machine's position, both from what was handed out and from the status.
fn compare_points<R: Print>(rt: &R, alloc: Global, whole: &Run, resumed: &Resumed) -> Result<bool> {
    let is_led = leads_to_its_end(Point::zero(), whole)?;
    let is_led_back = leads_to_its_end(resumed.stands, &resumed.run)?;
    let is_same = whole.status.point == resumed.run.status.point;
    let point = point_text(alloc, resumed.run.status.point)?;
    let what = format!(in alloc;
        "where both machines stand, and where the pulses of each lead: {point}"
    )?;
    tell(rt, is_led && is_led_back && is_same, what.as_str())
}

/// A status without the number of entries.
fn without_entries(status: &Status) -> Status {
    Status {
        entries: 0,
        ..*status
    }
}

/// Compares the statuses. The reference and the way back add two entries.
fn compare_statuses<R: Print>(
    rt: &R,
    alloc: Global,
    whole: &Run,
    resumed: &Resumed,
) -> Result<bool> {
    let first = whole.status.entries;
    let entries = resumed.run.status.entries;
    let is_same = without_entries(&whole.status) == without_entries(&resumed.run.status);
    let what = format!(in alloc;
        "both statuses; the {entries} entries are {first}, the reference and the way back"
    )?;
    tell(
        rt,
        is_same && entries == first.saturating_add(2),
        what.as_str(),
    )
}

/// Compares what the devices hold: the parameters, and everything else that the language keeps.
fn compare_states<R: Print>(rt: &R, alloc: Global, whole: &Run, resumed: &Resumed) -> Result<bool> {
    let first = &whole.stored.state;
    let state = &resumed.run.stored.state;
    let modes = tell(
        rt,
        first.modal == state.modal,
        "modes, offsets, feed and outputs at the end",
    )?;
    let differ = difference_count(&first.params, &state.params);
    let depth = value_text(alloc, &state.params, 1)?;
    let sides = value_text(alloc, &state.params, 2)?;
    let what = format!(in alloc;
        "all {PARAMETER_COUNT} parameters; #1 is {depth}, and #2, the count of sides, {sides}"
    )?;
    let params = tell(rt, differ == 0, what.as_str())?;
    Ok(modes && params)
}

/// Compares both runs, and prints each verdict. Returns whether everything is the same.
pub fn compare<R: Print>(
    rt: &R,
    alloc: Global,
    whole: &Run,
    cut: &Cut,
    resumed: &Resumed,
) -> Result<bool> {
    println!(rt; "\nBoth runs compared")?;
    let items = compare_items(rt, alloc, whole, cut, resumed)?;
    let outputs = compare_outputs(rt, alloc, cut, resumed)?;
    let counts = compare_counts(rt, alloc, whole, cut, resumed)?;
    let points = compare_points(rt, alloc, whole, resumed)?;
    let statuses = compare_statuses(rt, alloc, whole, resumed)?;
    let states = compare_states(rt, alloc, whole, resumed)?;
    Ok(items && outputs && counts && points && statuses && states)
}
