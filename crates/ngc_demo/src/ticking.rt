//! Ticks, which do all the work: a tick begins a line, opens a segment, hands out an item, or commits an entry of what
//! is done.
use crate::machine::{Machine, give, status_of};
use anyhow::{Result, bail};
use ng_core::{Event, Reply};
use std::alloc::Global;

/// More ticks than any line of the program takes.
const MOST_TICKS: u32 = 10_000;

/// More lines than the program has.
const MOST_LINES: u32 = 100;

/// A finished line of the program.
#[derive(Clone, Copy)]
pub struct DoneLine {
    /// The byte of the program at which it begins.
    pub place: u64,
    /// How many items it handed out.
    pub items: usize,
}

/// Ticks until there is one more entry. Returns how many items were handed out for it. `None` if nothing was left to
/// do.
pub fn finish_entry(machine: &mut Machine) -> Result<Option<usize>> {
    let mut items = 0usize;
    for _tick in 0..MOST_TICKS {
        match give(machine, Event::Tick)? {
            Reply::Moved => items = items.saturating_add(1),
            Reply::Done(_) => return Ok(Some(items)),
            Reply::Idle => return Ok(None),
            _ => {}
        }
    }
    bail!("a line doesn't end")
}

/// Ticks until the program's end. Returns the lines that were finished.
pub fn finish_program(machine: &mut Machine, alloc: Global) -> Result<Vec<DoneLine>> {
    let mut lines = Vec::new(alloc);
    for _line in 0..MOST_LINES {
        let place = status_of(machine)?.place;
        match finish_entry(machine)? {
            Some(items) => lines.push(DoneLine { place, items })?,
            None => return Ok(lines),
        }
    }
    bail!("the program doesn't end")
}

/// Ticks until this many lines are finished.
pub fn finish_lines(machine: &mut Machine, lines: usize) -> Result<()> {
    for _line in 0..lines {
        if finish_entry(machine)?.is_none() {
            bail!("the program is over");
        }
    }
    Ok(())
}

/// Ticks until this many items are handed out.
pub fn hand_out(machine: &mut Machine, items: usize) -> Result<()> {
    let mut left = items;
    for _tick in 0..MOST_TICKS {
        if left == 0 {
            return Ok(());
        }
        match give(machine, Event::Tick)? {
            Reply::Moved => left -= 1,
            Reply::Done(_) | Reply::Idle => bail!("the line is over"),
            _ => {}
        }
    }
    bail!("the items don't come")
}
