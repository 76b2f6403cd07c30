//! A run of the program to its end.
use crate::machine::{Device, Machine, handed_out, status_of, stored_on};
use crate::telling::{tell_items, tell_lines, tell_status};
use crate::ticking::{DoneLine, finish_program};
use anyhow::Result;
use ng_canon::Item;
use ng_core::Status;
use ng_layout::Stored;
use std::alloc::Global;

/// The state of a machine that ran its program to the end.
#[derive(Drop)]
pub struct End {
    pub lines: Vec<DoneLine>,
    pub status: Status,
}

/// Runs a machine's program to the end.
pub fn finish(machine: &mut Machine, alloc: Global) -> Result<End> {
    Ok(End {
        lines: finish_program(machine, alloc)?,
        status: status_of(machine)?,
    })
}

/// What a machine did from its power on to the program's end.
#[derive(Drop)]
pub struct Run {
    /// The lines that it finished.
    pub lines: Vec<DoneLine>,
    /// Everything that was handed out.
    pub items: Vec<Item>,
    pub status: Status,
    /// What the device holds at the end.
    pub stored: Stored<Global>,
}

impl Run {
    /// The run that ended so, over this device.
    pub fn of(alloc: Global, end: End, device: Device) -> Result<Run> {
        let End { lines, status } = end;
        Ok(Run {
            lines,
            items: handed_out(&device)?,
            status,
            stored: stored_on(alloc, device)?,
        })
    }

    /// Prints its lines and its end. The items are those that its lines handed out.
    pub fn tell<R: Print>(&self, rt: &R, alloc: Global, items: &[Item]) -> Result<()> {
        tell_lines(rt, alloc, self.lines.as_slice(), items)?;
        tell_items(rt, alloc, "all", self.items.as_slice())?;
        tell_status(rt, alloc, &self.status)
    }
}
