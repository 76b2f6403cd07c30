//! What was handed out: its counts, and the point to which it leads.
use crate::job::moved_by;
use ng_canon::{AxisStep, Item, Outputs};
use ng_num::{Fault, Point};
use std::alloc::{AllocError, Global};

/// How many pulses and switches there are among items.
#[derive(Clone, Copy, Default)]
pub struct Counts {
    pub pulses: usize,
    pub switches: usize,
}

/// Counts items.
pub fn counts_of(items: &[Item]) -> Counts {
    let mut counts = Counts::default();
    for item in items {
        match item {
            Item::Pulse(_) => counts.pulses = counts.pulses.saturating_add(1),
            Item::Switch(_) => counts.switches = counts.switches.saturating_add(1),
            Item::Dwell { us: _ } => {}
        }
    }
    counts
}

/// A number of switches as text.
fn switches_text(alloc: Global, switches: usize) -> Result<String, AllocError> {
    match switches {
        1 => String::from_str(alloc, "1 switch"),
        _ => format!(in alloc; "{switches} switches"),
    }
}

impl Counts {
    /// The counts as text.
    pub fn text(&self, alloc: Global) -> Result<String, AllocError> {
        let pulses = self.pulses;
        let switches = switches_text(alloc, self.switches)?;
        match (self.switches, pulses) {
            (0, 0) => String::from_str(alloc, "nothing"),
            (0, _) => format!(in alloc; "{pulses} pulses"),
            (_, 0) => Ok(switches),
            _ => format!(in alloc; "{pulses} pulses, {switches}"),
        }
    }
}

/// What the last switch among items carries, if there is one.
pub fn last_switch(items: &[Item]) -> Option<Outputs> {
    let mut last = None;
    for item in items {
        if let Item::Switch(outputs) = item {
            last = Some(*outputs);
        }
    }
    last
}

/// The steps of an axis with one more.
fn with_step(steps: i64, step: AxisStep) -> i64 {
    match step {
        AxisStep::Backward => steps.saturating_sub(1),
        AxisStep::Still => steps,
        AxisStep::Forward => steps.saturating_add(1),
    }
}

/// The point to which the pulses among items lead.
pub fn led_to(from: Point, items: &[Item]) -> Result<Point, Fault> {
    let mut x = 0i64;
    let mut y = 0i64;
    let mut z = 0i64;
    for item in items {
        if let Item::Pulse(pulse) = item {
            x = with_step(x, pulse.x);
            y = with_step(y, pulse.y);
            z = with_step(z, pulse.z);
        }
    }
    moved_by(from, [x, y, z])
}
