//! A loss of power in the middle of a pocket, and how the program continues after it.
//!
//! The same program runs twice, each time on a new machine over a device in memory. The first run goes to the program's
//! end. In the second run power is lost while a line's segment is handed out. Another controller powers on over what is
//! left on the device, is told the machine's position, resumes, and runs to the end. Then the program compares what the
//! two runs handed out, and their states at the end.
//!
//! Each step is printed as it is done, with the answers that `ngc run` gives. The status is 1 if something isn't the
//! same.
#![tactic(auto)]

mod comparing;
mod counts;
mod cut;
mod job;
mod machine;
mod resumed;
mod run;
mod telling;
mod ticking;

use anyhow::Result;
use comparing::compare;
use cut::show_cut;
use machine::{Machine, device_of, formatted, powered, start};
use resumed::show_resume;
use run::{End, Run, finish};
use std::alloc::Global;
use std::process::ExitCode;

/// Loads the program, and runs it to its end.
fn start_and_finish(machine: &mut Machine, alloc: Global) -> Result<End> {
    start(machine, alloc)?;
    finish(machine, alloc)
}

/// Runs the program on a new machine without a loss of power.
fn run_whole(alloc: Global) -> Result<Run> {
    let mut machine = powered(alloc, formatted(alloc)?)?;
    let end = start_and_finish(&mut machine, alloc);
    let device = device_of(machine);
    Run::of(alloc, end?, device)
}

/// Runs the program without a loss of power, and prints each line.
fn show_whole<R: Print>(rt: &R, alloc: Global) -> Result<Run> {
    println!(rt; "First run, without a loss of power")?;
    let run = run_whole(alloc)?;
    run.tell(rt, alloc, run.items.as_slice())?;
    Ok(run)
}

/// Runs and prints everything. Returns whether both runs had the same outcome.
fn show<R: Print>(rt: &R, alloc: Global) -> Result<bool> {
    println!(rt;
        "A pocket of 24 by 12 mm is milled twice, the second time with a loss of power. One step is 0.01 mm.\n"
    )?;
    let whole = show_whole(rt, alloc)?;
    let cut = show_cut(rt, alloc, &whole)?;
    let resumed = show_resume(rt, alloc, &cut)?;
    compare(rt, alloc, &whole, &cut, &resumed)
}

fn main(rt: HostRuntime) -> Result<ExitCode> {
    let all_same = show(&rt, rt.alloc())?;
    Ok(if all_same {
        ExitCode::SUCCESS
    } else {
        ExitCode::FAILURE
    })
}
