//! A desk at work: how callers in threads share one controller.
//!
//! There is a machine over a device in memory, and two callers have a seat each at its desk. In one thread the ticker
//! moves the machine. In another the operator loads a program, starts it, asks for the status until a block is
//! half-done, and holds it. Then the desk is closed, and the history of everything that was given is run once more,
//! over a device like the first.
//!
//! The output is the same however the two threads take turns: the commands in the history, and the reply to a tick
//! after it.
#![tactic(auto)]

ghost use Rattle.std.specs.Prelude.{◌≡◌, IfOk, false};

mod callers;
mod shift;

use ng_core::{Controller, Event, Reply, Text, power_on};
use ng_desk::Call;
use ng_journal::format;
use ng_num::Fault;
use ng_rig::MemoryRig;
use ng_settings::Settings;
use shift::shift;
use std::alloc::Global;
use std::io;
use std::sync::Wait;
use std::thread::Threads;

/// One long move of 500,000 pulses: 500 mm, in steps of 1,000 nm.
const PROGRAM: &str = "G0 X500\nM2\n";

/// A new machine: a device in memory, formatted and powered on.
fn machine(alloc: Global) -> Result<Controller<MemoryRig<Global>, Global>, Fault>
    ensures { IfOk result (λ controller. controller.journal.broken ≡ false) }
{
    let mut rig = MemoryRig::new(alloc, 1_710)?;
    format(&mut rig)?;
    match power_on(alloc, rig, Settings::standard()) {
        Ok(controller) => Ok(controller),
        Err((fault, _rig)) => Err(fault),
    }
}

/// The history of a shift over a new machine, and the reply to a tick after it.
fn history<W: Threads + Wait + Sync>(
    rt: &W,
    alloc: Global,
) -> Result<(Vec<Call<Global>>, Reply), Fault> {
    let load = Event::Load(Text::of(Vec::from_slice(alloc, PROGRAM.as_bytes())?));
    let (mut controller, history) = shift(rt, alloc, machine(alloc)?, &load);
    let last = controller.on(Event::Tick);
    drop(controller.into_rig());
    Ok((history?, last))
}

/// Whether another new machine that is given the same events, in one thread, gives the same replies.
fn is_answered_alike(alloc: Global, history: Vec<Call<Global>>) -> Result<bool, Fault> {
    let mut events = Vec::new(alloc);
    let mut replies = Vec::new(alloc);
    for call in history {
        let Call {
            number: _,
            event,
            reply,
        } = call;
        events.push(event)?;
        replies.push(reply)?;
    }
    let mut controller = machine(alloc)?;
    let answers = controller.run(events.as_slice());
    drop(controller.into_rig());
    Ok(answers?.as_slice() == replies.as_slice())
}

/// The name of a command. `None` for statuses and ticks, which aren't printed.
fn told(call: &Call<Global>) -> Option<&'static str> {
    match &call.event {
        Event::Load(_) => Some("load"),
        Event::Start => Some("start"),
        Event::Hold => Some("hold"),
        _ => None,
    }
}

/// Prints the commands and their replies.
fn print_commands<W: Print>(rt: &W, history: &[Call<Global>]) -> io::Result<()> {
    for call in history {
        if let Some(name) = told(call) {
            println!(rt; "{name}: {:?}", call.reply)?;
        }
    }
    Ok(())
}

fn main(rt: HostRuntime) -> io::Result<()> {
    let (history, last) = match history(&rt, rt.alloc()) {
        Ok(found) => found,
        Err(fault) => return println!(rt; "refused: {fault:?}"),
    };
    print_commands(&rt, history.as_slice())?;
    println!(rt; "a tick after that: {last:?}")?;
    match is_answered_alike(rt.alloc(), history) {
        Ok(true) => println!(rt; "another machine answers the same events alike"),
        Ok(false) => println!(rt; "another machine answers otherwise"),
        Err(fault) => println!(rt; "refused: {fault:?}"),
    }
}
