//! Carrying out one order: what it gives the controller, and what is written in reply.
ghost use Rattle.ng_run.specs.Consoles.{AnswerSpec, TickOnSpec};

use ng_commands::continues_ticks;
use ng_core::{Controller, Event};
use ng_dialogue::{Order, OutputError, tell_refusal, tell_reply, tell_tick, tell_ticks};
use ng_rig::Rig;
use std::alloc::Allocator;
use std::io::Write;

/// Gives the controller what an order asks, and writes the answer. If the writer fails, a beginning of the answer is
/// written.
pub(crate) fn answer<W: Write, R: Rig, A: Allocator + Copy + Drop>(
    alloc: A,
    writer: &mut W,
    controller: &mut Controller<R, A>,
    order: Order<A>,
) -> Result<(), OutputError>
    ensures { AnswerSpec R.seen order result (W.contents writer.old) (W.contents writer.new) controller.old controller.new }
{
    match order {
        Order::Give(event) => {
            let reply = controller.on(event);
            tell_reply(alloc, writer, &reply)
        }
        Order::Ticks(most) => match tick_on(alloc, writer, controller, most) {
            Ok(made) => tell_ticks(alloc, writer, made),
            Err(fault) => Err(fault),
        },
        Order::Refuse(fault) => tell_refusal(alloc, writer, fault),
    }
}

/// Gives the controller ticks, at most this many, or until one ends them, and writes the line of each before the next.
/// Returns the number of ticks.
fn tick_on<W: Write, R: Rig, A: Allocator + Copy + Drop>(
    alloc: A,
    writer: &mut W,
    controller: &mut Controller<R, A>,
    most: u32,
) -> Result<u32, OutputError>
    ensures { TickOnSpec A R.seen most result (W.contents writer.old) (W.contents writer.new) controller.old controller.new }
{
    for made in 0..most {
        let reply = controller.on(Event::Tick);
        tell_tick(alloc, writer, &reply)?;
        if !continues_ticks(&reply) {
            return Ok(made + 1);
        }
    }
    Ok(most)
}
