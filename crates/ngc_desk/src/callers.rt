//! What each caller does at its seat.
ghost use Rattle.std.specs.Prelude.{◌≡◌};

use ng_core::{Event, Reply};
use ng_desk::{Desk, Origin, Seat};
use ng_num::Fault;
use ng_rig::Rig;
use std::alloc::Global;
use std::sync::Wait;
use std::thread;

/// How often a caller asks or ticks at most. It is fewer than the program's pulses.
const MOST_CALLS: u32 = 400_000;

/// Ticks until the machine is held. M1 if there is no memory.
pub fn tick<R: Rig, O: Origin<R>, W: Wait>(
    rt: &W,
    desk: &Desk<R, Global, O>,
    seat: &mut Seat<Global, O>,
) -> Result<(), Fault>
    requires { seat.old.parts ≡ 1 }
    ensures { seat.new.parts ≡ 1 }
{
    for _tick in 0..MOST_CALLS {
        if desk.call(rt, seat, &Event::Tick)? == Reply::Held {
            return Ok(());
        }
        thread::yield_now();
    }
    Ok(())
}

/// Loads a program, starts it, and holds it once a block is half-done. M1 if there is no memory.
pub fn operate<R: Rig, O: Origin<R>, W: Wait>(
    rt: &W,
    desk: &Desk<R, Global, O>,
    seat: &mut Seat<Global, O>,
    load: &Event<Global>,
) -> Result<(), Fault>
    requires { seat.old.parts ≡ 1 }
    ensures { seat.new.parts ≡ 1 }
{
    desk.call(rt, seat, load)?;
    desk.call(rt, seat, &Event::Start)?;
    watch(rt, desk, seat)?;
    desk.call(rt, seat, &Event::Hold)?;
    Ok(())
}

/// Asks for the status until a block is half-done.
fn watch<R: Rig, O: Origin<R>, W: Wait>(
    rt: &W,
    desk: &Desk<R, Global, O>,
    seat: &mut Seat<Global, O>,
) -> Result<(), Fault>
    requires { seat.old.parts ≡ 1 }
    ensures { seat.new.parts ≡ 1 }
{
    for _look in 0..MOST_CALLS {
        if is_half_done(desk.call(rt, seat, &Event::Status)?) {
            return Ok(());
        }
        thread::yield_now();
    }
    Ok(())
}

/// Whether a reply is a status that shows a half-done block.
fn is_half_done(reply: Reply) -> bool {
    match reply {
        Reply::Status(status) => status.half.is_some(),
        _ => false,
    }
}
