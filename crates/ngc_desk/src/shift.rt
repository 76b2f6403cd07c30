//! A shift: a desk is made, each caller works in a thread of its own, and the desk is closed.
ghost use Rattle.std.specs.Prelude.{◌≡◌, Some, All, false, length};

use crate::callers::{operate, tick};
use ng_core::{Controller, Event};
use ng_desk::{Call, Desk, Origin, Seat};
use ng_num::Fault;
use ng_rig::Rig;
use std::alloc::Global;
use std::marker::Brand;
use std::sync::Wait;
use std::sync::ledger::Blank;
use std::thread;
use std::thread::Threads;

/// The ticker at the first seat and the operator at the second, each in a thread of its own. A caller stops if there is
/// no memory for a call.
fn work<R: Rig + Drop + Send, O: Origin<R> + Send + Sync, W: Threads + Wait + Sync>(
    rt: &W,
    desk: &Desk<R, Global, O>,
    seats: &mut [Seat<Global, O>],
    load: &Event<Global>,
)
    requires { All (λ s. s.parts ≡ 1) seats.old }
    ensures { All (λ s. s.parts ≡ 1) seats.new }
{
    thread::for_each_mut(
        rt,
        seats,
        2,
        &|index, seat: &mut Seat<Global, O>|
            requires { seat.old.parts ≡ 1 }
            ensures { seat.new.parts ≡ 1 }
        {
            let _ = if index == 0 {
                tick(rt, desk, seat)
            } else {
                operate(rt, desk, seat, load)
            };
        },
    );
}

/// A shift at a desk with two seats. Returns the controller, and the history of all calls. K6 if a caller's list
/// disagrees with the history, M1 if there is no memory for the seats.
///
/// The type `O` ties the desk to the controller that it is made of; `shift` chooses it.
fn shift_at<R: Rig + Drop + Send, O: Origin<R> + Send + Sync, W: Threads + Wait + Sync>(
    rt: &W,
    alloc: Global,
    blank: Blank,
    controller: Controller<R, Global>,
    load: &Event<Global>,
) -> (Controller<R, Global>, Result<Vec<Call<Global>>, Fault>)
    requires whole { controller.journal.broken ≡ false }
    requires start { O.start ≡ Some controller }
    requires name { blank.name ≡ O.name }
    requires parts { (blank.parts ≡ O.parts) × (2 ≡ O.parts) }
{
    let (desk, mut seats) = match Desk::<R, Global, O>::new(alloc, blank, controller, 2) {
        Ok(made) => made,
        Err((fault, controller)) => return (controller, Err(fault)),
    };
    work(rt, &desk, seats.as_mut_slice(), load);
    let (controller, history, _seats, agreed) = desk.close(seats);
    match agreed {
        Ok(()) => (controller, Ok(history)),
        Err(fault) => (controller, Err(fault)),
    }
}

/// A shift over any controller that isn't broken. Returns what `shift_at` returns.
pub fn shift<R: Rig + Drop + Send, W: Threads + Wait + Sync>(
    rt: &W,
    alloc: Global,
    controller: Controller<R, Global>,
    load: &Event<Global>,
) -> (Controller<R, Global>, Result<Vec<Call<Global>>, Fault>)
    requires { controller.journal.broken ≡ false }
{
    shift_at::<R, Brand, W>(rt, alloc, Blank::new(2), controller, load)
}
