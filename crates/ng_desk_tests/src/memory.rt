//! Too little memory at a desk: for its seats, or for a call.
ghost use Rattle.std.specs.Prelude.{◌≡◌, ◌≤◌, Some, false};

use crate::devices::started;
use linked_list_allocator::LocalHeap;
use ng_core::{Controller, Event, Reply, Text};
use ng_desk::{Desk, Origin};
use ng_num::Fault;
use ng_rig::{MemoryRig, Rig};
use std::alloc::{Allocator, Global};
use std::marker::Brand;
use std::sync::Wait;
use std::sync::ledger::Blank;
use std::test::Fail;

/// How many seats the desk has.
const SEATS: usize = 64;

/// The reply to the only call at a desk, how many calls its seat had then, and how many the history.
type Called = (Result<Reply, Fault>, usize, usize);

/// What happened at a desk when memory is short.
#[derive(Clone, Copy, Debug, PartialEq, Eq)]
enum Outcome {
    /// There was no memory for its seats.
    NoDesk,
    /// There was no memory for the call, which neither the seat nor the history has.
    NoCall,
    /// The call was made, and there was no memory for the program in the controller.
    NoProgram,
    /// The call was made, and the program was loaded.
    Loaded,
}

/// Makes a desk, gives an event from its last seat, and closes it. Returns the controller, and the reply or the reason
/// why there was no desk.
fn call_once<R: Rig, A: Allocator + Copy + Drop, O: Origin<R>, W: Wait>(
    rt: &W,
    alloc: A,
    blank: Blank,
    controller: Controller<R, A>,
    event: &Event<A>,
) -> (Controller<R, A>, Result<Called, Fault>)
    requires whole { controller.journal.broken ≡ false }
    requires start { O.start ≡ Some controller }
    requires name { blank.name ≡ O.name }
    requires parts { (blank.parts ≡ O.parts) × (64 ≡ O.parts) }
{
    let (desk, mut seats) = match Desk::<R, A, O>::new(alloc, blank, controller, SEATS) {
        Ok(made) => made,
        Err((fault, controller)) => return (controller, Err(fault)),
    };
    let Some(mut seat) = seats.pop() else {
        unreachable!()
    };
    let reply = desk.call(rt, &mut seat, event);
    let calls = seat.calls().len();
    seats.push_reserved(seat);
    let (controller, history, _, agreed) = desk.close(seats);
    match agreed {
        Ok(()) => (controller, Ok((reply, calls, history.len()))),
        Err(fault) => (controller, Err(fault)),
    }
}

/// The outcome at a desk, if it is one: if there was no memory, everything is as before.
fn outcome_of(called: Result<Called, Fault>, is_as_before: bool) -> Option<Outcome> {
    match (called, is_as_before) {
        (Err(Fault::OutOfMemory), true) => Some(Outcome::NoDesk),
        (Ok((Err(Fault::OutOfMemory), 0, 0)), true) => Some(Outcome::NoCall),
        (Ok((Ok(Reply::Refused(Fault::OutOfMemory)), 1, 1)), true) => Some(Outcome::NoProgram),
        (Ok((Ok(Reply::Done(1)), 1, 1)), false) => Some(Outcome::Loaded),
        _ => None,
    }
}

/// The outcome at a desk if a program of 1,000 bytes is loaded over a new device, which has memory of its own.
fn came_of<A: Allocator + Copy + Drop, W: Wait>(
    rt: &W,
    alloc: A,
    device: Global,
) -> Result<Option<Outcome>, Fault> {
    let load = Event::Load(Text::of(Vec::from_slice(alloc, &[b'\n'; 1_000])?));
    let mut controller = started(alloc, device)?;
    let before = controller.on(Event::Status);
    let (mut controller, called) = call_once::<MemoryRig<Global>, A, Brand, W>(
        rt,
        alloc,
        Blank::new(64),
        controller,
        &load,
    );
    let after = controller.on(Event::Status);
    drop(controller.into_rig());
    Ok(outcome_of(called, before == after))
}

/// The bytes of a heap, and the outcome there. Power on takes three tables of parameters of 43,192 bytes and 68,600 for
/// the lines that are planned, the program 1,000, the seats 32 each; a call then grows the seat's list, grows the
/// history, and copies the program three times, and each of these five is refused in turn; a load takes one more table.
const HEAPS: &[(usize, Outcome)] = &[
    (199_792, Outcome::NoDesk),
    (201_592, Outcome::NoCall),
    (202_092, Outcome::NoCall),
    (202_792, Outcome::NoCall),
    (203_792, Outcome::NoCall),
    (204_792, Outcome::NoCall),
    (206_792, Outcome::NoProgram),
    (261_792, Outcome::Loaded),
];

#[test]
fn too_little_memory(rt: HostRuntime) -> Result<(), Fail> {
    for (bytes, wanted) in HEAPS {
        let heap = LocalHeap::new(rt.alloc(), *bytes)?;
        assert_eq!(rt;
            came_of(&rt, &heap, rt.alloc()),
            Ok(Some(*wanted)),
            "{bytes}"
        );
    }
    Ok(())
}
