//! Callers in threads, each in a seat of its own: some tick, some ask for the status, and one loads a program, starts
//! it and holds it.
ghost use Rattle.std.specs.Prelude.{◌≡◌, ◌≤◌, Some, All, false, length};

use crate::devices::started;
use ng_core::{Condition, Controller, Event, Reply, Text};
use ng_desk::{Call, Desk, Origin, Seat};
use ng_num::Fault;
use ng_rig::{MemoryRig, Rig};
use std::alloc::Global;
use std::marker::Brand;
use std::sync::Wait;
use std::sync::ledger::{Blank, Ledger};
use std::test::Fail;
use std::thread;
use std::thread::Threads;

/// How often a caller asks or ticks at most.
const MOST_CALLS: u32 = 99_000;

/// A move of 500,000 pulses, 500 mm in steps of 1,000 nm: no caller sees its end.
const PROGRAM: &str = "G0 X500\nM2\n";

/// What a caller waits for.
#[derive(Clone, Copy)]
enum Awaited {
    Held,
    HalfDone,
}

/// What a caller does.
#[derive(Clone, Copy, Debug, PartialEq, Eq)]
enum Role {
    Ticks,
    Asks,
    Commands,
}

impl Role {
    /// The first of this many callers ticks, the last one commands, and those between them ask and tick alternately.
    fn of(index: usize, callers: usize) -> Role {
        if index >= callers.saturating_sub(1) {
            Role::Commands
        } else if index % 2 == 0 {
            Role::Ticks
        } else {
            Role::Asks
        }
    }
}

/// Whether a reply shows what is awaited.
fn tells(reply: Reply, awaited: Awaited) -> bool {
    match (reply, awaited) {
        (Reply::Held, Awaited::Held) => true,
        (Reply::Status(status), Awaited::Held) => status.condition == Condition::Held,
        (Reply::Status(status), Awaited::HalfDone) => status.half.is_some(),
        _ => false,
    }
}

/// Gives an event and yields to other threads. Returns the reply, or M1.
fn give<R: Rig, O: Origin<R>, W: Wait>(
    rt: &W,
    desk: &Desk<R, Global, O>,
    seat: &mut Seat<Global, O>,
    event: &Event<Global>,
) -> Result<Reply, Fault>
    requires { seat.old.parts ≡ 1 }
    ensures { seat.new.parts ≡ 1 }
{
    let reply = desk.call(rt, seat, event);
    thread::yield_now();
    reply
}

/// Gives an event until a reply shows what is awaited, at most this often.
fn give_until<R: Rig, O: Origin<R>, W: Wait>(
    rt: &W,
    desk: &Desk<R, Global, O>,
    seat: &mut Seat<Global, O>,
    event: &Event<Global>,
    awaited: Awaited,
) -> Result<(), Fault>
    requires { seat.old.parts ≡ 1 }
    ensures { seat.new.parts ≡ 1 }
{
    for _call in 0..MOST_CALLS {
        if tells(give(rt, desk, seat, event)?, awaited) {
            return Ok(());
        }
    }
    Ok(())
}

/// Loads the program, starts it, and holds it once one of its blocks is half-done.
fn command<R: Rig, O: Origin<R>, W: Wait>(
    rt: &W,
    desk: &Desk<R, Global, O>,
    seat: &mut Seat<Global, O>,
    load: &Event<Global>,
) -> Result<(), Fault>
    requires { seat.old.parts ≡ 1 }
    ensures { seat.new.parts ≡ 1 }
{
    give(rt, desk, seat, load)?;
    give(rt, desk, seat, &Event::Start)?;
    give_until(rt, desk, seat, &Event::Status, Awaited::HalfDone)?;
    give(rt, desk, seat, &Event::Hold)?;
    Ok(())
}

/// A caller at work.
fn work<R: Rig, O: Origin<R>, W: Wait>(
    rt: &W,
    desk: &Desk<R, Global, O>,
    seat: &mut Seat<Global, O>,
    role: Role,
    load: &Event<Global>,
)
    requires { seat.old.parts ≡ 1 }
    ensures { seat.new.parts ≡ 1 }
{
    let _ = match role {
        Role::Ticks => give_until(rt, desk, seat, &Event::Tick, Awaited::Held),
        Role::Asks => give_until(rt, desk, seat, &Event::Status, Awaited::Held),
        Role::Commands => command(rt, desk, seat, load),
    };
}

/// All callers at work, each in a thread of its own.
fn work_all<R: Rig + Drop + Send, O: Origin<R> + Send + Sync, W: Threads + Wait + Sync>(
    rt: &W,
    desk: &Desk<R, Global, O>,
    seats: &mut [Seat<Global, O>],
    load: &Event<Global>,
)
    requires { (1 ≤ length seats.old) × All (λ s. s.parts ≡ 1) seats.old }
    ensures { All (λ s. s.parts ≡ 1) seats.new }
{
    let callers = seats.len();
    thread::for_each_mut(
        rt,
        seats,
        callers,
        &|index, seat: &mut Seat<Global, O>|
            requires { seat.old.parts ≡ 1 }
            ensures { seat.new.parts ≡ 1 }
        { work(rt, desk, seat, Role::of(index, callers), load) },
    );
}

/// Whether a caller got the replies that its role expects: held at the end. A caller that commands loaded and started
/// the program first, and saw a half-done block right before it held; the others had their turns before it was
/// finished.
fn is_answered(role: Role, calls: &[Call<Global>]) -> bool {
    let Some(last) = calls.last() else {
        return false;
    };
    match role {
        Role::Ticks | Role::Asks => tells(last.reply, Awaited::Held),
        Role::Commands => {
            calls.len() > 3
                && calls[0].reply == Reply::Done(1)
                && calls[1].reply == Reply::Going
                && tells(calls[calls.len() - 2].reply, Awaited::HalfDone)
                && last.reply == Reply::Held
        }
    }
}

/// The first caller that got other replies.
fn first_mismatch<O: Ledger>(seats: &[Seat<Global, O>]) -> Option<Role> {
    for (index, seat) in seats.iter().enumerate() {
        let role = Role::of(index, seats.len());
        if !is_answered(role, seat.calls()) {
            return Some(role);
        }
    }
    None
}

/// This many callers at one desk: the first that got other replies than its role expects, and the history.
fn day<R: Rig + Drop + Send, O: Origin<R> + Send + Sync, W: Threads + Wait + Sync>(
    rt: &W,
    alloc: Global,
    blank: Blank,
    controller: Controller<R, Global>,
    callers: usize,
    load: &Event<Global>,
) -> (
    Controller<R, Global>,
    Result<(Option<Role>, Vec<Call<Global>>), Fault>,
)
    requires whole { controller.journal.broken ≡ false }
    requires some { 1 ≤ callers }
    requires start { O.start ≡ Some controller }
    requires name { blank.name ≡ O.name }
    requires parts { (blank.parts ≡ O.parts) × (callers ≡ O.parts) }
{
    let (desk, mut seats) = match Desk::<R, Global, O>::new(alloc, blank, controller, callers) {
        Ok(made) => made,
        Err((fault, controller)) => return (controller, Err(fault)),
    };
    work_all(rt, &desk, seats.as_mut_slice(), load);
    let mismatch = first_mismatch(seats.as_slice());
    let (controller, history, _, agreed) = desk.close(seats);
    match agreed {
        Ok(()) => (controller, Ok((mismatch, history))),
        Err(fault) => (controller, Err(fault)),
    }
}

/// Whether `run` of a history's events over a similar device returns its replies.
fn runs_alike(alloc: Global, history: Vec<Call<Global>>) -> Result<bool, Fault> {
    let mut events = Vec::new(alloc);
    let mut replies = Vec::new(alloc);
    for Call {
        number: _,
        event,
        reply,
    } in history {
        events.push(event)?;
        replies.push(reply)?;
    }
    let mut controller = started(alloc, alloc)?;
    let answers = controller.run(events.as_slice());
    drop(controller.into_rig());
    Ok(answers?.as_slice() == replies.as_slice())
}

/// This many callers at a desk over a new device: the first that got other replies, and whether `run` returns the
/// replies that they got.
fn day_at_a_fresh_desk<W: Threads + Wait + Sync>(
    rt: &W,
    alloc: Global,
    callers: usize,
) -> Result<(Option<Role>, bool), Fault>
    requires { 1 ≤ callers }
{
    let load = Event::Load(Text::of(Vec::from_slice(alloc, PROGRAM.as_bytes())?));
    let controller = started(alloc, alloc)?;
    let blank = Blank::new(callers as u64);
    let (controller, came) = day::<MemoryRig<Global>, Brand, W>(
        rt, alloc, blank, controller, callers, &load,
    );
    drop(controller.into_rig());
    let (mismatch, history) = came?;
    Ok((mismatch, runs_alike(alloc, history)?))
}

/// How many days there are at most. If the system doesn't run a caller for long, another one may make all its calls
/// before it.
const MOST_DAYS: u32 = 10;

/// The first day on which each caller got the replies that its role expects, or on which `run` returns other replies;
/// else the last day.
fn best_day<W: Threads + Wait + Sync>(
    rt: &W,
    alloc: Global,
    callers: usize,
) -> Result<(Option<Role>, bool), Fault>
    requires { 1 ≤ callers }
{
    for _day in 1..MOST_DAYS {
        let (mismatch, is_alike) = day_at_a_fresh_desk(rt, alloc, callers)?;
        if mismatch.is_none() || !is_alike {
            return Ok((mismatch, is_alike));
        }
    }
    day_at_a_fresh_desk(rt, alloc, callers)
}

#[test]
fn two_callers(rt: HostRuntime) -> Result<(), Fail> {
    assert_eq!(rt; best_day(&rt, rt.alloc(), 2), Ok((None, true)));
    Ok(())
}

#[test]
fn eight_callers(rt: HostRuntime) -> Result<(), Fail> {
    assert_eq!(rt; best_day(&rt, rt.alloc(), 8), Ok((None, true)));
    Ok(())
}
