//! Items whose limits become final.
ghost use Rattle.std.specs.Prelude.{◌≡◌, ◌≤◌, ◌+◌, ◌↔◌, [], length, min, IsTrue, IsFalse};
ghost use Rattle.std.specs.VecDeque.{deque_capacity};
ghost use Rattle.ng_pace.specs.Stream.{Keeps};
ghost use Rattle.ng_pace.specs.Making.{IsEnd, IsWithin, Makes, Marks, ramp_at, stop_of};

use crate::chord::Waiting;
use crate::limits::{GREATEST, LineCaps};
use crate::line::{Line, Ramp};
use crate::pacer::Pacer;
use std::alloc::Allocator;
use std::collections::VecDeque;

/// What is known of what comes after the last item that waits.
#[derive(Clone, Copy, Debug)]
pub(crate) enum Ending {
    GoesOn,
    /// Everything stands still then. A motor may stop at this square at once, in parts of 256.
    Ends(u64),
}

/// The line of an item.
fn line_of(item: Waiting, limits: LineCaps, ending: Ending) -> Line
    ensures item { result.item ≡ item.item }
    ensures full { result.full ≡ item.feed }
    ensures most { result.most ≡ min limits.most item.feed }
    ensures within { IsWithin limits.most limits.ramp (stop_of ending) result }
    ensures ramp { result.ramp ≡ ramp_at ending limits.ramp }
    ensures last { IsTrue result.last ↔ IsEnd ending }
{
    let ramp = limits.ramp.down.min(GREATEST);
    let (down, last) = match ending {
        Ending::GoesOn => (ramp, false),
        Ending::Ends(start) => ((ramp / 256).saturating_mul(start).min(GREATEST), true),
    };
    Line {
        item: item.item,
        full: item.feed,
        most: limits.most.min(item.feed),
        ramp: Ramp {
            up: limits.ramp.up.min(GREATEST),
            down,
        },
        last,
    }
}

/// Gives the first item that waits to the pacer. False if none waits.
#[tactic(auto, using(crate::proofs::FinalLimitLemmas::moved))]
fn settle_one<A: Allocator>(
    pacer: &mut Pacer<A>,
    waiting: &mut VecDeque<Waiting, A>,
    limits: LineCaps,
    ending: Ending,
) -> bool
    requires { length pacer.old.known + length waiting.old.items ≤ pacer.old.capacity }
    ensures keeps { Keeps pacer.old pacer.new waiting.old.items waiting.new.items }
    ensures capacity { deque_capacity waiting.new ≡ deque_capacity waiting.old }
    ensures fewer { IsTrue result → length waiting.new.items + 1 ≡ length waiting.old.items }
    ensures none { IsFalse result → waiting.new.items ≡ [] }
    ensures makes { IsTrue result → Makes pacer.old pacer.new waiting.old.items waiting.new.items limits.most
        limits.ramp (stop_of ending) 1 }
    ensures stays { IsFalse result → (pacer.new.known ≡ pacer.old.known) × (waiting.old.items ≡ []) }
    ensures marks { Marks ending pacer.new.known waiting.old.items waiting.new.items }
{
    match waiting.pop_front() {
        Some(item) => {
            let ending = if waiting.is_empty() {
                ending
            } else {
                Ending::GoesOn
            };
            pacer.push(line_of(item, limits, ending));
            true
        }
        None => false,
    }
}

/// Gives so many items that wait to the pacer, or all.
#[tactic(auto, using(crate::proofs::FinalLimitLemmas::keeps_on))]
pub(crate) fn settle<A: Allocator>(
    pacer: &mut Pacer<A>,
    waiting: &mut VecDeque<Waiting, A>,
    count: u64,
    limits: LineCaps,
    ending: Ending,
)
    requires { length pacer.old.known + length waiting.old.items ≤ pacer.old.capacity }
    ensures keeps { Keeps pacer.old pacer.new waiting.old.items waiting.new.items }
    ensures capacity { deque_capacity waiting.new ≡ deque_capacity waiting.old }
    ensures makes { Makes pacer.old pacer.new waiting.old.items waiting.new.items limits.most limits.ramp
        (stop_of ending) count }
    ensures marks { Marks ending pacer.new.known waiting.old.items waiting.new.items }
{
    for k in 0..count {
        if !settle_one(pacer, waiting, limits, ending) {
            break;
        }
    }
}

/// Gives all items that wait to the pacer.
#[tactic(auto, using(crate::proofs::FinalLimitLemmas::keeps_on))]
pub(crate) fn settle_all<A: Allocator>(
    pacer: &mut Pacer<A>,
    waiting: &mut VecDeque<Waiting, A>,
    limits: LineCaps,
    ending: Ending,
)
    requires { length pacer.old.known + length waiting.old.items ≤ pacer.old.capacity }
    ensures keeps { Keeps pacer.old pacer.new waiting.old.items waiting.new.items }
    ensures capacity { deque_capacity waiting.new ≡ deque_capacity waiting.old }
    ensures none { waiting.new.items ≡ [] }
    ensures stays { waiting.old.items ≡ [] → pacer.new.known ≡ pacer.old.known }
    ensures marks { Marks ending pacer.new.known waiting.old.items waiting.new.items }
{
    while settle_one(pacer, waiting, limits, ending) {}
}
