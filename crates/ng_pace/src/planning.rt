//! The plan: at each line the greatest square from which a rest can be reached.
ghost use Rattle.std.specs.Prelude.{◌≡◌, ◌<◌, ◌≤◌, ◌+◌, ◌/◌, ◌∷◌, [], IfSome, IfNone, IsTrue, IsFalse};
ghost use Rattle.std.specs.VecDeque.{deque_capacity};
ghost use Rattle.ng_pace.specs.Planning.{IsPlan, IsWhole, IsFresh, IsTaken, StandsFirst, ahead, most_now, lines_of};
ghost use Rattle.ng_pace.specs.Wanted.{wanted_of};

use crate::line::{Line, wanted_by};
use std::alloc::Allocator;
use std::collections::VecDeque;

/// A line that is known, and the square that is planned for it.
#[derive(Clone, Copy, Debug)]
pub(crate) struct Slot {
    pub(crate) line: Line,
    pub(crate) plan: u64,
}

/// The greatest square at a line after which this square is planned.
fn best_square(line: &Line, after: u64) -> u64
    ensures { result ≡ most_now line.now after }
{
    let reached = if line.last { 0 } else { after };
    reached.saturating_add(line.ramp.down).min(line.most)
}

/// Plans anew, from the last line that is known to the first; the first `planned` were planned before. Where a square
/// of these stays the same, so do all before it. No square becomes less.
pub(crate) fn plan<A: Allocator>(slots: &mut VecDeque<Slot, A>, planned: usize)
    requires { IsPlan planned slots.old.items }
    ensures plan { IsWhole slots.new.items }
    ensures lines { lines_of slots.new.items ≡ lines_of slots.old.items }
    ensures grows { ahead slots.old.items ≤ ahead slots.new.items }
    ensures capacity { deque_capacity slots.new ≡ deque_capacity slots.old }
{
    let mut after = 0;
    let mut k = slots.len();
    while k > 0 {
        k -= 1;
        let slot = &slots[k];
        let square = best_square(&slot.line, after);
        if k < planned && square == slot.plan {
            break;
        }
        slots[k].plan = square;
        after = square;
    }
}

/// The square that is planned for the first line; 0 if none is known.
pub(crate) fn ahead<A: Allocator>(slots: &VecDeque<Slot, A>) -> u64
    ensures { result ≡ ahead slots.now.items }
{
    match slots.front() {
        Some(slot) => slot.plan,
        None => 0,
    }
}

/// Whether the plan is to be made anew: its end is near, or so many lines are new as an eighth of it and eight. At each
/// line that would be too slow.
fn is_stale(known: usize, planned: usize) -> bool
    ensures { IsFalse result → (1 < planned) × (known ≤ planned + planned / 8 + 7) }
{
    planned <= 1 || known.saturating_sub(planned) >= planned / 8 + 8
}

/// Whether everything stands still at the first line: it needs no plan.
fn stands_first<A: Allocator>(slots: &VecDeque<Slot, A>) -> bool
    ensures { IsTrue result → StandsFirst slots.now.items }
{
    match slots.front() {
        Some(slot) => slot.line.most == 0 && slot.line.ramp.up == 0 && slot.line.ramp.down == 0,
        None => true,
    }
}

/// Plans anew if that is due, and says how many lines are planned then.
fn refresh<A: Allocator>(slots: &mut VecDeque<Slot, A>, planned: usize) -> usize
    requires { IsPlan planned slots.old.items }
    ensures plan { IsPlan result slots.new.items }
    ensures fresh { IsFresh result slots.new.items }
    ensures lines { lines_of slots.new.items ≡ lines_of slots.old.items }
    ensures grows { ahead slots.old.items ≤ ahead slots.new.items }
    ensures capacity { deque_capacity slots.new ≡ deque_capacity slots.old }
{
    if !stands_first(slots) && is_stale(slots.len(), planned) {
        plan(slots, planned);
        slots.len()
    } else {
        planned
    }
}

/// Takes the first line. It is planned with regard to what is known.
#[tactic(auto, using(crate::proofs::TakeLemmas::taken, crate::proofs::TakeLemmas::idle))]
pub(crate) fn take<A: Allocator>(slots: &mut VecDeque<Slot, A>, planned: &mut usize) -> Option<Slot>
    requires { IsPlan planned.old slots.old.items }
    ensures taken { IfSome result (λ slot. IsTaken slots.old.items slots.new.items planned.new slot) }
    ensures none { IfNone result (slots.old.items ≡ []) }
    ensures empty { IfNone result (slots.new.items ≡ []) }
    ensures idle { IfNone result (planned.new ≡ 0) }
    ensures capacity { deque_capacity slots.new ≡ deque_capacity slots.old }
{
    *planned = refresh(slots, *planned).saturating_sub(1);
    slots.pop_front()
}

/// The square that is wanted at the first line, at so many percent of the rates.
pub(crate) fn wanted<A: Allocator>(slots: &VecDeque<Slot, A>, percent: u64) -> u64
    requires { percent ≤ 200 }
    ensures { result ≡ wanted_of percent (lines_of slots.now.items) }
{
    match slots.get(0) {
        None => u64::MAX,
        Some(first) => match slots.get(1) {
            None => wanted_by(percent, &first.line.item),
            Some(next) => wanted_by(percent, &first.line.item).min(wanted_by(
                percent,
                &next.line.item,
            )),
        },
    }
}
