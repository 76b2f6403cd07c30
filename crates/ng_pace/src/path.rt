//! The lines of a path: along its chords, and at the corners between them.
ghost use Rattle.std.specs.Prelude.{◌≡◌, ◌≤◌, ◌<◌, ◌+◌, ◌*◌, ◌++◌, ◌∷◌, []};
ghost use Rattle.std.specs.Prelude.{ℕ, ◌^◌, false, List, length, slice_index_or, IsTrue, IsFalse};
ghost use Rattle.std.specs.VecDeque.{deque_capacity};
ghost use Rattle.ng_pace.specs.declared.chord.Waiting.{Waiting};
ghost use Rattle.ng_pace.specs.Axes.{AreLimits};
ghost use Rattle.ng_pace.specs.WaitingPulses.{WaitFew, WaitSome};
ghost use Rattle.ng_pace.specs.Stream.{Keeps};
ghost use Rattle.ng_pace.specs.Making.{Marks, stop_of};
ghost use Rattle.ng_pace.specs.Passing.{PassesAlong, PassesCorner};
ghost use Rattle.ng_pace.specs.Legs.{IsChord, Leg, lines_of, pulses_of};
ghost use Rattle.ng_pace.specs.Path.{Advances, AreReached, AreSlopes, IsBegun, IsBehindFarthest, IsClosed};
ghost use Rattle.ng_pace.specs.Path.{Finishes, IsPath, Reaches, Bends, reserve_of};

use crate::caps::along;
use crate::chord::{Chord, Waiting};
use crate::corner::{Bend, corner_caps, corner_pulses};
use crate::limits::Limits;
use crate::pacer::Pacer;
use crate::settling::{Ending, settle};
use crate::slopes::{Slopes, sizes};
use ng_canon::Pulse;
use std::alloc::Allocator;
use std::collections::VecDeque;

/// The greatest feed of some of the items that wait.
fn greatest_feed<A: Allocator>(waiting: &VecDeque<Waiting, A>, from: u64, to: u64) -> u64
    ensures { (k : ℕ) (d : Waiting) → from ≤ k → k < to → k < length waiting.now.items
        → (slice_index_or waiting.now.items k d).feed ≤ result }
{
    let mut greatest = 0;
    for k in from..to {
        if k < waiting.len() as u64 {
            greatest = greatest.max(waiting[k as usize].feed);
        }
    }
    greatest
}

/// Makes lines along slopes of all items that wait but so many.
fn pass_along<A: Allocator>(
    pacer: &mut Pacer<A>,
    waiting: &mut VecDeque<Waiting, A>,
    limits: &Limits,
    slopes: &[Slopes; 3],
    reserve: u64,
    ending: Ending,
)
    requires fits { length pacer.old.known + length waiting.old.items ≤ pacer.old.capacity }
    requires limits { AreLimits limits.now }
    ensures keeps { Keeps pacer.old pacer.new waiting.old.items waiting.new.items }
    ensures capacity { deque_capacity waiting.new ≡ deque_capacity waiting.old }
    ensures few { length waiting.new.items ≤ reserve }
    ensures marks { Marks ending pacer.new.known waiting.old.items waiting.new.items }
    ensures passes { PassesAlong limits.now slopes.now (stop_of ending) reserve pacer.old pacer.new waiting.old.items
        waiting.new.items }
{
    let count = (waiting.len() as u64).saturating_sub(reserve);
    let caps = along(limits, &sizes(slopes));
    settle(pacer, waiting, count, caps.of_lines(), ending);
}

/// Makes the lines up to the end of the corner at which the open chord begins.
#[tactic(auto, using(crate::proofs::FinalLimitLemmas::keeps_on))]
fn pass_corner<A: Allocator>(
    pacer: &mut Pacer<A>,
    waiting: &mut VecDeque<Waiting, A>,
    chord: &mut Chord,
    limits: &Limits,
    after: &[Slopes; 3],
    ending: Ending,
)
    requires fits { length pacer.old.known + length waiting.old.items ≤ pacer.old.capacity }
    requires limits { AreLimits limits.now }
    ensures keeps { Keeps pacer.old pacer.new waiting.old.items waiting.new.items }
    ensures capacity { deque_capacity waiting.new ≡ deque_capacity waiting.old }
    ensures few { length waiting.new.items ≤ chord.old.pulses }
    ensures marks { Marks ending pacer.new.known waiting.old.items waiting.new.items }
    ensures passes { PassesCorner limits.now chord.old.before after.now chord.old.before_pulses chord.old.pulses
        (stop_of ending)
        pacer.old pacer.new waiting.old.items waiting.new.items }
    ensures chord { chord.new ≡ record chord.old { has_corner = false } }
{
    let slopes = chord.before;
    let before = along(limits, &sizes(&slopes));
    let bend = Bend::between(&slopes, after);
    let chord_pulses = chord.pulses as u64;
    let pulses = corner_pulses(limits, &bend.bend, chord.before_pulses as u64, chord_pulses);
    let count = (waiting.len() as u64)
        .saturating_sub(chord_pulses)
        .saturating_sub(pulses / 2);
    let feed = greatest_feed(waiting, count, count.saturating_add(pulses));
    let caps = corner_caps(limits, &bend, pulses, feed);
    settle(pacer, waiting, count, before.of_lines(), ending);
    settle(pacer, waiting, pulses, caps, ending);
    chord.has_corner = false;
}

/// How many of the last pulses of a chord may belong to the corner that it ends at.
fn reserve_of(limits: &Limits, pulses: u32) -> u64
    ensures { result ≡ reserve_of limits.now.half pulses }
{
    (pulses as u64).min(limits.half.saturating_mul(2)) / 2
}

/// Makes the lines of a corner that isn't decided, where the open chord ends.
fn decide_at_end<A: Allocator>(
    pacer: &mut Pacer<A>,
    waiting: &mut VecDeque<Waiting, A>,
    chord: &mut Chord,
    limits: &Limits,
    slopes: &[Slopes; 3],
    ending: Ending,
)
    requires fits { length pacer.old.known + length waiting.old.items ≤ pacer.old.capacity }
    requires limits { AreLimits limits.now }
    ensures keeps { Keeps pacer.old pacer.new waiting.old.items waiting.new.items }
    ensures capacity { deque_capacity waiting.new ≡ deque_capacity waiting.old }
    ensures marks { Marks ending pacer.new.known waiting.old.items waiting.new.items }
    ensures reaches { (leg : Leg) (rest : List Leg)
        → IsPath limits.now (stop_of ending) chord.old (length waiting.old.items) (leg ∷ rest)
        → 0 < length leg.pulses → AreSlopes slopes.now leg.pulses → AreReached limits.now.slack slopes.now leg.pulses
        → Reaches limits.now (stop_of ending) pacer.old pacer.new (length waiting.new.items) leg.pulses
        (pulses_of (leg ∷ rest)) (lines_of (leg ∷ rest))
        × (reserve_of limits.now.half (length leg.pulses) ≤ length waiting.new.items) }
    ensures chord { chord.new ≡ record chord.old { has_corner = chord.new.has_corner } }
{
    if chord.has_corner {
        pass_corner(pacer, waiting, chord, limits, slopes, ending);
    }
}

/// Closes the open chord. So many of its last pulses wait for the corner that it ends at.
#[tactic(auto, using(crate::proofs::FinalLimitLemmas::keeps_on))]
fn close<A: Allocator>(
    pacer: &mut Pacer<A>,
    waiting: &mut VecDeque<Waiting, A>,
    chord: &mut Chord,
    limits: &Limits,
    ending: Ending,
    reserve: u64,
)
    requires fits { length pacer.old.known + length waiting.old.items ≤ pacer.old.capacity }
    requires limits { AreLimits limits.now }
    ensures keeps { Keeps pacer.old pacer.new waiting.old.items waiting.new.items }
    ensures capacity { deque_capacity waiting.new ≡ deque_capacity waiting.old }
    ensures marks { Marks ending pacer.new.known waiting.old.items waiting.new.items }
    ensures closes { (leg : Leg) (rest : List Leg)
        → IsPath limits.now (stop_of ending) chord.old (length waiting.old.items) (leg ∷ rest) → 0 < length leg.pulses
        → reserve ≤ reserve_of limits.now.half (length leg.pulses)
        → Reaches limits.now (stop_of ending) pacer.old pacer.new (length waiting.new.items) leg.pulses
        (pulses_of (leg ∷ rest)) (lines_of (leg ∷ rest))
        × IsClosed limits.now.slack chord.new leg.pulses (length waiting.new.items) reserve }
    ensures few { length waiting.new.items ≤ reserve }
    ensures closed { IsFalse chord.new.is_open }
{
    let slopes = chord.slopes();
    decide_at_end(pacer, waiting, chord, limits, &slopes, ending);
    pass_along(pacer, waiting, limits, &slopes, reserve, ending);
    chord.close();
}

/// Makes the lines of a corner that isn't decided, if the open chord is long enough: by the slopes that it may get.
fn decide<A: Allocator>(
    pacer: &mut Pacer<A>,
    waiting: &mut VecDeque<Waiting, A>,
    chord: &mut Chord,
    limits: &Limits,
)
    requires fits { length pacer.old.known + length waiting.old.items ≤ pacer.old.capacity }
    requires limits { AreLimits limits.now }
    ensures keeps { Keeps pacer.old pacer.new waiting.old.items waiting.new.items }
    ensures capacity { deque_capacity waiting.new ≡ deque_capacity waiting.old }
    ensures few { IsTrue chord.new.has_corner → (length waiting.new.items ≡ length waiting.old.items)
        × (chord.old.pulses < 4 * limits.now.half) }
    ensures last { IsTrue chord.old.has_corner → chord.old.pulses ≤ length waiting.old.items → 0 < chord.old.pulses
        → 0 < length waiting.new.items }
    ensures same { IsFalse chord.old.has_corner → length waiting.new.items ≡ length waiting.old.items }
    ensures corner { IsTrue chord.new.has_corner → IsTrue chord.old.has_corner }
    ensures chord { chord.new ≡ record chord.old { has_corner = chord.new.has_corner } }
    ensures advances { (leg : Leg) (rest : List Leg)
        → IsPath limits.now 0 chord.old (length waiting.old.items) (leg ∷ rest) → 0 < length leg.pulses
        → Advances limits.now 0 pacer.old pacer.new chord.new (length waiting.new.items) (pulses_of (leg ∷ rest))
        (lines_of (leg ∷ rest)) }
{
    if chord.has_corner && chord.pulses as u64 >= limits.half.saturating_mul(4) {
        let slopes = chord.slopes_ahead();
        pass_corner(pacer, waiting, chord, limits, &slopes, Ending::GoesOn);
    }
}

/// Makes lines along the open chord, but of the last ones, if its corner is decided: by the slopes that it may get.
fn go_along<A: Allocator>(
    pacer: &mut Pacer<A>,
    waiting: &mut VecDeque<Waiting, A>,
    chord: &Chord,
    limits: &Limits,
)
    requires fits { length pacer.old.known + length waiting.old.items ≤ pacer.old.capacity }
    requires limits { AreLimits limits.now }
    ensures keeps { Keeps pacer.old pacer.new waiting.old.items waiting.new.items }
    ensures capacity { deque_capacity waiting.new ≡ deque_capacity waiting.old }
    ensures few { IsFalse chord.now.has_corner → length waiting.new.items ≤ limits.now.half }
    ensures stays { IsTrue chord.now.has_corner → length waiting.new.items ≡ length waiting.old.items }
    ensures last { 0 < chord.now.pulses → 0 < length waiting.old.items → 0 < length waiting.new.items }
    ensures advances { (leg : Leg) (rest : List Leg)
        → IsPath limits.now 0 chord.now (length waiting.old.items) (leg ∷ rest) → 0 < length leg.pulses
        → Advances limits.now 0 pacer.old pacer.new chord.now (length waiting.new.items) (pulses_of (leg ∷ rest))
        (lines_of (leg ∷ rest)) }
{
    if !chord.has_corner {
        let slopes = chord.slopes_ahead();
        let pulses = chord.pulses as u64;
        let reserve = limits.half.min(pulses - pulses / 2);
        pass_along(pacer, waiting, limits, &slopes, reserve, Ending::GoesOn);
    }
}

/// Takes the last item that waits into the open chord.
#[tactic(auto, using(crate::proofs::FinalLimitLemmas::keeps_on))]
pub(crate) fn extend<A: Allocator>(
    pacer: &mut Pacer<A>,
    waiting: &mut VecDeque<Waiting, A>,
    chord: &mut Chord,
    limits: &Limits,
    pulse: &Pulse,
)
    requires fits { length pacer.old.known + length waiting.old.items ≤ pacer.old.capacity }
    requires limits { AreLimits limits.now }
    ensures keeps { Keeps pacer.old pacer.new waiting.old.items waiting.new.items }
    ensures capacity { deque_capacity waiting.new ≡ deque_capacity waiting.old }
    ensures few { (waits : ℕ) → WaitFew limits.now chord.old waits → IsTrue chord.old.is_open
        → chord.old.pulses < 2 ^ 20 → length waiting.old.items ≡ waits + 1
        → WaitFew limits.now chord.new (length waiting.new.items) }
    ensures some { (waits : ℕ) → WaitSome chord.old waits → IsTrue chord.old.is_open
        → chord.old.pulses < 2 ^ 20 → length waiting.old.items ≡ waits + 1
        → WaitSome chord.new (length waiting.new.items) × (0 < length waiting.new.items) }
    ensures advances { (waits : ℕ) (leg : Leg) (rest : List Leg) → IsPath limits.now 0 chord.old waits (leg ∷ rest)
        → length waiting.old.items ≡ waits + 1
        → IsChord limits.now.slack (leg.pulses ++ pulse.now ∷ []) → length leg.pulses < 2 ^ 20
        → IsBehindFarthest limits.now.slack rest (leg.pulses ++ pulse.now ∷ [])
        → Advances limits.now 0 pacer.old pacer.new chord.new (length waiting.new.items)
        (pulses_of (leg ∷ rest) ++ pulse.now ∷ []) (lines_of (leg ∷ rest)) }
{
    chord.take(limits, pulse);
    if chord.pulses % 16 == 0 {
        decide(pacer, waiting, chord, limits);
        go_along(pacer, waiting, chord, limits);
    }
}

/// Closes the chord that is open, if one is. Nothing of it waits.
pub(crate) fn close_last<A: Allocator>(
    pacer: &mut Pacer<A>,
    waiting: &mut VecDeque<Waiting, A>,
    chord: &mut Chord,
    limits: &Limits,
    ending: Ending,
)
    requires fits { length pacer.old.known + length waiting.old.items ≤ pacer.old.capacity }
    requires limits { AreLimits limits.now }
    ensures keeps { Keeps pacer.old pacer.new waiting.old.items waiting.new.items }
    ensures capacity { deque_capacity waiting.new ≡ deque_capacity waiting.old }
    ensures marks { Marks ending pacer.new.known waiting.old.items waiting.new.items }
    ensures finishes { (legs : List Leg) → IsPath limits.now 0 chord.old (length waiting.old.items) legs → IsBegun legs
        → Finishes limits.now (stop_of ending) pacer.old pacer.new (pulses_of legs) (lines_of legs)
        × (length waiting.new.items ≡ 0) }
    ensures closed { IsFalse chord.new.is_open }
{
    if chord.is_open {
        close(pacer, waiting, chord, limits, ending, 0);
    }
}

/// Opens a chord for a pulse, if it is none of the open one.
pub(crate) fn bend<A: Allocator>(
    pacer: &mut Pacer<A>,
    waiting: &mut VecDeque<Waiting, A>,
    chord: &mut Chord,
    limits: &Limits,
    pulse: &Pulse,
)
    requires fits { length pacer.old.known + length waiting.old.items ≤ pacer.old.capacity }
    requires limits { AreLimits limits.now }
    ensures keeps { Keeps pacer.old pacer.new waiting.old.items waiting.new.items }
    ensures capacity { deque_capacity waiting.new ≡ deque_capacity waiting.old }
    ensures few { WaitFew limits.now chord.old (length waiting.old.items)
        → WaitFew limits.now chord.new (length waiting.new.items) }
    ensures some { WaitSome chord.old (length waiting.old.items) → WaitSome chord.new (length waiting.new.items) }
    ensures open { IsTrue chord.new.is_open }
    ensures short { chord.new.pulses < 2 ^ 20 }
    ensures bends { (legs : List Leg) → IsPath limits.now 0 chord.old (length waiting.old.items) legs → IsBegun legs
        → Bends limits.now pacer.old pacer.new chord.new (length waiting.new.items) pulse.now (pulses_of legs)
        (lines_of legs) }
{
    if !chord.is_open {
        chord.open(false);
    } else if chord.is_left(pulse) {
        let reserve = reserve_of(limits, chord.pulses);
        close(pacer, waiting, chord, limits, Ending::GoesOn, reserve);
        chord.open(true);
    }
}
