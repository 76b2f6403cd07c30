//! A stream of items, whose limits are found from its pulses.
ghost use Rattle.std.specs.Prelude.{◌≡◌, ◌↔◌, ◌≤◌, ◌<◌, ◌+◌, ◌-◌, ◌*◌, ◌^◌, ◌++◌, ◌∷◌, [], List};
ghost use Rattle.std.specs.Prelude.{length, min, nat_le, IsTrue, IsFalse, Err, IfOk, IfSome, IfNone};
ghost use Rattle.std.specs.VecDeque.{deque_capacity};
ghost use Rattle.ng_pace.specs.Axes.{AccelerateTooLittle, AccelerateTooMuch, AreLimits, GoTooFast, HaveAxes};
ghost use Rattle.ng_pace.specs.Due.{IsNoPercent, own_square};
ghost use Rattle.ng_pace.specs.WaitingPulses.{WaitFew, WaitSome};
ghost use Rattle.ng_pace.specs.Stream.{Keeps, Adds, StandsAt, StandsLast, full_of};
ghost use Rattle.ng_pace.specs.Stream.{square_behind, no_pulse, still_line, timed_waiting};
ghost use Rattle.ng_pace.specs.Paced.{Waits};
ghost use Rattle.ng_pace.specs.Wanted.{wanted_at};
ghost use Rattle.ng_pace.specs.Rest.{StandsBehind};
ghost use Rattle.ng_pace.specs.Making.{Marks, stop_of};
ghost use Rattle.ng_pace.specs.Legs.{Leg, lines_of, pulses_of};
ghost use Rattle.ng_pace.specs.Halting.{Halts, Takes};
ghost use Rattle.ng_pace.specs.Path.{Advances, IsBegun, Finishes, IsPath};
ghost use Rattle.ng_pace.specs.Calls.{IsEmpty, IsPut, IsEnded, IsFlowGiven};

use crate::chord::{Chord, Waiting};
use crate::fault::PaceFault;
use crate::limits::{GREATEST, Limits, LineCaps};
use crate::line::{Line, Ramp, own_square};
use crate::pacer::Pacer;
use crate::path::{bend, close_last, extend};
use crate::settling::{Ending, settle_all};
use crate::start::start_of;
use crate::stepping::Given;
use ng_canon::{Item, Pulse};
use std::alloc::Allocator;
use std::collections::VecDeque;
use std::marker::Model;

/// What is known of the chords of a stream.
#[derive(Clone, Copy)]
struct Shape {
    chord: Chord,
    start: u64,
    /// The square of the pulse before; the greatest if there is none.
    before: u64,
}

/// Items that are known, in order, and how they move.
#[derive(Drop)]
pub struct Stream<A: Allocator> {
    pacer: Pacer<A>,
    waiting: VecDeque<Waiting, A>,
    limits: Limits,
    shape: Shape,
}

impl<A: Allocator> Model for Stream<A> {
    ghost use Rattle.std.specs.VecDeque.{deque_capacity};
    ghost use Rattle.ng_pace.specs.Stream.{Flow, IsHeld, timed_waiting};

    ghost Value = { Flow };

    ghost view = { λ s. record {
      motion = s.pacer;
      waiting = timed_waiting s.waiting.items;
      before = s.shape.before;
      limits = s.limits;
      chord = s.shape.chord;
    } };

    ghost invariant = { λ s. IsHeld s.pacer s.waiting.items (deque_capacity s.waiting) s.shape.start s.limits
        s.shape.chord };
}

/// Makes lines of all that waits: it comes to rest at its end.
#[tactic(auto, using(crate::proofs::FinalLimitLemmas::keeps_on))]
fn finish<A: Allocator>(
    pacer: &mut Pacer<A>,
    waiting: &mut VecDeque<Waiting, A>,
    shape: &mut Shape,
    limits: &Limits,
    ending: Ending,
)
    requires fits { length pacer.old.known + length waiting.old.items ≤ pacer.old.capacity }
    requires limits { AreLimits limits.now }
    ensures keeps { Keeps pacer.old pacer.new waiting.old.items waiting.new.items }
    ensures capacity { deque_capacity waiting.new ≡ deque_capacity waiting.old }
    ensures none { waiting.new.items ≡ [] }
    ensures marks { Marks ending pacer.new.known waiting.old.items waiting.new.items }
    ensures finishes { (legs : List Leg) → IsPath limits.now 0 shape.old.chord (length waiting.old.items) legs
        → IsBegun legs
        → Finishes limits.now (stop_of ending) pacer.old pacer.new (pulses_of legs) (lines_of legs) }
    ensures closed { IsFalse shape.new.chord.is_open }
    ensures few { WaitFew limits.now shape.new.chord (length waiting.new.items) }
    ensures some { WaitSome shape.new.chord (length waiting.new.items) }
    ensures start { shape.new.start ≡ shape.old.start }
    ensures before { shape.new.before ≡ no_pulse }
{
    close_last(pacer, waiting, &mut shape.chord, limits, ending);
    settle_all(
        pacer,
        waiting,
        LineCaps {
            most: 0,
            ramp: Ramp { up: 0, down: 0 },
        },
        ending,
    );
    shape.before = GREATEST;
}

/// Takes a pulse.
fn push_pulse<A: Allocator>(
    pacer: &mut Pacer<A>,
    waiting: &mut VecDeque<Waiting, A>,
    shape: &mut Shape,
    limits: &Limits,
    item: Item,
    pulse: &Pulse,
)
    requires fits { length pacer.old.known + length waiting.old.items < pacer.old.capacity }
    requires limits { AreLimits limits.now }
    requires capacity { deque_capacity waiting.old ≡ pacer.old.capacity }
    ensures adds { Adds pacer.old pacer.new waiting.old.items waiting.new.items
        (record { item = item; full = min (own_square limits.now.most_percent pulse.now.period_us) shape.old.before }) }
    ensures capacity { deque_capacity waiting.new ≡ deque_capacity waiting.old }
    ensures advances { (legs : List Leg) → IsPath limits.now 0 shape.old.chord (length waiting.old.items) legs
        → IsBegun legs
        → Advances limits.now 0 pacer.old pacer.new shape.new.chord (length waiting.new.items)
        (pulses_of legs ++ pulse.now ∷ []) (lines_of legs) }
    ensures few { WaitFew limits.now shape.old.chord (length waiting.old.items)
        → WaitFew limits.now shape.new.chord (length waiting.new.items) }
    ensures some { WaitSome shape.old.chord (length waiting.old.items)
        → WaitSome shape.new.chord (length waiting.new.items) × (0 < length waiting.new.items) }
    ensures start { shape.new.start ≡ shape.old.start }
    ensures before { shape.new.before ≡ own_square limits.now.most_percent pulse.now.period_us }
{
    let own = own_square(limits.most_percent, pulse.period_us);
    let feed = own.min(shape.before);
    bend(pacer, waiting, &mut shape.chord, limits, pulse);
    waiting.push_back_reserved(Waiting { item, feed });
    extend(pacer, waiting, &mut shape.chord, limits, pulse);
    shape.before = own;
}

/// The line of an item before which everything stands still.
fn still(item: Item) -> Line
    ensures { result ≡ still_line item }
{
    Line {
        item,
        full: 0,
        most: 0,
        ramp: Ramp { up: 0, down: 0 },
        last: false,
    }
}

/// Takes an item before which everything stands still.
fn push_still<A: Allocator>(
    pacer: &mut Pacer<A>,
    waiting: &mut VecDeque<Waiting, A>,
    shape: &mut Shape,
    limits: &Limits,
    item: Item,
)
    requires fits { length pacer.old.known + length waiting.old.items < pacer.old.capacity }
    requires limits { AreLimits limits.now }
    ensures adds { Adds pacer.old pacer.new waiting.old.items waiting.new.items
        (record { item = item; full = 0 }) }
    ensures capacity { deque_capacity waiting.new ≡ deque_capacity waiting.old }
    ensures stands { StandsLast pacer.new.known (timed_waiting waiting.new.items) item }
    ensures behind { StandsBehind pacer.new.known }
    ensures halts { (legs : List Leg) → IsPath limits.now 0 shape.old.chord (length waiting.old.items) legs
        → IsBegun legs
        → Halts limits.now shape.old.start pacer.old pacer.new shape.new.chord (length waiting.new.items) legs
        (item ∷ []) }
    ensures few { WaitFew limits.now shape.new.chord (length waiting.new.items) }
    ensures some { WaitSome shape.new.chord (length waiting.new.items) }
    ensures start { shape.new.start ≡ shape.old.start }
    ensures before { shape.new.before ≡ no_pulse }
{
    let start = shape.start;
    finish(pacer, waiting, shape, limits, Ending::Ends(start));
    pacer.push(still(item));
}

/// Takes an item.
fn push_item<A: Allocator>(
    pacer: &mut Pacer<A>,
    waiting: &mut VecDeque<Waiting, A>,
    shape: &mut Shape,
    limits: &Limits,
    item: Item,
)
    requires fits { length pacer.old.known + length waiting.old.items < pacer.old.capacity }
    requires limits { AreLimits limits.now }
    requires capacity { deque_capacity waiting.old ≡ pacer.old.capacity }
    ensures adds { Adds pacer.old pacer.new waiting.old.items waiting.new.items
        (record { item = item; full = full_of limits.now.most_percent shape.old.before item }) }
    ensures capacity { deque_capacity waiting.new ≡ deque_capacity waiting.old }
    ensures stands { StandsAt pacer.new.known (timed_waiting waiting.new.items) item }
    ensures takes { (legs : List Leg) → IsPath limits.now 0 shape.old.chord (length waiting.old.items) legs
        → IsBegun legs
        → Takes limits.now shape.old.start pacer.old pacer.new shape.new.chord (length waiting.new.items) legs item }
    ensures few { WaitFew limits.now shape.old.chord (length waiting.old.items)
        → WaitFew limits.now shape.new.chord (length waiting.new.items) }
    ensures some { WaitSome shape.old.chord (length waiting.old.items)
        → WaitSome shape.new.chord (length waiting.new.items) }
    ensures behind { WaitSome shape.old.chord (length waiting.old.items) → waiting.new.items ≡ []
        → StandsBehind pacer.new.known }
    ensures start { shape.new.start ≡ shape.old.start }
    ensures before { shape.new.before ≡ square_behind limits.now.most_percent item }
{
    match item {
        Item::Pulse(pulse) => push_pulse(pacer, waiting, shape, limits, item, &pulse),
        Item::Dwell { us: _ } => push_still(pacer, waiting, shape, limits, item),
        Item::Switch(_) => push_still(pacer, waiting, shape, limits, item),
    }
}

impl<A: Allocator + Copy> Stream<A> {
    /// At rest, with no item, and capacity for so many. Nothing is allocated later. Source: own.
    ///
    /// Refused, in this order: an axis with less acceleration than 3, with more than 1,000,000,000, or with a greater
    /// rate than that; corners of no pulse; a slack that isn't 1 to 1,000; a percentage that isn't 100 to 200; no
    /// capacity; and what memory refuses. Nothing is made then.
    pub fn new(alloc: A, limits: Limits, capacity: usize) -> Result<Stream<A>, PaceFault>
        ensures made { IfOk result (λ s. IsEmpty s limits capacity) }
        ensures no_acceleration { (result ≡ Err PaceFault.NoAcceleration) ↔ AccelerateTooLittle limits }
        ensures acceleration_too_great { (result ≡ Err PaceFault.AccelerationTooGreat) ↔ AccelerateTooMuch limits }
        ensures rate_too_great { (result ≡ Err PaceFault.RateTooGreat) ↔ GoTooFast limits }
        ensures no_corner { (result ≡ Err PaceFault.NoCorner) ↔ (HaveAxes limits × (limits.half ≡ 0)) }
        ensures no_slack { (result ≡ Err PaceFault.NoSlack)
            ↔ (HaveAxes limits × (0 < limits.half) × (limits.slack ≡ 0)) }
        ensures slack_too_great { (result ≡ Err PaceFault.SlackTooGreat)
            ↔ (HaveAxes limits × (0 < limits.half) × (1000 < limits.slack)) }
        ensures no_percent { (result ≡ Err PaceFault.NoPercent)
            ↔ (HaveAxes limits × (0 < limits.half) × (0 < limits.slack) × (limits.slack ≤ 1000)
            × IsNoPercent limits.most_percent) }
        ensures no_capacity { (result ≡ Err PaceFault.NoCapacity) ↔ (AreLimits limits × (capacity ≡ 0)) }
        ensures no_other { ¬ (result ≡ Err PaceFault.StartTooSmall) }
    {
        limits.check()?;
        let start = start_of(&limits);
        let pacer = Pacer::new(alloc, start, limits.most_percent, capacity)?;
        match VecDeque::with_capacity(alloc, capacity) {
            Ok(waiting) => Ok(Stream {
                pacer,
                waiting,
                limits,
                shape: Shape {
                    chord: Chord::new(),
                    start,
                    before: GREATEST,
                },
            }),
            Err(_) => Err(PaceFault::OutOfMemory),
        }
    }
}

impl<A: Allocator> Stream<A> {
    /// Whether one more item doesn't fit: it is asked before `push`. A full stream with capacity for 5 times `half` and
    /// 15 items knows a line, so `next` gives one wherever some motion is wanted. With a lesser one it may be that all
    /// items wait: then only `end` goes on. Source: own.
    pub fn is_full(&self) -> bool
        ensures full { result ≡ nat_le self.now.motion.capacity (length self.now.motion.known + length self.now.waiting) }
        ensures known { IsTrue result → 5 * self.now.limits.half + 15 ≤ self.now.motion.capacity
            → 0 < length self.now.motion.known }
    {
        self.pacer.capacity() <= self.pacer.len() + self.waiting.len()
    }

    /// Whether the limits of a line are final, so that `next` gives one wherever some motion is wanted. Source: own.
    pub fn is_ready(&self) -> bool
        ensures yes { IsTrue result → 0 < length self.now.motion.known }
        ensures no { IsFalse result → self.now.motion.known ≡ [] }
    {
        self.pacer.len() > 0
    }

    /// Whether everything stands still before the next line. Source: own.
    pub fn is_at_rest(&self) -> bool
        ensures yes { IsTrue result → self.now.motion.square ≡ 0 }
        ensures no { IsFalse result → 0 < self.now.motion.square }
    {
        self.pacer.is_at_rest()
    }

    /// The square that is wanted for `next` at so many percent of the controller's rates; any, from the greatest
    /// percentage of the limits on. Source: own.
    pub fn wanted(&self, percent: u64) -> u64
        ensures { result ≡ wanted_at self.now.limits.most_percent percent self.now.motion.known }
    {
        if percent >= self.limits.most_percent {
            return u64::MAX;
        }
        self.pacer.wanted(percent)
    }

    /// Takes an item, after all that are known. The motion stays as it is. Source: own.
    pub fn push(&mut self, item: Item)
        requires { length self.old.motion.known + length self.old.waiting < self.old.motion.capacity }
        ensures { IsPut self.old self.new item }
    {
        push_item(
            &mut self.pacer,
            &mut self.waiting,
            &mut self.shape,
            &self.limits,
            item,
        );
    }

    /// Nothing more is known to come: all that is known may be given out, and comes to rest at its end. What is put in
    /// later begins from rest. Source: own.
    pub fn end(&mut self)
        ensures { IsEnded self.old self.new }
    {
        let start = self.shape.start;
        finish(
            &mut self.pacer,
            &mut self.waiting,
            &mut self.shape,
            &self.limits,
            Ending::Ends(start),
        );
    }

    /// The next line and its time. `wanted` is the greatest square that the operator wants, in pulses a second times
    /// 2^8, squared; 0 is a hold: the rate falls as fast as may be, and then everything stands still. None, with
    /// nothing changed, if the limits of no item are final, or at rest in a hold. Source: own.
    #[tactic(auto, using(crate::proofs::FinalLimitLemmas::given_items))]
    pub fn next(&mut self, wanted: u64) -> Option<Given>
        ensures given { IfSome result (λ given. IsFlowGiven self.old self.new wanted given) }
        ensures waits { IfNone result (Waits self.old.motion wanted) }
        ensures same { IfNone result (self.new ≡ self.old) }
    {
        self.pacer.next(wanted)
    }
}
