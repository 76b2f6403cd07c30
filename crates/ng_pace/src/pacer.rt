//! The pacer: lines in, and out again with their times.
ghost use Rattle.std.specs.Prelude.{◌≡◌, ◌↔◌, ◌⊎◌, ◌≤◌, ◌<◌, ◌++◌, ◌∷◌, [], length, nat_le};
ghost use Rattle.std.specs.Prelude.{Err, IfOk, IfErr, IfSome, IfNone, IsTrue, IsFalse};
ghost use Rattle.ng_pace.specs.Due.{IsPercent, IsNoPercent};
ghost use Rattle.ng_pace.specs.Paced.{IsGiven, Waits};
ghost use Rattle.ng_pace.specs.Wanted.{wanted_of};

use crate::fault::PaceFault;
use crate::limits::is_percent;
use crate::line::Line;
use crate::planning::{Slot, ahead, take, wanted};
use crate::root::root_of;
use crate::stepping::{Given, rest_of, square_after, square_at, time_of};
use std::alloc::Allocator;
use std::collections::VecDeque;
use std::marker::Model;

/// Lines that are known, and the square at which the first of them will be passed (own).
#[derive(Drop)]
pub struct Pacer<A: Allocator> {
    slots: VecDeque<Slot, A>,
    square: u64,
    start: u64,
    percent: u64,
    /// How many of the lines are planned.
    planned: usize,
    /// The square to which the last line went, and its root. The next line begins at it, as a rule.
    reached: u64,
    root: u64,
}

impl<A: Allocator> Model for Pacer<A> {
    ghost use Rattle.std.specs.VecDeque.{deque_capacity};
    ghost use Rattle.ng_pace.specs.Pacer.{Motion, IsSteady};
    ghost use Rattle.ng_pace.specs.Planning.{lines_of};

    ghost Value = { Motion };

    ghost view = { λ p. record {
      known = lines_of p.slots.items;
      square = p.square;
      start = p.start;
      percent = p.percent;
      capacity = deque_capacity p.slots;
    } };

    ghost invariant = { λ p. IsSteady p.slots.items p.square p.percent p.planned p.reached p.root };
}

impl<A: Allocator> Pacer<A> {
    ghost use Rattle.ng_pace.specs.Pacer.{Motion};

    /// At rest, with no line, and capacity for so many. Nothing is allocated later. Source: own.
    ///
    /// `start` is the distance over which motors start and stop at once, in parts of 256 of a step: at least 128, since
    /// a motor at rest is half a step beyond its pulse. `percent` says at which part of the controller's rates the own
    /// times are: 100 to 200. Refused: a lesser start, another percentage, no capacity, and what memory refuses.
    pub fn new(alloc: A, start: u64, percent: u64, capacity: usize) -> Result<Pacer<A>, PaceFault>
        ensures made { IfOk result (λ p. p ≡ record { known = []; square = 0; start = start; percent = percent; capacity = capacity }) }
        ensures start_too_small { (result ≡ Err PaceFault.StartTooSmall) ↔ (start < 128) }
        ensures no_percent { (result ≡ Err PaceFault.NoPercent) ↔ ((128 ≤ start) × IsNoPercent percent) }
        ensures no_capacity { (result ≡ Err PaceFault.NoCapacity) ↔ ((128 ≤ start) × IsPercent percent × (capacity ≡ 0)) }
        ensures no_other { IfErr result (λ fault. (fault ≡ PaceFault.StartTooSmall) ⊎ ((fault ≡ PaceFault.NoPercent)
            ⊎ ((fault ≡ PaceFault.NoCapacity) ⊎ (fault ≡ PaceFault.OutOfMemory)))) }
    {
        if start < 128 {
            return Err(PaceFault::StartTooSmall);
        }
        if !is_percent(percent) {
            return Err(PaceFault::NoPercent);
        }
        if capacity == 0 {
            return Err(PaceFault::NoCapacity);
        }
        match VecDeque::with_capacity(alloc, capacity) {
            Ok(slots) => Ok(Pacer {
                slots,
                square: 0,
                start,
                percent,
                planned: 0,
                reached: 0,
                root: 0,
            }),
            Err(_) => Err(PaceFault::OutOfMemory),
        }
    }

    /// Whether one more line doesn't fit. Source: own.
    pub fn is_full(&self) -> bool
        ensures { result ≡ nat_le self.now.capacity (length self.now.known) }
    {
        self.slots.capacity() <= self.slots.len()
    }

    /// How many lines are known.
    pub(crate) fn len(&self) -> usize
        ensures { result ≡ length self.now.known }
    {
        self.slots.len()
    }

    /// How many lines fit.
    pub(crate) fn capacity(&self) -> usize
        ensures { result ≡ self.now.capacity }
    {
        self.slots.capacity()
    }

    /// Whether everything stands still before the next line.
    pub(crate) fn is_at_rest(&self) -> bool
        ensures yes { IsTrue result → self.now.square ≡ 0 }
        ensures no { IsFalse result → 0 < self.now.square }
    {
        self.square == 0
    }

    /// The square that is wanted at the next line, at so many percent of the rates.
    pub(crate) fn wanted(&self, percent: u64) -> u64
        requires { percent ≤ 200 }
        ensures { result ≡ wanted_of percent self.now.known }
    {
        wanted(&self.slots, percent)
    }

    /// Takes a line, behind all that are known. The motion stays as it is. Source: own.
    pub fn push(&mut self, line: Line)
        requires { length self.old.known < self.old.capacity }
        ensures { self.new ≡ record self.old { known = self.old.known ++ line ∷ [] } }
    {
        self.slots.push_back_reserved(Slot { line, plan: 0 });
    }

    /// The next line and its time. `wanted` is the greatest square that the operator wants; 0 is a hold. Above it the
    /// square falls by the whole ramp from line to line. None, with nothing changed, if no line is known, or at rest in
    /// a hold. Source: own.
    pub fn next(&mut self, wanted: u64) -> Option<Given>
        ensures given { IfSome result (λ given. IsGiven self.old self.new wanted given) }
        ensures waits { IfNone result (Waits self.old wanted) }
        ensures same { IfNone result (self.new ≡ self.old) }
    {
        if self.square == 0 && wanted == 0 {
            return None;
        }
        match take(&mut self.slots, &mut self.planned) {
            None => None,
            Some(slot) => {
                let from = square_at(&slot.line, slot.plan, self.square, self.start, wanted);
                let to = square_after(&slot.line, from, ahead(&self.slots), wanted);
                let root_from = root_of(from, self.reached, self.root);
                let root_to = root_of(to, from, root_from);
                let ns = time_of(self.percent, &slot.line, from, to, root_from, root_to);
                self.square = rest_of(&slot.line, to, self.start, wanted);
                self.reached = to;
                self.root = root_to;
                Some(Given {
                    line: slot.line,
                    ns,
                    from,
                    to,
                })
            }
        }
    }
}
