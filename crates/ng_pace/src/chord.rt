//! Chords: pulses that go straight ahead.
ghost use Rattle.std.specs.Prelude.{ℕ, ◌≡◌, ◌<◌, ◌+◌, ◌++◌, ◌∷◌, [], true, false, List, length, IsTrue, IsFalse};
ghost use Rattle.ng_canon.specs.declared.item.Pulse.{Pulse};

use crate::cone::Cone;
use crate::limits::{LONGEST, Limits};
use crate::slopes::Slopes;
use ng_canon::{Item, Pulse};

/// An item whose limits aren't final.
#[derive(Clone, Copy, Debug)]
pub(crate) struct Waiting {
    pub(crate) item: Item,
    pub(crate) feed: u64,
}

/// The open chord, and the one before it.
#[derive(Clone, Copy, Debug)]
pub(crate) struct Chord {
    pub(crate) pulses: u32,
    pub(crate) cones: [Cone; 3],
    pub(crate) is_open: bool,
    /// Whether it begins behind a corner that no line is made of yet.
    pub(crate) has_corner: bool,
    pub(crate) before_pulses: u32,
    pub(crate) before: [Slopes; 3],
}

impl Chord {
    ghost use Rattle.ng_pace.specs.Axes.{AreLimits, EachAxis};
    ghost use Rattle.ng_pace.specs.Chord.{Slope, IsSlope, IsNear};
    ghost use Rattle.ng_pace.specs.Cone.{AreBetween};
    ghost use Rattle.ng_pace.specs.Legs.{IsChord, steps_along};
    ghost use Rattle.ng_pace.specs.Path.{AreCones, AreReached, AreSlopes};

    /// None.
    pub(crate) fn new() -> Chord
        ensures { IsFalse result.is_open }
    {
        Chord {
            pulses: 0,
            cones: [Cone::new(), Cone::new(), Cone::new()],
            is_open: false,
            has_corner: false,
            before_pulses: 0,
            before: [Slopes::STILL, Slopes::STILL, Slopes::STILL],
        }
    }

    /// Whether it doesn't go straight with one more pulse, or is as long as a chord may be.
    pub(crate) fn is_left(&self, pulse: &Pulse) -> bool
        ensures stays { (slack : ℕ) (pulses : List Pulse) → AreCones slack self.now.cones pulses
            → self.now.pulses ≡ length pulses
            → IsFalse result → IsChord slack (pulses ++ pulse.now ∷ []) × (length pulses < LONGEST) }
        ensures leaves { (slack : ℕ) (pulses : List Pulse) → AreCones slack self.now.cones pulses
            → self.now.pulses ≡ length pulses
            → IsTrue result → ¬ (IsChord slack (pulses ++ pulse.now ∷ []) × (length pulses < LONGEST)) }
        ensures short { IsFalse result → self.now.pulses < LONGEST }
    {
        if self.pulses >= LONGEST {
            return true;
        }
        let pulses = self.pulses + 1;
        self.cones[0].is_left(pulse.x, pulses)
            || self.cones[1].is_left(pulse.y, pulses)
            || self.cones[2].is_left(pulse.z, pulses)
    }

    /// Begins anew, behind a corner or from rest.
    pub(crate) fn open(&mut self, has_corner: bool)
        ensures same { self.new ≡ record self.old {
          pulses = 0;
          cones = self.new.cones;
          is_open = true;
          has_corner = has_corner;
        } }
        ensures cones { (slack : ℕ) → AreCones slack self.new.cones [] }
    {
        self.pulses = 0;
        self.cones = [Cone::new(), Cone::new(), Cone::new()];
        self.is_open = true;
        self.has_corner = has_corner;
    }

    /// Takes a pulse.
    pub(crate) fn take(&mut self, limits: &Limits, pulse: &Pulse)
        requires { AreLimits limits.now }
        ensures same { self.new ≡ record self.old { pulses = self.new.pulses; cones = self.new.cones } }
        ensures one { self.old.pulses < LONGEST → self.new.pulses ≡ self.old.pulses + 1 }
        ensures takes { (pulses : List Pulse) → AreCones limits.now.slack self.old.cones pulses
            → self.old.pulses ≡ length pulses → length pulses < LONGEST
            → AreCones limits.now.slack self.new.cones (pulses ++ pulse.now ∷ [])
            × (self.new.pulses ≡ length pulses + 1) }
    {
        let pulses = self.pulses.saturating_add(1);
        let slack = limits.slack as u32;
        self.cones = [
            self.cones[0].after(pulse.x, pulses, slack),
            self.cones[1].after(pulse.y, pulses, slack),
            self.cones[2].after(pulse.z, pulses, slack),
        ];
        self.pulses = pulses;
    }

    /// Its slopes, as it is.
    pub(crate) fn slopes(&self) -> [Slopes; 3]
        ensures are { (slack : ℕ) (pulses : List Pulse) → AreCones slack self.now.cones pulses
            → self.now.pulses ≡ length pulses → 0 < length pulses
            → AreSlopes result pulses }
        ensures reached { (slack : ℕ) (pulses : List Pulse) → AreCones slack self.now.cones pulses
            → self.now.pulses ≡ length pulses → 0 < length pulses → IsChord slack pulses
            → AreReached slack result pulses }
    {
        [
            self.cones[0].slopes_at(self.pulses),
            self.cones[1].slopes_at(self.pulses),
            self.cones[2].slopes_at(self.pulses),
        ]
    }

    /// The slopes that it may get, whatever pulses it still takes.
    pub(crate) fn slopes_ahead(&self) -> [Slopes; 3]
        ensures all { (slack : ℕ) (pulses : List Pulse) → AreCones slack self.now.cones pulses
            → EachAxis (λ i. (slope : Slope) → IsSlope slope → IsNear slack slope (steps_along i pulses)
            → AreBetween result i slope) }
        ensures reached { (slack : ℕ) (pulses : List Pulse) → AreCones slack self.now.cones pulses
            → 0 < length pulses → IsChord slack pulses → AreReached slack result pulses }
    {
        [
            self.cones[0].slopes(),
            self.cones[1].slopes(),
            self.cones[2].slopes(),
        ]
    }

    /// Takes no more pulses.
    pub(crate) fn close(&mut self)
        ensures same { self.new ≡ record self.old {
          before = self.new.before;
          before_pulses = self.old.pulses;
          is_open = false;
          has_corner = false;
        } }
        ensures slopes { (slack : ℕ) (pulses : List Pulse) → AreCones slack self.old.cones pulses
            → self.old.pulses ≡ length pulses → 0 < length pulses
            → AreSlopes self.new.before pulses }
        ensures reached { (slack : ℕ) (pulses : List Pulse) → AreCones slack self.old.cones pulses
            → self.old.pulses ≡ length pulses → 0 < length pulses → IsChord slack pulses
            → AreReached slack self.new.before pulses }
    {
        self.before = self.slopes();
        self.before_pulses = self.pulses;
        self.is_open = false;
        self.has_corner = false;
    }
}
