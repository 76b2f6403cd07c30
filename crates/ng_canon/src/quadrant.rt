//! Quadrants around an arc's centre.
ghost use Rattle.std.specs.Prelude.{◌≡◌, ◌<◌};
ghost use Rattle.ng_canon.specs.Quadrant.{quadrant_number, quadrant_after, same_quadrant, mirror_quadrant};

use crate::plane::ArcDirection;

/// A quadrant around an arc's centre. Each is half open: it includes the half axis at which it starts, going
/// counterclockwise.
#[derive(Clone, Copy, Debug)]
pub enum Quadrant {
    First,
    Second,
    Third,
    Fourth,
}

impl Quadrant {
    /// Its number, counted from 0.
    pub fn number(self) -> u8
        ensures value { result ≡ quadrant_number self }
        ensures few { result < 4 }
    {
        match self {
            Quadrant::First => 0,
            Quadrant::Second => 1,
            Quadrant::Third => 2,
            Quadrant::Fourth => 3,
        }
    }

    #[tactic(auto, using(crate::proofs::QuadrantLemmas::same_numbers))]
    pub fn is_same(self, other: Quadrant) -> bool
        ensures { result ≡ same_quadrant self other }
    {
        self.number() == other.number()
    }

    /// The next quadrant counterclockwise.
    pub fn next(self) -> Quadrant
        ensures { result ≡ quadrant_after self }
    {
        match self {
            Quadrant::First => Quadrant::Second,
            Quadrant::Second => Quadrant::Third,
            Quadrant::Third => Quadrant::Fourth,
            Quadrant::Fourth => Quadrant::First,
        }
    }

    /// The quadrant with the same start, seen with b negated if the arc is clockwise.
    pub fn mirrored(self, direction: ArcDirection) -> Quadrant
        ensures { result ≡ mirror_quadrant direction self }
    {
        match (direction, self) {
            (ArcDirection::Clockwise, Quadrant::Second) => Quadrant::Fourth,
            (ArcDirection::Clockwise, Quadrant::Fourth) => Quadrant::Second,
            _ => self,
        }
    }
}
