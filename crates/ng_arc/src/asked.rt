//! The arc that a line asks for.
ghost use Rattle.std.specs.Prelude.{◌≡◌, Ok, Err, if◌then◌else◌};
ghost use Rattle.ng_num.specs.declared.fault.Fault.TheVariants.{OutOfRange};

use crate::shape::ArcShape;
use ng_canon::{ArcDirection, Plane, pick_a, pick_b};
use ng_num::{Fault, Len, Point, Unit};

/// The axes for which a line has a word.
#[derive(Clone, Copy)]
pub struct NamedAxes {
    pub x: bool,
    pub y: bool,
    pub z: bool,
}

/// The words I, J and K of a line: the centre's offset from the start along X, Y and Z (NISTIR 6556, 3.5.3.2).
#[derive(Clone, Copy)]
pub struct CentreOffsets {
    pub i: Option<Len>,
    pub j: Option<Len>,
    pub k: Option<Len>,
}

/// An arc that a line asks for by G2 or G3.
#[derive(Clone, Copy)]
pub struct AskedArc {
    pub plane: Plane,
    pub turn: ArcDirection,
    /// The machine point of the start.
    pub start: Point,
    /// The machine point of the end. On an axis that isn't named it is that of the start.
    pub end: Point,
    pub named: NamedAxes,
    pub offsets: CentreOffsets,
    /// The unit after the line's own words. It decides the tolerance of the radii.
    pub unit: Unit,
}

impl AskedArc {
    ghost use Rattle.ng_num.specs.Range.{in_range};
    ghost use Rattle.ng_arc.specs.Asked.{centre_a, centre_b, shape_of};
    ghost use Rattle.ng_arc.specs.Checking.{has_no_end, has_no_centre, is_centre_beyond};

    /// The centre's machine coordinate on the plane's axis a. E3 if it is out of the range of lengths.
    fn centre_a(&self) -> Result<Len, Fault>
        ensures { result ≡ in_range (centre_a self.now) }
    {
        let start: Len = pick_a(self.plane, self.start.x, self.start.y, self.start.z);
        let word: Option<Len> = pick_a(self.plane, self.offsets.i, self.offsets.j, self.offsets.k);
        start.add(word.unwrap_or(Len::zero()))
    }

    /// The centre's machine coordinate on the plane's axis b. E3 if it is out of the range of lengths.
    fn centre_b(&self) -> Result<Len, Fault>
        ensures { result ≡ in_range (centre_b self.now) }
    {
        let start: Len = pick_b(self.plane, self.start.x, self.start.y, self.start.z);
        let word: Option<Len> = pick_b(self.plane, self.offsets.i, self.offsets.j, self.offsets.k);
        start.add(word.unwrap_or(Len::zero()))
    }

    /// The shape of the arc, with its centre. E3 if a coordinate of the centre is out of the range of lengths.
    pub(crate) fn shape(&self) -> Result<ArcShape, Fault>
        ensures { result ≡ (if is_centre_beyond self.now then Err OutOfRange else Ok (shape_of self.now)) }
    {
        Ok(ArcShape {
            plane: self.plane,
            turn: self.turn,
            start: self.start,
            end: self.end,
            centre_a: self.centre_a()?,
            centre_b: self.centre_b()?,
        })
    }

    /// Whether the line has no end coordinate in the plane.
    pub(crate) fn has_no_end(&self) -> bool
        ensures { result ≡ has_no_end self.now }
    {
        let named = &self.named;
        !(pick_a(self.plane, named.x, named.y, named.z)
            || pick_b(self.plane, named.x, named.y, named.z))
    }

    /// Whether the line has no centre offset in the plane.
    pub(crate) fn has_no_centre(&self) -> bool
        ensures { result ≡ has_no_centre self.now }
    {
        let offsets = &self.offsets;
        let along_a: Option<Len> = pick_a(self.plane, offsets.i, offsets.j, offsets.k);
        let along_b: Option<Len> = pick_b(self.plane, offsets.i, offsets.j, offsets.k);
        !(along_a.is_some() || along_b.is_some())
    }
}
