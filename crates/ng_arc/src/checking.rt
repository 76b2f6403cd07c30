//! Whether the arc that a line asks for is valid.
ghost use Rattle.std.specs.Prelude.{◌≡◌, ◌≤◌, ◌↔◌, IsFalse, MatchResult};
ghost use Rattle.ng_arc.specs.Radii.{AreAlike};
ghost use Rattle.ng_num.specs.Causes.{first_fault, NoneHolds, IsFirstFault};
ghost use Rattle.ng_arc.specs.Asked.{shape_of};
ghost use Rattle.ng_arc.specs.Checking.{tolerance, start_square, end_square, have_radii_differing, arc_causes, causes, checked};

use crate::asked::AskedArc;
use crate::radii::are_alike;
use crate::shape::ArcShape;
use ng_num::{Fault, Unit, first_fault};

/// How much the radii of an arc's start and end may differ, in nanometres.
fn tolerance_nm(unit: Unit) -> u64
    ensures value { result ≡ tolerance unit }
    ensures most { result ≤ 5_080 }
{
    match unit {
        Unit::Inches => 5_080,
        Unit::Millimetres => 2_000,
    }
}

/// The first of C1 to C4 whose cause holds.
fn arc_fault(asked: &AskedArc, shape: &ArcShape) -> Option<Fault>
    ensures { result ≡ first_fault (arc_causes asked.now shape.now) }
{
    let start = shape.from_centre(&shape.start).square();
    let end = shape.from_centre(&shape.end).square();
    first_fault(&[
        (asked.has_no_end(), Fault::NoEnd),
        (asked.has_no_centre(), Fault::NoCentre),
        (
            !are_alike(start, end, tolerance_nm(asked.unit)),
            Fault::RadiiDiffer,
        ),
        (start == 0 || end == 0, Fault::ZeroRadius),
    ])
}

/// The shape of the arc that a line asks for, if it is valid; otherwise the first of the following faults whose cause
/// holds (NISTIR 6556, 3.5.3.2; tolerance and numbers own).
///
/// E3: a coordinate of the centre is out of the range of lengths. C1: no end coordinate in the plane. C2: no centre
/// offset in the plane. C3: the distances of start and end from the centre differ by more than 2,000 nm under G21,
/// 5,080 nm under G20. C4: the start or the end is the centre.
pub fn check_arc(asked: &AskedArc) -> Result<ArcShape, Fault>
    ensures value { result ≡ checked asked.now }
    ensures least { MatchResult result (λ _. NoneHolds (causes asked.now)) (λ fault. IsFirstFault (causes asked.now) fault) }
    ensures radii { IsFalse (have_radii_differing asked.now.unit (shape_of asked.now))
        ↔ AreAlike (start_square (shape_of asked.now)) (end_square (shape_of asked.now)) (tolerance asked.now.unit) }
{
    let shape = asked.shape()?;
    match arc_fault(asked, &shape) {
        Some(fault) => Err(fault),
        None => Ok(shape),
    }
}
