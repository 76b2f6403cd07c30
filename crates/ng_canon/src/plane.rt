//! The axes of an arc's plane, and the direction of an arc.
ghost use Rattle.std.specs.Prelude.{◌≡◌};
ghost use Rattle.ng_canon.specs.Plane.{pick_a, pick_b};

/// A plane of arcs and cycles (NISTIR 6556, 3.5.6). Its axes (a, b) are X Y, Z X and Y Z.
#[derive(Clone, Copy, Debug, PartialEq, Eq)]
pub enum Plane {
    /// G17.
    Xy,
    /// G18.
    Xz,
    /// G19.
    Yz,
}

/// The direction of an arc, seen from the positive end of the axis perpendicular to its plane (NISTIR 6556, 3.5.3).
#[derive(Clone, Copy, Debug, PartialEq, Eq)]
pub enum ArcDirection {
    /// G2.
    Clockwise,
    /// G3.
    Counterclockwise,
}

/// Of three values for X, Y and Z: the one for the plane's axis a.
pub fn pick_a<T: Copy>(plane: Plane, x: T, y: T, z: T) -> T
    ensures { result ≡ pick_a plane x y z }
{
    match plane {
        Plane::Xy => x,
        Plane::Xz => z,
        Plane::Yz => y,
    }
}

/// Of three values for X, Y and Z: the one for the plane's axis b.
pub fn pick_b<T: Copy>(plane: Plane, x: T, y: T, z: T) -> T
    ensures { result ≡ pick_b plane x y z }
{
    match plane {
        Plane::Xy => y,
        Plane::Xz => x,
        Plane::Yz => z,
    }
}
