//! The points among the parameters, as lengths: homes, the stored G92 offset and origins.
ghost use Rattle.std.specs.Prelude.{◌≡◌, ◌≤◌};
ghost use Rattle.ng_params.specs.Change.{with_changes};
ghost use Rattle.ng_params.specs.Numbers.{first_of_origin};
ghost use Rattle.ng_params.specs.Points.{changes_to, g92_changes, g92_stored, home, origin_changes, origin_of, point_at, second_home};

use crate::change::Change;
use crate::index::Index;
use crate::params::Params;
use crate::system::System;
use ng_num::{Len, Num, Point};
use std::alloc::Allocator;

/// The length of a number of millimetres. A millionth of a millimetre is a nanometre.
fn length_of(millimetres: Num) -> Len
    ensures { result ≡ millimetres }
{
    Len::of_nm(millimetres.count() as i128).unwrap()
}

/// A length in millimetres, as a number.
fn millimetres_of(length: Len) -> Num
    ensures { result ≡ length }
{
    Num::of(length.nm() as i128).unwrap()
}

/// The first of the three parameters of a system's origin.
fn first_of_origin(system: System) -> u16
    ensures value { result ≡ first_of_origin system }
    ensures low { 5221 ≤ result }
    ensures high { result ≤ 5381 }
{
    5221 + 20 * (system.number() as u16 - 1)
}

impl<A: Allocator + Copy + Drop> Params<A> {
    /// The point in three parameters.
    fn point_at(&self, first: u16) -> Point
        requires low { 1 ≤ first }
        requires high { first ≤ 5397 }
        ensures { result ≡ point_at self.now first }
    {
        Point {
            x: length_of(self.get(Index::known(first))),
            y: length_of(self.get(Index::known(first + 1))),
            z: length_of(self.get(Index::known(first + 2))),
        }
    }

    /// The home of G28, in machine coordinates (NISTIR 6556, 3.5.8). For callers of this crate alone: the programs look
    /// up a home together with what the line assigns.
    pub fn home(&self) -> Point
        ensures { result ≡ home self.now }
    {
        self.point_at(5161)
    }

    /// The home of G30, in machine coordinates (NISTIR 6556, 3.5.8). For callers of this crate alone, as `home`.
    pub fn second_home(&self) -> Point
        ensures { result ≡ second_home self.now }
    {
        self.point_at(5181)
    }

    /// The G92 offset that is stored, whether or not it is in force (NISTIR 6556, 3.5.18). For callers of this crate
    /// alone, as `home`.
    pub fn g92_stored(&self) -> Point
        ensures { result ≡ g92_stored self.now }
    {
        self.point_at(5211)
    }

    /// The origin of a system (NISTIR 6556, 3.5.5).
    pub fn origin(&self, system: System) -> Point
        ensures { result ≡ origin_of self.now system }
    {
        self.point_at(first_of_origin(system))
    }

    /// The origin that a system will have after changes, made in order.
    pub fn origin_after(&self, system: System, changes: &[Change]) -> Point
        ensures { result ≡ origin_of (with_changes self.now changes.now) system }
    {
        let first = first_of_origin(system);
        Point {
            x: length_of(self.get_after(Index::known(first), changes)),
            y: length_of(self.get_after(Index::known(first + 1), changes)),
            z: length_of(self.get_after(Index::known(first + 2), changes)),
        }
    }
}

/// The changes that put a point into three parameters.
fn changes_to(first: u16, point: Point) -> [Change; 3]
    requires low { 1 ≤ first }
    requires high { first ≤ 5397 }
    ensures { result ≡ changes_to first point }
{
    [
        Change {
            index: Index::known(first),
            value: millimetres_of(point.x),
        },
        Change {
            index: Index::known(first + 1),
            value: millimetres_of(point.y),
        },
        Change {
            index: Index::known(first + 2),
            value: millimetres_of(point.z),
        },
    ]
}

/// The changes of parameters that store a G92 offset (NISTIR 6556, 3.5.18).
pub fn g92_changes(offset: Point) -> [Change; 3]
    ensures { result ≡ g92_changes offset }
{
    changes_to(5211, offset)
}

impl System {
    /// The changes of parameters that set its origin (NISTIR 6556, 3.5.5: G10).
    pub fn origin_changes(self, origin: Point) -> [Change; 3]
        ensures { result ≡ origin_changes self origin }
    {
        changes_to(first_of_origin(self), origin)
    }
}
