//! What words do to the offsets and to the parameters that store them. None of them moves the machine.
//!
//! Functions that read parameters get the table as it was before the line, and the changes that the line has made so
//! far.
ghost use Rattle.std.specs.Prelude.{◌≡◌, ◌≤◌, length, IfOk};
ghost use Rattle.ng_num.specs.Point.{zero_point};
ghost use Rattle.ng_params.specs.Change.{with_changes};
ghost use Rattle.ng_params.specs.Numbers.{parameter_count};
ghost use Rattle.ng_params.specs.Params.{at};
ghost use Rattle.ng_params.specs.Points.{g92_changes, g92_stored};
ghost use Rattle.ng_offsets.specs.Origins.{printed, selected, given_origin, offset_for, offsets_for, set_offset, HasCoordinates, dropped, restored, with_tool};

use crate::named::Named;
use crate::new_offsets::NewOffsets;
use crate::offsets::Offsets;
use crate::shift::Shift;
use crate::tools::Tools;
use ng_num::{Fault, Len, Point};
use ng_params::{Change, Index, Params, System, g92_changes};
use std::alloc::Allocator;

/// The length in a parameter, which holds millimetres.
fn length_after<A: Allocator + Copy + Drop>(
    table: &Params<A>,
    changes: &[Change],
    index: u16,
) -> Len
    requires low { 1 ≤ index }
    requires high { index ≤ parameter_count }
    ensures { result ≡ at (with_changes table.now changes.now) index }
{
    let millimetres = table.get_after(Index::known(index), changes);
    Len::of_nm(millimetres.count() as i128).unwrap()
}

/// The G92 offset that is stored.
fn stored_after<A: Allocator + Copy + Drop>(table: &Params<A>, changes: &[Change]) -> Point
    ensures { result ≡ g92_stored (with_changes table.now changes.now) }
{
    Point {
        x: length_after(table, changes, 5211),
        y: length_after(table, changes, 5212),
        z: length_after(table, changes, 5213),
    }
}

/// The G92 offset that gives an axis the wanted program coordinate, if one is wanted.
fn offset_for(wanted: Option<Len>, old: Len, shift: Shift, machine: Len) -> Result<Len, Fault>
    ensures { result ≡ offset_for wanted old shift machine }
{
    match wanted {
        None => Ok(old),
        Some(wanted) => {
            let current = shift.to_program(machine)?;
            Shift::of(old, current).less(wanted)
        }
    }
}

impl Offsets {
    /// These offsets, with what is printed of them.
    fn printed(&self) -> Result<NewOffsets, Fault>
        ensures value { result ≡ printed self.now }
        ensures same { IfOk result (λ new. new.offsets ≡ self.now) }
    {
        let x = self.origin.x.add(self.g92.x)?;
        let y = self.origin.y.add(self.g92.y)?;
        let z = self.origin.z.add(self.g92.z)?;
        Ok(NewOffsets {
            offsets: *self,
            shown: Point { x, y, z },
        })
    }

    /// The G92 offset that gives the machine point the wanted program coordinates.
    fn offsets_for(&self, wanted: &Named, machine: Point) -> Result<Point, Fault>
        ensures value { result ≡ offsets_for self.now wanted.now machine }
        ensures wanted { IfOk result (λ g92. HasCoordinates (record self.now { g92 = g92 }) wanted.now machine) }
    {
        let x = offset_for(wanted.x, self.g92.x, self.x(), machine.x)?;
        let y = offset_for(wanted.y, self.g92.y, self.y(), machine.y)?;
        let z = offset_for(wanted.z, self.g92.z, self.z(), machine.z)?;
        Ok(Point { x, y, z })
    }

    /// G54 to G59.3: takes the origin of a system from the table, and stores that this system is in force (NISTIR 6556,
    /// 3.5.13). E3 if a sum that is printed is out of range.
    pub fn select<A: Allocator + Copy + Drop>(
        &self,
        system: System,
        table: &Params<A>,
        changes: &[Change],
    ) -> Result<(NewOffsets, [Change; 1]), Fault>
        ensures { result ≡ selected self.now system (with_changes table.now changes.now) }
    {
        let offsets = Offsets {
            origin: table.origin_after(system, changes),
            g92: self.g92,
            tool_length: self.tool_length,
        };
        Ok((offsets.printed()?, [system.selection()]))
    }

    /// G10 L2: sets the named coordinates of a system's origin. They are absolute, even under G91 (NISTIR 6556, 3.5.5).
    /// If the system is the one in force, its new origin takes effect at once, on all three axes. E3 if a sum that is
    /// then printed is out of range.
    pub fn g10<A: Allocator + Copy + Drop>(
        &self,
        system: System,
        in_force: System,
        named: &Named,
        table: &Params<A>,
        changes: &[Change],
    ) -> Result<(Option<NewOffsets>, [Change; 3]), Fault>
        ensures { result ≡ given_origin self.now system in_force named.now (with_changes table.now changes.now) }
    {
        let origin = named.put(table.origin_after(system, changes));
        let stored = system.origin_changes(origin);
        if system.number() == in_force.number() {
            let offsets = Offsets {
                origin,
                g92: self.g92,
                tool_length: self.tool_length,
            };
            Ok((Some(offsets.printed()?), stored))
        } else {
            Ok((None, stored))
        }
    }

    /// G92: sets and stores the G92 offset that gives the machine point the wanted program coordinates (NISTIR 6556,
    /// 3.5.18). E3 if the current program coordinate of a named axis, its new offset, or a sum that is printed is out
    /// of range.
    pub fn g92(&self, wanted: &Named, machine: Point) -> Result<(NewOffsets, [Change; 3]), Fault>
        ensures value { result ≡ set_offset self.now wanted.now machine }
        ensures wanted { IfOk result (λ done. HasCoordinates done.0.offsets wanted.now machine) }
    {
        let g92 = self.offsets_for(wanted, machine)?;
        let offsets = Offsets {
            origin: self.origin,
            g92,
            tool_length: self.tool_length,
        };
        Ok((offsets.printed()?, g92_changes(g92)))
    }

    /// G92.1: clears the G92 offset, in force and stored (NISTIR 6556, 3.5.18).
    pub fn g92_1(&self) -> (NewOffsets, [Change; 3])
        ensures { result ≡ (dropped self.now, g92_changes zero_point) }
    {
        (self.g92_2(), g92_changes(Point::zero()))
    }

    /// G92.2: clears the G92 offset in force, but not the stored one (NISTIR 6556, 3.5.18).
    pub fn g92_2(&self) -> NewOffsets
        ensures { result ≡ dropped self.now }
    {
        NewOffsets {
            offsets: Offsets {
                origin: self.origin,
                g92: Point::zero(),
                tool_length: self.tool_length,
            },
            shown: self.origin,
        }
    }

    /// G92.3: takes the G92 offset from the table (NISTIR 6556, 3.5.18). E3 if a sum that is printed is out of range.
    pub fn g92_3<A: Allocator + Copy + Drop>(
        &self,
        table: &Params<A>,
        changes: &[Change],
    ) -> Result<NewOffsets, Fault>
        ensures { result ≡ restored self.now (with_changes table.now changes.now) }
    {
        let offsets = Offsets {
            origin: self.origin,
            g92: stored_after(table, changes),
            tool_length: self.tool_length,
        };
        offsets.printed()
    }

    /// G43 and G49: takes the tool length of a slot; that of slot 0 is 0 (NISTIR 6556, 3.5.11). The caller ensures that
    /// the table has the slot.
    pub fn tool_length(&self, slot: u8, tools: &Tools) -> Offsets
        requires { slot ≤ length tools.now }
        ensures { result ≡ with_tool self.now slot tools.now }
    {
        Offsets {
            origin: self.origin,
            g92: self.g92,
            tool_length: tools.length(slot),
        }
    }
}
