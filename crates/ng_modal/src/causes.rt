//! The causes of B6 to B19, one by one.
ghost use Rattle.std.specs.Prelude.{◌≡◌};
ghost use Rattle.ng_modal.specs.Causes.{takes_axes_twice, leaves_axis_unused, moves_no_axis, sets_nothing, has_bad_g53, has_radius_arc, has_unused_offset, leaves_word_unused, has_negative, has_bad_slot, has_bad_l, has_bad_system, has_no_dwell, has_no_h, has_cycle_plane};

use crate::block::{Block, takes_axes};
use crate::movement::{Movement, dwells, is_arc, is_cycle, is_straight, pecks};
use crate::predicates::{
    is_along_x, is_along_y, is_along_z, is_dwell, is_machine, is_negative, is_of_slot, is_off,
    is_positive, is_set_offset, is_set_origin, is_unused_word, is_whole_within,
};
use ng_canon::Plane;
use ng_state::Modes;

impl Block {
    /// B6: a motion word other than G80 on a line with G10, G28, G30 or G92.
    #[inline]
    pub(crate) fn takes_axes_twice(&self) -> bool
        ensures { result ≡ takes_axes_twice self.now }
    {
        self.movement_of_word().is_some() && takes_axes(self.g.non_modal)
    }

    /// B7: an axis word that nothing uses.
    #[inline]
    pub(crate) fn leaves_axis_unused(&self, modes: &Modes) -> bool
        ensures { result ≡ leaves_axis_unused self.now modes.now }
    {
        self.values.has_axis() && is_off(self.motion_after(modes)) && !takes_axes(self.g.non_modal)
    }

    /// B8: a G0 or G1 word without an axis word.
    #[inline]
    pub(crate) fn moves_no_axis(&self) -> bool
        ensures { result ≡ moves_no_axis self.now }
    {
        is_straight(self.movement_of_word()) && !self.values.has_axis()
    }

    /// B9: G92 without an axis word.
    #[inline]
    pub(crate) fn sets_nothing(&self) -> bool
        ensures { result ≡ sets_nothing self.now }
    {
        is_set_offset(self.g.non_modal) && !self.values.has_axis()
    }

    /// B10: G53 when the motion mode after the line isn't G0 or G1.
    #[inline]
    pub(crate) fn has_bad_g53(&self, modes: &Modes) -> bool
        ensures { result ≡ has_bad_g53 self.now modes.now }
    {
        is_machine(self.g.non_modal) && !is_straight(Movement::of(self.motion_after(modes)))
    }

    /// B11: R on a line that moves along an arc.
    #[inline]
    pub(crate) fn has_radius_arc(&self) -> bool
        ensures { result ≡ has_radius_arc self.now }
    {
        self.values.r().is_some() && is_arc(self.movement)
    }

    /// Whether there is a centre offset that an arc in the plane doesn't use.
    #[inline]
    fn has_unused_offset(&self, plane: Plane) -> bool
        ensures { result ≡ has_unused_offset self.now plane }
    {
        is_unused_word(self.values.i(), is_arc(self.movement) && is_along_x(plane))
            || is_unused_word(self.values.j(), is_arc(self.movement) && is_along_y(plane))
            || is_unused_word(self.values.k(), is_arc(self.movement) && is_along_z(plane))
    }

    /// B12: a word that nothing on the line uses.
    #[inline]
    pub(crate) fn leaves_word_unused(&self, modes: &Modes) -> bool
        ensures { result ≡ leaves_word_unused self.now modes.now }
    {
        is_unused_word(self.values.h(), is_of_slot(self.g.tool_length))
            || self.has_unused_offset(self.plane_after(modes))
            || is_unused_word(
                self.values.l(),
                is_set_origin(self.g.non_modal) || is_cycle(self.movement),
            )
            || is_unused_word(
                self.values.p(),
                is_dwell(self.g.non_modal)
                    || is_set_origin(self.g.non_modal)
                    || dwells(self.movement),
            )
            || is_unused_word(self.values.q(), pecks(self.movement))
            || is_unused_word(
                self.values.r(),
                is_cycle(self.movement) || is_arc(self.movement),
            )
    }

    /// B13: F, S, or P of G4 is negative.
    #[inline]
    pub(crate) fn has_negative(&self) -> bool
        ensures { result ≡ has_negative self.now }
    {
        is_negative(self.values.f())
            || is_negative(self.values.s())
            || is_dwell(self.g.non_modal) && is_negative(self.values.p())
    }

    /// B14: T or H isn't a slot.
    #[inline]
    pub(crate) fn has_bad_slot(&self, slots: u8) -> bool
        ensures { result ≡ has_bad_slot self.now slots }
    {
        is_unused_word(
            self.values.t(),
            is_whole_within(0, slots as i64, self.values.t()),
        ) || is_unused_word(
            self.values.h(),
            is_whole_within(0, slots as i64, self.values.h()),
        )
    }

    /// B15: L of G10 is missing or isn't 2, or L of a cycle isn't whole or is below 1.
    #[inline]
    pub(crate) fn has_bad_l(&self) -> bool
        ensures { result ≡ has_bad_l self.now }
    {
        is_set_origin(self.g.non_modal) && !is_whole_within(2, 2, self.values.l())
            || is_cycle(self.movement)
                && is_unused_word(self.values.l(), is_positive(self.values.l()))
    }

    /// B16: P of G10 is missing, or isn't a whole number from 1 to 9.
    #[inline]
    pub(crate) fn has_bad_system(&self) -> bool
        ensures { result ≡ has_bad_system self.now }
    {
        is_set_origin(self.g.non_modal) && !is_whole_within(1, 9, self.values.p())
    }

    /// B17: G4 without P.
    #[inline]
    pub(crate) fn has_no_dwell(&self) -> bool
        ensures { result ≡ has_no_dwell self.now }
    {
        is_dwell(self.g.non_modal) && self.values.p().is_none()
    }

    /// B18: G43 without H.
    #[inline]
    pub(crate) fn has_no_h(&self) -> bool
        ensures { result ≡ has_no_h self.now }
    {
        is_of_slot(self.g.tool_length) && self.values.h().is_none()
    }

    /// B19: a cycle outside plane XY.
    #[inline]
    pub(crate) fn has_cycle_plane(&self, modes: &Modes) -> bool
        ensures { result ≡ has_cycle_plane self.now modes.now }
    {
        is_cycle(self.movement) && is_along_z(self.plane_after(modes))
    }
}
