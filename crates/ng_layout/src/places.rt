//! The bytes of a state field at which its numbers begin, by name.

pub(crate) const ENTRIES_AT: usize = 0;

pub(crate) const PLACE_AT: usize = 8;

pub(crate) const POINT_AT: usize = 16;

pub(crate) const FEED_AT: usize = 40;

pub(crate) const SPEED_AT: usize = 48;

pub(crate) const G92_AT: usize = 56;

pub(crate) const ORIGIN_AT: usize = 80;

pub(crate) const TOOL_LENGTH_AT: usize = 104;

/// The words that a cycle keeps.
pub(crate) const KEPT_R_AT: usize = 112;

pub(crate) const KEPT_Z_AT: usize = 120;

pub(crate) const KEPT_P_AT: usize = 128;

pub(crate) const KEPT_Q_AT: usize = 136;

/// The values that take one byte each.
pub(crate) const MOTION_AT: usize = 144;

pub(crate) const PLANE_AT: usize = 145;

pub(crate) const DISTANCE_AT: usize = 146;

pub(crate) const FEED_MODE_AT: usize = 147;

pub(crate) const UNIT_AT: usize = 148;

pub(crate) const RETRACT_AT: usize = 149;

pub(crate) const SYSTEM_AT: usize = 150;

pub(crate) const PATH_AT: usize = 151;

pub(crate) const SPINDLE_AT: usize = 152;

pub(crate) const MIST_AT: usize = 153;

pub(crate) const FLOOD_AT: usize = 154;

pub(crate) const OVERRIDES_AT: usize = 155;

pub(crate) const POINT_KNOWN_AT: usize = 156;

pub(crate) const KEPT_WORDS_AT: usize = 157;

/// The slots.
pub(crate) const SELECTED_SLOT_AT: usize = 158;

pub(crate) const SPINDLE_SLOT_AT: usize = 160;

/// A half-done block.
pub(crate) const SOURCE_AT: usize = 162;

pub(crate) const OPENED_AT: usize = 163;

pub(crate) const HALF_POINT_KNOWN_AT: usize = 164;

/// Written as 0, and not looked at.
pub(crate) const UNUSED_AT: usize = 165;

pub(crate) const TEXT_LENGTH_AT: usize = 166;

pub(crate) const INDEX_AT: usize = 168;

pub(crate) const HALF_POINT_AT: usize = 176;

pub(crate) const TEXT_AT: usize = 200;
