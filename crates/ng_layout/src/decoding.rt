//! What the bytes of a state field say.
ghost use Rattle.std.specs.Prelude.{◌≡◌, ◌+◌, ◌≤◌, ◌≤ℤ◌, false, pos, length, Some, IsNone, IfSome};
ghost use Rattle.ng_layout.specs.Limits.{field_size, greatest_slot};
ghost use Rattle.ng_layout.specs.Sound.{IsSound};
ghost use Rattle.ng_layout.specs.Storable.{IsStorableModalState, IsStorableHalf};
ghost use Rattle.ng_layout.specs.Decoding.{count_of, rate_of, up_to, point_at, modes_in, outputs_in, offsets_in};
ghost use Rattle.ng_layout.specs.Decoding.{kept_by, kept_in, modal_state_in, known_point, half_by, half_in};
ghost use Rattle.ng_layout.specs.Decoding.{decoded_state_of};

use crate::bytes::{get_i64, get_u8, get_u16, get_u64};
use crate::codes::{
    distance_of, feed_mode_of, motion_of, opened_of, path_of, plane_of, retract_of, source_of,
    spindle_of, truth_of, unit_of,
};
use crate::half::{Half, LONGEST_TEXT, Opened, Source, copy_of, text_from};
use crate::places;
use ng_canon::{Feed, Outputs};
use ng_num::{Len, Num, Point};
use ng_offsets::Offsets;
use ng_params::System;
use ng_state::{KeptWords, ModalState, Modes};
use std::marker::Model;

/// The greatest entry count, and the greatest epoch.
pub const GREATEST_COUNT: u64 = 1_000_000_000_000;

/// The greatest number of a slot.
const GREATEST_SLOT: u16 = 128;

/// The bits of all words that a cycle may keep.
const ALL_KEPT: u8 = 15;

/// What a state field says. Contracts see a `DecodedStateModel`.
#[derive(Drop)]
pub struct DecodedState {
    pub entries: u64,
    pub place: u64,
    pub modal: ModalState,
    pub half: Option<Half>,
}

impl Model for DecodedState {
    ghost use Rattle.ng_layout.specs.Stored.{DecodedStateModel};

    ghost Value = { DecodedStateModel };

    ghost view = { λ r. record { entries = r.entries; place = r.place; modal = r.modal; half = r.half } };
}

impl DecodedState {
    /// A copy. It doesn't allocate.
    pub fn copy(&self) -> DecodedState
        ensures { result ≡ self.now }
    {
        DecodedState {
            entries: self.entries,
            place: self.place,
            modal: self.modal,
            half: copy_of(&self.half),
        }
    }
}

fn len_of(nm: i64) -> Option<Len>
    ensures { result ≡ count_of nm }
{
    Len::of_nm(i128::from(nm)).ok()
}

fn num_of(millionths: i64) -> Option<Num>
    ensures { result ≡ count_of millionths }
{
    Num::of(i128::from(millionths)).ok()
}

fn feed_of(nm_per_min: u64) -> Option<Feed>
    ensures value { result ≡ rate_of nm_per_min }
    ensures sign { IfSome result (λ feed. pos 0 ≤ℤ feed) }
{
    let per_min = Len::of_nm(i128::from(nm_per_min)).ok()?;
    Some(Feed::of(per_min))
}

fn speed_of(millionths: u64) -> Option<Num>
    ensures value { result ≡ rate_of millionths }
    ensures sign { IfSome result (λ speed. pos 0 ≤ℤ speed) }
{
    Num::of(i128::from(millionths)).ok()
}

fn slot_of(number: u16) -> Option<u8>
    ensures value { result ≡ up_to greatest_slot number }
    ensures small { IfSome result (λ slot. slot ≤ greatest_slot) }
{
    if number <= GREATEST_SLOT {
        Some(number as u8)
    } else {
        None
    }
}

/// The point whose coordinates begin at a byte.
fn point_at(bytes: &[u8], at: usize) -> Option<Point>
    requires { at + 24 ≤ length bytes.now }
    ensures { result ≡ point_at at bytes.now }
{
    Some(Point {
        x: len_of(get_i64(bytes, at))?,
        y: len_of(get_i64(bytes, at + 8))?,
        z: len_of(get_i64(bytes, at + 16))?,
    })
}

fn modes_in(bytes: &[u8]) -> Option<Modes>
    requires { field_size ≤ length bytes.now }
    ensures { result ≡ modes_in bytes.now }
{
    Some(Modes {
        motion: motion_of(get_u8(bytes, places::MOTION_AT))?,
        plane: plane_of(get_u8(bytes, places::PLANE_AT))?,
        distance: distance_of(get_u8(bytes, places::DISTANCE_AT))?,
        feed_mode: feed_mode_of(get_u8(bytes, places::FEED_MODE_AT))?,
        unit: unit_of(get_u8(bytes, places::UNIT_AT))?,
        retract: retract_of(get_u8(bytes, places::RETRACT_AT))?,
        system: System::of(i64::from(get_u8(bytes, places::SYSTEM_AT)))?,
        path: path_of(get_u8(bytes, places::PATH_AT))?,
        overrides: truth_of(get_u8(bytes, places::OVERRIDES_AT))?,
    })
}

fn outputs_in(bytes: &[u8]) -> Option<Outputs>
    requires { field_size ≤ length bytes.now }
    ensures value { result ≡ outputs_in bytes.now }
    ensures speed { IfSome result (λ o. pos 0 ≤ℤ o.speed) }
    ensures slots { IfSome result (λ o. (o.selected_slot ≤ greatest_slot) × (o.spindle_slot ≤ greatest_slot)) }
{
    Some(Outputs {
        spindle: spindle_of(get_u8(bytes, places::SPINDLE_AT))?,
        speed: speed_of(get_u64(bytes, places::SPEED_AT))?,
        mist: truth_of(get_u8(bytes, places::MIST_AT))?,
        flood: truth_of(get_u8(bytes, places::FLOOD_AT))?,
        selected_slot: slot_of(get_u16(bytes, places::SELECTED_SLOT_AT))?,
        spindle_slot: slot_of(get_u16(bytes, places::SPINDLE_SLOT_AT))?,
    })
}

fn offsets_in(bytes: &[u8]) -> Option<Offsets>
    requires { field_size ≤ length bytes.now }
    ensures { result ≡ offsets_in bytes.now }
{
    Some(Offsets {
        origin: point_at(bytes, places::ORIGIN_AT)?,
        g92: point_at(bytes, places::G92_AT)?,
        tool_length: len_of(get_i64(bytes, places::TOOL_LENGTH_AT))?,
    })
}

/// The words that a cycle keeps, by a bit for each of R, Z, P, Q.
fn kept_by(kept: u8, bytes: &[u8]) -> Option<KeptWords>
    requires { field_size ≤ length bytes.now }
    ensures { result ≡ kept_by kept bytes.now }
{
    Some(KeptWords {
        r: (kept % 2 == 1).then_some(len_of(get_i64(bytes, places::KEPT_R_AT))?),
        z: (kept / 2 % 2 == 1).then_some(len_of(get_i64(bytes, places::KEPT_Z_AT))?),
        p: (kept / 4 % 2 == 1).then_some(num_of(get_i64(bytes, places::KEPT_P_AT))?),
        q: (kept / 8 == 1).then_some(len_of(get_i64(bytes, places::KEPT_Q_AT))?),
    })
}

fn kept_in(bytes: &[u8]) -> Option<KeptWords>
    requires { field_size ≤ length bytes.now }
    ensures { result ≡ kept_in bytes.now }
{
    let kept = get_u8(bytes, places::KEPT_WORDS_AT);
    if kept > ALL_KEPT {
        return None;
    }
    kept_by(kept, bytes)
}

fn modal_state_in(bytes: &[u8]) -> Option<ModalState>
    requires { field_size ≤ length bytes.now }
    ensures value { result ≡ modal_state_in bytes.now }
    ensures storable { IfSome result IsStorableModalState }
{
    Some(ModalState {
        modes: modes_in(bytes)?,
        feed_per_min: feed_of(get_u64(bytes, places::FEED_AT))?,
        outputs: outputs_in(bytes)?,
        offsets: offsets_in(bytes)?,
        kept: kept_in(bytes)?,
        point: point_at(bytes, places::POINT_AT)?,
        point_known: truth_of(get_u8(bytes, places::POINT_KNOWN_AT))?,
    })
}

fn known_point(is_known: bool, bytes: &[u8]) -> Option<Option<Point>>
    requires { field_size ≤ length bytes.now }
    ensures value { result ≡ known_point is_known bytes.now }
    ensures unknown { IfSome result (λ at. is_known ≡ false → IsNone at) }
{
    if is_known {
        Some(Some(point_at(bytes, places::HALF_POINT_AT)?))
    } else {
        Some(None)
    }
}

#[tactic(auto, unfolding(crate::specs::Fields::bytes_at))]
fn half_by(
    bytes: &[u8],
    opened: Option<Opened>,
    is_known: bool,
    source: Source,
) -> Option<Option<Half>>
    requires { field_size ≤ length bytes.now }
    ensures value { result ≡ half_by bytes.now opened is_known (Some source) }
    ensures storable { IfSome result (λ half. IfSome half IsStorableHalf) }
{
    let length = get_u16(bytes, places::TEXT_LENGTH_AT) as usize;
    if length > LONGEST_TEXT || (opened.is_some() && is_known) {
        return None;
    }
    let at = known_point(is_known, bytes)?;
    Some(Some(Half {
        text: text_from(&bytes[places::TEXT_AT..places::TEXT_AT + length]),
        source,
        index: get_u64(bytes, places::INDEX_AT),
        at,
        opened,
    }))
}

fn half_in(bytes: &[u8]) -> Option<Option<Half>>
    requires { field_size ≤ length bytes.now }
    ensures value { result ≡ half_in bytes.now }
    ensures storable { IfSome result (λ half. IfSome half IsStorableHalf) }
{
    let opened = opened_of(get_u8(bytes, places::OPENED_AT))?;
    let is_known = truth_of(get_u8(bytes, places::HALF_POINT_KNOWN_AT))?;
    match source_of(get_u8(bytes, places::SOURCE_AT))? {
        Some(source) => half_by(bytes, opened, is_known, source),
        None if opened.is_none() && !is_known => Some(None),
        None => None,
    }
}

/// What the state field at the start of these bytes says, for a program of this length in bytes. `None` if one of its
/// numbers is out of range.
#[tactic(auto, unfolding(crate::specs::Decoding::decoded_state_of))]
pub fn decode(bytes: &[u8], program: u64) -> Option<DecodedState>
    requires { field_size ≤ length bytes.now }
    ensures value { result ≡ decoded_state_of program bytes.now }
    ensures sound { IfSome result (IsSound program) }
{
    let entries = get_u64(bytes, places::ENTRIES_AT);
    let place = get_u64(bytes, places::PLACE_AT);
    if entries > GREATEST_COUNT || place > program {
        return None;
    }
    Some(DecodedState {
        entries,
        place,
        modal: modal_state_in(bytes)?,
        half: half_in(bytes)?,
    })
}
