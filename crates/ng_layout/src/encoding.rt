//! The bytes of a state field for what is stored.
ghost use Rattle.std.specs.Prelude.{◌≡◌, ◌≤◌, ◌≤ℤ◌, ◌==◌, ◌/◌, ◌%◌, ℕ, pos, true, List, length};
ghost use Rattle.std.specs.Prelude.{replicate, unwrap_or, is_some, IfSome, Some, None};
ghost use Rattle.std.specs.Option.{option_copied};
ghost use Rattle.ng_num.specs.Range.{IsCount};
ghost use Rattle.ng_layout.specs.Decoding.{count_of, rate_of, word_of, modal_state_in, half_in};
ghost use Rattle.ng_layout.specs.Encoding.{half_text, padded_text, HoldsWords, HoldsHalf, HoldsDecodedState};
ghost use Rattle.ng_layout.specs.Fields.{bytes_at, SameFrom};
ghost use Rattle.ng_layout.specs.Limits.{field_size, greatest_count, longest_text};
ghost use Rattle.ng_layout.specs.Rows.{AreAt, are_joined};
ghost use Rattle.ng_layout.specs.Storable.{IsStorableModalState, IsStorableHalf};

use crate::bytes::put_text;
use crate::codes::{
    code_of_distance, code_of_feed_mode, code_of_motion, code_of_opened, code_of_path,
    code_of_plane, code_of_retract, code_of_source, code_of_spindle, code_of_truth, code_of_unit,
};
use crate::half::{Half, LONGEST_TEXT};
use crate::places;
use crate::rows::Number::{I64, U8, U16, U64};
use crate::rows::{Row, put_rows};
use ng_canon::Feed;
use ng_num::{Len, Num, Point};
use ng_state::{KeptWords, ModalState};

fn count(len: Len) -> i64
    ensures { count_of result ≡ Some len }
{
    len.nm()
}

fn coordinates(point: Point) -> (i64, i64, i64)
    ensures x { count_of result.0 ≡ Some point.x }
    ensures y { count_of result.1 ≡ Some point.y }
    ensures z { count_of result.2 ≡ Some point.z }
{
    (point.x.nm(), point.y.nm(), point.z.nm())
}

fn feed_number(feed: Feed) -> u64
    requires { pos 0 ≤ℤ feed }
    ensures { rate_of result ≡ Some feed }
{
    feed.nm_per_min().unsigned_abs()
}

fn speed_number(speed: Num) -> u64
    requires { pos 0 ≤ℤ speed }
    ensures { rate_of result ≡ Some speed }
{
    speed.count().unsigned_abs()
}

/// 0 where the length isn't kept.
fn kept_len(len: Option<Len>) -> i64
    ensures is { result ≡ unwrap_or len (pos 0) }
    ensures range { IsCount result }
    ensures word { word_of (is_some len) result ≡ Some len }
{
    match len {
        Some(len) => len.nm(),
        None => 0,
    }
}

/// 0 where the number isn't kept.
fn kept_num(num: Option<Num>) -> i64
    ensures is { result ≡ unwrap_or num (pos 0) }
    ensures range { IsCount result }
    ensures word { word_of (is_some num) result ≡ Some num }
{
    match num {
        Some(num) => num.count(),
        None => 0,
    }
}

/// A bit for each of R, Z, P, Q.
fn kept_bits(kept: KeptWords) -> u8
    ensures all { result ≤ 15 }
    ensures r { (result % 2 == 1) ≡ is_some kept.r }
    ensures z { (result / 2 % 2 == 1) ≡ is_some kept.z }
    ensures p { (result / 4 % 2 == 1) ≡ is_some kept.p }
    ensures q { (result / 8 == 1) ≡ is_some kept.q }
{
    let r = if kept.r.is_some() { 1 } else { 0 };
    let z = if kept.z.is_some() { 2 } else { 0 };
    let p = if kept.p.is_some() { 4 } else { 0 };
    let q = if kept.q.is_some() { 8 } else { 0 };
    r + z + p + q
}

/// The numbers of a modal state.
fn modal_rows(modal: &ModalState) -> [Row; 32]
    requires { IsStorableModalState modal.now }
    ensures joined { are_joined 16 result 162 ≡ true }
    ensures means { (bytes : List ℕ) → AreAt result bytes → modal_state_in bytes ≡ Some modal.now }
    ensures words { (bytes : List ℕ) → AreAt result bytes → HoldsWords modal.now.kept bytes }
{
    let modes = modal.modes;
    let outputs = modal.outputs;
    let kept = modal.kept;
    let point = coordinates(modal.point);
    let g92 = coordinates(modal.offsets.g92);
    let origin = coordinates(modal.offsets.origin);
    [
        (places::POINT_AT, I64(point.0)),
        (places::POINT_AT + 8, I64(point.1)),
        (places::POINT_AT + 16, I64(point.2)),
        (places::FEED_AT, U64(feed_number(modal.feed_per_min))),
        (places::SPEED_AT, U64(speed_number(outputs.speed))),
        (places::G92_AT, I64(g92.0)),
        (places::G92_AT + 8, I64(g92.1)),
        (places::G92_AT + 16, I64(g92.2)),
        (places::ORIGIN_AT, I64(origin.0)),
        (places::ORIGIN_AT + 8, I64(origin.1)),
        (places::ORIGIN_AT + 16, I64(origin.2)),
        (
            places::TOOL_LENGTH_AT,
            I64(count(modal.offsets.tool_length)),
        ),
        (places::KEPT_R_AT, I64(kept_len(kept.r))),
        (places::KEPT_Z_AT, I64(kept_len(kept.z))),
        (places::KEPT_P_AT, I64(kept_num(kept.p))),
        (places::KEPT_Q_AT, I64(kept_len(kept.q))),
        (places::MOTION_AT, U8(code_of_motion(modes.motion))),
        (places::PLANE_AT, U8(code_of_plane(modes.plane))),
        (places::DISTANCE_AT, U8(code_of_distance(modes.distance))),
        (places::FEED_MODE_AT, U8(code_of_feed_mode(modes.feed_mode))),
        (places::UNIT_AT, U8(code_of_unit(modes.unit))),
        (places::RETRACT_AT, U8(code_of_retract(modes.retract))),
        (places::SYSTEM_AT, U8(modes.system.number())),
        (places::PATH_AT, U8(code_of_path(modes.path))),
        (places::SPINDLE_AT, U8(code_of_spindle(outputs.spindle))),
        (places::MIST_AT, U8(code_of_truth(outputs.mist))),
        (places::FLOOD_AT, U8(code_of_truth(outputs.flood))),
        (places::OVERRIDES_AT, U8(code_of_truth(modes.overrides))),
        (places::POINT_KNOWN_AT, U8(code_of_truth(modal.point_known))),
        (places::KEPT_WORDS_AT, U8(kept_bits(kept))),
        (
            places::SELECTED_SLOT_AT,
            U16(u16::from(outputs.selected_slot)),
        ),
        (
            places::SPINDLE_SLOT_AT,
            U16(u16::from(outputs.spindle_slot)),
        ),
    ]
}

/// The bytes of a text, followed by zeros.
fn text_field(text: &[u8]) -> [u8; LONGEST_TEXT]
    requires { length text.now ≤ longest_text }
    ensures { result ≡ padded_text text.now }
{
    let mut field = [0; LONGEST_TEXT];
    field[..text.len()].copy_from_slice(text);
    field
}

/// The numbers of a half-done block.
fn block_rows(half: &Half) -> [Row; 9]
    requires { IsStorableHalf half.now }
    ensures joined { are_joined 162 result 200 ≡ true }
    ensures means { (bytes : List ℕ) → AreAt result bytes
        → bytes_at longest_text 200 bytes ≡ padded_text half.now.text
        → (half_in bytes ≡ Some (Some half.now)) × HoldsHalf (Some half.now) bytes }
{
    let at = coordinates(half.at.unwrap_or(Point::zero()));
    [
        (places::SOURCE_AT, U8(code_of_source(half.source))),
        (places::OPENED_AT, U8(code_of_opened(half.opened))),
        (
            places::HALF_POINT_KNOWN_AT,
            U8(code_of_truth(half.at.is_some())),
        ),
        (places::UNUSED_AT, U8(0)),
        (places::TEXT_LENGTH_AT, U16(half.text.len() as u16)),
        (places::INDEX_AT, U64(half.index)),
        (places::HALF_POINT_AT, I64(at.0)),
        (places::HALF_POINT_AT + 8, I64(at.1)),
        (places::HALF_POINT_AT + 16, I64(at.2)),
    ]
}

/// The numbers where there is no half-done block.
fn no_block_rows() -> [Row; 9]
    ensures joined { are_joined 162 result 200 ≡ true }
    ensures means { (bytes : List ℕ) → AreAt result bytes → bytes_at longest_text 200 bytes ≡ replicate longest_text 0
        → (half_in bytes ≡ Some None) × HoldsHalf None bytes }
{
    [
        (places::SOURCE_AT, U8(0)),
        (places::OPENED_AT, U8(0)),
        (places::HALF_POINT_KNOWN_AT, U8(0)),
        (places::UNUSED_AT, U8(0)),
        (places::TEXT_LENGTH_AT, U16(0)),
        (places::INDEX_AT, U64(0)),
        (places::HALF_POINT_AT, I64(0)),
        (places::HALF_POINT_AT + 8, I64(0)),
        (places::HALF_POINT_AT + 16, I64(0)),
    ]
}

fn half_rows(half: Option<&Half>) -> [Row; 9]
    requires { IfSome half (λ h. IsStorableHalf h.now) }
    ensures joined { are_joined 162 result 200 ≡ true }
    ensures means { (bytes : List ℕ) → AreAt result bytes
        → bytes_at longest_text 200 bytes ≡ padded_text (half_text (option_copied half.entry))
        → (half_in bytes ≡ Some (option_copied half.entry)) × HoldsHalf (option_copied half.entry) bytes }
{
    match half {
        Some(half) => block_rows(half),
        None => no_block_rows(),
    }
}

fn half_text(half: Option<&Half>) -> [u8; LONGEST_TEXT]
    requires { IfSome half (λ h. IsStorableHalf h.now) }
    ensures { result ≡ padded_text (half_text (option_copied half.entry)) }
{
    match half {
        Some(half) => text_field(half.text.as_slice()),
        None => [0; LONGEST_TEXT],
    }
}

/// Writes a state field to the start of these bytes, from its end to its start. All bytes after it stay. What is read
/// of it is this state, for any program that contains the place.
pub(crate) fn encode(
    bytes: &mut [u8],
    entries: u64,
    place: u64,
    modal: &ModalState,
    half: Option<&Half>,
)
    requires fits { field_size ≤ length bytes.old }
    requires count { entries ≤ greatest_count }
    requires modal { IsStorableModalState modal.now }
    requires half { IfSome half (λ h. IsStorableHalf h.now) }
    ensures holds { (program : ℕ) → place ≤ program → HoldsDecodedState program
        (record { entries = entries; place = place; modal = modal.now; half = option_copied half.entry }) bytes.new }
    ensures beyond { SameFrom field_size bytes.old bytes.new }
{
    put_text(bytes, places::TEXT_AT, &half_text(half));
    put_rows(bytes, &half_rows(half));
    put_rows(bytes, &modal_rows(modal));
    put_rows(
        bytes,
        &[
            (places::ENTRIES_AT, U64(entries)),
            (places::PLACE_AT, U64(place)),
        ],
    );
}
