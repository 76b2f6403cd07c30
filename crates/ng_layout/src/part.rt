//! The parts of a record in the log, one sector each (own; docs/DEVICE.md).
//!
//! The first part of a record holds the whole state field. The other parts hold the record's changes of parameters;
//! each but the last is full. All parts begin with the same label, except for the number of the part.
ghost use Rattle.std.specs.Prelude.{◌≡◌, ◌≤◌, ◌+◌, ◌-◌, length, drop, replicate, IfSome};
ghost use Rattle.ng_num.specs.Range.{IsCount};
ghost use Rattle.ng_layout.specs.Limits.{field_size, greatest_count, sector_size, label_size, content_first, change_size, part_changes, record_changes, record_parts, slot_at, slot_length_at};
ghost use Rattle.ng_layout.specs.Fields.{number_at, signed_at, bytes_at, SameBelow, SameFrom};
ghost use Rattle.ng_layout.specs.Log.{is_part, change_at, parts_for};
ghost use Rattle.ng_layout.specs.Part.{label_of, label_at, slot_number, slot_length, HoldsLabel, HoldsState, HoldsChanges, MakesOrDamaged};
ghost use Rattle.ng_layout.specs.Decoding.{decoded_state_of};
ghost use Rattle.ng_layout.specs.Encoding.{HoldsDecodedState};
ghost use Rattle.ng_layout.specs.Snapshot.{decoded_state_in};
ghost use Rattle.ng_layout.specs.Sound.{IsSound};
ghost use Rattle.ng_layout.specs.Storable.{IsStorable};

use crate::bytes::{get_i64, get_u16, get_u64, put_i64, put_u16};
use crate::decoding::{DecodedState, decode};
use crate::rows::Number::{U16, U64};
use crate::rows::put_rows;
use crate::sectors::SECTOR_BYTES;
use crate::stored::Stored;
use crate::tools::{SLOT_AT, SLOT_LENGTH_AT};
use ng_num::Num;
use ng_offsets::SlotChange;
use ng_params::{Change, Index, Params};
use std::alloc::Allocator;

/// The most changes of a part.
pub const PART_CHANGES: usize = 48;

/// The byte of a part at which its content begins.
const CONTENT: usize = 32;

/// How many bytes a change takes.
const CHANGE: usize = 10;

/// The bytes of a part at which the numbers of its label begin.
const EPOCH_AT: usize = 0;

const NUMBER_AT: usize = 8;

const PART_AT: usize = 16;

const PARTS_AT: usize = 18;

const CHANGES_AT: usize = 20;

/// The byte of a change at which its value begins.
const VALUE_AT: usize = 2;

/// The label of a part (own).
#[derive(Clone, Copy, Debug, PartialEq, Eq)]
pub struct PartLabel {
    /// The epoch of its record.
    pub epoch: u64,
    /// The number of its record in that epoch, from 0.
    pub number: u64,
    /// Its own number in the record, from 0.
    pub part: u16,
    /// How many parts the record has.
    pub parts: u16,
    /// How many changes the record has.
    pub changes: u16,
}

impl PartLabel {
    /// The numbers in a sector where the label of a part would be. The caller has to check whether the sector is a
    /// part, and of which record.
    pub fn read(sector: &[u8; SECTOR_BYTES]) -> PartLabel
        ensures { result ≡ label_at sector.now }
    {
        PartLabel {
            epoch: get_u64(sector, EPOCH_AT),
            number: get_u64(sector, NUMBER_AT),
            part: get_u16(sector, PART_AT),
            parts: get_u16(sector, PARTS_AT),
            changes: get_u16(sector, CHANGES_AT),
        }
    }

    /// Whether a sector has this label.
    #[tactic(auto, unfolding(crate::specs::Log::is_part))]
    pub fn is_of(self, sector: &[u8; SECTOR_BYTES]) -> bool
        ensures { result ≡ is_part (label_of self) sector.now }
    {
        get_u64(sector, EPOCH_AT) == self.epoch
            && get_u64(sector, NUMBER_AT) == self.number
            && get_u16(sector, PART_AT) == self.part
            && get_u16(sector, PARTS_AT) == self.parts
            && get_u16(sector, CHANGES_AT) == self.changes
    }

    /// A sector with this label. All other bytes are 0.
    fn sector(self) -> [u8; SECTOR_BYTES]
        ensures label { HoldsLabel (label_of self) result }
        ensures rest { SameFrom label_size (replicate sector_size 0) result }
    {
        let mut sector = [0; SECTOR_BYTES];
        put_rows(
            &mut sector,
            &[
                (EPOCH_AT, U64(self.epoch)),
                (NUMBER_AT, U64(self.number)),
                (PART_AT, U16(self.part)),
                (PARTS_AT, U16(self.parts)),
                (CHANGES_AT, U16(self.changes)),
            ],
        );
        sector
    }
}

/// How many parts a record with this many changes has.
pub fn parts_for(changes: usize) -> usize
    requires { changes ≤ record_changes }
    ensures value { result ≡ parts_for changes }
    ensures few { result ≤ record_parts }
{
    1 + (changes + PART_CHANGES - 1) / PART_CHANGES
}

/// The first part of a record of what is stored, and of the slot that changes with it. Its label is that of part 0;
/// bytes that no field names are 0. It doesn't allocate.
pub fn first_part<A: Allocator + Copy + Drop>(
    label: PartLabel,
    stored: &Stored<A>,
    change: Option<SlotChange>,
) -> [u8; SECTOR_BYTES]
    requires count { stored.now.entries ≤ greatest_count }
    requires storable { IsStorable stored.now }
    ensures label { HoldsLabel (label_of label) result }
    ensures state { HoldsState stored.now change result }
{
    let mut sector = label.sector();
    put_change(&mut sector, change);
    put_state(&mut sector, stored);
    sector
}

/// Writes the slot that changes, and its length, after a state field; 0 if none changes. All bytes before them stay.
fn put_change(sector: &mut [u8; SECTOR_BYTES], change: Option<SlotChange>)
    ensures below { SameBelow slot_at sector.old sector.new }
    ensures slot { number_at 2 slot_at sector.new ≡ slot_number change }
    ensures tool { signed_at slot_length_at sector.new ≡ slot_length change }
    ensures between { bytes_at (slot_length_at - (slot_at + 2)) (slot_at + 2) sector.new
        ≡ bytes_at (slot_length_at - (slot_at + 2)) (slot_at + 2) sector.old }
    ensures beyond { SameFrom (slot_length_at + 8) sector.old sector.new }
{
    let (slot, length) = change_numbers(change);
    put_u16(sector, SLOT_AT, slot);
    put_i64(sector, SLOT_LENGTH_AT, length);
}

/// The number of the slot that changes and its new length; both 0 if none changes.
fn change_numbers(change: Option<SlotChange>) -> (u16, i64)
    ensures slot { result.0 ≡ slot_number change }
    ensures tool { result.1 ≡ slot_length change }
    ensures range { IsCount result.1 }
{
    match change {
        Some(change) => (u16::from(change.slot), change.length.nm()),
        None => (0, 0),
    }
}

/// Writes the state field of what is stored after a label. All other bytes stay.
fn put_state<A: Allocator + Copy + Drop>(sector: &mut [u8; SECTOR_BYTES], stored: &Stored<A>)
    requires count { stored.now.entries ≤ greatest_count }
    requires storable { IsStorable stored.now }
    ensures state { HoldsDecodedState stored.now.length (decoded_state_in stored.now) (drop content_first sector.new) }
    ensures label { SameBelow content_first sector.old sector.new }
    ensures beyond { SameFrom (content_first + field_size) sector.old sector.new }
{
    stored.encode(&mut sector[CONTENT..]);
}

/// What the state field in a record's first part says, for a program of this length in bytes. `None` if one of its
/// numbers is out of range.
pub fn decoded_state_of_part(sector: &[u8; SECTOR_BYTES], length: u64) -> Option<DecodedState>
    ensures value { result ≡ decoded_state_of length (drop content_first sector.now) }
    ensures sound { IfSome result (IsSound length) }
{
    decode(&sector[CONTENT..], length)
}

/// A later part of a record, with these changes. All other bytes are 0. It doesn't allocate.
pub fn changes_part(label: PartLabel, changes: &[Change]) -> [u8; SECTOR_BYTES]
    requires { length changes.now ≤ part_changes }
    ensures label { HoldsLabel (label_of label) result }
    ensures changes { HoldsChanges changes.now result }
{
    let mut sector = label.sector();
    for (k, change) in changes.iter().enumerate() {
        let at = CONTENT + CHANGE * k;
        put_u16(&mut sector, at, change.index.number());
        put_i64(&mut sector, at + VALUE_AT, change.value.count());
    }
    sector
}

/// The change at a position in a part. `None` if its index or its value is out of range.
fn change_at(sector: &[u8; SECTOR_BYTES], at: usize) -> Option<Change>
    requires { at + change_size ≤ sector_size }
    ensures { result ≡ change_at sector.now at }
{
    Some(Change {
        index: Index::of(i64::from(get_u16(sector, at)))?,
        value: Num::of(i128::from(get_i64(sector, at + VALUE_AT))).ok()?,
    })
}

/// Applies the first changes of a part to a table. Returns false if one is out of range; then those before it were
/// applied.
pub fn take_changes<A: Allocator + Copy + Drop>(
    table: &mut Params<A>,
    sector: &[u8; SECTOR_BYTES],
    count: usize,
) -> bool
    requires { count ≤ part_changes }
    ensures { MakesOrDamaged result sector.now count table.old table.new }
{
    for k in 0..count {
        let at = CONTENT + CHANGE * k;
        match change_at(sector, at) {
            Some(change) => table.set(change.index, change.value),
            None => return false,
        }
    }
    true
}
