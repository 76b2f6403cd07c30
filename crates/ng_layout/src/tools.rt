//! The tool table in sectors, and the slot that a record changes.
ghost use Rattle.std.specs.Prelude.{◌≡◌, ◌↔◌, true, ◌≤◌, ◌<◌, ◌+◌, ◌*◌, [], ℕ, List, length, Some, None, IfSome, MatchBool};
ghost use Rattle.std.specs.Bool.{OnTrue};
ghost use Rattle.std.specs.Option.{ForSome};
ghost use Rattle.ng_layout.specs.Fields.{number_at};
ghost use Rattle.ng_layout.specs.declared.header.Format.TheVariants.{One, Two};
ghost use Rattle.ng_layout.specs.Limits.{sector_lengths, greatest_slot, slots_at};
ghost use Rattle.ng_layout.specs.Decoding.{up_to};
ghost use Rattle.ng_layout.specs.Snapshot.{HoldsLengths};
ghost use Rattle.ng_layout.specs.Storable.{IsStorableChange, IsStorableTools};
ghost use Rattle.ng_offsets.specs.Tools.{first_change, length_of_slot, with_change, IsToolLength};
ghost use Rattle.ng_layout.specs.Tools.{tools_in, tool_length_of, lengths_in, slot_change_in, tools_after};

use crate::bytes::{get_i64, get_u16, put_i64};
use crate::header::Format;
use crate::sectors::SECTOR_BYTES;
use ng_num::Len;
use ng_offsets::{SLOTS, SlotChange, Tools};

/// How many tool lengths a sector holds.
pub(crate) const LENGTHS: usize = 64;

/// How many bytes a length takes.
const LENGTH: usize = 8;

/// The greatest tool length, in nanometres.
const LONGEST_TOOL: i64 = 1_000_000_000;

/// The byte of a record's first part at which the slot that changes is stored, and its length after it.
pub(crate) const SLOT_AT: usize = 488;

pub(crate) const SLOT_LENGTH_AT: usize = 496;

/// The byte of a snapshot's first sector at which the number of slots is stored.
pub(crate) const SLOTS_AT: usize = 456;

fn tool_length_of(nm: i64) -> Option<Len>
    ensures value { result ≡ tool_length_of nm }
    ensures small { IfSome result IsToolLength }
{
    if 0 <= nm && nm <= LONGEST_TOOL {
        Len::of_nm(i128::from(nm)).ok()
    } else {
        None
    }
}

/// The sector of tool lengths whose first one has this index in the table, counted from 0.
pub(crate) fn lengths_sector(tools: &Tools, first: usize) -> [u8; SECTOR_BYTES]
    requires { first ≤ sector_lengths }
    ensures { HoldsLengths tools.now first result }
{
    let mut sector = [0; SECTOR_BYTES];
    for k in 0..LENGTHS {
        if first + k < tools.slots() {
            let length = tools.length((first + k) as u8 + 1);
            put_i64(&mut sector, LENGTH * k, length.nm());
        }
    }
    sector
}

/// Appends this many lengths from a sector of a tool area to the table. Returns false if one is out of range; then
/// those before it were appended.
fn take_lengths(tools: &mut Tools, part: usize, sector: &[u8; SECTOR_BYTES], count: usize) -> bool
    requires count { count ≤ sector_lengths }
    requires fits { sector_lengths * part + count ≤ SLOTS }
    requires before { length tools.old ≡ sector_lengths * part }
    ensures adds { (area : ℕ → List ℕ) → area part ≡ sector.now → lengths_in area (sector_lengths * part) ≡ Some tools.old
        → MatchBool result (lengths_in area (sector_lengths * part + count) ≡ Some tools.new)
        (lengths_in area (sector_lengths * part + count) ≡ None) }
    ensures long { OnTrue result (length tools.new ≡ sector_lengths * part + count) }
    ensures storable { OnTrue result (IsStorableTools tools.old → IsStorableTools tools.new) }
{
    for k in 0..count {
        match tool_length_of(get_i64(sector, LENGTH * k)) {
            Some(length) => tools.push(length),
            None => return false,
        }
    }
    true
}

/// The change of a table with this many slots that the first part of a record makes. `None` if it is out of range.
#[tactic(auto, unfolding(crate::specs::Tools::slot_change_in))]
fn slot_change(sector: &[u8; SECTOR_BYTES], slots: usize) -> Option<Option<SlotChange>>
    requires { slots ≤ SLOTS }
    ensures value { result ≡ slot_change_in slots sector.now }
    ensures slot { IfSome result (λ c. IfSome c (λ change. (1 ≤ change.slot) × (change.slot ≤ slots + 1) × (change.slot ≤ SLOTS))) }
    ensures tool { IfSome result (λ c. IfSome c (λ change. IsToolLength change.length)) }
{
    let slot = get_u16(sector, SLOT_AT);
    let length = get_i64(sector, SLOT_LENGTH_AT);
    let length = tool_length_of(length)?;
    if slot == 0 {
        return Some(None);
    }
    if slot as usize > slots + 1 || slot as usize > SLOTS {
        return None;
    }
    Some(Some(SlotChange {
        slot: slot as u8,
        length,
    }))
}

/// Applies the change in the first part of a record to a tool table. Returns false if it is out of range. In format 1
/// there is no change.
pub fn take_slot(format: Format, tools: &mut Tools, sector: &[u8; SECTOR_BYTES]) -> bool
    ensures makes { MatchBool result (tools_after format sector.now tools.old ≡ Some tools.new)
        (tools_after format sector.now tools.old ≡ None) }
    ensures storable { OnTrue result (IsStorableTools tools.old → IsStorableTools tools.new) }
    ensures none { format ≡ One → tools.new ≡ tools.old }
{
    match format {
        Format::One => true,
        Format::Two => match slot_change(sector, tools.slots()) {
            None => false,
            Some(None) => true,
            Some(Some(change)) => {
                tools.set(change);
                true
            }
        },
    }
}

/// Makes a change of a tool table, if there is one.
pub(crate) fn change_slot(tools: &mut Tools, slot: Option<SlotChange>)
    requires { ForSome slot (IsStorableChange tools.old) }
    ensures { tools.new ≡ with_change slot tools.old }
{
    if let Some(change) = slot {
        tools.set(change);
    }
}

/// Whether a slot has a length already.
fn has_length(tools: &Tools, slot: u8, tool_length: Len) -> bool
    ensures { (result ≡ true) ↔ ((slot ≤ length tools.now) × (length_of_slot tools.now slot ≡ tool_length)) }
{
    slot as usize <= tools.slots() && tools.length(slot) == tool_length
}

/// What a change of a tool table changes: nothing if there is no change, or if the slot has that length already.
pub fn changed_slot(tools: &Tools, slot: Option<SlotChange>) -> Option<SlotChange>
    requires { ForSome slot (IsStorableChange tools.now) }
    ensures { result ≡ first_change tools.now (with_change slot tools.now) }
{
    match slot {
        None => None,
        Some(change) => {
            if has_length(tools, change.slot, change.length) {
                return None;
            }
            Some(change)
        }
    }
}

/// The number of slots of a snapshot, from its first sector. `None` if it is out of range.
fn slots_of(sector: &[u8; SECTOR_BYTES]) -> Option<usize>
    ensures { result ≡ up_to greatest_slot (number_at 2 slots_at sector.now) }
{
    let slots = get_u16(sector, SLOTS_AT) as usize;
    if slots <= SLOTS { Some(slots) } else { None }
}

/// Takes over the tool table of a snapshot with this first sector, from the two sectors of its tool area. Returns false
/// if it is damaged.
pub fn take_area(
    tools: &mut Tools,
    first: &[u8; SECTOR_BYTES],
    lower: &[u8; SECTOR_BYTES],
    upper: &[u8; SECTOR_BYTES],
) -> bool
    requires { tools.old ≡ [] }
    ensures takes { (area : ℕ → List ℕ) → area 0 ≡ lower.now → area 1 ≡ upper.now
        → MatchBool result (tools_in Two first.now area ≡ Some tools.new) (tools_in Two first.now area ≡ None) }
    ensures storable { OnTrue result (IsStorableTools tools.new) }
{
    match slots_of(first) {
        None => false,
        Some(slots) if slots <= LENGTHS => take_lengths(tools, 0, lower, slots),
        Some(slots) => {
            take_lengths(tools, 0, lower, LENGTHS) && take_lengths(tools, 1, upper, slots - LENGTHS)
        }
    }
}
