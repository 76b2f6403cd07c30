//! Storing a state as a record. If the log has no room for it, the old state is checkpointed first.
ghost use Rattle.std.specs.Prelude.{◌≡◌, ◌≤◌, ◌<◌, ◌+◌, ◌⊎◌, ◌↔◌, true, length, OnOk, IfOk};
ghost use Rattle.std.specs.Option.{ForSome};
ghost use Rattle.ng_rig.specs.Calls.{IfHonest, IsCall};
ghost use Rattle.ng_layout.specs.Limits.{greatest_count};
ghost use Rattle.ng_params.specs.Numbers.{parameter_count};
ghost use Rattle.ng_layout.specs.Areas.{log_size_of, least_size};
ghost use Rattle.ng_layout.specs.Stored.{StoredModel};
ghost use Rattle.ng_layout.specs.Update.{updated};
ghost use Rattle.ng_log.specs.AtEnd.{end_after, no_records};
ghost use Rattle.ng_offsets.specs.Tools.{first_change, with_change, IsOneSlotFrom};
ghost use Rattle.ng_layout.specs.Storable.{IsStorableChange};
ghost use Rattle.ng_params.specs.Differences.{differences};
ghost use Rattle.ng_journal.specs.Journal.{IsTip};
ghost use Rattle.ng_journal.specs.Private.Records.{IsRoom, MakesRoom, MayStand, LeadsTo, AppendsRecord, StoresNext, IsTipAfter, ledger};
ghost use Rattle.ng_journal.specs.Storing.{HasRoomFor, IsFullFor, IsSettled};

use crate::checkpoint::{checkpoint, next_header};
use ng_layout::{Header, Stored, Update, changed_slot, parts_for};
use ng_log::{LogEnd, RecordChanges, append};
use ng_offsets::SlotChange;
use ng_params::difference_count;
use ng_rig::{Failed, Rig};
use std::alloc::Allocator;

/// The header in force, and where its log ends.
#[derive(Clone, Copy)]
pub(crate) struct Tip {
    pub(crate) header: Header,
    pub(crate) end: LogEnd,
}

impl Tip {
    /// The tip of a log without a record.
    pub(crate) fn beginning(header: Header) -> Tip
        ensures { result ≡ record { header = header; end = no_records } }
    {
        Tip {
            header,
            end: LogEnd::START,
        }
    }

    /// Whether a record of this many changes would end past the log.
    pub(crate) fn is_full_for(self, count: usize) -> bool
        requires within { self.end.sector ≤ log_size_of self.header }
        requires few { count ≤ parameter_count }
        ensures { (result ≡ true) ↔ IsFullFor self.header self.end count }
    {
        self.end.sector + parts_for(count) > self.header.log_size()
    }
}

/// How many changes of parameters lead from one state to the other.
pub(crate) fn count_between<A: Allocator + Copy + Drop>(
    old: &Stored<A>,
    stored: &Stored<A>,
) -> usize
    ensures count { result ≡ length (differences old.now.setup.params stored.now.setup.params) }
    ensures few { result ≤ parameter_count }
{
    difference_count(&old.state.params, &stored.state.params)
}

/// The changes of parameters that lead from one state to the other.
fn changes_between<'a, A: Allocator + Copy + Drop>(
    old: &'a Stored<A>,
    stored: &'a Stored<A>,
) -> RecordChanges<'a, A>
    ensures changes { result ≡ differences old.now.setup.params stored.now.setup.params }
    ensures few { length result ≤ parameter_count }
{
    RecordChanges::between(&old.state.params, &stored.state.params)
}

/// The slot whose change leads from one tool table to the other.
fn slot_between<A: Allocator + Copy + Drop>(
    old: &Stored<A>,
    stored: &Stored<A>,
) -> Option<SlotChange>
    ensures { result ≡ first_change old.now.tools stored.now.tools }
{
    old.tools.change_to(&stored.tools)
}

/// The slot whose length an update changes.
fn slot_of<A: Allocator + Copy + Drop>(
    stored: &Stored<A>,
    update: &Update<'_>,
) -> Option<SlotChange>
    requires { ForSome update.now.slot (IsStorableChange stored.now.tools) }
    ensures { result ≡ first_change stored.now.tools (with_change update.now.slot stored.now.tools) }
{
    changed_slot(&stored.tools, update.slot)
}

/// Takes over all of another state but its program limit, which stays that of the device. Nothing is allocated.
pub(crate) fn take_state<A: Allocator + Copy + Drop>(stored: &mut Stored<A>, other: &Stored<A>)
    requires own { length stored.old.setup.params ≡ parameter_count }
    requires other { length other.now.setup.params ≡ parameter_count }
    ensures { stored.new ≡ record other.now { program_limit = stored.old.program_limit } }
{
    let most = stored.program_limit;
    stored.take_over(other);
    stored.program_limit = most;
}

/// Writes the old state under the next epoch, if the log has no room for a record of this many changes.
fn make_room<R: Rig, A: Allocator + Copy + Drop>(
    rig: &mut R,
    tip: Tip,
    stored: &Stored<A>,
    count: usize,
) -> Result<Tip, Failed>
    requires sectors { least_size ≤ (R.seen rig.old).sectors }
    requires tip { IsTip stored.now.length tip.header tip.end }
    requires few { count ≤ parameter_count }
    requires epoch { IsFullFor tip.header tip.end count → tip.header.epoch < greatest_count }
    requires stands { MayStand stored.now }
    ensures makes { IfHonest (R.seen rig.old) (R.seen rig.new)
        (MakesRoom result (ledger tip stored.now) count (R.seen rig.old).trace (R.seen rig.new).trace) }
    ensures room { IfOk result (IsRoom (ledger tip stored.now) count) }
    // Also for a device that isn't honest.
    ensures tip { IfOk result (λ t. IsTip stored.now.length t.header t.end) }
    ensures call { IsCall result (R.seen rig.old) (R.seen rig.new) }
{
    if !tip.is_full_for(count) {
        return Ok(tip);
    }
    let next = next_header(tip.header, tip.header.area, tip.header.length);
    checkpoint(rig, next, stored)?;
    Ok(Tip::beginning(next))
}

/// Writes the record of what is stored, with the changes that lead to it. The log has room for it.
fn append_to<R: Rig, A: Allocator + Copy + Drop>(
    rig: &mut R,
    tip: Tip,
    stored: &Stored<A>,
    changes: RecordChanges<'_, A>,
    slot: Option<SlotChange>,
) -> Result<Tip, Failed>
    requires sectors { least_size ≤ (R.seen rig.old).sectors }
    requires tip { IsTip stored.now.length tip.header tip.end }
    requires few { length changes ≤ parameter_count }
    requires room { HasRoomFor tip.header tip.end (length changes) }
    requires stands { MayStand stored.now }
    // The room for a program is that of the device.
    ensures appends { IfHonest (R.seen rig.old) (R.seen rig.new)
        ((was : StoredModel) → LeadsTo was stored.now changes.entry slot
        → AppendsRecord result (ledger tip was) (record stored.now { program_limit = was.program_limit })
        (R.seen rig.old).trace (R.seen rig.new).trace) }
    // Also for a device that isn't honest.
    ensures end { IfOk result (λ t. t ≡ record { header = tip.header; end = end_after tip.end (length changes.entry) }) }
    ensures tip { IfOk result (λ t. IsTip stored.now.length t.header t.end) }
    ensures call { IsCall result (R.seen rig.old) (R.seen rig.new) }
{
    let end = append(rig, tip.header, tip.end, stored, changes, slot)?;
    Ok(Tip {
        header: tip.header,
        end,
    })
}

/// Writes a new state as a record after the end of the log or, if this log has no room, of the next epoch's. Nothing is
/// allocated.
pub(crate) fn store<'a, R: Rig, A: Allocator + Copy + Drop>(
    rig: &mut R,
    tip: Tip,
    old: &'a Stored<A>,
    stored: &'a Stored<A>,
) -> Result<Tip, Failed>
    requires sectors { least_size ≤ (R.seen rig.old).sectors }
    requires tip { IsTip old.now.length tip.header tip.end }
    requires one { IsOneSlotFrom old.now.tools stored.now.tools }
    requires epoch { IsFullFor tip.header tip.end (length (differences old.now.setup.params stored.now.setup.params))
        → tip.header.epoch < greatest_count }
    requires old { MayStand old.now }
    requires new { MayStand stored.now }
    requires long { stored.now.length ≡ old.now.length }
    ensures stores { IfHonest (R.seen rig.old) (R.seen rig.new)
        (StoresNext result (ledger tip old.now) (record stored.now { program_limit = old.now.program_limit })
        (R.seen rig.old).trace (R.seen rig.new).trace) }
    // Also for a device that isn't honest.
    ensures tip { IfOk result (IsTipAfter (ledger tip old.now) (record stored.now { program_limit = old.now.program_limit })) }
    ensures call { IsCall result (R.seen rig.old) (R.seen rig.new) }
{
    let slot = slot_between(old, stored);
    let changes = changes_between(old, stored);
    let tip = make_room(rig, tip, old, changes.count())?;
    append_to(rig, tip, stored, changes, slot)
}

/// Makes an update of a state and writes its record, as `store` does. It compares no tables and copies none.
pub(crate) fn store_update<R: Rig, A: Allocator + Copy + Drop>(
    rig: &mut R,
    tip: Tip,
    stored: &mut Stored<A>,
    update: &Update<'_>,
) -> Result<Tip, Failed>
    requires sectors { least_size ≤ (R.seen rig.old).sectors }
    requires tip { IsTip stored.old.length tip.header tip.end }
    requires settled { IsSettled stored.old update.now }
    requires few { length update.now.changes ≤ parameter_count }
    requires epoch { IsFullFor tip.header tip.end (length update.now.changes) → tip.header.epoch < greatest_count }
    requires old { MayStand stored.old }
    requires new { MayStand (updated stored.old update.now) }
    ensures stores { IfHonest (R.seen rig.old) (R.seen rig.new)
        (StoresNext result (ledger tip stored.old) (updated stored.old update.now)
        (R.seen rig.old).trace (R.seen rig.new).trace) }
    ensures saved { OnOk result (stored.new ≡ updated stored.old update.now) }
    ensures either { (stored.new ≡ stored.old) ⊎ (stored.new ≡ updated stored.old update.now) }
    // Also for a device that isn't honest.
    ensures tip { IfOk result (IsTipAfter (ledger tip stored.old) (updated stored.old update.now)) }
    ensures call { IsCall result (R.seen rig.old) (R.seen rig.new) }
{
    let slot = slot_of(stored, update);
    let tip = make_room(rig, tip, stored, update.changes.len())?;
    stored.take_update(update);
    let changes = RecordChanges::listed(update.changes);
    append_to(rig, tip, stored, changes, slot)
}
