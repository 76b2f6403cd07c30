//! Writing a record after the last one.
ghost use Rattle.std.specs.Prelude.{◌≡◌, ◌≤◌, ◌+◌, length, IfOk, IfSome};
ghost use Rattle.ng_rig.specs.Calls.{IfHonest, IsCall};
ghost use Rattle.ng_layout.specs.Limits.{greatest_count};
ghost use Rattle.ng_params.specs.Numbers.{parameter_count};
ghost use Rattle.ng_layout.specs.Areas.{log_size_of, least_size, longest_log};
ghost use Rattle.ng_layout.specs.Log.{parts_for};
ghost use Rattle.ng_offsets.specs.Tools.{with_change};
ghost use Rattle.ng_layout.specs.declared.header.Format.TheVariants.{Two};
ghost use Rattle.ng_layout.specs.Storable.{IsStorable, IsStorableChange};
ghost use Rattle.ng_layout.specs.Stored.{DurableState};
ghost use Rattle.ng_log.specs.Writing.{WritesRecord, AppendSpec};
ghost use Rattle.ng_log.specs.AtEnd.{end_after, IsAtEnd};
ghost use Rattle.ng_log.specs.Private.WriteSteps.{WritesParts};
ghost use Rattle.ng_params.specs.Differences.{differences};
ghost use Rattle.ng_log.specs.Records.{record_at};

use crate::log_end::LogEnd;
use crate::record_changes::RecordChanges;
use ng_layout::{Header, LOG_FIRST, PartLabel, Stored, changes_part, first_part, parts_for};
use ng_offsets::SlotChange;
use ng_rig::{Failed, Rig};
use std::alloc::Allocator;

/// Writes the parts of the record of what is stored, with its changes of parameters.
fn write_parts<R: Rig, A: Allocator + Copy + Drop>(
    rig: &mut R,
    epoch: u64,
    end: LogEnd,
    stored: &Stored<A>,
    changes: RecordChanges<'_, A>,
    slot: Option<SlotChange>,
) -> Result<(), Failed>
    requires sectors { least_size ≤ (R.seen rig.old).sectors }
    requires few { length changes ≤ parameter_count }
    requires room { end.sector + parts_for (length changes) ≤ longest_log }
    requires entries { stored.now.entries ≤ greatest_count }
    requires storable { IsStorable stored.now }
    ensures writes { IfHonest (R.seen rig.old) (R.seen rig.new)
        (WritesParts result (record_at epoch end stored.now changes.entry slot)
        (R.seen rig.old).trace (R.seen rig.new).trace) }
    ensures call { IsCall result (R.seen rig.old) (R.seen rig.new) }
{
    let count = changes.count();
    let parts = parts_for(count);
    let first = PartLabel {
        epoch,
        number: end.number,
        part: 0,
        parts: parts as u16,
        changes: count as u16,
    };
    rig.write(LOG_FIRST + end.sector, &first_part(first, stored, slot))?;
    let mut left = changes;
    for part in 1..parts {
        let (piece, rest) = left.next_piece();
        left = rest;
        let label = PartLabel {
            part: part as u16,
            ..first
        };
        rig.write(
            LOG_FIRST + end.sector + part,
            &changes_part(label, piece.as_slice()),
        )?;
    }
    Ok(())
}

/// Writes what is stored as a record after the end of a log, syncs it, and returns the log's end after it. It doesn't
/// allocate (own).
///
/// `changes` are those of parameters, at most 5399, and lead from the table before to that of `stored`; `slot` is the
/// change of the tool table. Records are written only in format 2. Fails if a write or the sync fails. Then some of the
/// record's parts may have been written, and a stop leaves the old state or the whole record.
pub fn append<R: Rig, A: Allocator + Copy + Drop>(
    rig: &mut R,
    header: Header,
    end: LogEnd,
    stored: &Stored<A>,
    changes: RecordChanges<'_, A>,
    slot: Option<SlotChange>,
) -> Result<LogEnd, Failed>
    requires sectors { least_size ≤ (R.seen rig.old).sectors }
    requires few { length changes ≤ parameter_count }
    requires room { end.sector + parts_for (length changes) ≤ log_size_of header }
    requires number { end.number ≤ end.sector }
    requires entries { stored.now.entries ≤ greatest_count }
    requires storable { IsStorable stored.now }
    requires long { stored.now.length ≡ header.length }
    requires format { header.format ≡ Two }
    ensures appends { IfHonest (R.seen rig.old) (R.seen rig.new)
        ((before : DurableState) → IsAtEnd (R.seen rig.old).trace header before end
        → changes.entry ≡ differences before.saved.setup.params stored.now.setup.params
        → IfSome slot (IsStorableChange before.saved.tools)
        → with_change slot before.saved.tools ≡ stored.now.tools → before.saved.program_limit ≡ stored.now.program_limit
        → AppendSpec result header before stored.now (R.seen rig.old).trace (R.seen rig.new).trace) }
    // whatever is on the device
    ensures writes { IfHonest (R.seen rig.old) (R.seen rig.new)
        (WritesRecord result (record_at header.epoch end stored.now changes.entry slot)
        (R.seen rig.old).trace (R.seen rig.new).trace) }
    ensures end { IfOk result (λ after. after ≡ end_after end (length changes.entry)) }
    ensures call { IsCall result (R.seen rig.old) (R.seen rig.new) }
{
    let parts = parts_for(changes.count());
    write_parts(rig, header.epoch, end, stored, changes, slot)?;
    rig.sync()?;
    Ok(LogEnd {
        sector: end.sector + parts,
        number: end.number + 1,
    })
}
