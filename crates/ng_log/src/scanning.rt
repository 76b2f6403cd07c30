//! The longest run of complete records, read in the memory of one state.
//!
//! The labels of all parts of a record are read before their contents, so a record that isn't complete changes nothing
//! in what is stored.
ghost use Rattle.std.specs.Prelude.{◌≡◌, ◌≤◌, ◌<◌, ◌+◌, length, IfOk, IfSome};
ghost use Rattle.std.specs.Bool.{OnTrue};
ghost use Rattle.ng_rig.specs.Calls.{IfHonest, IsCall};
ghost use Rattle.ng_layout.specs.Limits.{greatest_count, longest_program, record_changes};
ghost use Rattle.ng_params.specs.Numbers.{parameter_count};
ghost use Rattle.ng_layout.specs.declared.header.Format.TheVariants.{One};
ghost use Rattle.ng_layout.specs.Areas.{log_size_of, least_size, longest_log};
ghost use Rattle.ng_layout.specs.Log.{parts_for};
ghost use Rattle.ng_layout.specs.Part.{label_of};
ghost use Rattle.ng_layout.specs.Storable.{IsStorable, IsStorableTools};
ghost use Rattle.ng_log.specs.Reading.{ReadSpec, IsRunOf};
ghost use Rattle.ng_log.specs.Private.ReadSteps.{begins, LaterPartsStand, MakesAllOrDamaged, TakesRecord, IsNextOf, IsOn, Goes};

use crate::log_end::LogEnd;
use crate::reading::read_sector;
use ng_layout::{
    Header, LOG_FIRST, PART_CHANGES, PartLabel, SECTOR_BYTES, Stored, decoded_state_of_part,
    parts_for, take_changes, take_slot,
};
use ng_params::Params;
use ng_rig::{Failed, Rig};
use std::alloc::Allocator;

/// What is at the end of a run of records.
#[derive(Clone, Copy)]
pub(crate) enum Next {
    /// No complete record.
    Last,
    /// A complete record with a field that is out of range.
    Damaged,
    /// A record, after which the log continues here.
    After(LogEnd),
}

/// Whether a part with this label begins a record at the end of a log: the next record of its epoch, with as many parts
/// as its changes need, all of them within the log.
fn begins_record(first: PartLabel, header: Header, end: LogEnd) -> bool
    requires { end.sector ≤ log_size_of header }
    ensures { result ≡ begins (label_of first) header end }
{
    first.epoch == header.epoch
        && first.number == end.number
        && first.part == 0
        && first.parts as usize == parts_for(first.changes as usize)
        && end.sector + first.parts as usize <= header.log_size()
}

/// Whether the later parts of a record are there. The first one is in this sector of the log.
fn later_parts_stand<R: Rig>(rig: &mut R, at: usize, first: PartLabel) -> Result<bool, Failed>
    requires sectors { least_size ≤ (R.seen rig.old).sectors }
    requires room { at + first.parts ≤ longest_log }
    ensures read { IfHonest (R.seen rig.old) (R.seen rig.new)
        (ReadSpec result (LaterPartsStand at (label_of first)) (R.seen rig.old).trace (R.seen rig.new).trace) }
    ensures call { IsCall result (R.seen rig.old) (R.seen rig.new) }
{
    for part in 1..first.parts {
        let sector = read_sector(rig, LOG_FIRST + at + part as usize)?;
        let label = PartLabel { part, ..first };
        if !label.is_of(&sector) {
            return Ok(false);
        }
    }
    Ok(true)
}

/// Applies the changes of a record that begins at a sector of the log. Returns false if one is out of range.
fn take_all_changes<R: Rig, A: Allocator + Copy + Drop>(
    rig: &mut R,
    at: usize,
    changes: usize,
    table: &mut Params<A>,
) -> Result<bool, Failed>
    requires sectors { least_size ≤ (R.seen rig.old).sectors }
    requires few { changes ≤ record_changes }
    requires room { at + parts_for changes ≤ longest_log }
    requires long { length table.old ≡ parameter_count }
    ensures read { IfHonest (R.seen rig.old) (R.seen rig.new)
        (ReadSpec result (MakesAllOrDamaged at changes table.old table.new) (R.seen rig.old).trace (R.seen rig.new).trace) }
    // also if the device isn't honest
    ensures long { IfOk result (λ whole. OnTrue whole (length table.new ≡ parameter_count)) }
    ensures call { IsCall result (R.seen rig.old) (R.seen rig.new) }
{
    for i in 0..parts_for(changes) - 1 {
        let sector = read_sector(rig, LOG_FIRST + at + 1 + i)?;
        let count = PART_CHANGES.min(changes - PART_CHANGES * i);
        if !take_changes(table, &sector, count) {
            return Ok(false);
        }
    }
    Ok(true)
}

/// Takes over what a record says that begins at a sector of the log, whose content was read as `first`. Returns false
/// if it is damaged.
fn take_record<R: Rig, A: Allocator + Copy + Drop>(
    rig: &mut R,
    first: &[u8; SECTOR_BYTES],
    at: usize,
    changes: usize,
    header: Header,
    stored: &mut Stored<A>,
) -> Result<bool, Failed>
    requires sectors { least_size ≤ (R.seen rig.old).sectors }
    requires few { changes ≤ record_changes }
    requires room { at + parts_for changes ≤ longest_log }
    requires program { header.length ≤ stored.old.program_limit }
    requires most { stored.old.program_limit ≤ longest_program }
    requires tools { IsStorableTools stored.old.tools }
    requires long { length stored.old.setup.params ≡ parameter_count }
    ensures read { IfHonest (R.seen rig.old) (R.seen rig.new)
        (ReadSpec result (TakesRecord header.format header.length first.now at changes stored.old stored.new)
        (R.seen rig.old).trace (R.seen rig.new).trace) }
    // also if the device isn't honest
    ensures storable { IfOk result (λ whole. OnTrue whole (IsStorable stored.new)) }
    ensures count { IfOk result (λ whole. OnTrue whole (stored.new.entries ≤ greatest_count)) }
    ensures long { IfOk result (λ whole. OnTrue whole (stored.new.length ≡ header.length)) }
    ensures none { IfOk result (λ whole. OnTrue whole (header.format ≡ One → stored.new.tools ≡ stored.old.tools)) }
    ensures program_limit { stored.new.program_limit ≡ stored.old.program_limit }
    ensures call { IsCall result (R.seen rig.old) (R.seen rig.new) }
{
    match decoded_state_of_part(first, header.length) {
        None => Ok(false),
        Some(decoded) => {
            if !take_slot(header.format, &mut stored.tools, first) {
                return Ok(false);
            }
            let is_whole = take_all_changes(rig, at, changes, &mut stored.state.params)?;
            if is_whole {
                stored.take_decoded_state(decoded, header.length);
            }
            Ok(is_whole)
        }
    }
}

/// Whether a complete record begins at the end of what was read of the log; if so, takes over what it says.
fn next_record<R: Rig, A: Allocator + Copy + Drop>(
    rig: &mut R,
    header: Header,
    end: LogEnd,
    stored: &mut Stored<A>,
) -> Result<Next, Failed>
    requires sectors { least_size ≤ (R.seen rig.old).sectors }
    requires room { end.sector ≤ log_size_of header }
    requires number { end.number ≤ end.sector }
    requires storable { IsStorable stored.old }
    requires count { stored.old.entries ≤ greatest_count }
    requires long { stored.old.length ≡ header.length }
    ensures read { IfHonest (R.seen rig.old) (R.seen rig.new)
        (ReadSpec result (IsNextOf header end stored.old stored.new) (R.seen rig.old).trace (R.seen rig.new).trace) }
    // also if the device isn't honest
    ensures on { IfOk result (IsOn header end) }
    ensures storable { IfOk result (λ next. Goes next (IsStorable stored.new)) }
    ensures count { IfOk result (λ next. Goes next (stored.new.entries ≤ greatest_count)) }
    ensures long { IfOk result (λ next. Goes next (stored.new.length ≡ header.length)) }
    ensures none { IfOk result (λ next. Goes next (header.format ≡ One → stored.new.tools ≡ stored.old.tools)) }
    ensures program_limit { stored.new.program_limit ≡ stored.old.program_limit }
    ensures call { IsCall result (R.seen rig.old) (R.seen rig.new) }
{
    if end.sector == header.log_size() {
        return Ok(Next::Last);
    }
    let sector = read_sector(rig, LOG_FIRST + end.sector)?;
    let first = PartLabel::read(&sector);
    if !begins_record(first, header, end) {
        return Ok(Next::Last);
    }
    let stand = later_parts_stand(rig, end.sector, first)?;
    if !stand {
        return Ok(Next::Last);
    }
    let is_whole = take_record(
        rig,
        &sector,
        end.sector,
        first.changes as usize,
        header,
        stored,
    )?;
    if !is_whole {
        return Ok(Next::Damaged);
    }
    Ok(Next::After(LogEnd {
        sector: end.sector + first.parts as usize,
        number: end.number + 1,
    }))
}

/// Takes over the longest run of complete records of a log, on top of the snapshot of its header. Returns where it
/// ends; `None` if what is found is damaged. It doesn't allocate (own).
///
/// Before the call `stored` is what the snapshot says. Fails if a read fails. After a failure, and if what is found is
/// damaged, `stored` may hold parts of several records.
pub fn read_log<R: Rig, A: Allocator + Copy + Drop>(
    rig: &mut R,
    header: Header,
    stored: &mut Stored<A>,
) -> Result<Option<LogEnd>, Failed>
    requires sectors { least_size ≤ (R.seen rig.old).sectors }
    requires storable { IsStorable stored.old }
    requires count { stored.old.entries ≤ greatest_count }
    requires long { stored.old.length ≡ header.length }
    ensures read { IfHonest (R.seen rig.old) (R.seen rig.new)
        (ReadSpec result (IsRunOf header stored.old stored.new) (R.seen rig.old).trace (R.seen rig.new).trace) }
    // also if the device isn't honest
    ensures room { IfOk result (λ end. IfSome end (λ e. e.sector ≤ log_size_of header)) }
    ensures number { IfOk result (λ end. IfSome end (λ e. e.number ≤ e.sector)) }
    ensures storable { IfOk result (λ end. IfSome end (λ e. IsStorable stored.new)) }
    ensures count { IfOk result (λ end. IfSome end (λ e. stored.new.entries ≤ greatest_count)) }
    ensures long { IfOk result (λ end. IfSome end (λ e. stored.new.length ≡ header.length)) }
    ensures none { IfOk result (λ end. IfSome end (λ e. header.format ≡ One → stored.new.tools ≡ stored.old.tools)) }
    ensures program_limit { stored.new.program_limit ≡ stored.old.program_limit }
    ensures call { IsCall result (R.seen rig.old) (R.seen rig.new) }
{
    let mut reached = LogEnd::START;
    'records: for _ in 0..header.log_size() {
        match next_record(rig, header, reached, stored)? {
            Next::Last => return Ok(Some(reached)),
            Next::Damaged => return Ok(None),
            Next::After(end) => reached = end,
        }
    }
    Ok(Some(reached))
}
