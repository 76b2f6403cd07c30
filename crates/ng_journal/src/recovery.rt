//! Power on: what the device holds is written again under the next epoch with nothing open, and over format 1 under one
//! more epoch in format 2.
ghost use Rattle.std.specs.Prelude.{Bool, ◌≡◌, ◌≤◌, ◌<◌, ◌+◌, ℤ, List, [], length, IfOk, IfErr, OnOk};
ghost use Rattle.ng_rig.specs.Calls.{IfHonest, IsCall};
ghost use Rattle.ng_layout.specs.Limits.{greatest_count};
ghost use Rattle.ng_params.specs.Numbers.{parameter_count};
ghost use Rattle.ng_layout.specs.Areas.{least_size};
ghost use Rattle.ng_layout.specs.Header.{program_limit_of};
ghost use Rattle.ng_layout.specs.Storable.{IsStorable, IsStorableTools};
ghost use Rattle.ng_log.specs.Reading.{ReadSpec};
ghost use Rattle.ng_rig.specs.Trace.{reads};
ghost use Rattle.ng_layout.specs.declared.header.Format.TheVariants.{One, Two};
ghost use Rattle.ng_layout.specs.Stands.{is_large, saved_beside};
ghost use Rattle.ng_journal.specs.Recovery.{epochs_for, IsTableOver};
ghost use Rattle.ng_journal.specs.Private.RecoverySteps.{IsRead, IsRefusal, IsWholeUnder, RestoreSpec, Modernizes, modern_by};

use crate::checkpoint::{checkpoint, migrated, next_header};
use crate::reading::{header_in_force, read_snapshot};
use ng_layout::{Format, GREATEST_COUNT, Header, Stored};
use ng_log::read_log;
use ng_num::Fault;
use ng_offsets::Tools;
use ng_rig::{Failed, Rig};
use std::alloc::Allocator;

/// What a device, large or not, stands for, with its header, or why that can't be recovered.
fn found<R: Rig, A: Allocator + Copy + Drop>(
    rig: &mut R,
    large: bool,
    stored: &mut Stored<A>,
) -> Result<Result<Header, Fault>, Failed>
    requires least { least_size ≤ (R.seen rig.old).sectors }
    requires large { (R.seen rig.old).honest → is_large (reads (R.seen rig.old).trace) ≡ large }
    requires program_limit { stored.old.program_limit ≡ program_limit_of large }
    requires long { length stored.old.setup.params ≡ parameter_count }
    requires none { stored.old.tools ≡ [] }
    ensures none { IfOk result (λ answer. IfOk answer (λ header. header.format ≡ One → stored.new.tools ≡ [])) }
    ensures read { IfHonest (R.seen rig.old) (R.seen rig.new)
        (ReadSpec result (IsRead stored.new) (R.seen rig.old).trace (R.seen rig.new).trace) }
    // Also for a device that isn't honest.
    ensures whole { IfOk result (λ answer. IfOk answer (IsWholeUnder large stored.new)) }
    ensures program_limit { stored.new.program_limit ≡ stored.old.program_limit }
    ensures faults { IfOk result (λ answer. IfErr answer IsRefusal) }
    ensures call { IsCall result (R.seen rig.old) (R.seen rig.new) }
{
    match header_in_force(rig, large)? {
        None => Ok(Err(Fault::NotFormatted)),
        Some(header) => {
            let is_whole = read_snapshot(rig, header, stored)?;
            if !is_whole {
                return Ok(Err(Fault::Damaged));
            }
            match read_log(rig, header, stored)? {
                None => Ok(Err(Fault::Damaged)),
                Some(_) => Ok(Ok(header)),
            }
        }
    }
}

/// Stores the state under a header of format 1, whose log has no record, in format 2 with a tool table. With format 2
/// nothing is written.
fn modernize<R: Rig, A: Allocator + Copy + Drop>(
    rig: &mut R,
    header: Header,
    tools: &Tools,
    stored: &mut Stored<A>,
) -> Result<Header, Failed>
    requires least { least_size ≤ (R.seen rig.old).sectors }
    requires epoch { header.format ≡ One → header.epoch < greatest_count }
    requires long { stored.old.length ≡ header.length }
    requires count { stored.old.entries ≤ greatest_count }
    requires storable { IsStorable stored.old }
    requires tools { IsStorableTools tools.now }
    ensures modernizes { IfHonest (R.seen rig.old) (R.seen rig.new)
        ((table : List ℤ) → (header.format ≡ One → table ≡ tools.now)
        → Modernizes table result header stored.old (R.seen rig.old).trace (R.seen rig.new).trace) }
    ensures header { IfOk result (λ last. (last ≡ modern_by header.format header) × (last.format ≡ Two)) }
    ensures saved { (table : List ℤ) → (header.format ≡ One → table ≡ tools.now)
        → OnOk result (stored.new ≡ saved_beside table header.format stored.old) }
    // Also for a device that isn't honest.
    ensures whole { (large : Bool) → IsWholeUnder large stored.old header → IfOk result (IsWholeUnder large stored.new) }
    ensures program_limit { stored.new.program_limit ≡ stored.old.program_limit }
    ensures call { IsCall result (R.seen rig.old) (R.seen rig.new) }
{
    match header.format {
        Format::Two => Ok(header),
        Format::One => {
            stored.take_tools(tools);
            let last = migrated(header);
            checkpoint(rig, last, stored)?;
            Ok(last)
        }
    }
}

/// How many epochs a power on needs.
fn epochs_for(format: Format) -> u64
    ensures value { result ≡ epochs_for format }
    ensures few { result ≤ 2 }
{
    match format {
        Format::One => 2,
        Format::Two => 1,
    }
}

/// Writes what the device stands for again, under the next epoch and with nothing open, and over format 1 under the one
/// after that in format 2 with the table of the settings. `Err` if the device failed. Otherwise the new header, or why
/// nothing was recovered, in which case nothing was written.
pub(crate) fn restore<R: Rig, A: Allocator + Copy + Drop>(
    rig: &mut R,
    large: bool,
    tools: &Tools,
    stored: &mut Stored<A>,
) -> Result<Result<Header, Fault>, Failed>
    requires least { least_size ≤ (R.seen rig.old).sectors }
    requires long { length stored.old.setup.params ≡ parameter_count }
    requires none { stored.old.tools ≡ [] }
    requires tools { IsStorableTools tools.now }
    requires large { (R.seen rig.old).honest → is_large (reads (R.seen rig.old).trace) ≡ large }
    requires program_limit { stored.old.program_limit ≡ program_limit_of large }
    ensures format { IfOk result (λ answer. IfOk answer (λ header. header.format ≡ Two)) }
    ensures restores { IfHonest (R.seen rig.old) (R.seen rig.new)
        ((table : List ℤ) → IsTableOver tools.now table (reads (R.seen rig.old).trace)
        → RestoreSpec table result stored.new (R.seen rig.old).trace (R.seen rig.new).trace) }
    // Also for a device that isn't honest.
    ensures whole { IfOk result (λ answer. IfOk answer (IsWholeUnder large stored.new)) }
    ensures program_limit { stored.new.program_limit ≡ stored.old.program_limit }
    ensures faults { IfOk result (λ answer. IfErr answer IsRefusal) }
    ensures call { IsCall result (R.seen rig.old) (R.seen rig.new) }
{
    rig.sync()?;
    match found(rig, large, stored)? {
        Err(fault) => Ok(Err(fault)),
        Ok(header) => {
            if header.epoch + epochs_for(header.format) > GREATEST_COUNT {
                return Ok(Err(Fault::CountersUsed));
            }
            stored.close();
            let next = next_header(header, header.area, header.length);
            checkpoint(rig, next, stored)?;
            let last = modernize(rig, next, tools, stored)?;
            Ok(Ok(last))
        }
    }
}
