//! A whole state written under the next epoch.
ghost use Rattle.std.specs.Prelude.{ℕ, Bool, ◌≡◌, ◌≤◌, ◌<◌, ◌+◌, ◌%◌, [], Some};
ghost use Rattle.ng_rig.specs.Trace.{reads};
ghost use Rattle.ng_layout.specs.declared.header.Format.TheVariants.{One};
ghost use Rattle.ng_rig.specs.Calls.{IfHonest, IsCall};
ghost use Rattle.ng_layout.specs.Limits.{greatest_count};
ghost use Rattle.ng_layout.specs.Areas.{least_size, snapshot_size, tools_size};
ghost use Rattle.ng_layout.specs.Storable.{IsStorable};
ghost use Rattle.ng_layout.specs.Header.{header_in, HoldsHeader, IsValidHeader};
ghost use Rattle.ng_layout.specs.declared.header.Header.{Header};
ghost use Rattle.ng_journal.specs.Private.CheckpointSteps.{WritesAreas, MayFollow, FitsDevice, IsOwnImage, CheckpointSpec, StoresState};
ghost use Rattle.ng_layout.specs.Snapshot.{HoldsPart, HoldsToolPart};
ghost use Rattle.ng_journal.specs.Private.Overwrites.{Overwrites};
ghost use Rattle.ng_journal.specs.AtRest.{next_header, migrated};

use ng_layout::{
    Format, Header, SECTOR_BYTES, SNAPSHOT_SIZE, Stored, TOOLS_SIZE, snapshot_first, tools_first,
};
use ng_rig::{Failed, Rig};
use std::alloc::Allocator;

/// Writes the sectors of a snapshot, from sector `first` on.
fn write_snapshot<R: Rig, A: Allocator + Copy + Drop>(
    rig: &mut R,
    first: usize,
    stored: &Stored<A>,
) -> Result<(), Failed>
    requires sectors { least_size ≤ (R.seen rig.old).sectors }
    requires within { first + snapshot_size ≤ least_size }
    requires count { stored.now.entries ≤ greatest_count }
    requires storable { IsStorable stored.now }
    ensures area { IfHonest (R.seen rig.old) (R.seen rig.new)
        (Overwrites result first snapshot_size (HoldsPart stored.now) (R.seen rig.old).trace (R.seen rig.new).trace) }
    ensures call { IsCall result (R.seen rig.old) (R.seen rig.new) }
{
    for part in 0..SNAPSHOT_SIZE {
        rig.write(first + part, &stored.sector(part))?;
    }
    Ok(())
}

/// Writes the sectors of a tool area, from sector `first` on.
fn write_tools<R: Rig, A: Allocator + Copy + Drop>(
    rig: &mut R,
    first: usize,
    stored: &Stored<A>,
) -> Result<(), Failed>
    requires sectors { least_size ≤ (R.seen rig.old).sectors }
    requires within { first + tools_size ≤ least_size }
    ensures tools { IfHonest (R.seen rig.old) (R.seen rig.new)
        (Overwrites result first tools_size (HoldsToolPart stored.now) (R.seen rig.old).trace (R.seen rig.new).trace) }
    ensures call { IsCall result (R.seen rig.old) (R.seen rig.new) }
{
    for part in 0..TOOLS_SIZE {
        rig.write(first + part, &stored.tool_sector(part))?;
    }
    Ok(())
}

/// Writes what is stored to the areas of a header: its snapshot, and in format 2 its tool table.
fn write_areas<R: Rig, A: Allocator + Copy + Drop>(
    rig: &mut R,
    next: Header,
    stored: &Stored<A>,
) -> Result<(), Failed>
    requires sectors { least_size ≤ (R.seen rig.old).sectors }
    requires count { stored.now.entries ≤ greatest_count }
    requires storable { IsStorable stored.now }
    ensures areas { IfHonest (R.seen rig.old) (R.seen rig.new)
        (WritesAreas result next stored.now (R.seen rig.old).trace (R.seen rig.new).trace) }
    ensures call { IsCall result (R.seen rig.old) (R.seen rig.new) }
{
    write_snapshot(rig, snapshot_first(next.epoch), stored)?;
    match next.format {
        Format::One => Ok(()),
        Format::Two => write_tools(rig, tools_first(next.epoch), stored),
    }
}

/// The sector of a header.
#[tactic(auto, unfolding(ng_layout::specs::Header::header_in))]
pub(crate) fn header_sector(header: Header) -> [u8; SECTOR_BYTES]
    ensures read { (large : Bool) → IsValidHeader large header → header_in large (header.epoch % 2) result ≡ Some header }
    ensures holds { HoldsHeader header result }
{
    header.write()
}

/// The header of the next epoch, with a program of this length in this area.
pub(crate) fn next_header(header: Header, area: u64, length: u64) -> Header
    requires { header.epoch < greatest_count }
    ensures { result ≡ next_header header area length }
{
    Header {
        format: header.format,
        epoch: header.epoch + 1,
        area,
        length,
    }
}

/// The header of format 2 after one of format 1.
pub(crate) fn migrated(header: Header) -> Header
    requires { header.epoch < greatest_count }
    ensures { result ≡ migrated header }
{
    Header {
        format: Format::Two,
        epoch: header.epoch + 1,
        area: header.area,
        length: header.length,
    }
}

/// Writes what is stored under this header, which must be that of the next epoch.
pub(crate) fn checkpoint<R: Rig, A: Allocator + Copy + Drop>(
    rig: &mut R,
    next: Header,
    stored: &Stored<A>,
) -> Result<(), Failed>
    requires least { least_size ≤ (R.seen rig.old).sectors }
    requires long { stored.now.length ≡ next.length }
    requires count { stored.now.entries ≤ greatest_count }
    requires storable { IsStorable stored.now }
    requires tools { next.format ≡ One → stored.now.tools ≡ [] }
    // For any program limit, since none is written.
    ensures stops { IfHonest (R.seen rig.old) (R.seen rig.new)
        ((most : ℕ) (header : Header) → IsOwnImage (R.seen rig.old).trace header → next.epoch ≡ header.epoch + 1
        → MayFollow next header (reads (R.seen rig.old).trace)
        → FitsDevice (reads (R.seen rig.old).trace) next (record stored.now { program_limit = most })
        → CheckpointSpec result header next (record stored.now { program_limit = most }) (R.seen rig.old).trace (R.seen rig.new).trace) }
    ensures stores { IfHonest (R.seen rig.old) (R.seen rig.new)
        (StoresState result next stored.now (R.seen rig.old).trace (R.seen rig.new).trace) }
    ensures call { IsCall result (R.seen rig.old) (R.seen rig.new) }
{
    write_areas(rig, next, stored)?;
    rig.sync()?;
    rig.write((next.epoch % 2) as usize, &header_sector(next))?;
    rig.sync()
}
