//! Loading: a program is written to the area that isn't in force, and then what is stored with it.
ghost use Rattle.std.specs.Prelude.{ℕ, true, ◌≡◌, ◌≢◌, ◌≤◌, ◌<◌, ◌+◌, length};
ghost use Rattle.ng_rig.specs.Calls.{IfHonest, IsCall};
ghost use Rattle.ng_layout.specs.Limits.{greatest_count};
ghost use Rattle.ng_layout.specs.Areas.{program_first, program_size, least_size, greatest_area};
ghost use Rattle.ng_layout.specs.Header.{longest_in};
ghost use Rattle.ng_rig.specs.Trace.{reads};
ghost use Rattle.ng_journal.specs.AtRest.{next_header};
ghost use Rattle.ng_layout.specs.declared.header.Format.TheVariants.{Two};
ghost use Rattle.ng_layout.specs.Storable.{IsStorable};
ghost use Rattle.ng_journal.specs.Private.CheckpointSteps.{FitsDevice, IsOwnImage};
ghost use Rattle.ng_journal.specs.Private.LoadSteps.{WritesText, LoadSpec};
ghost use Rattle.ng_journal.specs.Loads.{StoresLoadIn};

use crate::checkpoint::{checkpoint, next_header};
use ng_layout::{Header, SECTOR_BYTES, Stored, program_first, text_sector};
use ng_rig::{Failed, Rig};
use std::alloc::Allocator;

/// Writes a program's text to the sectors of a program area.
fn write_program<R: Rig>(rig: &mut R, area: u64, text: &[u8]) -> Result<(), Failed>
    requires area { area ≤ greatest_area true }
    requires sectors { program_first area + program_size area ≤ (R.seen rig.old).sectors }
    requires short { length text.now ≤ longest_in area }
    ensures text { IfHonest (R.seen rig.old) (R.seen rig.new)
        (WritesText result area text.now (R.seen rig.old).trace (R.seen rig.new).trace) }
    ensures call { IsCall result (R.seen rig.old) (R.seen rig.new) }
{
    let first = program_first(area);
    for n in 0..text.len().div_ceil(SECTOR_BYTES) {
        rig.write(first + n, &text_sector(text, SECTOR_BYTES * n))?;
    }
    Ok(())
}

/// Writes a program to an area that isn't in force, then what is stored with it under the epoch after this header's.
pub(crate) fn load<R: Rig, A: Allocator + Copy + Drop>(
    rig: &mut R,
    header: Header,
    area: u64,
    text: &[u8],
    stored: &Stored<A>,
) -> Result<(), Failed>
    requires least { least_size ≤ (R.seen rig.old).sectors }
    requires counted { header.epoch < greatest_count }
    requires area { area ≤ greatest_area true }
    requires apart { area ≢ header.area }
    requires sectors { program_first area + program_size area ≤ (R.seen rig.old).sectors }
    requires short { length text.now ≤ longest_in area }
    requires count { stored.now.entries ≤ greatest_count }
    requires storable { IsStorable stored.now }
    requires long { stored.now.length ≡ length text.now }
    requires format { header.format ≡ Two }
    // For any program limit, since none is written.
    ensures stops { IfHonest (R.seen rig.old) (R.seen rig.new)
        ((most : ℕ) → IsOwnImage (R.seen rig.old).trace header → (let saved = record stored.now { program_limit = most } in
        FitsDevice (reads (R.seen rig.old).trace) (next_header header area saved.length) saved
        → LoadSpec result area header (record { saved = saved; program = text.now }) (R.seen rig.old).trace (R.seen rig.new).trace)) }
    ensures stores { IfHonest (R.seen rig.old) (R.seen rig.new)
        (StoresLoadIn result area header (record { saved = stored.now; program = text.now }) (R.seen rig.old).trace (R.seen rig.new).trace) }
    ensures call { IsCall result (R.seen rig.old) (R.seen rig.new) }
{
    write_program(rig, area, text)?;
    rig.sync()?;
    checkpoint(rig, next_header(header, area, stored.length), stored)
}
