//! What a device holds: the header in force and its snapshot.
ghost use Rattle.std.specs.Prelude.{Bool, ◌≡◌, ◌≤◌, ◌<◌, ◌+◌, ◌*◌, ◌%◌, true, [], length, IfOk, IfSome};
ghost use Rattle.ng_layout.specs.declared.header.Format.TheVariants.{One};
ghost use Rattle.std.specs.Bool.{OnTrue};
ghost use Rattle.ng_rig.specs.Calls.{IfHonest, IsCall};
ghost use Rattle.ng_layout.specs.Limits.{greatest_count, longest_program};
ghost use Rattle.ng_params.specs.Numbers.{parameter_count};
ghost use Rattle.ng_layout.specs.Header.{header_in, IsValidHeader};
ghost use Rattle.ng_layout.specs.Decoding.{decoded_state_of};
ghost use Rattle.ng_layout.specs.Sound.{IsSound};
ghost use Rattle.ng_layout.specs.Areas.{least_size, snapshot_size};
ghost use Rattle.ng_rig.specs.Trace.{reads};
ghost use Rattle.ng_layout.specs.Stands.{is_large, in_force, newer};
ghost use Rattle.ng_layout.specs.Storable.{IsStorable, IsStorableTools};
ghost use Rattle.ng_log.specs.Reading.{ReadSpec};
ghost use Rattle.ng_journal.specs.Private.SnapshotRead.{IsTableOf, IsToolsOf, IsSnapshotOf};

use ng_layout::{
    DecodedState, Format, Header, SECTOR_BYTES, SNAPSHOT_SIZE, Stored, VALUES, decode,
    snapshot_first, take_area, take_values, tools_first,
};
use ng_log::read_sector;
use ng_offsets::Tools;
use ng_params::Params;
use ng_rig::{Failed, Rig};
use std::alloc::Allocator;

/// The header in sector `k`, on a large device or on any other, if it is valid there.
fn read_header<R: Rig>(rig: &mut R, large: bool, k: u64) -> Result<Option<Header>, Failed>
    requires least { least_size ≤ (R.seen rig.old).sectors }
    requires header { k < 2 }
    ensures read { IfHonest (R.seen rig.old) (R.seen rig.new)
        (ReadSpec result (λ image header. header ≡ header_in large k (image k)) (R.seen rig.old).trace (R.seen rig.new).trace) }
    ensures valid { IfOk result (λ header. IfSome header (IsValidHeader large)) }
    ensures call { IsCall result (R.seen rig.old) (R.seen rig.new) }
{
    let bytes = read_sector(rig, k as usize)?;
    Ok(Header::read(large, k, &bytes))
}

/// Of two valid headers, the one of the greater epoch.
fn newer(a: Option<Header>, b: Option<Header>) -> Option<Header>
    ensures value { result ≡ newer a b }
    ensures valid { (large : Bool) → IfSome a (IsValidHeader large) → IfSome b (IsValidHeader large)
        → IfSome result (IsValidHeader large) }
{
    match (a, b) {
        (None, b) => b,
        (Some(a), None) => Some(a),
        (Some(a), Some(b)) => Some(if a.epoch < b.epoch { b } else { a }),
    }
}

/// The header in force, on a large device or on any other.
#[tactic(auto, unfolding(ng_layout::specs::Stands::in_force))]
pub(crate) fn header_in_force<R: Rig>(rig: &mut R, large: bool) -> Result<Option<Header>, Failed>
    requires sectors { least_size ≤ (R.seen rig.old).sectors }
    requires large { (R.seen rig.old).honest → is_large (reads (R.seen rig.old).trace) ≡ large }
    ensures read { IfHonest (R.seen rig.old) (R.seen rig.new)
        (ReadSpec result (λ image header. header ≡ in_force image) (R.seen rig.old).trace (R.seen rig.new).trace) }
    ensures valid { IfOk result (λ header. IfSome header (IsValidHeader large)) }
    ensures call { IsCall result (R.seen rig.old) (R.seen rig.new) }
{
    let even = read_header(rig, large, 0)?;
    let odd = read_header(rig, large, 1)?;
    Ok(newer(even, odd))
}

/// What the state field in the first sector of a snapshot says.
fn decoded_state_of_snapshot(sector: &[u8; SECTOR_BYTES], length: u64) -> Option<DecodedState>
    ensures value { result ≡ decoded_state_of length sector.now }
    ensures sound { IfSome result (IsSound length) }
{
    decode(sector, length)
}

/// Reads the tool table of a header, given the first sector of its snapshot. False if it is damaged. In format 1 there
/// is none.
fn read_tools<R: Rig>(
    rig: &mut R,
    header: Header,
    first: &[u8; SECTOR_BYTES],
    tools: &mut Tools,
) -> Result<bool, Failed>
    requires least { least_size ≤ (R.seen rig.old).sectors }
    requires none { tools.old ≡ [] }
    ensures read { IfHonest (R.seen rig.old) (R.seen rig.new)
        (ReadSpec result (IsToolsOf header first.now tools.new) (R.seen rig.old).trace (R.seen rig.new).trace) }
    // Also for a device that isn't honest.
    ensures storable { IfOk result (λ is_whole. OnTrue is_whole (IsStorableTools tools.new)) }
    ensures none { IfOk result (λ is_whole. OnTrue is_whole (header.format ≡ One → tools.new ≡ [])) }
    ensures call { IsCall result (R.seen rig.old) (R.seen rig.new) }
{
    match header.format {
        Format::One => Ok(true),
        Format::Two => {
            let area = tools_first(header.epoch);
            let lower = read_sector(rig, area)?;
            let upper = read_sector(rig, area + 1)?;
            Ok(take_area(tools, first, &lower, &upper))
        }
    }
}

/// Reads the parameters of a snapshot area. False if one of them is out of range.
fn read_table<R: Rig, A: Allocator + Copy + Drop>(
    rig: &mut R,
    first: usize,
    table: &mut Params<A>,
) -> Result<bool, Failed>
    requires sectors { least_size ≤ (R.seen rig.old).sectors }
    requires within { first + snapshot_size ≤ least_size }
    requires long { length table.old ≡ parameter_count }
    ensures read { IfHonest (R.seen rig.old) (R.seen rig.new)
        (ReadSpec result (IsTableOf first table.new) (R.seen rig.old).trace (R.seen rig.new).trace) }
    // Also for a device that isn't honest.
    ensures long { IfOk result (λ is_whole. OnTrue is_whole (length table.new ≡ parameter_count)) }
    ensures call { IsCall result (R.seen rig.old) (R.seen rig.new) }
{
    for n in 0..SNAPSHOT_SIZE - 1 {
        let sector = read_sector(rig, first + 1 + n)?;
        if !take_values(table, VALUES * n, &sector) {
            return Ok(false);
        }
    }
    Ok(true)
}

/// Reads the snapshot of a header. False if it is damaged.
pub(crate) fn read_snapshot<R: Rig, A: Allocator + Copy + Drop>(
    rig: &mut R,
    header: Header,
    stored: &mut Stored<A>,
) -> Result<bool, Failed>
    requires least { least_size ≤ (R.seen rig.old).sectors }
    requires program { header.length ≤ stored.old.program_limit }
    requires most { stored.old.program_limit ≤ longest_program }
    requires long { length stored.old.setup.params ≡ parameter_count }
    requires none { stored.old.tools ≡ [] }
    ensures read { IfHonest (R.seen rig.old) (R.seen rig.new)
        (ReadSpec result (IsSnapshotOf header stored.new) (R.seen rig.old).trace (R.seen rig.new).trace) }
    ensures none { IfOk result (λ is_whole. OnTrue is_whole (header.format ≡ One → stored.new.tools ≡ [])) }
    // Also for a device that isn't honest.
    ensures storable { IfOk result (λ is_whole. OnTrue is_whole (IsStorable stored.new)) }
    ensures count { IfOk result (λ is_whole. OnTrue is_whole (stored.new.entries ≤ greatest_count)) }
    ensures long { IfOk result (λ is_whole. OnTrue is_whole (stored.new.length ≡ header.length)) }
    ensures program_limit { stored.new.program_limit ≡ stored.old.program_limit }
    ensures call { IsCall result (R.seen rig.old) (R.seen rig.new) }
{
    let first = snapshot_first(header.epoch);
    let bytes = read_sector(rig, first)?;
    match decoded_state_of_snapshot(&bytes, header.length) {
        None => Ok(false),
        Some(decoded) => {
            let is_whole = read_table(rig, first, &mut stored.state.params)?;
            if !is_whole {
                return Ok(false);
            }
            let has_tools = read_tools(rig, header, &bytes, &mut stored.tools)?;
            if has_tools {
                stored.take_decoded_state(decoded, header.length);
            }
            Ok(has_tools)
        }
    }
}
