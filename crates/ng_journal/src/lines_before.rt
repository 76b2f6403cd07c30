//! The kind of the first line before a place of the program in force that isn't blank.
ghost use Rattle.std.specs.Prelude.{true, ◌≡◌, ◌≤◌, ◌+◌, ℕ};
ghost use Rattle.ng_rig.specs.Calls.{IfHonest, IsCall};
ghost use Rattle.ng_layout.specs.Sectors.{program_text};
ghost use Rattle.ng_layout.specs.Areas.{program_size, greatest_area, program_first};
ghost use Rattle.ng_layout.specs.Header.{longest_in};
ghost use Rattle.ng_layout.specs.Stands.{stretch};
ghost use Rattle.ng_log.specs.Reading.{ReadSpec};
ghost use Rattle.ng_text.specs.FirstLine.{kind_in};

use crate::line::part_of;
use ng_layout::{SECTOR_BYTES, program_first};
use ng_log::read_sector;
use ng_rig::{Failed, Rig};
use ng_text::FirstLine;
use ng_words::LineKind;

/// The kind of the first line that isn't blank, among the bytes before a place of the program in an area; blank if all
/// lines are. It reads at most to the end of that line.
pub(crate) fn read_first_kind<R: Rig>(
    rig: &mut R,
    area: u64,
    place: usize,
) -> Result<LineKind, Failed>
    requires area { area ≤ greatest_area true }
    requires sectors { program_first area + program_size area ≤ (R.seen rig.old).sectors }
    requires small { place ≤ longest_in area }
    ensures read { IfHonest (R.seen rig.old) (R.seen rig.new)
        (ReadSpec result (λ image kind. kind ≡ kind_in (program_text place (stretch (program_first area) (program_size area) image)))
        (R.seen rig.old).trace (R.seen rig.new).trace) }
    ensures call { IsCall result (R.seen rig.old) (R.seen rig.new) }
{
    let first = program_first(area);
    let mut seen = FirstLine::Unseen;
    for n in 0..place.div_ceil(SECTOR_BYTES) {
        let sector = read_sector(rig, first + n)?;
        seen = seen.after_all(part_of(&sector, n, 0, place));
        match seen.known() {
            Some(kind) => return Ok(kind),
            None => (),
        }
    }
    Ok(seen.kind())
}
