//! A line of the program in force, read where it begins.
ghost use Rattle.std.specs.Prelude.{true, ◌≡◌, ℕ, max, List, [], ◌≤◌, ◌<◌, ◌+◌, ◌*◌, ◌-◌, ◌++◌, take, drop, length, IfOk, IfSome};
ghost use Rattle.std.specs.Str.Lines.{strip_carriage_return};
ghost use Rattle.ng_rig.specs.Calls.{IfHonest, IsCall};
ghost use Rattle.ng_layout.specs.Limits.{longest_program, sector_size};
ghost use Rattle.ng_layout.specs.Sectors.{program_text};
ghost use Rattle.ng_layout.specs.Areas.{program_size, greatest_area, program_first};
ghost use Rattle.ng_layout.specs.Header.{longest_in};
ghost use Rattle.ng_layout.specs.Stands.{stretch};
ghost use Rattle.ng_log.specs.Reading.{ReadSpec};
ghost use Rattle.ng_text.specs.Programs.{program_line_at};
ghost use Rattle.ng_journal.specs.Private.LineParts.{IsPart, TakesPart, IsEnd};

use arrayvec::ArrayVec;
use ng_layout::{SECTOR_BYTES, program_first};
use ng_log::read_sector;
use ng_rig::{Failed, Rig};
use ng_text::split_line;
use std::marker::Model;

/// How many bytes the head of a line has: one more than a line may have.
pub(crate) const LINE_HEAD: usize = 257;

/// A line of a program (own). Contracts see a `ProgramLineModel`.
#[derive(Debug, Drop)]
pub struct ProgramLine {
    /// Its bytes without the line's end, at most `LINE_HEAD` of them.
    pub text: ArrayVec<u8, LINE_HEAD>,
    /// The byte of the program at which the next line begins.
    pub next: u64,
}

impl Model for ProgramLine {
    ghost use Rattle.ng_text.specs.Programs.{ProgramLineModel};

    ghost Value = { ProgramLineModel };

    ghost view = { λ l. record { text = l.text.items; next = l.next } };
}

/// Keeps as many of these bytes as fit.
fn keep(text: &mut ArrayVec<u8, LINE_HEAD>, bytes: &[u8])
    ensures { text.new.items ≡ take LINE_HEAD (text.old.items ++ bytes.now) }
{
    let capacity = text.remaining_capacity();
    // The result is Ok: that many bytes fit.
    let _ = text.try_extend_from_slice(&bytes[..bytes.len().min(capacity)]);
}

/// Keeps the bytes before the first newline, and returns where that is. If there is none, keeps all bytes.
fn take_part(text: &mut ArrayVec<u8, LINE_HEAD>, part: &[u8]) -> Option<usize>
    ensures found { IfSome result (λ end. end < length part.now) }
    ensures taken { TakesPart text.old.items text.new.items part.now result }
{
    match split_line(part) {
        Some((front, _)) => {
            keep(text, front);
            Some(front.len())
        }
        None => {
            keep(text, part);
            None
        }
    }
}

/// The bytes of a program's sector that belong to the program from a place on.
pub(crate) fn part_of(
    sector: &[u8; SECTOR_BYTES],
    n: usize,
    place: usize,
    program_end: usize,
) -> &[u8]
    requires place { place ≤ program_end }
    requires from { place < sector_size * n + sector_size }
    requires to { sector_size * n < program_end }
    requires small { program_end ≤ longest_program }
    ensures within { max place (sector_size * n) + length result.now ≤ program_end }
    ensures part { (row : ℕ → List ℕ) → sector.now ≡ row n
        → IsPart (program_text program_end row) place (sector_size * n) result.now }
{
    let start = SECTOR_BYTES * n;
    &sector[place.max(start) - start..SECTOR_BYTES.min(program_end - start)]
}

/// Removes a carriage return at the end.
fn drop_return(text: &mut ArrayVec<u8, LINE_HEAD>)
    ensures { text.new.items ≡ strip_carriage_return text.old.items }
{
    if let Some(b'\r') = text.as_slice().last() {
        text.pop();
    }
}

/// Reads the line at a place of the program in an area up to its newline, and keeps its bytes. Returns how many of them
/// come before the newline, if there is one.
fn find_end<R: Rig>(
    rig: &mut R,
    area: u64,
    place: usize,
    program_end: usize,
    text: &mut ArrayVec<u8, LINE_HEAD>,
) -> Result<Option<usize>, Failed>
    requires area { area ≤ greatest_area true }
    requires sectors { program_first area + program_size area ≤ (R.seen rig.old).sectors }
    requires place { place ≤ program_end }
    requires small { program_end ≤ longest_in area }
    requires empty { text.old.items ≡ [] }
    ensures read { IfHonest (R.seen rig.old) (R.seen rig.new)
        (ReadSpec result (λ image end. let program = program_text program_end (stretch (program_first area) (program_size area) image) in
        IsEnd (drop place program) text.new.items end) (R.seen rig.old).trace (R.seen rig.new).trace) }
    // Also for a device that isn't honest.
    ensures within { IfOk result (λ end. IfSome end (λ n. place + n < program_end)) }
    ensures call { IsCall result (R.seen rig.old) (R.seen rig.new) }
{
    let first = program_first(area);
    for n in place / SECTOR_BYTES..program_end.div_ceil(SECTOR_BYTES) {
        let sector = read_sector(rig, first + n)?;
        match take_part(text, part_of(&sector, n, place, program_end)) {
            Some(end) => return Ok(Some((SECTOR_BYTES * n).saturating_sub(place) + end)),
            None => (),
        }
    }
    Ok(None)
}

/// The line that begins at a place of the program in an area, which ends at `program_end`. `None` at that end.
pub(crate) fn read_line<R: Rig>(
    rig: &mut R,
    area: u64,
    place: usize,
    program_end: usize,
) -> Result<Option<ProgramLine>, Failed>
    requires area { area ≤ greatest_area true }
    requires sectors { program_first area + program_size area ≤ (R.seen rig.old).sectors }
    requires place { place ≤ program_end }
    requires small { program_end ≤ longest_in area }
    ensures read { IfHonest (R.seen rig.old) (R.seen rig.new)
        (ReadSpec result (λ image line. let program = program_text program_end (stretch (program_first area) (program_size area) image) in
        line ≡ program_line_at program place) (R.seen rig.old).trace (R.seen rig.new).trace) }
    // Also for a device that isn't honest.
    ensures next { IfOk result (λ line. IfSome line (λ l. (place < l.next) × (l.next ≤ program_end))) }
    ensures call { IsCall result (R.seen rig.old) (R.seen rig.new) }
{
    if place == program_end {
        return Ok(None);
    }
    let mut text = ArrayVec::new();
    match find_end(rig, area, place, program_end, &mut text)? {
        Some(end) => {
            if end <= LINE_HEAD {
                drop_return(&mut text);
            }
            Ok(Some(ProgramLine {
                text,
                next: (place + end + 1) as u64,
            }))
        }
        None => Ok(Some(ProgramLine {
            text,
            next: program_end as u64,
        })),
    }
}
