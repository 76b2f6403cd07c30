//! What a journal reads of the program in force.
ghost use Rattle.std.specs.Prelude.{◌≡◌, ◌≤◌, ◌<◌, false, IfOk, IfErr, IfSome};
ghost use Rattle.ng_num.specs.declared.fault.Fault.TheVariants.{DeviceFailed};
ghost use Rattle.ng_rig.specs.Calls.{IfHonest};
ghost use Rattle.ng_layout.specs.Stands.{program_under};
ghost use Rattle.ng_layout.specs.Stored.{DurableState};
ghost use Rattle.ng_log.specs.Reading.{ReadSpec};
ghost use Rattle.ng_text.specs.Percent.{first_kind};
ghost use Rattle.ng_text.specs.Programs.{lines_before, program_line_at};
ghost use Rattle.ng_journal.specs.Program.{FirstKindSpec, ProgramLineSpec};
ghost use Rattle.ng_journal.specs.Storing.{ledger_of};

use super::Journal;
use crate::line::{ProgramLine, read_line};
use crate::lines_before::read_first_kind;
use ng_num::Fault;
use ng_rig::{Failed, Rig};
use ng_words::LineKind;
use std::alloc::Allocator;

impl<R: Rig, A: Allocator + Copy + Drop> Journal<R, A> {
    ghost use Rattle.ng_journal.specs.Journal.{IsDurablyAt, JournalCall};

    /// The kind of the first line before a place of the program in force that isn't blank; blank if all lines are
    /// (own). It reads at most to the end of that line.
    ///
    /// J1 if the device failed: then the journal is broken. Nothing is written, and nothing is allocated.
    pub fn first_kind(&mut self, place: u64) -> Result<LineKind, Fault>
        requires whole { self.old.broken ≡ false }
        requires place { place ≤ self.old.saved.length }
        ensures reads { IfHonest (R.seen self.old.rig) (R.seen self.new.rig)
            (ReadSpec result (λ image kind. kind ≡ first_kind (lines_before (program_under self.old.header image) place))
            (R.seen self.old.rig).trace (R.seen self.new.rig).trace) }
        ensures kind { IfHonest (R.seen self.old.rig) (R.seen self.new.rig)
            ((standing : DurableState) → IsDurablyAt (R.seen self.old.rig).trace self.old standing
            → FirstKindSpec result self.new standing place (R.seen self.old.rig).trace (R.seen self.new.rig).trace) }
        ensures ledger { ledger_of self.new ≡ ledger_of self.old }
        ensures errors { IfErr result (λ e. e ≡ DeviceFailed) }
        ensures call { JournalCall R.seen result self.old self.new }
    {
        let header = self.tip.header;
        match read_first_kind(&mut self.rig, header.area, place as usize) {
            Ok(kind) => Ok(kind),
            Err(Failed) => {
                self.broken = true;
                Err(Fault::DeviceFailed)
            }
        }
    }

    /// The line of the program in force that begins at a place, and where the next one begins; `None` at the program's
    /// end (own). A place in the middle of a line begins a line there.
    ///
    /// J1 if the device failed: then the journal is broken. Nothing is written, and nothing is allocated.
    pub fn program_line(&mut self, place: u64) -> Result<Option<ProgramLine>, Fault>
        requires whole { self.old.broken ≡ false }
        requires place { place ≤ self.old.saved.length }
        ensures reads { IfHonest (R.seen self.old.rig) (R.seen self.new.rig)
            (ReadSpec result (λ image line. line ≡ program_line_at (program_under self.old.header image) place)
            (R.seen self.old.rig).trace (R.seen self.new.rig).trace) }
        ensures line { IfHonest (R.seen self.old.rig) (R.seen self.new.rig)
            ((standing : DurableState) → IsDurablyAt (R.seen self.old.rig).trace self.old standing
            → ProgramLineSpec result self.new standing place (R.seen self.old.rig).trace (R.seen self.new.rig).trace) }
        ensures next { IfOk result (λ line. IfSome line (λ l. (place < l.next) × (l.next ≤ self.old.saved.length))) }
        ensures ledger { ledger_of self.new ≡ ledger_of self.old }
        ensures errors { IfErr result (λ e. e ≡ DeviceFailed) }
        ensures call { JournalCall R.seen result self.old self.new }
    {
        let header = self.tip.header;
        let program_end = header.length as usize;
        match read_line(&mut self.rig, header.area, place as usize, program_end) {
            Ok(line) => Ok(line),
            Err(Failed) => {
                self.broken = true;
                Err(Fault::DeviceFailed)
            }
        }
    }
}
