//! A Tick: nothing if held, else the first of these that applies. An item is handed out, an approach or a segment is
//! opened, an entry is committed, a line is begun.
ghost use Rattle.std.specs.Prelude.{◌≡◌, ◌≤◌, ℕ, List, true, false, Some, IfOk, IfErr, IfSome, IsSome};
ghost use Rattle.ng_num.specs.declared.fault.Fault.TheVariants.{DeviceFailed};
ghost use Rattle.ng_rig.specs.Calls.{IfHonest};
ghost use Rattle.ng_layout.specs.Storable.{IsStorableHalf};
ghost use Rattle.ng_layout.specs.Stored.{DurableState};
ghost use Rattle.ng_journal.specs.Journal.{IsDurablyAt, HoldsProgram, JournalCall};
ghost use Rattle.ng_journal.specs.Program.{FirstKindSpec};
ghost use Rattle.ng_journal.specs.Storing.{ledger_of};
ghost use Rattle.ng_text.specs.LinesBefore.{IsTrueOf, IsLineBetween};
ghost use Rattle.ng_text.specs.Percent.{first_kind};
ghost use Rattle.ng_text.specs.Programs.{lines_before};

use crate::controller::Controller;
use ng_canon::Item;
use ng_journal::Journal;
use ng_layout::{Half, LONGEST_TEXT};
use ng_num::Fault;
use ng_rig::Rig;
use ng_session::{KnownLines, Reply};
use ng_text::LinesBefore;
use ng_words::LineKind;
use std::alloc::Allocator;

/// The kind of the first line before a place that isn't blank, if that is known. There is no line before the beginning.
fn known_before(known: &LinesBefore, place: u64) -> Option<LineKind>
    ensures holds { (program : List ℕ) → IsTrueOf program known.now
        → IfSome result (λ kind. kind ≡ first_kind (lines_before program place)) }
    ensures beginning { place ≡ 0 → result ≡ Some LineKind.Blank }
{
    if place == 0 {
        return Some(LineKind::Blank);
    }
    known.first_before(place)
}

/// The kind of the first line before a place of the program in force that isn't blank. Nothing is read if it is known.
fn first_kind_before<R: Rig, A: Allocator + Copy + Drop>(
    journal: &mut Journal<R, A>,
    known: &KnownLines<A>,
    place: u64,
) -> Result<LineKind, Fault>
    requires whole { journal.old.broken ≡ false }
    requires place { place ≤ journal.old.saved.length }
    ensures kind { IfHonest (R.seen journal.old.rig) (R.seen journal.new.rig) ((standing : DurableState)
        → IsDurablyAt (R.seen journal.old.rig).trace journal.old standing → IsTrueOf standing.program known.now.before
        → FirstKindSpec result journal.new standing place (R.seen journal.old.rig).trace (R.seen journal.new.rig).trace) }
    ensures reads { (R.seen journal.old.rig).honest → (program : List ℕ)
        → HoldsProgram (R.seen journal.old.rig).trace journal.old program → IsTrueOf program known.now.before
        → IfOk result (λ kind. kind ≡ first_kind (lines_before program place)) }
    ensures unwritten { IfHonest (R.seen journal.old.rig) (R.seen journal.new.rig)
        ((R.seen journal.new.rig).trace ≡ (R.seen journal.old.rig).trace) }
    // Also for a device that isn't honest.
    ensures beginning { place ≡ 0 → IfOk result (λ kind. kind ≡ LineKind.Blank) }
    ensures ledger { ledger_of journal.new ≡ ledger_of journal.old }
    ensures errors { IfErr result (λ e. e ≡ DeviceFailed) }
    ensures call { JournalCall R.seen result journal.old journal.new }
{
    match known_before(known.lines_before(), place) {
        Some(kind) => Ok(kind),
        None => journal.first_kind(place),
    }
}

/// What is known of the lines before the next one, after the line at a place was read. After a line that is too long,
/// which is refused, no more is known than before.
fn lines_after<A: Allocator + Copy + Drop>(
    known: &KnownLines<A>,
    place: u64,
    first: LineKind,
    text: &[u8],
    next: u64,
) -> LinesBefore
    ensures { (program : List ℕ) → IsTrueOf program known.now.before
        → IsLineBetween program place first text.now next → IsTrueOf program result }
{
    if text.len() > LONGEST_TEXT {
        return *known.lines_before();
    }
    known.lines_before().after(place, first, text, next)
}

impl<R: Rig, A: Allocator + Copy + Drop> Controller<R, A> {
    ghost use Rattle.ng_session.specs.Session.{is_running};
    ghost use Rattle.ng_session.specs.Ticking.{open_part_of, open_next, end, begin, opening_of};
    ghost use Rattle.ng_session.specs.declared.event.Event.TheVariants as event;
    ghost use Rattle.ng_text.specs.Programs.{program_line_at};
    ghost use Rattle.std.specs.Prelude.{None, []};
    ghost use Rattle.ng_core.specs.Events.{CarriesOut, CarriesOutEvent, handing};
    ghost use Rattle.ng_core.specs.Needs.{needs_device, needs_line, needs_of_work};
    ghost use Rattle.ng_core.specs.Private.Ahead.{PlansAhead};

    /// Does the next thing to do: the first of those above that applies.
    pub(crate) fn tick(&mut self) -> Result<Reply, Fault>
        requires { self.old.journal.broken ≡ false }
        ensures { CarriesOutEvent {A = A} R.seen event.Tick result self.old self.new }
    {
        if self.session.is_held() {
            return Ok(Reply::Held);
        }
        match self.session.next_item() {
            Some(item) => self.hand_out(item),
            None => self.go_further(),
        }
    }

    /// With no item left: opens the approach or the next segment of the current block, or else ends what is open of it.
    fn go_further(&mut self) -> Result<Reply, Fault>
        requires { self.old.journal.broken ≡ false }
        ensures { CarriesOut R.seen (needs_of_work self.old.session)
            (λ program. open_next self.old.geometry program self.old.session (opening_of self.old.session.current))
            result self.old self.new }
    {
        match self.session.opening() {
            Some(half) => self.open(half),
            None => self.end(),
        }
    }

    /// With nothing left to open: commits the approach or the current block, after the new state is stored. If there is
    /// no current block, begins the program's next line, if the program runs.
    fn end(&mut self) -> Result<Reply, Fault>
        requires { self.old.journal.broken ≡ false }
        ensures { CarriesOut R.seen (needs_of_work self.old.session)
            (λ program. end self.old.geometry program self.old.session self.old.session.current)
            result self.old self.new }
    {
        if let Some(update) = self.session.after() {
            self.journal.commit_update(&update)?;
            return Ok(self.session.commit());
        }
        if self.session.is_running() {
            return self.begin_next();
        }
        Ok(self.session.rest())
    }

    /// Hands out an item of the open segment, which the session took from it.
    fn hand_out(&mut self, item: Item) -> Result<Reply, Fault>
        requires { self.old.journal.broken ≡ false }
        ensures { CarriesOut R.seen needs_device
            (λ program. handing item program self.old.session) result self.old self.new }
    {
        self.journal.hand_out(item)?;
        Ok(Reply::Moved)
    }

    /// Opens the approach or the next segment, after its half-done block is stored.
    fn open(&mut self, half: Half) -> Result<Reply, Fault>
        requires whole { self.old.journal.broken ≡ false }
        requires half { IsStorableHalf half }
        requires block { IsSome self.old.session.current }
        requires is_open { IsSome half.opened }
        ensures { CarriesOut R.seen needs_device
            (λ program. open_part_of self.old.geometry program self.old.session half) result self.old self.new }
    {
        self.journal.open_segment(&half)?;
        Ok(self.session.open(half, &self.geometry))
    }

    /// Begins the program's next line, which was read ahead or is read now, or stops the program at the end of its
    /// text. If a line was begun, lines after it are read ahead. If the device fails in that, the line is begun, but
    /// the status doesn't show it.
    fn begin_next(&mut self) -> Result<Reply, Fault>
        requires whole { self.old.journal.broken ≡ false }
        requires runs { is_running self.old.session.activity ≡ true }
        requires free { self.old.session.current ≡ None }
        ensures { CarriesOut R.seen needs_line
            (λ program. begin self.old.geometry program self.old.session
            (program_line_at program self.old.session.stored.place))
            result self.old self.new }
    {
        match self.begin()? {
            Reply::Begun => {
                self.plan()?;
                self.plan()?;
                Ok(Reply::Begun)
            }
            reply => Ok(reply),
        }
    }

    /// Begins the program's line at its place, which was read ahead or is read now, or stops the program at the end of
    /// its text.
    fn begin(&mut self) -> Result<Reply, Fault>
        requires whole { self.old.journal.broken ≡ false }
        requires runs { is_running self.old.session.activity ≡ true }
        requires free { self.old.session.current ≡ None }
        ensures { CarriesOut R.seen needs_line
            (λ program. begin self.old.geometry program self.old.session
            (program_line_at program self.old.session.stored.place))
            result self.old self.new }
    {
        match self.session.begin_ahead(&mut self.lines) {
            Some(reply) => Ok(reply),
            None => self.begin_read(),
        }
    }

    /// Reads the program's line at its place, if none was read ahead, and begins it; or stops the program at the end of
    /// its text.
    fn begin_read(&mut self) -> Result<Reply, Fault>
        requires whole { self.old.journal.broken ≡ false }
        requires runs { is_running self.old.session.activity ≡ true }
        requires alone { self.old.lines.ahead ≡ [] }
        ensures { CarriesOut R.seen needs_line
            (λ program. begin self.old.geometry program self.old.session
            (program_line_at program self.old.session.stored.place))
            result self.old self.new }
    {
        let place = self.session.place();
        let first = first_kind_before(&mut self.journal, &self.lines, place)?;
        match self.journal.program_line(place)? {
            Some(line) => {
                let text = line.text.as_slice();
                let reply = self.session.begin(text, line.next, first, &self.geometry);
                let before = lines_after(&self.lines, place, first, text, line.next);
                self.lines.set_before(before);
                Ok(reply)
            }
            None => Ok(self.session.break_off(first)),
        }
    }

    /// Reads one more line ahead and plans it, unless none can be planned. J1 if the device failed: then the journal is
    /// broken, and nothing else is changed.
    fn plan(&mut self) -> Result<(), Fault>
        requires whole { self.old.journal.broken ≡ false }
        ensures { PlansAhead R.seen result self.old self.new }
    {
        let Some(place) = self.session.place_ahead(&self.lines) else {
            return Ok(());
        };
        let first = first_kind_before(&mut self.journal, &self.lines, place)?;
        match self.journal.program_line(place)? {
            Some(line) => {
                let text = line.text.as_slice();
                self.session
                    .plan(&mut self.lines, text, line.next, first, &self.geometry);
                let before = lines_after(&self.lines, place, first, text, line.next);
                self.lines.set_before(before);
            }
            None => self.lines.end(),
        }
        Ok(())
    }
}
