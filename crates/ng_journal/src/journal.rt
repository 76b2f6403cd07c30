//! The journal of a device.
ghost use Rattle.std.specs.Prelude.{◌≡◌, ◌≤◌, ◌<◌, ◌⊎◌, ◌↔◌, ℤ, List, false, true, [], Some, length, OnOk, IfOk, IfErr, IsSome, IsErrAnd};
ghost use Rattle.ng_num.specs.declared.fault.Fault.TheVariants.{DeviceFailed, NotFormatted, OutOfMemory};
ghost use Rattle.ng_rig.specs.Calls.{IfHonest, HandOutSpec};
ghost use Rattle.ng_layout.specs.Areas.{least_size};
ghost use Rattle.ng_layout.specs.Limits.{greatest_count};
ghost use Rattle.ng_params.specs.Differences.{differences};
ghost use Rattle.ng_params.specs.Numbers.{parameter_count};
ghost use Rattle.ng_layout.specs.Storable.{IsStorableHalf, IsStorable};
ghost use Rattle.ng_offsets.specs.Tools.{IsOneSlotFrom};
ghost use Rattle.ng_layout.specs.Stored.{DurableState};
ghost use Rattle.ng_layout.specs.Update.{updated};
ghost use Rattle.ng_log.specs.AtEnd.{no_records};
ghost use Rattle.ng_journal.specs.Recover.{RecoverSpec, IsRecoveryFault, recover_rig, recover_fault};
ghost use Rattle.ng_journal.specs.Journal.{CountsFailure};
ghost use Rattle.ng_journal.specs.Recovery.{IsTableOver};
ghost use Rattle.ng_rig.specs.Trace.{reads};
ghost use Rattle.ng_journal.specs.Loads.{LoadsProgram, KeepsLoad, FailsToLoad};
ghost use Rattle.ng_journal.specs.Storing.{Commit, Open, IsFullFor, IsSettled, StoresEntry, KeepsEntry, FailsToStore, ledger_of};

use crate::checkpoint::next_header;
use crate::loading::load;
use crate::recovery::restore;
use crate::storing::{Tip, count_between, store, store_update, take_state};
use ng_canon::Item;
use ng_layout::{
    GREATEST_COUNT, Half, LARGE_SIZE, LEAST_SIZE, Stored, Update, program_limit_of, spare_area,
};
use ng_num::Fault;
use ng_offsets::Tools;
use ng_rig::{Failed, Rig};
use std::alloc::{AllocError, Allocator};
use std::marker::Model;

mod program;

/// What is stored of a controller, on a device (own). After a failed call of the device it is broken. Contracts see a
/// `JournalModel`.
pub struct Journal<R: Rig, A: Allocator + Copy + Drop> {
    rig: R,
    tip: Tip,
    stored: Stored<A>,
    broken: bool,
}

impl<R: Rig, A: Allocator + Copy + Drop> Model for Journal<R, A> {
    ghost use Rattle.ng_journal.specs.Journal.{JournalModel, IsSteady};

    ghost Value = { JournalModel R };

    ghost view = { λ j. record { rig = j.rig; header = j.tip.header; end = j.tip.end; saved = j.stored; broken = j.broken } };

    ghost invariant = { λ j. IsSteady (R.seen j.rig).sectors j.tip.header j.tip.end j.stored };
}

/// Powers on (own): finds what the device stands for, and writes it again under the next epoch with nothing open.
///
/// The state is the snapshot of the header in force with the complete records after it. Afterwards the log ends at its
/// beginning.
///
/// A device of format 1 gets the table, and is of format 2 from then on. With format 2 the table isn't used.
///
/// J2 for fewer than 1,710 sectors, with no call of the device, and if no header is valid; J3 if what is stored is
/// damaged; J4 if the next epoch, or over format 1 the one after that, would exceed its limit. All of these come before
/// any write. J1 if the device failed. M1 if it is out of memory, before any call of the device. In each of these cases
/// the device is returned.
pub fn recover<R: Rig, A: Allocator + Copy + Drop>(
    alloc: A,
    mut rig: R,
    tools: &Tools,
) -> Result<(Journal<R, A>, Stored<A>), (Fault, R)>
    ensures recovers { let after = recover_rig result in least_size ≤ (R.seen rig).sectors → (table : List ℤ)
        → IsTableOver tools.now table (reads (R.seen rig).trace)
        → IfHonest (R.seen rig) (R.seen after) (RecoverSpec table result (R.seen rig).trace (R.seen after).trace) }
    ensures journal { IfOk result (λ x. (x.0.broken ≡ false) × (x.0.saved ≡ x.1) × IsStorable x.1) }
    ensures end { IfOk result (λ x. x.0.end ≡ no_records) }
    ensures small { (R.seen rig).sectors < least_size → IsErrAnd result (λ e. (e.0 ≡ NotFormatted) × (e.1 ≡ rig)) }
    ensures faults { IfErr result (λ e. IsRecoveryFault e.0) }
    ensures memory { IfErr result (λ e. e.0 ≡ OutOfMemory → e.1 ≡ rig) }
    ensures size { let after = recover_rig result in (R.seen after).sectors ≡ (R.seen rig).sectors }
    ensures failures { let after = recover_rig result in CountsFailure (recover_fault result) (R.seen rig).failed (R.seen after).failed }
{
    if rig.size() < LEAST_SIZE {
        return Err((Fault::NotFormatted, rig));
    }
    let large = rig.size() >= LARGE_SIZE;
    let (mut stored, mut copy) = match two_fresh(alloc, program_limit_of(large)) {
        Ok(both) => both,
        Err(_) => return Err((Fault::OutOfMemory, rig)),
    };
    // Called for its contract: each length is within its limits, and there are no more lengths than may be stored.
    let _ = tools.slots();
    match restore(&mut rig, large, tools, &mut stored) {
        Err(Failed) => Err((Fault::DeviceFailed, rig)),
        Ok(Err(fault)) => Err((fault, rig)),
        Ok(Ok(header)) => {
            copy.take_over(&stored);
            let journal = Journal {
                rig,
                tip: Tip::beginning(header),
                stored: copy,
                broken: false,
            };
            Ok((journal, stored))
        }
    }
}

/// The stored state of a fresh controller on a device with this limit, twice: for the journal and for its caller.
fn two_fresh<A: Allocator + Copy + Drop>(
    alloc: A,
    program_limit: u64,
) -> Result<(Stored<A>, Stored<A>), AllocError>
    ensures { IfOk result (λ x. (length x.0.setup.params ≡ parameter_count) × (length x.1.setup.params ≡ parameter_count)
        × (x.0.tools ≡ []) × (x.0.program_limit ≡ program_limit)) }
{
    Ok((
        Stored::fresh(alloc, program_limit)?,
        Stored::fresh(alloc, program_limit)?,
    ))
}

impl<R: Rig, A: Allocator + Copy + Drop> Journal<R, A> {
    ghost use Rattle.ng_journal.specs.Journal.{JournalModel, JournalCall, IsDurablyAt, JournalHandOutSpec, with_own_limit};

    /// The device as it is, without a call to it.
    pub fn into_rig(self) -> R
        ensures { result ≡ self.rig }
    {
        let Journal {
            rig,
            tip: _,
            stored: _,
            broken: _,
        } = self;
        rig
    }

    /// Whether a call of the device failed (own).
    pub fn broken(&self) -> bool
        ensures { result ≡ self.now.broken }
    {
        self.broken
    }

    /// Stores an entry (own): the new state, with the same program. It is written as a record after the log's end, with
    /// one write for each part and one sync. If the log has no room for it, the old state is written under the next
    /// epoch first. The program limit stays that of the device, whatever the entry says (`with_own_limit`).
    ///
    /// J4 if the entry count would exceed its limit, or if the next epoch is needed and would exceed its limit: then
    /// nothing is changed. J1 if the device failed: then the journal is broken, and the device stands for the old state
    /// or for the new one. Nothing is allocated.
    #[tactic(auto, unfolding(crate::specs::Storing::UsesUp))]
    pub fn commit(&mut self, stored: &Stored<A>) -> Result<(), Fault>
        requires whole { self.old.broken ≡ false }
        requires storable { IsStorable stored.now }
        requires program { stored.now.length ≡ self.old.saved.length }
        requires tools { IsOneSlotFrom self.old.saved.tools stored.now.tools }
        ensures stores { IfHonest (R.seen self.old.rig) (R.seen self.new.rig)
            (StoresEntry result (with_own_limit self.old stored.now) self.old self.new
            (R.seen self.old.rig).trace (R.seen self.new.rig).trace) }
        ensures keeps { OnOk result (KeepsEntry (with_own_limit self.old stored.now) self.old self.new) }
        ensures fails { FailsToStore result (Commit stored.now) self.old self.new }
        ensures call { JournalCall R.seen result self.old self.new }
    {
        if stored.entries > GREATEST_COUNT || self.is_used_up_between(stored) {
            return Err(Fault::CountersUsed);
        }
        match store(&mut self.rig, self.tip, &self.stored, stored) {
            Ok(tip) => {
                take_state(&mut self.stored, stored);
                self.tip = tip;
                Ok(())
            }
            Err(Failed) => {
                self.broken = true;
                Err(Fault::DeviceFailed)
            }
        }
    }

    /// Stores an entry, as `commit` does, given as what it changes (own). It compares no tables and copies none.
    ///
    /// The changes of parameters must be the differences that they make, in order (`ng_params::settled_changes`). A
    /// slot may get the length that it has. J4 and J1 as for `commit`. Nothing is allocated.
    #[tactic(auto, unfolding(crate::specs::Storing::UsesUp))]
    pub fn commit_update(&mut self, update: &Update<'_>) -> Result<(), Fault>
        requires whole { self.old.broken ≡ false }
        requires storable { IsStorable (updated self.old.saved update.now) }
        requires settled { IsSettled self.old.saved update.now }
        ensures stores { IfHonest (R.seen self.old.rig) (R.seen self.new.rig)
            (StoresEntry result (updated self.old.saved update.now) self.old self.new
            (R.seen self.old.rig).trace (R.seen self.new.rig).trace) }
        ensures keeps { OnOk result (KeepsEntry (updated self.old.saved update.now) self.old self.new) }
        ensures fails { FailsToStore result (Commit (updated self.old.saved update.now)) self.old self.new }
        ensures call { JournalCall R.seen result self.old self.new }
    {
        if update.decoded.entries > GREATEST_COUNT || self.is_used_up_by(update.changes.len()) {
            return Err(Fault::CountersUsed);
        }
        match store_update(&mut self.rig, self.tip, &mut self.stored, update) {
            Ok(tip) => {
                self.tip = tip;
                Ok(())
            }
            Err(Failed) => {
                self.broken = true;
                Err(Fault::DeviceFailed)
            }
        }
    }

    /// Stores that a segment or an approach of a half-done block is open (own); the entry count stays. It is written as
    /// a record with no changes, as for `commit`.
    ///
    /// J4 if the next epoch is needed and would exceed its limit: then nothing is changed. J1 as for `commit`. Nothing
    /// is allocated.
    #[tactic(auto, unfolding(crate::specs::Storing::UsesUp))]
    pub fn open_segment(&mut self, half: &Half) -> Result<(), Fault>
        requires whole { self.old.broken ≡ false }
        requires half { IsStorableHalf half.now }
        requires is_open { IsSome half.now.opened }
        ensures stores { IfHonest (R.seen self.old.rig) (R.seen self.new.rig)
            (StoresEntry result (record self.old.saved { half = Some half.now }) self.old self.new
            (R.seen self.old.rig).trace (R.seen self.new.rig).trace) }
        ensures keeps { OnOk result (KeepsEntry (record self.old.saved { half = Some half.now }) self.old self.new) }
        ensures fails { FailsToStore result (Open half.now) self.old self.new }
        ensures call { JournalCall R.seen result self.old self.new }
    {
        let decoded = self.stored.decoded_with(half.copy());
        self.commit_update(&Update {
            decoded,
            changes: &[],
            slot: None,
        })
    }

    /// Stores a program and the state that goes with it (own). The text replaces the program in force, and the log
    /// begins again. The program limit stays that of the device, as for `commit`.
    ///
    /// The text is written to program area 1 if area 0 is in force, and else to 0. On a large device it is written to
    /// area 3 if 2 is in force, and else to 2.
    ///
    /// J5 for more bytes than the device takes: 131,072, or 1,048,576 on a large device. J4 if the entry count
    /// or the epoch would exceed its limit. In both cases nothing is changed, and the device isn't called. J1 if the
    /// device failed: then the journal is broken, and the device stands for the old state or for the new one. Nothing
    /// is allocated.
    #[tactic(auto, unfolding(crate::specs::Storing::UsesUp))]
    pub fn load_program(&mut self, text: &[u8], stored: &Stored<A>) -> Result<(), Fault>
        requires whole { self.old.broken ≡ false }
        requires storable { length text.now ≤ self.old.saved.program_limit → IsStorable stored.now }
        requires long { stored.now.length ≡ length text.now }
        ensures stores { IfHonest (R.seen self.old.rig) (R.seen self.new.rig)
            (LoadsProgram result (R.seen self.old.rig).sectors
            (record { saved = with_own_limit self.old stored.now; program = text.now }) self.old self.new
            (R.seen self.old.rig).trace (R.seen self.new.rig).trace) }
        ensures keeps { OnOk result
            (KeepsLoad (R.seen self.old.rig).sectors (with_own_limit self.old stored.now) self.old self.new) }
        ensures fails { FailsToLoad result text.now stored.now self.old self.new }
        ensures call { JournalCall R.seen result self.old self.new }
    {
        if text.len() as u64 > self.stored.program_limit {
            return Err(Fault::ProgramTooLong);
        }
        if self.is_used_up(stored.entries) {
            return Err(Fault::CountersUsed);
        }
        let header = self.tip.header;
        let area = spare_area(self.rig.size() >= LARGE_SIZE, header.area);
        let next = next_header(header, area, stored.length);
        match load(&mut self.rig, header, area, text, stored) {
            Ok(()) => {
                take_state(&mut self.stored, stored);
                self.tip = Tip::beginning(next);
                Ok(())
            }
            Err(Failed) => {
                self.broken = true;
                Err(Fault::DeviceFailed)
            }
        }
    }

    /// Hands an item out (own). J1 if the device failed: then the journal is broken, and the item or nothing was handed
    /// out. Nothing is allocated.
    pub fn hand_out(&mut self, item: Item) -> Result<(), Fault>
        requires whole { self.old.broken ≡ false }
        ensures hands { IfHonest (R.seen self.old.rig) (R.seen self.new.rig)
            (HandOutSpec result item (R.seen self.old.rig).trace (R.seen self.new.rig).trace) }
        ensures stops { IfHonest (R.seen self.old.rig) (R.seen self.new.rig)
            ((standing : DurableState) → IsDurablyAt (R.seen self.old.rig).trace self.old standing
            → JournalHandOutSpec result self.new standing item (R.seen self.old.rig).trace (R.seen self.new.rig).trace) }
        ensures ledger { ledger_of self.new ≡ ledger_of self.old }
        ensures errors { IfErr result (λ e. e ≡ DeviceFailed) }
        ensures call { JournalCall R.seen result self.old self.new }
    {
        match self.rig.hand_out(item) {
            Ok(()) => Ok(()),
            Err(Failed) => {
                self.broken = true;
                Err(Fault::DeviceFailed)
            }
        }
    }

    /// Whether this number of entries, or the next epoch, exceeds its limit.
    fn is_used_up(&self, entries: u64) -> bool
        ensures { (result ≡ true) ↔ (greatest_count < entries ⊎ greatest_count ≤ self.now.header.epoch) }
    {
        entries > GREATEST_COUNT || self.tip.header.epoch >= GREATEST_COUNT
    }

    /// Whether the log has no room for a record of this many changes, and the next epoch exceeds its limit.
    fn is_used_up_by(&self, count: usize) -> bool
        requires { count ≤ parameter_count }
        ensures { (result ≡ true) ↔ ((greatest_count ≤ self.now.header.epoch) × IsFullFor self.now.header self.now.end count) }
    {
        self.tip.header.epoch >= GREATEST_COUNT && self.tip.is_full_for(count)
    }
    /// The same for the record that leads to this state. Its changes are counted only in the last epoch.
    fn is_used_up_between(&self, stored: &Stored<A>) -> bool
        ensures { (result ≡ true) ↔ ((greatest_count ≤ self.now.header.epoch) × IsFullFor self.now.header self.now.end
            (length (differences self.now.saved.setup.params stored.now.setup.params))) }
    {
        self.tip.header.epoch >= GREATEST_COUNT
            && self.is_used_up_by(count_between(&self.stored, stored))
    }
}
