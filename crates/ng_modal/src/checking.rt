//! Whether a line's words are valid together.
ghost use Rattle.std.specs.Prelude.{◌≡◌, List, Ok, Err, MatchResult, OnOk, IfOk};
ghost use Rattle.ng_expr.specs.declared.word.Word.{Word as TheWord};
ghost use Rattle.ng_num.specs.Causes.{first_fault, NoneHolds, IsFirstFault};
ghost use Rattle.ng_modal.specs.Checking.{faults, checked};
ghost use Rattle.ng_modal.specs.WholeNumbers.{IsAccepted};

use crate::block::Block;
use crate::movement::is_straight;
use crate::predicates::is_negative;
use crate::sorted::Sorted;
use ng_expr::{Values, Word};
use ng_num::{Fault, first_fault};
use ng_state::Modes;

impl Sorted {
    ghost use Rattle.ng_modal.specs.Sorted.{sorted_in, is_plain};

    /// Whether words ask for a straight move and for nothing else that may be refused. Most lines are of this kind, so
    /// this is checked before the causes one by one.
    #[inline]
    fn is_plain(&self) -> bool
        ensures { result ≡ is_plain self.now }
    {
        let block = &self.block;
        let values = &block.values;
        let marked = self.repeated
            | self.unknown
            | self.left_out
            | self.group_twice
            | self.m_group_twice
            | (self.m_count > 4);
        let others = values.h().is_some()
            | values.i().is_some()
            | values.j().is_some()
            | values.k().is_some()
            | values.l().is_some()
            | values.p().is_some()
            | values.q().is_some()
            | values.r().is_some()
            | values.s().is_some()
            | values.t().is_some();
        let takers = block.g.non_modal.is_some() | block.g.tool_length.is_some();
        is_straight(block.movement)
            && values.has_axis()
            && !is_negative(values.f())
            && !(marked | others | takers)
    }

    /// Replaces what is kept by the words of a line, and finds whether a letter is left out and what the line moves in
    /// these modes.
    fn sort_in(&mut self, words: &[Word], modes: &Modes)
        ensures { self.new ≡ sorted_in words.now modes.now }
    {
        self.sort(words);
        self.left_out |= self.block.values.has_left_out_letter();
        self.block.movement = self.block.movement_for(modes.motion);
    }

    /// The first of B1 to B19 whose cause holds for the words that are kept. Few lines come here, so this is a call of
    /// its own, and what it reads isn't loaded for the others.
    #[inline(never)]
    fn find_fault(&self, modes: &Modes, slots: u8) -> Option<Fault>
        ensures { (ws : List TheWord) → self.now ≡ sorted_in ws modes.now → result ≡ first_fault (faults ws modes.now slots) }
    {
        let block = &self.block;
        first_fault(&[
            (self.repeated, Fault::RepeatedLetter),
            (self.unknown, Fault::UnknownCode),
            (self.left_out, Fault::LeftOutCode),
            (self.group_twice | self.m_group_twice, Fault::GroupTwice),
            (self.m_count > 4, Fault::TooManyM),
            (block.takes_axes_twice(), Fault::AxisTakenTwice),
            (block.leaves_axis_unused(modes), Fault::AxisUnused),
            (block.moves_no_axis(), Fault::NoAxis),
            (block.sets_nothing(), Fault::NothingToSet),
            (block.has_bad_g53(modes), Fault::BadG53),
            (block.has_radius_arc(), Fault::RadiusArc),
            (block.leaves_word_unused(modes), Fault::UnusedWord),
            (block.has_negative(), Fault::Negative),
            (block.has_bad_slot(slots), Fault::BadSlot),
            (block.has_bad_l(), Fault::BadL),
            (block.has_bad_system(), Fault::BadSystem),
            (block.has_no_dwell(), Fault::NoDwell),
            (block.has_no_h(), Fault::NoH),
            (block.has_cycle_plane(modes), Fault::CyclePlane),
        ])
    }

    /// Finds what words ask for, or the first fault whose cause holds.
    fn check_words(&mut self, words: &[Word], modes: &Modes, slots: u8) -> Result<(), Fault>
        ensures { MatchResult result
            (λ _. checked words.now modes.now slots ≡ Ok self.new.block)
            (λ fault. checked words.now modes.now slots ≡ Err fault) }
    {
        self.sort_in(words, modes);
        if self.is_plain() {
            return Ok(());
        }
        match self.find_fault(modes, slots) {
            Some(fault) => Err(fault),
            None => Ok(()),
        }
    }

    /// Finds what a line asks for, given the modes before it and the number of tool slots, and stores it here.
    /// Otherwise returns the first of B1 to B19 whose cause holds (NISTIR 6556, 3.3 to 3.7; numbers own). After an
    /// error the block here is meaningless.
    pub fn check(&mut self, values: &Values, modes: &Modes, slots: u8) -> Result<(), Fault>
        ensures value { MatchResult result
            (λ _. checked values.now.words.items modes.now slots ≡ Ok self.new.block)
            (λ fault. checked values.now.words.items modes.now slots ≡ Err fault) }
        ensures least { MatchResult result
            (λ _. NoneHolds (faults values.now.words.items modes.now slots))
            (λ fault. IsFirstFault (faults values.now.words.items modes.now slots) fault) }
        ensures accepted { OnOk result (IsAccepted self.new.block modes.now slots) }
    {
        self.check_words(values.words.as_slice(), modes, slots)
    }
}

/// What a line asks for, given the modes before it and the number of tool slots, or the first of B1 to B19 whose cause
/// holds (NISTIR 6556, 3.3 to 3.7; numbers own). It is for callers of this crate alone: the programs keep what
/// this makes, and check into it.
pub fn check(values: &Values, modes: &Modes, slots: u8) -> Result<Block, Fault>
    ensures value { result ≡ checked values.now.words.items modes.now slots }
    ensures least { MatchResult result
        (λ _. NoneHolds (faults values.now.words.items modes.now slots))
        (λ fault. IsFirstFault (faults values.now.words.items modes.now slots) fault) }
    ensures accepted { IfOk result (λ block. IsAccepted block modes.now slots) }
{
    let mut sorted = Sorted::nothing();
    match sorted.check(values, modes, slots) {
        Ok(()) => Ok(sorted.block),
        Err(fault) => Err(fault),
    }
}
