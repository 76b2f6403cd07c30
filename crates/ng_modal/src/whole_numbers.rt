//! The whole numbers in a block's words.
ghost use Rattle.std.specs.Prelude.{◌≡◌, ◌≤◌, unsigned_abs, IfSome};
ghost use Rattle.std.specs.Option.{option_and_then};
ghost use Rattle.ng_num.specs.Whole.{whole_of};
ghost use Rattle.ng_modal.specs.WholeNumbers.{slot_of, slot_on, system_on, repeats_by, repeats_on};

use crate::block::Block;
use ng_num::Num;
use ng_params::System;

/// The slot with a number.
#[inline]
fn slot_of(number: i64) -> Option<u8>
    ensures { result ≡ slot_of number }
{
    if 0 <= number && number <= 255 {
        Some(number as u8)
    } else {
        None
    }
}

/// The whole number that a word's value counts as, at most 10,000,000 in absolute value.
#[inline]
fn whole_on(word: Option<Num>) -> Option<i64>
    ensures value { result ≡ option_and_then whole_of word }
    ensures range { IfSome result (λ n. unsigned_abs n ≤ 10_000_000) }
{
    match word {
        Some(value) => {
            // Called for its contract: the value is in range.
            let _count = value.count();
            value.whole()
        }
        None => None,
    }
}

/// The slot that a word names.
#[inline]
fn slot_on(word: Option<Num>) -> Option<u8>
    ensures { result ≡ slot_on word }
{
    match whole_on(word) {
        Some(number) => slot_of(number),
        None => None,
    }
}

/// A number of repeats, but at least one.
#[inline]
fn repeats_by(number: Option<i64>) -> u32
    requires { IfSome number (λ n. unsigned_abs n ≤ 10_000_000) }
    ensures value { result ≡ repeats_by number }
    ensures some { 1 ≤ result }
    ensures few { result ≤ 10_000_000 }
{
    match number {
        Some(number) => if number < 1 { 1 } else { number as u32 },
        None => 1,
    }
}

impl Block {
    /// The slot that T selects. In an accepted block it is `None` only if there is no T, and at most the number of
    /// slots (NISTIR 6556, 3.7.3).
    #[inline]
    pub fn selected_slot(&self) -> Option<u8>
        ensures { result ≡ slot_on self.now.values.t }
    {
        slot_on(self.values.t())
    }

    /// The slot that H names, whose length G43 takes; 0 for none. In an accepted block it is `None` only if there is no
    /// H, and at most the number of slots (NISTIR 6556, 3.5.11).
    #[inline]
    pub fn length_slot(&self) -> Option<u8>
        ensures { result ≡ slot_on self.now.values.h }
    {
        slot_on(self.values.h())
    }

    /// The system that P names, whose origin G10 sets. In an accepted block with G10 it is never `None` (NISTIR 6556,
    /// 3.5.5).
    #[inline]
    pub fn origin_system(&self) -> Option<System>
        ensures { result ≡ system_on self.now.values.p }
    {
        match whole_on(self.values.p()) {
            Some(number) => System::of(number),
            None => None,
        }
    }

    /// How often a cycle is repeated: L times, or once if there is no L. At least once, and at most 10,000,000 times,
    /// which is what an L of 9,999,999.9999 counts as (NISTIR 6556, 3.5.16).
    #[inline]
    pub fn repeats(&self) -> u32
        ensures value { result ≡ repeats_on self.now.values.l }
        ensures some { 1 ≤ result }
        ensures few { result ≤ 10_000_000 }
    {
        repeats_by(whole_on(self.values.l()))
    }
}
