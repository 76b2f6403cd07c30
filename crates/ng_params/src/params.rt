//! The table of parameters.
ghost use Rattle.std.specs.Prelude.{◌≡◌, pos, IfOk, map};
ghost use Rattle.std.specs.List.Sorted.{IsStrictlyIncreasing};
ghost use Rattle.ng_params.specs.Params.{at, defaults, with_value};
ghost use Rattle.ng_params.specs.Lasting.{cleared};
ghost use Rattle.ng_params.specs.Change.{with_changes, AreDifferences};

use crate::change::Change;
use crate::index::{Index, PARAMETER_COUNT};
use crate::lasting::lasts;
use ng_num::Num;
use std::alloc::{AllocError, Allocator};
use std::marker::Model;

/// The number 1.
fn one() -> Num
    ensures { result ≡ pos 1_000_000 }
{
    Num::of(1_000_000).unwrap()
}

/// The table of parameters: a list of 5399 numbers, starting with parameter 1.
#[derive(Drop)]
pub struct Params<A: Allocator> {
    values: Vec<Num, A>,
}

impl<A: Allocator> Model for Params<A> {
    ghost use Rattle.std.specs.Prelude.{List, ℤ, length, ◌≡◌};
    ghost use Rattle.ng_params.specs.Numbers.{parameter_count};

    ghost Value = { List ℤ };

    ghost view = { λ p. p.values.items };

    ghost invariant = { λ p. length p.values.items ≡ parameter_count };
}

impl<A: Allocator + Copy + Drop> Params<A> {
    /// The default table: the number of the system in force, parameter 5220, is 1; all other parameters are 0 (NISTIR
    /// 6556, 3.2.1). Fails only if memory runs out.
    pub fn new(alloc: A) -> Result<Self, AllocError>
        ensures { IfOk result (λ p. p ≡ defaults) }
    {
        let mut values = vec![in alloc; Num::zero(); PARAMETER_COUNT]?;
        values[5219] = one();
        Ok(Params { values })
    }

    /// A parameter's value.
    pub fn get(&self, index: Index) -> Num
        ensures { result ≡ at self.now index }
    {
        self.values[index.number() as usize - 1]
    }

    /// Gives a parameter a value; all others stay.
    pub fn set(&mut self, index: Index, value: Num)
        ensures { self.new ≡ with_value self.old index value }
    {
        let place = index.number() as usize - 1;
        self.values[place] = value;
    }

    /// Makes changes in order. Of two changes of one parameter the last counts.
    pub fn apply(&mut self, changes: &[Change])
        ensures { self.new ≡ with_changes self.old changes.now }
    {
        for change in changes {
            self.set(change.index, change.value);
        }
    }

    /// The value that a parameter will have after changes, made in order.
    pub fn get_after(&self, index: Index, changes: &[Change]) -> Num
        ensures { result ≡ at (with_changes self.now changes.now) index }
    {
        let number = index.number();
        let mut value = self.values[number as usize - 1];
        for change in changes {
            if change.index.number() == number {
                value = change.value;
            }
        }
        value
    }

    /// Sets all parameters to 0 except those that survive the end of a program: the homes, the G92 offset, the number
    /// of the system in force and the origins (own).
    pub fn clear_passing(&mut self)
        ensures { self.new ≡ cleared self.old }
    {
        for k in 0..PARAMETER_COUNT {
            if !lasts(k as u16 + 1) {
                self.values[k] = Num::zero();
            }
        }
    }

    /// The parameters whose values differ from those of an older table, in rising order of index. Fails only if memory
    /// runs out. For callers of this crate alone: the programs store the changes of a block, or the next few
    /// differences.
    pub fn changes_from(&self, old: &Params<A>) -> Result<Vec<Change, A>, AllocError>
        ensures restores { IfOk result (λ changes. with_changes old.now changes.items ≡ self.now) }
        ensures differ { IfOk result (λ changes. AreDifferences old.now self.now changes.items) }
        ensures rising { IfOk result (λ changes. IsStrictlyIncreasing (map (λ c. c.index) changes.items)) }
    {
        let mut changes = Vec::new(*self.values.allocator());
        for k in 0..PARAMETER_COUNT {
            let value = self.values[k];
            if value != old.values[k] {
                changes.push(Change {
                    index: Index::known(k as u16 + 1),
                    value,
                })?;
            }
        }
        Ok(changes)
    }

    /// A copy of the table. Fails only if memory runs out.
    pub fn copy(&self) -> Result<Self, AllocError>
        ensures { IfOk result (λ p. p ≡ self.now) }
    {
        Ok(Params {
            values: self.values.clone()?,
        })
    }
}
