//! The changes that a record says, taken piece by piece.
ghost use Rattle.std.specs.Prelude.{◌≡◌, ◌≤◌, length, take, drop};
ghost use Rattle.ng_layout.specs.Limits.{part_changes};
ghost use Rattle.ng_params.specs.Differences.{differences};
ghost use Rattle.ng_params.specs.Numbers.{parameter_count};
ghost use Rattle.ng_log.specs.RecordChanges.{changes_left, compared};

use arrayvec::ArrayVec;
use ng_layout::PART_CHANGES;
use ng_params::{Change, Params, difference_count, next_differences};
use std::alloc::Allocator;
use std::marker::Model;

/// Where the changes that are left come from.
#[derive(Drop)]
enum Source<'a, A: Allocator> {
    /// The differences between two tables, among the parameters after the first `compared` ones.
    Between {
        old: &'a Params<A>,
        new: &'a Params<A>,
        compared: usize,
    },
    /// A list.
    Listed(&'a [Change]),
}

/// The changes of parameters that a record says, in order: the differences between two tables, or a list (own).
/// Contracts see the list.
#[derive(Drop)]
pub struct RecordChanges<'a, A: Allocator> {
    source: Source<'a, A>,
    count: usize,
}

impl<'a, A: Allocator> Model for RecordChanges<'a, A> {
    ghost use Rattle.std.specs.Prelude.{List, ◌≡◌, ◌≤◌, length};
    ghost use Rattle.ng_params.specs.declared.change.Change.{Change};

    ghost Value = { List Change };

    ghost use Rattle.ng_params.specs.Numbers.{parameter_count};
    ghost use Rattle.ng_log.specs.RecordChanges.{changes_left, compared};

    ghost view = { λ r. changes_left r.source };

    ghost invariant = { λ r. (r.count ≡ length (changes_left r.source)) × (compared r.source ≤ parameter_count) };
}

impl<'a, A: Allocator + Copy + Drop> Source<'a, A> {
    /// The next changes, as many as a part has room for, and what is left after them.
    fn next_piece(self) -> (ArrayVec<Change, PART_CHANGES>, Self)
        requires { compared self ≤ parameter_count }
        ensures piece { result.0.items ≡ take part_changes (changes_left self.entry) }
        ensures rest { changes_left result.1 ≡ drop part_changes (changes_left self.entry) }
        ensures compared { compared result.1 ≤ parameter_count }
    {
        match self {
            Source::Between { old, new, compared } => {
                let (piece, compared) = next_differences(old, new, compared);
                (piece, Source::Between { old, new, compared })
            }
            Source::Listed(changes) => {
                let (first, rest) = changes.split_at(PART_CHANGES.min(changes.len()));
                (ArrayVec::try_from(first).unwrap(), Source::Listed(rest))
            }
        }
    }
}

impl<'a, A: Allocator + Copy + Drop> RecordChanges<'a, A> {
    /// The differences between an older table and a newer one. They are counted here, once, and found when they are
    /// written; nothing is allocated (own).
    pub fn between(old: &'a Params<A>, new: &'a Params<A>) -> Self
        ensures changes { result ≡ differences old.now new.now }
        ensures few { length result ≤ parameter_count }
    {
        RecordChanges {
            source: Source::Between {
                old,
                new,
                compared: 0,
            },
            count: difference_count(old, new),
        }
    }

    /// The changes of a list (own).
    pub fn listed(changes: &'a [Change]) -> Self
        ensures { result ≡ changes.now }
    {
        RecordChanges {
            source: Source::Listed(changes),
            count: changes.len(),
        }
    }

    /// How many there are (own).
    pub fn count(&self) -> usize
        ensures { result ≡ length self.now }
    {
        self.count
    }

    /// The next ones, as many as a part has room for, and those that are left after them.
    pub(crate) fn next_piece(self) -> (ArrayVec<Change, PART_CHANGES>, Self)
        ensures piece { result.0.items ≡ take part_changes self.entry }
        ensures rest { result.1 ≡ drop part_changes self.entry }
    {
        let (piece, source) = self.source.next_piece();
        let count = self.count - piece.len();
        (piece, RecordChanges { source, count })
    }
}
