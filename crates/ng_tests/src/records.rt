//! Records with more changes than a line of the operator can make: read, up to as many as a log has room for, and
//! written.
ghost use Rattle.std.specs.Prelude.{◌≡◌, false, length};
ghost use Rattle.ng_layout.specs.Storable.{IsStorable};

use crate::sectors::{FRESH, header, put, sector_with, store};
use ng_journal::{Journal, recover};
use ng_layout::Stored;
use ng_num::{Fault, Num};
use ng_offsets::Tools;
use ng_params::{Index, Params};
use ng_rig::{MemoryRig, Rig};
use std::alloc::Global;
use std::test::Fail;

/// How many parts this many changes take after the first.
fn parts_of(changes: i64) -> i64 {
    changes.saturating_add(47).div_euclid(48)
}

/// A part of record 0 of epoch 1 that has this many changes, as far as its counts can express them.
fn part_of(part: i64, changes: i64) -> [u8; 512] {
    sector_with(&[
        (0, 8, 1),
        (16, 2, part),
        (18, 2, parts_of(changes).saturating_add(1)),
        (20, 2, changes),
    ])
}

/// Its first part: a fresh state with 7 entries.
fn first_part(changes: i64) -> [u8; 512] {
    let mut sector = part_of(0, changes);
    put(&mut sector, 32, 8, 7);
    for (at, width, number) in &FRESH {
        put(&mut sector, at.saturating_add(32), *width, *number);
    }
    sector
}

/// Puts change n of the record at this byte. It sets a parameter to n + 1 millionths: the first to the last in order,
/// and again from the first.
fn put_change(sector: &mut [u8; 512], at: usize, change: i64) {
    put(sector, at, 2, change.rem_euclid(5_399).saturating_add(1));
    put(sector, at.saturating_add(2), 8, change.saturating_add(1));
}

/// A later part, with up to 48 changes.
fn changes_part(part: i64, changes: i64) -> [u8; 512] {
    let mut sector = part_of(part, changes);
    let mut change = part.saturating_sub(1).saturating_mul(48);
    let mut at = 32usize;
    for _ in 0..48 {
        if change < changes {
            put_change(&mut sector, at, change);
        }
        change = change.saturating_add(1);
        at = at.saturating_add(10);
    }
    sector
}

/// A device of this format under epoch 1 with a fresh state in its snapshot, in which all parameters are 0. It has two
/// sectors more than it needs.
fn fresh(alloc: Global, format: i64) -> Result<MemoryRig<Global>, Fail> {
    let mut rig = MemoryRig::new(alloc, 1_712)?;
    if store(&mut rig, 88, &sector_with(&FRESH)) && store(&mut rig, 1, &header(format, 1)) {
        Ok(rig)
    } else {
        Err(Fail::from("a device isn't laid"))
    }
}

/// Writes one record of this many changes to its log, and maybe into the sectors after that.
fn write_changes<R: Rig>(rig: &mut R, changes: i64) -> bool {
    let mut is_laid = store(rig, 686, &first_part(changes));
    for (sector, part) in (687..1_712).zip(1..parts_of(changes).saturating_add(1)) {
        is_laid = is_laid && store(rig, sector, &changes_part(part, changes));
    }
    is_laid && rig.sync().is_ok()
}

/// The last value that this many changes give a parameter.
fn value_after(number: i64, changes: i64) -> i64 {
    let rounds = changes.saturating_sub(number).div_euclid(5_399);
    if number > changes {
        0
    } else {
        number.saturating_add(rounds.saturating_mul(5_399))
    }
}

/// The first parameter without the value that this many changes give it.
fn first_mismatch(params: &Params<Global>, changes: i64) -> Option<i64> {
    for number in 1..5_400 {
        match Index::of(number) {
            Some(index) if params.get(index).count() == value_after(number, changes) => {}
            _ => return Some(number),
        }
    }
    None
}

/// The entries that power on finds on a device, or why it is refused, and the first parameter without the value that
/// this many changes give it.
fn found(alloc: Global, rig: MemoryRig<Global>, changes: i64) -> (Result<u64, Fault>, Option<i64>) {
    match recover(alloc, rig, &Tools::new()) {
        Ok((journal, stored)) => {
            drop(journal.into_rig());
            let unlike = first_mismatch(&stored.state.params, changes);
            (Ok(stored.entries), unlike)
        }
        Err((fault, _)) => (Err(fault), None),
    }
}

/// The format, and how many changes a record has; the entries that power on finds, and how many changes are applied. A
/// log of 1,020 sectors has room for 48,912 in the parts after the first, and one of 1,024, in format 1, for 49,104.
const READ: &[(i64, i64, u64, i64)] = &[
    (2, 5_399, 7, 5_399),
    (2, 5_400, 7, 5_400),
    (2, 48_864, 7, 48_864),
    (2, 48_911, 7, 48_911),
    (2, 48_912, 7, 48_912),
    (2, 48_913, 0, 0),
    (2, 49_104, 0, 0),
    (2, 65_535, 0, 0),
    (1, 48_913, 7, 48_913),
    (1, 49_104, 7, 49_104),
    (1, 49_105, 0, 0),
    (1, 65_535, 0, 0),
];

#[test]
fn a_record_has_as_many_changes_as_the_log_has_room_for(rt: HostRuntime) -> Result<(), Fail> {
    for (format, changes, entries, stand) in READ {
        let mut rig = fresh(rt.alloc(), *format)?;
        assert!(rt; write_changes(&mut rig, *changes), "{changes}");
        let found = found(rt.alloc(), rig, *stand);
        assert_eq!(rt; found, (Ok(*entries), None), "{format} {changes}");
    }
    Ok(())
}

/// Sets each parameter up to this one to its own number of millionths.
fn set_all(params: &mut Params<Global>, last: i64)
    requires { length params.old ≡ 5399 }
    ensures { length params.new ≡ 5399 }
{
    for number in 1..last.saturating_add(1) {
        if let Some(index) = Index::of(number) {
            params.set(index, Num::of(i128::from(number)).unwrap_or_default());
        }
    }
}

/// Stores an entry that changes this many parameters.
fn enter(
    journal: &mut Journal<MemoryRig<Global>, Global>,
    stored: &mut Stored<Global>,
    changes: i64,
) -> Result<(), Fault>
    requires whole { journal.old.broken ≡ false }
    requires storable { IsStorable stored.old }
    requires program { stored.old.length ≡ journal.old.saved.length }
    requires tools { stored.old.tools ≡ journal.old.saved.tools }
{
    stored.entries = stored.entries.saturating_add(1);
    set_all(&mut stored.state.params, changes);
    journal.commit(stored)
}

/// Powers on and does so. Returns the device.
fn entered(
    alloc: Global,
    rig: MemoryRig<Global>,
    changes: i64,
) -> Result<MemoryRig<Global>, Fault> {
    match recover(alloc, rig, &Tools::new()) {
        Ok((mut journal, mut stored)) => {
            let done = enter(&mut journal, &mut stored, changes);
            let rig = journal.into_rig();
            match done {
                Ok(()) => Ok(rig),
                Err(fault) => Err(fault),
            }
        }
        Err((fault, _)) => Err(fault),
    }
}

/// The format, how many parameters an entry changes, and how many calls power on and the entry make: 89 writes and 3
/// syncs, over format 1 176 and 5, then a write for each part and a sync.
const WRITTEN: &[(i64, i64, usize)] = &[
    (2, 0, 94),
    (2, 48, 95),
    (2, 96, 96),
    (2, 97, 97),
    (2, 5_399, 207),
    (1, 0, 183),
    (1, 49, 185),
];

#[test]
fn an_entry_may_change_each_parameter(rt: HostRuntime) -> Result<(), Fail> {
    for (format, changes, calls) in WRITTEN {
        let rig = fresh(rt.alloc(), *format)?;
        let before = rig.calls();
        let rig = entered(rt.alloc(), rig, *changes)?;
        assert_eq!(rt;
            rig.calls(),
            before.saturating_add(*calls),
            "{format} {changes}"
        );
        let found = found(rt.alloc(), rig, *changes);
        assert_eq!(rt; found, (Ok(1), None), "{format} {changes}");
    }
    Ok(())
}
