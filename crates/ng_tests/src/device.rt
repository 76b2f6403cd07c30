//! Devices in memory: what a loss of power leaves of their writes.
use crate::sectors::{fill, sector_of, store};
use linked_list_allocator::LocalHeap;
use ng_canon::{AxisStep, Item, Outputs, Pulse};
use ng_rig::{FailRig, FuseRig, MemoryRig, Rig};
use std::alloc::{AllocError, Allocator, Global};
use std::test::Fail;

mod worn;

use worn::Worn;

/// An item of each kind.
fn three_items() -> [Item; 3] {
    let pulse = Pulse {
        x: AxisStep::Forward,
        y: AxisStep::Still,
        z: AxisStep::Backward,
        period_us: 50,
    };
    [
        Item::Pulse(pulse),
        Item::Dwell { us: 10 },
        Item::Switch(Outputs::fresh()),
    ]
}

/// Six writes to three sectors, a sync and three hand-outs. Returns whether each succeeds.
fn make_ten_calls<R: Rig>(rig: &mut R, items: &[Item; 3]) -> bool {
    store(rig, 0, &[1; 512])
        && store(rig, 1, &[2; 512])
        && rig.hand_out(items[0]).is_ok()
        && store(rig, 0, &[3; 512])
        && rig.sync().is_ok()
        && store(rig, 1, &[4; 512])
        && rig.hand_out(items[1]).is_ok()
        && store(rig, 2, &[5; 512])
        && store(rig, 1, &[6; 512])
        && rig.hand_out(items[2]).is_ok()
}

/// What each of the three sectors holds in all its bytes after this many of these calls, by how many of its unsynced
/// writes it keeps, and how many items have been handed out.
const LEFT: &[([[u8; 3]; 3], usize)] = &[
    ([[0, 0, 0], [0, 0, 0], [0, 0, 0]], 0),
    ([[0, 1, 1], [0, 0, 0], [0, 0, 0]], 0),
    ([[0, 1, 1], [0, 2, 2], [0, 0, 0]], 0),
    ([[0, 1, 1], [0, 2, 2], [0, 0, 0]], 1),
    ([[0, 1, 3], [0, 2, 2], [0, 0, 0]], 1),
    ([[3, 3, 3], [2, 2, 2], [0, 0, 0]], 1),
    ([[3, 3, 3], [2, 4, 4], [0, 0, 0]], 1),
    ([[3, 3, 3], [2, 4, 4], [0, 0, 0]], 2),
    ([[3, 3, 3], [2, 4, 4], [0, 5, 5]], 2),
    ([[3, 3, 3], [2, 4, 6], [0, 5, 5]], 2),
    ([[3, 3, 3], [2, 4, 6], [0, 5, 5]], 3),
];

/// Whether a sector reads as 512 times this byte, which isn't 255.
fn holds<R: Rig>(rig: &mut R, sector: usize, byte: u8) -> bool {
    sector_of(rig, sector) == [byte; 512]
}

/// Whether the device that such a stop leaves holds these bytes, has no calls and has handed nothing out.
fn leaves<A: Allocator + Copy + Drop>(
    rig: &MemoryRig<A>,
    n: usize,
    keep: &[usize],
    want: [u8; 3],
) -> Result<bool, AllocError> {
    let mut stop = rig.stopped(n, keep)?;
    let is_fresh = stop.calls() == 0 && stop.handed(1)?.is_empty() && stop.failures() == 0;
    Ok(
        is_fresh
            && stop.size() == 3
            && holds(&mut stop, 0, want[0])
            && holds(&mut stop, 1, want[1])
            && holds(&mut stop, 2, want[2]),
    )
}

/// How many unsynced writes of each sector are kept, after this many of these calls and past their ends, and what each
/// sector holds then.
const DURABLE: &[(usize, &[usize], [u8; 3])] = &[
    (10, &[], [3, 2, 0]),
    (10, &[9, 1], [3, 4, 0]),
    (10, &[usize::MAX; 5], [3, 6, 5]),
    (11, &[1, 1, 1], [3, 4, 5]),
    (usize::MAX, &[0, 2, 0], [3, 6, 0]),
];

/// Whether stops of a device leave, for each choice of kept writes, what these bytes say.
fn leaves_each<A: Allocator + Copy + Drop>(
    rig: &MemoryRig<A>,
    n: usize,
    left: &[[u8; 3]; 3],
) -> Result<bool, AllocError> {
    for choice in 0..27usize {
        let (a, b, c) = (choice / 9, choice / 3 % 3, choice % 3);
        if !leaves(rig, n, &[a, b, c], [left[0][a], left[1][b], left[2][c]])? {
            return Ok(false);
        }
    }
    Ok(true)
}

#[test]
fn a_stop_after_each_call_leaves_each_choice(rt: HostRuntime) -> Result<(), Fail> {
    let mut rig = MemoryRig::new(rt.alloc(), 3)?;
    let items = three_items();
    assert!(rt; make_ten_calls(&mut rig, &items));
    assert_eq!(rt; rig.calls(), 10);
    for (n, (left, handed)) in LEFT.iter().enumerate() {
        assert!(rt; leaves_each(&rig, n, left)?, "at {n}");
        assert_eq!(rt;
            rig.handed(n)?.as_slice(),
            items.get(..*handed).unwrap_or_default(),
            "at {n}"
        );
    }
    assert_eq!(rt; rig.handed(usize::MAX)?.as_slice(), items.as_slice());
    Ok(())
}

#[test]
fn a_stop_keeps_as_many_writes_as_there_are(rt: HostRuntime) -> Result<(), Fail> {
    let mut rig = MemoryRig::new(rt.alloc(), 3)?;
    assert!(rt; make_ten_calls(&mut rig, &three_items()));
    for (n, keep, want) in DURABLE {
        assert!(rt; leaves(&rig, *n, keep, *want)?, "{keep:?} at {n}");
    }
    Ok(())
}

/// Which of four calls succeed, whether the last returns what was written, and the device's sectors and failures then.
type Four = ([bool; 4], bool, usize, u64);

/// Writes, syncs, hands out and reads, which fails if a sector is all 255.
fn four_calls<R: Rig>(rig: &mut R, byte: u8) -> Four {
    let is_written = store(rig, 0, &[byte; 512]);
    let is_synced = rig.sync().is_ok();
    let is_handed = rig.hand_out(Item::Dwell { us: 7 }).is_ok();
    let read = sector_of(rig, 0);
    let is_read = read != [255; 512];
    let succeed = [is_written, is_synced, is_handed, is_read];
    (succeed, read == [byte; 512], rig.size(), rig.failures())
}

/// What four calls do on a device, on a fuse around it that passes nine calls, on a device around the fuse that fails
/// the fifth call, and on that device once more. Then the calls of the inmost device after the first four and after
/// all, and its failures.
fn four_calls_each(alloc: Global) -> Result<([Four; 4], [usize; 2], u64), AllocError> {
    let mut plain = MemoryRig::new(alloc, 1)?;
    let first = four_calls(&mut plain, 8);
    let before = plain.calls();
    let mut fuse = FuseRig::new(plain, 9);
    let second = four_calls(&mut fuse, 9);
    let mut once = FailRig::new(fuse, 4);
    let third = four_calls(&mut once, 10);
    let fourth = four_calls(&mut once, 11);
    let inner = once.into_inner().into_inner();
    Ok((
        [first, second, third, fourth],
        [before, inner.calls()],
        inner.failures(),
    ))
}

#[test]
fn the_three_devices_behave_alike(rt: HostRuntime) -> Result<(), Fail> {
    let (found, calls, failures) = four_calls_each(rt.alloc())?;
    let good = ([true; 4], true, 1, 0);
    // the fuse has one call left, and before that the outer device fails one
    let last = ([false, true, false, false], false, 1, 3);
    assert_eq!(rt; found, [good, good, good, last]);
    assert_eq!(rt; (calls, failures), ([3, 10], 0));
    Ok(())
}

/// Which of four calls succeed and which of the next four, and how many failures are counted after each four.
type Eight = ([[bool; 4]; 2], [u64; 2]);

fn eight_calls<R: Rig>(rig: &mut R) -> Eight {
    let (first, _, _, before) = four_calls(rig, 5);
    let (second, _, _, after) = four_calls(rig, 6);
    ([first, second], [before, after])
}

/// How many calls a fuse passes, which of four calls succeed then, how many of them fail, and how many writes, syncs
/// and hand-outs are made.
const FUSES: &[(u64, [bool; 4], u64, usize)] = &[
    (0, [false, false, false, false], 4, 0),
    (1, [true, false, false, false], 3, 1),
    (2, [true, true, false, false], 2, 2),
    (3, [true, true, true, false], 1, 3),
    (4, [true, true, true, true], 0, 3),
];

/// What eight calls do on a fuse that passes this many, and the calls and failures of the device in it.
fn eight_calls_of_a_fuse(alloc: Global, passed: u64) -> Result<(Eight, usize, u64), AllocError> {
    let mut fuse = FuseRig::new(MemoryRig::new(alloc, 1)?, passed);
    let found = eight_calls(&mut fuse);
    let inner = fuse.into_inner();
    Ok((found, inner.calls(), inner.failures()))
}

#[test]
fn a_fuse_passes_a_number_of_calls(rt: HostRuntime) -> Result<(), Fail> {
    for (passed, succeed, fail, calls) in FUSES {
        let want = ([*succeed, [false; 4]], [*fail, fail.saturating_add(4)]);
        let found = eight_calls_of_a_fuse(rt.alloc(), *passed)?;
        assert_eq!(rt; found, (want, *calls, 0), "{passed}");
    }
    Ok(())
}

/// After how many calls one fails, which of four calls succeed then, which of the next four, how many of the first four
/// fail, and how many writes, syncs and hand-outs are made in all.
const ONE_FAILS: &[(u64, [[bool; 4]; 2], u64, usize)] = &[
    (
        0,
        [[false, true, true, true], [true, true, true, true]],
        1,
        5,
    ),
    (
        1,
        [[true, false, true, true], [true, true, true, true]],
        1,
        5,
    ),
    (
        2,
        [[true, true, false, true], [true, true, true, true]],
        1,
        5,
    ),
    (
        3,
        [[true, true, true, false], [true, true, true, true]],
        1,
        6,
    ),
    (
        4,
        [[true, true, true, true], [false, true, true, true]],
        0,
        5,
    ),
];

/// What eight calls do on a device that fails one after this many, and the calls and failures of the device in it.
fn eight_calls_one_fails(alloc: Global, passed: u64) -> Result<(Eight, usize, u64), AllocError> {
    let mut once = FailRig::new(MemoryRig::new(alloc, 1)?, passed);
    let found = eight_calls(&mut once);
    let inner = once.into_inner();
    Ok((found, inner.calls(), inner.failures()))
}

#[test]
fn one_call_fails_once(rt: HostRuntime) -> Result<(), Fail> {
    for (passed, succeed, fail, calls) in ONE_FAILS {
        let want = (*succeed, [*fail, 1]);
        let found = eight_calls_one_fails(rt.alloc(), *passed)?;
        assert_eq!(rt; found, (want, *calls, 0), "{passed}");
    }
    Ok(())
}

#[test]
fn failures_have_no_effect_and_are_counted(rt: HostRuntime) -> Result<(), Fail> {
    let heap = LocalHeap::new(rt.alloc(), 5_000)?;
    let mut rig = MemoryRig::new(&heap, 1)?;
    let found = four_calls(&mut rig, 5);
    assert_eq!(rt; found, ([false, false, false, true], false, 1, 3));
    assert_eq!(rt; rig.calls(), 0);
    assert!(rt; holds(&mut rig, 0, 0));
    assert!(rt; MemoryRig::new(&heap, 1).is_err());
    assert!(rt; rig.stopped(0, &[]).is_err());
    Ok(())
}

/// Syncs twice. Returns whether each succeeds, and how many failures are counted after it.
fn two_syncs<R: Rig>(rig: &mut R) -> [(bool, u64); 2] {
    let first = rig.sync().is_ok();
    let failures = rig.failures();
    [(first, failures), (rig.sync().is_ok(), rig.failures())]
}

/// Two syncs of a worn device, of a fuse around one, and of a device around one that fails the first; and the failures
/// of the last one's inner device.
fn two_syncs_each() -> ([[(bool, u64); 2]; 3], u64) {
    let mut fuse = FuseRig::new(Worn::new(u64::MAX), 1);
    let mut once = FailRig::new(Worn::new(u64::MAX - 1), 0);
    let found = [
        two_syncs(&mut Worn::new(u64::MAX - 1)),
        two_syncs(&mut fuse),
        two_syncs(&mut once),
    ];
    (found, once.into_inner().failures())
}

#[test]
fn failures_of_all_devices_are_counted(rt: HostRuntime) {
    let past_the_last = [(false, u64::MAX), (false, 0)];
    let of_a_fuse = [(false, 0), (false, 1)];
    assert_eq!(rt;
        two_syncs_each(),
        ([past_the_last, of_a_fuse, past_the_last], u64::MAX)
    );
}

/// Writes each sector and syncs, three times.
fn fill_three_times<R: Rig>(rig: &mut R) -> bool {
    fill(rig, 9)
        && rig.sync().is_ok()
        && fill(rig, 9)
        && rig.sync().is_ok()
        && fill(rig, 9)
        && rig.sync().is_ok()
}

/// How many sectors the device has that a stop after this many of its calls leaves.
fn size_of_stop(rig: &MemoryRig<Global>, calls: usize) -> Result<usize, AllocError> {
    Ok(rig.stopped(calls, &[1; 5_806])?.size())
}

#[test]
fn a_device_of_the_size_of_a_full_journal(rt: HostRuntime) -> Result<(), Fail> {
    let mut rig = MemoryRig::new(rt.alloc(), 5_806)?;
    assert!(rt; fill_three_times(&mut rig));
    assert_eq!(rt; (rig.calls(), rig.size()), (17_421, 5_806));
    for n in [0, 9_000, 17_420, 17_421] {
        assert_eq!(rt; size_of_stop(&rig, n)?, 5_806);
    }
    Ok(())
}
