//! Tables of parameters in little memory.
use linked_list_allocator::LocalHeap;
use ng_num::Num;
use ng_params::{Change, Index, Params};
use std::alloc::{AllocError, Allocator, Global};
use std::test::Fail;

/// A parameter's count of millionths, 0 for a number without a parameter.
fn count<A: Allocator + Copy + Drop>(params: &Params<A>, number: i64) -> i64 {
    match Index::of(number) {
        Some(index) => params.get(index).count(),
        None => 0,
    }
}

/// Sets a parameter to a count of millionths, if both are in range.
fn put<A: Allocator + Copy + Drop>(params: &mut Params<A>, number: i64, count: i64) {
    if let (Some(index), Ok(value)) = (Index::of(number), Num::of(count as i128)) {
        params.set(index, value);
    }
}

/// Whether a table can be made, copied, changed, compared and updated, all in one heap.
fn works<A: Allocator + Copy + Drop>(alloc: A) -> Result<bool, AllocError> {
    let old = Params::new(alloc)?;
    let mut new = old.copy()?;
    put(&mut new, 5399, 3);
    put(&mut new, 1, -3);
    put(&mut new, 5220, 0);
    let changes = new.changes_from(&old)?;
    let mut again = old.copy()?;
    again.apply(changes.as_slice());
    again.apply(&[
        Change::default(),
        Change {
            index: Index::default(),
            value: Num::zero(),
        },
    ]);
    let numbers = changes
        .iter()
        .map(|change| change.index.number() as u32)
        .eq([1, 5220, 5399]);
    Ok(numbers && count(&again, 5399) == 3 && count(&again, 5220) == 0 && count(&again, 1) == 0)
}

/// Bytes of heaps: some can hold all tables, some can't.
const SIZES: &[usize] = &[
    1_000, 44_000, 60_000, 87_000, 90_000, 120_000, 131_000, 140_000,
];

#[test]
fn each_growth_may_be_refused(rt: HostRuntime) -> Result<(), Fail> {
    let alloc: Global = rt.alloc();
    assert!(rt; works(alloc)?);
    let mut refused = 0;
    let mut lived = 0;
    for size in SIZES {
        let heap = LocalHeap::new(alloc, *size)?;
        match works(&heap) {
            Ok(whole) => {
                assert!(rt; whole);
                lived = 1;
            }
            Err(_) => refused = 1,
        }
    }
    assert_eq!(rt; (refused, lived), (1, 1));
    Ok(())
}
