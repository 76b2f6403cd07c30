//! Canonical commands printed in little memory.
use linked_list_allocator::LocalHeap;
use ng_canon::{ArcDirection, ArcFeed, Canon, CanonicalCommand, print};
use ng_num::{Len, Point};
use std::alloc::Allocator;
use std::test::Fail;

/// A length of whole nanometres, 0 if it is out of range.
fn nm(count: i64) -> Len {
    Len::of_nm(count as i128).unwrap_or_default()
}

/// A point of whole nanometres.
fn point(x: i64, y: i64, z: i64) -> Point {
    Point {
        x: nm(x),
        y: nm(y),
        z: nm(z),
    }
}

/// Whether a command of 63 bytes was printed after three bytes, and whether the text is right after that.
fn grows<A: Allocator + Copy + Drop>(alloc: A, canon: &Canon<'_>) -> (bool, bool) {
    let mut text = Vec::new(alloc);
    if text.extend_from_slice(b"N1\n").is_err() {
        return (false, true);
    }
    let printed = print(&mut text, canon).is_ok();
    let length = if printed { 66 } else { 3 };
    (
        printed,
        text.len() == length && text.as_slice().starts_with(b"N1\n"),
    )
}

#[test]
fn refused_growth_leaves_the_text(rt: HostRuntime) -> Result<(), Fail> {
    let arc = Canon::Command(CanonicalCommand::ArcFeed(ArcFeed {
        end: point(1, 2, 3),
        centre_a: nm(4),
        centre_b: nm(5),
        turn: ArcDirection::Clockwise,
    }));
    let mut refused = 0u32;
    let mut printed = 0u32;
    for size in 1..40usize {
        let heap = LocalHeap::new(rt.alloc(), 16 * size)?;
        let (whole, right) = grows(&heap, &arc);
        assert!(rt; right, "{size}");
        if whole {
            printed = 1;
        } else {
            refused = 1;
        }
    }
    assert_eq!(rt; (refused, printed), (1, 1));
    Ok(())
}
