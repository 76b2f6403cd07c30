//! Numbers printed in little memory.
use linked_list_allocator::LocalHeap;
use ng_num::{Num, print_number, print_whole};
use std::alloc::Global;
use std::test::Fail;

/// No program prints a whole number as great as this.
#[test]
fn the_greatest_whole_number_prints(rt: HostRuntime) -> Result<(), Fail> {
    let mut text = Vec::new(rt.alloc());
    print_whole(&mut text, u64::MAX)?;
    assert_eq!(rt; text.as_slice(), b"18446744073709551615".as_slice());
    Ok(())
}

/// Prints the least number over a heap with this size until a growth is refused, at most nine times. Returns the text.
fn printed(alloc: Global, size: usize) -> Result<Vec<u8>, Fail> {
    let heap = LocalHeap::new(alloc, size)?;
    let mut text = Vec::new(&heap);
    let least = Num::of(-9_999_999_999_999).unwrap_or_default();
    for _ in 0..9 {
        if print_number(&mut text, least, *b", ").is_err() {
            break;
        }
    }
    Ok(Vec::from_slice(alloc, &text)?)
}

/// The first number of a text that isn't the whole least one.
fn first_other_number(text: &[u8]) -> Option<&[u8]> {
    for number in text.chunks(17) {
        if number != b"-9999999.999999, ".as_slice() {
            return Some(number);
        }
    }
    None
}

#[test]
fn a_refused_growth_leaves_the_text(rt: HostRuntime) -> Result<(), Fail> {
    let mut most = 0;
    for size in 0..55usize {
        let text = printed(rt.alloc(), 16 * size)?;
        assert_eq!(rt;
            (first_other_number(&text), text.len() >= most),
            (None, true),
            "over a heap of {size} blocks"
        );
        most = text.len();
    }
    assert_eq!(rt; most, 153);
    Ok(())
}
