//! A refusal without memory for its line. Which lines are commands, and the text of replies, is tested by the cases of
//! `ngc_cases`.
use linked_list_allocator::LocalHeap;
use ng_commands::push_refusal;
use ng_num::Fault;
use std::test::Fail;

/// Without memory there is an error, and not a line that reads as another one.
#[test]
fn a_refusal_without_memory_is_not_written(rt: HostRuntime) -> Result<(), Fail> {
    let heap = LocalHeap::new(rt.alloc(), 64)?;
    let mut lines = Vec::new(&heap);
    lines.extend_from_slice(&[b'x'; 16])?;
    assert!(rt; push_refusal(&mut lines, Fault::NotFormatted).is_err());
    Ok(())
}
