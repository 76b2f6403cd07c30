//! A list of events without memory for its replies.
use crate::devices::started;
use linked_list_allocator::LocalHeap;
use ng_core::{Controller, Event};
use ng_num::Fault;
use ng_rig::MemoryRig;
use std::alloc::Global;
use std::test::Fail;

/// The bytes of a heap: enough for power on, but not for a list of many replies.
const HEAP: usize = 400_000;

/// How many calls format and power on make, but for reads.
const CALLS: usize = 1_115 + 92;

/// This many feed holds.
fn holds<'h>(alloc: Global, count: usize) -> Result<Vec<Event<&'h LocalHeap>>, Fault> {
    let mut events = Vec::with_capacity(alloc, count)?;
    for _ in 0..count {
        events.push(Event::Hold)?;
    }
    Ok(events)
}

/// The fault of a list of this many holds, if any, and whether it has no effect.
fn answer<'h>(
    alloc: Global,
    controller: &mut Controller<MemoryRig<Global>, &'h LocalHeap>,
    count: usize,
) -> Result<(Option<Fault>, bool), Fault> {
    let events = holds(alloc, count)?;
    let before = controller.on(Event::Status);
    let fault = controller.run(events.as_slice()).err();
    Ok((fault, controller.on(Event::Status) == before))
}

/// The same for many, and then for one, and how many calls other than reads the device got.
fn answers(alloc: Global) -> Result<([(Option<Fault>, bool); 2], usize), Fault> {
    let heap = LocalHeap::new(alloc, HEAP)?;
    let mut controller = started(&heap, alloc)?;
    let many = answer(alloc, &mut controller, 100_000);
    let one = answer(alloc, &mut controller, 1);
    let rig = controller.into_rig();
    Ok(([many?, one?], rig.calls()))
}

#[test]
fn a_list_without_memory_for_its_replies(rt: HostRuntime) -> Result<(), Fail> {
    assert_eq!(rt;
        answers(rt.alloc()),
        Ok(([(Some(Fault::OutOfMemory), true), (None, true)], CALLS))
    );
    Ok(())
}
