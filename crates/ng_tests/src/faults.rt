//! The texts of faults that no case of `ngc_cases` shows.
use ng_num::Fault;
use std::alloc::{AllocError, AllocFailed};

#[test]
fn a_fault_prints_its_number_and_name(rt: HostRuntime) {
    assert_eq!(rt; Fault::SeatsDisagree.text(), b"K6 SeatsDisagree".as_slice());
    assert_eq!(rt; Fault::OutOfMemory.text(), b"M1 OutOfMemory".as_slice());
    let refused = [
        Fault::from(AllocError),
        Fault::from(AllocFailed { value: 7u8 }),
    ];
    assert_eq!(rt; refused, [Fault::OutOfMemory; 2]);
}
