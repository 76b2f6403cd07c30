//! The first fault in a list whose cause holds.
ghost use Rattle.std.specs.Prelude.{◌≡◌, MatchOption};
ghost use Rattle.ng_num.specs.Causes.{first_fault, NoneHolds, IsFirstFault};

use crate::fault::Fault;

/// The first fault whose cause holds, in a list of pairs of a cause and its fault.
#[inline]
pub fn first_fault(faults: &[(bool, Fault)]) -> Option<Fault>
    ensures value { result ≡ first_fault faults.now }
    ensures first { MatchOption result (NoneHolds faults.now) (λ fault. IsFirstFault faults.now fault) }
{
    for fault in faults {
        if fault.0 {
            return Some(fault.1);
        }
    }
    None
}
