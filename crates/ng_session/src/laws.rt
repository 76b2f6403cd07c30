//! A law over the definitions, to be cited by proofs in the crates above. The call does nothing; its contract is the
//! law.
ghost use Rattle.ng_session.specs.Cuts.{CrashAfterEvents};

use std::alloc::Allocator;

/// After a power cut between any two events, what is stored and what was handed out is the fold's, over the
/// acknowledged entries, followed by a beginning of what is under way.
pub fn crashes<A: Allocator>()
    ensures { CrashAfterEvents A }
{}
