//! What the console is asked to do, as a value.
use ng_num::Fault;
use ng_session::Event;
use std::alloc::Allocator;

/// One thing that the console is asked to do (own).
#[derive(Drop)]
pub enum Order<A: Allocator> {
    /// The controller is given this event.
    Give(Event<A>),
    /// The controller is given at most this many ticks.
    Ticks(u32),
    /// The controller is given nothing: U1, or M1 if there was no memory for a program.
    Refuse(Fault),
}
