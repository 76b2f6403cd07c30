//! An event that was given, and its reply.
ghost use Rattle.std.specs.Prelude.{◌≡◌, ◌↔◌, IsTrue, IfOk};

use ng_core::{Event, Reply, Status, Text};
use ng_num::Fault;
use std::alloc::{AllocError, Allocator};

/// One event that was given to a controller, and its reply (own).
#[derive(Drop)]
pub struct Call<A: Allocator> {
    /// Its position among all events that were given there, from 0.
    pub number: u64,
    pub event: Event<A>,
    pub reply: Reply,
}

/// A copy of a text. `AllocError` if there is no memory for its bytes.
fn copied_text<A: Allocator + Copy + Drop>(alloc: A, text: &Text<A>) -> Result<Text<A>, AllocError>
    ensures { IfOk result (λ copy. copy ≡ text.now) }
{
    Ok(Text::of(Vec::from_slice(alloc, text.bytes())?))
}

/// A copy of an event. `AllocError` if there is no memory for its text.
pub(crate) fn copied<A: Allocator + Copy + Drop>(
    alloc: A,
    event: &Event<A>,
) -> Result<Event<A>, AllocError>
    ensures { IfOk result (λ copy. copy ≡ event.now) }
{
    match event {
        Event::Load(text) => Ok(Event::Load(copied_text(alloc, text)?)),
        Event::Start => Ok(Event::Start),
        Event::Hold => Ok(Event::Hold),
        Event::Continue => Ok(Event::Continue),
        Event::Mdi(text) => Ok(Event::Mdi(copied_text(alloc, text)?)),
        Event::Reference(point) => Ok(Event::Reference(*point)),
        Event::Tool(slot, length) => Ok(Event::Tool(*slot, *length)),
        Event::Resume => Ok(Event::Resume),
        Event::Abandon => Ok(Event::Abandon),
        Event::OptionalStop(wanted) => Ok(Event::OptionalStop(*wanted)),
        Event::BlockDelete(on) => Ok(Event::BlockDelete(*on)),
        Event::Status => Ok(Event::Status),
        Event::Tick => Ok(Event::Tick),
    }
}

/// Whether two texts have the same bytes.
fn is_same_text<A: Allocator + Drop>(one: &Text<A>, other: &Text<A>) -> bool
    ensures { IsTrue result ↔ (one.now ≡ other.now) }
{
    one.bytes() == other.bytes()
}

/// Whether two faults are the same.
fn is_same_fault(one: &Fault, other: &Fault) -> bool
    ensures { IsTrue result ↔ (one.now ≡ other.now) }
{
    *one == *other
}

/// Whether two statuses show the same of what is stored.
fn is_same_stored(one: &Status, other: &Status) -> bool
    ensures { IsTrue result ↔ ((one.now.entries ≡ other.now.entries) × (one.now.place ≡ other.now.place)
        × (one.now.point ≡ other.now.point) × (one.now.point_known ≡ other.now.point_known)) }
{
    one.entries == other.entries
        && one.place == other.place
        && one.point == other.point
        && one.point_known == other.point_known
}

/// Whether two statuses show the same state.
fn is_same_status(one: &Status, other: &Status) -> bool
    ensures { IsTrue result ↔ (one.now ≡ other.now) }
{
    is_same_stored(one, other) && one.half == other.half && one.condition == other.condition
}

/// Whether two replies are the same.
fn is_same_reply(one: &Reply, other: &Reply) -> bool
    ensures { IsTrue result ↔ (one.now ≡ other.now) }
{
    match (one, other) {
        (Reply::Done(entries), Reply::Done(found)) => *entries == *found,
        (Reply::Opened(index), Reply::Opened(found)) => *index == *found,
        (Reply::Status(status), Reply::Status(found)) => is_same_status(status, found),
        (Reply::Refused(fault), Reply::Refused(found)) => is_same_fault(fault, found),
        (Reply::Going, Reply::Going)
        | (Reply::Held, Reply::Held)
        | (Reply::Idle, Reply::Idle)
        | (Reply::Stopped, Reply::Stopped)
        | (Reply::Begun, Reply::Begun)
        | (Reply::Taken, Reply::Taken)
        | (Reply::Moved, Reply::Moved)
        | (Reply::Approaching, Reply::Approaching) => true,
        _ => false,
    }
}

/// Whether two events are the same.
fn is_same_event<A: Allocator + Drop>(one: &Event<A>, other: &Event<A>) -> bool
    ensures { IsTrue result ↔ (one.now ≡ other.now) }
{
    match (one, other) {
        (Event::Load(text), Event::Load(found)) => is_same_text(text, found),
        (Event::Mdi(text), Event::Mdi(found)) => is_same_text(text, found),
        (Event::Reference(point), Event::Reference(found)) => *point == *found,
        (Event::Tool(slot, length), Event::Tool(at, found)) => *slot == *at && *length == *found,
        (Event::OptionalStop(wanted), Event::OptionalStop(found)) => *wanted == *found,
        (Event::BlockDelete(on), Event::BlockDelete(found)) => *on == *found,
        (Event::Start, Event::Start)
        | (Event::Hold, Event::Hold)
        | (Event::Continue, Event::Continue)
        | (Event::Resume, Event::Resume)
        | (Event::Abandon, Event::Abandon)
        | (Event::Status, Event::Status)
        | (Event::Tick, Event::Tick) => true,
        _ => false,
    }
}

impl<A: Allocator + Drop> Call<A> {
    /// The call with this number.
    pub(crate) fn of(number: u64, event: Event<A>, reply: &Reply) -> Call<A>
        ensures { result ≡ record { number = number; event = event; reply = reply.now } }
    {
        Call {
            number,
            event,
            reply: *reply,
        }
    }

    /// The reply.
    pub(crate) fn answer(&self) -> Reply
        ensures { result ≡ self.now.reply }
    {
        self.reply
    }

    /// Whether two calls have the same number, event and reply.
    pub(crate) fn is_same(&self, other: &Call<A>) -> bool
        ensures { IsTrue result ↔ (self.now ≡ other.now) }
    {
        self.number == other.number
            && is_same_reply(&self.reply, &other.reply)
            && is_same_event(&self.event, &other.event)
    }
}
