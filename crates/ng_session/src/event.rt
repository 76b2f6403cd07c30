//! The events of a session.
ghost use Rattle.std.specs.Prelude.{◌≡◌};

use ng_num::{Len, Point};
use std::alloc::Allocator;
use std::marker::Model;

/// The bytes that come with an event. Contracts see the list of them.
#[derive(Drop)]
pub struct Text<A: Allocator> {
    bytes: Vec<u8, A>,
}

impl<A: Allocator> Model for Text<A> {
    ghost use Rattle.std.specs.Prelude.{List, ℕ};

    ghost Value = { List ℕ };

    ghost view = { λ t. t.bytes.items };
}

impl<A: Allocator + Drop> Text<A> {
    /// The text of these bytes. Nothing is allocated.
    pub fn of(bytes: Vec<u8, A>) -> Text<A>
        ensures { result ≡ bytes.items }
    {
        Text { bytes }
    }

    /// Its bytes.
    pub fn bytes(&self) -> &[u8]
        ensures { result.now ≡ self.now }
    {
        self.bytes.as_slice()
    }
}

/// What happens to a session (own).
#[derive(Drop)]
pub enum Event<A: Allocator> {
    /// A program to be stored. It is refused with J5 if it is longer than the device takes.
    Load(Text<A>),
    /// The program is to run from its place on.
    Start,
    /// Nothing more is to be handed out, for now.
    Hold,
    /// What was held or stopped goes on.
    Continue,
    /// A line of the operator, without its end.
    Mdi(Text<A>),
    /// The machine's point, in nm of machine coordinates. A point outside the travel is refused with X2.
    Reference(Point),
    /// The half-done block is to go on, by an approach.
    Resume,
    /// The half-done block is given up.
    Abandon,
    /// A tool's length, for a slot of the table or the one after its last. Another slot is refused with B14, a length
    /// below 0 or above 1 m with E3.
    Tool(u16, Len),
    /// Whether the program stops at M1.
    OptionalStop(bool),
    /// Whether lines that begin with a slash are deleted.
    BlockDelete(bool),
    /// Asks for what is stored, and for what the controller is doing.
    Status,
    /// The next thing to do is done.
    Tick,
}

impl<A: Allocator> Event<A> {
    ghost use Rattle.ng_session.specs.Planned.{drops_plan};

    /// Whether lines that were read ahead no longer come as they were planned: another line comes first, or another
    /// program, or the lines do something else.
    pub(crate) fn drops_plan(&self) -> bool
        ensures { result ≡ drops_plan self.now }
    {
        match self {
            Event::Load(_)
            | Event::Mdi(_)
            | Event::Reference(_)
            | Event::Resume
            | Event::Abandon
            | Event::Tool(_, _)
            | Event::BlockDelete(_) => true,
            Event::Start
            | Event::Hold
            | Event::Continue
            | Event::OptionalStop(_)
            | Event::Status
            | Event::Tick => false,
        }
    }
}
