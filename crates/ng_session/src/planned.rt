//! A line of the program that is executed before it is begun.
ghost use Rattle.std.specs.Prelude.{◌≡◌};

use crate::current_block::CurrentBlock;
use ng_block::ProgramFlow;
use ng_words::LineKind;
use std::marker::Model;

/// A line that was read ahead, and its block as it will be begun (own). Contracts see a `PlannedModel`.
#[derive(Drop)]
pub(crate) struct Planned {
    /// The byte of the program at which it begins.
    pub(crate) place: u64,
    /// The kind of the first line before it that isn't blank.
    pub(crate) first: LineKind,
    /// The byte at which the next one begins.
    pub(crate) next: u64,
    pub(crate) block: CurrentBlock,
}

impl Model for Planned {
    ghost use Rattle.ng_session.specs.Planned.{PlannedModel};

    ghost Value = { PlannedModel };

    ghost view = { λ p. record { place = p.place; first = p.first; next = p.next; block = p.block } };
}

impl Planned {
    ghost use Rattle.ng_block.specs.Program.{is_end};

    /// Whether the line ends the program.
    pub(crate) fn ends(&self) -> bool
        ensures { result ≡ is_end self.now.block.stop }
    {
        self.block.stop == ProgramFlow::Ends
    }

    /// The byte of the program at which the next line begins once nothing is left of its block.
    pub(crate) fn place_after(&self) -> u64
        ensures { result ≡ self.now.block.place }
    {
        self.block.place
    }
}
