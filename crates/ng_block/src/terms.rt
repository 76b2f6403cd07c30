//! What a program is run with.
use ng_canon::Geometry;
use ng_offsets::Tools;
use std::marker::Model;

/// What a program is run with.
#[derive(Drop)]
pub struct Terms<'a> {
    /// Whether lines that begin with a slash are deleted.
    pub block_delete: bool,
    /// The tool table.
    pub tools: &'a Tools,
    pub geometry: &'a Geometry,
}

impl<'a> Model for Terms<'a> {
    ghost use Rattle.ng_block.specs.Program.{TermsModel};

    ghost Value = { TermsModel };

    ghost view = { λ t. record { block_delete = t.block_delete; tools = t.tools.now; geometry = t.geometry.now } };
}
