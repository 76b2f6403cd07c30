//! Trees of values, stored as lists of nodes.
ghost use Rattle.std.specs.Prelude.{◌≡◌, ◌≤◌, length};
ghost use Rattle.ng_words.specs.LineStorage.{IsTree};

use ng_num::Num;
use std::marker::Model;

/// An operation that joins two values (NISTIR 6556, 3.3.2.3). Those that bind most tightly come first.
#[derive(Clone, Copy)]
pub enum Operation {
    Power,
    Times,
    Over,
    Modulo,
    Plus,
    Minus,
    Or,
    Xor,
    And,
}

/// A function of a value in brackets (NISTIR 6556, 3.3.2.4). The report's other functions are left out (own).
#[derive(Clone, Copy)]
pub enum Function {
    Abs,
    Fix,
    Fup,
    Round,
    Sqrt,
}

/// A node of a tree. A tree is stored as the list of its nodes, each after its parts.
#[derive(Clone, Copy)]
pub enum Node {
    /// A number. `None` if the written number is out of range.
    Number(Option<Num>),
    /// The value of the parameter that the value before it names.
    Parameter,
    /// Brackets around the value before it.
    Brackets,
    /// A function of the value before it.
    Applied(Function),
    /// An operation on the two values before it.
    Joined(Operation),
}

impl Default for Node {
    fn default() -> Self {
        Node::Brackets
    }
}

/// The most nodes that a line can have: each takes at least one byte, and a line has at most 256.
pub const NODES: usize = 256;

/// How a value of a line is built (NISTIR 6556, 3.3.2).
#[derive(Drop)]
pub struct Tree<'a> {
    pub(crate) nodes: &'a [Node],
}

impl<'a> Model for Tree<'a> {
    ghost use Rattle.std.specs.Prelude.{List, length, ◌≤◌};
    ghost use Rattle.ng_words.specs.LineStorage.{IsTree};
    ghost use Rattle.ng_words.specs.declared.tree.Node.{Node};

    ghost Value = { List Node };

    ghost view = { λ t. t.nodes.now };

    ghost invariant = { λ t. IsTree t.nodes.now × (length t.nodes.now ≤ 256) };
}

impl<'a> Tree<'a> {
    /// Its nodes, each after its parts.
    pub fn nodes(&self) -> &[Node]
        ensures nodes { result.now ≡ self.now }
        ensures tree { IsTree self.now }
        ensures few { length self.now ≤ 256 }
    {
        self.nodes
    }
}
