//! The value of an assignment.
ghost use Rattle.std.specs.Prelude.{◌≡◌};
ghost use Rattle.ng_words.specs.LineStorage.{tree_by};
ghost use Rattle.ng_expr.specs.Settle.{change, index};

use crate::stack::Stack;
use crate::walk::{named, value_on};
use ng_num::Fault;
use ng_params::{Change, Index, Params};
use ng_words::Tree;
use std::alloc::Allocator;

/// The parameter that a tree's value names.
fn index_on<A: Allocator + Copy + Drop>(
    stack: &mut Stack,
    params: &Params<A>,
    tree: &Tree<'_>,
) -> Result<Index, Fault>
    ensures { result ≡ index params.now (tree_by tree.now) }
{
    match value_on(stack, params, tree) {
        Ok(value) => named(value),
        Err(fault) => Err(fault),
    }
}

/// A parameter's new value. The index is evaluated first, then the value (NISTIR 6556, 3.3.3; the order own).
pub(crate) fn change_on<A: Allocator + Copy + Drop>(
    stack: &mut Stack,
    params: &Params<A>,
    index: &Tree<'_>,
    value: &Tree<'_>,
) -> Result<Change, Fault>
    ensures { result ≡ change params.now (tree_by index.now) (tree_by value.now) }
{
    match index_on(stack, params, index) {
        Ok(index) => match value_on(stack, params, value) {
            Ok(value) => Ok(Change { index, value }),
            Err(fault) => Err(fault),
        },
        Err(fault) => Err(fault),
    }
}
