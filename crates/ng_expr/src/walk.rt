//! The value of a tree: one walk over its nodes with a stack of the values found so far.
ghost use Rattle.std.specs.Prelude.{◌≡◌, ◌<◌, ◌≤◌, ◌+◌, [], ◌∷◌, length, Ok, Err, MatchResult, MatchOption};
ghost use Rattle.ng_words.specs.LineStorage.{tree_by, IsTree};
ghost use Rattle.ng_words.specs.declared.tree.Node.TheVariants as node;
ghost use Rattle.ng_expr.specs.Value.{apply, join, named, parameter_value, value, written};
ghost use Rattle.ng_expr.specs.Private.Walk.{after_node, of_one, of_two, onto};

use crate::operation::{apply, join};
use crate::stack::Stack;
use ng_num::{Fault, Num};
use ng_params::{Index, Params};
use ng_words::{Function, Node, Operation, Tree};
use std::alloc::Allocator;

/// A number as written. E3 if it is out of range.
#[inline]
fn written(number: Option<Num>) -> Result<Num, Fault>
    ensures { result ≡ written number }
{
    match number {
        Some(value) => Ok(value),
        None => Err(Fault::OutOfRange),
    }
}

/// The parameter that a value names. E4 unless the value counts as a whole number from 1 to 5399 (NISTIR 6556,
/// 3.3.2.2).
pub fn named(value: Num) -> Result<Index, Fault>
    ensures { result ≡ named value }
{
    match value.whole() {
        Some(number) => Index::of(number).ok_or(Fault::BadIndex),
        None => Err(Fault::BadIndex),
    }
}

/// The value of the parameter that a value names.
fn parameter_value<A: Allocator + Copy + Drop>(params: &Params<A>, value: Num) -> Result<Num, Fault>
    ensures { result ≡ parameter_value params.now value }
{
    match named(value) {
        Ok(index) => Ok(params.get(index)),
        Err(fault) => Err(fault),
    }
}

/// Pushes a value that was found.
#[inline]
fn put(stack: &mut Stack, answer: Result<Num, Fault>) -> Result<(), Fault>
    requires { length stack.old < 256 }
    ensures found { MatchResult result (λ _. onto stack.old answer ≡ Ok stack.new) (λ e. onto stack.old answer ≡ Err e) }
    ensures few { length stack.new ≤ length stack.old + 1 }
{
    match answer {
        Ok(value) => {
            stack.push(value);
            Ok(())
        }
        Err(fault) => Err(fault),
    }
}

/// Replaces the value on top by that of the parameter that it names.
fn put_parameter<A: Allocator + Copy + Drop>(
    stack: &mut Stack,
    params: &Params<A>,
) -> Result<(), Fault>
    requires { length stack.old < 256 }
    ensures found { MatchResult result
        (λ _. of_one (parameter_value params.now) stack.old ≡ Ok stack.new)
        (λ e. of_one (parameter_value params.now) stack.old ≡ Err e) }
    ensures few { length stack.new ≤ length stack.old + 1 }
{
    match stack.pop() {
        Some(index) => put(stack, parameter_value(params, index)),
        None => Err(Fault::BadArithmetic),
    }
}

/// Replaces the value on top by a function of it.
fn put_applied(stack: &mut Stack, function: Function) -> Result<(), Fault>
    requires { length stack.old < 256 }
    ensures found { MatchResult result
        (λ _. of_one (apply function) stack.old ≡ Ok stack.new)
        (λ e. of_one (apply function) stack.old ≡ Err e) }
    ensures few { length stack.new ≤ length stack.old + 1 }
{
    match stack.pop() {
        Some(argument) => put(stack, apply(function, argument)),
        None => Err(Fault::BadArithmetic),
    }
}

/// Replaces the two values on top by the result of an operation.
fn put_joined(stack: &mut Stack, operation: Operation) -> Result<(), Fault>
    requires { length stack.old < 256 }
    ensures found { MatchResult result
        (λ _. of_two (join operation) stack.old ≡ Ok stack.new)
        (λ e. of_two (join operation) stack.old ≡ Err e) }
    ensures few { length stack.new ≤ length stack.old + 1 }
{
    let Some(right) = stack.pop() else {
        return Err(Fault::BadArithmetic);
    };
    match stack.pop() {
        Some(left) => put(stack, join(operation, left, right)),
        None => Err(Fault::BadArithmetic),
    }
}

/// One step of the walk. A node whose parts are missing doesn't belong to any tree.
fn step<A: Allocator + Copy + Drop>(
    stack: &mut Stack,
    params: &Params<A>,
    next: Node,
) -> Result<(), Fault>
    requires { length stack.old < 256 }
    ensures found { MatchResult result
        (λ _. after_node params.now next stack.old ≡ Ok stack.new)
        (λ e. after_node params.now next stack.old ≡ Err e) }
    ensures few { length stack.new ≤ length stack.old + 1 }
{
    match next {
        Node::Number(number) => put(stack, written(number)),
        Node::Parameter => put_parameter(stack, params),
        Node::Brackets => Ok(()),
        Node::Applied(function) => put_applied(stack, function),
        Node::Joined(operation) => put_joined(stack, operation),
    }
}

/// The value of the tree that some nodes form.
fn walk<A: Allocator + Copy + Drop>(
    stack: &mut Stack,
    params: &Params<A>,
    nodes: &[Node],
) -> Result<Num, Fault>
    requires tree { IsTree nodes.now }
    requires few { length nodes.now ≤ 256 }
    ensures { result ≡ value (tree_by nodes.now) params.now }
{
    stack.clear();
    for next in nodes {
        match step(stack, params, *next) {
            Ok(()) => {}
            Err(fault) => return Err(fault),
        }
    }
    match stack.pop() {
        Some(value) => Ok(value),
        None => Err(Fault::BadArithmetic),
    }
}

/// The number, if the nodes are a single number.
#[inline]
fn number_alone(nodes: &[Node]) -> Option<Option<Num>>
    ensures { MatchOption result (Unit {0}) (λ number. nodes.now ≡ node.Number number ∷ []) }
{
    if nodes.len() != 1 {
        return None;
    }
    match nodes[0] {
        Node::Number(number) => Some(number),
        _ => None,
    }
}

/// The value of a tree, evaluated on a stack that the caller keeps.
#[inline(always)]
pub(crate) fn value_on<A: Allocator + Copy + Drop>(
    stack: &mut Stack,
    params: &Params<A>,
    tree: &Tree<'_>,
) -> Result<Num, Fault>
    ensures { result ≡ value (tree_by tree.now) params.now }
{
    let nodes = tree.nodes();
    match number_alone(nodes) {
        Some(number) => written(number),
        None => walk(stack, params, nodes),
    }
}

/// The value of a tree, given a table of parameters (NISTIR 6556, 3.3.2.2 to 3.3.2.4). E3 if a number or an
/// intermediate value is out of range, E4 if an index isn't that of a parameter, E5 if an operation or a function has
/// no result; of two faults the one further to the left counts. For callers of this crate alone: the programs do
/// the same walk on a stack that they keep.
pub fn value<A: Allocator + Copy + Drop>(tree: &Tree<'_>, params: &Params<A>) -> Result<Num, Fault>
    ensures { result ≡ value (tree_by tree.now) params.now }
{
    value_on(&mut Stack::new(), params, tree)
}
