//! Values: one walk over the bytes, with a list of what waits for a value to its right.
ghost use Rattle.std.specs.Prelude.{◌≡◌, ◌+◌, ◌<◌, ◌≤◌, ◌↔◌, [], ◌∷◌, ◌++◌, false, true, length, None, Some, IsTrue, OnSome, MatchOption};
ghost use Rattle.ng_words.specs.Grammar.{level};
ghost use Rattle.ng_words.specs.Value.{operations, entry_at};
ghost use Rattle.ng_words.specs.Private.Walks.{nearest, is_index, operation_within, closing, IsOpening, IsFunction, TakesValue, WalkStepSpec, Settles, Gathers, ClosesBrackets, BeginsNumber};

use crate::cursor::Cursor;
use crate::number::number;
use crate::tree::{Function, NODES, Node, Operation};
use arrayvec::ArrayVec;

/// What waits for the value to its right.
#[derive(Clone, Copy)]
pub(crate) enum Waiting {
    /// A parameter, waiting for its index.
    Index,
    /// Brackets, waiting for their chain.
    Brackets,
    /// A function, waiting for the chain in its brackets.
    Function(Function),
    /// An operation, waiting for its right operand.
    Operation(Operation),
}

impl Default for Waiting {
    fn default() -> Self {
        Waiting::Index
    }
}

/// The nodes of a line.
pub(crate) type Nodes = ArrayVec<Node, NODES>;

/// The list of what waits, the innermost last. Each takes at least one byte.
pub(crate) type WaitingList = ArrayVec<Waiting, NODES>;

/// How loosely the loosest operations bind.
const LOOSEST: u8 = 3;

/// What opens a value: a parameter, brackets, a function.
fn opening(cursor: &mut Cursor<'_>) -> Option<Waiting>
    ensures opening { IsOpening cursor.old result cursor.new }
    ensures shorter { OnSome result (length cursor.new < length cursor.old) }
{
    match cursor.first() {
        Some(b'#') => {
            cursor.advance();
            Some(Waiting::Index)
        }
        Some(b'[') => {
            cursor.advance();
            Some(Waiting::Brackets)
        }
        _ => match function(cursor) {
            Some(f) => Some(Waiting::Function(f)),
            None => None,
        },
    }
}

/// The function whose name and bracket come next, told by its first letter.
fn function(cursor: &mut Cursor<'_>) -> Option<Function>
    ensures value { IsFunction cursor.old result cursor.new }
    ensures shorter { OnSome result (length cursor.new < length cursor.old) }
{
    match cursor.peek() {
        Some(b'A') => cursor.skip(b"ABS[").then_some(Function::Abs),
        Some(b'F') => {
            if cursor.skip(b"FIX[") {
                return Some(Function::Fix);
            }
            cursor.skip(b"FUP[").then_some(Function::Fup)
        }
        Some(b'R') => cursor.skip(b"ROUND[").then_some(Function::Round),
        Some(b'S') => cursor.skip(b"SQRT[").then_some(Function::Sqrt),
        _ => None,
    }
}

/// The operation that comes next, told by its first byte; a second asterisk makes a power.
fn operation(cursor: &mut Cursor<'_>) -> Option<Operation>
    ensures value { MatchOption result (entry_at operations cursor.old ≡ None)
        (λ op. entry_at operations cursor.old ≡ Some (op, cursor.new)) }
    ensures shorter { OnSome result (length cursor.new < length cursor.old) }
{
    match cursor.first() {
        Some(b'*') => {
            cursor.advance();
            if cursor.is_at(b'*') {
                cursor.advance();
                return Some(Operation::Power);
            }
            Some(Operation::Times)
        }
        Some(b'/') => {
            cursor.advance();
            Some(Operation::Over)
        }
        Some(b'+') => {
            cursor.advance();
            Some(Operation::Plus)
        }
        Some(b'-') => {
            cursor.advance();
            Some(Operation::Minus)
        }
        Some(b'M') | Some(b'm') => cursor.skip(b"MOD").then_some(Operation::Modulo),
        Some(b'O') | Some(b'o') => cursor.skip(b"OR").then_some(Operation::Or),
        Some(b'X') | Some(b'x') => cursor.skip(b"XOR").then_some(Operation::Xor),
        Some(b'A') | Some(b'a') => cursor.skip(b"AND").then_some(Operation::And),
        _ => None,
    }
}

/// How loosely an operation binds (NISTIR 6556, 3.3.2.3).
fn level(operation: Operation) -> u8
    ensures { result ≡ level operation }
{
    match operation {
        Operation::Power => 1,
        Operation::Times | Operation::Over | Operation::Modulo => 2,
        Operation::Plus | Operation::Minus | Operation::Or | Operation::Xor | Operation::And => 3,
    }
}

/// The innermost entry that waits.
#[inline]
fn nearest(stack: &WaitingList) -> Option<Waiting>
    ensures { result ≡ nearest stack.now.items }
{
    stack.as_slice().last().copied()
}

#[inline]
fn is_index(waiting: Option<Waiting>) -> bool
    ensures { result ≡ is_index waiting }
{
    match waiting {
        Some(Waiting::Index) => true,
        _ => false,
    }
}

/// The innermost waiting operation, if it binds as tightly as a level or more tightly.
fn operation_within(most: u8, waiting: Option<Waiting>) -> Option<Operation>
    ensures { result ≡ operation_within most waiting }
{
    match waiting {
        Some(Waiting::Operation(operation)) => {
            if level(operation) <= most {
                Some(operation)
            } else {
                None
            }
        }
        _ => None,
    }
}

/// The node for the innermost entry that waits, if it waits for a closing bracket.
fn closing(waiting: Option<Waiting>) -> Option<Node>
    ensures { result ≡ closing waiting }
{
    match waiting {
        Some(Waiting::Brackets) => Some(Node::Brackets),
        Some(Waiting::Function(f)) => Some(Node::Applied(f)),
        _ => None,
    }
}

/// Adds a node. (The arm for numbers is separate for the prover's sake.)
#[inline]
fn push_node(nodes: &mut Nodes, node: Node)
    requires { length nodes.old.items < 256 }
    ensures { nodes.new.items ≡ nodes.old.items ++ node ∷ [] }
{
    match node {
        Node::Number(value) => nodes.push(Node::Number(value)),
        other => nodes.push(other),
    }
}

/// Settles the value at the end of the nodes: the parameters that wait take it as their index.
fn settle(stack: &mut WaitingList, nodes: &mut Nodes)
    requires { length stack.old.items + length nodes.old.items ≤ 256 }
    ensures settles { Settles stack.old.items nodes.old.items stack.new.items nodes.new.items }
    ensures fits { length stack.new.items + length nodes.new.items ≡ length stack.old.items + length nodes.old.items }
{
    while is_index(nearest(stack)) {
        stack.pop();
        push_node(nodes, Node::Parameter);
    }
}

/// Gathers the value at the end of the nodes: the waiting operations that bind tightly enough take it as their right
/// operand.
fn gather(most: u8, stack: &mut WaitingList, nodes: &mut Nodes)
    requires { length stack.old.items + length nodes.old.items ≤ 256 }
    ensures gathers { Gathers most stack.old.items nodes.old.items stack.new.items nodes.new.items }
    ensures fits { length stack.new.items + length nodes.new.items ≡ length stack.old.items + length nodes.old.items }
{
    while let Some(operation) = operation_within(most, nearest(stack)) {
        stack.pop();
        push_node(nodes, Node::Joined(operation));
    }
}

/// Closes the brackets that wait for the chain at the end of the nodes. Returns whether there are any.
fn close(stack: &mut WaitingList, nodes: &mut Nodes) -> bool
    requires { length stack.old.items + length nodes.old.items ≤ 256 }
    ensures closes { ClosesBrackets stack.old.items nodes.old.items result stack.new.items nodes.new.items }
    ensures fits { length stack.new.items + length nodes.new.items ≡ length stack.old.items + length nodes.old.items }
{
    match closing(nearest(stack)) {
        Some(node) => {
            stack.pop();
            push_node(nodes, node);
            settle(stack, nodes);
            true
        }
        None => false,
    }
}

/// A step before a value: it takes a number, or what opens a value. Returns whether a value is complete after it.
fn begin(cursor: &mut Cursor<'_>, stack: &mut WaitingList, nodes: &mut Nodes) -> Option<bool>
    requires { length stack.old.items + length nodes.old.items + length cursor.old ≤ 256 }
    ensures steps { WalkStepSpec false cursor.old stack.old.items nodes.old.items result cursor.new stack.new.items nodes.new.items }
    ensures fits { OnSome result (length stack.new.items + length nodes.new.items + length cursor.new
        ≤ length stack.old.items + length nodes.old.items + length cursor.old) }
{
    if begins_number(cursor) {
        let value = number(cursor)?;
        nodes.push(Node::Number(value));
        settle(stack, nodes);
        return Some(true);
    }
    match opening(cursor) {
        Some(waiting) => {
            stack.push(waiting);
            Some(false)
        }
        None => None,
    }
}

/// A step after a value: it takes a closing bracket or an operation. Returns whether a value is complete after it.
fn go_on(cursor: &mut Cursor<'_>, stack: &mut WaitingList, nodes: &mut Nodes) -> Option<bool>
    requires { length stack.old.items + length nodes.old.items + length cursor.old ≤ 256 }
    ensures steps { WalkStepSpec true cursor.old stack.old.items nodes.old.items result cursor.new stack.new.items nodes.new.items }
    ensures fits { OnSome result (length stack.new.items + length nodes.new.items + length cursor.new
        ≤ length stack.old.items + length nodes.old.items + length cursor.old) }
{
    match cursor.first() {
        Some(b']') => {
            cursor.advance();
            gather(LOOSEST, stack, nodes);
            if close(stack, nodes) {
                Some(true)
            } else {
                None
            }
        }
        _ => match operation(cursor) {
            Some(operation) => {
                gather(level(operation), stack, nodes);
                stack.push(Waiting::Operation(operation));
                Some(false)
            }
            None => None,
        },
    }
}

/// A step of the walk. Returns whether a value is complete after it.
fn step(
    after_value: bool,
    cursor: &mut Cursor<'_>,
    stack: &mut WaitingList,
    nodes: &mut Nodes,
) -> Option<bool>
    requires { length stack.old.items + length nodes.old.items + length cursor.old ≤ 256 }
    ensures steps { WalkStepSpec after_value cursor.old stack.old.items nodes.old.items result cursor.new stack.new.items nodes.new.items }
    ensures fits { OnSome result (length stack.new.items + length nodes.new.items + length cursor.new
        ≤ length stack.old.items + length nodes.old.items + length cursor.old) }
{
    if after_value {
        go_on(cursor, stack, nodes)
    } else {
        begin(cursor, stack, nodes)
    }
}

/// Whether the walk has ended: a value is complete, and nothing waits.
#[inline]
fn has_ended(after_value: bool, stack: &WaitingList) -> bool
    ensures { IsTrue result ↔ ((after_value ≡ true) × (stack.now.items ≡ [])) }
{
    after_value && stack.is_empty()
}

/// Takes a value of any form, step by step. Pushes its nodes and returns how many there are.
pub(crate) fn walk(
    cursor: &mut Cursor<'_>,
    stack: &mut WaitingList,
    nodes: &mut Nodes,
) -> Option<u16>
    requires { length nodes.old.items + length cursor.old ≤ 256 }
    ensures value { TakesValue cursor.old nodes.old.items result cursor.new nodes.new.items }
    ensures fits { OnSome result (length nodes.new.items + length cursor.new ≤ length nodes.old.items + length cursor.old) }
{
    stack.clear();
    let start = nodes.len();
    let mut after_value = false;
    while !has_ended(after_value, stack) {
        match step(after_value, cursor, stack, nodes) {
            Some(after) => after_value = after,
            None => return None,
        }
    }
    Some((nodes.len() - start) as u16)
}

/// Whether the next byte shows that a value here is a number alone, if there is one. (It tests for the bytes from the
/// plus to the nine; those that don't begin a number don't begin any value.)
#[inline]
pub(crate) fn begins_number(cursor: &Cursor<'_>) -> bool
    ensures { IsTrue result ↔ BeginsNumber cursor.now }
{
    match cursor.first() {
        Some(b) => b'+' <= b && b <= b'9',
        None => false,
    }
}

/// Takes a value. Pushes its nodes and returns how many there are. `stack` is used for its list of what waits.
pub(crate) fn value(
    cursor: &mut Cursor<'_>,
    stack: &mut WaitingList,
    nodes: &mut Nodes,
) -> Option<u16>
    requires { length nodes.old.items + length cursor.old ≤ 256 }
    ensures value { TakesValue cursor.old nodes.old.items result cursor.new nodes.new.items }
    ensures fits { OnSome result (length nodes.new.items + length cursor.new ≤ length nodes.old.items + length cursor.old) }
    ensures shorter { OnSome result (length cursor.new < length cursor.old) }
{
    if !begins_number(cursor) {
        return walk(cursor, stack, nodes);
    }
    let value = number(cursor)?;
    nodes.push(Node::Number(value));
    Some(1)
}
