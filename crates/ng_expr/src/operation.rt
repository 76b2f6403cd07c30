//! Functions of one value and operations on two.
ghost use Rattle.std.specs.Prelude.{◌≡◌};
ghost use Rattle.ng_expr.specs.Value.{apply, join, of_truth, truth};

use ng_num::{Fault, Num};
use ng_words::{Function, Operation};

/// Applies a function to a value (NISTIR 6556, 3.3.2.4).
pub(crate) fn apply(function: Function, value: Num) -> Result<Num, Fault>
    ensures { result ≡ apply function value }
{
    match function {
        Function::Abs => Ok(value.abs()),
        Function::Fix => value.fix(),
        Function::Fup => value.fup(),
        Function::Round => value.round(),
        Function::Sqrt => value.sqrt(),
    }
}

/// Whether a value counts as true: all but zero do.
#[inline]
fn truth(value: Num) -> bool
    ensures { result ≡ truth value }
{
    value != Num::zero()
}

/// 1 for true, 0 for false.
#[inline]
fn of_truth(truth: bool) -> Num
    ensures { result ≡ of_truth truth }
{
    if truth { Num::one() } else { Num::zero() }
}

/// Applies an operation to two values (NISTIR 6556, 3.3.2.3).
pub(crate) fn join(operation: Operation, left: Num, right: Num) -> Result<Num, Fault>
    ensures { result ≡ join operation left right }
{
    match operation {
        Operation::Power => left.power(right),
        Operation::Times => left.mul(right),
        Operation::Over => left.div(right),
        Operation::Modulo => left.modulo(right),
        Operation::Plus => left.add(right),
        Operation::Minus => left.sub(right),
        Operation::Or => Ok(of_truth(truth(left) || truth(right))),
        Operation::Xor => Ok(of_truth(truth(left) != truth(right))),
        Operation::And => Ok(of_truth(truth(left) && truth(right))),
    }
}
