//! The controller with which a history starts.
use std::marker::Brand;
use std::sync::ledger::Ledger;

/// The controller that a desk over devices `R` is made of, and the ledger that counts its calls (own). It exists only
/// in proofs: each call that makes a desk chooses it, at the type `Brand`.
pub trait Origin<R>: Ledger {
    ghost use Rattle.std.specs.Prelude.{Option};
    ghost use Rattle.ng_core.specs.Model.{ControllerModel};

    ghost start: { Option (ControllerModel R) };
}

impl<R> Origin<R> for Brand {
    ghost use Rattle.std.specs.Prelude.{None};

    ghost start = { None };
}
