//! A caller's place.
ghost use Rattle.std.specs.Prelude.{◌≡◌, ◌+◌, ◌++◌, [], ◌∷◌, length};

use crate::call::Call;
use std::alloc::Allocator;
use std::marker::Model;
use std::sync::ledger::{Ledger, Share};

/// A caller's place at a desk, with the calls that it made there (own). Contracts see a `Seated`.
#[derive(Drop)]
pub struct Seat<A: Allocator, O: Ledger> {
    pub(crate) calls: Vec<Call<A>, A>,
    /// Counts its calls.
    pub(crate) share: Share<O>,
}

impl<A: Allocator, O: Ledger> Model for Seat<A, O> {
    ghost use Rattle.std.specs.Prelude.{◌≡◌, length};
    ghost use Rattle.ng_desk.specs.Calls.{Seated};

    ghost Value = { Seated A };

    ghost view = { λ s. record { calls = s.calls.items; parts = s.share.parts } };

    ghost invariant = { λ s. s.share.parts ≡ 1 → s.share.amount ≡ length s.calls.items };
}

impl<A: Allocator + Copy + Drop, O: Ledger> Seat<A, O> {
    /// A seat with no call. It doesn't allocate.
    pub(crate) fn new(alloc: A, share: Share<O>) -> Seat<A, O>
        requires { (share.parts ≡ 1) × (share.amount ≡ 0) }
        ensures { result ≡ record { calls = []; parts = 1 } }
    {
        Seat {
            calls: Vec::new(alloc),
            share,
        }
    }

    /// The calls that were made from here, in order (own).
    pub fn calls(&self) -> &[Call<A>]
        ensures { result.now ≡ self.now.calls }
    {
        self.calls.as_slice()
    }

    /// Takes the share away: no more calls are made from here.
    pub(crate) fn take_share(&mut self) -> Share<O>
        requires { self.old.parts ≡ 1 }
        ensures calls { self.new.calls ≡ self.old.calls }
        ensures parts { result.parts ≡ 1 }
        ensures amount { result.amount ≡ length self.old.calls }
    {
        let none = self.share.empty();
        std::mem::replace(&mut self.share, none)
    }
}
