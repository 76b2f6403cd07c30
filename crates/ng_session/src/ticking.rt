//! The parts of a Tick: an item, an approach, a segment, an entry.
ghost use Rattle.std.specs.Prelude.{◌≡◌, ◌≤◌, ◌<◌, List, ℕ, None, Some, MatchOption, IfSome, IfNone};
ghost use Rattle.ng_layout.specs.Limits.{greatest_count};
ghost use Rattle.ng_layout.specs.Update.{updated};

use crate::reply::Reply;
use crate::session::Session;
use ng_canon::{Geometry, Item};
use ng_layout::{Half, Opened, Update};
use std::alloc::Allocator;

impl<A: Allocator + Copy + Drop> Session<A> {
    ghost use Rattle.std.specs.Prelude.{true};
    ghost use Rattle.ng_layout.specs.Storable.{IsStorableHalf};
    ghost use Rattle.ng_canon.specs.declared.geometry.Geometry.{Geometry};
    ghost use Rattle.ng_session.specs.SessionInvariant.{IsNextEntry};
    ghost use Rattle.ng_session.specs.Session.{CurrentBlockModel, answers, is_running};
    ghost use Rattle.ng_session.specs.Ticking.{tick, item_of, handed, opening_of, opening_reply, opened, committed};
    ghost use Rattle.ng_session.specs.Ticking.{rest};

    /// Whether the session is held. Then a Tick moves, opens, commits and begins nothing.
    pub fn is_held(&self) -> bool
        ensures held { result ≡ self.now.held }
        ensures tick { (geometry : Geometry) (program : List ℕ) → result ≡ true
            → tick geometry program self.now ≡ answers program Reply.Held self.now }
    {
        self.held
    }

    /// Whether the program runs. Then its lines are begun one after another, unless the session is held.
    pub fn is_running(&self) -> bool
        ensures { result ≡ is_running self.now.activity }
    {
        self.activity.is_running()
    }

    /// Takes the next item of the open approach or segment, to be handed out. `None` if none is left: then the session
    /// stays as it is.
    pub fn next_item(&mut self) -> Option<Item>
        ensures item { result ≡ item_of self.old.current }
        ensures next { self.new ≡ handed self.old }
        ensures none { IfNone result (self.new ≡ self.old) }
    {
        let Some(current) = &mut self.current else {
            return None;
        };
        current.next_item()
    }

    /// What is to be stored before the approach or the next segment is opened: its block, half-done. `None` if neither
    /// is left. The session stays as it is.
    pub fn opening(&self) -> Option<Half>
        ensures half { result ≡ opening_of self.now.current }
        ensures waits { IfSome result IsStorableHalf }
    {
        match &self.current {
            Some(current) => current.opening(),
            None => None,
        }
    }

    /// Opens that approach or segment, after the half-done block is stored. The reply is Approaching, or Opened with
    /// the segment's number.
    #[tactic(auto, using(crate::proofs::SessionInvariantLemmas::holds_open))]
    pub fn open(&mut self, half: Half, geometry: &Geometry) -> Reply
        requires { IsStorableHalf half }
        ensures reply { result ≡ opening_reply half.index half.opened }
        ensures next { self.new ≡ opened geometry.now self.old half }
    {
        let index = half.index;
        let opened = half.opened;
        self.stored.half = Some(half);
        if let Some(current) = &mut self.current {
            current.open(geometry);
        }
        match opened {
            Some(Opened::Approach) => Reply::Approaching,
            Some(Opened::Segment) | None => Reply::Opened(index),
        }
    }

    /// What changes of what is stored once nothing is left of the current block, or of its approach if that isn't
    /// committed. `None` if no block is current. The session stays as it is.
    pub fn after(&self) -> Option<Update<'_>>
        ensures after { MatchOption result (self.now.current ≡ None) (λ update. (c : CurrentBlockModel)
            × (self.now.current ≡ Some c) × (updated self.now.stored update ≡ (committed self.now c).stored)) }
        ensures next { IfSome result (IsNextEntry self.now.stored) }
    {
        match &self.current {
            Some(current) => Some(current.update(&self.stored)),
            None => None,
        }
    }

    /// Goes on after the current block or its approach, once that is stored. If no block is current, the reply is that
    /// of a session that has nothing to do, and the session stays as it is.
    pub fn commit(&mut self) -> Reply
        requires { IfSome self.old.current (λ c. self.old.stored.entries < greatest_count) }
        ensures reply { (c : CurrentBlockModel) → self.old.current ≡ Some c
            → result ≡ Reply.Done (committed self.old c).stored.entries }
        ensures next { (c : CurrentBlockModel) → self.old.current ≡ Some c → self.new ≡ committed self.old c }
        ensures rest_reply { (program : List ℕ) → self.old.current ≡ None → result ≡ (rest program self.old).reply }
        ensures rest_next { self.old.current ≡ None → self.new ≡ self.old }
    {
        let Some(current) = &mut self.current else {
            return self.rest();
        };
        let update = current.update(&self.stored);
        self.stored.take_update(&update);
        if !current.end_approach() {
            let source = current.source;
            let stop = current.stop;
            self.activity = self.activity.after(source, stop, self.optional_stop);
            self.current = None;
        }
        Reply::Done(self.stored.entries)
    }

    /// The reply of a session that has nothing to do.
    pub fn rest(&self) -> Reply
        ensures { (program : List ℕ) → result ≡ (rest program self.now).reply }
    {
        self.activity.idleness()
    }
}
