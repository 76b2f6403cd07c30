//! A session: what a controller keeps between two events.
ghost use Rattle.std.specs.Prelude.{◌≡◌, ◌≤◌, List, ℕ};
ghost use Rattle.std.specs.Option.{option_map};
ghost use Rattle.ng_session.specs.Operator.{point_shown, point_known_shown, half_shown};
ghost use Rattle.ng_layout.specs.Limits.{greatest_count};

use crate::activity::Activity;
use crate::current_block::CurrentBlock;
use crate::reply::{Condition, HalfShown, Reply, Status};
use ng_block::Scratch;
use ng_layout::{Half, Stored};
use ng_num::{Fault, Point};
use ng_state::ModalState;
use std::alloc::Allocator;
use std::marker::Model;

/// What a controller keeps between two events (own). Contracts see a `SessionModel`.
#[derive(Drop)]
pub struct Session<A: Allocator> {
    /// The stored state.
    pub(crate) stored: Stored<A>,
    pub(crate) activity: Activity,
    pub(crate) held: bool,
    pub(crate) optional_stop: bool,
    pub(crate) block_delete: bool,
    pub(crate) current: Option<CurrentBlock>,
    /// The scratch space in which each line is executed.
    pub(crate) places: Scratch,
}

impl<A: Allocator> Model for Session<A> {
    ghost use Rattle.std.specs.Option.{option_map};
    ghost use Rattle.ng_session.specs.Session.{SessionModel};
    ghost use Rattle.ng_session.specs.BareBlock.{block_on};
    ghost use Rattle.ng_session.specs.SessionInvariant.{IsSessionInvariant};

    ghost Value = { SessionModel };

    ghost view = { λ s. record {
      stored = s.stored;
      activity = s.activity;
      held = s.held;
      optional_stop = s.optional_stop;
      block_delete = s.block_delete;
      current = option_map (block_on s.stored.setup.params) s.current;
    } };

    ghost invariant = { λ s. IsSessionInvariant s.stored s.current };
}

impl<A: Allocator + Copy + Drop> Session<A> {
    ghost use Rattle.std.specs.Prelude.{None};
    ghost use Rattle.ng_layout.specs.Storable.{IsStorable};
    ghost use Rattle.ng_session.specs.SessionInvariant.{IsSessionInvariant};
    ghost use Rattle.ng_session.specs.Session.{resting, is_at_rest, accepts_load};
    ghost use Rattle.ng_session.specs.Operator.{refuses_mdi, start, hold, resume_held, session_status};

    /// A session at power on: at rest, over the stored state. Nothing is allocated.
    pub fn new(stored: Stored<A>) -> Session<A>
        requires { IsSessionInvariant stored None }
        ensures { result ≡ resting stored }
    {
        Session {
            stored,
            activity: Activity::Idle,
            held: false,
            optional_stop: false,
            block_delete: false,
            current: None,
            places: Scratch::new(ModalState::fresh()),
        }
    }

    /// The stored state.
    pub fn stored(&self) -> &Stored<A>
        ensures value { result.now ≡ self.now.stored }
        ensures count { self.now.stored.entries ≤ greatest_count }
        ensures storable { IsStorable self.now.stored }
    {
        &self.stored
    }

    /// Whether no block is current, the program doesn't run, and nothing is held.
    pub(crate) fn is_at_rest(&self) -> bool
        ensures { result ≡ is_at_rest self.now }
    {
        self.current.is_none() && !self.activity.is_running() && !self.held
    }

    /// Whether the session is at rest with no half-done block.
    pub(crate) fn accepts_load(&self) -> bool
        ensures { result ≡ accepts_load self.now }
    {
        self.is_at_rest() && self.stored.half.is_none()
    }

    /// Whether a block is current or half-done, or the program runs and isn't held: then no line of the operator can
    /// begin.
    pub(crate) fn refuses_mdi(&self) -> bool
        ensures { result ≡ refuses_mdi self.now }
    {
        self.current.is_some()
            || (self.activity.is_running() && !self.held)
            || self.stored.half.is_some()
    }

    /// Whether the machine's point is known.
    pub(crate) fn is_place_known(&self) -> bool
        ensures { result ≡ self.now.stored.setup.modal.point_known }
    {
        self.stored.state.modal.point_known
    }

    /// The byte of the program at which the next line begins.
    pub fn place(&self) -> u64
        ensures value { result ≡ self.now.stored.place }
        ensures within { result ≤ self.now.stored.length }
    {
        self.stored.place
    }

    /// The program is to run from its place on. K1 if the session isn't at rest or a block is half-done, K3 if the
    /// machine's point isn't known, K2 if the program is empty; then nothing is changed.
    pub(crate) fn start(&mut self) -> Reply
        ensures reply { (program : List ℕ) → result ≡ (start program self.old).reply }
        ensures next { (program : List ℕ) → self.new ≡ (start program self.old).next }
    {
        if !self.accepts_load() {
            return Reply::Refused(Fault::Busy);
        }
        if !self.is_place_known() {
            return Reply::Refused(Fault::PlaceUnknown);
        }
        if self.stored.length == 0 {
            return Reply::Refused(Fault::NoProgram);
        }
        self.activity = Activity::Running;
        Reply::Going
    }

    /// Nothing more is to be handed out for now. The reply is Held if the program runs or a block is current. Otherwise
    /// it is Stopped if the program waits to go on and Idle if it doesn't, and nothing is changed.
    pub(crate) fn hold(&mut self) -> Reply
        ensures reply { (program : List ℕ) → result ≡ (hold program self.old).reply }
        ensures next { (program : List ℕ) → self.new ≡ (hold program self.old).next }
    {
        if self.activity.is_running() || self.current.is_some() {
            self.held = true;
            return Reply::Held;
        }
        self.activity.idleness()
    }

    /// What was held goes on, or else the program that was stopped. If nothing is held, K1 if the program runs or a
    /// block is current, and K2 if the program is idle; then nothing is changed.
    pub(crate) fn resume_held(&mut self) -> Reply
        ensures reply { (program : List ℕ) → result ≡ (resume_held program self.old).reply }
        ensures next { (program : List ℕ) → self.new ≡ (resume_held program self.old).next }
    {
        if self.held {
            self.held = false;
            return Reply::Going;
        }
        if self.activity.is_running() || self.current.is_some() {
            return Reply::Refused(Fault::Busy);
        }
        match self.activity {
            Activity::Idle => Reply::Refused(Fault::NoProgram),
            Activity::Running | Activity::Stopped => {
                self.activity = Activity::Running;
                Reply::Going
            }
        }
    }

    /// Whether the program stops at M1 from now on.
    pub(crate) fn set_optional_stop(&mut self, wanted: bool) -> Reply
        ensures reply { result ≡ Reply.Taken }
        ensures next { self.new ≡ record self.old { optional_stop = wanted } }
    {
        self.optional_stop = wanted;
        Reply::Taken
    }

    /// Whether lines that begin with a slash are deleted from now on.
    pub(crate) fn set_block_delete(&mut self, on: bool) -> Reply
        ensures reply { result ≡ Reply.Taken }
        ensures next { self.new ≡ record self.old { block_delete = on } }
    {
        self.block_delete = on;
        Reply::Taken
    }

    /// What the status shows: what is stored, and what the session is doing. A block with an open segment counts as
    /// half-done.
    pub fn status(&self) -> Status
        ensures { result ≡ session_status self.now }
    {
        let modal = &self.stored.state.modal;
        let half = self.stored.half.as_ref();
        Status {
            entries: self.stored.entries,
            place: self.stored.place,
            point: point_shown(modal.point, half),
            point_known: point_known_shown(modal.point_known, half),
            half: half_shown(half),
            condition: if self.held {
                Condition::Held
            } else {
                self.activity.condition()
            },
        }
    }
}

/// The point that the status shows, given the half-done block.
fn point_shown(point: Point, half: Option<&Half>) -> Point
    ensures { result ≡ point_shown point (option_map (λ h. h.now) half.entry) }
{
    match half {
        Some(half) => half.at.unwrap_or(point),
        None => point,
    }
}

/// Whether that point is known, given the half-done block.
fn point_known_shown(known: bool, half: Option<&Half>) -> bool
    ensures { result ≡ point_known_shown known (option_map (λ h. h.now) half.entry) }
{
    match half {
        Some(half) => half.at.is_some(),
        None => known,
    }
}

/// A half-done block, as the status shows it.
fn half_shown(half: Option<&Half>) -> Option<HalfShown>
    ensures { result ≡ option_map half_shown (option_map (λ h. h.now) half.entry) }
{
    match half {
        Some(half) => Some(HalfShown {
            source: half.source,
            index: half.index,
        }),
        None => None,
    }
}
