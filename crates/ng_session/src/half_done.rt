//! A half-done block (own): the point of its machine is given, it goes on, or it is given up.
ghost use Rattle.std.specs.Prelude.{◌≡◌, ◌≤◌, ◌<◌, ◌+◌, not, nat_lt, [], false, ℕ, List};
ghost use Rattle.std.specs.Prelude.{Ok, Err, IfOk, MatchResult, MatchOption};
ghost use Rattle.ng_block.specs.Effects.{in_state};
ghost use Rattle.ng_layout.specs.Limits.{greatest_count};
ghost use Rattle.ng_layout.specs.Storable.{IsStorableModalState, IsStorable};
ghost use Rattle.ng_layout.specs.Stored.{with_decoded_state};
ghost use Rattle.ng_layout.specs.Update.{updated};
ghost use Rattle.ng_session.specs.Entries.{done_again, given_up};
ghost use Rattle.ng_session.specs.SessionInvariant.{IsNextEntry};

use crate::beginning::terms_over;
use crate::current_block::CurrentBlock;
use crate::reply::Reply;
use crate::session::Session;
use ng_block::{Effect, Scratch, switched_off};
use ng_canon::Geometry;
use ng_layout::{DecodedState, GREATEST_COUNT, Half, Source, Stored, Update};
use ng_num::{Fault, Point};
use ng_state::ModalState;
use std::alloc::Allocator;

/// What the line of a half-done block does from its beginning, executed in the scratch space, or its first fault.
#[tactic(auto, unfolding(crate::specs::Entries::done_again))]
fn execute_again<'p, A: Allocator + Copy + Drop>(
    places: &'p mut Scratch,
    stored: &Stored<A>,
    half: &Half,
    geometry: &Geometry,
) -> Result<&'p Effect, Fault>
    ensures done { MatchResult result
        (λ e. done_again geometry.now stored.now half.now.text ≡ Ok (in_state stored.now.setup e.now))
        (λ fault. done_again geometry.now stored.now half.now.text ≡ Err fault) }
    ensures stands { IfOk result (λ e. IsStorableModalState stored.now.setup.modal → IsStorableModalState e.now.modal) }
{
    let terms = terms_over(stored, false, geometry);
    match places.execute(&terms, &stored.state, half.text.as_slice()) {
        Ok(effect) => Ok(effect),
        Err(fault) => Err(fault),
    }
}

/// The machine after a half-done block is given up.
fn given_up(modal: &ModalState, half: &Half) -> ModalState
    ensures { result ≡ given_up modal.now half.now }
{
    ModalState {
        outputs: switched_off(modal.outputs),
        point: half.at.unwrap_or(modal.point),
        point_known: half.at.is_some(),
        ..*modal
    }
}

/// An update of what a state field says alone.
fn of_state_field(decoded: DecodedState) -> Update<'static>
    ensures { result ≡ record { decoded = decoded; changes = []; slot = None } }
{
    Update {
        decoded,
        changes: &[],
        slot: None,
    }
}

impl<A: Allocator + Copy + Drop> Session<A> {
    ghost use Rattle.std.specs.Prelude.{None, Some, IfNone, IfSome, true};
    ghost use Rattle.std.specs.Option.{is_some};
    ghost use Rattle.ng_text.specs.Programs.{next_line_start};
    ghost use Rattle.ng_session.specs.Entries.{after_reference, after_abandon};
    ghost use Rattle.ng_session.specs.Operator.{reference_refusal, abandon_refusal};

    /// Why the machine's point, in nm of machine coordinates, is refused now: K1 if the session isn't at rest, X2 if
    /// the point is outside the travel.
    pub fn reference_refusal(&self, point: Point, geometry: &Geometry) -> Option<Fault>
        ensures { result ≡ reference_refusal geometry.now self.now point }
    {
        if !self.is_at_rest() {
            return Some(Fault::Busy);
        }
        if !geometry.contains(point) {
            return Some(Fault::OutsideTravel);
        }
        None
    }

    /// What a state field says after a reference to a point.
    #[tactic(auto, using(crate::proofs::StorableStateLemmas::reference_storable))]
    fn referenced_state(&self, point: Point) -> DecodedState
        requires { self.now.stored.entries < greatest_count }
        ensures value { with_decoded_state self.now.stored result self.now.stored.length
            ≡ after_reference self.now.stored point }
        ensures count { result.entries ≡ self.now.stored.entries + 1 }
        ensures storable { IsStorable (with_decoded_state self.now.stored result self.now.stored.length) }
    {
        let stored = &self.stored;
        let modal = stored.state.modal;
        let entries = stored.entries + 1;
        match &stored.half {
            Some(half) => DecodedState {
                entries,
                place: stored.place,
                modal,
                half: Some(Half {
                    at: Some(point),
                    opened: None,
                    ..half.copy()
                }),
            },
            None => DecodedState {
                entries,
                place: stored.place,
                modal: ModalState {
                    point,
                    point_known: true,
                    ..modal
                },
                half: None,
            },
        }
    }

    /// What a reference to a point, in nm of machine coordinates, changes of what is stored. If a block is half-done,
    /// that is only the point of that block's machine. The session stays as it is.
    pub fn referenced(&self, point: Point) -> Update<'static>
        requires { self.now.stored.entries < greatest_count }
        ensures value { updated self.now.stored result ≡ after_reference self.now.stored point }
        ensures next { IsNextEntry self.now.stored result }
    {
        of_state_field(self.referenced_state(point))
    }

    /// Why a half-done block can't be given up now: K1 if the session isn't at rest, K4 if no block is half-done.
    pub fn abandon_refusal(&self) -> Option<Fault>
        ensures { result ≡ abandon_refusal self.now }
    {
        if !self.is_at_rest() {
            return Some(Fault::Busy);
        }
        if self.stored.half.is_none() {
            return Some(Fault::NothingHalfDone);
        }
        None
    }

    /// What changes of what is stored when the half-done block is given up: spindle stopped, coolant off, and the
    /// machine at the point of that block's machine. If that isn't known, the machine's point no longer is. `None` if
    /// no block is half-done. The session stays as it is.
    pub fn abandoned(&self) -> Option<Update<'static>>
        requires { self.now.stored.entries < greatest_count }
        ensures value { MatchOption result (self.now.stored.half ≡ None)
            (λ update. updated self.now.stored update ≡ after_abandon self.now.stored) }
        ensures next { IfSome result (IsNextEntry self.now.stored) }
    {
        match &self.stored.half {
            Some(half) => Some(of_state_field(DecodedState {
                entries: self.stored.entries + 1,
                place: self.stored.place,
                modal: given_up(&self.stored.state.modal, half),
                half: None,
            })),
            None => None,
        }
    }
}

impl<A: Allocator + Copy + Drop> Session<A> {
    ghost use Rattle.std.specs.Prelude.{IfSome, true};
    ghost use Rattle.ng_session.specs.Operator.{next_place_after, resume, resume_refusal};
    ghost use Rattle.ng_session.specs.Step.{IsProgramsLine};

    /// Why a half-done block can't go on now: K1 if the session isn't at rest, K4 if no block is half-done, K3 if the
    /// point of its machine isn't known, then its line's own faults. The session stays as it is.
    pub fn resume_refusal(&mut self, geometry: &Geometry) -> Option<Fault>
        ensures refusal { result ≡ resume_refusal geometry.now self.old }
        ensures same { self.new ≡ self.old }
    {
        if !self.is_at_rest() {
            return Some(Fault::Busy);
        }
        let Some(half) = self.waiting() else {
            return Some(Fault::NothingHalfDone);
        };
        if half.at.is_none() {
            return Some(Fault::PlaceUnknown);
        }
        match execute_again(&mut self.places, &self.stored, &half, geometry) {
            Ok(_) => None,
            Err(fault) => Some(fault),
        }
    }

    /// Whether the half-done block is a line of the program. If it is, the place of the next line is looked up before
    /// the block goes on.
    pub fn is_programs_line(&self) -> bool
        ensures yes { result ≡ true → IsProgramsLine self.now.stored.half }
        ensures no { result ≡ false → IsProgramsLine self.now.stored.half → ⊥ }
        ensures stays { (program : List ℕ) → result ≡ false → IfSome self.now.stored.half
            (λ half. self.now.stored.place ≡ next_place_after program self.now.stored.place half.source) }
    {
        match &self.stored.half {
            Some(half) => match half.source {
                Source::Program => true,
                Source::Mdi => false,
            },
            None => false,
        }
    }

    /// Whether one more entry would exceed the greatest count.
    pub fn is_count_used_up(&self) -> bool
        ensures { result ≡ not (nat_lt self.now.stored.entries greatest_count) }
    {
        !(self.stored.entries < GREATEST_COUNT)
    }

    /// Goes on with an update, once that is stored.
    #[tactic(auto, using(crate::proofs::SessionInvariantLemmas::holds_update))]
    pub fn take(&mut self, update: &Update<'_>) -> Reply
        requires free { self.old.current ≡ None }
        requires count { self.old.stored.entries < greatest_count }
        requires next { IsNextEntry self.old.stored update.now }
        ensures reply { result ≡ Reply.Done update.now.decoded.entries }
        ensures next { self.new ≡ record self.old { stored = updated self.old.stored update.now } }
    {
        self.stored.take_update(update);
        Reply::Done(self.stored.entries)
    }

    /// The half-done block, if there is one.
    pub(crate) fn waiting(&self) -> Option<Half>
        ensures { result ≡ self.now.stored.half }
    {
        match &self.stored.half {
            Some(half) => Some(half.copy()),
            None => None,
        }
    }

    /// Makes the half-done block go on, beginning with its approach. The next line of the program begins at the byte
    /// `next`. K1 if the session isn't at rest, K4 if no block is half-done, K3 if the point of its machine isn't
    /// known, then its line's own faults. In all these cases nothing is changed. It doesn't allocate.
    #[tactic(auto, using(crate::proofs::SessionInvariantLemmas::holds_ready))]
    pub fn resume(&mut self, next: u64, geometry: &Geometry) -> Reply
        requires { next ≤ self.old.stored.length }
        ensures stored { self.new.stored ≡ self.old.stored }
        ensures reply { (program : List ℕ)
            → IfSome self.old.stored.half (λ half. next ≡ next_place_after program self.old.stored.place half.source)
            → result ≡ (resume geometry.now program self.old).reply }
        ensures next { (program : List ℕ)
            → IfSome self.old.stored.half (λ half. next ≡ next_place_after program self.old.stored.place half.source)
            → self.new ≡ (resume geometry.now program self.old).next }
    {
        if !self.is_at_rest() {
            return Reply::Refused(Fault::Busy);
        }
        let Some(waiting) = self.waiting() else {
            return Reply::Refused(Fault::NothingHalfDone);
        };
        let half = &waiting;
        let Some(from) = half.at else {
            return Reply::Refused(Fault::PlaceUnknown);
        };
        let effect = match execute_again(&mut self.places, &self.stored, half, geometry) {
            Ok(effect) => effect,
            Err(fault) => return Reply::Refused(fault),
        };
        let current = CurrentBlock::begun_again(&self.stored, half, from, next, effect);
        self.activity = self.activity.again(half.source);
        self.current = Some(current);
        Reply::Going
    }
}
