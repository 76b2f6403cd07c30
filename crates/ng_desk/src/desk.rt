//! A lock around a book, and a seat for each caller.
ghost use Rattle.std.specs.Prelude.{◌≡◌, ◌≤◌, ◌++◌, [], ◌∷◌, length, map, sum_by, All, Some, IfOk, IfErr, MatchResult, false};
ghost use Rattle.ng_num.specs.declared.fault.Fault.TheVariants.{OutOfMemory, SeatsDisagree};
ghost use Rattle.ng_desk.specs.Calls.{Agree, lists_of};
ghost use Rattle.ng_desk.specs.Running.{IsClosed};

use crate::book::Book;
use crate::call::Call;
use crate::comparing::compare;
use crate::origin::Origin;
use crate::seat::Seat;
use ng_core::{Controller, Event, Reply};
use ng_num::Fault;
use ng_rig::Rig;
use std::alloc::Allocator;
use std::sync::ledger::{Blank, Ledger, Share};
use std::sync::{Mutex, Wait};

/// One controller for several callers, each in a seat of its own (own).
pub struct Desk<R: Rig, A: Allocator + Copy + Drop, O: Origin<R>> {
    book: Mutex<Book<R, A, O>>,
}

impl<R: Rig, A: Allocator + Copy + Drop, O: Origin<R>> Desk<R, A, O> {
    /// A desk with this many seats, at least one, over a controller that isn't broken, as `power_on` returned it (own).
    /// Its history is empty.
    ///
    /// M1 if there is no memory for the seats; then the controller is returned as it was. `blank` is a ledger with as
    /// many parts as seats; it has no bytes.
    pub fn new(
        alloc: A,
        blank: Blank,
        controller: Controller<R, A>,
        seats: usize,
    ) -> Result<(Desk<R, A, O>, Vec<Seat<A, O>, A>), (Fault, Controller<R, A>)>
        requires whole { controller.journal.broken ≡ false }
        requires some { 1 ≤ seats }
        requires start { O.start ≡ Some controller }
        requires name { blank.name ≡ O.name }
        requires parts { (blank.parts ≡ O.parts) × (seats ≡ O.parts) }
        ensures seats { IfOk result (λ r. (length r.1.items ≡ seats) × All (λ s. s ≡ record { calls = []; parts = 1 }) r.1.items) }
        ensures memory { IfErr result (λ e. (e.0 ≡ OutOfMemory) × (e.1 ≡ controller)) }
    {
        let (calls, mut all) = blank.open::<O>();
        let Ok(mut places) = Vec::with_capacity(alloc, seats) else {
            return Err((Fault::OutOfMemory, controller));
        };
        for _seat in 0..seats {
            places.push_reserved(Seat::new(alloc, all.split_off(1, 0)));
        }
        let book = Book::new(alloc, controller, calls, &mut all);
        Ok((
            Desk {
                book: Mutex::new(book),
            },
            places,
        ))
    }

    /// Gives an event to the controller, from a seat of this desk, and returns the reply (own). It may wait for the
    /// lock. After that the seat has one more call: the event and that reply.
    ///
    /// M1 if there is no memory for the seat, for the history or for a copy of the event's text; then the event isn't
    /// given, and the seat is as it was. Every other refusal is the reply.
    pub fn call<W: Wait>(
        &self,
        rt: &W,
        seat: &mut Seat<A, O>,
        event: &Event<A>,
    ) -> Result<Reply, Fault>
        requires { seat.old.parts ≡ 1 }
        ensures call { IfOk result
            (λ reply. (call : Call A) × (seat.new.calls ≡ seat.old.calls ++ call ∷ []) × (call.event ≡ event.now)
            × (call.reply ≡ reply)) }
        ensures seat { seat.new.parts ≡ 1 }
        ensures memory { IfErr result (λ fault. (fault ≡ OutOfMemory) × (seat.new ≡ seat.old)) }
    {
        seat.calls.reserve(1)?;
        let call = self.book.lock(rt).give(event, &mut seat.share)?;
        let reply = call.answer();
        seat.calls.push_reserved(call);
        Ok(reply)
    }

    /// Returns the controller, the history and all seats of this desk, and whether the history agrees with the seats'
    /// lists (own). It doesn't allocate.
    ///
    /// K6 exactly if a seat's call isn't the history's call at its number, a seat's numbers don't rise, or a number is
    /// in two seats. The history is as long as all seats' lists together, and controller, device and replies are what
    /// `run` guarantees for its events, with K6 too. No more calls are made from the seats.
    pub fn close(
        self,
        seats: Vec<Seat<A, O>, A>,
    ) -> (
        Controller<R, A>,
        Vec<Call<A>, A>,
        Vec<Seat<A, O>, A>,
        Result<(), Fault>,
    )
        requires { (length seats.items ≡ O.parts) × All (λ s. s.parts ≡ 1) seats.items }
        ensures closed { IsClosed R.seen O.start seats.items result.0 result.1.items result.2.items }
        ensures agrees { MatchResult result.3
            (λ _. Agree result.1.items (lists_of seats.items))
            (λ fault. (fault ≡ SeatsDisagree) × (Agree result.1.items (lists_of seats.items) → ⊥)) }
    {
        let mut seats = seats;
        let Desk { book } = self;
        let mut book = book.into_inner();
        let mut all = book.no_share();
        gather(seats.as_mut_slice(), &mut all);
        let (controller, history) = book.close(all);
        let agreed = compare(history.as_slice(), seats.as_slice());
        (controller, history, seats, agreed)
    }
}

/// Takes the shares of all seats together.
fn gather<A: Allocator + Copy + Drop, O: Ledger>(seats: &mut [Seat<A, O>], all: &mut Share<O>)
    requires ones { All (λ s. s.parts ≡ 1) seats.old }
    requires none { (all.old.parts ≡ 0) × (all.old.amount ≡ 0) }
    ensures parts { all.new.parts ≡ length seats.old }
    ensures amount { all.new.amount ≡ sum_by (λ s. length s.calls) seats.old }
    ensures calls { lists_of seats.new ≡ lists_of seats.old }
{
    for seat in seats.iter_mut() {
        all.merge(seat.take_share());
    }
}
