//! Laws over the definitions, to be cited by proofs in the crates above. The calls do nothing; their contracts are the
//! laws.
ghost use Rattle.std.specs.Prelude.{◌≡◌, ◌≤◌, ◌<◌, ◌+◌, ℕ, ℤ, List, [], ◌∷◌, Ok, false};
ghost use Rattle.ng_canon.specs.declared.item.Item.{Item};
ghost use Rattle.ng_rig.specs.Trace.{Image, moment, trace_at, IsStop};
ghost use Rattle.ng_session.specs.Runs.{dones};
ghost use Rattle.ng_session.specs.declared.event.Event.{Event};
ghost use Rattle.ng_session.specs.declared.reply.Reply.{Reply};
ghost use Rattle.ng_core.specs.Model.{ControllerModel, IsAtRestWith};
ghost use Rattle.ng_core.specs.Events.{program_session_of};
ghost use Rattle.ng_core.specs.Runs.{PassesAsSession};
ghost use Rattle.ng_core.specs.AnsweredEvents.{AreAnsweredEvents, answered_at};
ghost use Rattle.ng_layout.specs.Stands.{stands_beside, recovered};
ghost use Rattle.ng_layout.specs.Stored.{DurableState};
ghost use Rattle.ng_core.specs.Headline.{IsPast, Accounts, AddsToPast, CountsAcknowledged};
ghost use Rattle.ng_core.specs.Lives.{CutsOfImageHistory, SessionsWithinPowerOn, SessionsAfterPowerOn, SessionsAnew};
ghost use Rattle.ng_core.specs.Lifetime.{KeepsFromFormat, KeepsFromImage};

use ng_rig::Rig;
use std::alloc::Allocator;

/// What events, one after another and each with its reply, leave of an honest device: what the session makes of those
/// that came. Each stop since their beginning leaves the state after those that came until then, or after the one under
/// way too.
pub fn histories<R: Rig, A: Allocator>()
    ensures { (events : List (Event A)) (replies : List Reply) (program : List ℕ) (old new : ControllerModel R)
        → (R.seen old.journal.rig).honest → (exchanges : AreAnsweredEvents R.seen events replies old new)
        → old.journal.broken ≡ false → IsAtRestWith (R.seen old.journal.rig).trace old program
        → PassesAsSession R.seen events replies
        (answered_at R.seen events replies old new exchanges)
        old.geometry (program_session_of program old) (R.seen old.journal.rig).trace new }
{}

/// Whenever power of an honest device is cut since power on, the plain interpreter accounts for what is left, with as
/// many entries as were acknowledged until then, or one more.
pub fn accounts<R: Rig, A: Allocator>()
    ensures cuts { (x : DurableState) (events : List (Event A)) (replies : List Reply) (moments : List ℕ)
        (first now : ControllerModel R) → (R.seen first.journal.rig).honest
        → IsPast R.seen x events replies moments first now
        → Accounts R.seen x events replies moments first now }

    // So the state that a stop leaves counts them.
    ensures counts { (x : DurableState) (events : List (Event A)) (replies : List Reply) (moments : List ℕ)
        (first now : ControllerModel R) → Accounts R.seen x events replies moments first now
        → CountsAcknowledged R.seen x replies moments first now }

    // And from what `on` adds to a past alone: no stop within an event has fewer of them than were acknowledged before
    // it.
    ensures keeps { (event : Event A) (r : Reply) (old new : ControllerModel R)
        → AddsToPast {A = A} R.seen (event ∷ []) (r ∷ [])
        (moment (R.seen new.journal.rig).trace ∷ []) old new
        → (x : DurableState) (events : List (Event A)) (told : List Reply) (before : List ℕ) (first : ControllerModel R)
        → (R.seen first.journal.rig).honest → IsPast R.seen x events told before first old
        → (t : ℕ) (image : Image) (handed : List Item) (tools : List ℤ) (y : DurableState)
        → moment (R.seen old.journal.rig).trace ≤ t → t < moment (R.seen new.journal.rig).trace
        → IsStop (trace_at t (R.seen new.journal.rig).trace) image handed → stands_beside tools image ≡ Ok y
        → x.saved.entries + dones told ≤ y.saved.entries }
{}

/// However often power is cut, within power on or after it: from an image that only such a controller wrote, the last
/// image stands for the plain interpreter's fold over the sessions' entries, with what power on makes of it between two
/// sessions. What was handed out in all sessions is what the fold hands out. The entries of a session are the first of
/// those that it executed, as many as were acknowledged or one more, with the lines of that session's operator, and
/// they are followed by a beginning of the entry that comes next.
pub fn cuts()
    ensures history { CutsOfImageHistory }

    // A recovered state stays the same, however often power is cut within power on after that.
    ensures again { (x : DurableState) → recovered (recovered x) ≡ recovered x }
{}

/// Each stop of a device leaves such a session, from the contracts of its calls.
pub fn sessions<R: Rig, A: Allocator>()
    // Since `power_on` began, whatever it returns, from `PowerOnSpec`.
    ensures within { SessionsWithinPowerOn R.seen }

    // Since it ended, from what `on` and `run` say of all that happened, `Accounts`.
    ensures after { SessionsAfterPowerOn A R.seen }

    // Since another one began with no cut before it, as after the device failed.
    ensures anew { SessionsAnew A R.seen }
{}

/// However often power is cut over the lifetime of a device, within power on or after it, from what the calls promise
/// alone. Each stop stands for what the plain interpreter makes of the entries that were asked for: of each session the
/// first of those that it executed for its events, every acknowledged one and at most one more, the next, and no other.
/// What was handed out is what these hand out, then at most a beginning of the one segment, or approach, that is stored
/// as open.
pub fn lifetime<R: Rig, A: Allocator>()
    // From `format` on.
    ensures formatted { KeepsFromFormat A R.seen }

    // From any image on that only such a controller wrote, of either format.
    ensures found { KeepsFromImage A R.seen }
{}
