//! What the promises of single calls say of whole streams. The calls do nothing; their contracts are the laws.
ghost use Rattle.std.specs.Prelude.{ℕ, List, ◌≡◌, ◌≤◌, [], length};
ghost use Rattle.ng_pace.specs.Rest.{CanRest};
ghost use Rattle.ng_pace.specs.Stream.{Flow, all_items};
ghost use Rattle.ng_pace.specs.declared.limits.Limits.{Limits};
ghost use Rattle.ng_pace.specs.Start.{start_of};
ghost use Rattle.ng_pace.specs.Legs.{Leg};
ghost use Rattle.ng_pace.specs.Calls.{IsEmpty};
ghost use Rattle.ng_pace.specs.Paths.{KeepsToPaths};
ghost use Rattle.ng_pace.specs.Putting.{IsUnderway, KeepSoFar};
ghost use Rattle.ng_pace.specs.Run.{Event, IsRun, AsksOnly, HoldsOnly, lines_given};
ghost use Rattle.ng_pace.specs.Run.{IsPacedBeginning, IsGivenOut, IsStopped};
ghost use Rattle.ng_pace.specs.Speed.{KeepAcceleration};

/// For any items, whatever is wanted and whenever the items come: what was given out is a beginning of what was put
/// in, each line once and in order. No line is sooner than in its own time, and each takes the time of its squares. No
/// square is greater than its line allows, and up to the next line it changes by no more than the line allows (own).
pub fn paced_beginning()
    ensures { (old : Flow) (events : List Event) (new : Flow) → IsRun old events new → IsPacedBeginning old events new }
{}

/// Where no item waits, as after `end`, as many calls of `next` as lines are known give all of them out, if each wants
/// some motion. Then everything stands still (own).
pub fn given_out()
    ensures { (old : Flow) (events : List Event) (new : Flow) → IsRun old events new → AsksOnly events
        → old.waiting ≡ [] → CanRest old.motion.square old.motion.known → length (all_items old) ≤ length events
        → IsGivenOut old events new }
{}

/// In a hold the square falls by the whole ramp at each line. After as many calls of `next` as lines are known, or
/// sooner, everything stands still (own).
pub fn held()
    ensures { (old : Flow) (events : List Event) (new : Flow) → IsRun old events new → HoldsOnly events
        → CanRest old.motion.square old.motion.known → length old.motion.known ≤ length events → IsStopped events new }
{}

/// Of a stream from its beginning, whatever is put in and wanted: each line that was given out, or is known, keeps to
/// the chord of its pulse, and to the corner if it is at one. Along a chord no axis is asked for more than its
/// acceleration and its greatest rate, and at a corner for no more than is left of them (own).
pub fn keeps_to_paths()
    ensures { (old : Flow) (limits : Limits) (capacity : ℕ) (events : List Event) (new : Flow) → IsEmpty old limits capacity
        → IsRun old events new → KeepsToPaths limits (start_of limits) events new }
{}

/// At any moment the lines that were made of a path keep to its chords and corners: no axis is asked for more than its
/// acceleration and its greatest rate (own).
pub fn lines_keep()
    ensures { (flow : Flow) (legs : List Leg) → IsUnderway flow legs → KeepSoFar flow.limits legs }
{}

/// Of a stream from its beginning, whatever is put in and wanted: from each pulse to the next one that goes on from it,
/// the rate changes by no more than the ramps of both allow over the time between their middles, but for a 128th of a
/// pulse a second and a nanosecond. Said of the times that are given out (own).
pub fn keeps_acceleration()
    ensures { (old : Flow) (limits : Limits) (capacity : ℕ) (events : List Event) (new : Flow) → IsEmpty old limits capacity
        → IsRun old events new → KeepAcceleration (lines_given events) }
{}
