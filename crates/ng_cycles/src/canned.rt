//! A valid canned cycle, or the reason why it is refused.
ghost use Rattle.std.specs.Prelude.{◌≡◌, ◌≤◌, ◌∷◌, [], pos, int_lt, unwrap_or, IfOk, if◌then◌else◌};
ghost use Rattle.std.specs.Int.{int_max};
ghost use Rattle.std.specs.Option.{is_none, option_and_then};
ghost use Rattle.ng_canon.specs.Pace.{above_zero};
ghost use Rattle.ng_num.specs.Range.{IsCount};
ghost use Rattle.ng_cycles.specs.Strokes.{coordinate};
ghost use Rattle.ng_cycles.specs.Canned.{IsDeep, IsMade};
ghost use Rattle.ng_num.specs.Causes.{first_fault, unless};
ghost use Rattle.ng_cycles.specs.Faults.{work_of, work_causes, is_negative, is_stopped, hole_causes, drill_by};

use crate::drill::{Drill, Work};
use crate::heights::{Lengths, optional_lengths_of};
use crate::peck::Peck;
use crate::words::{CycleContext, CycleKind, CycleWords};
use ng_canon::{Geometry, Rate, Spindle};
use ng_num::{Fault, Len, Num};
use ng_state::KeptWords;
use std::marker::Model;

/// A valid canned cycle.
#[derive(Clone, Copy)]
pub struct Canned {
    drill: Drill,
}

impl Model for Canned {
    ghost use Rattle.ng_cycles.specs.declared.drill.Drill.{Drill};
    ghost use Rattle.ng_cycles.specs.Canned.{IsCanned};

    ghost Value = { Drill };

    ghost view = { λ c. c.drill };

    ghost invariant = { λ c. IsCanned c.drill };

    ghost inverse = { λ d. record { drill = d } };
}

/// The P in force, or 0 if there is none.
fn seconds_of(p: Option<Num>) -> Result<Num, Fault>
    ensures { result ≡ unless (first_fault ((is_negative p, Fault.NegativeP) ∷ [])) (unwrap_or p (pos 0)) }
{
    match p {
        None => Ok(Num::zero()),
        Some(p) => if p.count() < 0 {
            Err(Fault::NegativeP)
        } else {
            Ok(p)
        },
    }
}

/// G83 with its Q.
fn pecking(q: Option<Len>) -> Result<Work, Fault>
    ensures work { result ≡ unless (first_fault ((is_none (option_and_then above_zero q), Fault.BadQ) ∷ []))
        (Work.PeckDrilling (unwrap_or (option_and_then above_zero q) 1)) }
    ensures deep { IfOk result IsDeep }
{
    match q {
        None => Err(Fault::BadQ),
        Some(q) => match Peck::of(q) {
            None => Err(Fault::BadQ),
            Some(peck) => {
                // Called for its contract: a peck is above 0.
                let _nm = peck.nm();
                Ok(Work::PeckDrilling(peck))
            }
        },
    }
}

/// G86 with its P.
fn boring_with_stop(seconds: Num, spindle: Spindle) -> Result<Work, Fault>
    ensures work { result ≡ unless (first_fault ((is_stopped spindle, Fault.SpindleStopped) ∷ [])) (Work.BoringWithStop seconds) }
    ensures deep { IfOk result IsDeep }
{
    match spindle {
        Spindle::Stopped => Err(Fault::SpindleStopped),
        Spindle::Clockwise => Ok(Work::BoringWithStop(seconds)),
        Spindle::Counterclockwise => Ok(Work::BoringWithStop(seconds)),
    }
}

/// What a kind of cycle does, given the words in force.
fn work_of(kind: CycleKind, words: &KeptWords, spindle: Spindle) -> Result<Work, Fault>
    ensures work { result ≡ unless (first_fault (work_causes kind words.now spindle)) (work_of kind words.now) }
    ensures deep { IfOk result IsDeep }
{
    match kind {
        CycleKind::Drilling => Ok(Work::Drilling),
        CycleKind::DrillingWithDwell => Ok(Work::DrillingWithDwell(seconds_of(words.p)?)),
        CycleKind::PeckDrilling => pecking(words.q),
        CycleKind::Boring => Ok(Work::Boring),
        CycleKind::BoringWithStop => boring_with_stop(seconds_of(words.p)?, spindle),
        CycleKind::BoringWithDwell => Ok(Work::BoringWithDwell(seconds_of(words.p)?)),
    }
}

/// Where each repeat ends.
fn clear_of(context: &CycleContext, r: Len) -> Len
    ensures { result ≡ (if context.now.keeps_old_z then int_max context.now.point.z r else r) }
{
    if context.keeps_old_z && r.nm() < context.point.z.nm() {
        context.point.z
    } else {
        r
    }
}

impl CycleWords {
    ghost use Rattle.std.specs.Prelude.{not};
    ghost use Rattle.ng_cycles.specs.Faults.{names_no_axis};

    /// Whether the line has an X, Y or Z.
    fn names_axis(&self) -> bool
        ensures { result ≡ not (names_no_axis self.now) }
    {
        self.x.is_some() || self.y.is_some() || self.own.z.is_some()
    }
}

/// The cycle of a line that has its words. Checks Y4 to Y8 and X1.
fn drill_in(
    words: &CycleWords,
    in_force: &KeptWords,
    context: &CycleContext,
    lengths: &Lengths,
) -> Result<Drill, Fault>
    requires some { 1 ≤ words.now.repeats }
    requires x { IsCount (coordinate lengths.now.x words.now.repeats) }
    requires y { IsCount (coordinate lengths.now.y words.now.repeats) }
    ensures drill { result ≡ unless (first_fault (hole_causes words.now context.now in_force.now
        (int_lt lengths.now.r lengths.now.z))) (drill_by words.now context.now in_force.now lengths.now) }
    ensures made { IfOk result IsMade }
{
    if lengths.r.nm() < lengths.z.nm() {
        return Err(Fault::RBelowZ);
    }
    if context.is_inverse_time {
        return Err(Fault::InverseTime);
    }
    let work = match work_of(words.kind, in_force, context.outputs.spindle) {
        Ok(work) => work,
        Err(fault) => return Err(fault),
    };
    match Rate::of(context.feed_per_min) {
        None => Err(Fault::NoFeed),
        Some(rate) => Ok(Drill {
            work,
            start: context.point,
            x: lengths.x,
            y: lengths.y,
            r: lengths.r,
            z: lengths.z,
            clear: clear_of(context, lengths.r),
            repeats: words.repeats,
            rate,
            outputs: context.outputs,
        }),
    }
}

impl Canned {
    ghost use Rattle.ng_cycles.specs.Canned.{IsCanned};
    ghost use Rattle.ng_cycles.specs.Faults.{canned_of};

    /// The cycle of a line, or its first fault: E3 if a length that is computed is out of range, Y1 to Y8, X1, X2.
    /// Neither holes nor pecks are walked, however many there are.
    pub fn of(
        words: &CycleWords,
        context: &CycleContext,
        geometry: &Geometry,
    ) -> Result<Canned, Fault>
        requires { 1 ≤ words.now.repeats }
        ensures { result ≡ canned_of words.now context.now geometry.now }
    {
        let in_force = words.own.over(&context.kept);
        let found = match optional_lengths_of(words, &in_force, context) {
            Ok(found) => found,
            Err(fault) => return Err(fault),
        };
        if !words.names_axis() {
            return Err(Fault::CycleNoAxis);
        }
        if in_force.z.is_none() {
            return Err(Fault::NoZ);
        }
        let lengths = match found.lengths() {
            Some(lengths) => lengths,
            None => return Err(Fault::NoR),
        };
        let drill = match drill_in(words, &in_force, context, &lengths) {
            Ok(drill) => drill,
            Err(fault) => return Err(fault),
        };
        if drill.leaves_travel(geometry) {
            return Err(Fault::OutsideTravel);
        }
        Ok(Canned { drill })
    }

    /// What it does.
    pub fn drill(&self) -> &Drill
        ensures value { result.now ≡ self.now }
        ensures canned { IsCanned self.now }
    {
        &self.drill
    }
}
