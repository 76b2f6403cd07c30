//! What a session is doing, apart from its block.
ghost use Rattle.std.specs.Prelude.{◌≡◌, ◌&&◌, if◌then◌else◌};
ghost use Rattle.ng_session.specs.Session.{idleness, is_running};
ghost use Rattle.ng_session.specs.Operator.{activity_again, condition_of};
ghost use Rattle.ng_session.specs.Ticking.{activity_after, stopped_by};

use crate::reply::{Condition, Reply};
use ng_block::ProgramFlow;
use ng_layout::Source;

/// Whether the program runs (own).
#[derive(Clone, Copy)]
pub enum Activity {
    /// Nothing was started, or the program has ended.
    Idle,
    /// Its lines are begun one after another.
    Running,
    /// It waits to go on: after a stop, before a line that was refused, at the end of a text without a program end, or
    /// since the operator's own line ended a hold.
    Stopped,
}

impl Activity {
    /// Whether lines of the program are begun.
    pub fn is_running(self) -> bool
        ensures { result ≡ is_running self }
    {
        match self {
            Activity::Running => true,
            Activity::Idle | Activity::Stopped => false,
        }
    }

    /// The activity after a line of the operator. If the line ended a hold, a program that ran waits.
    pub(crate) fn laid_by(self, held: bool) -> Activity
        ensures { result ≡ (if held && is_running self then Activity.Stopped else self) }
    {
        if held && self.is_running() {
            Activity::Stopped
        } else {
            self
        }
    }

    /// The activity after a half-done block goes on. If the block is a line of the program, the program goes on too.
    pub(crate) fn again(self, source: Source) -> Activity
        ensures { result ≡ activity_again source self }
    {
        match source {
            Source::Program => Activity::Running,
            Source::Mdi => self,
        }
    }

    /// The reply of a session that has nothing to do.
    pub(crate) fn idleness(self) -> Reply
        ensures { result ≡ idleness self }
    {
        match self {
            Activity::Stopped => Reply::Stopped,
            Activity::Idle | Activity::Running => Reply::Idle,
        }
    }

    /// The condition that the status shows.
    pub(crate) fn condition(self) -> Condition
        ensures { result ≡ condition_of self }
    {
        match self {
            Activity::Idle => Condition::Idle,
            Activity::Running => Condition::Running,
            Activity::Stopped => Condition::Stopped,
        }
    }

    /// The activity after a block. The program's end ends the program, and its stops stop it, the optional one only if
    /// it is wanted. A line of the operator stops nothing.
    pub(crate) fn after(self, source: Source, stop: ProgramFlow, optional_stop: bool) -> Activity
        ensures { result ≡ activity_after source stop optional_stop self }
    {
        match stop {
            ProgramFlow::Ends => Activity::Idle,
            ProgramFlow::GoesOn => self,
            ProgramFlow::Stops => self.stopped_by(source, true),
            ProgramFlow::StopsIfWanted => self.stopped_by(source, optional_stop),
        }
    }

    /// The activity after a stop that may or may not be wanted.
    fn stopped_by(self, source: Source, wanted: bool) -> Activity
        ensures { result ≡ stopped_by source wanted self }
    {
        match source {
            Source::Program => if wanted { Activity::Stopped } else { self },
            Source::Mdi => self,
        }
    }
}
