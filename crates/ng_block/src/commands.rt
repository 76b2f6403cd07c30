//! A block's commands, one at a time.
ghost use Rattle.std.specs.Prelude.{◌≡◌, ◌∷◌, ◌++◌, [], map, MatchOption};
ghost use Rattle.ng_canon.specs.Printing.{canonical, numeric};
ghost use Rattle.ng_block.specs.Commands.{remark_left, action_commands_left, stop_commands_left, numeric_left, rest_commands};
ghost use Rattle.ng_block.specs.Effects.{commands_by};

use crate::action::Action;
use crate::effect::Effect;
use crate::ends::{StopCommands, put_stop};
use crate::path::{PathSegments, command_of};
use crate::remark::Remark;
use ng_canon::{Canon, CanonicalCommand};
use std::marker::Model;

/// What is left of a block's commands.
#[derive(Drop)]
struct CommandsLeft<'a> {
    remark: &'a Remark,
    /// Whether the remark is still to come.
    has_remark: bool,
    /// The command before those of `actions`: of the feed, or the second one of an action.
    waiting: Option<CanonicalCommand>,
    /// The actions that haven't begun.
    actions: &'a [Action],
    /// The segments of the motion.
    moves: PathSegments,
    /// The commands of the stop, from `taken` on.
    stop: StopCommands,
    taken: usize,
}

/// The remaining commands of a block, in order.
#[derive(Drop)]
pub struct Commands<'a> {
    rest: CommandsLeft<'a>,
}

impl<'a> Model for Commands<'a> {
    ghost use Rattle.std.specs.Prelude.{List};
    ghost use Rattle.ng_canon.specs.Printing.{CanonModel};
    ghost use Rattle.ng_block.specs.Commands.{rest_commands};

    ghost Value = { List CanonModel };

    ghost view = { λ c. rest_commands c.rest };
}

impl Effect {
    /// Its commands, in order.
    pub fn commands(&self) -> Commands<'_>
        ensures { result ≡ commands_by self.now }
    {
        let plan = &self.plan;
        let mut stop = StopCommands::new();
        put_stop(plan.stop, self.modal.offsets.origin, &mut stop);
        Commands {
            rest: CommandsLeft {
                remark: &plan.remark,
                has_remark: true,
                waiting: plan.feed.map(CanonicalCommand::FeedRate),
                actions: plan.actions.as_slice(),
                moves: PathSegments::of(&plan.path),
                stop,
                taken: 0,
            },
        }
    }
}

impl<'a> CommandsLeft<'a> {
    /// The next command of the feed and the actions.
    fn next_of_actions(&mut self) -> Option<CanonicalCommand>
        ensures remark { remark_left self.new ≡ remark_left self.old }
        ensures moves { self.new.moves ≡ self.old.moves }
        ensures stop { stop_commands_left self.new ≡ stop_commands_left self.old }
        ensures next { MatchOption result
            ((action_commands_left self.old ≡ []) × (action_commands_left self.new ≡ []))
            (λ command. action_commands_left self.old ≡ command ∷ action_commands_left self.new) }
    {
        if let Some(command) = self.waiting {
            self.waiting = None;
            return Some(command);
        }
        let [action, later @ ..] = self.actions else {
            return None;
        };
        self.actions = later;
        let (command, second) = action.commands();
        self.waiting = second;
        Some(command)
    }

    /// The next command of the stop.
    fn next_of_stop(&mut self) -> Option<CanonicalCommand>
        ensures remark { remark_left self.new ≡ remark_left self.old }
        ensures actions { action_commands_left self.new ≡ action_commands_left self.old }
        ensures moves { self.new.moves ≡ self.old.moves }
        ensures next { MatchOption result
            ((stop_commands_left self.old ≡ []) × (stop_commands_left self.new ≡ []))
            (λ command. stop_commands_left self.old ≡ command ∷ stop_commands_left self.new) }
    {
        if self.taken < self.stop.len() {
            let command = self.stop.as_slice()[self.taken];
            self.taken += 1;
            Some(command)
        } else {
            None
        }
    }

    /// The next command but the remark.
    fn next_numeric(&mut self) -> Option<CanonicalCommand>
        ensures remark { remark_left self.new ≡ remark_left self.old }
        ensures next { MatchOption result
            ((numeric_left self.old ≡ []) × (numeric_left self.new ≡ []))
            (λ command. numeric_left self.old ≡ command ∷ numeric_left self.new) }
    {
        if let Some(command) = self.next_of_actions() {
            return Some(command);
        }
        match self.moves.next() {
            Some(segment) => Some(command_of(&segment)),
            None => self.next_of_stop(),
        }
    }

    /// The next command.
    fn next(&mut self) -> Option<Canon<'a>>
        ensures { MatchOption result
            ((rest_commands self.old ≡ []) × (rest_commands self.new ≡ []))
            (λ canon. rest_commands self.old ≡ canonical canon ∷ rest_commands self.new) }
    {
        if self.has_remark {
            self.has_remark = false;
            if let Some(remark) = self.remark.command() {
                return Some(remark);
            }
        }
        match self.next_numeric() {
            Some(command) => Some(Canon::Command(command)),
            None => None,
        }
    }
}

impl<'a> Commands<'a> {
    /// The next command.
    pub fn next(&mut self) -> Option<Canon<'a>>
        ensures { MatchOption result ((self.old ≡ []) × (self.new ≡ [])) (λ canon. self.old ≡ canonical canon ∷ self.new) }
    {
        self.rest.next()
    }
}
