//! Reading commands from lines.
ghost use Rattle.std.specs.Prelude.{◌≡◌, ◌≤◌, ◌<◌, ℕ, MatchOption, length};
ghost use Rattle.ng_commands.specs.Commands.{SpellsCommand, IsCommand, IsNoCommand, IsNoSwitch, IsPlain, AreDigitsOf};
ghost use Rattle.ng_commands.specs.declared.asked.ConsoleCommand.{ConsoleCommand};

use crate::asked::{ConsoleCommand, LONGEST};
use crate::digits::whole;
use crate::lengths::{point, slot_and_length};
use crate::words::{is, strip_prefix};

/// The most digits of a program's length.
const LENGTH_DIGITS: usize = 7;

/// The greatest number with this many digits.
const GREATEST_LENGTH: u32 = 9_999_999;

/// The most ticks of one command.
const MOST_TICKS: u32 = 1_000_000;

/// The command in a line, without the line's end. `None` if the line isn't a command. Nothing is trimmed: a carriage
/// return counts as part of the line. Source: own.
#[tactic(auto, using(crate::proofs::CommandStartLemmas::not_loaded, crate::proofs::CommandStartLemmas::not_ticked, crate::proofs::CommandStartLemmas::not_asked))]
pub fn command_of(line: &[u8]) -> Option<ConsoleCommand<'_>>
    ensures { MatchOption result (IsNoCommand line.now) (IsCommand line.now) }
{
    if line.len() > LONGEST {
        return None;
    }
    if let Some(text) = strip_prefix(line, b"mdi ") {
        return Some(ConsoleCommand::Mdi(text));
    }
    if let Some(digits) = strip_prefix(line, b"load ") {
        return match loading(digits) {
            Some(length) => Some(ConsoleCommand::Load(length)),
            None => None,
        };
    }
    if let Some(digits) = strip_prefix(line, b"tick ") {
        return match ticks(digits) {
            Some(ticks) => Some(ConsoleCommand::Tick(ticks)),
            None => None,
        };
    }
    if let Some(words) = strip_prefix(line, b"reference ") {
        return match point(words) {
            Some(point) => Some(ConsoleCommand::Reference(point)),
            None => None,
        };
    }
    if let Some(words) = strip_prefix(line, b"tool ") {
        return match slot_and_length(words) {
            Some((slot, length)) => Some(ConsoleCommand::Tool(slot, length)),
            None => None,
        };
    }
    plain(line)
}

/// The length of a program, from its digits.
#[tactic(auto, using(crate::proofs::DigitSizeLemmas::no_length))]
fn loading(digits: &[u8]) -> Option<u32>
    ensures { MatchOption result ((n : ℕ) → AreDigitsOf digits.now n → length digits.now ≤ 7 → ⊥)
        (λ n. AreDigitsOf digits.now n × (length digits.now ≤ 7)) }
{
    if digits.len() > LENGTH_DIGITS {
        return None;
    }
    match whole(digits, GREATEST_LENGTH) {
        Some(length) => Some(length),
        None => None,
    }
}

/// The number of ticks, from its digits.
fn ticks(digits: &[u8]) -> Option<u32>
    ensures { MatchOption result ((n : ℕ) → AreDigitsOf digits.now n → 1 ≤ n → n ≤ 1_000_000 → ⊥)
        (λ n. AreDigitsOf digits.now n × (1 ≤ n) × (n ≤ 1_000_000)) }
{
    match whole(digits, MOST_TICKS) {
        None | Some(0) => None,
        Some(ticks) => Some(ticks),
    }
}

/// The command of these words, if it is one with fixed words.
#[tactic(auto, using(crate::proofs::CommandStartLemmas::plain_of))]
fn plain(line: &[u8]) -> Option<ConsoleCommand<'static>>
    ensures { MatchOption result ((c : ConsoleCommand) → IsPlain c → SpellsCommand line.now c → ⊥) (λ c. SpellsCommand line.now c) }
{
    if is(line, b"start") {
        return Some(ConsoleCommand::Start);
    }
    if is(line, b"hold") {
        return Some(ConsoleCommand::Hold);
    }
    if is(line, b"continue") {
        return Some(ConsoleCommand::Continue);
    }
    if is(line, b"resume") {
        return Some(ConsoleCommand::Resume);
    }
    if is(line, b"abandon") {
        return Some(ConsoleCommand::Abandon);
    }
    if is(line, b"status") {
        return Some(ConsoleCommand::Status);
    }
    if is(line, b"quit") {
        return Some(ConsoleCommand::Quit);
    }
    switch(line)
}

/// The switch that these words turn.
fn switch(line: &[u8]) -> Option<ConsoleCommand<'static>>
    ensures { MatchOption result (IsNoSwitch line.now) (SpellsCommand line.now) }
{
    if is(line, b"optional on") {
        return Some(ConsoleCommand::OptionalStop(true));
    }
    if is(line, b"optional off") {
        return Some(ConsoleCommand::OptionalStop(false));
    }
    if is(line, b"delete on") {
        return Some(ConsoleCommand::BlockDelete(true));
    }
    if is(line, b"delete off") {
        return Some(ConsoleCommand::BlockDelete(false));
    }
    None
}
