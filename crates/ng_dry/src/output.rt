//! Writing the text of a run.
ghost use Rattle.std.specs.Prelude.{◌≡◌, ◌++◌, ◌∷◌, [], map, OnOk, OnErr, codes};
ghost use Rattle.std.specs.Fmt.{decimal};
ghost use Rattle.ng_canon.specs.Printing.{StaysWithin, canonical, canonical_text, command_text, numeric};
ghost use Rattle.ng_dry.specs.Dry.{commands_text, refusal_text};
ghost use Rattle.ng_streams.specs.Waiting.{Wrote, FlushSpec};
ghost use Rattle.ng_block.specs.Effects.{commands_by};
ghost use Rattle.ng_block.specs.Path.{pace_command};
ghost use Rattle.ng_block.specs.Plan.{feed_commands};

use crate::ending::DryFault;
use ng_block::{Commands, Effect};
use ng_canon::{
    Canon, CanonicalCommand, Feed, Pace, StraightMove, print, print_command, print_feed,
    print_traverse,
};
use ng_num::{Fault, print_whole};
use std::alloc::{AllocError, Allocator};
use std::io::Write;

/// The text that waits is written once it has this many bytes.
const FULL: usize = 8192;

/// The most bytes that ever wait: text that isn't long yet, followed by the text of one command or refusal. The
/// longest of these is that of a comment, with fewer than 300 bytes. So a run with as many doesn't allocate for its
/// text.
pub(crate) const CAPACITY: usize = FULL + 512;

/// Writes the text that waits. After `DryFault::Writer` a beginning of it has been written.
pub(crate) fn flush<W: Write, A: Allocator + Copy + Drop>(
    text: &mut Vec<u8, A>,
    writer: &mut W,
) -> Result<(), DryFault>
    ensures moves { FlushSpec (W.contents writer.old) (W.contents writer.new) text.old.items text.new.items result }
    ensures empty { OnOk result (text.new.items ≡ []) }
{
    match ng_streams::flush(text, writer) {
        Ok(()) => Ok(()),
        Err(_) => Err(DryFault::Writer),
    }
}

/// Writes the text that waits if it is long. After `DryFault::Writer` a beginning of it has been written.
#[inline]
fn relieve<W: Write, A: Allocator + Copy + Drop>(
    text: &mut Vec<u8, A>,
    writer: &mut W,
) -> Result<(), DryFault>
    ensures { FlushSpec (W.contents writer.old) (W.contents writer.new) text.old.items text.new.items result }
{
    match ng_streams::relieve(text, writer, FULL) {
        Ok(()) => Ok(()),
        Err(_) => Err(DryFault::Writer),
    }
}

/// Writes the text that waits before a run is aborted. If the writer fails, that fault is returned instead.
pub(crate) fn break_off<W: Write, A: Allocator + Copy + Drop>(
    text: &mut Vec<u8, A>,
    writer: &mut W,
    fault: DryFault,
) -> DryFault
    ensures { Wrote (W.contents writer.old) (W.contents writer.new) text.old.items }
{
    match flush(text, writer) {
        Ok(()) => fault,
        Err(unwritten) => unwritten,
    }
}

/// Prints a command after the text that waits, and writes the text if it is long. Before `DryFault::Memory` the text
/// that waited is written. For callers of this crate alone: the programs run whole lines.
pub fn put_canon<W: Write, A: Allocator + Copy + Drop>(
    text: &mut Vec<u8, A>,
    writer: &mut W,
    canon: &Canon<'_>,
) -> Result<(), DryFault>
    ensures { FlushSpec (W.contents writer.old) (W.contents writer.new)
        (text.old.items ++ canonical_text (canonical canon.now)) text.new.items result }
{
    match print(text, canon) {
        Ok(()) => relieve(text, writer),
        Err(_) => Err(break_off(text, writer, DryFault::Memory)),
    }
}

/// Prints a command whose arguments are numbers as `put_canon` does, without a copy of the command. Few lines print one
/// besides their moves, so it isn't inlined.
#[inline(never)]
fn put_command<W: Write, A: Allocator + Copy + Drop>(
    text: &mut Vec<u8, A>,
    writer: &mut W,
    command: &CanonicalCommand,
) -> Result<(), DryFault>
    ensures { FlushSpec (W.contents writer.old) (W.contents writer.new) (text.old.items ++ command_text command.now) text.new.items result }
{
    match print_command(text, command) {
        Ok(()) => relieve(text, writer),
        Err(_) => Err(break_off(text, writer, DryFault::Memory)),
    }
}

/// Prints commands as they come, as `put_canon` does.
fn put_commands<W: Write, A: Allocator + Copy + Drop>(
    text: &mut Vec<u8, A>,
    writer: &mut W,
    commands: &mut Commands<'_>,
) -> Result<(), DryFault>
    ensures { FlushSpec (W.contents writer.old) (W.contents writer.new)
        (text.old.items ++ commands_text commands.old) text.new.items result }
{
    while let Some(canon) = commands.next() {
        match put_canon(text, writer, &canon) {
            Ok(()) => {}
            Err(fault) => return Err(fault),
        }
    }
    Ok(())
}

fn push_line_number<A: Allocator + Copy + Drop>(
    text: &mut Vec<u8, A>,
    before: &[u8],
    number: u64,
) -> Result<(), AllocError>
    ensures ok { OnOk result (text.new.items ≡ text.old.items ++ (before.now ++ decimal number ++ codes ": ")) }
    ensures err { OnErr result (StaysWithin text.old.items text.new.items) }
{
    text.extend_from_slice(before)?;
    print_whole(text, number)?;
    text.extend_from_slice(b": ")
}

fn push_line<A: Allocator + Copy + Drop>(
    text: &mut Vec<u8, A>,
    before: &[u8],
    number: u64,
    why: &[u8],
) -> Result<(), AllocError>
    ensures ok { OnOk result (text.new.items ≡ text.old.items ++ (before.now ++ decimal number ++ codes ": " ++ (why.now ++ codes "\n"))) }
    ensures err { OnErr result (StaysWithin text.old.items text.new.items) }
{
    push_line_number(text, before, number)?;
    text.extend_from_slice(why)?;
    text.extend_from_slice(b"\n")
}

/// Appends the command of a straight move. If the text can't grow, it is left as it was.
#[inline(always)]
fn print_straight<A: Allocator + Copy + Drop>(
    text: &mut Vec<u8, A>,
    line: &StraightMove,
) -> Result<(), AllocError>
    ensures ok { OnOk result (text.new.items ≡ text.old.items ++ command_text (pace_command line.now.pace line.now.end)) }
    ensures err { OnErr result (text.new.items ≡ text.old.items) }
{
    match line.pace {
        Pace::Traverse => print_traverse(text, line.end),
        Pace::Feed(_) => print_feed(text, line.end),
        Pace::InverseTime(_) => print_feed(text, line.end),
    }
}

/// Prints a straight move as `put_canon` does, without building a command.
#[inline(always)]
fn put_straight<W: Write, A: Allocator + Copy + Drop>(
    text: &mut Vec<u8, A>,
    writer: &mut W,
    line: &StraightMove,
) -> Result<(), DryFault>
    ensures { FlushSpec (W.contents writer.old) (W.contents writer.new)
        (text.old.items ++ command_text (pace_command line.now.pace line.now.end)) text.new.items result }
{
    match print_straight(text, line) {
        Ok(()) => relieve(text, writer),
        Err(_) => Err(break_off(text, writer, DryFault::Memory)),
    }
}

/// Prints the feed that a line sets, and its move, as `put_canon` does.
#[inline(always)]
fn put_move<W: Write, A: Allocator + Copy + Drop>(
    text: &mut Vec<u8, A>,
    writer: &mut W,
    feed_per_min: Option<Feed>,
    line: &StraightMove,
) -> Result<(), DryFault>
    ensures { FlushSpec (W.contents writer.old) (W.contents writer.new)
        (text.old.items ++ commands_text
        (map numeric
        (feed_commands feed_per_min ++ pace_command line.now.pace line.now.end ∷ []))) text.new.items result }
{
    match feed_per_min {
        None => put_straight(text, writer, line),
        Some(feed_per_min) => match put_command(
            text,
            writer,
            &CanonicalCommand::FeedRate(feed_per_min),
        ) {
            Ok(()) => put_straight(text, writer, line),
            Err(fault) => Err(fault),
        },
    }
}

/// Prints all commands of a line, as `put_canon` does. It isn't inlined, so that lines that just move don't pay for its
/// local variables.
#[inline(never)]
fn put_all<W: Write, A: Allocator + Copy + Drop>(
    text: &mut Vec<u8, A>,
    writer: &mut W,
    effect: &Effect,
) -> Result<(), DryFault>
    ensures { FlushSpec (W.contents writer.old) (W.contents writer.new)
        (text.old.items ++ commands_text (commands_by effect.now)) text.new.items result }
{
    put_commands(text, writer, &mut effect.commands())
}

/// Prints what a line does, as `put_canon` does. For nearly every line this is one move.
#[inline(always)]
pub(crate) fn put_effect<W: Write, A: Allocator + Copy + Drop>(
    text: &mut Vec<u8, A>,
    writer: &mut W,
    effect: &Effect,
) -> Result<(), DryFault>
    ensures { FlushSpec (W.contents writer.old) (W.contents writer.new)
        (text.old.items ++ commands_text (commands_by effect.now)) text.new.items result }
{
    match effect.only_move() {
        Some((feed_per_min, line)) => put_move(text, writer, feed_per_min, line),
        None => put_all(text, writer, effect),
    }
}

/// Prints the line that says which line is refused, and why, and writes all text that waits.
pub(crate) fn put_refusal<W: Write, A: Allocator + Copy + Drop>(
    text: &mut Vec<u8, A>,
    writer: &mut W,
    number: u64,
    fault: Fault,
) -> Result<(), DryFault>
    ensures drains { FlushSpec (W.contents writer.old) (W.contents writer.new)
        (text.old.items ++ refusal_text number fault) text.new.items result }
    ensures empty { OnOk result (text.new.items ≡ []) }
{
    match print_refusal(text, number, fault) {
        Ok(()) => flush(text, writer),
        Err(_) => Err(break_off(text, writer, DryFault::Memory)),
    }
}

/// Appends the line that says which line is refused, and why. If the text can't grow, it is left as it was.
fn print_refusal<A: Allocator + Copy + Drop>(
    text: &mut Vec<u8, A>,
    number: u64,
    fault: Fault,
) -> Result<(), AllocError>
    ensures ok { OnOk result (text.new.items ≡ text.old.items ++ refusal_text number fault) }
    ensures err { OnErr result (text.new.items ≡ text.old.items) }
{
    let before = text.len();
    match push_line(text, b"REFUSED line ", number, fault.text()) {
        Ok(()) => Ok(()),
        Err(refused) => {
            text.truncate(before);
            Err(refused)
        }
    }
}
