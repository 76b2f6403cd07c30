//! The lines of replies. Each function appends to a text; after an error part of the line may have been appended.
ghost use Rattle.std.specs.Prelude.{◌≡◌, ◌++◌, OnOk, codes};
ghost use Rattle.ng_num.specs.Printing.{number_text};
ghost use Rattle.ng_commands.specs.Replies.{between, condition_text, counts_text, done_line, continues_ticks, half_text, known_text, point_text, refused_line, reply_line, source_text, machine_text, status_line, tick_line, ticks_line};

use ng_layout::Source;
use ng_num::{Fault, Len, Point, print_length, print_whole};
use ng_session::{Condition, HalfShown, Reply, Status};
use std::alloc::{AllocError, Allocator};

fn known_text(is_known: bool) -> &'static [u8]
    ensures { result.now ≡ known_text is_known }
{
    if is_known { b"known" } else { b"unknown" }
}

fn source_text(source: Source) -> &'static [u8]
    ensures { result.now ≡ source_text source }
{
    match source {
        Source::Program => b"program ",
        Source::Mdi => b"mdi ",
    }
}

fn condition_text(condition: Condition) -> &'static [u8]
    ensures { result.now ≡ condition_text condition }
{
    match condition {
        Condition::Idle => b" idle\n",
        Condition::Running => b" running\n",
        Condition::Stopped => b" stopped\n",
        Condition::Held => b" held\n",
        Condition::Broken => b" broken\n",
    }
}

/// Appends a length in millimetres and the blank after it.
fn push_length<A: Allocator + Copy + Drop>(
    text: &mut Vec<u8, A>,
    length: Len,
) -> Result<(), AllocError>
    ensures { OnOk result (text.new.items ≡ text.old.items ++ (number_text length ++ codes " ")) }
{
    print_length(text, length, *b"  ")?;
    text.pop();
    Ok(())
}

/// Appends the three coordinates of a point, a blank after each.
fn push_point<A: Allocator + Copy + Drop>(
    text: &mut Vec<u8, A>,
    point: &Point,
) -> Result<(), AllocError>
    ensures { OnOk result (text.new.items ≡ text.old.items ++ point_text point.now) }
{
    push_length(text, point.x)?;
    push_length(text, point.y)?;
    push_length(text, point.z)
}

/// Appends a half-done block.
fn push_half<A: Allocator + Copy + Drop>(
    text: &mut Vec<u8, A>,
    half: Option<HalfShown>,
) -> Result<(), AllocError>
    ensures { OnOk result (text.new.items ≡ text.old.items ++ half_text half) }
{
    match half {
        None => text.extend_from_slice(b"none"),
        Some(half) => {
            text.extend_from_slice(source_text(half.source))?;
            print_whole(text, half.index)
        }
    }
}

/// Appends a number with words before and after it.
fn push_between<A: Allocator + Copy + Drop>(
    text: &mut Vec<u8, A>,
    before: &[u8],
    number: u64,
    after: &[u8],
) -> Result<(), AllocError>
    ensures { OnOk result (text.new.items ≡ text.old.items ++ between before.now number after.now) }
{
    text.extend_from_slice(before)?;
    print_whole(text, number)?;
    text.extend_from_slice(after)
}

/// Appends the number of entries and the place.
fn push_counts<A: Allocator + Copy + Drop>(
    text: &mut Vec<u8, A>,
    status: &Status,
) -> Result<(), AllocError>
    ensures { OnOk result (text.new.items ≡ text.old.items ++ counts_text status.now) }
{
    push_between(text, b"status entries ", status.entries, b" place ")?;
    push_between(text, b"", status.place, b" at ")
}

/// Appends the machine's position, and whether it is known.
fn push_machine<A: Allocator + Copy + Drop>(
    text: &mut Vec<u8, A>,
    status: &Status,
) -> Result<(), AllocError>
    ensures { OnOk result (text.new.items ≡ text.old.items ++ machine_text status.now) }
{
    push_point(text, &status.point)?;
    text.extend_from_slice(known_text(status.point_known))?;
    text.extend_from_slice(b" half ")
}

/// Appends the line of a status.
fn push_status<A: Allocator + Copy + Drop>(
    text: &mut Vec<u8, A>,
    status: &Status,
) -> Result<(), AllocError>
    ensures { OnOk result (text.new.items ≡ text.old.items ++ status_line status.now) }
{
    push_counts(text, status)?;
    push_machine(text, status)?;
    push_half(text, status.half)?;
    text.extend_from_slice(condition_text(status.condition))
}

/// Appends the line of a refusal: `refused`, the fault's number and its name. Source: own.
pub fn push_refusal<A: Allocator + Copy + Drop>(
    text: &mut Vec<u8, A>,
    fault: Fault,
) -> Result<(), AllocError>
    ensures { OnOk result (text.new.items ≡ text.old.items ++ refused_line fault) }
{
    text.extend_from_slice(b"refused ")?;
    text.extend_from_slice(fault.text())?;
    text.extend_from_slice(b"\n")
}

/// Appends the line of a committed entry.
fn push_done<A: Allocator + Copy + Drop>(
    text: &mut Vec<u8, A>,
    entries: u64,
) -> Result<(), AllocError>
    ensures { OnOk result (text.new.items ≡ text.old.items ++ done_line entries) }
{
    text.extend_from_slice(b"done ")?;
    print_whole(text, entries)?;
    text.extend_from_slice(b"\n")
}

/// Appends the line of a reply. Moved and Opened, which only a tick returns, have none. Source: own.
pub fn push_reply<A: Allocator + Copy + Drop>(
    text: &mut Vec<u8, A>,
    reply: &Reply,
) -> Result<(), AllocError>
    ensures { OnOk result (text.new.items ≡ text.old.items ++ reply_line reply.now) }
{
    match reply {
        Reply::Done(entries) => push_done(text, *entries),
        Reply::Going => text.extend_from_slice(b"going\n"),
        Reply::Held => text.extend_from_slice(b"held\n"),
        Reply::Idle => text.extend_from_slice(b"idle\n"),
        Reply::Stopped => text.extend_from_slice(b"stopped\n"),
        Reply::Begun => text.extend_from_slice(b"begun\n"),
        Reply::Taken => text.extend_from_slice(b"taken\n"),
        Reply::Moved | Reply::Opened(_) | Reply::Approaching => Ok(()),
        Reply::Status(status) => push_status(text, status),
        Reply::Refused(fault) => push_refusal(text, *fault),
    }
}

/// Appends the line of a tick's reply. The beginning of a line of the program has none. Source: own.
pub fn push_tick<A: Allocator + Copy + Drop>(
    text: &mut Vec<u8, A>,
    reply: &Reply,
) -> Result<(), AllocError>
    ensures { OnOk result (text.new.items ≡ text.old.items ++ tick_line reply.now) }
{
    match reply {
        Reply::Begun => Ok(()),
        _ => push_reply(text, reply),
    }
}

/// Appends the line after a command of ticks: how many were made. Source: own.
pub fn push_ticks<A: Allocator + Copy + Drop>(
    text: &mut Vec<u8, A>,
    count: u32,
) -> Result<(), AllocError>
    ensures { OnOk result (text.new.items ≡ text.old.items ++ ticks_line count) }
{
    text.extend_from_slice(b"ticks ")?;
    print_whole(text, count as u64)?;
    text.extend_from_slice(b"\n")
}

/// Whether a command of ticks continues after this reply: not after Idle, Held, Stopped or a refusal. Source: own.
pub fn continues_ticks(reply: &Reply) -> bool
    ensures { result ≡ continues_ticks reply.now }
{
    match reply {
        Reply::Idle | Reply::Held | Reply::Stopped | Reply::Refused(_) => false,
        _ => true,
    }
}
