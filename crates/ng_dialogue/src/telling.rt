//! Writing the lines of replies. An operator waits for each of them, so nothing is buffered.
ghost use Rattle.ng_commands.specs.Replies.{refused_line, reply_line, tick_line, ticks_line};
ghost use Rattle.ng_streams.specs.Writing.{WritesOrBeginning};

use ng_commands::{push_refusal, push_reply, push_tick, push_ticks};
use ng_num::Fault;
use ng_session::Reply;
use ng_streams::write_out;
use std::alloc::Allocator;
use std::io::Write;

/// Why a reply wasn't written. A beginning of it may have been.
#[derive(Clone, Copy, Debug, PartialEq, Eq)]
pub enum OutputError {
    /// A write or a flush failed, or a write accepted no byte.
    Writer,
    /// There was no memory for the line: nothing of it is written.
    Memory,
}

/// Writes a line, and flushes it. After `OutputError::Writer` a beginning of it has been written.
fn send<W: Write>(writer: &mut W, line: &[u8]) -> Result<(), OutputError>
    ensures { WritesOrBeginning (W.contents writer.old) (W.contents writer.new) line.now result }
{
    match write_out(writer, line) {
        Ok(()) => match writer.flush() {
            Ok(()) => Ok(()),
            Err(_) => Err(OutputError::Writer),
        },
        Err(_) => Err(OutputError::Writer),
    }
}

/// Writes the line of a reply, and flushes it. After an error a beginning of it has been written. Source: own.
pub fn tell_reply<W: Write, A: Allocator + Copy + Drop>(
    alloc: A,
    writer: &mut W,
    reply: &Reply,
) -> Result<(), OutputError>
    ensures { WritesOrBeginning (W.contents writer.old) (W.contents writer.new) (reply_line reply.now) result }
{
    let mut line = Vec::new(alloc);
    match push_reply(&mut line, reply) {
        Ok(()) => send(writer, line.as_slice()),
        Err(_) => Err(OutputError::Memory),
    }
}

/// Writes the line of a refusal, and flushes it. After an error a beginning of it has been written. Source: own.
pub fn tell_refusal<W: Write, A: Allocator + Copy + Drop>(
    alloc: A,
    writer: &mut W,
    fault: Fault,
) -> Result<(), OutputError>
    ensures { WritesOrBeginning (W.contents writer.old) (W.contents writer.new) (refused_line fault) result }
{
    let mut line = Vec::new(alloc);
    match push_refusal(&mut line, fault) {
        Ok(()) => send(writer, line.as_slice()),
        Err(_) => Err(OutputError::Memory),
    }
}

/// Writes the line of a tick's reply, and flushes it; writes nothing if the reply has no line. After an error a
/// beginning of it has been written. Source: own.
pub fn tell_tick<W: Write, A: Allocator + Copy + Drop>(
    alloc: A,
    writer: &mut W,
    reply: &Reply,
) -> Result<(), OutputError>
    ensures { WritesOrBeginning (W.contents writer.old) (W.contents writer.new) (tick_line reply.now) result }
{
    let mut line = Vec::new(alloc);
    match push_tick(&mut line, reply) {
        Ok(()) => send(writer, line.as_slice()),
        Err(_) => Err(OutputError::Memory),
    }
}

/// Writes the line after a command of ticks, and flushes it. After an error a beginning of it has been written. Source:
/// own.
pub fn tell_ticks<W: Write, A: Allocator + Copy + Drop>(
    alloc: A,
    writer: &mut W,
    count: u32,
) -> Result<(), OutputError>
    ensures { WritesOrBeginning (W.contents writer.old) (W.contents writer.new) (ticks_line count) result }
{
    let mut line = Vec::new(alloc);
    match push_ticks(&mut line, count) {
        Ok(()) => send(writer, line.as_slice()),
        Err(_) => Err(OutputError::Memory),
    }
}
