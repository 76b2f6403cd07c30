//! What the console is asked to do, line by line.
ghost use Rattle.std.specs.Prelude.{◌≡◌, true, IfOk};
ghost use Rattle.ng_dialogue.specs.Hearing.{AfterCommand, TakesCommand, TakesOrder};
ghost use Rattle.ng_dialogue.specs.Waiting.{EndHolds, text_left};

use crate::bytes::{TakenBytes, take_bytes};
use crate::input::{Input, ReadError};
use crate::listening::next_line;
use crate::order::Order;
use arrayvec::ArrayVec;
use ng_commands::{ConsoleCommand, command_of};
use ng_num::Fault;
use ng_session::{Event, Text};
use std::alloc::{AllocError, Allocator};
use std::io::Read;

/// Why no more lines are read.
#[derive(Clone, Copy, Debug, PartialEq, Eq)]
pub enum InputError {
    /// A read failed, or more than 1,000,000,000 reads were needed.
    Reader,
    /// There was no memory for a line of the operator.
    Memory,
}

impl From<ReadError> for InputError {
    fn from(_: ReadError) -> InputError
        ensures { result ≡ InputError.Reader }
    {
        InputError::Reader
    }
}

impl From<AllocError> for InputError {
    fn from(_: AllocError) -> InputError
        ensures { result ≡ InputError.Memory }
    {
        InputError::Memory
    }
}

/// Takes the program with this length that a command asks to store.
fn load<R: Read, A: Allocator + Copy + Drop>(
    alloc: A,
    input: &mut Input,
    reader: &mut R,
    length: u32,
) -> Result<Order<A>, ReadError>
    ensures order { IfOk result
        (λ order. AfterCommand (ConsoleCommand.Load length) (text_left input.old (R.remaining reader.old))
        (text_left input.new (R.remaining reader.new)) order) }
    ensures holds { EndHolds input.old (R.remaining reader.old) → EndHolds input.new (R.remaining reader.new) }
    ensures last { input.old.ended ≡ true → (input.new ≡ input.old) × (reader.new ≡ reader.old) }
{
    let mut text = Vec::new(alloc);
    match take_bytes(input, reader, length, &mut text)? {
        TakenBytes::Whole => Ok(Order::Give(Event::Load(Text::of(text)))),
        TakenBytes::NoMemory => Ok(Order::Refuse(Fault::OutOfMemory)),
        TakenBytes::Cut => Ok(Order::Refuse(Fault::BadCommand)),
    }
}

/// What a command asks. `None` if it ends the dialogue. A load takes the program after its line.
fn ask<R: Read, A: Allocator + Copy + Drop>(
    alloc: A,
    input: &mut Input,
    reader: &mut R,
    command: &ConsoleCommand<'_>,
) -> Result<Option<Order<A>>, InputError>
    ensures order { IfOk result
        (TakesCommand command.now (text_left input.old (R.remaining reader.old))
        (text_left input.new (R.remaining reader.new))) }
    ensures holds { EndHolds input.old (R.remaining reader.old) → EndHolds input.new (R.remaining reader.new) }
    ensures last { input.old.ended ≡ true → (input.new ≡ input.old) × (reader.new ≡ reader.old) }
{
    let event = match command {
        ConsoleCommand::Load(length) => {
            let order = load(alloc, input, reader, *length)?;
            return Ok(Some(order));
        }
        ConsoleCommand::Tick(count) => return Ok(Some(Order::Ticks(*count))),
        ConsoleCommand::Quit => return Ok(None),
        ConsoleCommand::Mdi(line) => Event::Mdi(Text::of(Vec::from_slice(alloc, line)?)),
        ConsoleCommand::Start => Event::Start,
        ConsoleCommand::Hold => Event::Hold,
        ConsoleCommand::Continue => Event::Continue,
        ConsoleCommand::Reference(point) => Event::Reference(*point),
        ConsoleCommand::Resume => Event::Resume,
        ConsoleCommand::Abandon => Event::Abandon,
        ConsoleCommand::Tool(slot, length) => Event::Tool(*slot, *length),
        ConsoleCommand::OptionalStop(is_on) => Event::OptionalStop(*is_on),
        ConsoleCommand::BlockDelete(is_on) => Event::BlockDelete(*is_on),
        ConsoleCommand::Status => Event::Status,
    };
    Ok(Some(Order::Give(event)))
}

/// Takes the next line and what it asks. `None` at the end of the text, or after `quit`.
///
/// The text ends when a read returns no byte. That is final: from then on the reader isn't called, and the result is
/// `None`. A line that isn't a command is refused with U1, and so is a program that is cut off by the end of the text.
/// A program is refused with M1 if there is no memory for it; then its bytes are skipped. `InputError` if the reader
/// failed, or if there was no memory for a line of the operator. Other lines don't allocate. Source: own.
pub fn next_order<R: Read, A: Allocator + Copy + Drop>(
    alloc: A,
    input: &mut Input,
    reader: &mut R,
) -> Result<Option<Order<A>>, InputError>
    ensures order { IfOk result (TakesOrder (text_left input.old (R.remaining reader.old)) (text_left input.new (R.remaining reader.new))) }
    ensures holds { EndHolds input.old (R.remaining reader.old) → EndHolds input.new (R.remaining reader.new) }
    ensures last { input.old.ended ≡ true → (result ≡ Ok None) × (input.new ≡ input.old) × (reader.new ≡ reader.old) }
{
    let mut line = ArrayVec::new();
    if !next_line(input, reader, &mut line)? {
        return Ok(None);
    }
    match command_of(line.as_slice()) {
        None => Ok(Some(Order::Refuse(Fault::BadCommand))),
        Some(command) => ask(alloc, input, reader, &command),
    }
}
