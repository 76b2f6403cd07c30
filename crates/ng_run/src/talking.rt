//! The lines of an operator, one after the other.
ghost use Rattle.std.specs.Prelude.{◌≡◌, true};
ghost use Rattle.ng_dialogue.specs.Waiting.{EndHolds, text_left};
ghost use Rattle.ng_run.specs.Consoles.{Conversation};
ghost use Rattle.ng_run.specs.Ending.{ended_by};

use crate::answering::answer;
use crate::ending::{ConsoleAbort, ConsoleEnd, ended_by};
use ng_core::Controller;
use ng_dialogue::{Input, next_order};
use ng_rig::Rig;
use std::alloc::Allocator;
use std::io::{Read, Write};

/// Answers what a text asks, until it ends or asks to quit.
pub(crate) fn talk<I: Read, W: Write, R: Rig, A: Allocator + Copy + Drop>(
    alloc: A,
    reader: &mut I,
    writer: &mut W,
    controller: &mut Controller<R, A>,
) -> Result<ConsoleEnd, ConsoleAbort>
    ensures { Conversation A R.seen result (I.remaining reader.old) (W.contents writer.old)
        (W.contents writer.new) controller.old controller.new }
{
    let mut input = Input::new();
    talk_on(alloc, &mut input, reader, writer, controller)
}

/// Answers what a text asks after what was read before, until it ends or asks to quit. The end of the text is final: if
/// it was found before, nothing is read, nothing is written and the controller is given nothing.
fn talk_on<I: Read, W: Write, R: Rig, A: Allocator + Copy + Drop>(
    alloc: A,
    input: &mut Input,
    reader: &mut I,
    writer: &mut W,
    controller: &mut Controller<R, A>,
) -> Result<ConsoleEnd, ConsoleAbort>
    ensures talk { Conversation A R.seen result (text_left input.old (I.remaining reader.old))
        (W.contents writer.old) (W.contents writer.new) controller.old controller.new }
    ensures holds { EndHolds input.old (I.remaining reader.old) → EndHolds input.new (I.remaining reader.new) }
    ensures last { input.old.ended ≡ true → (result ≡ Ok (ended_by controller.old.journal.broken))
        × (reader.new ≡ reader.old) × (writer.new ≡ writer.old) × (controller.new ≡ controller.old) }
{
    for _pass in 0..u64::MAX {
        match next_order(alloc, input, reader) {
            Ok(Some(order)) => match answer(alloc, writer, controller, order) {
                Ok(()) => {}
                Err(_) => return Err(ConsoleAbort::Output),
            },
            Ok(None) => return Ok(ended_by(controller.broken())),
            Err(_) => return Err(ConsoleAbort::Input),
        }
    }
    Err(ConsoleAbort::Input)
}
