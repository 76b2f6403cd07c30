//! A console from power on to its exit status.
ghost use Rattle.std.specs.Prelude.{◌≤◌};
ghost use Rattle.ng_run.specs.Consoles.{ConsoleSpec, RefuseSpec, ConsoleRunSpec};

use crate::ending::{ConsoleAbort, ConsoleEnd, status};
use crate::talking::talk;
use ng_core::power_on;
use ng_dialogue::tell_refusal;
use ng_num::Fault;
use ng_rig::Rig;
use ng_settings::Settings;
use std::alloc::Allocator;
use std::io::{Read, Write};

/// Powers on over a device, answers an operator's lines until they end or one asks to quit, and returns the exit status
/// and the device (own).
///
/// A line that isn't a command is refused, and so is what the controller refuses; the console continues. The exit
/// status is 0 if everything is answered. It is 2 if everything is answered but a call of the device failed; if power
/// on is refused, which is reported; or if the reader or the writer failed, or there was no memory for a line of the
/// operator or of an answer. In the last case a beginning of the answers is written. Each line is flushed. After a tick
/// whose line can't be written no tick is made. A tick reads nothing. It allocates for its line, and when it begins a
/// line of the program; if there is no memory for that, it is refused with M1.
pub fn console<I: Read, W: Write, R: Rig, A: Allocator + Copy + Drop>(
    alloc: A,
    reader: &mut I,
    writer: &mut W,
    rig: R,
    settings: Settings,
) -> (u8, R)
    ensures range { result.0 ≤ 2 }
    ensures console { ConsoleSpec A R.seen settings rig (I.remaining reader.old) (W.contents writer.old) (W.contents writer.new) result }
{
    let (ended, rig) = run(alloc, reader, writer, rig, settings);
    (status(&ended), rig)
}

/// Does what `console` does, and returns how it ended.
fn run<I: Read, W: Write, R: Rig, A: Allocator + Copy + Drop>(
    alloc: A,
    reader: &mut I,
    writer: &mut W,
    rig: R,
    settings: Settings,
) -> (Result<ConsoleEnd, ConsoleAbort>, R)
    ensures { ConsoleRunSpec A R.seen settings rig (I.remaining reader.old) (W.contents writer.old) (W.contents writer.new) result }
{
    match power_on(alloc, rig, settings) {
        Ok(controller) => {
            let mut controller = controller;
            let ended = talk(alloc, reader, writer, &mut controller);
            (ended, controller.into_rig())
        }
        Err((fault, rig)) => (refuse(alloc, writer, fault), rig),
    }
}

/// Reports why power on is refused.
fn refuse<W: Write, A: Allocator + Copy + Drop>(
    alloc: A,
    writer: &mut W,
    fault: Fault,
) -> Result<ConsoleEnd, ConsoleAbort>
    ensures { RefuseSpec fault result (W.contents writer.old) (W.contents writer.new) }
{
    match tell_refusal(alloc, writer, fault) {
        Ok(()) => Ok(ConsoleEnd::NotPowered),
        Err(_) => Err(ConsoleAbort::Output),
    }
}
