//! Lines from a reader.
ghost use Rattle.std.specs.Prelude.{◌≡◌, ◌++◌, take, true, false, IfOk};
ghost use Rattle.std.specs.Io.KnownBytes.{IsAtEnd};
ghost use Rattle.ng_dialogue.specs.Reading.{TakesLine};
ghost use Rattle.ng_dialogue.specs.Waiting.{EndHolds, text_left};

use crate::input::{Input, ReadError};
use arrayvec::ArrayVec;
use ng_commands::LONGEST;
use ng_text::split_line;
use std::io::Read;

/// The most bytes of the head of a line: one more than a command can have.
pub(crate) const COMMAND_HEAD: usize = 301;

/// Keeps as many bytes as fit.
fn keep(line: &mut ArrayVec<u8, COMMAND_HEAD>, bytes: &[u8])
    ensures { line.new.items ≡ take 301 (line.old.items ++ bytes.now) }
{
    let free = COMMAND_HEAD - line.len();
    let head = bytes.len().min(free);
    let Ok(()) = line.try_extend_from_slice(&bytes[..head]) else {
        unreachable!()
    };
}

/// Takes the next line, and keeps its first 301 bytes. Returns false at the end of the text, if no line follows. The
/// last line may have no newline. If the text has ended, the reader isn't called.
pub(crate) fn next_line<R: Read>(
    input: &mut Input,
    reader: &mut R,
    line: &mut ArrayVec<u8, COMMAND_HEAD>,
) -> Result<bool, ReadError>
    ensures some { IfOk result
        (λ more. more ≡ true → TakesLine 301 (text_left input.old (R.remaining reader.old))
        (text_left input.new (R.remaining reader.new)) line.new.items) }
    ensures end { IfOk result (λ more. more ≡ false → IsAtEnd (text_left input.old (R.remaining reader.old)) × (input.new.ended ≡ true)) }
    ensures holds { EndHolds input.old (R.remaining reader.old) → EndHolds input.new (R.remaining reader.new) }
    ensures last { input.old.ended ≡ true → (result ≡ Ok false) × (input.new ≡ input.old) × (reader.new ≡ reader.old) }
{
    line.clear();
    for _pass in 0..u64::MAX {
        if !input.fill(reader)? {
            return Ok(!line.is_empty());
        }
        let waiting = input.waiting();
        match split_line(waiting) {
            Some((front, _)) => {
                let taken = front.len() + 1;
                keep(line, front);
                input.consume(taken);
                return Ok(true);
            }
            None => {
                let taken = waiting.len();
                keep(line, waiting);
                input.consume(taken);
            }
        }
    }
    Err(ReadError)
}
