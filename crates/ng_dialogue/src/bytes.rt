//! The bytes of a program, which come after a command's line.
ghost use Rattle.std.specs.Prelude.{◌≡◌, ◌++◌, [], true, IfOk};
ghost use Rattle.ng_dialogue.specs.Reading.{TakesBytes};
ghost use Rattle.ng_dialogue.specs.Waiting.{EndHolds, text_left};

use crate::input::{Input, ReadError};
use std::alloc::Allocator;
use std::io::Read;

/// What happened to the bytes that were asked for.
#[derive(Clone, Copy)]
pub(crate) enum TakenBytes {
    /// All of them are kept.
    Whole,
    /// All of them were skipped: there was no memory for them.
    NoMemory,
    /// The text ended before the last of them.
    Cut,
}

/// Keeps bytes if those before were kept and there is memory.
fn keep_on<A: Allocator + Copy + Drop>(
    text: &mut Vec<u8, A>,
    has_memory: bool,
    bytes: &[u8],
) -> bool
    ensures { result ≡ true → (has_memory ≡ true) × (text.new.items ≡ text.old.items ++ bytes.now) }
{
    has_memory && text.extend_from_slice(bytes).is_ok()
}

/// Takes this many bytes, and keeps them in a text that was empty. Its memory grows once, before the first byte is
/// read. If the text has ended, the reader isn't called.
///
/// `ReadError` if the reader failed; some of the bytes have been taken then. Source: own.
pub(crate) fn take_bytes<R: Read, A: Allocator + Copy + Drop>(
    input: &mut Input,
    reader: &mut R,
    length: u32,
    text: &mut Vec<u8, A>,
) -> Result<TakenBytes, ReadError>
    requires { text.old.items ≡ [] }
    ensures bytes { IfOk result
        (TakesBytes length (text_left input.old (R.remaining reader.old))
        (text_left input.new (R.remaining reader.new)) text.new.items) }
    ensures holds { EndHolds input.old (R.remaining reader.old) → EndHolds input.new (R.remaining reader.new) }
    ensures last { input.old.ended ≡ true → (input.new ≡ input.old) × (reader.new ≡ reader.old) }
{
    let mut left = length as usize;
    let mut has_memory = text.reserve_exact(length as usize).is_ok();
    while left > 0 {
        if !input.fill(reader)? {
            return Ok(TakenBytes::Cut);
        }
        let waiting = input.waiting();
        let taken = waiting.len().min(left);
        let head = keep_on(text, has_memory, &waiting[..taken]);
        has_memory = head;
        input.consume(taken);
        left -= taken;
    }
    if has_memory {
        Ok(TakenBytes::Whole)
    } else {
        Ok(TakenBytes::NoMemory)
    }
}
