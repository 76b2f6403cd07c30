//! Text that waits before it is written.
ghost use Rattle.std.specs.Prelude.{◌≡◌, ◌≤◌, ◌<◌, [], length, IsOk, OnOk, OnErr};
ghost use Rattle.ng_streams.specs.Waiting.{FlushSpec};

use crate::writing::write_out;
use std::alloc::Allocator;
use std::io;
use std::io::Write;

/// Writes the text that waits, and then none waits. Fails as `write_out` does: then a beginning of the text has been
/// written, and all of it still stands in `text`. It isn't inlined, since it is called once for many lines.
#[inline(never)]
pub fn flush<W: Write, A: Allocator + Copy + Drop>(
    text: &mut Vec<u8, A>,
    writer: &mut W,
) -> io::Result<()>
    ensures moves { FlushSpec (W.contents writer.old) (W.contents writer.new) text.old.items text.new.items result }
    ensures empty { OnOk result (text.new.items ≡ []) }
    ensures kept { OnErr result (text.new.items ≡ text.old.items) }
{
    match write_out(writer, text.as_slice()) {
        Ok(()) => {
            text.clear();
            Ok(())
        }
        Err(error) => Err(error),
    }
}

/// Writes the text that waits if it has `full` bytes or more; fewer go on waiting. Fails as `flush` does, with all of
/// the text still in `text`; with fewer than `full` bytes it doesn't fail, and writes nothing.
#[inline(always)]
pub fn relieve<W: Write, A: Allocator + Copy + Drop>(
    text: &mut Vec<u8, A>,
    writer: &mut W,
    full: usize,
) -> io::Result<()>
    ensures moves { FlushSpec (W.contents writer.old) (W.contents writer.new) text.old.items text.new.items result }
    ensures full { full ≤ length text.old.items → OnOk result (text.new.items ≡ []) }
    ensures few { length text.old.items < full
        → IsOk result × (text.new.items ≡ text.old.items) × (W.contents writer.new ≡ W.contents writer.old) }
    ensures kept { OnErr result (text.new.items ≡ text.old.items) }
{
    if text.len() < full {
        return Ok(());
    }
    flush(text, writer)
}
