//! Writing the text of a run.
ghost use Rattle.std.specs.Prelude.{◌≡◌, ◌≢◌, ◌++◌, ◌∷◌, [], IfErr, OnOk, OnErr, codes};
ghost use Rattle.std.specs.Fmt.{decimal};
ghost use Rattle.ng_lines.specs.Lines.{item_line};
ghost use Rattle.ng_streams.specs.Waiting.{FlushSpec};

use crate::ending::ScheduleFault;
use ng_canon::Item;
use ng_lines::push_numbered;
use ng_num::print_whole;
use std::alloc::{AllocError, Allocator};
use std::io::Write;

/// The text that waits is written once it has this many bytes.
const FULL: usize = 65_536;

/// A capacity for all text that ever waits, so that no line allocates: text that isn't long yet, and one line.
pub(crate) const CAPACITY: usize = FULL + 128;

/// Writes the text that waits. After `ScheduleFault::Writer` a beginning of it has been written.
pub(crate) fn flush<W: Write, A: Allocator + Copy + Drop>(
    text: &mut Vec<u8, A>,
    writer: &mut W,
) -> Result<(), ScheduleFault>
    ensures moves { FlushSpec (W.contents writer.old) (W.contents writer.new) text.old.items text.new.items result }
    ensures empty { OnOk result (text.new.items ≡ []) }
    ensures limits { IfErr result (λ fault. fault ≢ ScheduleFault.Limits) }
{
    match ng_streams::flush(text, writer) {
        Ok(()) => Ok(()),
        Err(_) => Err(ScheduleFault::Writer),
    }
}

/// Writes the text that waits if it is long. After `ScheduleFault::Writer` a beginning of it has been written.
#[inline(always)]
fn relieve<W: Write, A: Allocator + Copy + Drop>(
    text: &mut Vec<u8, A>,
    writer: &mut W,
) -> Result<(), ScheduleFault>
    ensures moves { FlushSpec (W.contents writer.old) (W.contents writer.new) text.old.items text.new.items result }
    ensures limits { IfErr result (λ fault. fault ≢ ScheduleFault.Limits) }
{
    match ng_streams::relieve(text, writer, FULL) {
        Ok(()) => Ok(()),
        Err(_) => Err(ScheduleFault::Writer),
    }
}

/// Prints the line of an item behind the nanosecond at which it is due, and writes the text if it is long.
#[inline(always)]
pub(crate) fn put_due<W: Write, A: Allocator + Copy + Drop>(
    text: &mut Vec<u8, A>,
    writer: &mut W,
    due_ns: u64,
    item: Item,
) -> Result<(), ScheduleFault>
    ensures moves { FlushSpec (W.contents writer.old) (W.contents writer.new)
        (text.old.items ++ (decimal due_ns ++ 32 ∷ item_line item)) text.new.items result }
    ensures limits { IfErr result (λ fault. fault ≢ ScheduleFault.Limits) }
{
    match push_numbered(text, due_ns, item) {
        Ok(()) => relieve(text, writer),
        Err(_) => Err(ScheduleFault::Memory),
    }
}

fn push_parts<A: Allocator + Copy + Drop>(
    text: &mut Vec<u8, A>,
    before: &[u8],
    number: u64,
    after: &[u8],
) -> Result<(), AllocError>
    ensures { OnOk result (text.new.items ≡ text.old.items ++ (before.now ++ decimal number ++ after.now)) }
{
    text.extend_from_slice(before)?;
    print_whole(text, number)?;
    text.extend_from_slice(after)
}

/// Prints a number between two texts, and writes all text that waits.
pub(crate) fn put_last<W: Write, A: Allocator + Copy + Drop>(
    text: &mut Vec<u8, A>,
    writer: &mut W,
    before: &[u8],
    number: u64,
    after: &[u8],
) -> Result<(), ScheduleFault>
    ensures drains { FlushSpec (W.contents writer.old) (W.contents writer.new)
        (text.old.items ++ (before.now ++ decimal number ++ after.now)) text.new.items result }
    ensures empty { OnOk result (text.new.items ≡ []) }
    ensures limits { IfErr result (λ fault. fault ≢ ScheduleFault.Limits) }
{
    match push_parts(text, before, number, after) {
        Ok(()) => flush(text, writer),
        Err(_) => Err(ScheduleFault::Memory),
    }
}
