//! The dry run: a program's bytes go in, its canonical text comes out.
ghost use Rattle.std.specs.Prelude.{IfSome};
ghost use Rattle.ng_dry.specs.Dry.{DryRunSpec, output_from, output_of};

use crate::ending::{DryFault, Ended};
use crate::run::DryRun;
use crate::splitting::LineSplitter;
use arrayvec::ArrayVec;
use ng_block::Terms;
use ng_canon::Geometry;
use ng_offsets::Tools;
use ng_state::State;
use std::alloc::Allocator;
use std::io::{Read, Write};

/// The most reads that a run makes.
pub const READS: u64 = 1_000_000_000;

/// The bytes of a read.
const BUFFER: usize = 8192;

/// Runs a program from the fresh state, without a machine, and writes its canonical text.
///
/// The text is that of the commands of the program's lines, one line after the other. It ends at the program's end, or
/// with the line `REFUSED line K: FAULT` of the first line that is refused; K counts lines from 1. A text that ends
/// before M2 or M30 is refused after its last line (X3). Nothing after the program's end has an effect. Lines that
/// begin with a slash are deleted if `block_delete` is set.
///
/// The program is read through a buffer of fixed size, by at most 1,000,000,000 reads, and memory doesn't grow with it.
/// After `DryFault::Reader`, `Writer` or `Memory` a beginning of the text has been written; after `Reader` and `Memory`
/// everything that was found until then. Source: own.
pub fn dry<R: Read, W: Write, A: Allocator + Copy + Drop>(
    alloc: A,
    reader: &mut R,
    writer: &mut W,
    block_delete: bool,
    tools: &Tools,
    geometry: &Geometry,
) -> Result<Ended, DryFault>
    ensures { IfSome (R.remaining reader.old) (λ program.
        DryRunSpec (W.contents writer.old) (W.contents writer.new)
        (output_of (record { block_delete = block_delete; tools = tools.now; geometry = geometry.now }) program) result) }
{
    match State::fresh(alloc) {
        Ok(state) => dry_from(alloc, state, reader, writer, block_delete, tools, geometry),
        Err(_) => Err(DryFault::Memory),
    }
}

/// Runs a program as `dry` does, but from a state in place of the fresh one.
pub fn dry_from<R: Read, W: Write, A: Allocator + Copy + Drop>(
    alloc: A,
    state: State<A>,
    reader: &mut R,
    writer: &mut W,
    block_delete: bool,
    tools: &Tools,
    geometry: &Geometry,
) -> Result<Ended, DryFault>
    ensures { IfSome (R.remaining reader.old) (λ program.
        DryRunSpec (W.contents writer.old) (W.contents writer.new)
        (output_from (record { block_delete = block_delete; tools = tools.now; geometry = geometry.now }) state program) result) }
{
    let terms = Terms {
        block_delete,
        tools,
        geometry,
    };
    let run = match DryRun::new(alloc, terms, state) {
        Ok(run) => run,
        Err(_) => return Err(DryFault::Memory),
    };
    let mut splitter = LineSplitter {
        run,
        partial: ArrayVec::new(),
    };
    let mut buffer = [0u8; BUFFER];
    for pass in 0..READS {
        match reader.read(&mut buffer) {
            Err(_) => return Err(splitter.run.break_off(writer, DryFault::Reader)),
            Ok(0) => return splitter.close(writer),
            Ok(n) => match splitter.take(writer, &buffer[..n]) {
                Ok(None) => {}
                Ok(Some(ended)) => return Ok(ended),
                Err(fault) => return Err(fault),
            },
        }
    }
    Err(splitter.run.break_off(writer, DryFault::Reader))
}
