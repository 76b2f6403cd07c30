//! Whole programs, from bytes to text, with a reader, a writer, memory or a number of lines as the subject. The rest of
//! what programs write is tested by the cases of `ngc_cases`.
mod bad_input;
mod cuts;
mod memory;
mod streams;

use ng_block::{Effect, Tools, execute};
use ng_canon::Geometry;
use ng_dry::{DryFault, Ended, dry};
use ng_num::{Fault, Len};
use ng_state::State;
use std::alloc::{Allocator, Global};
use std::io::{Read, Write};

/// One tool of 50 mm.
fn one_tool() -> Tools {
    let mut tools = Tools::new();
    tools.push(Len::of_nm(50_000_000).unwrap());
    tools
}

/// What a line does in a state, with the standard geometry and that tool. It has no contract, so that a test isn't
/// proved with everything that `execute` guarantees.
fn executed(state: &State<Global>, line: &[u8]) -> Result<Effect, Fault> {
    execute(state, line, &one_tool(), &Geometry::standard())
}

/// A dry run with the standard geometry and that tool.
fn dry_run<R: Read, W: Write, A: Allocator + Copy + Drop>(
    alloc: A,
    reader: &mut R,
    writer: &mut W,
    block_delete: bool,
) -> Result<Ended, DryFault> {
    dry(
        alloc,
        reader,
        writer,
        block_delete,
        &one_tool(),
        &Geometry::standard(),
    )
}

/// What a dry run of a program writes, and how it ends.
fn dry_text(
    alloc: Global,
    program: &[u8],
    block_delete: bool,
) -> (Vec<u8>, Result<Ended, DryFault>) {
    let mut reader = program;
    let mut text = Vec::new(alloc);
    let ended = dry_run(alloc, &mut reader, &mut text, block_delete);
    (text, ended)
}
