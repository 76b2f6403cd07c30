//! Dry runs over heaps of rising size, and of one size.
use super::cuts::{CUTS, CUTS_TEXT};
use super::dry_run;
use linked_list_allocator::LocalHeap;
use ng_canon::{Canon, CanonicalCommand};
use ng_dry::{DryFault, Ended, put_canon};
use ng_num::Point;
use std::alloc::Global;
use std::io;
use std::io::{ErrorKind, Write};
use std::test::Fail;

/// A writer that counts what it accepts, and fails once it has accepted this many bytes.
#[derive(Drop)]
struct Counted {
    bytes: usize,
    lines: usize,
    at_most: usize,
}

impl Counted {
    fn new(at_most: usize) -> Counted {
        Counted {
            bytes: 0,
            lines: 0,
            at_most,
        }
    }
}

impl Write for Counted {
    fn write(&mut self, buf: &[u8]) -> io::Result<usize> {
        if self.bytes >= self.at_most {
            return Err(io::Error::from(ErrorKind::Other));
        }
        self.bytes = self.bytes.saturating_add(buf.len());
        for byte in buf {
            if *byte == b'\n' {
                self.lines = self.lines.saturating_add(1);
            }
        }
        Ok(buf.len())
    }

    fn flush(&mut self) -> io::Result<()> {
        Ok(())
    }
}

#[test]
fn runs_in_constant_memory_and_writes_a_beginning_without_it(rt: HostRuntime) -> Result<(), Fail> {
    let mut whole = 0u32;
    let mut cut = 0u32;
    for step in 0..64usize {
        let heap = LocalHeap::new(rt.alloc(), 64 + 1024 * step)?;
        let mut reader = CUTS.as_bytes();
        let mut text = Vec::new(rt.alloc());
        match dry_run(&heap, &mut reader, &mut text, false) {
            Ok(ended) => {
                assert!(rt; ended == Ended::Done && text.as_slice() == CUTS_TEXT.as_bytes());
                whole = whole.saturating_add(1);
            }
            Err(fault) => {
                assert!(rt; matches!(fault, DryFault::Memory), "{step}");
                assert!(rt; CUTS_TEXT.as_bytes().starts_with(text.as_slice()), "{step}");
                cut = cut.saturating_add(1);
            }
        }
    }
    assert!(rt; whole > 3 && cut > 3);
    let heap = LocalHeap::new(rt.alloc(), 40_000)?;
    let mut text = Vec::new(&heap);
    let mut writer = Counted::new(usize::MAX);
    let traverse = Canon::Command(CanonicalCommand::Traverse(Point::zero()));
    for n in 0..1_000_000 {
        assert!(rt; put_canon(&mut text, &mut writer, &traverse).is_ok(), "{n}");
    }
    assert_eq!(rt; writer.bytes.saturating_add(text.len()), 48_000_000);
    Ok(())
}

/// The lines that a dry run writes in a heap with this many bytes, until this many bytes are accepted, and how it ends.
fn lines_in(
    alloc: Global,
    size: usize,
    program: &str,
    at_most: usize,
) -> Result<(usize, Result<Ended, DryFault>), Fail> {
    let heap = LocalHeap::new(alloc, size)?;
    let mut reader = program.as_bytes();
    let mut writer = Counted::new(at_most);
    let ended = dry_run(&heap, &mut reader, &mut writer, false);
    Ok((writer.lines, ended))
}

/// A thousand traverses: enough that waiting text is written before the end.
fn traverses(alloc: Global) -> Result<String<Global>, Fail> {
    let mut program = String::new(alloc);
    for _ in 0..1_000 {
        program.push_str("G0 X1\n")?;
    }
    program.push_str("M2")?;
    Ok(program)
}

/// The bytes of a heap in which each of these programs runs.
const HEAP: usize = 131_072;

/// 10,000 pecks, which are 30,000 segments.
const PECKS: &str = "G83 X0 Z-1000 R0 Q0.1 F100\nM2";

/// 333,334 pecks, which are 1,000,002 segments of one block.
const MILLION: &str = "G83 X0 Z-1000 R0 Q0.003 F100\nM2";

/// 9,999,999 holes of 10,000,000 pecks each: too many to step through to the end.
const ENDLESS: &str = "G91 G83 X0.0001 Z-1000 R0 Q0.0001 L9999999 F100\nM2";

#[test]
fn cycles_run_in_constant_memory_and_begin_at_once(rt: HostRuntime) -> Result<(), Fail> {
    let (_, ended) = lines_in(
        rt.alloc(),
        HEAP,
        traverses(rt.alloc())?.as_str(),
        usize::MAX,
    )?;
    assert!(rt; matches!(ended, Ok(Ended::Done)));
    let (lines, ended) = lines_in(rt.alloc(), HEAP, MILLION, usize::MAX)?;
    assert!(rt; matches!(ended, Ok(Ended::Done)));
    // the feed, the segments, and the six commands of the end
    assert_eq!(rt; lines, 1_000_009);
    let (lines, ended) = lines_in(rt.alloc(), HEAP, ENDLESS, 1_000_000)?;
    assert!(rt; matches!(ended, Err(DryFault::Writer)));
    assert!(rt; lines > 10_000);
    Ok(())
}

/// The step in bytes between the heaps that are tried.
const GRAIN: usize = 64;

/// The least heap, in bytes, in which a program has enough memory until this many bytes of its text are accepted.
fn least_heap(alloc: Global, program: &str, at_most: usize) -> Result<usize, Fail> {
    let mut small: usize = 0;
    let mut large: usize = HEAP / GRAIN;
    // each round halves the range of heaps
    for _ in 0..11 {
        let middle = small.saturating_add(large) / 2;
        let size = middle.saturating_mul(GRAIN);
        match lines_in(alloc, size, program, at_most)?.1 {
            Err(DryFault::Memory) => small = middle,
            _ => large = middle,
        }
    }
    Ok(large.saturating_mul(GRAIN))
}

#[test]
fn no_program_needs_more_memory_than_one_traverse(rt: HostRuntime) -> Result<(), Fail> {
    let traverse = least_heap(rt.alloc(), "G0 X1\nM2", usize::MAX)?;
    assert!(rt; traverse > 16_384 && traverse < HEAP, "{traverse}");
    assert_eq!(rt; least_heap(rt.alloc(), PECKS, usize::MAX)?, traverse);
    assert_eq!(rt; least_heap(rt.alloc(), ENDLESS, 1_000_000)?, traverse);
    Ok(())
}
