//! Readers that return few bytes, and readers and writers that fail.
use super::cuts::{CUTS, CUTS_TEXT, PROGRAM_END};
use super::dry_run;
use ng_dry::{DryFault, Ended};
use std::io;
use std::io::{ErrorKind, Read, Write};
use std::test::Fail;

/// A reader that returns a few bytes at a read, and fails at one of its reads.
#[derive(Drop)]
struct Drip<'a> {
    bytes: &'a [u8],
    at_most: usize,
    /// How many reads succeed.
    reads_left: usize,
}

impl Read for Drip<'_> {
    fn read(&mut self, buf: &mut [u8]) -> io::Result<usize> {
        if self.reads_left == 0 {
            return Err(io::Error::from(ErrorKind::Other));
        }
        self.reads_left -= 1;
        let n = self.at_most.min(self.bytes.len()).min(buf.len());
        buf[..n].copy_from_slice(&self.bytes[..n]);
        self.bytes = &self.bytes[n..];
        Ok(n)
    }
}

/// A writer that accepts a few bytes at a write, and at one of its writes fails or accepts none.
#[derive(Drop)]
struct Full {
    taken: Vec<u8>,
    at_most: usize,
    /// How many writes succeed.
    writes_left: usize,
    takes_none: bool,
}

impl Write for Full {
    fn write(&mut self, buf: &[u8]) -> io::Result<usize> {
        if self.writes_left == 0 {
            return if self.takes_none {
                Ok(0)
            } else {
                Err(io::Error::from(ErrorKind::Other))
            };
        }
        self.writes_left -= 1;
        let n = self.at_most.min(buf.len());
        match self.taken.extend_from_slice(&buf[..n]) {
            Ok(()) => Ok(n),
            Err(_) => Err(io::Error::from(ErrorKind::OutOfMemory)),
        }
    }

    fn flush(&mut self) -> io::Result<()> {
        Ok(())
    }
}

/// The most bytes of a read and of a write, whether it is the reader that fails, and whether a writer that fails
/// accepts none.
const LIMITS: &[(usize, usize, bool, bool)] = &[
    (1, 8192, true, false),
    (7, 8192, true, false),
    (8192, 8192, true, false),
    (8192, 1, false, false),
    (8192, 50, false, true),
    (8192, 8192, false, false),
];

/// Whether a run was aborted because of its reader, or because of its writer.
fn is_broken(ended: &Result<Ended, DryFault>, by_reader: bool) -> bool {
    match ended {
        Err(DryFault::Reader) => by_reader,
        Err(DryFault::Writer) => !by_reader,
        _ => false,
    }
}

#[test]
fn stops_when_the_reader_or_the_writer_fails(rt: HostRuntime) -> Result<(), Fail> {
    for (read_most, write_most, by_reader, takes_none) in LIMITS {
        let mut whole = 0u32;
        let mut cut = 0u32;
        for calls in 0..500 {
            let mut reader = Drip {
                bytes: CUTS.as_bytes(),
                at_most: *read_most,
                reads_left: if *by_reader { calls } else { 1_000 },
            };
            let mut writer = Full {
                taken: Vec::new(rt.alloc()),
                at_most: *write_most,
                writes_left: if *by_reader { 1_000 } else { calls },
                takes_none: *takes_none,
            };
            let ended = dry_run(rt.alloc(), &mut reader, &mut writer, false);
            let text = writer.taken.as_slice();
            if is_broken(&ended, *by_reader) {
                cut = cut.saturating_add(1);
                assert!(rt;
                    whole == 0 && CUTS_TEXT.as_bytes().starts_with(text),
                    "{read_most} {write_most} {calls}"
                );
            } else {
                whole = whole.saturating_add(1);
                assert!(rt;
                    matches!(ended, Ok(Ended::Done)) && text == CUTS_TEXT.as_bytes(),
                    "{read_most} {write_most} {calls}"
                );
            }
        }
        assert!(rt; whole > 0 && cut > 0, "{read_most} {write_most}");
    }
    Ok(())
}

#[test]
fn writes_a_beginning_when_its_second_write_fails(rt: HostRuntime) -> Result<(), Fail> {
    let mut reader = b"g0x +0. 12 34y 7\nM2\n".as_slice();
    let mut writer = Full {
        taken: Vec::new(rt.alloc()),
        at_most: 100,
        writes_left: 1,
        takes_none: false,
    };
    let ended = dry_run(rt.alloc(), &mut reader, &mut writer, false);
    let beginning =
        "STRAIGHT_TRAVERSE(0.123400, 7.000000, 0.000000)\nSET_ORIGIN_OFFSETS(0.000000, 0.000000, 0.000000)\nSEL";
    assert!(rt; is_broken(&ended, false));
    assert!(rt; beginning.len() == 100 && writer.taken.as_slice() == beginning.as_bytes());
    Ok(())
}

/// How many lines a program has, and the most bytes of a read: 24,000 reads of a byte, and 110 of a whole buffer.
const READS: &[(usize, usize)] = &[(4_000, 1), (150_000, 8192)];

#[test]
fn reads_as_often_as_a_program_needs(rt: HostRuntime) -> Result<(), Fail> {
    for (lines, at_most) in READS {
        let mut program = Vec::new(rt.alloc());
        let mut expected = Vec::new(rt.alloc());
        for _ in 0..*lines {
            program.extend_from_slice(b"G0 X1\n")?;
            expected.extend_from_slice(b"STRAIGHT_TRAVERSE(1.000000, 0.000000, 0.000000)\n")?;
        }
        program.extend_from_slice(b"M2\n")?;
        expected.extend_from_slice(PROGRAM_END.as_bytes())?;
        let mut reader = Drip {
            bytes: program.as_slice(),
            at_most: *at_most,
            reads_left: 1_000_000,
        };
        let mut text = Vec::new(rt.alloc());
        let ended = dry_run(rt.alloc(), &mut reader, &mut text, false);
        assert!(rt; matches!(ended, Ok(Ended::Done)), "{at_most}");
        assert!(rt; text.as_slice() == expected.as_slice(), "{at_most}");
    }
    Ok(())
}

/// A reader that returns a line at each read, and then fails: the text of the lines before is written.
#[test]
fn writes_what_was_executed_before_its_reader_fails(rt: HostRuntime) -> Result<(), Fail> {
    let mut expected = Vec::new(rt.alloc());
    for lines in 0..4 {
        let mut reader = Drip {
            bytes: b"G0 X1\nG0 X1\nG0 X1\nG0 X1\nM2\n",
            at_most: 6,
            reads_left: lines,
        };
        let mut text = Vec::new(rt.alloc());
        let ended = dry_run(rt.alloc(), &mut reader, &mut text, false);
        assert!(rt; is_broken(&ended, true), "{lines}");
        assert!(rt; text.as_slice() == expected.as_slice(), "{lines}");
        expected.extend_from_slice(b"STRAIGHT_TRAVERSE(1.000000, 0.000000, 0.000000)\n")?;
    }
    Ok(())
}
