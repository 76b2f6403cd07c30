//! What a text asks of the console, with reads of every size, and answers over writers that fail.
use linked_list_allocator::LocalHeap;
use ng_dialogue::{
    Input, InputError, Order, OutputError, next_order, tell_refusal, tell_reply, tell_tick,
    tell_ticks,
};
use ng_num::Fault;
use ng_session::{Event, Reply};
use std::alloc::{AllocError, Allocator, Global};
use std::io;
use std::io::{ErrorKind, Read, Write};
use std::test::Fail;

/// A reader that returns a few bytes at a read, and fails at one of its reads.
#[derive(Drop)]
struct Drip<'a> {
    bytes: &'a [u8],
    at_most: usize,
    /// How many reads succeed.
    reads_left: usize,
}

impl Read for Drip<'_> {
    fn read(&mut self, buf: &mut [u8]) -> io::Result<usize> {
        if self.reads_left == 0 {
            return Err(io::Error::from(ErrorKind::Other));
        }
        self.reads_left -= 1;
        let n = self.at_most.min(self.bytes.len()).min(buf.len());
        buf[..n].copy_from_slice(&self.bytes[..n]);
        self.bytes = &self.bytes[n..];
        Ok(n)
    }
}

/// Appends what an order asks, and a bar: the name of an event, and the bytes that come with it.
fn show<A: Allocator>(shown: &mut Vec<u8>, order: &Order<A>) -> Result<(), AllocError> {
    let (word, bytes) = match order {
        Order::Give(Event::Load(text)) => (b"load:".as_slice(), text.bytes()),
        Order::Give(Event::Mdi(text)) => (b"mdi:".as_slice(), text.bytes()),
        Order::Give(event) => (word_of(event), b"".as_slice()),
        Order::Ticks(100) => (b"ticks:".as_slice(), b"100".as_slice()),
        Order::Ticks(_) => (b"ticks:".as_slice(), b"?".as_slice()),
        Order::Refuse(fault) => (fault.text(), b"".as_slice()),
    };
    shown.extend_from_slice(word)?;
    shown.extend_from_slice(bytes)?;
    shown.extend_from_slice(b"|")
}

/// The name of an event without bytes.
fn word_of<A: Allocator>(event: &Event<A>) -> &'static [u8] {
    match event {
        Event::Start => b"start",
        Event::Hold => b"hold",
        Event::Continue => b"continue",
        Event::Reference(_) => b"reference",
        Event::Tool(_, _) => b"tool",
        Event::Resume => b"resume",
        Event::Abandon => b"abandon",
        Event::OptionalStop(true) => b"optional on",
        Event::OptionalStop(false) => b"optional off",
        Event::BlockDelete(true) => b"delete on",
        Event::BlockDelete(false) => b"delete off",
        Event::Status => b"status",
        _ => b"?",
    }
}

/// Everything that a reader's text asks with this heap, and why it ended early, if it did.
fn orders_of<R: Read, A: Allocator + Copy + Drop>(
    alloc: Global,
    heap: A,
    reader: &mut R,
) -> Result<(Vec<u8>, Option<InputError>), AllocError> {
    let mut input = Input::new();
    let mut shown = Vec::new(alloc);
    for _ in 0..10_000 {
        match next_order(heap, &mut input, reader) {
            Ok(Some(order)) => show(&mut shown, &order)?,
            Ok(None) => return Ok((shown, None)),
            Err(deaf) => return Ok((shown, Some(deaf))),
        }
    }
    shown.extend_from_slice(b"too many")?;
    Ok((shown, None))
}

/// Texts, and what each asks.
const TEXTS: &[(&str, &str)] = &[
    ("", ""),
    ("start", "start|"),
    ("start\n", "start|"),
    ("\n", "U1 BadCommand|"),
    ("start\n\nhold\n", "start|U1 BadCommand|hold|"),
    (
        "optional on\noptional off\ndelete on\ndelete off\ncontinue\nstatus\ntick 100\n",
        "optional on|optional off|delete on|delete off|continue|status|ticks:100|",
    ),
    (
        "reference 1 -2. +.5\nresume\nabandon\nreference 1 2\n",
        "reference|resume|abandon|U1 BadCommand|",
    ),
    // after quit nothing is read
    ("hold\nquit\nstart\n", "hold|"),
    ("hold\nquit", "hold|"),
    // a carriage return is part of the line
    (
        "start\r\nmdi G0 X1\r\nquit\r\n",
        "U1 BadCommand|mdi:G0 X1\r|U1 BadCommand|",
    ),
    ("mdi \nmdi\n", "mdi:|U1 BadCommand|"),
    // the bytes of a program aren't lines of the console, and no line after them is skipped
    (
        "load 13\nG0 X0.002\nM2\nstart\n",
        "load:G0 X0.002\nM2\n|start|",
    ),
    ("load 2\nM2start\n", "load:M2|start|"),
    ("load 3\na\nb\nhold\n", "load:a\nb|U1 BadCommand|hold|"),
    ("load 0\nhold\n", "load:|hold|"),
    ("load 4\nquit", "load:quit|"),
    // a program that is cut off by the end
    ("load 5\nM2\n", "U1 BadCommand|"),
    ("load 1", "U1 BadCommand|"),
    // a length of eight digits takes no bytes
    ("load 00000002\nhold\n", "U1 BadCommand|hold|"),
];

/// The first size of reads, from 1 to 9 bytes, with which a text asks something else, and why it ended early then.
fn first_mismatch(
    alloc: Global,
    text: &str,
    asked: &str,
) -> Result<Option<(usize, Option<InputError>)>, AllocError> {
    for at_most in 1..10 {
        let mut reader = Drip {
            bytes: text.as_bytes(),
            at_most,
            reads_left: 1_000,
        };
        let (shown, deaf) = orders_of(alloc, alloc, &mut reader)?;
        if deaf.is_some() || shown.as_slice() != asked.as_bytes() {
            return Ok(Some((at_most, deaf)));
        }
    }
    Ok(None)
}

#[test]
fn a_text_asks_line_by_line(rt: HostRuntime) -> Result<(), Fail> {
    for (text, asked) in TEXTS {
        assert_eq!(rt; first_mismatch(rt.alloc(), text, asked)?, None, "{text:?}");
    }
    Ok(())
}

/// Bytes of an `mdi` line, whether it is too long, and the bytes of a read.
const LENGTHS: &[(usize, bool, usize)] = &[
    (300, false, 1),
    (300, false, 8192),
    (301, true, 1),
    (301, true, 299),
    (8_191, true, 8192),
    (8_192, true, 8192),
    (8_193, true, 8192),
    (50_000, true, 8192),
];

/// An `mdi` line with this many bytes, without its newline.
fn long_line(alloc: Global, length: usize) -> Result<Vec<u8>, AllocError> {
    let mut line = Vec::from_slice(alloc, b"mdi ")?;
    line.resize(length, b'x')?;
    Ok(line)
}

/// Such a line, and a hold.
fn long_text(alloc: Global, length: usize) -> Result<Vec<u8>, AllocError> {
    let mut text = long_line(alloc, length)?;
    text.extend_from_slice(b"\nhold\n")?;
    Ok(text)
}

/// What those ask if the line isn't too long.
fn long_order(alloc: Global, length: usize) -> Result<Vec<u8>, AllocError> {
    // the four bytes of `mdi:` replace as many of the line
    let mut asked = Vec::from_slice(alloc, b"mdi:")?;
    asked.resize(length, b'x')?;
    asked.extend_from_slice(b"|hold|")?;
    Ok(asked)
}

/// Whether such a line and a hold are read as they should be, and why the text ended early, if it did.
fn long_line_read(
    alloc: Global,
    (length, is_long, at_most): (usize, bool, usize),
) -> Result<(bool, Option<InputError>), AllocError> {
    let text = long_text(alloc, length)?;
    let order = long_order(alloc, length)?;
    let asked = if is_long {
        b"U1 BadCommand|hold|".as_slice()
    } else {
        order.as_slice()
    };
    let mut reader = Drip {
        bytes: text.as_slice(),
        at_most,
        reads_left: 1_000_000,
    };
    let (shown, deaf) = orders_of(alloc, alloc, &mut reader)?;
    Ok((shown.as_slice() == asked, deaf))
}

#[test]
fn a_line_that_is_too_long_is_one_refusal(rt: HostRuntime) -> Result<(), Fail> {
    for row in LENGTHS {
        let found = long_line_read(rt.alloc(), *row)?;
        assert_eq!(rt; found, (true, None), "{} {}", row.0, row.2);
    }
    Ok(())
}

/// A text whose reader fails at a read, and what it asks.
const FAILING: (&str, &str) = (
    "hold\nload 3\nM2\nstart\nmdi M3\n",
    "hold|load:M2\n|start|mdi:M3|",
);

/// That text, a byte at a read, if this many reads succeed: why it ended early, if it did, and whether everything that
/// it asks is read, or a beginning if it ended early.
fn read_after(alloc: Global, reads_left: usize) -> Result<(Option<InputError>, bool), AllocError> {
    let (text, asked) = FAILING;
    let mut reader = Drip {
        bytes: text.as_bytes(),
        at_most: 1,
        reads_left,
    };
    let (shown, deaf) = orders_of(alloc, alloc, &mut reader)?;
    let is_heard = match deaf {
        None => shown.as_slice() == asked.as_bytes(),
        Some(_) => asked.as_bytes().starts_with(shown.as_slice()),
    };
    Ok((deaf, is_heard))
}

#[test]
fn a_reader_that_fails_ends_the_dialogue(rt: HostRuntime) -> Result<(), Fail> {
    for reads_left in 0..40 {
        // 28 bytes, and the read that finds the end
        let wanted = if reads_left < 29 {
            Some(InputError::Reader)
        } else {
            None
        };
        let found = read_after(rt.alloc(), reads_left)?;
        assert_eq!(rt; found, (wanted, true), "{reads_left}");
    }
    Ok(())
}

/// A program of 20,000 bytes, a hold, and an `mdi` line with 304 bytes.
fn greedy_text(alloc: Global) -> Result<Vec<u8>, AllocError> {
    let mut text = Vec::from_slice(alloc, b"load 20000\n")?;
    text.resize(20_011, b'x')?;
    text.extend_from_slice(b"hold\nmdi ")?;
    text.resize(20_320, b'y')?;
    Ok(text)
}

#[test]
fn a_program_without_memory_is_skipped(rt: HostRuntime) -> Result<(), Fail> {
    let text = greedy_text(rt.alloc())?;
    let heap = LocalHeap::new(rt.alloc(), 256)?;
    let mut reader = text.as_slice();
    let (shown, deaf) = orders_of(rt.alloc(), &heap, &mut reader)?;
    // the last line is too long, so it doesn't allocate
    let is_passed_over = shown.as_slice() == b"M1 OutOfMemory|hold|U1 BadCommand|".as_slice();
    // there is no memory for a line of the operator
    let line = long_line(rt.alloc(), 300)?;
    let mut reader = line.as_slice();
    let (short, ended) = orders_of(rt.alloc(), &heap, &mut reader)?;
    assert_eq!(rt;
        ((is_passed_over, deaf), (short.len(), ended)),
        ((true, None), (0, Some(InputError::Memory)))
    );
    Ok(())
}

/// A writer that accepts a byte at a write, and fails at one of its calls.
#[derive(Drop)]
struct Slow {
    taken: Vec<u8>,
    /// How many calls succeed.
    calls_left: usize,
    /// Whether a write that fails accepts no byte instead of returning an error.
    takes_none: bool,
}

impl Slow {
    /// Counts a call. Returns whether it succeeds.
    fn call(&mut self) -> bool {
        let succeeds = self.calls_left > 0;
        self.calls_left = self.calls_left.saturating_sub(1);
        succeeds
    }
}

impl Write for Slow {
    fn write(&mut self, buf: &[u8]) -> io::Result<usize> {
        if !self.call() {
            return if self.takes_none {
                Ok(0)
            } else {
                Err(io::Error::from(ErrorKind::Other))
            };
        }
        if buf.is_empty() {
            return Ok(0);
        }
        match self.taken.extend_from_slice(&buf[..1]) {
            Ok(()) => Ok(1),
            Err(_) => Err(io::Error::from(ErrorKind::OutOfMemory)),
        }
    }

    fn flush(&mut self) -> io::Result<()> {
        if self.call() {
            Ok(())
        } else {
            Err(io::Error::from(ErrorKind::Other))
        }
    }
}

/// Writes four answers, one of each kind.
fn tell_all<W: Write>(alloc: Global, writer: &mut W) -> Result<(), OutputError> {
    tell_reply(alloc, writer, &Reply::Begun)?;
    tell_tick(alloc, writer, &Reply::Done(7))?;
    tell_ticks(alloc, writer, 12)?;
    tell_refusal(alloc, writer, Fault::Busy)
}

/// The text of those answers.
const ANSWERS: &str = "begun\ndone 7\nticks 12\nrefused K1 Busy\n";

/// Writes them to a writer of which this many calls succeed: the result, whether everything is written, or a beginning
/// if there is an error, and how many calls are left.
fn written_after(
    alloc: Global,
    calls_left: usize,
    takes_none: bool,
) -> (Result<(), OutputError>, bool, usize) {
    let mut writer = Slow {
        taken: Vec::new(alloc),
        calls_left,
        takes_none,
    };
    let ended = tell_all(alloc, &mut writer);
    let taken = writer.taken.as_slice();
    let is_told = match ended {
        Ok(()) => taken == ANSWERS.as_bytes(),
        Err(_) => ANSWERS.as_bytes().starts_with(taken),
    };
    (ended, is_told, writer.calls_left)
}

#[test]
fn an_answer_is_written_and_flushed_or_a_beginning_of_it(rt: HostRuntime) -> Result<(), Fail> {
    // each byte is a write, and each of the four lines a flush
    let calls = ANSWERS.len().saturating_add(4);
    for calls_left in 0..60usize {
        let ended = if calls_left < calls {
            Err(OutputError::Writer)
        } else {
            Ok(())
        };
        let found = [
            written_after(rt.alloc(), calls_left, false),
            written_after(rt.alloc(), calls_left, true),
        ];
        let wanted = (ended, true, calls_left.saturating_sub(calls));
        assert_eq!(rt; found, [wanted; 2], "{calls_left}");
    }
    Ok(())
}
