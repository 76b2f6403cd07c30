//! The bytes of a reader, in buffers.
ghost use Rattle.std.specs.Prelude.{◌≡◌, ◌≢◌, ◌≤◌, [], drop, length, true, false, IfOk};
ghost use Rattle.std.specs.Io.KnownBytes.{Keeps};
ghost use Rattle.ng_dialogue.specs.Waiting.{EndHolds, text_left};

use std::io::Read;
use std::marker::Model;

/// The most reads that a console makes.
const READS: u64 = 1_000_000_000;

/// The bytes of a read.
const BUFFER: usize = 8192;

/// A read failed, or more than 1,000,000,000 reads were needed.
#[derive(Clone, Copy, Debug, PartialEq, Eq)]
pub struct ReadError;

/// The bytes that were read and not taken yet, and whether the text has ended, which is when a read returns no byte.
/// Contracts see a `Waiting`.
#[derive(Drop)]
pub struct Input {
    buffer: [u8; BUFFER],
    start: usize,
    end: usize,
    reads_left: u64,
    ended: bool,
}

impl Model for Input {
    ghost use Rattle.std.specs.Prelude.{◌≡◌, ◌≤◌, true, slice_range};
    ghost use Rattle.ng_dialogue.specs.Waiting.{Waiting};

    ghost Value = { Waiting };

    ghost view = { λ i. record { bytes = slice_range i.buffer i.start i.end; ended = i.ended } };

    ghost invariant = { λ i. (i.start ≤ i.end) × (i.end ≤ 8192) × (i.ended ≡ true → i.start ≡ i.end) };
}

impl Input {
    /// Nothing was read yet.
    pub fn new() -> Input
        ensures { result ≡ record { bytes = []; ended = false } }
    {
        Input {
            buffer: [0; BUFFER],
            start: 0,
            end: 0,
            reads_left: READS,
            ended: false,
        }
    }

    /// The bytes that wait.
    pub fn waiting(&self) -> &[u8]
        ensures { result.now ≡ self.now.bytes }
    {
        &self.buffer[self.start..self.end]
    }

    /// Takes the first bytes that wait.
    pub fn consume(&mut self, count: usize)
        requires { count ≤ length self.old.bytes }
        ensures { self.new ≡ record self.old { bytes = drop count self.old.bytes } }
    {
        self.start += count;
    }

    /// Reads if no bytes wait. Returns false at the end of the text, when a read returns no byte. That is final: the
    /// reader isn't called again. `ReadError` if the read failed, or if too many reads were needed; then no bytes wait.
    pub fn fill<R: Read>(&mut self, reader: &mut R) -> Result<bool, ReadError>
        ensures keeps { Keeps (text_left self.old (R.remaining reader.old)) (text_left self.new (R.remaining reader.new)) }
        ensures some { IfOk result (λ more. more ≡ true → (self.new.bytes ≢ []) × (self.new.ended ≡ false)) }
        ensures end { IfOk result (λ more. more ≡ false → (self.new.bytes ≡ []) × (self.new.ended ≡ true)) }
        ensures holds { EndHolds self.old (R.remaining reader.old) → EndHolds self.new (R.remaining reader.new) }
        ensures last { self.old.ended ≡ true → (result ≡ Ok false) × (self.new ≡ self.old) × (reader.new ≡ reader.old) }
    {
        if self.ended {
            return Ok(false);
        }
        if self.start < self.end {
            return Ok(true);
        }
        if self.reads_left == 0 {
            return Err(ReadError);
        }
        self.reads_left -= 1;
        self.start = 0;
        self.end = 0;
        match reader.read(&mut self.buffer) {
            Ok(n) => {
                self.end = n;
                self.ended = n == 0;
                Ok(n > 0)
            }
            Err(_) => Err(ReadError),
        }
    }
}
