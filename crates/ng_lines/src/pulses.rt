//! The lines of pulses, which are nearly all lines: each is written on the stack from its end, and appended at once.
ghost use Rattle.std.specs.Prelude.{◌≡◌, ◌≤◌, ◌<◌, ◌+◌, ◌++◌, ◌∷◌, drop, length, OnOk, OnErr};
ghost use Rattle.std.specs.Fmt.{decimal};
ghost use Rattle.ng_lines.specs.Lines.{pulse_line, step_text};

use itoa::write_digits;
use ng_canon::{AxisStep, Pulse};
use std::alloc::{AllocError, Allocator};

/// The most bytes of the line of a pulse.
const LINE: usize = 40;

/// The most bytes of the line of a pulse behind a number and a blank.
const NUMBERED_LINE: usize = 64;

/// Stores a byte at a place.
#[inline(always)]
fn put(byte: u8, buffer: &mut [u8], at: usize)
    requires { at < length buffer.old }
    ensures { drop at buffer.new ≡ byte ∷ drop (at + 1) buffer.old }
{
    buffer[at] = byte;
}

/// Writes a number so that it ends at `end`. Returns where it starts.
#[inline(always)]
fn write_number(n: u64, buffer: &mut [u8], end: usize) -> usize
    requires { (20 ≤ end) × (end ≤ length buffer.old) }
    ensures within { (result ≤ end) × (end ≤ result + 20) }
    ensures written { drop result buffer.new ≡ decimal n ++ drop end buffer.old }
{
    write_digits(n, buffer, end)
}

/// Writes a step and a blank so that they end at `end`. Returns where they start.
#[inline(always)]
fn write_step(step: AxisStep, buffer: &mut [u8], end: usize) -> usize
    requires { (3 ≤ end) × (end ≤ length buffer.old) }
    ensures within { (result ≤ end) × (end ≤ result + 3) }
    ensures written { drop result buffer.new ≡ step_text step ++ 32 ∷ drop end buffer.old }
{
    put(b' ', buffer, end - 1);
    match step {
        AxisStep::Still => {
            put(b'0', buffer, end - 2);
            end - 2
        }
        AxisStep::Forward => {
            put(b'1', buffer, end - 2);
            end - 2
        }
        AxisStep::Backward => {
            put(b'1', buffer, end - 2);
            put(b'-', buffer, end - 3);
            end - 3
        }
    }
}

/// Writes the line of a pulse so that it ends at `end`. Returns where it starts.
#[inline(always)]
fn write_pulse(pulse: &Pulse, buffer: &mut [u8], end: usize) -> usize
    requires { (40 ≤ end) × (end ≤ length buffer.old) }
    ensures within { (result ≤ end) × (end ≤ result + 40) }
    ensures written { drop result buffer.new ≡ pulse_line pulse.now ++ drop end buffer.old }
{
    put(b'\n', buffer, end - 1);
    let period = write_number(pulse.period_us, buffer, end - 1);
    let z = write_step(pulse.z, buffer, period);
    let y = write_step(pulse.y, buffer, z);
    let x = write_step(pulse.x, buffer, y);
    put(b' ', buffer, x - 1);
    put(b'P', buffer, x - 2);
    x - 2
}

/// Appends what a buffer holds from a place on. If the text can't grow, it is left as it was.
#[inline(always)]
fn push_from<A: Allocator + Copy + Drop>(
    text: &mut Vec<u8, A>,
    buffer: &[u8],
    start: usize,
) -> Result<(), AllocError>
    requires { start ≤ length buffer.now }
    ensures ok { OnOk result (text.new.items ≡ text.old.items ++ drop start buffer.now) }
    ensures err { OnErr result (text.new.items ≡ text.old.items) }
{
    text.extend_from_slice(&buffer[start..])
}

/// Appends the line of a pulse. If the text can't grow, it is left as it was.
pub(crate) fn push_pulse<A: Allocator + Copy + Drop>(
    text: &mut Vec<u8, A>,
    pulse: &Pulse,
) -> Result<(), AllocError>
    ensures ok { OnOk result (text.new.items ≡ text.old.items ++ pulse_line pulse.now) }
    ensures err { OnErr result (text.new.items ≡ text.old.items) }
{
    let mut buffer = [b'0'; LINE];
    let start = write_pulse(pulse, &mut buffer, LINE);
    push_from(text, &buffer, start)
}

/// Appends the line of a pulse behind a number and a blank. If the text can't grow, it is left as it was.
#[inline(always)]
pub(crate) fn push_numbered_pulse<A: Allocator + Copy + Drop>(
    text: &mut Vec<u8, A>,
    number: u64,
    pulse: &Pulse,
) -> Result<(), AllocError>
    ensures ok { OnOk result (text.new.items ≡ text.old.items ++ (decimal number ++ 32 ∷ pulse_line pulse.now)) }
    ensures err { OnErr result (text.new.items ≡ text.old.items) }
{
    let mut buffer = [b'0'; NUMBERED_LINE];
    let line = write_pulse(pulse, &mut buffer, NUMBERED_LINE);
    put(b' ', &mut buffer, line - 1);
    let start = write_number(number, &mut buffer, line - 1);
    push_from(text, &buffer, start)
}
