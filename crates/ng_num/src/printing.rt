//! The canonical text of numbers. Each text is built on the stack, with the two bytes that follow it, and appended at
//! once. So if the caller's text can't grow, it is left as it was.
ghost use Rattle.std.specs.Prelude.{◌≡◌, ◌+◌, ◌++◌, ◌∷◌, ◌<◌, ◌≤◌, ◌^◌, ◌/◌, ◌%◌, ◌-◌, drop, take, length, OnOk, OnErr, unsigned_abs};
ghost use Rattle.std.specs.Fmt.{decimal};
ghost use Rattle.ng_num.specs.Printing.{minus, number_text, point_text, six_digits};
ghost use Rattle.ng_num.specs.Range.{IsCount, greatest};

use crate::len::Len;
use crate::num::Num;
use crate::point::Point;
use itoa::write_digits;
use std::alloc::{AllocError, Allocator};

/// The most bytes of a number and the two bytes after it.
const NUMBER: usize = 17;

/// The most bytes of three numbers, each with two bytes after it.
const POINT: usize = 51;

/// Twice as many: from each place of its first half on there are `POINT` bytes.
const TWO_POINTS: usize = 102;

/// The two digits of each number below 100.
static PAIRS: [u8; 200] =
    *b"0001020304050607080910111213141516171819202122232425262728293031323334353637383940414243444546474849\
       5051525354555657585960616263646566676869707172737475767778798081828384858687888990919293949596979899";

/// Stores a byte at a place.
#[inline(always)]
fn put(byte: u8, buffer: &mut [u8], at: usize)
    requires { at < length buffer.old }
    ensures { drop at buffer.new ≡ byte ∷ drop (at + 1) buffer.old }
{
    buffer[at] = byte;
}

/// Stores the two bytes that follow a number.
#[inline(always)]
fn put_after(after: [u8; 2], buffer: &mut [u8], at: usize)
    requires { at + 2 ≤ length buffer.old }
    ensures { drop at buffer.new ≡ after ++ drop (at + 2) buffer.old }
{
    put(after[1], buffer, at + 1);
    put(after[0], buffer, at);
}

/// Stores the two digits of a number below 100. Looking them up is cheaper than two divisions.
#[inline(always)]
fn put_pair(pair: u32, buffer: &mut [u8], at: usize)
    requires small { pair < 100 }
    requires fits { at + 2 ≤ length buffer.old }
    ensures { drop at buffer.new ≡ (48 + pair / 10) ∷ (48 + pair % 10) ∷ drop (at + 2) buffer.old }
{
    let from = pair as usize * 2;
    put(PAIRS[from + 1], buffer, at + 1);
    put(PAIRS[from], buffer, at);
}

/// Writes the decimal point and six decimals of a size in millionths, so that they end at `end`. Returns where the
/// point is.
#[inline(always)]
fn write_decimals(size: u64, buffer: &mut [u8], end: usize) -> usize
    requires { (7 ≤ end) × (end ≤ length buffer.old) }
    ensures start { result + 7 ≡ end }
    ensures written { drop result buffer.new ≡ 46 ∷ (six_digits size ++ drop end buffer.old) }
{
    let n = (size % 1_000_000) as u32;
    let high = n / 10_000;
    let low = n - high * 10_000;
    put_pair(low % 100, buffer, end - 2);
    put_pair(low / 100, buffer, end - 4);
    put_pair(high, buffer, end - 6);
    put(b'.', buffer, end - 7);
    end - 7
}

/// Writes a size's whole part, so that it ends at `end`. Returns where it starts.
#[inline(always)]
fn write_whole_part(size: u64, buffer: &mut [u8], end: usize) -> usize
    requires range { size ≤ greatest }
    requires fits { (8 ≤ end) × (end ≤ length buffer.old) }
    ensures within { (result < end) × (end ≤ result + 7) }
    ensures written { drop result buffer.new ≡ decimal (size / 1_000_000) ++ drop end buffer.old }
{
    write_digits(size / 1_000_000, buffer, end)
}

/// Writes a minus in front of a text that starts at `start`. Returns where the text of the count starts. The minus is
/// always written, so that there is no branch on the sign.
#[inline(always)]
fn write_minus(count: i64, buffer: &mut [u8], start: usize) -> usize
    requires { (1 ≤ start) × (start ≤ length buffer.old) }
    ensures within { (result ≤ start) × (start ≤ result + 1) }
    ensures written { drop result buffer.new ≡ minus count ++ drop start buffer.old }
{
    buffer[start - 1] = b'-';
    if count < 0 { start - 1 } else { start }
}

/// Writes the text of a count of millionths and the two bytes after it, so that they end at `end`. Returns where the
/// text starts.
#[inline(always)]
fn write_count(count: i64, after: [u8; 2], buffer: &mut [u8], end: usize) -> usize
    requires range { IsCount count }
    requires fits { (17 ≤ end) × (end ≤ length buffer.old) }
    ensures within { (result ≤ end) × (end ≤ result + 17) }
    ensures text { drop result buffer.new ≡ number_text count ++ (after ++ drop end buffer.old) }
{
    put_after(after, buffer, end - 2);
    let size = count.unsigned_abs();
    let point = write_decimals(size, buffer, end - 2);
    let whole = write_whole_part(size, buffer, point);
    write_minus(count, buffer, whole)
}

/// Appends the text of a count of millionths and the two bytes after it.
fn print_count<A: Allocator + Copy + Drop>(
    text: &mut Vec<u8, A>,
    count: i64,
    after: [u8; 2],
) -> Result<(), AllocError>
    requires { IsCount count }
    ensures ok { OnOk result (text.new.items ≡ text.old.items ++ (number_text count ++ after)) }
    ensures err { OnErr result (text.new.items ≡ text.old.items) }
{
    let mut buffer = [b'0'; NUMBER];
    let start = write_count(count, after, &mut buffer, NUMBER);
    text.extend_from_slice(&buffer[start..])
}

/// Appends a number and the two bytes after it: a minus if it is negative, its whole part without leading zeros, a
/// point and six decimals (own). If the text can't grow, it is left as it was.
pub fn print_number<A: Allocator + Copy + Drop>(
    text: &mut Vec<u8, A>,
    number: Num,
    after: [u8; 2],
) -> Result<(), AllocError>
    ensures ok { OnOk result (text.new.items ≡ text.old.items ++ (number_text number ++ after)) }
    ensures err { OnErr result (text.new.items ≡ text.old.items) }
{
    print_count(text, number.count(), after)
}

/// Appends a length in millimetres and the two bytes after it, in the form of `print_number` (own). If the text can't
/// grow, it is left as it was.
pub fn print_length<A: Allocator + Copy + Drop>(
    text: &mut Vec<u8, A>,
    length: Len,
    after: [u8; 2],
) -> Result<(), AllocError>
    ensures ok { OnOk result (text.new.items ≡ text.old.items ++ (number_text length ++ after)) }
    ensures err { OnErr result (text.new.items ≡ text.old.items) }
{
    print_count(text, length.nm(), after)
}

/// Writes the three coordinates of a point in millimetres, with a comma and a blank between them, and the two bytes
/// after them, so that they end at the buffer's middle. Returns where they start.
#[inline(always)]
fn write_point(point: Point, after: [u8; 2], buffer: &mut [u8; TWO_POINTS]) -> usize
    ensures within { result ≤ 51 }
    ensures text { drop result buffer.new ≡ (point_text point ++ after) ++ drop 51 buffer.old }
{
    let z = write_count(point.z.nm(), after, buffer, POINT);
    let y = write_count(point.y.nm(), *b", ", buffer, z);
    write_count(point.x.nm(), *b", ", buffer, y)
}

/// Appends the bytes from `start` up to the buffer's middle. It copies a fixed number of bytes and cuts off those past
/// the middle: a copy of a fixed length takes a few instructions, one of another length is a call. If the text can't
/// grow, it is left as it was.
#[inline(always)]
fn push_first_half<A: Allocator + Copy + Drop>(
    text: &mut Vec<u8, A>,
    buffer: &[u8; TWO_POINTS],
    start: usize,
) -> Result<(), AllocError>
    requires { start ≤ 51 }
    ensures ok { OnOk result (text.new.items ≡ text.old.items ++ take (51 - start) (drop start buffer.now)) }
    ensures err { OnErr result (text.new.items ≡ text.old.items) }
{
    let end = text.len() + (POINT - start);
    text.extend_from_slice(&buffer[start..start + POINT])?;
    text.truncate(end);
    Ok(())
}

/// Appends the three coordinates of a point in millimetres, each in the form of `print_length`, with a comma and a
/// blank between them, and the two bytes after them (own). If the text can't grow, it is left as it was.
pub fn print_point<A: Allocator + Copy + Drop>(
    text: &mut Vec<u8, A>,
    point: Point,
    after: [u8; 2],
) -> Result<(), AllocError>
    ensures ok { OnOk result (text.new.items ≡ text.old.items ++ (point_text point ++ after)) }
    ensures err { OnErr result (text.new.items ≡ text.old.items) }
{
    let mut buffer = [b'0'; TWO_POINTS];
    let start = write_point(point, after, &mut buffer);
    push_first_half(text, &buffer, start)
}

/// Appends a whole number without leading zeros (own). If the text can't grow, it is left as it was.
pub fn print_whole<A: Allocator + Copy + Drop>(
    text: &mut Vec<u8, A>,
    n: u64,
) -> Result<(), AllocError>
    ensures ok { OnOk result (text.new.items ≡ text.old.items ++ decimal n) }
    ensures err { OnErr result (text.new.items ≡ text.old.items) }
{
    let mut buffer = [b'0'; 20];
    let start = write_digits(n, &mut buffer, 20);
    text.extend_from_slice(&buffer[start..])
}
