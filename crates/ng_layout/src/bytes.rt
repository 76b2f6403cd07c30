//! Numbers at positions in a sequence of bytes, the lowest byte first.
ghost use Rattle.std.specs.Prelude.{◌≡◌, ◌+◌, ◌≤◌, length};
ghost use Rattle.ng_layout.specs.Fields.{number_at, signed_at, bytes_at, Puts};
ghost use Rattle.ng_layout.specs.Limits.{longest_text};

use crate::half::LONGEST_TEXT;
use byteorder::{ByteOrder, LittleEndian};

#[tactic(auto, unfolding(crate::specs::Fields::number_at))]
pub(crate) fn get_u64(bytes: &[u8], at: usize) -> u64
    requires { at + 8 ≤ length bytes.now }
    ensures { result ≡ number_at 8 at bytes.now }
{
    LittleEndian::read_u64(&bytes[at..])
}

#[tactic(auto, unfolding(crate::specs::Fields::number_at))]
pub(crate) fn get_u32(bytes: &[u8], at: usize) -> u32
    requires { at + 4 ≤ length bytes.now }
    ensures { result ≡ number_at 4 at bytes.now }
{
    LittleEndian::read_u32(&bytes[at..])
}

#[tactic(auto, unfolding(crate::specs::Fields::number_at))]
pub(crate) fn get_u16(bytes: &[u8], at: usize) -> u16
    requires { at + 2 ≤ length bytes.now }
    ensures { result ≡ number_at 2 at bytes.now }
{
    LittleEndian::read_u16(&bytes[at..])
}

#[tactic(auto, unfolding(crate::specs::Fields::number_at))]
pub(crate) fn get_u8(bytes: &[u8], at: usize) -> u8
    requires { at + 1 ≤ length bytes.now }
    ensures { result ≡ number_at 1 at bytes.now }
{
    bytes[at]
}

/// Two's complement.
#[tactic(auto, unfolding(crate::specs::Fields::signed_at))]
pub(crate) fn get_i64(bytes: &[u8], at: usize) -> i64
    requires { at + 8 ≤ length bytes.now }
    ensures { result ≡ signed_at at bytes.now }
{
    get_u64(bytes, at).cast_signed()
}

pub(crate) fn put_u64(bytes: &mut [u8], at: usize, x: u64)
    requires { at + 8 ≤ length bytes.old }
    ensures { Puts (number_at 8 at) at (at + 8) x bytes.old bytes.new }
{
    LittleEndian::write_u64(&mut bytes[at..], x);
}

pub(crate) fn put_u32(bytes: &mut [u8], at: usize, x: u32)
    requires { at + 4 ≤ length bytes.old }
    ensures { Puts (number_at 4 at) at (at + 4) x bytes.old bytes.new }
{
    LittleEndian::write_u32(&mut bytes[at..], x);
}

pub(crate) fn put_u16(bytes: &mut [u8], at: usize, x: u16)
    requires { at + 2 ≤ length bytes.old }
    ensures { Puts (number_at 2 at) at (at + 2) x bytes.old bytes.new }
{
    LittleEndian::write_u16(&mut bytes[at..], x);
}

pub(crate) fn put_u8(bytes: &mut [u8], at: usize, x: u8)
    requires { at + 1 ≤ length bytes.old }
    ensures { Puts (number_at 1 at) at (at + 1) x bytes.old bytes.new }
{
    bytes[at] = x;
}

pub(crate) fn put_i64(bytes: &mut [u8], at: usize, x: i64)
    requires { at + 8 ≤ length bytes.old }
    ensures { Puts (signed_at at) at (at + 8) x bytes.old bytes.new }
{
    put_u64(bytes, at, x.cast_unsigned());
}

pub(crate) fn put_text(bytes: &mut [u8], at: usize, text: &[u8; LONGEST_TEXT])
    requires { at + longest_text ≤ length bytes.old }
    ensures { Puts (bytes_at longest_text at) at (at + longest_text) text.now bytes.old bytes.new }
{
    bytes[at..at + LONGEST_TEXT].copy_from_slice(text);
}
