//! The rows of a state field: its numbers, each with the byte at which it begins.
ghost use Rattle.std.specs.Prelude.{◌≡◌, ◌+◌, ◌≤◌, true, ℕ, length};
ghost use Rattle.std.specs.List.{All};
ghost use Rattle.ng_layout.specs.Fields.{SameBelow, SameFrom};
ghost use Rattle.ng_layout.specs.Rows.{width, IsAt, AreAt, are_joined};

use crate::bytes::{put_i64, put_u8, put_u16, put_u64};

/// A number as it is stored, the lowest byte first; an i64 in two's complement.
#[derive(Clone, Copy)]
pub(crate) enum Number {
    U8(u8),
    U16(u16),
    U64(u64),
    I64(i64),
}

/// The byte at which a number begins, and the number.
pub(crate) type Row = (usize, Number);

fn put(bytes: &mut [u8], at: usize, number: Number)
    requires { at + width number ≤ length bytes.old }
    ensures is { IsAt at number bytes.new }
    ensures below { SameBelow at bytes.old bytes.new }
    ensures beyond { SameFrom (at + width number) bytes.old bytes.new }
{
    match number {
        Number::U8(x) => put_u8(bytes, at, x),
        Number::U16(x) => put_u16(bytes, at, x),
        Number::U64(x) => put_u64(bytes, at, x),
        Number::I64(x) => put_i64(bytes, at, x),
    }
}

/// Writes numbers. If they follow one another, each is there afterwards, and all bytes after them stay.
pub(crate) fn put_rows(bytes: &mut [u8], rows: &[Row])
    requires { All (λ row. row.0 + width row.1 ≤ length bytes.old) rows.now }
    ensures are { (from to : ℕ) → are_joined from rows.now to ≡ true → AreAt rows.now bytes.new }
    ensures beyond { (from to : ℕ) → are_joined from rows.now to ≡ true → SameFrom to bytes.old bytes.new }
{
    for (at, number) in rows {
        put(bytes, *at, *number);
    }
}
