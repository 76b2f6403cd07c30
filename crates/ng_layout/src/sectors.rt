//! Sectors of parameters and of a program's text.
ghost use Rattle.std.specs.Prelude.{◌≡◌, ◌≤◌, ◌<◌, ◌+◌, ◌*◌, ◌-◌, ◌++◌, length, replicate};
ghost use Rattle.std.specs.Bool.{OnTrue, OnFalse};
ghost use Rattle.ng_params.specs.Params.{defaults};
ghost use Rattle.ng_layout.specs.Limits.{longest_program, sector_size};
ghost use Rattle.ng_params.specs.Numbers.{parameter_count};
ghost use Rattle.ng_layout.specs.Sectors.{HoldsValues, TakesValues, IsBeyond, HoldsText};

use crate::bytes::{get_i64, put_i64};
use ng_num::Num;
use ng_params::{Index, PARAMETER_COUNT, Params};
use std::alloc::Allocator;

/// How many parameters a sector holds.
pub const VALUES: usize = 64;

/// How many bytes a value takes.
const VALUE: usize = 8;

/// How many bytes a sector has.
pub const SECTOR_BYTES: usize = 512;

/// The sector of parameters whose first one has this index in the table, counted from 0.
pub(crate) fn values_sector<A: Allocator + Copy + Drop>(
    table: &Params<A>,
    first: usize,
) -> [u8; SECTOR_BYTES]
    requires { first ≤ parameter_count }
    ensures { HoldsValues table.now first result }
{
    let mut sector = [0; SECTOR_BYTES];
    for k in 0..VALUES {
        if first + k < PARAMETER_COUNT {
            let value = table.get(Index::known((first + k) as u16 + 1));
            put_i64(&mut sector, VALUE * k, value.count());
        }
    }
    sector
}

/// The index in a table of parameter 5220, the only one that isn't 0 in a fresh table.
const SYSTEM_INDEX: usize = 5219;

/// The number 1, in millionths.
const ONE: i64 = 1_000_000;

/// The sector of parameters of a fresh controller whose first one has this index: the system in force is 1, all else is
/// 0.
pub(crate) fn fresh_values_sector(first: usize) -> [u8; SECTOR_BYTES]
    requires { first ≤ parameter_count }
    ensures { HoldsValues defaults first result }
{
    let mut sector = [0; SECTOR_BYTES];
    if first <= SYSTEM_INDEX && SYSTEM_INDEX < first + VALUES {
        put_i64(&mut sector, VALUE * (SYSTEM_INDEX - first), ONE);
    }
    sector
}

/// Copies the values of a sector into the table, the first one to this index. Returns false if one is out of range;
/// then those before it were copied.
pub fn take_values<A: Allocator + Copy + Drop>(
    table: &mut Params<A>,
    first: usize,
    sector: &[u8; SECTOR_BYTES],
) -> bool
    requires { first ≤ parameter_count }
    ensures taken { OnTrue result (TakesValues table.old table.new first sector.now) }
    ensures beyond { OnFalse result (IsBeyond first sector.now) }
{
    for k in 0..VALUES {
        if first + k < PARAMETER_COUNT {
            match Num::of(i128::from(get_i64(sector, VALUE * k))) {
                Ok(value) => table.set(Index::known((first + k) as u16 + 1), value),
                Err(_) => return false,
            }
        }
    }
    true
}

/// Makes one table equal to another, in place.
pub(crate) fn copy_table<A: Allocator + Copy + Drop>(into: &mut Params<A>, from: &Params<A>)
    requires into { length into.old ≡ parameter_count }
    requires from { length from.now ≡ parameter_count }
    ensures { into.new ≡ from.now }
{
    for k in 0..PARAMETER_COUNT {
        let index = Index::known(k as u16 + 1);
        into.set(index, from.get(index));
    }
}

/// The sector that begins with these bytes, followed by zeros.
fn padded(bytes: &[u8]) -> [u8; SECTOR_BYTES]
    requires { length bytes.now ≤ sector_size }
    ensures { result ≡ bytes.now ++ replicate (sector_size - length bytes.now) 0 }
{
    let mut sector = [0; SECTOR_BYTES];
    sector[..bytes.len()].copy_from_slice(bytes);
    sector
}

/// The sector of a text's bytes from this index on. Past the text's end it has zeros.
pub fn text_sector(text: &[u8], first: usize) -> [u8; SECTOR_BYTES]
    requires within { first ≤ length text.now }
    requires small { length text.now ≤ longest_program }
    ensures { HoldsText text.now first result }
{
    let end = text.len().min(first + SECTOR_BYTES);
    padded(&text[first..end])
}
