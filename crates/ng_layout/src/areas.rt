//! Which sectors of a device are used for what: two headers, two snapshot areas, two program areas, and the log. In
//! format 2 the log is shorter and is followed by two tool areas. A large device has two larger program areas at its
//! end.
ghost use Rattle.std.specs.Prelude.{true, false, ◌≡◌, ◌≢◌, ◌≤◌, ◌+◌};
ghost use Rattle.ng_layout.specs.Areas.{least_size, large_size, snapshot_size, snapshot_first, greatest_area};
ghost use Rattle.ng_layout.specs.Areas.{program_size, program_first, spare_area, tools_size, tools_first};
ghost use Rattle.ng_layout.specs.Header.{longest_in, program_limit_of};

use crate::sectors::SECTOR_BYTES;

/// How many sectors hold headers, from sector 0 on.
pub const HEADERS: usize = 2;

/// How many sectors a snapshot area has: one for the state field, 85 for the parameters.
pub const SNAPSHOT_SIZE: usize = 86;

/// The first sector of the first program area.
const FIRST_PROGRAM: usize = HEADERS + 2 * SNAPSHOT_SIZE;

/// How many sectors program areas 0 and 1 have.
const PROGRAM_SIZE: usize = 256;

/// How many sectors program areas 2 and 3 have. Only a large device has them.
const LARGE_PROGRAM_SIZE: usize = 2048;

/// The least number of sectors of a large device.
pub const LARGE_SIZE: usize = LEAST_SIZE + 2 * LARGE_PROGRAM_SIZE;

/// The first sector of the log.
pub const LOG_FIRST: usize = FIRST_PROGRAM + 2 * PROGRAM_SIZE;

/// The most sectors of a log, and the fewest.
pub const LONGEST_LOG: usize = 1024;

pub const SHORTEST_LOG: usize = 1020;

/// How many sectors a tool area has.
pub const TOOLS_SIZE: usize = 2;

/// How many sectors a device needs.
pub const LEAST_SIZE: usize = LOG_FIRST + LONGEST_LOG;

/// The first sector of the snapshot area of an epoch (own).
pub fn snapshot_first(epoch: u64) -> usize
    ensures is { result ≡ snapshot_first epoch }
    ensures within { result + snapshot_size ≤ least_size }
{
    HEADERS + SNAPSHOT_SIZE * (epoch % 2) as usize
}

/// The greatest number of a program area, on a large device or on a small one.
pub(crate) fn greatest_area(is_large: bool) -> u64
    ensures { result ≡ greatest_area is_large }
{
    if is_large { 3 } else { 1 }
}

/// How many sectors the program area of this number has.
fn program_size(area: u64) -> usize
    ensures { result ≡ program_size area }
{
    if 2 <= area {
        LARGE_PROGRAM_SIZE
    } else {
        PROGRAM_SIZE
    }
}

/// The most bytes of a program in the area of this number.
pub(crate) fn longest_in(area: u64) -> u64
    ensures { result ≡ longest_in area }
{
    (SECTOR_BYTES * program_size(area)) as u64
}

/// The most bytes of a program on a large device, or on a small one (own).
pub fn program_limit_of(is_large: bool) -> u64
    ensures { result ≡ program_limit_of is_large }
{
    longest_in(greatest_area(is_large))
}

/// The first sector of the program area of this number, 0 to 3 (own).
pub fn program_first(area: u64) -> usize
    requires { area ≤ greatest_area true }
    ensures is { result ≡ program_first area }
    ensures within { result + program_size area ≤ large_size }
    ensures small { area ≤ greatest_area false → result + program_size area ≤ least_size }
{
    if 2 <= area {
        LEAST_SIZE + LARGE_PROGRAM_SIZE * (area - 2) as usize
    } else {
        FIRST_PROGRAM + PROGRAM_SIZE * area as usize
    }
}

/// The program area that a load writes to while this one is in force, on a large device or on a small one (own).
pub fn spare_area(is_large: bool, area: u64) -> u64
    requires { area ≤ greatest_area is_large }
    ensures is { result ≡ spare_area is_large area }
    ensures most { result ≤ greatest_area is_large }
    ensures apart { result ≢ area }
    ensures program_limit { longest_in result ≡ program_limit_of is_large }
{
    if !is_large {
        1 - area
    } else if area == 2 {
        3
    } else {
        2
    }
}

/// The first sector of the tool area of an epoch, in format 2 (own).
pub fn tools_first(epoch: u64) -> usize
    ensures is { result ≡ tools_first epoch }
    ensures within { result + tools_size ≤ least_size }
{
    LOG_FIRST + SHORTEST_LOG + TOOLS_SIZE * (epoch % 2) as usize
}
