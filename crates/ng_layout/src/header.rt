//! The header of an epoch. It names the snapshot, the program and the tool table in force.
ghost use Rattle.std.specs.Prelude.{◌≡◌, ◌≤◌, IfSome};

use crate::areas::{LONGEST_LOG, SHORTEST_LOG, greatest_area, longest_in};
use crate::bytes::{get_u32, get_u64, put_u32, put_u64};
use crate::decoding::GREATEST_COUNT;
use crate::sectors::SECTOR_BYTES;

/// The text that a header begins with.
const MAGIC: &[u8; 8] = b"RS274NGC";

/// The bytes at which its numbers begin.
const FORMAT_AT: usize = 8;

const EPOCH_AT: usize = 16;

const AREA_AT: usize = 24;

const LENGTH_AT: usize = 32;

/// The format of a device.
#[derive(Clone, Copy, Debug, PartialEq, Eq)]
pub enum Format {
    /// Without a tool table. It is only read, and converted to format 2 when power comes on.
    One,
    /// With a tool table.
    Two,
}

impl Format {
    ghost use Rattle.ng_layout.specs.Areas.{log_size, longest_log};
    ghost use Rattle.ng_layout.specs.Codes.{format_of, code_of_format};

    fn of(number: u32) -> Option<Format>
        ensures { result ≡ format_of number }
    {
        match number {
            1 => Some(Format::One),
            2 => Some(Format::Two),
            _ => None,
        }
    }

    fn number(self) -> u32
        ensures { result ≡ code_of_format self }
    {
        match self {
            Format::One => 1,
            Format::Two => 2,
        }
    }

    /// How many sectors the log has, from `LOG_FIRST` on.
    pub fn log_size(self) -> usize
        ensures value { result ≡ log_size self }
        ensures most { result ≤ longest_log }
    {
        match self {
            Format::One => LONGEST_LOG,
            Format::Two => SHORTEST_LOG,
        }
    }
}

/// The header of an epoch (own).
#[derive(Clone, Copy, Debug, PartialEq, Eq)]
pub struct Header {
    pub format: Format,
    /// 1 to 1,000,000,000,000.
    pub epoch: u64,
    /// The program area in force, 0 to 3.
    pub area: u64,
    /// The bytes of the program, 0 to 1,048,576.
    pub length: u64,
}

impl Header {
    ghost use Rattle.ng_layout.specs.Header.{is_valid_header, header_in, IsValidHeader, HoldsHeader};
    ghost use Rattle.ng_layout.specs.Areas.{longest_log, log_size_of};

    /// The header in sector `k`, on a large device or on a small one. `None` if it isn't valid there.
    #[tactic(auto, unfolding(crate::specs::Header::header_in, crate::specs::Header::header_at, crate::specs::Header::is_marked))]
    pub fn read(is_large: bool, k: u64, sector: &[u8; SECTOR_BYTES]) -> Option<Header>
        ensures value { result ≡ header_in is_large k sector.now }
        ensures valid { IfSome result (IsValidHeader is_large) }
    {
        let is_marked = get_u64(sector, 0) == get_u64(MAGIC, 0);
        let header = Header {
            format: Format::of(get_u32(sector, FORMAT_AT))?,
            epoch: get_u64(sector, EPOCH_AT),
            area: get_u64(sector, AREA_AT),
            length: get_u64(sector, LENGTH_AT),
        };
        if is_marked && header.is_within(is_large) && header.epoch % 2 == k {
            Some(header)
        } else {
            None
        }
    }

    fn is_within(self, is_large: bool) -> bool
        ensures { result ≡ is_valid_header is_large self }
    {
        1 <= self.epoch
            && self.epoch <= GREATEST_COUNT
            && self.area <= greatest_area(is_large)
            && self.length <= longest_in(self.area)
    }

    /// How many sectors the log has, from `LOG_FIRST` on.
    pub fn log_size(self) -> usize
        ensures value { result ≡ log_size_of self }
        ensures most { result ≤ longest_log }
    {
        self.format.log_size()
    }

    /// The sector with this header. All other bytes are 0.
    pub fn write(self) -> [u8; SECTOR_BYTES]
        ensures { HoldsHeader self result }
    {
        let mut sector = [0; SECTOR_BYTES];
        put_u64(&mut sector, 0, get_u64(MAGIC, 0));
        put_u32(&mut sector, FORMAT_AT, self.format.number());
        put_u64(&mut sector, EPOCH_AT, self.epoch);
        put_u64(&mut sector, AREA_AT, self.area);
        put_u64(&mut sector, LENGTH_AT, self.length);
        sector
    }
}
