//! Sectors of a device: what is in them, made by hand.
use ng_rig::Rig;

/// The text that a header begins with, as a number.
const MARK: i64 = 0x4347_4e34_3732_5352;

/// The modes of a fresh state: G80 G17 G90 G94 G21 G98 G54 G64 M48, and the position known. Each is a byte, its width
/// and the number there.
pub const FRESH: [(usize, usize, i64); 10] = [
    (144, 1, 80),
    (145, 1, 17),
    (146, 1, 90),
    (147, 1, 94),
    (148, 1, 21),
    (149, 1, 98),
    (150, 1, 1),
    (151, 1, 2),
    (155, 1, 1),
    (156, 1, 1),
];

/// Puts a number with this many bytes into a sector, the lowest byte first.
pub fn put(sector: &mut [u8; 512], at: usize, width: usize, number: i64) {
    for (byte, place) in number
        .to_le_bytes()
        .iter()
        .take(width)
        .zip(sector.iter_mut().skip(at))
    {
        *place = *byte;
    }
}

/// A sector with these numbers, each with its byte and width, and 0 elsewhere.
pub fn sector_with(fields: &[(usize, usize, i64)]) -> [u8; 512] {
    let mut sector = [0; 512];
    for (at, width, number) in fields {
        put(&mut sector, *at, *width, *number);
    }
    sector
}

/// The sector of a header of this format with this epoch, program area and length.
pub fn header_of(format: i64, epoch: i64, area: i64, length: i64) -> [u8; 512] {
    sector_with(&[
        (0, 8, MARK),
        (8, 4, format),
        (16, 8, epoch),
        (24, 8, area),
        (32, 8, length),
    ])
}

/// The same without a program.
pub fn header(format: i64, epoch: i64) -> [u8; 512] {
    header_of(format, epoch, 0, 0)
}

/// What a sector reads as; all 255 if it can't be read.
pub fn sector_of<R: Rig>(rig: &mut R, sector: usize) -> [u8; 512] {
    let mut bytes = [255; 512];
    if sector < rig.size() && rig.read(sector, &mut bytes).is_ok() {
        bytes
    } else {
        [255; 512]
    }
}

/// Writes a sector. Returns false if that fails.
pub fn store<R: Rig>(rig: &mut R, sector: usize, bytes: &[u8; 512]) -> bool {
    sector < rig.size() && rig.write(sector, bytes).is_ok()
}

/// Writes this byte to all bytes of all sectors.
pub fn fill<R: Rig>(rig: &mut R, byte: u8) -> bool {
    for sector in 0..rig.size() {
        if !store(rig, sector, &[byte; 512]) {
            return false;
        }
    }
    true
}
