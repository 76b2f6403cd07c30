//! The bytes of a device, as the rows of a case list them: a sector, a place in it, and bytes as digits.
use anyhow::{Context, Result, ensure};
use std::alloc::Global;

/// The bytes of a sector.
const SECTOR: usize = 512;

/// The bytes of a device of the least size.
const LEAST_DEVICE: usize = 875_520;

/// More bytes than a device of a case has.
const MOST: usize = 4 * LEAST_DEVICE;

fn byte_of(pair: &[u8]) -> Result<u8> {
    Ok(u8::from_str_radix(std::str::from_utf8(pair)?, 16)?)
}

/// Writes the bytes of a row. A device that is too short for them grows.
fn put_row(device: &mut Vec<u8>, row: &str) -> Result<()> {
    let (sector, rest) = row.split_once(' ').context("no place")?;
    let (place, digits) = rest.split_once(' ').context("no bytes")?;
    let sector: usize = sector.parse()?;
    let from = sector.saturating_mul(SECTOR).saturating_add(place.parse()?);
    let end = from.saturating_add(digits.len() / 2);
    ensure!(digits.len() % 2 == 0, "half a byte");
    ensure!(end <= MOST, "past the end");
    if device.len() < end {
        device.resize(end, 0)?;
    }
    let behind = device.as_mut_slice().split_at_mut_checked(from);
    let (_, to) = behind.context("past the end")?;
    for (byte, pair) in to.iter_mut().zip(digits.as_bytes().chunks(2)) {
        *byte = byte_of(pair)?;
    }
    Ok(())
}

/// Writes the bytes of these rows.
pub fn put_rows(device: &mut Vec<u8>, rows: &[u8]) -> Result<()> {
    for row in std::str::from_utf8(rows)?.lines() {
        put_row(device, row).context(format_args!("{row}"))?;
    }
    Ok(())
}

/// The first byte in which two devices differ, if there is one.
fn first_other_byte(alloc: Global, wanted: &[u8], found: &[u8]) -> Result<Option<String>> {
    for (n, (byte, other)) in wanted.iter().zip(found).enumerate() {
        if byte != other {
            let (sector, place) = (n / SECTOR, n % SECTOR);
            return Ok(Some(format!(in alloc;
                "byte {place} of sector {sector} is {other:02x}, wanted was {byte:02x}"
            )?));
        }
    }
    Ok(None)
}

/// Where a device differs from what these rows list, with zeros elsewhere and no more sectors than needed, if it
/// differs.
pub fn first_difference(alloc: Global, rows: &[u8], device: &[u8]) -> Result<Option<String>> {
    let mut wanted = vec![in alloc; 0u8; LEAST_DEVICE]?;
    put_rows(&mut wanted, rows)?;
    let (length, found) = (wanted.len(), device.len());
    if length != found {
        return Ok(Some(format!(in alloc; "there are {found} bytes, wanted were {length}")?));
    }
    if wanted.as_slice() == device {
        return Ok(None);
    }
    first_other_byte(alloc, wanted.as_slice(), device)
}
