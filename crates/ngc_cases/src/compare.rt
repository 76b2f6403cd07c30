//! Where a text differs from the expected one.
use anyhow::Result;
use std::alloc::Global;

fn is_newline(byte: &u8) -> bool {
    *byte == b'\n'
}

/// A line as it is printed; a missing line prints as none.
fn shown(alloc: Global, line: Option<&[u8]>) -> Result<String> {
    match line {
        Some(bytes) => {
            let text = String::from_utf8_lossy(alloc, bytes)?;
            Ok(format!(in alloc; "'{text}'")?)
        }
        None => Ok(String::from_str(alloc, "no such line")?),
    }
}

/// The message for a line that differs.
fn difference(
    alloc: Global,
    n: usize,
    wanted: Option<&[u8]>,
    found: Option<&[u8]>,
) -> Result<Option<String>> {
    let wanted = shown(alloc, wanted)?;
    let found = shown(alloc, found)?;
    let n = n.saturating_add(1);
    Ok(Some(format!(in alloc; "line {n} is {found}, wanted was {wanted}")?))
}

/// The first line in which a text differs from the expected one, if there is one.
pub fn first_difference(alloc: Global, wanted: &[u8], found: &[u8]) -> Result<Option<String>> {
    let mut lines = found.split(is_newline);
    let mut count = 0usize;
    for line in wanted.split(is_newline) {
        let other = lines.next();
        if other != Some(line) {
            return difference(alloc, count, Some(line), other);
        }
        count = count.saturating_add(1);
    }
    match lines.next() {
        Some(line) => difference(alloc, count, None, Some(line)),
        None => Ok(None),
    }
}

/// Whether a text has this start and this end, with anything between.
fn is_between(found: &[u8], front: &str, end: &str) -> bool {
    match found.strip_prefix(front.as_bytes()) {
        Some(rest) => rest.ends_with(end.as_bytes()),
        None => false,
    }
}

/// How a text differs from the expected one, if it does. `...` stands for anything.
pub fn first_mismatch(alloc: Global, wanted: &[u8], found: &[u8]) -> Result<Option<String>> {
    match std::str::from_utf8(wanted)?.split_once("...") {
        Some((front, end)) if is_between(found, front, end) => Ok(None),
        _ => first_difference(alloc, wanted, found),
    }
}

/// The message for a status that isn't the expected one.
pub fn other_status(alloc: Global, wanted: u8, found: u8) -> Result<Option<String>> {
    if wanted == found {
        return Ok(None);
    }
    Ok(Some(format!(in alloc; "the status is {found}, wanted was {wanted}")?))
}
