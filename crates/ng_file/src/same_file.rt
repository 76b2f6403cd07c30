//! Whether two paths name the same file.
use std::os::unix::fs::MetadataExt;
use std::rt::Files;

/// Whether two paths name the same file, however they are written (own); a path through other directories and a link
/// count too. False if one of them doesn't exist, or the system can't tell.
pub fn is_same_file<R: Files>(rt: &R, first: &str, second: &str) -> bool {
    match (rt.metadata(first), rt.metadata(second)) {
        (Ok(first), Ok(second)) => first.dev() == second.dev() && first.ino() == second.ino(),
        _ => false,
    }
}
