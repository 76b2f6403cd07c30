//! Writing sectors of a file again as they are.
ghost use Rattle.std.specs.Prelude.{◌≡◌, ◌+◌, ◌*◌, ◌<◌, ◌^◌, IfSome, Some};
ghost use Rattle.ng_file.specs.WeakPromise.{IfWeaklyPromised, IsFirstOrLast, Rewrites};

use crate::storage::{SECTOR, Storage};
use std::io;

/// Writes the first sectors again as they are read, at most this many, and the last one (own). No byte changes, also
/// where it fails. It fails if the file does, and if it has no whole sector.
///
/// What a sync couldn't write a system may take for written, so that a read returns it and the next sync succeeds, and
/// the disk has it not. What is written again is written by the next sync, though, or that fails too.
pub fn rewrite<S: Storage>(file: &mut S, most: usize) -> io::Result<()>
    ensures same { IfSome (S.content file.old) (λ held. S.content file.new ≡ Some held) }
    ensures honest { (S.promise file.old).honest → (S.promise file.new).honest }
    ensures weakly { IfWeaklyPromised (S.weak_promise file.old) (S.weak_promise file.new)
        (Rewrites result (S.content file.old) (S.weak_promise file.old) (S.weak_promise file.new)
        (IsFirstOrLast most)) }
{
    let sectors = file.length()? / SECTOR as u64;
    for sector in 0..sectors.min(most as u64) {
        rewrite_sector(file, sector)?;
    }
    rewrite_sector(file, sectors.saturating_sub(1))
}

/// Writes a sector again as it is read. No byte changes, also where it fails.
pub(crate) fn rewrite_sector<S: Storage>(file: &mut S, sector: u64) -> io::Result<()>
    requires { 512 * sector + 512 < 2 ^ 64 }
    ensures same { IfSome (S.content file.old) (λ held. S.content file.new ≡ Some held) }
    ensures honest { (S.promise file.old).honest → (S.promise file.new).honest }
    ensures weakly { IfWeaklyPromised (S.weak_promise file.old) (S.weak_promise file.new)
        (Rewrites result (S.content file.old) (S.weak_promise file.old) (S.weak_promise file.new) (λ held n. n ≡ sector)) }
{
    let mut bytes = [0; SECTOR];
    let place = sector * SECTOR as u64;
    file.read_at(place, &mut bytes)?;
    file.write_at(place, &bytes)
}
