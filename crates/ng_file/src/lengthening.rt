//! Lengthening a file with zeros.
ghost use Rattle.std.specs.Prelude.{◌≡◌, ◌≤◌, ℕ, IfSome, OnOk, OnErr, Some, replicate};
ghost use Rattle.std.specs.Io.KnownBytes.{Appends};
ghost use Rattle.ng_file.specs.Bytes.{Lengthened, LengthenedInPart};

use crate::rewriting::rewrite_sector;
use crate::storage::{Append, SECTOR};
use std::io;

/// Appends zeros to a file until it has this many bytes, and makes all of it durable (own). A file with as many bytes
/// or more isn't changed.
///
/// The zeros are written, so the disk holds them. So is the last sector of a file that is long enough, again as
/// it is read, since a sync of an earlier call may have failed (`rewrite`). After an error the file may have any number
/// of the zeros that it lacked, and may not be durable.
pub fn lengthen<S: Append>(file: &mut S, bytes: u64) -> io::Result<()>
    ensures lasts { OnOk result (IfSome (S.lasting file.new) (λ held. S.content file.new ≡ Some held)) }
    ensures whole { OnOk result (Lengthened bytes (S.content file.old) (S.content file.new)) }
    ensures part { OnErr result (LengthenedInPart bytes (S.content file.old) (S.content file.new)) }
{
    let missing = bytes.saturating_sub(file.length()?);
    append_zeros(file, missing)?;
    rewrite_last(file)?;
    file.sync_all()
}

/// Writes the last sector of a file again as it is read, if there is one. No byte changes, also where it fails.
fn rewrite_last<S: Append>(file: &mut S) -> io::Result<()>
    ensures { IfSome (S.content file.old) (λ held. S.content file.new ≡ Some held) }
{
    match file.length()? / SECTOR as u64 {
        0 => Ok(()),
        sectors => rewrite_sector(file, sectors - 1),
    }
}

/// Appends this many zeros. After an error it may have appended fewer.
fn append_zeros<S: Append>(file: &mut S, count: u64) -> io::Result<()>
    ensures whole { OnOk result (Appends (S.content file.old) (S.content file.new) (replicate count 0)) }
    ensures part { OnErr result ((n : ℕ) × (n ≤ count) × Appends (S.content file.old) (S.content file.new) (replicate n 0)) }
{
    let mut appended = 0;
    while appended < count {
        let piece = (count - appended).min(SECTOR as u64);
        append_piece(file, piece as usize)?;
        appended += piece;
    }
    Ok(())
}

/// Appends this many zeros, at most a sector of them. After an error it may have appended fewer.
fn append_piece<S: Append>(file: &mut S, count: usize) -> io::Result<()>
    requires { count ≤ 512 }
    ensures whole { OnOk result (Appends (S.content file.old) (S.content file.new) (replicate count 0)) }
    ensures part { OnErr result ((n : ℕ) × (n ≤ count) × Appends (S.content file.old) (S.content file.new) (replicate n 0)) }
{
    let zeros = [0; SECTOR];
    file.append(&zeros[..count])
}
