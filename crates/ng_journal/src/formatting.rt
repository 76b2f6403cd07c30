//! Formatting a device: first no header is left on it, and then it stands for a fresh controller.
ghost use Rattle.std.specs.Prelude.{ℕ, ◌≡◌, ◌≤◌, ◌<◌, ◌+◌, ◌⊎◌, ◌↔◌, replicate, IsErrOf, IfErr};
ghost use Rattle.ng_num.specs.declared.fault.Fault.TheVariants.{DeviceFailed, NotFormatted};
ghost use Rattle.ng_rig.specs.Calls.{IfHonest, IsCall};
ghost use Rattle.ng_rig.specs.Trace.{reads};
ghost use Rattle.ng_layout.specs.Header.{program_limit_of};
ghost use Rattle.ng_layout.specs.Stands.{is_large};
ghost use Rattle.ng_layout.specs.Areas.{is_large_size, header_count, shortest_log, log_first, snapshot_first, snapshot_size, tools_size, least_size};
ghost use Rattle.ng_layout.specs.Limits.{sector_size};
ghost use Rattle.ng_layout.specs.Snapshot.{HoldsPart};
ghost use Rattle.ng_layout.specs.Stored.{fresh_stored};
ghost use Rattle.ng_journal.specs.Private.Overwrites.{Overwrites};
ghost use Rattle.ng_journal.specs.Formatting.{IsEmpty, FormatSpec};
ghost use Rattle.ng_journal.specs.Journal.{CountsFailure};

use crate::checkpoint::header_sector;
use ng_layout::{
    Format, HEADERS, Header, LEAST_SIZE, LOG_FIRST, SECTOR_BYTES, SHORTEST_LOG, SNAPSHOT_SIZE,
    TOOLS_SIZE, fresh_sector, snapshot_first, tools_first,
};
use ng_num::Fault;
use ng_rig::{Failed, Rig};

/// A sector of zeros.
fn empty_sector() -> [u8; SECTOR_BYTES]
    ensures { result ≡ replicate sector_size 0 }
{
    [0; SECTOR_BYTES]
}

/// Clears the headers, one after another.
fn clear_headers<R: Rig>(rig: &mut R) -> Result<(), Failed>
    requires { least_size ≤ (R.seen rig.old).sectors }
    ensures clears { IfHonest (R.seen rig.old) (R.seen rig.new)
        (Overwrites result 0 header_count IsEmpty (R.seen rig.old).trace (R.seen rig.new).trace) }
    ensures call { IsCall result (R.seen rig.old) (R.seen rig.new) }
{
    for k in 0..HEADERS {
        rig.write(k, &empty_sector())?;
        rig.sync()?;
    }
    Ok(())
}

/// Clears all parts of records.
fn clear_log<R: Rig>(rig: &mut R) -> Result<(), Failed>
    requires { least_size ≤ (R.seen rig.old).sectors }
    ensures clears { IfHonest (R.seen rig.old) (R.seen rig.new)
        (Overwrites result log_first shortest_log IsEmpty (R.seen rig.old).trace (R.seen rig.new).trace) }
    ensures call { IsCall result (R.seen rig.old) (R.seen rig.new) }
{
    for n in 0..SHORTEST_LOG {
        rig.write(LOG_FIRST + n, &empty_sector())?;
    }
    Ok(())
}

/// Writes the snapshot of a fresh controller.
fn write_fresh_snapshot<R: Rig>(rig: &mut R, first: usize) -> Result<(), Failed>
    requires sectors { least_size ≤ (R.seen rig.old).sectors }
    requires within { first + snapshot_size ≤ least_size }
    ensures writes { (most : ℕ) → IfHonest (R.seen rig.old) (R.seen rig.new)
        (Overwrites result first snapshot_size (HoldsPart (fresh_stored most)) (R.seen rig.old).trace (R.seen rig.new).trace) }
    ensures call { IsCall result (R.seen rig.old) (R.seen rig.new) }
{
    for part in 0..SNAPSHOT_SIZE {
        rig.write(first + part, &fresh_sector(part))?;
    }
    Ok(())
}

/// Writes a tool area of a fresh controller, which has no slots.
fn clear_tools<R: Rig>(rig: &mut R, first: usize) -> Result<(), Failed>
    requires sectors { least_size ≤ (R.seen rig.old).sectors }
    requires within { first + tools_size ≤ least_size }
    ensures clears { IfHonest (R.seen rig.old) (R.seen rig.new)
        (Overwrites result first tools_size IsEmpty (R.seen rig.old).trace (R.seen rig.new).trace) }
    ensures call { IsCall result (R.seen rig.old) (R.seen rig.new) }
{
    for n in 0..TOOLS_SIZE {
        rig.write(first + n, &empty_sector())?;
    }
    Ok(())
}

/// Formats a device that is large enough.
fn make_fresh<R: Rig>(rig: &mut R) -> Result<(), Failed>
    requires { least_size ≤ (R.seen rig.old).sectors }
    ensures formats { IfHonest (R.seen rig.old) (R.seen rig.new)
        (FormatSpec result (program_limit_of (is_large (reads (R.seen rig.old).trace))) (R.seen rig.old).trace (R.seen rig.new).trace) }
    ensures call { IsCall result (R.seen rig.old) (R.seen rig.new) }
{
    let header = Header {
        format: Format::Two,
        epoch: 1,
        area: 0,
        length: 0,
    };
    clear_headers(rig)?;
    clear_log(rig)?;
    write_fresh_snapshot(rig, snapshot_first(header.epoch))?;
    clear_tools(rig, tools_first(header.epoch))?;
    rig.sync()?;
    rig.write(1, &header_sector(header))?;
    rig.sync()
}

/// Formats a device (own). After Ok it has one image, which stands for a fresh controller with no program, under epoch
/// 1.
///
/// J2 for fewer than 1,710 sectors, with no call of the device. J1 if the device failed: then nothing is said of what
/// it stands for, nor of a stop before Ok, and it has to be formatted again. Only the sectors of the headers, of the
/// log and of the first epoch's snapshot are written. Nothing is handed out, and nothing is allocated.
pub fn format<R: Rig>(rig: &mut R) -> Result<(), Fault>
    ensures formats { let most = program_limit_of (is_large_size (R.seen rig.old).sectors) in least_size ≤ (R.seen rig.old).sectors
        → IfHonest (R.seen rig.old) (R.seen rig.new) (FormatSpec result most (R.seen rig.old).trace (R.seen rig.new).trace) }
    ensures small { IsErrOf result NotFormatted ↔ ((R.seen rig.old).sectors < least_size) }
    ensures unchanged { IsErrOf result NotFormatted → rig.new ≡ rig.old }
    ensures size { (R.seen rig.new).sectors ≡ (R.seen rig.old).sectors }
    ensures errors { IfErr result (λ e. (e ≡ NotFormatted) ⊎ (e ≡ DeviceFailed)) }
    ensures failures { CountsFailure result (R.seen rig.old).failed (R.seen rig.new).failed }
{
    if rig.size() < LEAST_SIZE {
        return Err(Fault::NotFormatted);
    }
    match make_fresh(rig) {
        Ok(()) => Ok(()),
        Err(Failed) => Err(Fault::DeviceFailed),
    }
}
