//! The job `format`: a device is made fresh.
ghost use Rattle.std.specs.Prelude.{◌≡◌, ◌<◌, ◌≤◌, ◌↔◌, ◌⊎◌, IfErr, IfOk, IsErrOf};
ghost use Rattle.ng_num.specs.declared.fault.Fault.TheVariants.{DeviceFailed, NotFormatted};
ghost use Rattle.ng_rig.specs.Calls.{IfHonest};
ghost use Rattle.ng_layout.specs.Areas.{is_large_size};
ghost use Rattle.ng_layout.specs.Header.{program_limit_of};
ghost use Rattle.ng_journal.specs.Formatting.{FormatSpec};
ghost use Rattle.ng_journal.specs.Journal.{CountsFailure};
ghost use Rattle.ng_console.specs.Format.{FormatsDevice, FormatsOpened, FormatsRig};
ghost use Rattle.ng_console.specs.Refusals.{IsFaultOf, RefusesDevice, RefusesStorage};
ghost use Rattle.ng_console.specs.Size.{wanted_size};

use crate::program::refuse;
use crate::size::wanted_size;
use ng_file::{FileRig, NoDevice, Storage};
use ng_journal::format;
use ng_num::Fault;
use ng_rig::Rig;
use ng_run::{DONE, FAILED};
use std::alloc::Global;
use std::io;
use std::io::{ErrorKind, Write};

/// Makes the device in an opened file fresh, perhaps as a large device, and returns the exit status: 0 if that is done.
/// If the file couldn't be opened, nothing is written. If it can't be used, is too short or fails, or if there is no
/// memory, the line of the fault is written. The error is the writer's.
pub(crate) fn format_opened<S: Storage + Drop, W: Write>(
    alloc: Global,
    opened: Result<S, NoDevice>,
    large: bool,
    writer: &mut W,
) -> io::Result<u8>
    ensures run { IfOk result (FormatsOpened S.content S.promise large opened (W.contents writer.old) (W.contents writer.new)) }
    ensures range { IfOk result (λ status. status ≤ 2) }
{
    match opened {
        Ok(file) => format_storage(alloc, file, large, writer),
        Err(why) => refuse_device(writer, why),
    }
}

/// Reports why there is no device, and returns the exit status. Nothing is written for a file that couldn't be opened;
/// the line of the fault for one that can't be used. The error is the writer's.
pub(crate) fn refuse_device<W: Write>(writer: &mut W, why: NoDevice) -> io::Result<u8>
    ensures run { IfOk result (RefusesDevice why (W.contents writer.old) (W.contents writer.new)) }
    ensures range { IfOk result (λ status. status ≤ 2) }
{
    match why {
        NoDevice::Unopened => Ok(FAILED),
        NoDevice::Unusable => {
            refuse(writer, Fault::DeviceFailed)?;
            Ok(FAILED)
        }
    }
}

/// Makes the device over these bytes fresh.
fn format_storage<S: Storage + Drop, W: Write>(
    alloc: Global,
    file: S,
    large: bool,
    writer: &mut W,
) -> io::Result<u8>
    ensures run { IfOk result (FormatsDevice S.content S.promise large file (W.contents writer.old) (W.contents writer.new)) }
    ensures range { IfOk result (λ status. status ≤ 2) }
{
    match FileRig::over(alloc, file, io::sink()) {
        Ok(mut rig) => format_rig(&mut rig, large, writer),
        Err(error) => refuse_storage(writer, error),
    }
}

/// Reports why an opened file can't be made a device, and returns the exit status: the line of the fault is written.
/// The error is the writer's.
pub(crate) fn refuse_storage<W: Write>(writer: &mut W, why: io::Error) -> io::Result<u8>
    ensures run { IfOk result (RefusesStorage why (W.contents writer.old) (W.contents writer.new)) }
    ensures range { IfOk result (λ status. status ≤ 2) }
{
    refuse(writer, fault_of(&why))?;
    Ok(FAILED)
}

/// The fault for an error of an opened file. Being out of memory isn't a failure of the device.
pub(crate) fn fault_of(error: &io::Error) -> Fault
    ensures { IsFaultOf error.now result }
{
    if error.kind() == ErrorKind::OutOfMemory {
        Fault::OutOfMemory
    } else {
        Fault::DeviceFailed
    }
}

/// Makes a device fresh, perhaps as a large device, and returns the exit status: 0 if that is done, else 2, and the
/// line of the fault is written. The error is the writer's.
pub fn format_rig<R: Rig, W: Write>(rig: &mut R, large: bool, writer: &mut W) -> io::Result<u8>
    ensures range { IfOk result (λ status. status ≤ 2) }
    ensures run { IfOk result (FormatsRig large R.seen rig.old rig.new (W.contents writer.old) (W.contents writer.new)) }
{
    match format_wanted(rig, large) {
        Ok(()) => Ok(DONE),
        Err(fault) => {
            refuse(writer, fault)?;
            Ok(FAILED)
        }
    }
}

/// Makes a device fresh that has enough sectors, those of a large device if one is wanted. J2 if it has fewer; then it
/// isn't called.
fn format_wanted<R: Rig>(rig: &mut R, large: bool) -> Result<(), Fault>
    ensures formats { let most = program_limit_of (is_large_size (R.seen rig.old).sectors) in wanted_size large ≤ (R.seen rig.old).sectors
        → IfHonest (R.seen rig.old) (R.seen rig.new) (FormatSpec result most (R.seen rig.old).trace (R.seen rig.new).trace) }
    ensures small { IsErrOf result NotFormatted ↔ ((R.seen rig.old).sectors < wanted_size large) }
    ensures unchanged { IsErrOf result NotFormatted → rig.new ≡ rig.old }
    ensures errors { IfErr result (λ e. (e ≡ NotFormatted) ⊎ (e ≡ DeviceFailed)) }
    ensures failures { CountsFailure result (R.seen rig.old).failed (R.seen rig.new).failed }
{
    if rig.size() < wanted_size(large) {
        return Err(Fault::NotFormatted);
    }
    format(rig)
}
