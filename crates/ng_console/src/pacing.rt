//! The job `pace`: when each line of OUT is due.
ghost use Rattle.std.specs.Prelude.{◌≡◌, ◌≢◌, ◌≤◌, IfOk, IfSome, OnOk, Result, length};
ghost use Rattle.std.specs.Io.KnownBytes.{Appends};
ghost use Rattle.ng_pace.specs.Axes.{AreLimits};
ghost use Rattle.ng_pace.specs.declared.limits.Limits.{Limits};
ghost use Rattle.ng_console.specs.Pacing.{FindsIn, FindsLimits, IsPaced, PacesChosen, PacesFound};
ghost use Rattle.ng_console.specs.Pacing.{pace_status, refused_machine_text, shown_of};
ghost use Rattle.ng_console.specs.SettingsFile.{most_bytes};

use crate::program::refuse_settings;
use crate::settings_file::{NoBytes, NoFile, NoSettings, read_whole};
use ng_canon::Geometry;
use ng_motion::{MotionFault, limits};
use ng_pace::Limits;
use ng_run::{DONE, FAILED};
use ng_schedule::{Ended, ScheduleFault, Shown, schedule};
use ng_settings::Settings;
use std::alloc::Global;
use std::io;
use std::io::{Read, Write};

/// The exit status if a line is refused.
const REFUSED: u8 = 1;

/// Why there are no limits.
#[derive(Clone, Copy)]
pub(crate) enum NoLimits {
    /// The file can't be opened or read, or there is no memory for its bytes.
    Unread,
    /// The file is a pipe.
    Pipe,
    /// The file is longer than 1,048,576 bytes.
    TooLong,
    /// The text is refused.
    Refused(MotionFault),
}

/// The limits of a text.
fn limits_of_text(alloc: Global, text: &[u8], machine: &Geometry) -> Result<Limits, NoLimits>
    requires { length text.now ≤ most_bytes }
    ensures finds { FindsLimits text.now machine.now result }
    ensures met { IfOk result AreLimits }
    ensures read { result ≢ Err NoLimits.Unread }
{
    match limits(alloc, text, machine) {
        Ok(limits) => Ok(limits),
        Err(fault) => Err(NoLimits::Refused(fault)),
    }
}

/// The limits of a file.
fn limits_of_file<R: Read + Drop>(
    alloc: Global,
    mut file: R,
    machine: &Geometry,
) -> Result<Limits, NoLimits>
    ensures finds { IfSome (R.remaining file) (λ text. FindsLimits text machine.now result) }
    ensures met { IfOk result AreLimits }
{
    match read_whole(alloc, &mut file) {
        Ok(bytes) => limits_of_text(alloc, bytes.as_slice(), machine),
        Err(NoBytes::TooLong) => Err(NoLimits::TooLong),
        Err(NoBytes::Unread(_)) => Err(NoLimits::Unread),
    }
}

/// The limits of an opened file.
fn limits_of_opened<R: Read + Drop>(
    alloc: Global,
    opened: Result<R, NoFile>,
    machine: &Geometry,
) -> Result<Limits, NoLimits>
    ensures finds { FindsIn R.remaining opened machine.now result }
    ensures met { IfOk result AreLimits }
{
    match opened {
        Ok(file) => limits_of_file(alloc, file, machine),
        Err(NoFile::Unopened) => Err(NoLimits::Unread),
        Err(NoFile::Pipe) => Err(NoLimits::Pipe),
    }
}

/// Writes the line of a machine's fault.
fn refuse_machine<W: Write>(writer: &mut W, fault: MotionFault) -> io::Result<()>
    ensures { OnOk result (Appends (W.contents writer.old) (W.contents writer.new) (refused_machine_text fault)) }
{
    writer.write_all(b"refused MACHINE")?;
    writer.write_all(fault.text())?;
    writer.write_all(fault.name())?;
    writer.write_all(b"\n")
}

/// What is shown of the lines.
fn shown(total: bool) -> Shown
    ensures { result ≡ shown_of total }
{
    if total { Shown::Total } else { Shown::Lines }
}

/// The exit status of a run.
fn pace_status(ended: &Result<Ended, ScheduleFault>) -> u8
    ensures value { result ≡ pace_status ended.now }
    ensures range { result ≤ 2 }
{
    match ended {
        Ok(Ended::Done) => DONE,
        Ok(Ended::NotALine(_)) | Ok(Ended::TooLate(_)) => REFUSED,
        Err(_) => FAILED,
    }
}

/// Writes the times of the lines that a reader gives, and returns the exit status.
fn pace_lines<I: Read, W: Write>(
    alloc: Global,
    limits: Limits,
    total: bool,
    reader: &mut I,
    writer: &mut W,
) -> u8
    requires { AreLimits limits }
    ensures run { IsPaced limits total (I.remaining reader.old) (W.contents writer.old) (W.contents writer.new) result }
    ensures range { result ≤ 2 }
{
    let ended = schedule(alloc, reader, writer, limits, shown(total));
    pace_status(&ended)
}

/// The same with the limits that were found. If there are none, no line is read, and if the machine's file is a pipe,
/// too long or refused, a line says so. The error is the writer's while it writes that.
fn pace_found<I: Read, W: Write>(
    alloc: Global,
    found: Result<Limits, NoLimits>,
    total: bool,
    reader: &mut I,
    writer: &mut W,
) -> io::Result<u8>
    requires { IfOk found AreLimits }
    ensures run { IfOk result
        (PacesFound found total (I.remaining reader.old) (W.contents writer.old) (W.contents writer.new)) }
    ensures range { IfOk result (λ status. status ≤ 2) }
{
    match found {
        Ok(limits) => Ok(pace_lines(alloc, limits, total, reader, writer)),
        Err(NoLimits::Unread) => Ok(FAILED),
        Err(NoLimits::Pipe) => {
            writer.write_all(b"refused MACHINE: no file, but a pipe\n")?;
            Ok(FAILED)
        }
        Err(NoLimits::TooLong) => {
            writer.write_all(b"refused MACHINE: it is longer than 1,048,576 bytes\n")?;
            Ok(FAILED)
        }
        Err(NoLimits::Refused(fault)) => {
            refuse_machine(writer, fault)?;
            Ok(FAILED)
        }
    }
}

/// Writes when each line that a reader gives is due, with the settings that were found and the limits in the file of
/// the machine, and returns the exit status. If there are no settings, that file isn't used, and if they were refused,
/// their fault is written. The error is the writer's while it writes a fault.
pub(crate) fn pace_chosen<R: Read + Drop, I: Read, W: Write>(
    alloc: Global,
    chosen: Result<Settings, NoSettings>,
    machine: Result<R, NoFile>,
    total: bool,
    reader: &mut I,
    writer: &mut W,
) -> io::Result<u8>
    ensures run { IfOk result
        (PacesChosen R.remaining chosen machine total (I.remaining reader.old) (W.contents writer.old)
        (W.contents writer.new)) }
    ensures range { IfOk result (λ status. status ≤ 2) }
{
    match chosen {
        Ok(settings) => {
            let found = limits_of_opened(alloc, machine, &settings.geometry);
            pace_found(alloc, found, total, reader, writer)
        }
        Err(why) => refuse_settings(writer, why),
    }
}
