//! The job `run`: an operator commands a controller over a device.
ghost use Rattle.std.specs.Prelude.{◌≡◌, ◌≤◌, Result, Some, IfErr, IfOk, IfSome, OnOk};
ghost use Rattle.ng_file.specs.declared.device.NoDevice.{NoDevice};
ghost use Rattle.ng_file.specs.declared.opened.OpenedFile.{OpenedFile};
ghost use Rattle.ng_file.specs.Promise.{IsDurable};
ghost use Rattle.ng_file.specs.WeakPromise.{IfWeaklyPromised};
ghost use Rattle.ng_console.specs.Operating.{LeavesFilesAlone, OperatesChosen, OperatesDevice, OperatesOpened, OperatesSettled};
ghost use Rattle.ng_console.specs.Settling.{SettlesTheRest};

use crate::format::{refuse_device, refuse_storage};
use crate::grow::is_device;
use crate::program::refuse_settings;
use crate::settings_file::NoSettings;
use ng_file::{
    Beginning, FileRig, Hold, NoDevice, NotHeld, RecordedRig, Storage, is_same_file, open_device,
    rewrite,
};
use ng_layout::LARGE_SIZE;
use ng_run::{FAILED, console};
use ng_settings::Settings;
use std::alloc::Global;
use std::fs::OpenOptions;
use std::io;
use std::io::{ErrorKind, Read, Write};
use std::marker::Brand;
use std::rt::Files;

/// Operates the machine of a device with the settings that were found, and returns the exit status. If there are none,
/// no file is opened, and if the settings were refused, their fault is written. The error is the writer's while it
/// writes that fault.
pub(crate) fn operate_chosen<R: Files + AllocGlobal, I: Read, W: Write>(
    rt: &R,
    chosen: Result<Settings, NoSettings>,
    device: &str,
    out: &str,
    reader: &mut I,
    writer: &mut W,
) -> io::Result<u8>
where
    R::File: Hold,
    ensures run { IfOk result (OperatesChosen R.File.contents chosen (I.remaining reader.old) (W.contents writer.old) (W.contents writer.new)) }
    ensures range { IfOk result (λ status. status ≤ 2) }
{
    match chosen {
        Ok(settings) => operate_files(rt, settings, device, out, reader, writer),
        Err(why) => refuse_settings(writer, why),
    }
}

/// Whether a device, its settings file and the file for hand-outs are three different files. Otherwise pulses would be
/// appended to the device or to the settings, or a device's sectors written over one of the others.
pub(crate) fn are_three_files<R: Files>(rt: &R, device: &str, settings: &str, out: &str) -> bool {
    !is_same_file(rt, device, settings)
        && !is_same_file(rt, device, out)
        && !is_same_file(rt, settings, out)
}

/// Opens the device, then the file for hand-outs, holds both, and operates the machine. If there is no device, the
/// other file isn't opened, and so not created.
fn operate_files<R: Files + AllocGlobal, I: Read, W: Write>(
    rt: &R,
    settings: Settings,
    device: &str,
    out: &str,
    reader: &mut I,
    writer: &mut W,
) -> io::Result<u8>
where
    R::File: Hold,
    ensures run { IfOk result
        (λ status. (device : Result (OpenedFile R.File) NoDevice)
        × OperatesOpened R.File.contents settings device (I.remaining reader.old) (W.contents writer.old)
        (W.contents writer.new) status) }
    ensures range { IfOk result (λ status. status ≤ 2) }
{
    match open_device(rt, device) {
        Ok(file) => match open_out(rt, out) {
            Ok(out) => {
                let (status, _, _) = operate_device(
                    rt.alloc(),
                    settings,
                    file,
                    out,
                    reader,
                    writer,
                );
                status
            }
            Err(_) => Ok(FAILED),
        },
        Err(why) => refuse_device(writer, why),
    }
}

/// Opens the file for hand-outs to append to it, creates it if there is none, and holds it for this process alone;
/// otherwise the items of two sessions over two devices could be mixed in it. The error is `WouldBlock` if another
/// process holds it.
fn open_out<R: Files>(rt: &R, path: &str) -> io::Result<R::File>
where
    R::File: Hold,
{
    let file = OpenOptions::new().append(true).create(true).open(rt, path)?;
    match file.hold() {
        Ok(()) => Ok(file),
        Err(NotHeld) => Err(io::Error::from(ErrorKind::WouldBlock)),
    }
}

/// Operates the machine of the device in these bytes, and appends what is handed out to a file. Before that it makes
/// what a read of them returns durable (`settle`). If that fails, the line of J1 is written, and nothing else is done.
/// It gives the bytes and the file back. The error is the writer's, and is possible only then, or if the length can't
/// be read or there is no memory for a line of the file.
pub fn operate_device<S: Storage + Drop, O: Write + Drop, I: Read, W: Write>(
    alloc: Global,
    settings: Settings,
    mut device: S,
    out: O,
    reader: &mut I,
    writer: &mut W,
) -> (io::Result<u8>, S, O)
    ensures run { IfOk result.0 (λ status.
        OperatesDevice S.content O.contents S.promise settings (I.remaining reader.old) (W.contents writer.old) (W.contents writer.new)
        S.lasting S.weak_promise device out status result.1 result.2) }
    ensures failed { IfErr result.0 (λ error. LeavesFilesAlone S.content device result.1 out result.2) }
    ensures range { IfOk result.0 (λ status. status ≤ 2) }
{
    if settle(&mut device).is_err() {
        return (refuse_device(writer, NoDevice::Unusable), device, out);
    }
    operate_settled::<S, O, I, W, Brand>(alloc, settings, device, out, reader, writer)
}

/// Operates the machine of a device that is settled, and gives the bytes and the file back. What that held at first is
/// known by a type (`Beginning`).
fn operate_settled<S: Storage + Drop, O: Write + Drop, I: Read, W: Write, B: Beginning>(
    alloc: Global,
    settings: Settings,
    device: S,
    out: O,
    reader: &mut I,
    writer: &mut W,
) -> (io::Result<u8>, S, O)
    requires { B.first ≡ O.contents out }
    ensures run { IfOk result.0 (λ status.
        OperatesSettled S.content O.contents S.promise settings (I.remaining reader.old) (W.contents writer.old) (W.contents writer.new)
        device out status result.1 result.2) }
    ensures failed { IfErr result.0 (λ error. LeavesFilesAlone S.content device result.1 out result.2) }
    ensures range { IfOk result.0 (λ status. status ≤ 2) }
{
    match FileRig::over_or_back(alloc, device, out) {
        Ok(rig) => {
            let rig = RecordedRig::<S, O, Global, B>::of(rig);
            let (status, rig) = console(alloc, reader, writer, rig, settings);
            let (device, out) = rig.into_parts();
            (Ok(status), device, out)
        }
        Err((error, device, out)) => (refuse_storage(writer, error), device, out),
    }
}

/// Makes what a read of a device returns durable, before anything else is done with it. No byte changes, also where it
/// fails. A file that isn't a device isn't written.
///
/// A sync of an earlier session may have failed, and then the system may take what it couldn't write for written: a
/// read returns it, and the disk has what was there before. Power on would go by what is read, and a loss of power
/// could bring back what was there. So each sector that a device may have is written again, whichever sessions came
/// before, and the last one, since a file that was lengthened has its length on the disk only where that is there.
fn settle<S: Storage>(device: &mut S) -> io::Result<()>
    ensures same { IfSome (S.content device.old) (λ held. S.content device.new ≡ Some held) }
    ensures lasts { OnOk result (IfSome (S.lasting device.new) (λ held. S.content device.new ≡ Some held)) }
    ensures honest { (S.promise device.old).honest → (S.promise device.new).honest }
    ensures durable { (S.promise device.old).honest → OnOk result (IsDurable (S.content device.new) (S.promise device.new)) }
    ensures weakly { IfWeaklyPromised (S.weak_promise device.old) (S.weak_promise device.new)
        (OnOk result (IfSome (S.content device.old) (λ held. SettlesTheRest held (S.weak_promise device.old) (S.weak_promise device.new)))) }
{
    if !is_device(device)? {
        return device.sync();
    }
    rewrite(device, LARGE_SIZE)?;
    device.sync()
}
