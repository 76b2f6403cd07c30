//! Opening the files of devices by name.
ghost use Rattle.std.specs.Prelude.{◌*◌, OnOk, replicate};
ghost use Rattle.std.specs.Io.KnownBytes.{Appends};

use crate::hold::Hold;
use crate::opened::OpenedFile;
use crate::storage::SECTOR;
use std::fs::{OpenFile, OpenOptions};
use std::io::{ErrorKind, Write};
use std::os::unix::fs::FileTypeExt;
use std::path::Path;
use std::rt::Files;
use std::{fs, io};

/// Why a device's file wasn't opened.
#[derive(Clone, Copy, Debug, PartialEq, Eq)]
pub enum NoDevice {
    /// It doesn't exist, or the system doesn't allow reading and writing it.
    Unopened,
    /// It is a directory; or another process holds it; or a new file can't be made long enough or durable.
    Unusable,
}

/// Opens the file of a device and holds it for this process alone (own).
///
/// `Unopened` if it doesn't exist or may not be read and written; `Unusable` if it is a directory, or can't be held
/// because another process holds it. After either nothing has changed.
pub fn open_device<R: Files>(rt: &R, path: &str) -> Result<OpenedFile<R::File>, NoDevice>
where
    R::File: Hold,
{
    if is_directory(rt, path) {
        return Err(NoDevice::Unusable);
    }
    let opened = OpenOptions::new().read(true).write(true).open(rt, path);
    let Ok(file) = opened else {
        return Err(NoDevice::Unopened);
    };
    held(file)
}

/// Opens the file of a device for reading alone (own). It isn't held, and may be held by another process.
///
/// `Unopened` if it doesn't exist or may not be read; `Unusable` if it is a directory or a pipe.
pub fn open_device_to_read<R: Files>(rt: &R, path: &str) -> Result<OpenedFile<R::File>, NoDevice> {
    if is_directory(rt, path) || is_pipe(rt, path) {
        return Err(NoDevice::Unusable);
    }
    match fs::open(rt, path) {
        Ok(file) => Ok(OpenedFile::of(file)),
        Err(_) => Err(NoDevice::Unopened),
    }
}

/// Opens the file of a device and holds it for this process alone. If there is none, makes one with this many sectors,
/// all of them written with zeros, and makes the file and its directory durable (own).
///
/// `Unopened` if it can't be made, or exists but may not be read and written; `Unusable` as for `open_device`, or if a
/// new file can't be written in full or made durable. Such a file isn't removed; it may be too short.
pub fn make_device<R: Files>(
    rt: &R,
    path: &str,
    sectors: usize,
) -> Result<OpenedFile<R::File>, NoDevice>
where
    R::File: Hold,
{
    let made = OpenOptions::new()
        .read(true)
        .write(true)
        .create_new(true)
        .open(rt, path);
    match made {
        Ok(file) => made_whole(rt, path, file, sectors),
        Err(error) if error.kind() == ErrorKind::AlreadyExists => open_device(rt, path),
        Err(_) => Err(NoDevice::Unopened),
    }
}

/// The bytes of a new file, held by this process alone, once it has this many sectors and is durable.
fn made_whole<R: Files>(
    rt: &R,
    path: &str,
    mut file: R::File,
    sectors: usize,
) -> Result<OpenedFile<R::File>, NoDevice>
where
    R::File: Hold,
{
    let Ok(()) = file.hold() else {
        return Err(NoDevice::Unusable);
    };
    match fill(rt, path, &mut file, sectors) {
        Ok(()) => Ok(OpenedFile::of(file)),
        Err(_) => Err(NoDevice::Unusable),
    }
}

/// Writes this many sectors of zeros to a new file, and makes the file and its directory durable.
fn fill<R: Files>(rt: &R, path: &str, file: &mut R::File, sectors: usize) -> io::Result<()> {
    write_zeros(file, sectors)?;
    file.sync_all()?;
    sync_directory(rt, path)
}

/// Writes this many sectors of zeros.
fn write_zeros<W: Write>(file: &mut W, sectors: usize) -> io::Result<()>
    ensures { OnOk result (Appends (W.contents file.old) (W.contents file.new) (replicate (512 * sectors) 0)) }
{
    for _ in 0..sectors {
        file.write_all(&[0; SECTOR])?;
    }
    Ok(())
}

/// Makes the names in a file's directory durable.
fn sync_directory<R: Files>(rt: &R, path: &str) -> io::Result<()> {
    let directory = match Path::new(path).parent() {
        Some(parent) if !parent.as_str().is_empty() => parent,
        _ => Path::new("."),
    };
    OpenOptions::new()
        .read(true)
        .open(rt, directory)?
        .sync_all()
}

/// Whether a path names a directory.
fn is_directory<R: Files>(rt: &R, path: &str) -> bool {
    match rt.metadata(path) {
        Ok(metadata) => metadata.is_dir(),
        Err(_) => false,
    }
}

/// Whether a path names a pipe (own). Opening one to read it would wait for its writer. False if there is nothing, or
/// the system can't tell.
pub fn is_pipe<R: Files>(rt: &R, path: &str) -> bool {
    match rt.metadata(path) {
        Ok(metadata) => metadata.file_type().is_fifo(),
        Err(_) => false,
    }
}

/// The bytes of a file, if this process can hold it alone.
fn held<F: Hold + Drop>(file: F) -> Result<OpenedFile<F>, NoDevice> {
    match file.hold() {
        Ok(()) => Ok(OpenedFile::of(file)),
        Err(_) => Err(NoDevice::Unusable),
    }
}
