//! The settings of a run; the bytes of a file that may have only so many.
ghost use Rattle.std.specs.Prelude.{◌≡◌, ◌≢◌, ◌<◌, ◌≤◌, ◌+◌, IfErr, IfOk, IfSome, MatchResult, length, take};
ghost use Rattle.std.specs.Io.KnownBytes.{Consumes, IsAtEnd, Keeps};
ghost use Rattle.std.specs.IoError.{error_kind};
ghost use Rattle.std.specs.declared.io.ErrorKind.TheVariants.{Interrupted};
ghost use Rattle.ng_console.specs.SettingsFile.{GivesChoice, GivesSettings, IsNoInterruption, ReadsFew, most_bytes};

use ng_file::is_pipe;
use ng_num::Fault;
use ng_settings::{Settings, settings};
use std::alloc::Global;
use std::io::{ErrorKind, Read};
use std::rt::Files;
use std::{fs, io};

/// The most bytes that a file of settings or of a machine may have.
const MOST_BYTES: usize = 1_048_576;

/// The bytes of a read.
const BUFFER: usize = 8_192;

/// Why a file of settings or of a machine isn't opened.
#[derive(Clone, Copy)]
pub(crate) enum NoFile {
    /// It doesn't exist, or the system doesn't allow reading it.
    Unopened,
    /// It is a pipe.
    Pipe,
}

/// Why a file gives no bytes.
#[derive(Debug, Drop)]
pub enum NoBytes {
    /// It can't be read, or there is no memory for its bytes: `OutOfMemory`. Never `Interrupted`.
    Unread(io::Error),
    /// It is longer than 1,048,576 bytes.
    TooLong,
}

/// Why there are no settings.
#[derive(Clone, Copy)]
pub(crate) enum NoSettings {
    /// The file can't be opened or read, or there is no memory for its bytes.
    Unread,
    /// The file is a pipe.
    Pipe,
    /// The file is longer than 1,048,576 bytes.
    TooLong,
    /// The text is refused.
    Refused(Fault),
}

/// Reads once into the front of a buffer, and so many bytes at most; again where a signal interrupts it.
fn read_front<R: Read>(file: &mut R, buffer: &mut [u8], most: usize) -> io::Result<usize>
    requires { most ≤ length buffer.old }
    ensures few { IfOk result (λ n. n ≤ most) }
    ensures bytes { MatchResult result
        (λ n. Consumes (R.remaining file.old) (R.remaining file.new) (take n buffer.new)
        × (n ≡ 0 → 0 < most → IsAtEnd (R.remaining file.new)))
        (λ error. Keeps (R.remaining file.old) (R.remaining file.new)) }
    ensures retried { IfErr result (λ error. error_kind error ≢ Interrupted) }
{
    for _try in 0..u64::MAX {
        match file.read(&mut buffer[..most]) {
            Ok(n) => return Ok(n),
            Err(error) => {
                if error.kind() != ErrorKind::Interrupted {
                    return Err(error);
                }
            }
        }
    }
    Err(io::Error::from(ErrorKind::TimedOut))
}

/// Opens a file of settings or of a machine, and no pipe: nothing may ever come of one, and opening it waits for its
/// writer.
pub(crate) fn open_file<R: Files>(rt: &R, path: &str) -> Result<R::File, NoFile> {
    if is_pipe(rt, path) {
        return Err(NoFile::Pipe);
    }
    match fs::open(rt, path) {
        Ok(file) => Ok(file),
        Err(_) => Err(NoFile::Unopened),
    }
}

/// All bytes of a file, up to its end, if they are 1,048,576 at most. Of a longer file so many are read, and one more:
/// of one without an end too. A read that a signal interrupts is tried again. Source: own.
pub fn read_whole<R: Read>(alloc: Global, file: &mut R) -> Result<Vec<u8>, NoBytes>
    ensures few { IfOk result (λ bytes. length bytes.items ≤ most_bytes) }
    ensures whole { IfOk result (λ bytes. IfSome (R.remaining file.old) (λ text. bytes.items ≡ text)) }
    ensures long { IfErr result (λ why. why ≡ NoBytes.TooLong
        → IfSome (R.remaining file.old) (λ text. most_bytes < length text)) }
    ensures read { ReadsFew (R.remaining file.old) (R.remaining file.new) }
    ensures retried { IfErr result IsNoInterruption }
{
    let mut bytes = Vec::new(alloc);
    let mut buffer = [0u8; BUFFER];
    while bytes.len() <= MOST_BYTES {
        let most = (MOST_BYTES + 1 - bytes.len()).min(BUFFER);
        match read_front(file, &mut buffer, most) {
            Ok(0) => return Ok(bytes),
            Ok(n) => {
                if bytes.extend_from_slice(&buffer[..n]).is_err() {
                    return Err(NoBytes::Unread(io::Error::from(ErrorKind::OutOfMemory)));
                }
            }
            Err(error) => return Err(NoBytes::Unread(error)),
        }
    }
    Err(NoBytes::TooLong)
}

/// The settings of a text.
fn settings_in(alloc: Global, text: &[u8]) -> Result<Settings, NoSettings>
    requires { length text.now ≤ most_bytes }
    ensures gives { GivesSettings text.now result }
    ensures read { result ≢ Err NoSettings.Unread }
{
    match settings(alloc, text) {
        Ok(settings) => Ok(settings),
        Err(fault) => Err(NoSettings::Refused(fault)),
    }
}

/// The settings of a file.
fn settings_of<R: Read + Drop>(alloc: Global, mut file: R) -> Result<Settings, NoSettings>
    ensures { IfSome (R.remaining file) (λ text. GivesSettings text result) }
{
    match read_whole(alloc, &mut file) {
        Ok(bytes) => settings_in(alloc, bytes.as_slice()),
        Err(NoBytes::TooLong) => Err(NoSettings::TooLong),
        Err(NoBytes::Unread(_)) => Err(NoSettings::Unread),
    }
}

/// The settings of an opened file, or the default settings if no file is named.
pub(crate) fn chosen_settings<R: Read + Drop>(
    alloc: Global,
    named: Option<Result<R, NoFile>>,
) -> Result<Settings, NoSettings>
    ensures { GivesChoice R.remaining named result }
{
    match named {
        Some(Ok(file)) => settings_of(alloc, file),
        Some(Err(NoFile::Unopened)) => Err(NoSettings::Unread),
        Some(Err(NoFile::Pipe)) => Err(NoSettings::Pipe),
        None => Ok(Settings::standard()),
    }
}
