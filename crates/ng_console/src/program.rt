//! The program: from its words to its exit status.
ghost use Rattle.std.specs.Prelude.{ℕ, ◌≡◌, ◌⊎◌, ◌≤◌, List, IfOk, OnOk, map};
ghost use Rattle.std.specs.Io.KnownBytes.{Appends};
ghost use Rattle.ng_console.specs.DryRuns.{IsDryRun, status_of};
ghost use Rattle.ng_console.specs.Program.{JobSpec, RunsChosen, RunsFile};
ghost use Rattle.ng_console.specs.Refusals.{RefusesSettings, refused_text};
ghost use Rattle.ng_console.specs.Words.{RequestsJob};

use crate::command_line::{Job, words};
use crate::format::format_opened;
use crate::from_device::run_from_opened;
use crate::grow::grow_opened;
use crate::operating::{are_three_files, operate_chosen};
use crate::pacing::pace_chosen;
use crate::settings_file::{NoSettings, chosen_settings, open_file};
use crate::size::wanted_size;
use ng_dry::{DryFault, Ended, dry};
use ng_file::{Hold, NoDevice, Storage, make_device, open_device, open_device_to_read};
use ng_num::Fault;
use ng_run::{DONE, FAILED};
use ng_settings::Settings;
use std::alloc::{Allocator, Global};
use std::fs::OpenOptions;
use std::io::{Read, Write};
use std::rt::{Env, Files};
use std::{env, fs, io};

/// The exit status if the program of a dry run is refused.
const REFUSED: u8 = 1;

/// Does what the words ask for that the process was started with, and returns the exit status. A standard stream that
/// is closed at the start is `/dev/null` until the end.
///
/// If `/dev/null` can't be opened, if the words are not text or if there is no memory for them, nothing is printed and
/// the status is 2. Otherwise it does what `ngc` does. Source: own.
pub fn start<R: Env + Files + AllocGlobal, I: Read, W: Write>(
    rt: &R,
    reader: &mut I,
    writer: &mut W,
) -> u8
where
    R::File: Hold,
    ensures status { result ≤ 2 }
    ensures run { (result ≡ 2) ⊎ ((texts : List (List ℕ)) × ((job : Job) × RequestsJob texts job
        × JobSpec R.File.remaining R.File.contents job (I.remaining reader.old) (W.contents writer.old)
        (W.contents writer.new) result)) }
{
    let Ok(_streams) = open_streams(rt) else {
        return FAILED;
    };
    let Ok(given) = given_words(rt) else {
        return FAILED;
    };
    let Ok(texts) = given
        .iter()
        .map(|word| word.as_str())
        .collect::<Vec<&str>>(rt.alloc())
    else {
        return FAILED;
    };
    ngc(rt, texts.as_slice(), reader, writer)
}

/// Opens `/dev/null` three times. A file that is opened gets the lowest free descriptor, so the descriptors of the
/// standard streams, 0 to 2, are open after that, and no other file gets one of them.
fn open_streams<R: Files>(rt: &R) -> io::Result<(R::File, R::File, R::File)> {
    Ok((open_null(rt)?, open_null(rt)?, open_null(rt)?))
}

/// Opens `/dev/null` for reading and writing.
fn open_null<R: Files>(rt: &R) -> io::Result<R::File> {
    OpenOptions::new()
        .read(true)
        .write(true)
        .open(rt, "/dev/null")
}

/// The words that the process was started with.
fn given_words<R: Env + AllocGlobal>(rt: &R) -> io::Result<Vec<String>> {
    Ok(env::args(rt)?.collect(rt.alloc())?)
}

/// Does what a line of words asks for, writes what that prints, and returns the exit status. The reader is an
/// operator's; only `run` and `pace` read from it.
///
/// The status is 0 if the program ran to its end, the device is fresh or large, everything that the operator asked is
/// answered, or all lines have their times. It is 1 if the program of a dry run or a line of OUT is refused; the last
/// line written says where and why. It is 2 in these cases, of which the first that holds counts:
/// - The words ask for nothing that `ngc` does, or for help: clap's text is written.
/// - Two of the three files of `run` are the same: nothing is written or created.
/// - The settings file can't be opened or read: nothing is written. It is a pipe, it is longer than 1,048,576 bytes, of
///   which one more is read at most, or it is refused: one line that says so is written.
/// - Another file can't be opened or read, or the file for hand-outs can't be held: nothing is written. A device can't
///   be used: one line with its fault is written. A machine's file is refused as settings are.
/// - The device, the reader or the writer fails, or there is no memory.
///
/// Source: own.
pub fn ngc<R: Files + AllocGlobal, I: Read, W: Write>(
    rt: &R,
    given: &[&str],
    reader: &mut I,
    writer: &mut W,
) -> u8
where
    R::File: Hold,
    ensures status { result ≤ 2 }
    ensures refused { ((job : Job) → RequestsJob (map (λ s. s.now) given.now) job → ⊥) → result ≡ 2 }
    ensures run { (result ≡ 2) ⊎ ((job : Job) × RequestsJob (map (λ s. s.now) given.now) job
        × JobSpec R.File.remaining R.File.contents job (I.remaining reader.old) (W.contents writer.old)
        (W.contents writer.new) result) }
{
    match words(rt.alloc(), given) {
        Ok(job) => carry_out(rt, job, reader, writer),
        Err(error) => {
            // The status is the same whether or not the writer accepts the text.
            let _ = write!(writer, "{error}");
            FAILED
        }
    }
}

/// Does a job, and returns the exit status.
fn carry_out<R: Files + AllocGlobal, I: Read, W: Write>(
    rt: &R,
    job: Job<'_>,
    reader: &mut I,
    writer: &mut W,
) -> u8
where
    R::File: Hold,
    ensures status { result ≤ 2 }
    ensures run { (result ≡ 2) ⊎ JobSpec R.File.remaining R.File.contents job.entry (I.remaining reader.old) (W.contents writer.old)
        (W.contents writer.new) result }
{
    match job {
        Job::Dry {
            program,
            from,
            settings,
            block_delete,
        } => {
            let settings = match settings {
                Some(path) => Some(open_file(rt, path)),
                None => None,
            };
            let device = match from {
                Some(path) => Some(open_device_to_read(rt, path)),
                None => None,
            };
            let program = fs::open(rt, program);
            let chosen = chosen_settings(rt.alloc(), settings);
            run_chosen(rt.alloc(), chosen, device, program, writer, block_delete).unwrap_or(FAILED)
        }
        Job::Format { device, large } => {
            let opened = make_device(rt, device, wanted_size(large));
            format_opened(rt.alloc(), opened, large, writer).unwrap_or(FAILED)
        }
        Job::Grow { device } => {
            let opened = open_device(rt, device);
            grow_opened(opened, writer).unwrap_or(FAILED)
        }
        Job::Run {
            device,
            settings,
            out,
        } => {
            if !are_three_files(rt, device, settings, out) {
                return FAILED;
            }
            let settings = Some(open_file(rt, settings));
            let chosen = chosen_settings(rt.alloc(), settings);
            operate_chosen(rt, chosen, device, out, reader, writer).unwrap_or(FAILED)
        }
        Job::Pace {
            settings,
            machine,
            total,
        } => {
            let settings = Some(open_file(rt, settings));
            let machine = open_file(rt, machine);
            let chosen = chosen_settings(rt.alloc(), settings);
            pace_chosen(rt.alloc(), chosen, machine, total, reader, writer).unwrap_or(FAILED)
        }
    }
}

/// Runs the program of an opened file with the settings that were found, from a device if one is given, and returns the
/// exit status. If there are no settings, no other file is used, and if they were refused, their fault is written. The
/// error is the writer's while it writes a fault.
fn run_chosen<S: Storage + Drop, R: Read + Drop, W: Write, A: Allocator + Copy + Drop>(
    alloc: A,
    chosen: Result<Settings, NoSettings>,
    device: Option<Result<S, NoDevice>>,
    program: io::Result<R>,
    writer: &mut W,
    block_delete: bool,
) -> io::Result<u8>
    ensures run { IfOk result
        (λ status. RunsChosen R.remaining S.content chosen block_delete device program (W.contents writer.old)
        (W.contents writer.new) status) }
    ensures range { IfOk result (λ status. status ≤ 2) }
{
    match chosen {
        Ok(settings) => match device {
            Some(device) => {
                run_from_opened(alloc, &settings, device, program, writer, block_delete)
            }
            None => Ok(run_file(alloc, &settings, program, writer, block_delete)),
        },
        Err(why) => refuse_settings(writer, why),
    }
}

/// Reports why there are no settings, and returns the exit status. Nothing is written for a file that can't be read;
/// a line for one that is a pipe or too long, and for a text that is refused. The error is the writer's.
pub(crate) fn refuse_settings<W: Write>(writer: &mut W, why: NoSettings) -> io::Result<u8>
    ensures run { IfOk result (RefusesSettings why (W.contents writer.old) (W.contents writer.new)) }
    ensures range { IfOk result (λ status. status ≤ 2) }
{
    match why {
        NoSettings::Unread => Ok(FAILED),
        NoSettings::Pipe => {
            writer.write_all(b"refused SETTINGS: no file, but a pipe\n")?;
            Ok(FAILED)
        }
        NoSettings::TooLong => {
            writer.write_all(b"refused SETTINGS: it is longer than 1,048,576 bytes\n")?;
            Ok(FAILED)
        }
        NoSettings::Refused(fault) => {
            refuse(writer, fault)?;
            Ok(FAILED)
        }
    }
}

/// Writes the line of a fault.
pub(crate) fn refuse<W: Write>(writer: &mut W, fault: Fault) -> io::Result<()>
    ensures { OnOk result (Appends (W.contents writer.old) (W.contents writer.new) (refused_text fault)) }
{
    writer.write_all(b"refused ")?;
    writer.write_all(fault.text())?;
    writer.write_all(b"\n")
}

/// Runs the program of an opened file, as `run_dry` does. If the file couldn't be opened, the status is 2 and nothing
/// is written.
fn run_file<R: Read + Drop, W: Write, A: Allocator + Copy + Drop>(
    alloc: A,
    settings: &Settings,
    opened: io::Result<R>,
    writer: &mut W,
    block_delete: bool,
) -> u8
    ensures run { RunsFile R.remaining settings.now block_delete opened (W.contents writer.old) (W.contents writer.new) result }
    ensures range { result ≤ 2 }
{
    match opened {
        Ok(mut file) => run_dry(alloc, settings, &mut file, writer, block_delete),
        Err(_) => FAILED,
    }
}

/// Runs a program with settings and without a machine, writes its canonical text, and returns the exit status: 0 at the
/// program's end, 1 if it is refused, 2 if the reader or the writer fails or there is no memory. Lines that begin with
/// a slash are deleted if `block_delete` is set.
pub fn run_dry<R: Read, W: Write, A: Allocator + Copy + Drop>(
    alloc: A,
    settings: &Settings,
    reader: &mut R,
    writer: &mut W,
    block_delete: bool,
) -> u8
    ensures text { IsDryRun settings.now block_delete (R.remaining reader.old) (W.contents writer.old) (W.contents writer.new) result }
    ensures range { result ≤ 2 }
{
    let ended = dry(
        alloc,
        reader,
        writer,
        block_delete,
        &settings.tools,
        &settings.geometry,
    );
    status(&ended)
}

/// The exit status of a dry run.
pub(crate) fn status(ended: &Result<Ended, DryFault>) -> u8
    ensures { result ≡ status_of ended.now }
{
    match ended {
        Ok(Ended::Done) => DONE,
        Ok(Ended::Refused(_, _)) => REFUSED,
        Err(DryFault::Reader | DryFault::Writer | DryFault::Memory) => FAILED,
    }
}
