//! A dry run from a device: the program begins as a controller over that device would begin it.
ghost use Rattle.std.specs.Prelude.{◌≡◌, ◌⊎◌, ◌≤◌, ℕ, List, IfOk, IfSome};
ghost use Rattle.ng_num.specs.declared.fault.Fault.TheVariants.{OutOfMemory};
ghost use Rattle.ng_layout.specs.Areas.{large_size};
ghost use Rattle.ng_file.specs.Copying.{IsCopy};
ghost use Rattle.ng_console.specs.DryRuns.{Finds, RunsFileFrom, RunsFileFromOpened, RunsFrom, RunsFromFound};

use crate::format::{fault_of, refuse_device};
use crate::program::{refuse, status};
use ng_dry::dry_from;
use ng_file::{NoDevice, Storage, copied};
use ng_journal::recover;
use ng_layout::{LARGE_SIZE, Stored};
use ng_num::Fault;
use ng_rig::MemoryRig;
use ng_run::FAILED;
use ng_settings::Settings;
use std::alloc::Allocator;
use std::io;
use std::io::{Read, Write};

/// Runs the program of an opened file from the device in an opened file, as `dry_from_device` does. If the device
/// couldn't be opened or used, it says so as `format` does. If the program's file couldn't be opened, the status is 2
/// and nothing is written.
pub(crate) fn run_from_opened<
    S: Storage + Drop,
    R: Read + Drop,
    W: Write,
    A: Allocator + Copy + Drop,
>(
    alloc: A,
    settings: &Settings,
    device: Result<S, NoDevice>,
    program: io::Result<R>,
    writer: &mut W,
    block_delete: bool,
) -> io::Result<u8>
    ensures run { IfOk result
        (λ status. RunsFileFromOpened R.remaining S.content settings.now block_delete device program
        (W.contents writer.old) (W.contents writer.new) status) }
    ensures range { IfOk result (λ status. status ≤ 2) }
{
    match device {
        Ok(device) => run_file_from(alloc, settings, device, program, writer, block_delete),
        Err(why) => refuse_device(writer, why),
    }
}

/// Runs the program of an opened file from a device.
fn run_file_from<S: Storage + Drop, R: Read + Drop, W: Write, A: Allocator + Copy + Drop>(
    alloc: A,
    settings: &Settings,
    mut device: S,
    program: io::Result<R>,
    writer: &mut W,
    block_delete: bool,
) -> io::Result<u8>
    ensures run { IfOk result
        (λ status. RunsFileFrom R.remaining S.content settings.now block_delete device program
        (W.contents writer.old) (W.contents writer.new) status) }
    ensures range { IfOk result (λ status. status ≤ 2) }
{
    match program {
        Ok(mut file) => dry_from_device(
            alloc,
            settings,
            &mut device,
            &mut file,
            writer,
            block_delete,
        ),
        Err(_) => Ok(FAILED),
    }
}

/// Runs a program without a machine, writes its canonical text, and returns the exit status, as `run_dry` does. The
/// program begins with what a controller over this device would begin it with, once it is loaded: its parameters,
/// modes, offsets, tool table and point. A device of format 1 has the tools of the settings. What is half-done doesn't
/// count, nor whether the point is known.
///
/// If there is no such controller the status is 2, and the line of the fault is written: J2 if the device isn't
/// formatted or too small, J3 if it is damaged, J4 if its epochs are used up, J1 if the file fails or changes all the
/// time, M1 if there is no memory for a copy of the device. The device is only read. The error is the writer's while it
/// writes that line.
pub fn dry_from_device<S: Storage, R: Read, W: Write, A: Allocator + Copy + Drop>(
    alloc: A,
    settings: &Settings,
    device: &mut S,
    reader: &mut R,
    writer: &mut W,
    block_delete: bool,
) -> io::Result<u8>
    ensures run { IfOk result
        (λ status. RunsFrom S.content settings.now block_delete device.old (R.remaining reader.old)
        (W.contents writer.old) (W.contents writer.new) status) }
    ensures range { IfOk result (λ status. status ≤ 2) }
    ensures stays { S.content device.new ≡ S.content device.old }
{
    match stored_on(alloc, settings, device) {
        Ok(stored) => Ok(dry_stored(alloc, settings, stored, reader, writer, block_delete)),
        Err(fault) => {
            refuse(writer, fault)?;
            Ok(FAILED)
        }
    }
}

/// Runs a program as a controller would that has this stored and to which the program is loaded.
fn dry_stored<R: Read, W: Write, A: Allocator + Copy + Drop>(
    alloc: A,
    settings: &Settings,
    stored: Stored<A>,
    reader: &mut R,
    writer: &mut W,
    block_delete: bool,
) -> u8
    ensures run { RunsFromFound settings.now block_delete (Ok stored) (R.remaining reader.old) (W.contents writer.old)
        (W.contents writer.new) result }
    ensures range { result ≤ 2 }
{
    let Stored {
        entries: _,
        mut state,
        tools,
        place: _,
        length: _,
        program_limit: _,
        half: _,
    } = stored;
    state.params.clear_passing();
    let ended = dry_from(
        alloc,
        state,
        reader,
        writer,
        block_delete,
        &tools,
        &settings.geometry,
    );
    status(&ended)
}

/// What a power on over a device finds, or why it finds nothing: J1 to J4, M1. It is done over a copy in memory.
fn stored_on<S: Storage, A: Allocator + Copy + Drop>(
    alloc: A,
    settings: &Settings,
    device: &mut S,
) -> Result<Stored<A>, Fault>
    ensures finds { IfSome (S.content device.old) (λ held. Finds settings.now.tools held result) }
    ensures stays { S.content device.new ≡ S.content device.old }
{
    match copied(alloc, device, LARGE_SIZE) {
        Ok(copy) => found_in(alloc, settings, copy),
        Err(error) => Err(fault_of(&error)),
    }
}

/// What a power on over a device in memory finds.
fn found_in<A: Allocator + Copy + Drop>(
    alloc: A,
    settings: &Settings,
    copy: MemoryRig<A>,
) -> Result<Stored<A>, Fault>
    ensures { (held : List ℕ) → IsCopy large_size held copy → Finds settings.now.tools held result }
{
    match recover(alloc, copy, &settings.tools) {
        Ok((journal, stored)) => {
            let _copy = journal.into_rig();
            Ok(stored)
        }
        Err((fault, _copy)) => Err(in_memory(fault)),
    }
}

/// The fault for one of a device in memory: a call of it fails only for want of memory.
fn in_memory(fault: Fault) -> Fault
    ensures { (result ≡ fault) ⊎ (result ≡ OutOfMemory) }
{
    if fault == Fault::DeviceFailed {
        Fault::OutOfMemory
    } else {
        fault
    }
}
