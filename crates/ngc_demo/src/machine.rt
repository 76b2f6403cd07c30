//! A machine: a controller over a device in memory.
use crate::job::{PROGRAM, SETTINGS};
use anyhow::{Result, bail};
use ng_canon::Item;
use ng_core::{Controller, Event, Reply, Status, Text, power_on};
use ng_journal::{format, recover};
use ng_layout::Stored;
use ng_num::Fault;
use ng_rig::MemoryRig;
use ng_settings::{Settings, settings};
use std::alloc::Global;

/// A device in memory, which can be stopped as by a loss of power.
pub type Device = MemoryRig<Global>;

/// A controller over such a device.
pub type Machine = Controller<Device, Global>;

/// How many sectors a device has.
const SECTORS: usize = 1_710;

/// The result, with a fault as this program's error.
pub fn granted<T: Drop>(answer: Result<T, Fault>) -> Result<T> {
    match answer {
        Ok(value) => Ok(value),
        Err(fault) => bail!("refused: {fault:?}"),
    }
}

/// A device as `ngc format` makes it.
pub fn formatted(alloc: Global) -> Result<Device> {
    let mut device = MemoryRig::new(alloc, SECTORS)?;
    granted(format(&mut device))?;
    Ok(device)
}

/// The settings of the machine.
fn machine_settings(alloc: Global) -> Result<Settings> {
    granted(settings(alloc, SETTINGS.as_bytes()))
}

/// Powers on over a device.
pub fn powered(alloc: Global, device: Device) -> Result<Machine> {
    match power_on(alloc, device, machine_settings(alloc)?) {
        Ok(machine) => Ok(machine),
        Err((fault, _device)) => bail!("power on is refused: {fault:?}"),
    }
}

/// Gives an event and returns the reply.
pub fn ask(machine: &mut Machine, event: Event<Global>) -> Reply {
    machine.on(event)
}

/// Gives an event that isn't to be refused, and returns the reply.
pub fn give(machine: &mut Machine, event: Event<Global>) -> Result<Reply> {
    match ask(machine, event) {
        Reply::Refused(fault) => bail!("refused: {fault:?}"),
        reply => Ok(reply),
    }
}

/// What the status shows.
pub fn status_of(machine: &mut Machine) -> Result<Status> {
    match give(machine, Event::Status)? {
        Reply::Status(status) => Ok(status),
        reply => bail!("the status is {reply:?}"),
    }
}

/// Loads the program and starts it.
pub fn start(machine: &mut Machine, alloc: Global) -> Result<()> {
    let text = Vec::from_slice(alloc, PROGRAM.as_bytes())?;
    give(machine, Event::Load(Text::of(text)))?;
    give(machine, Event::Start)?;
    Ok(())
}

/// The device of a machine, which doesn't use it any more.
pub fn device_of(machine: Machine) -> Device {
    machine.into_rig()
}

/// All that was handed out on a device.
pub fn handed_out(device: &Device) -> Result<Vec<Item>> {
    Ok(device.handed(usize::MAX)?)
}

/// The device as a loss of power after its last call leaves it, with nothing kept of what wasn't synced. If there were
/// no calls, it is a copy.
pub fn left_of(device: &Device) -> Result<Device> {
    Ok(device.stopped(usize::MAX, &[])?)
}

/// What is stored on a device, as power on reads it.
pub fn stored_on(alloc: Global, device: Device) -> Result<Stored<Global>> {
    let Settings { geometry: _, tools } = machine_settings(alloc)?;
    match recover(alloc, device, &tools) {
        Ok((journal, stored)) => {
            drop(journal.into_rig());
            Ok(stored)
        }
        Err((fault, _device)) => bail!("the device can't be read: {fault:?}"),
    }
}
