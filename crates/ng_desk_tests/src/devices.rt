//! Devices in memory, and controllers over them.
ghost use Rattle.std.specs.Prelude.{◌≡◌, IfOk, false};

use ng_core::{Controller, power_on};
use ng_journal::format;
use ng_num::Fault;
use ng_rig::MemoryRig;
use ng_settings::Settings;
use std::alloc::Allocator;

/// A controller over a new device, powered on; the device has memory of its own.
pub fn started<A: Allocator + Copy + Drop, B: Allocator + Copy + Drop>(
    alloc: A,
    device: B,
) -> Result<Controller<MemoryRig<B>, A>, Fault>
    ensures { IfOk result (λ controller. controller.journal.broken ≡ false) }
{
    let mut rig = MemoryRig::new(device, 1_710)?;
    format(&mut rig)?;
    match power_on(alloc, rig, Settings::standard()) {
        Ok(controller) => Ok(controller),
        Err((fault, _)) => Err(fault),
    }
}
