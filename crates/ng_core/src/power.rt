//! Power on: what a device stands for, and a session over it.
ghost use Rattle.std.specs.Prelude.{◌≤◌, List, ℤ};
ghost use Rattle.ng_rig.specs.Calls.{IfHonest};
ghost use Rattle.ng_rig.specs.Trace.{reads};
ghost use Rattle.ng_journal.specs.Journal.{least_size};
ghost use Rattle.ng_journal.specs.Recovery.{IsTableOver};
ghost use Rattle.ng_core.specs.Headline.{BeginsPast};
ghost use Rattle.ng_core.specs.Power.{PowerOnSpec, power_on_rig};

use crate::controller::Controller;
use ng_journal::recover;
use ng_layout::LEAST_SIZE;
use ng_num::Fault;
use ng_rig::Rig;
use ng_session::{KnownLines, Session};
use ng_settings::Settings;
use std::alloc::Allocator;

/// Powers on (own): finds what the device stands for, writes it again with nothing open, and starts a session at rest
/// over it, with both switches of the operator off. If something was open, its block is half-done, and the machine's
/// point isn't known.
///
/// A device of format 1 gets the tools of the settings, and is of format 2 from then on. With format 2 these aren't
/// used.
///
/// J2 for fewer than 1,710 sectors, with no call of the device, and if the device isn't formatted; J3 if what is stored
/// is damaged; J4 if the journal's counter is used up, or with format 1 if it hasn't two epochs left. All of these come
/// before any write. J1 if the device failed. M1 if there is no memory, before any call of the device. In each of these
/// cases the device is returned. Nothing is handed out.
pub fn power_on<R: Rig, A: Allocator + Copy + Drop>(
    alloc: A,
    rig: R,
    settings: Settings,
) -> Result<Controller<R, A>, (Fault, R)>
    ensures gives { PowerOnSpec R.seen settings rig result }
    ensures past { let after = power_on_rig result in least_size ≤ (R.seen rig).sectors
        → (tools : List ℤ) → IsTableOver settings.tools tools (reads (R.seen rig).trace)
        → IfHonest (R.seen rig) (R.seen after) (BeginsPast A tools R.seen result (R.seen rig).trace) }
{
    let Settings { geometry, tools } = settings;
    if rig.size() < LEAST_SIZE {
        return Err((Fault::NotFormatted, rig));
    }
    let lines = match KnownLines::none(alloc) {
        Ok(lines) => lines,
        Err(_) => return Err((Fault::OutOfMemory, rig)),
    };
    let (journal, stored) = recover(alloc, rig, &tools)?;
    Ok(Controller {
        alloc,
        journal,
        session: Session::new(stored),
        lines,
        geometry,
    })
}
