//! Reading sectors.
ghost use Rattle.std.specs.Prelude.{◌≡◌, ◌<◌};
ghost use Rattle.ng_rig.specs.Calls.{IfHonest, IsCall};
ghost use Rattle.ng_log.specs.Reading.{ReadSpec};

use ng_layout::SECTOR_BYTES;
use ng_rig::{Failed, Rig};

/// The bytes of a sector (own). Fails if the read fails.
pub fn read_sector<R: Rig>(rig: &mut R, sector: usize) -> Result<[u8; SECTOR_BYTES], Failed>
    requires { sector < (R.seen rig.old).sectors }
    ensures read { IfHonest (R.seen rig.old) (R.seen rig.new)
        (ReadSpec result (λ image bytes. bytes ≡ image sector) (R.seen rig.old).trace (R.seen rig.new).trace) }
    ensures call { IsCall result (R.seen rig.old) (R.seen rig.new) }
{
    let mut bytes = [0; SECTOR_BYTES];
    rig.read(sector, &mut bytes)?;
    Ok(bytes)
}
