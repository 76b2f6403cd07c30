//! How many sectors a device needs.
ghost use Rattle.std.specs.Prelude.{◌≡◌, ◌≤◌};
ghost use Rattle.ng_layout.specs.Areas.{least_size};
ghost use Rattle.ng_console.specs.Size.{wanted_size};

use ng_layout::{LARGE_SIZE, LEAST_SIZE};

/// How many sectors `format` asks for, for a large device or for any.
pub(crate) fn wanted_size(large: bool) -> usize
    ensures value { result ≡ wanted_size large }
    ensures enough { least_size ≤ result }
{
    if large { LARGE_SIZE } else { LEAST_SIZE }
}
