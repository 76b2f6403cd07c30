//! A law of devices in files over all their sessions. The call does nothing; its contract is the law.
ghost use Rattle.std.specs.Prelude.{ℕ, List, Option};
ghost use Rattle.ng_console.specs.FileLifetime.{KeepsFileFromFormat, KeepsFileFromImage};
ghost use Rattle.ng_console.specs.Grow.{GrowsFile};
ghost use Rattle.ng_console.specs.Lengthening.{StayOrAreLengthened};

use ng_file::{FileRig, Storage};
use std::alloc::Allocator;
use std::io::Write;

/// However often power is lost over the lifetime of a device in a file whose storage does what it promises: what
/// `ng_core::laws::lifetime` says, where each loss leaves what the storage may hold then. A device that was lengthened
/// between two sessions needs nothing said of its headers.
pub fn lifetime_in_files<
    S: Storage + Drop,
    W: Write + Drop,
    A: Allocator + Copy + Drop,
    E: Allocator,
>()
    // From `format` on.
    ensures formatted { KeepsFileFromFormat W A E S.content S.promise }

    // From any image on that only such a controller wrote, of either format.
    ensures found { KeepsFileFromImage W A E S.content S.promise }

    // What `grow` leaves of a file, whatever it answers, is what a session may find there.
    ensures grown { (old new : S) (written_old written_new : Option (List ℕ)) (status : ℕ)
        → GrowsFile S.content S.lasting old new written_old written_new status
        → StayOrAreLengthened (S.content old) (S.content new) }
{
    ng_core::laws::lifetime::<FileRig<S, W, A>, E>();
    ng_file::laws::stops::<S, W, A>();
}
