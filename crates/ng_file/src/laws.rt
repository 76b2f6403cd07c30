//! A law of devices in files, for proofs in the crates above to cite. The call does nothing; its contract is the law.
ghost use Rattle.std.specs.Prelude.{◌≤◌, ℕ};
ghost use Rattle.ng_rig.specs.Trace.{Image, items, moment, trace_at, IsStop};
ghost use Rattle.ng_file.specs.Promise.{IsLeft};
ghost use Rattle.ng_file.specs.Rig.{device_of, sector_count, storage, storage_at};
ghost use Rattle.ng_file.specs.declared.rig.FileRig.{FileRig};

use crate::storage::Storage;
use std::alloc::Allocator;

/// What a loss of power leaves of an honest device in a file is one of its stops.
pub fn stops<S: Storage, W, A: Allocator>()
    // Now.
    ensures now { (rig : FileRig S W A) (image : Image) → (device_of S.content S.promise rig).honest
        → IsLeft (sector_count rig) (S.promise (storage rig)) image
        → IsStop (device_of S.content S.promise rig).trace image (items (device_of S.content S.promise rig).trace) }

    // At each moment since the device was made of the file, of what the file was then.
    ensures at { (rig : FileRig S W A) (t : ℕ) (image : Image) → (device_of S.content S.promise rig).honest
        → t ≤ moment (device_of S.content S.promise rig).trace
        → IsLeft (sector_count rig) (S.promise (storage_at t rig)) image
        → IsStop (trace_at t (device_of S.content S.promise rig).trace) image
        (items (trace_at t (device_of S.content S.promise rig).trace)) }
{}
