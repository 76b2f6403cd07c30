//! A device in a file of whose writer it is known what it held at first.
use crate::rig::FileRig;
use crate::storage::Storage;
use ng_canon::Item;
use ng_rig::{Failed, Rig};
use std::alloc::Allocator;
use std::io::Write;
use std::marker::{Brand, Model, PhantomData};

/// What a writer held before anything was handed out (own). It exists only in proofs: a call that makes a `RecordedRig`
/// chooses it, at the type `Brand`.
pub trait Beginning {
    ghost use Rattle.std.specs.Prelude.{ℕ, List, Option};

    ghost first: { Option (List ℕ) };
}

impl Beginning for Brand {
    ghost use Rattle.std.specs.Prelude.{None};

    ghost first = { None };
}

/// A `FileRig`, which contracts see. Since its writer held the bytes that its type names, it has written the items of
/// its trace: so a caller that promises only what any device does can't write anything else.
#[derive(Drop)]
pub struct RecordedRig<S: Storage, W: Write, A: Allocator, B: Beginning> {
    rig: FileRig<S, W, A>,
    since: PhantomData<B>,
}

impl<S: Storage, W: Write, A: Allocator, B: Beginning> Model for RecordedRig<S, W, A, B> {
    ghost use Rattle.ng_file.specs.HandOuts.{HasHandedOut};
    ghost use Rattle.ng_file.specs.declared.rig.FileRig.{FileRig};

    ghost Value = { FileRig S W A };

    ghost view = { λ r. r.rig };

    ghost invariant = { λ r. HasHandedOut S.content W.contents B.first r.rig };
}

impl<S: Storage + Drop, W: Write + Drop, A: Allocator + Copy + Drop, B: Beginning> RecordedRig<
    S,
    W,
    A,
    B,
> {
    ghost use Rattle.std.specs.Prelude.{◌≡◌};
    ghost use Rattle.ng_rig.specs.Trace.{items};
    ghost use Rattle.ng_file.specs.HandOuts.{AreGiven, HasHandedOut};
    ghost use Rattle.ng_file.specs.Rig.{is_cut, outlet, storage};
    ghost use Rattle.ng_file.specs.Sectors.{trace_of};

    /// The same device.
    pub fn of(rig: FileRig<S, W, A>) -> Self
        requires { HasHandedOut S.content W.contents B.first rig }
        ensures { result ≡ rig }
    {
        RecordedRig {
            rig,
            since: PhantomData,
        }
    }

    /// Gives the file and the writer back.
    pub fn into_parts(self) -> (S, W)
        ensures parts { (result.0 ≡ storage self) × (result.1 ≡ outlet self) }
        ensures handed { HasHandedOut S.content W.contents B.first self }
    {
        let RecordedRig { rig, since: _ } = self;
        rig.into_parts()
    }
}

impl<S: Storage + Drop, W: Write + Drop, A: Allocator + Copy + Drop, B: Beginning> Rig
    for RecordedRig<S, W, A, B> {
    ghost use Rattle.ng_file.specs.Rig.{device_of};

    ghost seen = { device_of S.content S.promise };

    fn size(&self) -> usize {
        self.rig.size()
    }

    fn failures(&self) -> u64 {
        self.rig.failures()
    }

    fn read(&mut self, sector: usize, into: &mut [u8; 512]) -> Result<(), Failed> {
        self.rig.read(sector, into)
    }

    fn write(&mut self, sector: usize, bytes: &[u8; 512]) -> Result<(), Failed> {
        self.rig.write(sector, bytes)
    }

    fn sync(&mut self) -> Result<(), Failed> {
        self.rig.sync()
    }

    fn hand_out(&mut self, item: Item) -> Result<(), Failed> {
        self.rig.hand_out(item)
    }
}
