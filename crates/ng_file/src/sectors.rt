//! The sectors of a file.
ghost use Rattle.std.specs.Prelude.{◌≡◌, ◌<◌, ◌≤◌, ◌+◌, ◌*◌, ◌^◌, IfSome, OnErr, OnOk, length};
ghost use Rattle.ng_file.specs.Bytes.{Put, PutInPart};
ghost use Rattle.ng_file.specs.Promise.{IfPromised, MayHoldBesides};

use crate::done::Done;
use crate::storage::{SECTOR, Storage};
use ng_canon::Item;
use ng_past::Past;
use std::io;
use std::marker::Model;

/// A file as a list of sectors (own). Contracts see a `SectorsModel`: the file, and the trace of what was done. Where
/// the file does what it promises, and all was durable at first, a read returns what the trace says, and a loss of
/// power leaves one of the trace's stops. The trace costs nothing when it runs.
#[derive(Drop)]
pub(crate) struct Sectors<S: Storage> {
    file: S,
    count: usize,
    /// What was done.
    done: Past<Done>,
    /// The file at first, and as each of these left it.
    files: Past<S>,
}

impl<S: Storage> Model for Sectors<S> {
    ghost use Rattle.std.specs.Prelude.{◌≡◌, ◌<◌, ◌+◌, ◌*◌, ◌^◌, length};
    ghost use Rattle.ng_file.specs.Sectors.{AreFaithful, SectorsModel};

    ghost Value = { SectorsModel S };

    ghost view = { λ b. record { file = b.file; count = b.count; done = b.done.values; files = b.files.values } };

    ghost invariant = { λ b. (512 * b.count < 2 ^ 64) × (length b.files.values ≡ length b.done.values + 1)
        × AreFaithful S.content S.promise (record { file = b.file; count = b.count; done = b.done.values; files = b.files.values }) };
}

/// Writes a sector's bytes to a file, if it is long enough to have the sector.
fn put_at<S: Storage>(file: &mut S, sector: usize, bytes: &[u8; 512]) -> io::Result<()>
    requires { 512 * sector + 512 < 2 ^ 64 }
    ensures whole { OnOk result (IfSome (S.content file.old) (λ held. 512 * sector + 512 ≤ length held)) }
    ensures put { OnOk result (Put (512 * sector) bytes.now (S.content file.old) (S.content file.new)) }
    ensures part { OnErr result (PutInPart (512 * sector) bytes.now (S.content file.old) (S.content file.new)) }
    ensures promised { IfPromised (S.promise file.old) (S.promise file.new) (MayHoldBesides (512 * sector) bytes.now (S.promise file.old) (S.promise file.new)) }
{
    let place = sector as u64 * SECTOR as u64;
    if file.length()? < place + SECTOR as u64 {
        return Err(io::Error::from(io::ErrorKind::UnexpectedEof));
    }
    file.write_at(place, bytes)
}

impl<S: Storage + Drop> Sectors<S> {
    ghost use Rattle.std.specs.Prelude.{◌≡◌, ◌<◌, ◌≤◌, ◌+◌, ◌*◌, ◌/◌, ◌^◌, ℕ, IfErr, IfOk, IfSome, OnOk, OnErr, length};
    ghost use Rattle.ng_rig.specs.Calls.{WriteSpec, SyncSpec};
    ghost use Rattle.ng_rig.specs.Extent.{HasExtent};
    ghost use Rattle.ng_rig.specs.Trace.{Began, Handed, items, reads};
    ghost use Rattle.ng_file.specs.Bytes.{Put, PutInPart, sector_of};
    ghost use Rattle.ng_file.specs.Promise.{IsDurable};
    ghost use Rattle.ng_file.specs.Sectors.{AreHonest, KeepsHonest, begun, image_of, trace_of};

    /// The whole sectors of a file. Fails if its length can't be read, and then gives the file back.
    pub(crate) fn over(mut file: S) -> Result<Sectors<S>, (io::Error, S)>
        ensures count { IfOk result (λ s. IfSome (S.content file) (λ held. s.count ≡ length held / 512)) }
        ensures bytes { IfOk result (λ s. S.content s.file ≡ S.content file) }
        ensures trace { IfOk result (λ s. trace_of S.content s ≡ Began (image_of s.count (S.content file))) }
        ensures honest { IfOk result (λ s. (S.promise file).honest → IsDurable (S.content file) (S.promise file) → AreHonest S.content S.promise s) }
        ensures back { IfErr result (λ e. S.content e.1 ≡ S.content file) }
    {
        let length = match file.length() {
            Ok(length) => length,
            Err(error) => return Err((error, file)),
        };
        let files = Past::new().and(&file);
        Ok(Sectors {
            file,
            count: (length / SECTOR as u64) as usize,
            done: Past::new(),
            files,
        })
    }

    /// How many they are.
    pub(crate) fn count(&self) -> usize
        ensures count { result ≡ self.now.count }
        ensures extent { AreHonest S.content S.promise self.now → HasExtent self.now.count (reads (trace_of S.content self.now)) }
    {
        self.count
    }

    /// Gives the file back.
    pub(crate) fn into_file(self) -> S
        ensures { result ≡ self.file }
    {
        let Sectors {
            file,
            count: _,
            done: _,
            files: _,
        } = self;
        file
    }

    /// Reads a sector. Fails if the file does, also if it has become too short for the sector.
    pub(crate) fn read(&mut self, sector: usize, into: &mut [u8; 512]) -> io::Result<()>
        requires { sector < self.old.count }
        ensures value { OnOk result (IfSome (S.content self.old.file) (λ held. into.new ≡ sector_of sector held)) }
        ensures bytes { AreHonest S.content S.promise self.old → OnOk result (into.new ≡ reads (trace_of S.content self.old) sector) }
        ensures stays { (S.content self.new.file ≡ S.content self.old.file) × (trace_of S.content self.new ≡ trace_of S.content self.old) × (self.new.count ≡ self.old.count) }
        ensures honest { KeepsHonest S.content S.promise self.old self.new }
    {
        self.file.read_at(sector as u64 * SECTOR as u64, into)
    }

    /// Writes a sector. Fails if the file does, and if it has become too short for the sector; then nothing is written.
    pub(crate) fn write(&mut self, sector: usize, bytes: &[u8; 512]) -> io::Result<()>
        requires { sector < self.old.count }
        ensures whole { OnOk result (IfSome (S.content self.old.file) (λ held. 512 * sector + 512 ≤ length held)) }
        ensures put { OnOk result (Put (512 * sector) bytes.now (S.content self.old.file) (S.content self.new.file)) }
        ensures part { OnErr result (PutInPart (512 * sector) bytes.now (S.content self.old.file) (S.content self.new.file)) }
        ensures trace { AreHonest S.content S.promise self.old → WriteSpec result sector bytes.now (trace_of S.content self.old) (trace_of S.content self.new) }
        ensures items { items (trace_of S.content self.new) ≡ items (trace_of S.content self.old) }
        ensures count { self.new.count ≡ self.old.count }
        ensures honest { KeepsHonest S.content S.promise self.old self.new }
    {
        let put = put_at(&mut self.file, sector, bytes);
        self.done = self.done.and(&Done::Put(sector, *bytes));
        self.files = self.files.and(&self.file);
        put
    }

    /// Makes what was written durable. Fails if the file does.
    pub(crate) fn sync(&mut self) -> io::Result<()>
        ensures lasts { OnOk result (IfSome (S.lasting self.new.file) (λ held. S.content self.new.file ≡ Some held)) }
        ensures bytes { S.content self.new.file ≡ S.content self.old.file }
        ensures trace { SyncSpec result (trace_of S.content self.old) (trace_of S.content self.new) }
        ensures count { self.new.count ≡ self.old.count }
        ensures honest { KeepsHonest S.content S.promise self.old self.new }
    {
        self.file.sync()?;
        self.done = self.done.and(&Done::Sync);
        self.files = self.files.and(&self.file);
        Ok(())
    }

    /// Keeps in the trace that an item was handed out.
    pub(crate) fn hand(&mut self, item: &Item)
        ensures file { (self.new.file ≡ self.old.file) × (begun self.new ≡ begun self.old) × (self.new.count ≡ self.old.count) }
        ensures trace { trace_of S.content self.new ≡ Handed item.now (trace_of S.content self.old) }
        ensures honest { KeepsHonest S.content S.promise self.old self.new }
    {
        self.done = self.done.and(&Done::Hand(*item));
        self.files = self.files.and(&self.file);
    }
}
