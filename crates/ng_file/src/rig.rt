//! A device whose sectors are those of a file.
use crate::sectors::Sectors;
use crate::storage::Storage;
use ng_canon::Item;
use ng_lines::push_item;
use ng_rig::{Failed, Rig};
use ng_streams::write_out;
use std::alloc::Allocator;
use std::io;
use std::io::{ErrorKind, Write};

/// The most bytes of the line of any item.
const LINE: usize = 64;

/// A device whose sectors are those of a file, and whose hand-outs are lines appended to a writer.
///
/// Its size is the number of whole sectors that the file had when the device was made. A call fails if the file or the
/// writer fails; a read or a write also fails if the file has become too short for its sector. After a hand-out that
/// failed each further one fails and writes nothing, since no line may follow a part of another.
#[derive(Drop)]
pub struct FileRig<S: Storage, W, A: Allocator> {
    sectors: Sectors<S>,
    out: W,
    line: Vec<u8, A>,
    /// Whether a hand-out has failed.
    cut: bool,
    failures: u64,
}

impl<S: Storage + Drop, W: Write + Drop, A: Allocator + Copy + Drop> FileRig<S, W, A> {
    ghost use Rattle.std.specs.Prelude.{◌≡◌, ◌+◌, ◌*◌, ◌/◌, ◌%◌, ◌^◌, ◌<◌, ◌≤◌, IfErr, IfOk, IfSome, OnOk, OnErr, is_err, is_ok, length, false, true};
    ghost use Rattle.ng_rig.specs.Calls.{FailureCountSpec};
    ghost use Rattle.std.specs.Io.KnownBytes.{Appends};
    ghost use Rattle.ng_file.specs.Bytes.{AppendsBeginning, Put, PutInPart};
    ghost use Rattle.ng_rig.specs.Trace.{Began};
    ghost use Rattle.ng_file.specs.Rig.{failure_count, is_cut, outlet, sector_count, storage};
    ghost use Rattle.ng_file.specs.HandOuts.{HasHandedOut};
    ghost use Rattle.ng_file.specs.Promise.{IsDurable};
    ghost use Rattle.ng_file.specs.Sectors.{AreHonest, image_of, trace_of};
    ghost use Rattle.ng_lines.specs.Lines.{item_line};

    /// The device in a file, which hands out to a writer. Fails if the file's length can't be read, or if there is no
    /// memory for a line.
    pub fn over(alloc: A, file: S, out: W) -> io::Result<Self>
        ensures size { IfOk result (λ rig. IfSome (S.content file) (λ held. sector_count rig ≡ length held / 512)) }
        ensures bytes { IfOk result (λ rig. S.content (storage rig) ≡ S.content file) }
        ensures out { IfOk result (λ rig. outlet rig ≡ out) }
        ensures failures { IfOk result (λ rig. failure_count rig ≡ 0) }
        ensures trace { IfOk result (λ rig. trace_of S.content rig.sectors ≡ Began (image_of (sector_count rig) (S.content file))) }
        ensures honest { IfOk result (λ rig. (S.promise file).honest → IsDurable (S.content file) (S.promise file) → AreHonest S.content S.promise rig.sectors) }
        ensures handed { IfOk result (λ rig. HasHandedOut S.content W.contents (W.contents out) rig) }
    {
        match FileRig::over_or_back(alloc, file, out) {
            Ok(rig) => Ok(rig),
            Err((error, _, _)) => Err(error),
        }
    }

    /// The same; but where it fails it gives the file and the writer back.
    pub fn over_or_back(alloc: A, file: S, out: W) -> Result<Self, (io::Error, S, W)>
        ensures size { IfOk result (λ rig. IfSome (S.content file) (λ held. sector_count rig ≡ length held / 512)) }
        ensures bytes { IfOk result (λ rig. S.content (storage rig) ≡ S.content file) }
        ensures out { IfOk result (λ rig. outlet rig ≡ out) }
        ensures failures { IfOk result (λ rig. failure_count rig ≡ 0) }
        ensures trace { IfOk result (λ rig. trace_of S.content rig.sectors ≡ Began (image_of (sector_count rig) (S.content file))) }
        ensures honest { IfOk result (λ rig. (S.promise file).honest → IsDurable (S.content file) (S.promise file) → AreHonest S.content S.promise rig.sectors) }
        ensures handed { IfOk result (λ rig. HasHandedOut S.content W.contents (W.contents out) rig) }
        ensures back { IfErr result (λ e. (S.content e.1 ≡ S.content file) × (e.2 ≡ out)) }
    {
        let line = match Vec::with_capacity(alloc, LINE) {
            Ok(line) => line,
            Err(error) => return Err((io::Error::from(error), file, out)),
        };
        match Sectors::over(file) {
            Ok(sectors) => Ok(FileRig {
                sectors,
                out,
                line,
                cut: false,
                failures: 0,
            }),
            Err((error, file)) => Err((error, file, out)),
        }
    }

    /// Gives the file and the writer back.
    pub fn into_parts(self) -> (S, W)
        ensures { (result.0 ≡ storage self) × (result.1 ≡ outlet self) }
    {
        let FileRig {
            sectors,
            out,
            line: _,
            cut: _,
            failures: _,
        } = self;
        (sectors.into_file(), out)
    }

    /// Appends the line of an item to the writer.
    fn put_line(&mut self, item: Item) -> io::Result<()>
        ensures line { OnOk result (Appends (W.contents (outlet self.old)) (W.contents (outlet self.new)) (item_line item)) }
        ensures part { OnErr result (AppendsBeginning (W.contents (outlet self.old)) (W.contents (outlet self.new)) (item_line item)) }
        ensures others { (self.new.sectors ≡ self.old.sectors) × (failure_count self.new ≡ failure_count self.old) × (is_cut self.new ≡ is_cut self.old) }
    {
        self.line.clear();
        push_item(&mut self.line, item)?;
        write_out(&mut self.out, &self.line)?;
        self.out.flush()
    }

    /// The same if no line was cut off before. If one was, it fails, and nothing is written.
    fn put_next_line(&mut self, item: Item) -> io::Result<()>
        ensures line { OnOk result (Appends (W.contents (outlet self.old)) (W.contents (outlet self.new)) (item_line item)) }
        ensures part { OnErr result (AppendsBeginning (W.contents (outlet self.old)) (W.contents (outlet self.new)) (item_line item)) }
        ensures others { (self.new.sectors ≡ self.old.sectors) × (failure_count self.new ≡ failure_count self.old) }
        ensures was { OnOk result (is_cut self.old ≡ false) }
        ensures is { is_cut self.new ≡ is_err result }
        ensures stays { is_cut self.old ≡ true → outlet self.new ≡ outlet self.old }
    {
        if self.cut {
            return Err(io::Error::from(ErrorKind::BrokenPipe));
        }
        let put = self.put_line(item);
        self.cut = put.is_err();
        put
    }

    /// Counts a failure of the file or the writer.
    fn counted(&mut self, outcome: io::Result<()>) -> Result<(), Failed>
        ensures same { is_ok result ≡ is_ok outcome }
        ensures failures { FailureCountSpec result (failure_count self.old) (failure_count self.new) }
        ensures others { (self.new.sectors ≡ self.old.sectors) × (outlet self.new ≡ outlet self.old) × (is_cut self.new ≡ is_cut self.old) }
    {
        match outcome {
            Ok(()) => Ok(()),
            Err(_) => {
                self.failures = self.failures.wrapping_add(1);
                Err(Failed)
            }
        }
    }
}

impl<S: Storage + Drop, W: Write + Drop, A: Allocator + Copy + Drop> Rig for FileRig<S, W, A> {
    ghost use Rattle.std.specs.Prelude.{◌≡◌, ◌+◌, ◌*◌, ◌<◌, ◌≤◌, IfSome, OnOk, OnErr, Some, length};
    ghost use Rattle.std.specs.Io.KnownBytes.{Appends};
    ghost use Rattle.ng_rig.specs.Calls.{HandOutSpec, IfHonest, IsCall, SyncSpec, WriteSpec};
    ghost use Rattle.ng_rig.specs.Trace.{reads};
    ghost use Rattle.ng_file.specs.Bytes.{AppendsBeginning, Put, PutInPart, sector_of};
    ghost use Rattle.ng_file.specs.HandOuts.{KeepsHandedOut};
    ghost use Rattle.ng_file.specs.Rig.{device_of, outlet, sector_count, storage};
    ghost use Rattle.ng_file.specs.Sectors.{trace_of};
    ghost use Rattle.ng_lines.specs.Lines.{item_line};

    ghost seen = { device_of S.content S.promise };

    fn size(&self) -> usize {
        self.sectors.count()
    }

    fn failures(&self) -> u64 {
        self.failures
    }

    /// Fails if the file does, also if it has become too short for the sector.
    fn read(&mut self, sector: usize, into: &mut [u8; 512]) -> Result<(), Failed>
        requires { sector < sector_count self.old }
        ensures value { OnOk result (IfSome (S.content (storage self.old)) (λ held. into.new ≡ sector_of sector held)) }
        ensures bytes { (device_of S.content S.promise self.old).honest → OnOk result (into.new ≡ reads (trace_of S.content self.old.sectors) sector) }
        ensures trace { IfHonest (device_of S.content S.promise self.old) (device_of S.content S.promise self.new) (trace_of S.content self.new.sectors ≡ trace_of S.content self.old.sectors) }
        ensures stays { (S.content (storage self.new) ≡ S.content (storage self.old)) × (outlet self.new ≡ outlet self.old) }
        ensures call { IsCall result (device_of S.content S.promise self.old) (device_of S.content S.promise self.new) }
        ensures handed { KeepsHandedOut S.content W.contents self.old self.new }
    {
        let read = self.sectors.read(sector, into);
        self.counted(read)
    }

    /// Fails if the file does, and if it has become too short for the sector; then nothing is written.
    fn write(&mut self, sector: usize, bytes: &[u8; 512]) -> Result<(), Failed>
        requires { sector < sector_count self.old }
        ensures whole { OnOk result (IfSome (S.content (storage self.old)) (λ held. 512 * sector + 512 ≤ length held)) }
        ensures put { OnOk result (Put (512 * sector) bytes.now (S.content (storage self.old)) (S.content (storage self.new))) }
        ensures part { OnErr result (PutInPart (512 * sector) bytes.now (S.content (storage self.old)) (S.content (storage self.new))) }
        ensures trace { IfHonest (device_of S.content S.promise self.old) (device_of S.content S.promise self.new)
            (WriteSpec result sector bytes.now (trace_of S.content self.old.sectors) (trace_of S.content self.new.sectors)) }
        ensures stays { outlet self.new ≡ outlet self.old }
        ensures call { IsCall result (device_of S.content S.promise self.old) (device_of S.content S.promise self.new) }
        ensures handed { KeepsHandedOut S.content W.contents self.old self.new }
    {
        let put = self.sectors.write(sector, bytes);
        self.counted(put)
    }

    /// Fails if the file does. If it succeeds, everything in the file is durable.
    fn sync(&mut self) -> Result<(), Failed>
        ensures lasts { OnOk result (IfSome (S.lasting (storage self.new)) (λ held. S.content (storage self.new) ≡ Some held)) }
        ensures stays { (S.content (storage self.new) ≡ S.content (storage self.old)) × (outlet self.new ≡ outlet self.old) }
        ensures trace { IfHonest (device_of S.content S.promise self.old) (device_of S.content S.promise self.new)
            (SyncSpec result (trace_of S.content self.old.sectors) (trace_of S.content self.new.sectors)) }
        ensures call { IsCall result (device_of S.content S.promise self.old) (device_of S.content S.promise self.new) }
        ensures handed { KeepsHandedOut S.content W.contents self.old self.new }
    {
        let synced = self.sectors.sync();
        self.counted(synced)
    }

    /// Appends the item's line and flushes the writer. Doesn't allocate. After a failure the beginning of the line may
    /// have been written; and after that nothing more is.
    fn hand_out(&mut self, item: Item) -> Result<(), Failed>
        ensures line { OnOk result (Appends (W.contents (outlet self.old)) (W.contents (outlet self.new)) (item_line item)) }
        ensures part { OnErr result (AppendsBeginning (W.contents (outlet self.old)) (W.contents (outlet self.new)) (item_line item)) }
        ensures trace { IfHonest (device_of S.content S.promise self.old) (device_of S.content S.promise self.new)
            (HandOutSpec result item (trace_of S.content self.old.sectors) (trace_of S.content self.new.sectors)) }
        ensures stays { storage self.new ≡ storage self.old }
        ensures call { IsCall result (device_of S.content S.promise self.old) (device_of S.content S.promise self.new) }
        ensures handed { KeepsHandedOut S.content W.contents self.old self.new }
    {
        let put = self.put_next_line(item);
        if put.is_ok() {
            self.sectors.hand(&item);
        }
        self.counted(put)
    }
}
