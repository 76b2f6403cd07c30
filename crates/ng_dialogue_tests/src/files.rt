//! Devices over the bytes of a storage: which bytes a sector is, the lines of what is handed out, and what remains if a
//! storage or a writer fails.
use linked_list_allocator::LocalHeap;
use ng_canon::{AxisStep, Item, Outputs, Pulse, Spindle};
use ng_file::{FileRig, OpenedFile, Storage, lengthen};
use ng_num::Num;
use ng_rig::{Failed, Rig};
use std::alloc::{AllocError, Global};
use std::fs::{Metadata, OpenFile};
use std::io;
use std::io::{ErrorKind, Read, Seek, SeekFrom, Write};
use std::test::Fail;

/// Bytes in memory that behave like a full disk, or like a file that gets shorter.
#[derive(Drop)]
struct Disk {
    bytes: Vec<u8>,
    /// How many writes there may be.
    writes_left: usize,
    /// How often the length is asked for before the bytes from 1,024 on are gone.
    lengths_left: usize,
    syncs: usize,
}

impl Storage for Disk {
    fn length(&mut self) -> io::Result<u64> {
        if self.lengths_left == 0 {
            self.bytes.truncate(1_024);
        }
        self.lengths_left = self.lengths_left.saturating_sub(1);
        Ok(self.bytes.len() as u64)
    }

    fn read_at(&mut self, place: u64, into: &mut [u8; 512]) -> io::Result<()> {
        let held = self.bytes.as_slice();
        let begins = usize::try_from(place).unwrap_or(usize::MAX);
        match held.get(begins..).and_then(|rest| rest.get(..512)) {
            Some(sector) => {
                into.copy_from_slice(sector);
                Ok(())
            }
            None => Err(io::Error::from(ErrorKind::UnexpectedEof)),
        }
    }

    fn write_at(&mut self, place: u64, bytes: &[u8; 512]) -> io::Result<()> {
        if self.writes_left == 0 {
            return Err(io::Error::from(ErrorKind::StorageFull));
        }
        self.writes_left -= 1;
        let begins = usize::try_from(place).unwrap_or(usize::MAX);
        match self
            .bytes
            .as_mut_slice()
            .get_mut(begins..)
            .and_then(|rest| rest.get_mut(..512))
        {
            Some(sector) => {
                sector.copy_from_slice(bytes);
                Ok(())
            }
            None => Err(io::Error::from(ErrorKind::UnexpectedEof)),
        }
    }

    fn sync(&mut self) -> io::Result<()> {
        self.syncs = self.syncs.saturating_add(1);
        Ok(())
    }
}

/// A disk with this many bytes, all zeros, that takes this many writes.
fn disk_with(alloc: Global, length: usize, writes_left: usize) -> Result<Disk, AllocError> {
    let mut bytes = Vec::new(alloc);
    bytes.resize(length, 0)?;
    Ok(Disk {
        bytes,
        writes_left,
        lengths_left: usize::MAX,
        syncs: 0,
    })
}

/// Writes a byte to a whole sector, if there is one.
fn fill<R: Rig>(rig: &mut R, sector: usize, byte: u8) -> Result<(), Failed> {
    if sector < rig.size() {
        rig.write(sector, &[byte; 512])
    } else {
        Ok(())
    }
}

/// Whether a sector reads as 512 times this byte.
fn holds<R: Rig>(rig: &mut R, sector: usize, byte: u8) -> bool {
    let mut bytes = [byte.wrapping_add(1); 512];
    sector < rig.size() && rig.read(sector, &mut bytes).is_ok() && bytes == [byte; 512]
}

/// Lengths in bytes, and their whole sectors.
const SIZES: &[(usize, usize)] = &[
    (0, 0),
    (511, 0),
    (512, 1),
    (1_023, 1),
    (875_520, 1_710),
    (875_521, 1_710),
];

#[test]
fn a_device_has_the_whole_sectors(rt: HostRuntime) -> Result<(), Fail> {
    for (length, sectors) in SIZES {
        let rig = FileRig::over(rt.alloc(), disk_with(rt.alloc(), *length, 0)?, io::sink())?;
        assert_eq!(rt; (rig.size(), rig.failures()), (*sectors, 0), "{length}");
    }
    Ok(())
}

/// Writes the second and the third sector and syncs. Returns which writes succeed, which of three sectors hold what
/// they should, and whether the sync succeeds.
fn two_sectors<R: Rig>(rig: &mut R) -> ([bool; 2], [bool; 3], bool) {
    let written = [fill(rig, 1, 7).is_ok(), fill(rig, 2, 9).is_ok()];
    let held = [holds(rig, 0, 0), holds(rig, 1, 7), holds(rig, 2, 9)];
    (written, held, rig.sync().is_ok())
}

/// Runs of equal bytes, one after the other: where each ends, and its byte.
const RUNS: &[(usize, u8)] = &[(512, 0), (1_024, 7), (1_536, 9), (1_600, 0)];

/// The bytes of those runs.
fn bytes_of_runs(alloc: Global) -> Result<Vec<u8>, AllocError> {
    let mut bytes = Vec::new(alloc);
    for (end, byte) in RUNS {
        bytes.resize(*end, *byte)?;
    }
    Ok(bytes)
}

#[test]
fn a_sector_is_512_bytes_at_512_times_its_number(rt: HostRuntime) -> Result<(), Fail> {
    let wanted = bytes_of_runs(rt.alloc())?;
    let mut rig = FileRig::over(rt.alloc(), disk_with(rt.alloc(), 1_600, 9)?, io::sink())?;
    let found = two_sectors(&mut rig);
    let failures = rig.failures();
    let (file, _) = rig.into_parts();
    assert_eq!(rt;
        (found, failures, file.bytes == wanted, file.syncs),
        (([true; 2], [true; 3], true), 0, true, 1)
    );
    Ok(())
}

#[test]
fn a_full_disk_fails_and_keeps_what_it_has(rt: HostRuntime) -> Result<(), Fail> {
    let mut rig = FileRig::over(rt.alloc(), disk_with(rt.alloc(), 1_024, 1)?, io::sink())?;
    assert!(rt; fill(&mut rig, 0, 7).is_ok() && rig.failures() == 0);
    assert!(rt; fill(&mut rig, 0, 8) == Err(Failed) && rig.failures() == 1);
    assert!(rt; fill(&mut rig, 1, 9) == Err(Failed) && rig.failures() == 2);
    assert!(rt; holds(&mut rig, 0, 7) && holds(&mut rig, 1, 0) && rig.failures() == 2);
    Ok(())
}

/// Writes the last of three sectors and reads it, and does both again. Returns how many failures are counted after
/// each, and the device's size in between.
fn last_sector_twice<R: Rig>(rig: &mut R) -> ([bool; 2], [(bool, u64); 2], usize) {
    let whole = [fill(rig, 2, 7).is_ok(), holds(rig, 2, 7)];
    let written = (fill(rig, 2, 8).is_ok(), rig.failures());
    let size = rig.size();
    let held = (holds(rig, 2, 7), rig.failures());
    (whole, [written, held], size)
}

#[test]
fn a_file_that_gets_shorter_fails_and_stays_short(rt: HostRuntime) -> Result<(), Fail> {
    let mut file = disk_with(rt.alloc(), 1_536, 9)?;
    // the first length is that of the device, the second that of its first write
    file.lengths_left = 2;
    let mut rig = FileRig::over(rt.alloc(), file, io::sink())?;
    let found = last_sector_twice(&mut rig);
    let before = [fill(&mut rig, 1, 8).is_ok(), holds(&mut rig, 1, 8)];
    let (file, _) = rig.into_parts();
    assert_eq!(rt;
        (found, before, file.bytes.len()),
        (([true; 2], [(false, 1), (false, 2)], 3), [true; 2], 1_024)
    );
    Ok(())
}

/// Items of each kind.
fn items() -> [Item; 4] {
    let pulse = Pulse {
        x: AxisStep::Forward,
        y: AxisStep::Still,
        z: AxisStep::Backward,
        period_us: 50,
    };
    let outputs = Outputs {
        spindle: Spindle::Counterclockwise,
        speed: Num::of(1_200_500_000).unwrap_or_default(),
        mist: true,
        flood: false,
        selected_slot: 3,
        spindle_slot: 64,
    };
    [
        Item::Pulse(pulse),
        Item::Dwell { us: 10_000_000 },
        Item::Switch(Outputs::fresh()),
        Item::Switch(outputs),
    ]
}

/// A line that is there already, and those of the items after it.
const LINES: &str =
    "D 1\nP 1 0 -1 50\nD 10000000\nS 0 0.000000 0 0 0 0\nS 2 1200.500000 1 0 3 64\n";

/// Hands out an item of each kind.
fn hand_out_each<R: Rig>(rig: &mut R) -> Result<(), Failed> {
    for item in &items() {
        rig.hand_out(*item)?;
    }
    Ok(())
}

#[test]
fn what_is_handed_out_is_a_line_after_those_before(rt: HostRuntime) -> Result<(), Fail> {
    let out = Vec::from_slice(rt.alloc(), b"D 1\n")?;
    let mut rig = FileRig::over(rt.alloc(), disk_with(rt.alloc(), 0, 0)?, out)?;
    let handed = hand_out_each(&mut rig);
    let failures = rig.failures();
    let (_, out) = rig.into_parts();
    assert_eq!(rt;
        (handed, failures, out.as_slice() == LINES.as_bytes()),
        (Ok(()), 0, true)
    );
    Ok(())
}

/// A writer that accepts a limited number of bytes at a call, and fails after a number of calls.
#[derive(Drop)]
struct Short {
    taken: Vec<u8>,
    most: usize,
    calls_left: usize,
}

impl Write for Short {
    fn write(&mut self, buf: &[u8]) -> io::Result<usize> {
        if self.calls_left == 0 {
            return Err(io::Error::from(ErrorKind::StorageFull));
        }
        self.calls_left -= 1;
        let count = buf.len().min(self.most);
        match self.taken.extend_from_slice(&buf[..count]) {
            Ok(()) => Ok(count),
            Err(_) => Err(io::Error::from(ErrorKind::OutOfMemory)),
        }
    }

    fn flush(&mut self) -> io::Result<()> {
        if self.calls_left == 0 {
            return Err(io::Error::from(ErrorKind::StorageFull));
        }
        self.calls_left -= 1;
        Ok(())
    }
}

/// How many calls of a writer succeed and the bytes that it accepts at each; how many of three items are handed out
/// then, and what is written.
const CALLS: &[(usize, usize, usize, &str)] = &[
    (0, 9, 0, ""),
    (1, 9, 0, "D 5\n"),
    (2, 9, 1, "D 5\n"),
    (3, 9, 1, "D 5\nD 5\n"),
    (4, 9, 2, "D 5\nD 5\n"),
    (6, 9, 3, "D 5\nD 5\nD 5\n"),
    (1, 3, 0, "D 5"),
    (2, 3, 0, "D 5\n"),
    (3, 3, 1, "D 5\n"),
    (4, 3, 1, "D 5\nD 5"),
    (9, 3, 3, "D 5\nD 5\nD 5\n"),
    (9, 0, 0, ""),
];

/// Hands out three items. Returns how many succeed.
fn hand_out_three<R: Rig>(rig: &mut R) -> usize {
    let mut good = 0usize;
    for _ in 0..3 {
        if rig.hand_out(Item::Dwell { us: 5 }).is_ok() {
            good = good.saturating_add(1);
        }
    }
    good
}

/// Hands out three items over a writer of which this many calls succeed, with this many bytes each: how many items
/// succeed, how many failures are counted, and what is written.
fn three_over_short(
    alloc: Global,
    calls_left: usize,
    most: usize,
) -> io::Result<(usize, u64, Vec<u8>)> {
    let out = Short {
        taken: Vec::new(alloc),
        most,
        calls_left,
    };
    let mut rig = FileRig::over(alloc, disk_with(alloc, 0, 0)?, out)?;
    let good = hand_out_three(&mut rig);
    let failures = rig.failures();
    let (_, out) = rig.into_parts();
    Ok((good, failures, out.taken))
}

#[test]
fn a_hand_out_is_writes_and_a_flush_and_fails_with_each(rt: HostRuntime) -> Result<(), Fail> {
    for (calls_left, most, handed, written) in CALLS {
        let (good, failures, taken) = three_over_short(rt.alloc(), *calls_left, *most)?;
        let failing = 3u64.saturating_sub(*handed as u64);
        assert_eq!(rt;
            (good, failures, taken.as_slice() == written.as_bytes()),
            (*handed, failing, true),
            "{calls_left} {most}"
        );
    }
    Ok(())
}

#[test]
fn opening_a_device_fails_without_memory(rt: HostRuntime) -> Result<(), Fail> {
    let heap = LocalHeap::new(rt.alloc(), 16)?;
    assert!(rt; FileRig::over(&heap, disk_with(rt.alloc(), 0, 0)?, io::sink()).is_err());
    Ok(())
}

/// An empty file of the system that can make its data durable but not all of it, or all of it but not the data alone.
#[derive(Drop)]
struct Unlasting {
    data: bool,
}

impl Read for Unlasting {
    fn read(&mut self, _: &mut [u8]) -> io::Result<usize> {
        Ok(0)
    }
}

impl Write for Unlasting {
    fn write(&mut self, buf: &[u8]) -> io::Result<usize> {
        Ok(buf.len())
    }

    fn flush(&mut self) -> io::Result<()> {
        Ok(())
    }
}

impl Seek for Unlasting {
    fn seek(&mut self, _: SeekFrom) -> io::Result<u64> {
        Ok(0)
    }
}

impl OpenFile for Unlasting {
    fn metadata(&self) -> io::Result<Metadata> {
        Err(io::Error::from(ErrorKind::Unsupported))
    }

    fn set_len(&self, _: u64) -> io::Result<()> {
        Ok(())
    }

    fn sync_all(&self) -> io::Result<()> {
        if self.data {
            Err(io::Error::from(ErrorKind::Other))
        } else {
            Ok(())
        }
    }

    fn sync_data(&self) -> io::Result<()> {
        if self.data {
            Ok(())
        } else {
            Err(io::Error::from(ErrorKind::Other))
        }
    }
}

/// Whether a device over such a file is synced, and whether such a file can be lengthened.
fn synced_and_lengthened(alloc: Global, data: bool) -> io::Result<(bool, bool)> {
    let mut rig = FileRig::over(alloc, OpenedFile::of(Unlasting { data }), io::sink())?;
    let synced = rig.sync().is_ok();
    let mut file = OpenedFile::of(Unlasting { data });
    Ok((synced, lengthen(&mut file, 512).is_ok()))
}

#[test]
fn a_device_syncs_its_data_and_a_file_that_gets_longer_all(rt: HostRuntime) -> Result<(), Fail> {
    assert_eq!(rt; synced_and_lengthened(rt.alloc(), true)?, (true, false));
    assert_eq!(rt; synced_and_lengthened(rt.alloc(), false)?, (false, true));
    Ok(())
}
