//! A file of the system as storage.
ghost use Rattle.std.specs.Prelude.{◌≡◌};

use crate::storage::{Append, Storage};
use std::fs::OpenFile;
use std::io;
use std::io::{Read, Seek, SeekFrom, Write};

/// A file that was opened for reading and writing. What it holds is up to the system, and no contract says it.
#[derive(Drop)]
pub struct OpenedFile<F> {
    file: F,
}

impl<F> OpenedFile<F> {
    /// The bytes of this file.
    pub fn of(file: F) -> OpenedFile<F>
        ensures { result.file ≡ file }
    {
        OpenedFile { file }
    }
}

impl<F: Read + Write + Seek + OpenFile> Storage for OpenedFile<F> {
    fn length(&mut self) -> io::Result<u64> {
        self.file.seek(SeekFrom::End(0))
    }

    fn read_at(&mut self, place: u64, into: &mut [u8; 512]) -> io::Result<()> {
        self.file.seek(SeekFrom::Start(place))?;
        self.file.read_exact(into)
    }

    fn write_at(&mut self, place: u64, bytes: &[u8; 512]) -> io::Result<()> {
        self.file.seek(SeekFrom::Start(place))?;
        self.file.write_all(bytes)
    }

    /// By the system's sync of data alone: the length stays, and to have its time of change durable too would take
    /// another flush of the disk.
    fn sync(&mut self) -> io::Result<()> {
        self.file.sync_data()
    }
}

impl<F: Read + Write + Seek + OpenFile> Append for OpenedFile<F> {
    fn append(&mut self, bytes: &[u8]) -> io::Result<()> {
        self.file.seek(SeekFrom::End(0))?;
        self.file.write_all(bytes)
    }

    fn sync_all(&mut self) -> io::Result<()> {
        self.file.sync_all()
    }
}
