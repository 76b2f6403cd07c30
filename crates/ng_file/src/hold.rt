//! Files that only one process holds at a time.
use std::fs::{File, TryLockError};

/// Another process holds the file, or the system can't tell.
#[derive(Clone, Copy, Debug, PartialEq, Eq)]
pub struct NotHeld;

/// A file that a process can hold, so that no other process that asks for it gets it too.
pub trait Hold {
    /// Holds the file until it is closed, at the latest when the process ends. Doesn't wait.
    fn hold(&self) -> Result<(), NotHeld>;
}

impl Hold for File {
    /// By the system's lock on the whole file, which binds only programs that ask for it.
    fn hold(&self) -> Result<(), NotHeld> {
        match self.try_lock() {
            Ok(()) => Ok(()),
            Err(TryLockError::WouldBlock | TryLockError::Error(_)) => Err(NotHeld),
        }
    }
}
