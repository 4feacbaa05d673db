//! Locking of a file, or a folder, that a process has opened.
use std::fs::{File, TryLockError};
use std::io;
use std::os::fd::AsRawFd;

/// A file that only one process at a time can lock, until it ends.
pub trait Locking {
    /// Locks it, unless another process has locked it. The answer is whether this process has it now.
    fn hold(&self) -> io::Result<bool>;

    /// Its file descriptor in this process, if the system gave it one.
    fn number(&self) -> Option<u32>;
}

impl Locking for File {
    fn hold(&self) -> io::Result<bool> {
        match self.try_lock() {
            Ok(()) => Ok(true),
            Err(TryLockError::WouldBlock) => Ok(false),
            Err(TryLockError::Error(error)) => Err(error),
        }
    }

    fn number(&self) -> Option<u32> {
        u32::try_from(self.as_raw_fd()).ok()
    }
}
