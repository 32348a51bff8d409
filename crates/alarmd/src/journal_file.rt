//! The trusted edge: the file of a journal, which is opened once.

use crate::standard::is_standard;
use al_disk::FileDisk;
use libc::types::rlimit;
use std::fs::{self, File, OpenOptions, TryLockError};

/// What a command does with the file of its journal.
#[derive(Clone, Copy, PartialEq, Eq)]
pub enum Access {
    /// It makes a journal of so many bytes, in a new file or one that is there.
    Make(u64),
    /// It adds to the journal that is there.
    Add,
    /// It looks at the journal that is there.
    Look,
}

/// The file of this path as a disk. It is closed where the file isn't a regular one or can't be opened, and, unless it is looked at alone, where
/// another process has its lock. The lock lasts as long as the disk, and the system releases it when this process ends, in whatever way; on a
/// file system without locks nothing is held.
pub fn disk_at(rt: &HostRuntime, path: &str, access: Access) -> FileDisk<File> {
    let longest = longest_file();
    match access {
        Access::Make(capacity) if capacity > longest => FileDisk::closed(),
        _ => match opened(rt, path, access) {
            Some(file) => FileDisk::of(file, longest),
            None => FileDisk::closed(),
        },
    }
}

fn opened(rt: &HostRuntime, path: &str, access: Access) -> Option<File> {
    // What is no regular file isn't opened at all: that alone may wait, or set a device going.
    if let Ok(found) = fs::metadata(rt, path)
        && !found.is_file()
    {
        return None;
    }
    let file = OpenOptions::new()
        .read(true)
        .write(access != Access::Look)
        .create(matches!(access, Access::Make(_)))
        .open(rt, path)
        .ok()?;
    let is_ours = file.metadata().ok()?.is_file() && !is_standard(&file);
    (is_ours && (access == Access::Look || is_locked(&file))).then_some(file)
}

/// Takes the lock on the whole file; false where another process has it.
fn is_locked(file: &File) -> bool {
    !matches!(file.try_lock(), Err(TryLockError::WouldBlock))
}

/// What `getrlimit` is asked for the size of files.
const RLIMIT_FSIZE: i32 = 1;

/// How long a file this process may make; there is no limit where the system tells none.
fn longest_file() -> u64 {
    let mut limit = rlimit {
        rlim_cur: u64::MAX,
        rlim_max: u64::MAX,
    };
    if libc::getrlimit(RLIMIT_FSIZE, &mut limit) == 0 {
        limit.rlim_cur
    } else {
        u64::MAX
    }
}
