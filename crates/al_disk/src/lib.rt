//! The disk: its five calls, what a crash may leave of it, a disk in memory and a real file.
#![tactic(auto)]

pub mod bytes;
pub mod disk;
pub mod file;
mod log;
pub mod memory;

pub use disk::{Disk, DiskFault};
pub use file::FileDisk;
pub use memory::MemDisk;
