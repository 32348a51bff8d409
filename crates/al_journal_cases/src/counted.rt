//! A disk in memory that tells nothing and counts its calls, so that a test may call a journal on it in any order.

ghost use Rattle.std.specs.Prelude.{◌≤◌};
ghost use Rattle.al_base.specs.Outside.{Rose};

use al_disk::{Disk, DiskFault, MemDisk};
use std::alloc::{AllocError, Global};

#[derive(Drop)]
pub struct Counted {
    disk: MemDisk,
    calls: u64,
    faults: u64,
}

impl Counted {
    /// A disk of these bytes with room for so many, that takes so many calls, of which those in `fails` fail.
    pub fn new(
        alloc: Global,
        bytes: &[u8],
        room: usize,
        calls: usize,
        fails: &[u64],
    ) -> Result<Counted, AllocError> {
        if bytes.len() > room {
            return Err(AllocError);
        }
        Ok(Counted {
            disk: MemDisk::new(alloc, bytes, room, calls, fails)?,
            calls: 0,
            faults: 0,
        })
    }

    pub fn image(&self) -> &[u8] {
        self.disk.image()
    }

    /// How many calls were made.
    pub fn calls(&self) -> u64 {
        self.calls
    }

    fn count(&mut self)
        ensures { self.old.faults ≤ self.new.faults }
    {
        self.calls = self.calls.saturating_add(1);
    }

    fn fault(&mut self) -> DiskFault
        ensures later { self.old.faults ≤ self.new.faults }
        ensures cause { Rose self.old.faults self.new.faults }
    {
        self.faults = self.faults.saturating_add(1);
        DiskFault
    }
}

impl Disk for Counted {
    ghost use Rattle.std.specs.Prelude.{None};

    ghost told = { λ _. None };

    ghost faults = { λ d. d.faults };

    fn size(&mut self) -> Result<u64, DiskFault> {
        self.count();
        match self.disk.size() {
            Ok(size) => Ok(size),
            Err(_) => Err(self.fault()),
        }
    }

    fn read_at(&mut self, place: u64, buf: &mut [u8]) -> Result<usize, DiskFault> {
        self.count();
        match self.disk.read_at(place, buf) {
            Ok(count) => Ok(count),
            Err(_) => Err(self.fault()),
        }
    }

    fn write_at(&mut self, place: u64, bytes: &[u8]) -> Result<(), DiskFault> {
        self.count();
        if place > self.disk.image().len() as u64 {
            return Err(self.fault());
        }
        match self.disk.write_at(place, bytes) {
            Ok(()) => Ok(()),
            Err(_) => Err(self.fault()),
        }
    }

    fn cut(&mut self, size: u64) -> Result<(), DiskFault> {
        self.count();
        if size > self.disk.image().len() as u64 {
            return Err(self.fault());
        }
        match self.disk.cut(size) {
            Ok(()) => Ok(()),
            Err(_) => Err(self.fault()),
        }
    }

    fn sync(&mut self) -> Result<(), DiskFault> {
        self.count();
        match self.disk.sync() {
            Ok(()) => Ok(()),
            Err(_) => Err(self.fault()),
        }
    }
}
