//! The trusted edge: a file of the system as a disk. It tells no bytes, but counts its faults.

ghost use Rattle.std.specs.Prelude.{◌≡◌, ◌≤◌, false, true, Err, None, IfOk, IfSome, OnErr, is_some, length};
ghost use Rattle.al_base.specs.Outside.{Rose};

use crate::disk::{Disk, DiskFault};
use std::fs::OpenFile;
use std::marker::Model;
use std::os::unix::fs::FileExt;

/// An open file, or none: then each call fails. Each error of the system is a fault, and so is what would make the file longer than the
/// process may make one: the system would end the process for it.
#[derive(Drop)]
pub struct FileDisk<F: OpenFile + FileExt + Drop> {
    file: Option<F>,
    longest: u64,
    faults: u64,
}

impl<F: OpenFile + FileExt + Drop> Model for FileDisk<F> {
    ghost use Rattle.std.specs.Prelude.{is_some};
    ghost use Rattle.al_disk.specs.Files.{FileView};

    ghost Value = { FileView };

    ghost view = { λ d. record { faults = d.faults; is_open = is_some d.file } };
}

impl<F: OpenFile + FileExt + Drop> FileDisk<F> {
    /// The disk of this file, which has to be open for what is asked of it. No call makes it longer than so many bytes.
    pub fn of(file: F, longest: u64) -> FileDisk<F>
        ensures { result ≡ record { faults = 0; is_open = true } }
    {
        FileDisk {
            file: Some(file),
            longest,
            faults: 0,
        }
    }

    /// The disk of no file.
    pub fn closed() -> FileDisk<F>
        ensures { result ≡ record { faults = 0; is_open = false } }
    {
        FileDisk {
            file: None,
            longest: 0,
            faults: 0,
        }
    }

    /// Makes the file so long, unless it is longer. What is added reads as zeros, and takes no room of the disk till it is written.
    pub fn lengthen(&mut self, size: u64) -> Result<(), DiskFault>
        ensures fails { self.old.is_open ≡ false → result ≡ Err (record {}) }
        ensures same { self.new.is_open ≡ self.old.is_open }
        ensures later { self.old.faults ≤ self.new.faults }
    {
        match lengthened(&self.file, size, self.longest) {
            Some(()) => Ok(()),
            None => Err(self.fault()),
        }
    }

    /// Counts a fault.
    fn fault(&mut self) -> DiskFault
        ensures same { self.new.is_open ≡ self.old.is_open }
        ensures later { self.old.faults ≤ self.new.faults }
        ensures cause { Rose self.old.faults self.new.faults }
    {
        self.faults = self.faults.saturating_add(1);
        DiskFault
    }
}

impl<F: OpenFile + FileExt + Drop> Disk for FileDisk<F> {
    ghost use Rattle.std.specs.Prelude.{None};

    ghost told = { λ _. None };

    ghost faults = { λ d. d.faults };

    fn size(&mut self) -> Result<u64, DiskFault>
        ensures fails { self.old.is_open ≡ false → result ≡ Err (record {}) }
        ensures same_file { self.new.is_open ≡ self.old.is_open }
        ensures later { self.old.faults ≤ self.new.faults }
        ensures cause { OnErr result (Rose self.old.faults self.new.faults) }
    {
        match size_of(&self.file) {
            Some(size) => Ok(size),
            None => Err(self.fault()),
        }
    }

    fn read_at(&mut self, place: u64, buf: &mut [u8]) -> Result<usize, DiskFault>
        ensures within { IfOk result (λ count. count ≤ length buf.new) }
        ensures fails { self.old.is_open ≡ false → result ≡ Err (record {}) }
        ensures same_file { self.new.is_open ≡ self.old.is_open }
        ensures later { self.old.faults ≤ self.new.faults }
        ensures cause { OnErr result (Rose self.old.faults self.new.faults) }
    {
        match read_of(&self.file, place, buf) {
            Some(count) => Ok(count),
            None => Err(self.fault()),
        }
    }

    fn write_at(&mut self, place: u64, bytes: &[u8]) -> Result<(), DiskFault>
        ensures fails { self.old.is_open ≡ false → result ≡ Err (record {}) }
        ensures same_file { self.new.is_open ≡ self.old.is_open }
        ensures later { self.old.faults ≤ self.new.faults }
        ensures cause { OnErr result (Rose self.old.faults self.new.faults) }
    {
        let end = place.saturating_add(bytes.len() as u64);
        match &self.file {
            Some(file) if end <= self.longest && file.write_all_at(bytes, place).is_ok() => Ok(()),
            _ => Err(self.fault()),
        }
    }

    fn cut(&mut self, size: u64) -> Result<(), DiskFault>
        ensures fails { self.old.is_open ≡ false → result ≡ Err (record {}) }
        ensures same_file { self.new.is_open ≡ self.old.is_open }
        ensures later { self.old.faults ≤ self.new.faults }
        ensures cause { OnErr result (Rose self.old.faults self.new.faults) }
    {
        match &self.file {
            Some(file) if size <= self.longest && file.set_len(size).is_ok() => Ok(()),
            _ => Err(self.fault()),
        }
    }

    fn sync(&mut self) -> Result<(), DiskFault>
        ensures fails { self.old.is_open ≡ false → result ≡ Err (record {}) }
        ensures same_file { self.new.is_open ≡ self.old.is_open }
        ensures later { self.old.faults ≤ self.new.faults }
        ensures cause { OnErr result (Rose self.old.faults self.new.faults) }
    {
        match &self.file {
            Some(file) if file.sync_data().is_ok() => Ok(()),
            _ => Err(self.fault()),
        }
    }
}

fn size_of<F: OpenFile>(file: &Option<F>) -> Option<u64>
    ensures { is_some file.now ≡ false → result ≡ None }
{
    Some(file.as_ref()?.metadata().ok()?.len())
}

fn lengthened<F: OpenFile>(file: &Option<F>, size: u64, longest: u64) -> Option<()>
    ensures { is_some file.now ≡ false → result ≡ None }
{
    if size_of(file)? >= size {
        return Some(());
    }
    if size > longest {
        return None;
    }
    file.as_ref()?.set_len(size).ok()
}

/// Reads all that there is from a place on and fits.
fn read_of<F: OpenFile + FileExt>(file: &Option<F>, place: u64, buf: &mut [u8]) -> Option<usize>
    ensures within { IfSome result (λ count. count ≤ length buf.new) }
    ensures none { is_some file.now ≡ false → result ≡ None }
{
    let left = size_of(file)?.saturating_sub(place);
    let count = (buf.len() as u64).min(left) as usize;
    let front = &mut buf[..count];
    file.as_ref()?.read_exact_at(front, place).ok()?;
    Some(count)
}
