//! A disk read in blocks of 4,096 bytes, of which the last one is kept.

ghost use Rattle.std.specs.Prelude.{◌≡◌, ◌≤◌, ◌<◌, ◌+◌, ◌-◌, ◌*◌, ◌/◌, ◌%◌, ◌^◌, true, false, IfOk, OnErr, length, take, drop};
ghost use Rattle.al_base.specs.Outside.{Rose};
ghost use Rattle.al_disk.specs.States.{Told};
ghost use Rattle.al_journal.specs.Blocks.{Holds};

use al_disk::bytes::copy_from;
use al_disk::{Disk, DiskFault};
use std::alloc::{AllocError, Global};
use std::marker::Model;

const SIZE: u64 = 4096;

/// One block of a disk, or none yet.
#[derive(Debug, Drop)]
pub struct Block {
    bytes: Vec<u8>,
    count: usize,
    start: u64,
    filled: bool,
}

impl Model for Block {
    ghost use Rattle.std.specs.Prelude.{◌≡◌, ◌≤◌, length, take};
    ghost use Rattle.al_journal.specs.Blocks.{BlockView};

    ghost Value = { BlockView };

    ghost view = { λ b. record {
      start = b.start;
      held = take b.count b.bytes.items;
      filled = b.filled;
    } };

    ghost invariant = { λ b. (length b.bytes.items ≡ 4096) × (b.count ≤ 4096) };
}

impl Block {
    /// Takes the memory for a block, of which nothing is filled.
    pub fn new(alloc: Global) -> Result<Block, AllocError>
        ensures { IfOk result (λ block. block.filled ≡ false) }
    {
        Ok(Block {
            bytes: vec![in alloc; 0; SIZE as usize]?,
            count: 0,
            start: 0,
            filled: false,
        })
    }

    /// Lets go what was read, as the disk changes.
    pub fn forget(&mut self)
        ensures { self.new.filled ≡ false }
    {
        self.filled = false;
    }

    /// Reads from a place on into the front of `buf`, as much as there is and fits, and answers how much. Each block of the disk is read when the
    /// first byte of it is asked for, unless it is the one that was read last.
    pub fn read<D: Disk>(
        &mut self,
        disk: &mut D,
        place: u64,
        buf: &mut [u8],
    ) -> Result<usize, DiskFault>
        requires { place + length buf.old < 2 ^ 64 }
        ensures within { IfOk result (λ count. count ≤ length buf.new) }
        ensures read { IfOk result (λ count. Told (D.told disk.old) (λ s. Holds self.old s.content
            → take count buf.new ≡ take (length buf.old) (drop place s.content))) }
        ensures holds { Told (D.told disk.old) (λ s. Holds self.old s.content
            → Holds self.new s.content) }
        ensures same { D.told disk.new ≡ D.told disk.old }
        ensures later { D.faults disk.old ≤ D.faults disk.new }
        ensures cause { OnErr result (Rose (D.faults disk.old) (D.faults disk.new)) }
    {
        let mut done = 0;
        'pieces: while done < buf.len() {
            let count = self.piece(disk, place + done as u64, &mut buf[done..])?;
            if count == 0 {
                return Ok(done);
            }
            done += count;
        }
        Ok(done)
    }

    /// The same, up to the end of the block in which the place lies.
    fn piece<D: Disk>(
        &mut self,
        disk: &mut D,
        place: u64,
        buf: &mut [u8],
    ) -> Result<usize, DiskFault>
        ensures within { IfOk result (λ count. count ≤ length buf.new) }
        ensures read { IfOk result (λ count. Told (D.told disk.old) (λ s. Holds self.old s.content
            → take count buf.new ≡ take (length buf.old)
            (take (4096 - place % 4096) (drop place s.content)))) }
        ensures holds { Told (D.told disk.old) (λ s. Holds self.old s.content
            → Holds self.new s.content) }
        ensures same { D.told disk.new ≡ D.told disk.old }
        ensures later { D.faults disk.old ≤ D.faults disk.new }
        ensures cause { OnErr result (Rose (D.faults disk.old) (D.faults disk.new)) }
    {
        self.fetch(disk, place - place % SIZE)?;
        Ok(copy_from(&self.bytes[..self.count], place % SIZE, buf))
    }

    /// Has the block that begins at a place.
    fn fetch<D: Disk>(&mut self, disk: &mut D, start: u64) -> Result<(), DiskFault>
        ensures filled { OnErr result (self.new.filled ≡ false) }
        ensures start { IfOk result (λ _. (self.new.filled ≡ true) × (self.new.start ≡ start)) }
        ensures holds { Told (D.told disk.old) (λ s. Holds self.old s.content
            → Holds self.new s.content) }
        ensures same { D.told disk.new ≡ D.told disk.old }
        ensures later { D.faults disk.old ≤ D.faults disk.new }
        ensures cause { OnErr result (Rose (D.faults disk.old) (D.faults disk.new)) }
    {
        if self.filled && self.start == start {
            return Ok(());
        }
        self.filled = false;
        self.count = fill(disk, start, &mut self.bytes)?;
        self.start = start;
        self.filled = true;
        Ok(())
    }
}

/// Reads a block from a place on.
fn fill<D: Disk>(disk: &mut D, start: u64, bytes: &mut Vec<u8>) -> Result<usize, DiskFault>
    requires { length bytes.old.items ≡ 4096 }
    ensures len { length bytes.new.items ≡ 4096 }
    ensures within { IfOk result (λ count. count ≤ 4096) }
    ensures read { IfOk result (λ count.
        Told (D.told disk.old) (λ s.
        take count bytes.new.items ≡ take 4096 (drop start s.content))) }
    ensures same { D.told disk.new ≡ D.told disk.old }
    ensures later { D.faults disk.old ≤ D.faults disk.new }
    ensures cause { OnErr result (Rose (D.faults disk.old) (D.faults disk.new)) }
{
    disk.read_at(start, bytes.as_mut_slice())
}
