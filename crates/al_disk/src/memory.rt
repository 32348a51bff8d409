//! A disk in memory that tells all that a crash might leave.
//!
//! It takes its memory when it is made, and none afterwards. Its calls are numbered from 1 over its life.

ghost use Rattle.std.specs.Prelude.{◌≡◌, ◌<◌, ◌≤◌, ◌+◌, ◌-◌, ◌*◌, ℕ, true, false, Some, IfOk, OnErr, length, take, drop, min, ◌++◌, vec_len, vec_capacity};
ghost use Rattle.al_base.specs.Outside.{Rose};
ghost use Rattle.al_disk.specs.Images.{Wrote, CutTo};
ghost use Rattle.al_disk.specs.States.{put, Goes, Changes, Syncs, ReadsAsAnImage};
ghost use Rattle.al_disk.specs.Memory.{MemDiskView, state_of, is_spent, fails_call, fails_write, answer_of, after_look, after_write, after_cut, after_sync};

use crate::bytes::{add_bytes, copy_from, put_bytes};
use crate::disk::{Disk, DiskFault};
use crate::log::{Asked, Log};
use al_base::Plan;
use std::alloc::{AllocError, Global};
use std::marker::Model;

/// A disk in memory. A refused write or cut leaves the content, though a crash may leave a part of it.
#[derive(Debug, Drop)]
pub struct MemDisk {
    content: Vec<u8>,
    room: usize,
    log: Log,
    plan: Plan,
}

impl Model for MemDisk {
    ghost use Rattle.std.specs.Prelude.{◌≡◌, ◌≤◌, ◌*◌, length, vec_capacity};
    ghost use Rattle.al_disk.specs.States.{ReadsAsAnImage};
    ghost use Rattle.al_disk.specs.Memory.{MemDiskView};

    ghost Value = { MemDiskView };

    ghost view = { λ d. record {
      state = d.log.state;
      written = d.log.written;
      room = d.room;
      calls = d.log.calls;
      plan = d.plan;
    } };

    ghost invariant = { λ d. ReadsAsAnImage d.log.state
        × (d.content.items ≡ d.log.state.content)
        × (length d.content.items ≤ d.room)
        × (d.room ≤ vec_capacity d.content)
        × (d.log.written ≤ d.log.bytes_room)
        × (d.log.bytes_room ≡ 2 * d.room)
        × (d.log.noted ≤ d.plan.calls) };
}

impl MemDisk {
    /// A disk of these bytes that holds at most `room`. It takes so many calls, and those fail whose number is in `fails`, those past the last one,
    /// and the writes by which it would pass its room, or all writes together twice its room.
    pub fn new(
        alloc: Global,
        bytes: &[u8],
        room: usize,
        calls: usize,
        fails: &[u64],
    ) -> Result<MemDisk, AllocError>
        requires { length bytes.now ≤ room }
        ensures { IfOk result (λ disk.
            disk ≡ record {
              state = state_of bytes.now;
              written = 0;
              room = room;
              calls = calls;
              plan = record { fails = fails.now; calls = 0; faults = 0 };
            }) }
    {
        let Some(bytes_room) = room.checked_mul(2) else {
            return Err(AllocError);
        };
        let mut content = Vec::with_capacity(alloc, room)?;
        add_bytes(&mut content, bytes);
        Ok(MemDisk {
            content,
            room,
            log: Log::new(alloc, bytes, bytes_room, calls)?,
            plan: Plan::new(alloc, fails)?,
        })
    }

    /// The content: one of the images that a crash now may leave.
    pub fn image(&self) -> &[u8]
        ensures content { result.now ≡ self.now.state.content }
        ensures as_it_reads { ReadsAsAnImage self.now.state }
    {
        &self.content
    }

    fn is_spent(&self) -> bool
        ensures spent { result ≡ is_spent self.now }
        ensures left { result ≡ false → self.now.plan.calls < self.now.calls }
        ensures countable { result ≡ false → self.now.plan.calls < 18446744073709551615 }
    {
        self.log.calls() as u64 <= self.plan.calls()
    }

    fn fails_call(&self) -> bool
        ensures fails { result ≡ fails_call self.now }
        ensures left { result ≡ false → self.now.plan.calls < self.now.calls }
        ensures countable { result ≡ false → self.now.plan.calls < 18446744073709551615 }
    {
        self.is_spent() || self.plan.fails_next()
    }

    fn fails_write(&self, place: u64, count: usize) -> bool
        requires { place ≤ length self.now.state.content }
        ensures fails { result ≡ fails_write self.now place count }
        ensures room { result ≡ false → place + count ≤ self.now.room }
        ensures written { result ≡ false → self.now.written + count ≤ 2 * self.now.room }
    {
        self.fails_call()
            || count > self.room - place as usize
            || count > 2 * self.room - self.log.written()
    }
}

impl Disk for MemDisk {
    ghost told = { λ d. Some d.state };

    ghost faults = { λ d. d.plan.faults };

    fn size(&mut self) -> Result<u64, DiskFault>
        ensures size { IfOk result (λ size. size ≡ length self.old.state.content) }
        ensures same { Some self.new.state ≡ Some self.old.state }
        ensures as_it_reads { ReadsAsAnImage self.new.state }
        ensures later { self.old.plan.faults ≤ self.new.plan.faults }
        ensures cause { OnErr result (Rose self.old.plan.faults self.new.plan.faults) }
        ensures answer { result ≡ answer_of (fails_call self.old) (length self.old.state.content) }
        ensures after { self.new ≡ after_look self.old }
    {
        let failed = self.fails_call();
        self.plan.count(failed);
        if failed {
            return Err(DiskFault);
        }
        Ok(self.content.len() as u64)
    }

    fn read_at(&mut self, place: u64, buf: &mut [u8]) -> Result<usize, DiskFault>
        ensures within { IfOk result (λ count. count ≤ length buf.new) }
        ensures read { IfOk result (λ count.
            take count buf.new ≡ take (length buf.old) (drop place self.old.state.content)) }
        ensures same { Some self.new.state ≡ Some self.old.state }
        ensures as_it_reads { ReadsAsAnImage self.new.state }
        ensures later { self.old.plan.faults ≤ self.new.plan.faults }
        ensures cause { OnErr result (Rose self.old.plan.faults self.new.plan.faults) }
        ensures answer { result ≡ answer_of (fails_call self.old)
            (min (length buf.old) (length self.old.state.content - place)) }
        ensures after { self.new ≡ after_look self.old }
    {
        let failed = self.fails_call();
        self.plan.count(failed);
        if failed {
            return Err(DiskFault);
        }
        Ok(copy_from(&self.content, place, buf))
    }

    fn write_at(&mut self, place: u64, bytes: &[u8]) -> Result<(), DiskFault>
        requires { place ≤ length self.old.state.content }
        ensures wrote { Goes (λ s t.
            Changes (Wrote place (length bytes.now)) (put place bytes.now s.content) result s t)
            (Some self.old.state) (Some self.new.state) }
        ensures as_it_reads { ReadsAsAnImage self.new.state }
        ensures later { self.old.plan.faults ≤ self.new.plan.faults }
        ensures cause { OnErr result (Rose self.old.plan.faults self.new.plan.faults) }
        ensures answer { result ≡ answer_of (fails_write self.old place (length bytes.now)) tt }
        ensures after { self.new ≡ after_write self.old place bytes.now }
    {
        let spent = self.is_spent();
        let failed = self.fails_write(place, bytes.len());
        self.plan.count(failed);
        if spent {
            return Err(DiskFault);
        }
        if failed {
            self.log.add(write_asked(place, bytes, false), &[]);
            return Err(DiskFault);
        }
        put_bytes(&mut self.content, place as usize, bytes);
        self.log.add(write_asked(place, bytes, true), bytes);
        Ok(())
    }

    fn cut(&mut self, size: u64) -> Result<(), DiskFault>
        requires { size ≤ length self.old.state.content }
        ensures cut { Goes (λ s t.
            Changes (CutTo size) (take size s.content) result s t) (Some self.old.state)
            (Some self.new.state) }
        ensures as_it_reads { ReadsAsAnImage self.new.state }
        ensures later { self.old.plan.faults ≤ self.new.plan.faults }
        ensures cause { OnErr result (Rose self.old.plan.faults self.new.plan.faults) }
        ensures answer { result ≡ answer_of (fails_call self.old) tt }
        ensures after { self.new ≡ after_cut self.old size }
    {
        let spent = self.is_spent();
        let failed = self.fails_call();
        self.plan.count(failed);
        if spent {
            return Err(DiskFault);
        }
        if failed {
            self.log.add(Asked::Cut { size, done: false }, &[]);
            return Err(DiskFault);
        }
        self.content.truncate(size as usize);
        self.log.add(Asked::Cut { size, done: true }, &[]);
        Ok(())
    }

    fn sync(&mut self) -> Result<(), DiskFault>
        ensures as_it_read { ReadsAsAnImage self.old.state }
        ensures synced { Goes (λ s t.
            Syncs result s t) (Some self.old.state) (Some self.new.state) }
        ensures as_it_reads { ReadsAsAnImage self.new.state }
        ensures later { self.old.plan.faults ≤ self.new.plan.faults }
        ensures cause { OnErr result (Rose self.old.plan.faults self.new.plan.faults) }
        ensures answer { result ≡ answer_of (fails_call self.old) tt }
        ensures after { self.new ≡ after_sync self.old }
    {
        let failed = self.fails_call();
        self.plan.count(failed);
        if failed {
            return Err(DiskFault);
        }
        self.log.add(Asked::Sync, &[]);
        Ok(())
    }
}

fn write_asked(place: u64, bytes: &[u8], done: bool) -> Asked
    ensures { result ≡ Asked.Write place (length bytes.now) done }
{
    Asked::Write {
        place,
        count: bytes.len(),
        done,
    }
}
