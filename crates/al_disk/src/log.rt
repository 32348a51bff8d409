//! The calls of a disk in memory, by which it tells what a crash might have left at each moment.

ghost use Rattle.std.specs.Prelude.{◌≡◌, ◌<◌, ◌≤◌, ◌+◌, IfOk, length};
ghost use Rattle.al_disk.specs.States.{ReadsAsAnImage};
ghost use Rattle.al_disk.specs.Memory.{CanBeAsked, after_asked, bytes_of, state_of};

use crate::bytes::add_bytes;
use std::alloc::{AllocError, Global};
use std::marker::Model;

/// A call that was asked for. Its write or cut was done, or refused.
#[derive(Clone, Copy, Debug)]
pub enum Asked {
    Write {
        place: u64,
        count: usize,
        done: bool,
    },
    Cut {
        size: u64,
        done: bool,
    },
    Sync,
}

/// What the content was at first, the calls since then, and the bytes that they wrote.
#[derive(Debug, Drop)]
pub struct Log {
    first: Vec<u8>,
    asked: Vec<Asked>,
    bytes: Vec<u8>,
    bytes_room: usize,
    calls: usize,
}

impl Model for Log {
    ghost use Rattle.std.specs.Prelude.{◌≤◌, ◌≡◌, length, vec_capacity};
    ghost use Rattle.al_disk.specs.States.{ReadsAsAnImage};
    ghost use Rattle.al_disk.specs.Memory.{LogView, replay, state_of, bytes_of_all};

    ghost Value = { LogView };

    ghost view = { λ l. record {
      state = replay (state_of l.first.items) l.asked.items l.bytes.items;
      written = length l.bytes.items;
      noted = length l.asked.items;
      bytes_room = l.bytes_room;
      calls = l.calls;
    } };

    ghost invariant = { λ l. ReadsAsAnImage
        (replay (state_of l.first.items) l.asked.items l.bytes.items)
        × (bytes_of_all l.asked.items ≡ length l.bytes.items)
        × (l.bytes_room ≤ vec_capacity l.bytes)
        × (l.calls ≤ vec_capacity l.asked) };
}

impl Log {
    /// The log of a disk of these bytes, with room for so many written bytes and so many calls.
    pub fn new(
        alloc: Global,
        bytes: &[u8],
        bytes_room: usize,
        calls: usize,
    ) -> Result<Log, AllocError>
        ensures { IfOk result (λ log.
            log ≡ record {
              state = state_of bytes.now;
              written = 0;
              noted = 0;
              bytes_room = bytes_room;
              calls = calls;
            }) }
    {
        Ok(Log {
            first: Vec::from_slice(alloc, bytes)?,
            asked: Vec::with_capacity(alloc, calls)?,
            bytes: Vec::with_capacity(alloc, bytes_room)?,
            bytes_room,
            calls,
        })
    }

    /// How many bytes were written.
    pub fn written(&self) -> usize
        ensures { result ≡ self.now.written }
    {
        self.bytes.len()
    }

    /// How many calls may be noted.
    pub fn calls(&self) -> usize
        ensures { result ≡ self.now.calls }
    {
        self.calls
    }

    /// Notes a call, with the bytes that it wrote.
    pub fn add(&mut self, asked: Asked, piece: &[u8])
        requires can { CanBeAsked self.old.state asked }
        requires piece { bytes_of asked ≡ length piece.now }
        requires bytes { self.old.written + length piece.now ≤ self.old.bytes_room }
        requires calls { self.old.noted < self.old.calls }
        ensures after { self.new ≡ record self.old {
          state = after_asked self.old.state piece.now asked;
          written = self.old.written + length piece.now;
          noted = self.old.noted + 1;
        } }
        ensures as_it_reads { ReadsAsAnImage self.new.state }
    {
        self.asked.push_reserved(asked);
        add_bytes(&mut self.bytes, piece);
    }
}
