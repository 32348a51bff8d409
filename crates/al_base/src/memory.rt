//! The outside in memory: a source, a sink and a clock that tell all that they hold.
//!
//! They take their memory when they are made, and none afterwards. Their calls are numbered from 1 over the life of the object.

ghost use Rattle.std.specs.Prelude.{◌≡◌, ◌<◌, ◌≤◌, ◌+◌, ◌-◌, true, false, Some, IfOk, OnErr, All, [], ◌++◌, length, take, drop, min, unwrap_or, slice_get};
ghost use Rattle.std.specs.Io.KnownBytes.{Consumes, Appends, Keeps};
ghost use Rattle.al_base.specs.Outside.{Rose, TellsEnd};
ghost use Rattle.al_base.specs.Readings.{Readings, next_reading, after_reading};
ghost use Rattle.al_base.specs.Memory.{PlanView, SourceView, SinkView, fails_next, after_call, read_answer, after_read, refuses_next, write_answer, after_write};

use crate::outside::{Clock, ReadFault, Sink, Source, WriteFault};
use crate::stamp::Stamp;
use std::alloc::{AllocError, Global};
use std::marker::Model;

/// Which calls of an object in memory fail, how many were made, and how many of them failed.
#[derive(Debug, Drop)]
pub struct Plan {
    fails: Vec<u64>,
    calls: u64,
    faults: u64,
}

impl Model for Plan {
    ghost use Rattle.al_base.specs.Memory.{PlanView};

    ghost Value = { PlanView };

    ghost view = { λ p. record { fails = p.fails.items; calls = p.calls; faults = p.faults } };
}

impl Plan {
    /// No call was made yet; those are to fail whose number, from 1 on, is in `fails`.
    pub fn new(alloc: Global, fails: &[u64]) -> Result<Plan, AllocError>
        ensures { IfOk result (λ plan. plan ≡ record { fails = fails.now; calls = 0; faults = 0 }) }
    {
        Ok(Plan {
            fails: Vec::from_slice(alloc, fails)?,
            calls: 0,
            faults: 0,
        })
    }

    /// Whether the next call is to fail.
    pub fn fails_next(&self) -> bool
        ensures { result ≡ fails_next self.now }
    {
        self.fails.contains(&self.calls.saturating_add(1))
    }

    /// How many calls were made.
    pub fn calls(&self) -> u64
        ensures { result ≡ self.now.calls }
    {
        self.calls
    }

    /// Counts a call, and its fault if it failed.
    pub fn count(&mut self, failed: bool)
        ensures after { self.new ≡ after_call self.old failed }
        ensures calls { self.old.calls ≤ self.new.calls }
        ensures later { self.old.faults ≤ self.new.faults }
        ensures cause { failed ≡ true → Rose self.old.faults self.new.faults }
    {
        self.calls = self.calls.saturating_add(1);
        if failed {
            self.faults = self.faults.saturating_add(1);
        }
    }
}

/// A source that gives the bytes that it was made of.
#[derive(Debug, Drop)]
pub struct MemSource {
    bytes: Vec<u8>,
    next: usize,
    pieces: Vec<usize>,
    plan: Plan,
}

impl Model for MemSource {
    ghost use Rattle.std.specs.Prelude.{◌≤◌, ◌<◌, All, drop, vec_len};
    ghost use Rattle.al_base.specs.Memory.{SourceView};

    ghost Value = { SourceView };

    ghost view = { λ s. record {
      left = drop s.next s.bytes.items;
      pieces = s.pieces.items;
      plan = s.plan;
    } };

    ghost invariant = { λ s. (s.next ≤ vec_len s.bytes) × All (λ piece. 0 < piece) s.pieces.items };
}

impl MemSource {
    /// A source of these bytes. Its read number k gives at most `pieces[k - 1]` bytes, past them what fits; those whose number is in `fails` fail.
    pub fn new(
        alloc: Global,
        bytes: &[u8],
        pieces: &[usize],
        fails: &[u64],
    ) -> Result<MemSource, AllocError>
        requires { All (λ piece. 0 < piece) pieces.now }
        ensures { IfOk result (λ source.
            source ≡ record {
              left = bytes.now;
              pieces = pieces.now;
              plan = record { fails = fails.now; calls = 0; faults = 0 };
            }) }
    {
        Ok(MemSource {
            bytes: Vec::from_slice(alloc, bytes)?,
            next: 0,
            pieces: Vec::from_slice(alloc, pieces)?,
            plan: Plan::new(alloc, fails)?,
        })
    }
}

impl Source for MemSource {
    ghost left = { λ s. Some s.left };

    ghost faults = { λ s. s.plan.faults };

    fn read(&mut self, buf: &mut [u8]) -> Result<usize, ReadFault>
        requires { 0 < length buf.old }
        ensures within { IfOk result (λ count. count ≤ length buf.new) }
        ensures gave { IfOk result (λ count.
            Consumes (Some self.old.left) (Some self.new.left) (take count buf.new)) }
        ensures end { IfOk result (λ count. TellsEnd (Some self.old.left) count) }
        ensures fault { OnErr result (Keeps (Some self.old.left) (Some self.new.left)) }
        ensures later { self.old.plan.faults ≤ self.new.plan.faults }
        ensures cause { OnErr result (Rose self.old.plan.faults self.new.plan.faults) }
        ensures answer { result ≡ read_answer self.old (length buf.old) }
        ensures after { self.new ≡ after_read self.old (length buf.old) }
    {
        let failed = self.plan.fails_next();
        let piece = piece_at(&self.pieces, self.plan.calls(), buf.len());
        self.plan.count(failed);
        if failed {
            return Err(ReadFault);
        }
        let count = copy_from(&self.bytes, self.next, buf, piece);
        self.next += count;
        Ok(count)
    }
}

/// The piece at this place, or `size` past the last one.
fn piece_at(pieces: &[usize], place: u64, size: usize) -> usize
    requires some { All (λ piece. 0 < piece) pieces.now }
    requires room { 0 < size }
    ensures piece { result ≡ unwrap_or (slice_get pieces.now place) size }
    ensures positive { 0 < result }
{
    match pieces.get(place as usize) {
        Some(piece) => *piece,
        None => size,
    }
}

/// Copies as many of the bytes from a place on as there are, fit and are allowed, and answers how many.
fn copy_from(bytes: &[u8], place: usize, to: &mut [u8], most: usize) -> usize
    requires within { place ≤ length bytes.now }
    requires room { 0 < length to.old }
    requires some { 0 < most }
    ensures count { result ≡ min (min (length to.old) (length (drop place bytes.now))) most }
    ensures given { drop place bytes.now ≡ take result to.new ++ drop (place + result) bytes.now }
    ensures end { TellsEnd (Some (drop place bytes.now)) result }
{
    let from = &bytes[place..];
    let count = to.len().min(from.len()).min(most);
    let (front, _) = to.split_at_mut(count);
    front.copy_from_slice(&from[..count]);
    count
}

/// A sink that keeps what it takes.
#[derive(Debug, Drop)]
pub struct MemSink {
    bytes: Vec<u8>,
    room: usize,
    plan: Plan,
}

impl Model for MemSink {
    ghost use Rattle.std.specs.Prelude.{◌≤◌, vec_len, vec_capacity};
    ghost use Rattle.al_base.specs.Memory.{SinkView};

    ghost Value = { SinkView };

    ghost view = { λ s. record { held = s.bytes.items; room = s.room; plan = s.plan } };

    ghost invariant = { λ s. (vec_len s.bytes ≤ s.room) × (s.room ≤ vec_capacity s.bytes) };
}

impl MemSink {
    /// An empty sink with room for so many bytes. Its calls fail whose number is in `fails`, and those that find no room left.
    pub fn new(alloc: Global, room: usize, fails: &[u64]) -> Result<MemSink, AllocError>
        ensures { IfOk result (λ sink.
            sink ≡ record {
              held = [];
              room = room;
              plan = record { fails = fails.now; calls = 0; faults = 0 };
            }) }
    {
        Ok(MemSink {
            bytes: Vec::with_capacity(alloc, room)?,
            room,
            plan: Plan::new(alloc, fails)?,
        })
    }

    /// What was written.
    pub fn bytes(&self) -> &[u8]
        ensures { result.now ≡ self.now.held }
    {
        self.bytes.as_slice()
    }

    /// How many bytes still fit.
    fn space(&self) -> usize
        ensures { result ≡ self.now.room - length self.now.held }
    {
        self.room - self.bytes.len()
    }

    /// Takes bytes that fit.
    fn take(&mut self, bytes: &[u8])
        requires { length self.old.held + length bytes.now ≤ self.old.room }
        ensures { self.new ≡ record self.old { held = self.old.held ++ bytes.now } }
    {
        let _ = self.bytes.extend_from_slice(bytes);
    }

    fn count(&mut self, failed: bool)
        ensures after { self.new ≡ record self.old { plan = after_call self.old.plan failed } }
        ensures later { self.old.plan.faults ≤ self.new.plan.faults }
        ensures cause { failed ≡ true → Rose self.old.plan.faults self.new.plan.faults }
    {
        self.plan.count(failed);
    }

    fn refuses_next(&self) -> bool
        ensures refuses { result ≡ refuses_next self.now }
        ensures space { result ≡ false → 0 < self.now.room - length self.now.held }
    {
        self.plan.fails_next() || self.room == self.bytes.len()
    }
}

impl Sink for MemSink {
    ghost held = { λ s. Some s.held };

    ghost faults = { λ s. s.plan.faults };

    fn write(&mut self, bytes: &[u8]) -> Result<usize, WriteFault>
        requires { 0 < length bytes.now }
        ensures some { IfOk result (λ count. 0 < count) }
        ensures within { IfOk result (λ count. count ≤ length bytes.now) }
        ensures took { IfOk result (λ count.
            Appends (Some self.old.held) (Some self.new.held) (take count bytes.now)) }
        ensures fault { OnErr result (Keeps (Some self.old.held) (Some self.new.held)) }
        ensures later { self.old.plan.faults ≤ self.new.plan.faults }
        ensures cause { OnErr result (Rose self.old.plan.faults self.new.plan.faults) }
        ensures answer { result ≡ write_answer self.old (length bytes.now) }
        ensures after { self.new ≡ after_write self.old bytes.now }
    {
        let failed = self.refuses_next();
        self.count(failed);
        if failed {
            return Err(WriteFault);
        }
        let count = bytes.len().min(self.space());
        self.take(&bytes[..count]);
        Ok(count)
    }
}

/// A clock that reads what it was made of, and then repeats the last reading; 0 where there is none.
#[derive(Debug, Drop)]
pub struct MemClock {
    readings: Vec<Stamp>,
    next: usize,
    last: Stamp,
}

impl Model for MemClock {
    ghost use Rattle.std.specs.Prelude.{◌≤◌, drop, vec_len};
    ghost use Rattle.al_base.specs.Readings.{Readings};

    ghost Value = { Readings };

    ghost view = { λ c. record { ahead = drop c.next c.readings.items; last = c.last } };

    ghost invariant = { λ c. c.next ≤ vec_len c.readings };
}

impl MemClock {
    pub fn new(alloc: Global, readings: &[Stamp]) -> Result<MemClock, AllocError>
        ensures { IfOk result (λ clock. clock ≡ record { ahead = readings.now; last = 0 }) }
    {
        Ok(MemClock {
            readings: Vec::from_slice(alloc, readings)?,
            next: 0,
            last: Stamp::EPOCH,
        })
    }
}

impl Clock for MemClock {
    ghost readings = { λ c. Some c };

    fn now(&mut self) -> Stamp
        ensures reading { result ≡ next_reading self.old }
        ensures after { Some self.new ≡ Some (after_reading self.old) }
    {
        if self.next < self.readings.len() {
            self.last = self.readings[self.next];
            self.next += 1;
        }
        self.last
    }
}
