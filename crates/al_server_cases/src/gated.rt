//! Sources that wait for what others write.

ghost use Rattle.std.specs.Prelude.{None, Some};

use al_base::{MemSink, ReadFault, Sink, Source, WriteFault};
use std::alloc::{AllocError, Global};
use std::sync::Arc;
use std::sync::atomic::{AtomicU64, Ordering};
use std::thread;

/// How often a source looks whether it may give its next piece.
const LOOKS: u64 = 100_000_000;

/// How many writes a connection has seen.
pub type Count = Arc<AtomicU64, Global>;

/// Bytes, and how many writes the other connection must have seen before they are given.
#[derive(Drop)]
pub struct Piece {
    pub writes: u64,
    pub bytes: Vec<u8>,
}

impl Piece {
    pub fn new(writes: u64, text: String) -> Piece {
        Piece {
            writes,
            bytes: text.into_bytes(),
        }
    }

    pub fn of(alloc: Global, writes: u64, bytes: &[u8]) -> Result<Piece, AllocError> {
        Ok(Piece {
            writes,
            bytes: Vec::from_slice(alloc, bytes)?,
        })
    }
}

/// A source that gives its pieces one by one, each once it may.
#[derive(Drop)]
pub struct GatedSource {
    pieces: Vec<Piece>,
    next: usize,
    taken: usize,
    others: Count,
    faults: u64,
}

impl GatedSource {
    pub fn new(pieces: Vec<Piece>, others: &Count) -> Result<GatedSource, AllocError> {
        Ok(GatedSource {
            pieces,
            next: 0,
            taken: 0,
            others: Arc::try_clone(others)?,
            faults: 0,
        })
    }

    fn may_give(&self, writes: u64) -> bool {
        for _ in 0..LOOKS {
            if self.others.load(Ordering::SeqCst) >= writes {
                return true;
            }
            thread::yield_now();
        }
        false
    }
}

impl Source for GatedSource {
    ghost left = { λ s. None };

    ghost faults = { λ s. s.faults };

    fn read(&mut self, buf: &mut [u8]) -> Result<usize, ReadFault> {
        if self.next >= self.pieces.len() {
            return Ok(0);
        }
        if !self.may_give(self.pieces[self.next].writes) {
            self.faults = self.faults.saturating_add(1);
            return Err(ReadFault);
        }
        let bytes = self.pieces[self.next].bytes.as_slice();
        let rest = bytes.get(self.taken..).unwrap_or(b"");
        let count = rest.len().min(buf.len());
        let (front, _) = buf.split_at_mut(count);
        front.copy_from_slice(&rest[..count]);
        if count == rest.len() {
            self.next += 1;
            self.taken = 0;
        } else {
            self.taken = self.taken.saturating_add(count);
        }
        Ok(count)
    }
}

/// A sink in memory whose writes are counted for the other connection.
#[derive(Drop)]
pub struct CountedSink {
    pub sink: MemSink,
    writes: Count,
}

impl CountedSink {
    pub fn new(alloc: Global, writes: &Count) -> Result<CountedSink, AllocError> {
        Ok(CountedSink {
            sink: MemSink::new(alloc, 100_000, &[])?,
            writes: Arc::try_clone(writes)?,
        })
    }
}

impl Sink for CountedSink {
    ghost held = { λ s. Some s.sink.held };

    ghost faults = { λ s. s.sink.plan.faults };

    fn write(&mut self, bytes: &[u8]) -> Result<usize, WriteFault> {
        let taken = self.sink.write(bytes)?;
        self.writes.fetch_add(1, Ordering::SeqCst);
        Ok(taken)
    }
}
