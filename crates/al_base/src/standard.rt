//! The trusted edge: std's readers, writers and clock as the outside. They tell no bytes and no readings, but count their faults.

ghost use Rattle.al_base.specs.Limits.{last_stamp};
ghost use Rattle.std.specs.Prelude.{◌≡◌, ◌≤◌, ◌/◌, min};
ghost use Rattle.std.specs.Time.{system_time_nanos};

use crate::outside::{Clock, ReadFault, Sink, Source, WriteFault};
use crate::stamp::Stamp;
use std::io::{Read, Write};
use std::rt;
use std::time::{SystemTime, UNIX_EPOCH};

/// A reader of std as a source. Each error of the reader is a fault.
#[derive(Drop)]
pub struct Reading<R: Read + Drop> {
    reader: R,
    faults: u64,
}

impl<R: Read + Drop> Reading<R> {
    pub fn new(reader: R) -> Reading<R> {
        Reading { reader, faults: 0 }
    }
}

impl<R: Read + Drop> Source for Reading<R> {
    ghost use Rattle.std.specs.Prelude.{None};

    ghost left = { λ _. None };

    ghost faults = { λ s. s.faults };

    fn read(&mut self, buf: &mut [u8]) -> Result<usize, ReadFault> {
        if let Ok(count) = self.reader.read(buf) {
            return Ok(count);
        }
        self.faults = self.faults.saturating_add(1);
        Err(ReadFault)
    }
}

/// A writer of std as a sink. Each error of the writer is a fault, and so is a write of nothing.
#[derive(Drop)]
pub struct Writing<W: Write + Drop> {
    writer: W,
    faults: u64,
}

impl<W: Write + Drop> Writing<W> {
    pub fn new(writer: W) -> Writing<W> {
        Writing { writer, faults: 0 }
    }
}

impl<W: Write + Drop> Sink for Writing<W> {
    ghost use Rattle.std.specs.Prelude.{None};

    ghost held = { λ _. None };

    ghost faults = { λ s. s.faults };

    fn write(&mut self, bytes: &[u8]) -> Result<usize, WriteFault> {
        if let Ok(count) = self.writer.write(bytes)
            && count > 0
        {
            return Ok(count);
        }
        self.faults = self.faults.saturating_add(1);
        Err(WriteFault)
    }
}

/// The system's clock. A moment before 1970 reads as 0, one past the last stamp as the last; where the system gives no
/// reading the last one is repeated.
#[derive(Drop)]
pub struct SystemClock<R: rt::Clock + Drop> {
    rt: R,
    last: Stamp,
}

impl<R: rt::Clock + Drop> SystemClock<R> {
    pub fn new(rt: R) -> SystemClock<R> {
        SystemClock {
            rt,
            last: Stamp::EPOCH,
        }
    }
}

impl<R: rt::Clock + Drop> Clock for SystemClock<R> {
    ghost use Rattle.std.specs.Prelude.{None};

    ghost readings = { λ _. None };

    fn now(&mut self) -> Stamp {
        if let Ok(time) = SystemTime::now(&self.rt) {
            self.last = stamp_of(time);
        }
        self.last
    }
}

/// The whole milliseconds since 1970, up to the last stamp.
fn stamp_of(time: SystemTime) -> Stamp
    ensures { result ≡ min last_stamp (system_time_nanos time / 1_000_000) }
{
    match time.duration_since(UNIX_EPOCH) {
        Ok(since) => match u64::try_from(since.as_millis()) {
            Ok(ms) => Stamp::of(ms).unwrap_or(Stamp::LAST),
            Err(_) => Stamp::LAST,
        },
        Err(_) => Stamp::EPOCH,
    }
}
