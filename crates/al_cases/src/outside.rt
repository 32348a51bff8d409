//! The outside: objects in memory, and the adapters over std.

use al_base::{
    Clock, MemClock, MemSink, MemSource, ReadFault, Reading, Sink, Source, Stamp, SystemClock,
    WriteFault, Writing,
};
use std::alloc::{AllocError, Global};
use std::cell::Cell;
use std::io::{Read, Write};
use std::test::Fail;
use std::time::Duration;
use std::{io, rt};

/// Whether one read after the other answers so, and gives these bytes in all.
fn reads<S: Source>(source: &mut S, answers: &[Result<usize, ReadFault>], bytes: &[u8]) -> bool {
    let mut rest = bytes;
    for answer in answers {
        let mut buf = [0; 4];
        let given = source.read(&mut buf);
        let count = given.unwrap_or(0);
        if given != *answer || rest.get(..count) != buf.get(..count) {
            return false;
        }
        rest = rest.get(count..).unwrap_or(&[]);
    }
    rest.is_empty()
}

/// Whether one write of `abc` after the other answers so.
fn writes<O: Sink>(sink: &mut O, answers: &[Result<usize, WriteFault>]) -> bool {
    answers.iter().all(|answer| sink.write(b"abc") == *answer)
}

/// Whether the clock tells these milliseconds, one after the other.
fn tells<K: Clock>(clock: &mut K, readings: &[u64]) -> bool {
    readings.iter().all(|ms| clock.now().ms() == *ms)
}

/// A reader that gives a byte, fails, gives two bytes, and then ends.
#[derive(Drop)]
struct Faulty {
    reads: usize,
}

impl Read for Faulty {
    fn read(&mut self, buf: &mut [u8]) -> io::Result<usize> {
        self.reads = self.reads.saturating_add(1);
        let mut given: &[u8] = match self.reads {
            1 => b"a",
            2 => return Err(io::ErrorKind::Other.into()),
            3 => b"bc",
            _ => b"",
        };
        given.read(buf)
    }
}

/// A writer that takes one byte, fails, takes nothing, and then takes all.
#[derive(Drop)]
struct Reluctant {
    writes: usize,
}

impl Write for Reluctant {
    fn write(&mut self, bytes: &[u8]) -> io::Result<usize> {
        self.writes = self.writes.saturating_add(1);
        match self.writes {
            1 => Ok(bytes.len().min(1)),
            2 => Err(io::ErrorKind::Other.into()),
            3 => Ok(0),
            _ => Ok(bytes.len()),
        }
    }

    fn flush(&mut self) -> io::Result<()> {
        Ok(())
    }
}

/// A system whose clock gives these readings, one after the other, and then none.
#[derive(Drop)]
struct Readings<'a> {
    times: &'a [Duration],
    next: Cell<usize>,
}

impl rt::Clock for Readings<'_> {
    fn monotonic(&self) -> io::Result<Duration> {
        self.since_1970()
    }

    fn since_1970(&self) -> io::Result<Duration> {
        let next = self.next.get();
        self.next.set(next.saturating_add(1));
        match self.times.get(next) {
            Some(time) => Ok(*time),
            None => Err(io::ErrorKind::Other.into()),
        }
    }
}

/// What reads of four bytes answer, one after the other: of six bytes in memory, of which the first give one and three, and the third fails; and of
/// a reader that fails once.
const IN_MEMORY: [Result<usize, ReadFault>; 5] = [Ok(1), Ok(3), Err(ReadFault), Ok(2), Ok(0)];

const READ: [Result<usize, ReadFault>; 4] = [Ok(1), Err(ReadFault), Ok(2), Ok(0)];

fn memory_gives(alloc: Global) -> Result<bool, AllocError> {
    let mut source = MemSource::new(alloc, b"abcdef", &[1, 3], &[3])?;
    Ok(reads(&mut source, IN_MEMORY.as_slice(), b"abcdef"))
}

fn reader_gives() -> bool {
    let mut reading = Reading::new(Faulty { reads: 0 });
    reads(&mut reading, READ.as_slice(), b"abc")
}

#[test]
fn sources_give_their_bytes(rt: HostRuntime) -> Result<(), Fail> {
    assert!(rt; memory_gives(rt.alloc())?);
    assert!(rt; reader_gives());
    Ok(())
}

/// What writes of `abc` answer, one after the other: to five bytes of memory, of which the second fails; and to a writer that takes less.
const HELD: [Result<usize, WriteFault>; 4] = [Ok(3), Err(WriteFault), Ok(2), Err(WriteFault)];

const WRITTEN: [Result<usize, WriteFault>; 4] = [Ok(1), Err(WriteFault), Err(WriteFault), Ok(3)];

fn memory_takes(alloc: Global) -> Result<bool, AllocError> {
    let mut sink = MemSink::new(alloc, 5, &[2])?;
    Ok(writes(&mut sink, HELD.as_slice()) && sink.bytes() == b"abcab".as_slice())
}

fn writer_takes() -> bool {
    let mut writing = Writing::new(Reluctant { writes: 0 });
    writes(&mut writing, WRITTEN.as_slice())
}

#[test]
fn sinks_take_what_they_can(rt: HostRuntime) -> Result<(), Fail> {
    assert!(rt; memory_takes(rt.alloc())?);
    assert!(rt; writer_takes());
    Ok(())
}

fn memory_tells(alloc: Global) -> Result<bool, AllocError> {
    let mut clock = MemClock::new(alloc, &[Stamp::LAST, Stamp::EPOCH])?;
    Ok(tells(&mut clock, &[253_402_300_799_999, 0, 0]))
}

/// From seconds and billionths of them; where there is no reading the last one is repeated.
fn system_tells() -> bool {
    let times = [
        Duration::new(1_714_557_600, 123_999_999),
        Duration::new(0, 1_000_000),
        Duration::new(253_402_300_800, 0),
        Duration::new(2, 0),
    ];
    let system = Readings {
        times: times.as_slice(),
        next: Cell::new(0),
    };
    let told = [1_714_557_600_123, 1, 253_402_300_799_999, 2000, 2000];
    tells(&mut SystemClock::new(system), told.as_slice())
}

#[test]
fn clocks_tell_milliseconds(rt: HostRuntime) -> Result<(), Fail> {
    assert!(rt; memory_tells(rt.alloc())?);
    assert!(rt; system_tells());
    Ok(())
}
