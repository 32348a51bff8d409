//! A row is run.

ghost use Rattle.std.specs.Prelude.{◌<◌};

use crate::row::{Image, Output, Row};
use al_base::{Clock, MemClock, MemSink, MemSource, Sink, Source, Text};
use al_commands::run;
use al_disk::{Disk, MemDisk};
use std::alloc::{AllocError, Global};

/// How many bytes the sink takes beyond those that must come.
const MORE: usize = 4096;

/// How many it takes where it isn't known what must come.
const MOST: usize = 65_536;

/// What a run leaves.
#[derive(Drop)]
pub struct Outcome {
    pub status: u8,
    pub output: Vec<u8>,
    pub image: Vec<u8>,
}

impl Outcome {
    /// What is left before any run.
    pub fn none(alloc: Global) -> Outcome {
        Outcome {
            status: 0,
            output: Vec::new(alloc),
            image: Vec::new(alloc),
        }
    }

    /// Whether this is what must come of the row, behind the outcome of the row before.
    pub fn is_right(&self, row: &Row, before: &Outcome) -> bool {
        self.status == row.status && self.has_output(row, before) && self.has_image(row)
    }

    fn has_output(&self, row: &Row, before: &Outcome) -> bool {
        let output = self.output.as_slice();
        match row.has_output {
            Output::Whole => output == row.output.as_slice(),
            Output::Begins => output.starts_with(row.output.as_slice()),
            Output::Like => output == before.output.as_slice(),
        }
    }

    fn has_image(&self, row: &Row) -> bool {
        match row.has_image {
            Image::Anything => true,
            Image::Bytes => self.image.as_slice() == row.image.as_slice(),
            Image::Same => self.image.as_slice() == row.journal.as_slice(),
        }
    }
}

/// Runs the row, whose first read gives at most so many bytes.
pub fn outcome_of(alloc: Global, row: &Row, piece: usize) -> Result<Outcome, AllocError> {
    let disk = disk_of(alloc, row)?;
    let mut source = source_of(alloc, row, piece.max(1))?;
    let mut sink = sink_of(alloc, row)?;
    let mut clock = MemClock::new(alloc, row.readings.as_slice())?;
    let words = row.words.as_slice();
    let (status, disk) = run_over(alloc, words, disk, &mut source, &mut sink, &mut clock);
    left_of(alloc, status, &disk, &sink)
}

fn disk_of(alloc: Global, row: &Row) -> Result<MemDisk, AllocError> {
    let bytes = row.journal.as_slice();
    let room = row.room.max(bytes.len());
    MemDisk::new(alloc, bytes, room, row.calls, row.fails.as_slice())
}

fn source_of(alloc: Global, row: &Row, piece: usize) -> Result<MemSource, AllocError>
    requires { 0 < piece }
{
    MemSource::new(alloc, row.input.as_slice(), &[piece], row.reads.as_slice())
}

fn sink_of(alloc: Global, row: &Row) -> Result<MemSink, AllocError> {
    let more = match row.has_output {
        Output::Whole => MORE,
        Output::Begins | Output::Like => MOST,
    };
    let room = row.output.len().saturating_add(more);
    MemSink::new(alloc, room, row.writes.as_slice())
}

/// Runs the program's commands, over any disk, source, sink and clock.
fn run_over<D: Disk, S: Source, O: Sink, K: Clock>(
    alloc: Global,
    words: &[Text],
    disk: D,
    source: &mut S,
    sink: &mut O,
    clock: &mut K,
) -> (u8, D) {
    run(alloc, words, disk, source, sink, clock)
}

fn left_of(
    alloc: Global,
    status: u8,
    disk: &MemDisk,
    sink: &MemSink,
) -> Result<Outcome, AllocError> {
    Ok(Outcome {
        status,
        output: Vec::from_slice(alloc, sink.bytes())?,
        image: Vec::from_slice(alloc, disk.image())?,
    })
}
