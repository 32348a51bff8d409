//! A row: what is run, and what must come of it.

use crate::fault::Fault;
use al_base::{Stamp, Text, TextFault};
use std::alloc::{AllocError, Global};

/// How many calls a disk takes where no line says it.
const CALLS: usize = 1000;

/// How many bytes a disk holds where no line says it.
const ROOM: usize = 65_536;

/// What the output must be.
#[derive(Clone, Copy, Debug, PartialEq, Eq)]
pub enum Output {
    /// The bytes of the row.
    Whole,
    /// These, and any more.
    Begins,
    /// The output of the row before.
    Like,
}

/// What the disk must hold.
#[derive(Clone, Copy, Debug, PartialEq, Eq)]
pub enum Image {
    Anything,
    /// The bytes of the row.
    Bytes,
    /// What it held in the beginning.
    Same,
}

#[derive(Drop)]
pub struct Row {
    pub name: String,
    pub words: Vec<Text>,
    pub journal: Vec<u8>,
    pub input: Vec<u8>,
    pub readings: Vec<Stamp>,
    /// The numbers of the reads, of the writes and of the disk's calls that fail.
    pub reads: Vec<u64>,
    pub writes: Vec<u64>,
    pub fails: Vec<u64>,
    pub calls: usize,
    pub room: usize,
    /// At most so many bytes does the first read give; and so many runs there are, each with one more.
    pub piece: usize,
    pub runs: usize,
    pub status: u8,
    pub has_output: Output,
    pub output: Vec<u8>,
    pub has_image: Image,
    pub image: Vec<u8>,
    /// Fields of the next request.
    pub with: Vec<u8>,
    /// Fields of the next response: above its length, and below its type.
    pub above: Vec<u8>,
    pub below: Vec<u8>,
}

impl Row {
    /// A row without a name, which isn't run.
    pub fn new(alloc: Global) -> Row {
        Row {
            name: String::new(alloc),
            words: Vec::new(alloc),
            journal: Vec::new(alloc),
            input: Vec::new(alloc),
            readings: Vec::new(alloc),
            reads: Vec::new(alloc),
            writes: Vec::new(alloc),
            fails: Vec::new(alloc),
            calls: CALLS,
            room: ROOM,
            piece: usize::MAX,
            runs: 1,
            status: 0,
            has_output: Output::Whole,
            output: Vec::new(alloc),
            has_image: Image::Anything,
            image: Vec::new(alloc),
            with: Vec::new(alloc),
            above: Vec::new(alloc),
            below: Vec::new(alloc),
        }
    }

    /// Adds a word.
    pub fn add_word(&mut self, alloc: Global, bytes: &[u8]) -> Result<(), Fault> {
        let word = word(alloc, bytes)?;
        self.words.push(word).map_err(AllocError::from)?;
        Ok(())
    }

    /// Gives a row without words those of a session.
    pub fn complete(&mut self, alloc: Global) -> Result<(), Fault> {
        if self.words.is_empty() {
            self.add_word(alloc, b"session")?;
            self.add_word(alloc, b"j")?;
        }
        Ok(())
    }
}

fn word(alloc: Global, bytes: &[u8]) -> Result<Text, Fault> {
    match Text::read(alloc, bytes) {
        Ok(text) => Ok(text),
        Err(TextFault::NotUtf8) => Err(Fault::Form),
        Err(TextFault::Memory) => Err(Fault::Memory),
    }
}
