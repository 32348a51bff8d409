//! The lines that the program prints.

ghost use Rattle.std.specs.Prelude.{◌≡◌, ◌≢◌, ◌≤◌, ◌++◌, decimal, OnErr, OnOk};
ghost use Rattle.std.specs.Io.KnownBytes.{Appends};
ghost use Rattle.al_base.specs.Outside.{Rose};
ghost use Rattle.al_http.specs.Fronts.{AppendsFront};
ghost use Rattle.al_commands.specs.Lines.{Tells, counts_text, line_end};
ghost use Rattle.al_commands.specs.Statuses.{status_read_fault, status_write_fault};

use crate::status::SINK_FAULT;
use al_base::{Sink, WriteFault};
use al_http::write_all;
use itoa::Buffer;

/// Words, and the number behind them.
#[derive(Clone, Copy)]
pub struct Count {
    pub words: &'static [u8],
    pub number: u64,
}

/// Prints the text. The status is the given one, or that of a fault of the sink.
pub fn tell<O: Sink>(sink: &mut O, text: &[u8], done: u8) -> u8
    ensures told { Tells text.now done (O.held sink.old) (O.held sink.new) result }
    ensures write_fault { result ≢ done → Rose (O.faults sink.old) (O.faults sink.new) }
    ensures later { O.faults sink.old ≤ O.faults sink.new }
{
    match write_all(sink, text) {
        Ok(()) => done,
        Err(WriteFault) => SINK_FAULT,
    }
}

/// Prints the counts, one behind the other, and ends the line. The status is the given one, or that of a fault of the sink.
pub fn tell_counts<O: Sink>(sink: &mut O, counts: &[Count], done: u8) -> u8
    ensures told { Tells (counts_text counts.now ++ line_end) done (O.held sink.old)
        (O.held sink.new) result }
    ensures write_fault { result ≢ done → Rose (O.faults sink.old) (O.faults sink.new) }
    ensures later { O.faults sink.old ≤ O.faults sink.new }
{
    match write_counts(sink, counts) {
        Ok(()) => done,
        Err(WriteFault) => SINK_FAULT,
    }
}

fn write_counts<O: Sink>(sink: &mut O, counts: &[Count]) -> Result<(), WriteFault>
    ensures ok { OnOk result (Appends (O.held sink.old) (O.held sink.new) (counts_text counts.now
        ++ line_end)) }
    ensures fault { OnErr result
        (AppendsFront (O.held sink.old) (O.held sink.new) (counts_text counts.now ++ line_end)) }
    ensures later { O.faults sink.old ≤ O.faults sink.new }
    ensures cause { OnErr result (Rose (O.faults sink.old) (O.faults sink.new)) }
{
    for count in counts {
        write_count(sink, count)?;
    }
    write_all(sink, b"\n")
}

/// Writes the words and the number.
pub fn write_count<O: Sink>(sink: &mut O, count: &Count) -> Result<(), WriteFault>
    ensures ok { OnOk result (Appends (O.held sink.old) (O.held sink.new) (count.now.words.now
        ++ decimal count.now.number)) }
    ensures fault { OnErr result
        (AppendsFront (O.held sink.old) (O.held sink.new) (count.now.words.now
        ++ decimal count.now.number)) }
    ensures later { O.faults sink.old ≤ O.faults sink.new }
    ensures cause { OnErr result (Rose (O.faults sink.old) (O.faults sink.new)) }
{
    let mut buffer = Buffer::new();
    let digits = buffer.format(count.number);
    write_all(sink, count.words)?;
    write_all(sink, digits.as_bytes())
}
